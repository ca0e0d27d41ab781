// Worked upgrades: what is answered, and what is written of a certificate or of its lines before what is wrong.
use super::certificates::{
    CLOSING, COVER, FIRST, GOAL_0, GOAL_1, GOAL_2, GOAL_3, SECOND, THIRD, bytes_of, never, shelf_of,
};
use crate::CertAnswer::{self, Accepted, Rejected};
use crate::HeaderField::{Agents, Kind, Protocol, Version};
use crate::Rejection::{
    BadLine, ClosingDiffers, Extra, GoalOrder, HeaderDiffers, Length, Missing, NoStrict, NotClosed,
};
use crate::upgrade_certificate;
use slice_io::GrowingSink;
use std::test::Fail;

// The lines of a file, what is answered, and the lines that are out then.
type Case = (&'static [&'static str], CertAnswer, &'static [&'static str]);

const CASES: &[Case] = &[
    // Goals 0 and 1 don't need their own rows, so one line takes both; goals 2 and 3 need theirs.
    (
        &[FIRST, GOAL_0, GOAL_1, GOAL_2, GOAL_3, CLOSING],
        Accepted { goals: 4 },
        &[SECOND, COVER, GOAL_2, GOAL_3, CLOSING],
    ),
    (&[], Rejected(NotClosed), &[]),
    (&[FIRST], Rejected(NotClosed), &[SECOND]),
    (&[FIRST, GOAL_0], Rejected(NotClosed), &[SECOND, COVER]),
    // The line of goal 1 is checked, though nothing is written of it.
    (
        &[
            FIRST,
            GOAL_0,
            "{\"goal\":1,\"multipliers\":[\"0\",\"0\",\"0\",\"0\",\"0\"]}",
        ],
        Rejected(NoStrict { goal: 1 }),
        &[SECOND, COVER],
    ),
    (
        &[FIRST, GOAL_0, GOAL_2],
        Rejected(GoalOrder { line: 3 }),
        &[SECOND, COVER],
    ),
    (
        &[FIRST, GOAL_0, CLOSING],
        Rejected(Missing { goal: 1 }),
        &[SECOND, COVER],
    ),
    (&[FIRST, COVER], Rejected(BadLine { line: 2 }), &[SECOND]),
    // Multipliers that don't refute the goal aren't written.
    (
        &[
            FIRST,
            "{\"goal\":0,\"multipliers\":[\"0\",\"0\",\"0\",\"0\",\"0\"]}",
        ],
        Rejected(NoStrict { goal: 0 }),
        &[SECOND],
    ),
    (
        &[
            FIRST,
            "{\"goal\":0,\"multipliers\":[\"1\",\"0\",\"0\",\"1\"]}",
        ],
        Rejected(Length { goal: 0 }),
        &[SECOND],
    ),
    // The closing line is out where the file is accepted alone.
    (
        &[FIRST, GOAL_0, GOAL_1, GOAL_2, GOAL_3, CLOSING, CLOSING],
        Rejected(Extra { line: 7 }),
        &[SECOND, COVER, GOAL_2, GOAL_3],
    ),
    (
        &[
            FIRST,
            GOAL_0,
            GOAL_1,
            GOAL_2,
            GOAL_3,
            "{\"closing\":\"envy-free\",\"goals\":3}",
        ],
        Rejected(ClosingDiffers { line: 6 }),
        &[SECOND, COVER, GOAL_2, GOAL_3],
    ),
    (
        &[SECOND, COVER, GOAL_2, GOAL_3, CLOSING],
        Rejected(HeaderDiffers { field: Version }),
        &[],
    ),
    // The version comes before the name.
    (
        &["{\"agents\":2,\"certificate\":2,\"protocol\":\"y\"}"],
        Rejected(HeaderDiffers { field: Version }),
        &[],
    ),
    (&[THIRD], Rejected(HeaderDiffers { field: Version }), &[]),
    (
        &["{\"agents\":2,\"certificate\":1,\"protocol\":\"y\"}"],
        Rejected(HeaderDiffers { field: Protocol }),
        &[],
    ),
    (
        &["{\"agents\":3,\"certificate\":1,\"protocol\":\"z\"}"],
        Rejected(HeaderDiffers { field: Agents }),
        &[],
    ),
    (&[GOAL_0], Rejected(HeaderDiffers { field: Kind }), &[]),
];

#[test]
fn upgrades_version_1(rt: HostRuntime) -> Result<(), Fail> {
    let core = never(rt.alloc())?;
    for (lines, want, out) in CASES {
        let mut shelf = shelf_of(rt.alloc(), *lines)?;
        let mut sink = GrowingSink::new(rt.alloc());
        let Ok(answer) = upgrade_certificate(rt.alloc(), &core, &mut shelf, "c", &mut sink) else {
            assert!(rt; false, "an answer");
            return Ok(());
        };
        assert_eq!(rt; answer, *want);
        let bytes = sink.into_bytes();
        let wanted = bytes_of(rt.alloc(), *out)?;
        assert!(rt; bytes.as_slice() == wanted.as_slice());
    }
    Ok(())
}
