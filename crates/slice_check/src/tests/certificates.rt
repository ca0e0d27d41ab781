// Worked certificates of both versions: a test that always fails, and an end of two goals behind each of its arms.
ghost use Rattle.std.specs.Prelude.{IfOk};
ghost use Rattle.slice_core.specs.WellFormed.{IsSumOver};

use crate::CertAnswer::{self, Accepted, Rejected};
use crate::HeaderField::{Kind, Version};
use crate::Rejection::{BadLine, Extra, GoalOrder, HeaderDiffers, Length, NoStrict, Sum};
use crate::check_certificate;
use slice_core::{Core, Lin, LinTerm, Node, Source};
use slice_io::{MemoryShelf, NamedFile};
use slice_num::{Frac, Word};
use sqlite_items::{Boxed, Items};
use std::alloc::{AllocError, Global};
use std::test::Fail;

pub(super) const FIRST: &str = "{\"agents\":2,\"certificate\":1,\"protocol\":\"z\"}";

pub(super) const SECOND: &str = "{\"agents\":2,\"certificate\":2,\"protocol\":\"z\"}";

pub(super) const THIRD: &str = "{\"agents\":2,\"certificate\":3,\"protocol\":\"z\"}";
// The whole is above 0, two agents' values make it up, and 0 is at least it: 1 * N + 1 * -N = 0.
pub(super) const COVER: &str = "{\"cover\":1,\"goal\":0,\"multipliers\":[\"1\",\"0\",\"0\",\"1\"]}";

pub(super) const GOAL_0: &str = "{\"goal\":0,\"multipliers\":[\"1\",\"0\",\"0\",\"1\",\"0\"]}";

pub(super) const GOAL_1: &str = "{\"goal\":1,\"multipliers\":[\"1\",\"0\",\"0\",\"1\",\"0\"]}";
// Nobody has a share, so the own rows are 0 > 0.
pub(super) const GOAL_2: &str = "{\"goal\":2,\"multipliers\":[\"0\",\"0\",\"0\",\"0\",\"1\"]}";

pub(super) const GOAL_3: &str = "{\"goal\":3,\"multipliers\":[\"0\",\"0\",\"0\",\"0\",\"1\"]}";

pub(super) const CLOSING: &str = "{\"closing\":\"envy-free\",\"goals\":4}";

const CASES: &[(&'static [&'static str], CertAnswer)] = &[
    (
        &[FIRST, GOAL_0, GOAL_1, GOAL_2, GOAL_3, CLOSING],
        Accepted { goals: 4 },
    ),
    (
        &[SECOND, GOAL_0, GOAL_1, GOAL_2, GOAL_3, CLOSING],
        Accepted { goals: 4 },
    ),
    (
        &[SECOND, COVER, GOAL_2, GOAL_3, CLOSING],
        Accepted { goals: 4 },
    ),
    (&[SECOND, GOAL_0, COVER], Rejected(GoalOrder { line: 3 })),
    (&[SECOND, COVER, GOAL_1], Rejected(GoalOrder { line: 3 })),
    (
        &[SECOND, COVER, GOAL_2, GOAL_3, COVER],
        Rejected(Extra { line: 5 }),
    ),
    (&[FIRST, COVER], Rejected(BadLine { line: 2 })),
    (
        &[FIRST, GOAL_0, GOAL_1, GOAL_2, GOAL_3, COVER],
        Rejected(Extra { line: 6 }),
    ),
    (&[COVER], Rejected(HeaderDiffers { field: Kind })),
    (&[THIRD], Rejected(HeaderDiffers { field: Version })),
    // The goal passed one choice alone, behind which there are four rows; without it there are three.
    (
        &[
            SECOND,
            "{\"cover\":2,\"goal\":0,\"multipliers\":[\"1\",\"0\",\"0\",\"1\"]}",
        ],
        Rejected(Length { goal: 0 }),
    ),
    (
        &[
            SECOND,
            "{\"cover\":0,\"goal\":0,\"multipliers\":[\"1\",\"0\",\"0\",\"1\"]}",
        ],
        Rejected(Length { goal: 0 }),
    ),
    (
        &[
            SECOND,
            "{\"cover\":0,\"goal\":0,\"multipliers\":[\"1\",\"0\",\"0\"]}",
        ],
        Rejected(Sum {
            goal: 0,
            unknown: 0,
        }),
    ),
    (
        &[
            SECOND,
            "{\"cover\":1,\"goal\":0,\"multipliers\":[\"0\",\"0\",\"0\",\"1\"]}",
        ],
        Rejected(NoStrict { goal: 0 }),
    ),
];

fn known(alloc: Global, value: Frac) -> Result<Lin, AllocError>
    ensures { IfOk result (λ sum. IsSumOver 0 sum.terms) }
{
    let term = LinTerm {
        minus: false,
        factor: None,
        source: Source::Const(value),
    };
    let terms = vec![in alloc; term]?;
    Ok(Lin {
        terms: Items::from_vec(terms),
    })
}

// Whether 0 is at least 1; the cake goes to agent 1 where it is, and to nobody where it isn't.
pub(super) fn never(alloc: Global) -> Result<Core, Fail> {
    let give = Node::Give {
        piece: 0,
        agent: 1,
        next: Boxed::new(alloc, Node::Done)?,
    };
    let root = Node::Test {
        left: known(alloc, Frac::whole(0))?,
        right: known(alloc, Frac::whole(1))?,
        strict: false,
        yes: Boxed::new(alloc, give)?,
        no: Boxed::new(alloc, Node::Done)?,
    };
    Ok(Core::new(Word::new(alloc, b"z")?, 2, root))
}

// The lines, with a LF behind each.
pub(super) fn bytes_of(alloc: Global, lines: &[&str]) -> Result<Vec<u8>, AllocError> {
    let mut bytes = Vec::new(alloc);
    for line in lines {
        bytes.extend_from_slice(line.as_bytes())?;
        bytes.push(10)?;
    }
    Ok(bytes)
}

// A shelf on which they are the file `c`.
pub(super) fn shelf_of(alloc: Global, lines: &[&str]) -> Result<MemoryShelf, AllocError> {
    let bytes = bytes_of(alloc, lines)?;
    let name = String::from_str(alloc, "c")?;
    let files = vec![in alloc; NamedFile { name, bytes }]?;
    Ok(MemoryShelf::new(files, 100, Vec::new(alloc)))
}

#[test]
fn reads_both_versions(rt: HostRuntime) -> Result<(), Fail> {
    let core = never(rt.alloc())?;
    for (lines, want) in CASES {
        let mut shelf = shelf_of(rt.alloc(), *lines)?;
        let Ok(answer) = check_certificate(rt.alloc(), &core, &mut shelf, "c") else {
            assert!(rt; false, "an answer");
            return Ok(());
        };
        assert_eq!(rt; answer, *want);
    }
    Ok(())
}
