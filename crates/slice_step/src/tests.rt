use crate::{CutAnswer, ValuationFault, read_replay, read_valuations};
use slice_num::Frac;
use std::test::Fail;

const FIRST: &str = "{\"ends\":[1],\"heights\":[2]}";

// The second entry of a file for two agents, and the first fault.
#[test]
fn names_the_fault_of_an_entry(rt: HostRuntime) -> Result<(), Fail> {
    let long = "{\"ends\":[2],\"heights\":[1]}";
    for (entry, want) in [
        ("1", ValuationFault::Shape { agent: 2 }),
        ("{}", ValuationFault::Shape { agent: 2 }),
        (
            "{\"ends\":[1],\"heights\":1}",
            ValuationFault::Shape { agent: 2 },
        ),
        (
            "{\"ends\":[],\"heights\":[]}",
            ValuationFault::Shape { agent: 2 },
        ),
        (
            "{\"ends\":[1.5],\"heights\":[1,1]}",
            ValuationFault::Shape { agent: 2 },
        ),
        (
            "{\"ends\":[1],\"heights\":[1.0]}",
            ValuationFault::NotWhole { agent: 2 },
        ),
        (
            "{\"ends\":[1e2],\"heights\":[-1]}",
            ValuationFault::NotWhole { agent: 2 },
        ),
        (
            "{\"ends\":[0],\"heights\":[-0]}",
            ValuationFault::NotWhole { agent: 2 },
        ),
        (
            "{\"ends\":[1],\"heights\":[18446744073709551616]}",
            ValuationFault::NotWhole { agent: 2 },
        ),
        (
            "{\"ends\":[0],\"heights\":[-1]}",
            ValuationFault::EndsOrder { agent: 2 },
        ),
        (
            "{\"ends\":[-1,1],\"heights\":[1,1]}",
            ValuationFault::EndsOrder { agent: 2 },
        ),
        (
            "{\"ends\":[1,1],\"heights\":[1,1]}",
            ValuationFault::EndsOrder { agent: 2 },
        ),
        (
            "{\"ends\":[1000001],\"heights\":[1]}",
            ValuationFault::EndsOrder { agent: 2 },
        ),
        (
            "{\"ends\":[2],\"heights\":[-1]}",
            ValuationFault::HeightRange { agent: 2 },
        ),
        (
            "{\"ends\":[1],\"heights\":[1000000000000000001]}",
            ValuationFault::HeightRange { agent: 2 },
        ),
        (
            "{\"ends\":[1,2],\"heights\":[0,0]}",
            ValuationFault::NoTotal { agent: 2 },
        ),
        (long, ValuationFault::LengthsDiffer { agent: 2 }),
    ] {
        let text = format!(in rt.alloc(); "[{FIRST},{entry}]")?;
        let found = read_valuations(rt.alloc(), text.as_bytes(), 2).map(|vs| vs.len());
        assert_eq!(rt; found, Err(want), "{text}");
    }
    Ok(())
}

// A file for two agents, and the first fault.
#[test]
fn names_the_fault_of_a_file(rt: HostRuntime) -> Result<(), Fail> {
    for (text, want) in [
        ("", ValuationFault::Json),
        ("[1,", ValuationFault::Json),
        (
            "{\"ends\":[1],\"heights\":[2]}",
            ValuationFault::Shape { agent: 0 },
        ),
        ("[]", ValuationFault::AgentCount),
        ("[1]", ValuationFault::AgentCount),
        ("[1,2,3]", ValuationFault::AgentCount),
        (
            "[{\"ends\":[1],\"heights\":[1.5]},1]",
            ValuationFault::NotWhole { agent: 1 },
        ),
        (
            "[{\"ends\":[1],\"heights\":[0]},1]",
            ValuationFault::NoTotal { agent: 1 },
        ),
    ] {
        let found = read_valuations(rt.alloc(), text.as_bytes(), 2).map(|vs| vs.len());
        assert_eq!(rt; found, Err(want), "{text}");
    }
    Ok(())
}

// The answers of a file for one agent.
#[test]
fn reads_answers(rt: HostRuntime) -> Result<(), Fail> {
    let zero = Frac::whole(0);
    let half = Frac::new(1, 2)?;
    let last = 4294967295;
    for (cuts, want) in [
        (
            "[]",
            Ok((
                0,
                CutAnswer {
                    part: 0,
                    point: zero,
                },
            )),
        ),
        (
            "[\"1/2\"]",
            Ok((
                1,
                CutAnswer {
                    part: 0,
                    point: half,
                },
            )),
        ),
        (
            "[[0,\"2/4\"]]",
            Ok((
                1,
                CutAnswer {
                    part: 0,
                    point: half,
                },
            )),
        ),
        (
            "[[4294967295,\"-0\"],\"7\"]",
            Ok((
                2,
                CutAnswer {
                    part: last,
                    point: zero,
                },
            )),
        ),
        ("[[0]]", Err(ValuationFault::CutForm { index: 0 })),
        ("[\"1\",1]", Err(ValuationFault::CutForm { index: 1 })),
        (
            "[\"1\",\"1\",[0,1]]",
            Err(ValuationFault::CutForm { index: 2 }),
        ),
        ("[[0,\"1\",0]]", Err(ValuationFault::CutForm { index: 0 })),
        (
            "[[4294967296,\"1\"]]",
            Err(ValuationFault::CutForm { index: 0 }),
        ),
        ("[[1.0,\"1\"]]", Err(ValuationFault::CutForm { index: 0 })),
        ("[\"1.0\"]", Err(ValuationFault::CutForm { index: 0 })),
        ("[\"1/0\"]", Err(ValuationFault::CutForm { index: 0 })),
        ("1", Err(ValuationFault::Shape { agent: 0 })),
    ] {
        let text = format!(in rt.alloc(); "{{\"x\":0,\"cuts\":{cuts},\"valuations\":[{FIRST}]}}")?;
        let found = match read_replay(rt.alloc(), text.as_bytes(), 1) {
            Ok(file) => {
                let first = CutAnswer {
                    part: 0,
                    point: zero,
                };
                Ok((file.cuts.len(), *file.cuts.first().unwrap_or(&first)))
            }
            Err(fault) => Err(fault),
        };
        assert_eq!(rt; found, want, "{text}");
    }
    Ok(())
}

// What stands in a file, and faults of valuations before those of answers.
#[test]
fn reads_files(rt: HostRuntime) -> Result<(), Fail> {
    let text =
        "[{\"ends\":[1,2,3],\"heights\":[1,0,9]},{\"name\":[],\"heights\":[7],\"ends\":[1],\"ends\":[3]}]";
    let valuations = read_valuations(rt.alloc(), text.as_bytes(), 2)?;
    assert_eq!(rt; valuations.len(), 2);
    assert_eq!(rt; valuations.length(), 3);
    assert_eq!(rt; valuations.get(1).ends(), [1, 2, 3].as_slice());
    assert_eq!(rt; valuations.get(1).heights(), [1, 0, 9].as_slice());
    assert_eq!(rt; valuations.get(2).heights(), [7].as_slice());
    let text = "{\"cuts\":[1],\"valuations\":[1,1]}";
    let fault = read_replay(rt.alloc(), text.as_bytes(), 2).map(|file| file.cuts.len());
    assert_eq!(rt; fault, Err(ValuationFault::Shape { agent: 1 }));
    Ok(())
}
