//! Lines that another implementation prints for protocols that leave envy or get stuck. Each holds its own valuations and
//! answers, as a replay file does: they are read from the line, and the line is written of them again.
use slice_counter::{Counterexample, counter_line};
use slice_num::Memory;
use slice_paths::GoalKind;
use slice_step::read_replay;
use std::alloc::Global;
use std::test::Fail;

// What is told of a goal: its number, its kind, and how many queries are answered before it.
type Told = (u64, GoalKind, u32);

fn written_again(alloc: Global, line: &[u8], agents: u32, told: Told) -> Result<Vec<u8>, Memory> {
    if agents == 0 || agents > 16 {
        return Err(Memory);
    }
    let Ok(file) = read_replay(alloc, line, agents) else {
        return Err(Memory);
    };
    let counter = Counterexample {
        goal: told.0,
        kind: told.1,
        query: told.2,
        valuations: file.valuations,
        cuts: file.cuts,
    };
    counter_line(alloc, &counter)
}

#[test]
fn writes_the_lines_of_counterexamples(rt: HostRuntime) -> Result<(), Fail> {
    let alloc = rt.alloc();
    let rows: [(&str, u32, Told); 4] = [
        (
            "{\"closing\":\"counterexample\",\"cuts\":[],\"goal\":1,\"outcome\":{\"query\":0,\"side\":\"high\"},\"valuations\":[{\"ends\":[1],\"heights\":[1]}]}\n",
            1,
            (1, GoalKind::High, 0),
        ),
        (
            "{\"closing\":\"counterexample\",\"cuts\":[\"1\"],\"goal\":2,\"outcome\":{\"query\":3,\"side\":\"low\"},\"valuations\":[{\"ends\":[1,2],\"heights\":[3,0]},{\"ends\":[1,2],\"heights\":[0,3]},{\"ends\":[1,2],\"heights\":[0,3]},{\"ends\":[1,2],\"heights\":[2,1]}]}\n",
            4,
            (2, GoalKind::Low, 3),
        ),
        (
            "{\"closing\":\"counterexample\",\"cuts\":[\"1\",\"2\"],\"goal\":5,\"outcome\":{\"query\":4,\"side\":\"high\"},\"valuations\":[{\"ends\":[1,2,3],\"heights\":[1,0,0]},{\"ends\":[1,2,3],\"heights\":[1,0,0]},{\"ends\":[1,2,3],\"heights\":[1,0,0]}]}\n",
            3,
            (5, GoalKind::High, 4),
        ),
        (
            "{\"closing\":\"counterexample\",\"cuts\":[\"3\",\"2\",\"1\",[2,\"4\"]],\"goal\":36,\"outcome\":{\"agent\":3,\"envies\":1},\"valuations\":[{\"ends\":[1,2,3,4,5],\"heights\":[4,0,0,4,4]},{\"ends\":[1,2,3,4,5],\"heights\":[4,0,1,7,0]},{\"ends\":[1,2,3,4,5],\"heights\":[4,1,0,0,7]}]}\n",
            3,
            (36, GoalKind::Envy { a: 3, b: 1 }, 6),
        ),
    ];
    for (line, agents, told) in &rows {
        let written = written_again(alloc, line.as_bytes(), *agents, *told)?;
        assert!(rt;
            written.as_slice() == line.as_bytes(),
            "not written: {line}"
        );
    }
    Ok(())
}
