// What no clause says: that calls succeed, and the texts of lines.
ghost use Rattle.std.specs.Prelude.{IfOk};
ghost use Rattle.slice_cert.specs.CertLines.{MayStand};

use crate::{Line, ReadLineFault, read_line, short_line, write_line};
use slice_num::Word;
use sqlite_items::Items;
use std::alloc::{AllocError, Global};
use std::test::Fail;

const LEAST: i128 = -170_141_183_460_469_231_731_687_303_715_884_105_727;

fn header(alloc: Global) -> Result<Line, Fail>
    ensures { IfOk result (λ l. MayStand l) }
{
    Ok(Line::Header {
        version: 1,
        protocol: Word::new(alloc, b"cc")?,
        agents: 2,
    })
}

fn refutation(alloc: Global) -> Result<Line, AllocError>
    ensures { IfOk result (λ l. MayStand l) }
{
    let multipliers: Vec<i128> = vec![in alloc; 0, -1, LEAST]?;
    Ok(Line::Refutation {
        goal: u64::MAX,
        multipliers: Items::from_vec(multipliers),
    })
}

fn cover(alloc: Global) -> Result<Line, AllocError>
    ensures { IfOk result (λ l. MayStand l) }
{
    let multipliers: Vec<i128> = vec![in alloc; 1, 0, 0, 1]?;
    Ok(Line::Cover {
        goal: 0,
        passed: 1,
        multipliers: Items::from_vec(multipliers),
    })
}

#[test]
fn writes_each_kind_of_line(rt: HostRuntime) -> Result<(), Fail> {
    let alloc = rt.alloc();
    let line = write_line(alloc, &header(alloc)?)?;
    assert_eq!(rt;
        line.as_slice(),
        b"{\"agents\":2,\"certificate\":1,\"protocol\":\"cc\"}\n".as_slice()
    );
    let line = write_line(alloc, &refutation(alloc)?)?;
    assert_eq!(rt;
        line.as_slice(),
        b"{\"goal\":18446744073709551615,\"multipliers\":[\"0\",\"-1\",\"-170141183460469231731687303715884105727\"]}\n".as_slice()
    );
    let line = write_line(alloc, &cover(alloc)?)?;
    assert_eq!(rt;
        line.as_slice(),
        b"{\"cover\":1,\"goal\":0,\"multipliers\":[\"1\",\"0\",\"0\",\"1\"]}\n".as_slice()
    );
    let line = write_line(alloc, &Line::Closing { goals: 6 })?;
    assert_eq!(rt;
        line.as_slice(),
        b"{\"closing\":\"envy-free\",\"goals\":6}\n".as_slice()
    );
    Ok(())
}

#[test]
fn reads_lines_in_any_layout(rt: HostRuntime) -> Result<(), Fail> {
    let alloc = rt.alloc();
    let cases: [&[u8]; 3] = [
        b"{\"agents\":2,\"certificate\":1,\"protocol\":\"cc\"}",
        b" {\"protocol\" : \"c\\u0063\",\r\"agents\":2 ,\t\"certificate\":1 } ",
        b"{\"agents\":3,\"certificate\":1,\"protocol\":\"cc\",\"agents\":2}",
    ];
    for bytes in &cases {
        let Line::Header {
            version,
            protocol,
            agents,
        } = read_line(alloc, *bytes)?
        else {
            assert!(rt; false, "no header");
            return Ok(());
        };
        assert_eq!(rt; (version, agents), (1, 2));
        assert_eq!(rt; protocol.bytes(), b"cc".as_slice());
    }
    Ok(())
}

#[test]
fn reads_multipliers_and_goals(rt: HostRuntime) -> Result<(), Fail> {
    let alloc = rt.alloc();
    let text =
        b"{\"multipliers\":[\"0\",\"-1\",\"-170141183460469231731687303715884105727\"],\"goal\":18446744073709551615}";
    let Line::Refutation { goal, multipliers } = read_line(alloc, text)? else {
        assert!(rt; false, "no refutation");
        return Ok(());
    };
    assert_eq!(rt; goal, u64::MAX);
    assert_eq!(rt; multipliers.as_slice(), [0, -1, LEAST].as_slice());
    let Line::Refutation { goal, multipliers } = read_line(
        alloc,
        b"{\"goal\":0,\"multipliers\":[]}",
    )?
    else {
        assert!(rt; false, "no refutation");
        return Ok(());
    };
    assert_eq!(rt; goal, 0);
    assert_eq!(rt; multipliers.as_slice().len(), 0);
    let Line::Cover {
        goal,
        passed,
        multipliers,
    } = read_line(
        alloc,
        b"{\"goal\":7,\"multipliers\":[\"-1\"],\"cover\":4294967295}",
    )?
    else {
        assert!(rt; false, "no line that covers goals");
        return Ok(());
    };
    assert_eq!(rt; (goal, passed), (7, u32::MAX));
    assert_eq!(rt; multipliers.as_slice(), [-1].as_slice());
    let Line::Closing { goals } = read_line(alloc, b"{\"goals\":6,\"closing\":\"envy-free\"}")?
    else {
        assert!(rt; false, "no closing line");
        return Ok(());
    };
    assert_eq!(rt; goals, 6);
    Ok(())
}

#[test]
fn refuses_other_headers_and_closing_lines(rt: HostRuntime) {
    let alloc = rt.alloc();
    let cases: [&[u8]; 16] = [
        b"",
        b"{}",
        b"[]",
        b"{\"agents\":2,\"certificate\":1,\"protocol\":\"cc\"",
        b"{\"agents\":2,\"certificate\":1}",
        b"{\"agents\":2,\"certificate\":1,\"protocol\":\"cc\",\"goals\":6}",
        b"{\"agents\":4294967296,\"certificate\":1,\"protocol\":\"cc\"}",
        b"{\"agents\":2,\"certificate\":1.0,\"protocol\":\"cc\"}",
        b"{\"agents\":-2,\"certificate\":1,\"protocol\":\"cc\"}",
        b"{\"agents\":2,\"certificate\":1,\"protocol\":\"cut\"}",
        b"{\"agents\":2,\"certificate\":1,\"protocol\":\"Cc\"}",
        b"{\"closing\":\"envy-free\",\"goals\":18446744073709551616}",
        b"{\"closing\":\"envyfree\",\"goals\":6}",
        b"{\"closing\":\"envy-free\",\"goals\":\"6\"}",
        b"{\"closing\":\"envy-free\",\"goals\":6,\"more\":0}",
        b"{\"closing\":\"envy-free\",\"goals\":6}\xff",
    ];
    for bytes in &cases {
        match read_line(alloc, *bytes) {
            Ok(_) => assert!(rt; false, "read"),
            Err(fault) => assert_eq!(rt; fault, ReadLineFault::BadLine),
        }
    }
}

#[test]
fn refuses_other_lines_of_goals(rt: HostRuntime) {
    let alloc = rt.alloc();
    let cases: [&[u8]; 16] = [
        b"{\"cover\":4294967296,\"goal\":0,\"multipliers\":[]}",
        b"{\"cover\":-1,\"goal\":0,\"multipliers\":[]}",
        b"{\"cover\":\"1\",\"goal\":0,\"multipliers\":[]}",
        b"{\"cover\":1,\"multipliers\":[]}",
        b"{\"goal\":0}",
        b"{\"goal\":0,\"multipliers\":\"1\"}",
        b"{\"goal\":0,\"multipliers\":[1]}",
        b"{\"goal\":0,\"multipliers\":[\"01\"]}",
        b"{\"goal\":0,\"multipliers\":[\"-0\"]}",
        b"{\"goal\":0,\"multipliers\":[\"+1\"]}",
        b"{\"goal\":0,\"multipliers\":[\"\"]}",
        b"{\"goal\":0,\"multipliers\":[\"1 \"]}",
        b"{\"goal\":0,\"multipliers\":[\"-170141183460469231731687303715884105728\"]}",
        b"{\"goal\":0,\"multipliers\":[\"170141183460469231731687303715884105728\"]}",
        b"{\"goal\":-1,\"multipliers\":[]}",
        b"{\"goal\":0,\"multipliers\":[],\"closing\":\"envy-free\"}",
    ];
    for bytes in &cases {
        match read_line(alloc, *bytes) {
            Ok(_) => assert!(rt; false, "read"),
            Err(fault) => assert_eq!(rt; fault, ReadLineFault::BadLine),
        }
    }
}

#[test]
fn shortens_lines(rt: HostRuntime) -> Result<(), Fail> {
    let alloc = rt.alloc();
    let whole: Vec<i128> = vec![in alloc; 0, 0, 0, 0, 1]?;
    let Line::Refutation { goal, multipliers } = short_line(2, 7, whole) else {
        assert!(rt; false, "the own row is left out");
        return Ok(());
    };
    assert_eq!(rt; goal, 7);
    assert_eq!(rt; multipliers.as_slice(), [0, 0, 0, 0, 1].as_slice());
    let midst: Vec<i128> = vec![in alloc; 1, 0, 0, 1, 0]?;
    let Line::Cover {
        goal,
        passed,
        multipliers,
    } = short_line(2, 0, midst)
    else {
        assert!(rt; false, "no line that covers goals");
        return Ok(());
    };
    assert_eq!(rt; (goal, passed), (0, 1));
    assert_eq!(rt; multipliers.as_slice(), [1, 0, 0, 1].as_slice());
    let first: Vec<i128> = vec![in alloc; 1, -1, 0, 0, 0, 0]?;
    let Line::Cover {
        goal,
        passed,
        multipliers,
    } = short_line(2, 3, first)
    else {
        assert!(rt; false, "no line that covers goals");
        return Ok(());
    };
    assert_eq!(rt; (goal, passed), (3, 0));
    assert_eq!(rt; multipliers.as_slice(), [1, -1, 0].as_slice());
    Ok(())
}
