// What the program tells of no text: the places in a parsed program, and the texts of faults. What is a program, and where the
// first wrong token is, stands in cases/syntax.txt.
use slice_ast::Stmt;
use slice_lex::LexFault;
use slice_parse::{ParseFault, parse};
use std::test::Fail;

#[test]
fn places_are_those_of_the_text(rt: HostRuntime) -> Result<(), Fail> {
    let text =
        "protocol p agents 2 { pick 1 from a, b as c, d; call f(); if 0 < 1 { } else { } if 0 < 1 { } else { } as x; }";
    let program = parse(rt.alloc(), text.as_bytes())?;
    assert_eq!(rt; (program.name.at, program.agents.at), (9, 18));
    let mut ends = Vec::new(rt.alloc());
    for stmt in program.body.as_slice() {
        match stmt {
            Stmt::Pick { pieces, end, .. } => {
                let at = pieces.as_slice().first().map(|name| name.at);
                assert_eq!(rt; at, Some(34));
                ends.push(*end)?;
            }
            Stmt::Call { callee, end, .. } => {
                assert_eq!(rt; callee.at, 53);
                ends.push(*end)?;
            }
            Stmt::If { end, .. } => ends.push(*end)?,
            _ => {}
        }
    }
    assert_eq!(rt; ends.as_slice(), [46, 56, 78, 106].as_slice());
    Ok(())
}

#[test]
fn faults_show_their_names(rt: HostRuntime) -> Result<(), Fail> {
    let alloc = rt.alloc();
    for (fault, want) in [
        (ParseFault::Lex(LexFault::BadByte { at: 1 }), "BadByte"),
        (ParseFault::Lex(LexFault::LongWord { at: 1 }), "LongWord"),
        (ParseFault::Syntax { at: 2 }, "Syntax"),
        (ParseFault::DeepBlock { at: 3 }, "DeepBlock"),
        (ParseFault::LongSum { at: 4 }, "LongSum"),
        (ParseFault::Memory, "Memory"),
    ] {
        assert_eq!(rt; fault.to_string(alloc)?.as_str(), want);
    }
    Ok(())
}
