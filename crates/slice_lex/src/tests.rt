// What no clause says: that calls succeed, the tokens and the faults of whole texts, and the texts of faults.
use crate::{LexFault, is_name, lex};
use std::alloc::Global;
use std::fmt::Write;
use std::test::Fail;

const CHOOSE: &str = "\
protocol cc agents 2 {
  cut 1 cake at 1/2 as l, r;
  if value(2, l) >= value(2, r) {
    give l to 2;
    give r to 1;
  } else {
    give r to 2;
    give l to 1;
  }
}
";

// Each token as its kind, its text and its place.
const CHOOSE_TOKENS: &str = "\
Word protocol 0
Word cc 9
Word agents 12
Number 2 19
Sign { 21
Word cut 25
Number 1 29
Word cake 31
Word at 36
Number 1 39
Sign / 40
Number 2 41
Word as 43
Word l 46
Sign , 47
Word r 49
Sign ; 50
Word if 54
Word value 57
Sign ( 62
Number 2 63
Sign , 64
Word l 66
Sign ) 67
Sign >= 69
Word value 72
Sign ( 77
Number 2 78
Sign , 79
Word r 81
Sign ) 82
Sign { 84
Word give 90
Word l 95
Word to 97
Number 2 100
Sign ; 101
Word give 107
Word r 112
Word to 114
Number 1 117
Sign ; 118
Sign } 122
Word else 124
Sign { 129
Word give 135
Word r 140
Word to 142
Number 2 145
Sign ; 146
Word give 152
Word l 157
Word to 159
Number 1 162
Sign ; 163
Sign } 167
Sign } 169
";

// 64 letters.
const LONG: &str = "abcdefghijklmnopqrstuvwxyzabcdefghijklmnopqrstuvwxyzabcdefghijkl";

const TEXTS: &[(&str, &str)] = &[
    ("", ""),
    (" \t\r\n", ""),
    ("# only a comment", ""),
    ("# A 01 \u{e9} # !\n", ""),
    // CR ends no comment.
    ("#a\rb", ""),
    ("a # 01", "Word a 0\n"),
    ("a#b\nc", "Word a 0\nWord c 4\n"),
    ("a#", "Word a 0\n"),
    ("1#a", "Number 1 0\n"),
    ("a1_b", "Word a1_b 0\n"),
    ("a 1", "Word a 0\nNumber 1 2\n"),
    ("agent", "Word agent 0\n"),
    ("0", "Number 0 0\n"),
    ("10/0", "Number 10 0\nSign / 2\nNumber 0 3\n"),
    ("123456789012345678", "Number 123456789012345678 0\n"),
    ("<=", "Sign <= 0\n"),
    ("< =", "Sign < 0\nSign = 2\n"),
    (">#\n=", "Sign > 0\nSign = 3\n"),
    ("=<", "Sign = 0\nSign < 1\n"),
    (">>==", "Sign > 0\nSign >= 1\nSign = 3\n"),
    ("(){}", "Sign ( 0\nSign ) 1\nSign { 2\nSign } 3\n"),
    (
        ",;+-*/",
        "Sign , 0\nSign ; 1\nSign + 2\nSign - 3\nSign * 4\nSign / 5\n",
    ),
];

const FAULTY_TEXTS: &[(&str, &str)] = &[
    ("!", "BadByte { at: 0 }"),
    ("A", "BadByte { at: 0 }"),
    ("_a", "BadByte { at: 0 }"),
    ("\u{e9}", "BadByte { at: 0 }"),
    ("a\r\nB", "BadByte { at: 3 }"),
    ("# \u{e9} A\n?", "BadByte { at: 7 }"),
    ("a;!", "BadByte { at: 2 }"),
    ("aB", "BadByte { at: 1 }"),
    ("1a", "BadByte { at: 1 }"),
    ("1_", "BadByte { at: 1 }"),
    ("0x", "BadByte { at: 1 }"),
    ("1A", "BadByte { at: 1 }"),
    ("12 34cut", "BadByte { at: 5 }"),
    ("123456789012345678a", "BadByte { at: 18 }"),
    ("00", "LeadingZero { at: 0 }"),
    ("01/2", "LeadingZero { at: 0 }"),
    ("1/02", "LeadingZero { at: 2 }"),
    ("\r\n01a", "LeadingZero { at: 2 }"),
    ("# c\n00", "LeadingZero { at: 4 }"),
    ("0000000000000000000", "LeadingZero { at: 0 }"),
    ("1234567890123456789", "LongNumber { at: 0 }"),
    ("a\r\n1234567890123456789b", "LongNumber { at: 3 }"),
    ("01 !", "LeadingZero { at: 0 }"),
    ("! 01", "BadByte { at: 0 }"),
];

/// The tokens of a text, a line for each: its kind, its text and its place. Or the fault.
fn shown(alloc: Global, text: &str) -> Result<String, Fail> {
    match lex(alloc, text.as_bytes()) {
        Ok(tokens) => {
            let mut lines = String::new(alloc);
            for token in &tokens {
                let part = text.get(token.from..token.to).unwrap_or("?");
                writeln!(lines, "{:?} {} {}", token.kind, part, token.from)?;
            }
            Ok(lines)
        }
        Err(fault) => Ok(format!(in alloc; "{fault:?}")?),
    }
}

#[test]
fn a_protocol_is_its_tokens(rt: HostRuntime) -> Result<(), Fail> {
    assert_eq!(rt; shown(rt.alloc(), CHOOSE)?.as_str(), CHOOSE_TOKENS);
    Ok(())
}

#[test]
fn texts_are_parted_into_tokens(rt: HostRuntime) -> Result<(), Fail> {
    let alloc = rt.alloc();
    for (text, want) in TEXTS {
        assert_eq!(rt; shown(alloc, text)?.as_str(), *want);
    }
    let want = format!(in alloc; "Word {LONG} 0\n")?;
    assert_eq!(rt; shown(alloc, LONG)?.as_str(), want.as_str());
    Ok(())
}

#[test]
fn the_leftmost_fault_is_told(rt: HostRuntime) -> Result<(), Fail> {
    let alloc = rt.alloc();
    for (text, want) in FAULTY_TEXTS {
        assert_eq!(rt; shown(alloc, text)?.as_str(), *want);
    }
    let first = format!(in alloc; "{LONG}m")?;
    assert_eq!(rt;
        shown(alloc, first.as_str())?.as_str(),
        "LongWord { at: 0 }"
    );
    let last = format!(in alloc; "a\r\n<{LONG}0")?;
    assert_eq!(rt; shown(alloc, last.as_str())?.as_str(), "LongWord { at: 4 }");
    Ok(())
}

#[test]
fn names_are_words_that_are_not_reserved(rt: HostRuntime) -> Result<(), Fail> {
    for (text, want) in [
        ("cake", true),
        ("a_1", true),
        ("agents1", true),
        (LONG, true),
        ("", false),
        ("1a", false),
        ("_a", false),
        ("aB", false),
        ("agent", false),
        ("value", false),
        ("yield", false),
    ] {
        assert_eq!(rt; is_name(text.as_bytes()), want);
    }
    let long = format!(in rt.alloc(); "{LONG}m")?;
    assert!(rt; !is_name(long.as_bytes()));
    Ok(())
}

#[test]
fn faults_show_their_names(rt: HostRuntime) -> Result<(), Fail> {
    let alloc = rt.alloc();
    for (fault, want) in [
        (LexFault::BadByte { at: 1 }, "BadByte"),
        (LexFault::LongWord { at: 2 }, "LongWord"),
        (LexFault::LongNumber { at: 3 }, "LongNumber"),
        (LexFault::LeadingZero { at: 4 }, "LeadingZero"),
        (LexFault::Memory, "Memory"),
    ] {
        assert_eq!(rt; fault.to_string(alloc)?.as_str(), want);
    }
    Ok(())
}
