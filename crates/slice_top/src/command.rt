//! The words of the command line.
ghost use Rattle.std.specs.Prelude.{◌≡◌, map, option_map};
ghost use Rattle.std.specs.String.{string_bytes};
ghost use Rattle.slice_top.specs.Commands.{command_of, of_one_word, of_rounds, of_two_files, rounds_of};
ghost use Rattle.slice_top.specs.Stops.{command_view};

/// What is asked for. Files go by name.
#[derive(Clone, Copy, Debug)]
pub enum Command<'a> {
    /// `check F`: the protocol in the file F is checked, and its core counted.
    Check {
        protocol: &'a str,
    },
    /// `print F`: the protocol in the file F is written as its canonical text.
    Print {
        protocol: &'a str,
    },
    /// `paths F`: what has to be refuted of the protocol in the file F is written, goal by goal.
    Paths {
        protocol: &'a str,
    },
    /// `verify F`: a certificate of the protocol in the file F is written, or a run that is stuck or leaves envy.
    Verify {
        protocol: &'a str,
    },
    /// `run F V`: the protocol in the file F is run on the valuations in the file V.
    Run {
        protocol: &'a str,
        values: &'a str,
    },
    /// `replay F V`: the same with the answers to its cuts that stand in the file V too.
    Replay {
        protocol: &'a str,
        values: &'a str,
    },
    /// `certify F C`: the certificate in the file C is checked for the protocol in the file F.
    Certify {
        protocol: &'a str,
        certificate: &'a str,
    },
    /// `upgrade F C`: the certificate of version 1 in the file C is checked for the protocol in the file F, and one of version 2
    /// written.
    Upgrade {
        protocol: &'a str,
        certificate: &'a str,
    },
    /// `demo N`: the protocol `rounds` of N rounds, from 1 to 8, is made, decided, and its certificate checked.
    Demo {
        rounds: u32,
    },
}

/// The command of these words, those after the program's name, if they are one. The name of a
/// file is any text that isn't empty, and the number of rounds one digit from 1 to 8.
pub fn command_of(words: &Vec<String>) -> Option<Command<'_>>
    ensures { option_map command_view result ≡ command_of (map string_bytes words.now.items) }
{
    match words.as_slice() {
        [word, second] if !second.is_empty() => of_one_word(word.as_str(), second.as_str()),
        [word, protocol, second] if !protocol.is_empty() && !second.is_empty() => {
            of_two_files(word.as_str(), protocol.as_str(), second.as_str())
        }
        _ => None,
    }
}

// The command of that word on a protocol, or on a number of rounds.
fn of_one_word<'a>(word: &str, protocol: &'a str) -> Option<Command<'a>>
    ensures { option_map command_view result ≡ of_one_word word.now protocol.now }
{
    if word == "check" {
        return Some(Command::Check { protocol });
    }
    if word == "print" {
        return Some(Command::Print { protocol });
    }
    if word == "paths" {
        return Some(Command::Paths { protocol });
    }
    if word == "verify" {
        return Some(Command::Verify { protocol });
    }
    if word == "demo" {
        return of_rounds(protocol);
    }
    None
}

// The command `demo` of the number that the word tells.
fn of_rounds<'a>(word: &str) -> Option<Command<'a>>
    ensures { option_map command_view result ≡ of_rounds word.now }
{
    match rounds_of(word.as_bytes()) {
        Some(rounds) => Some(Command::Demo { rounds }),
        None => None,
    }
}

// The number of rounds that is written as one digit from 1 to 8.
fn rounds_of(text: &[u8]) -> Option<u32>
    ensures { result ≡ rounds_of text.now }
{
    match text {
        [digit] if *digit >= b'1' && *digit <= b'8' => Some((*digit - b'0') as u32),
        _ => None,
    }
}

// The command of that word on a protocol and a second file.
fn of_two_files<'a>(word: &str, protocol: &'a str, second: &'a str) -> Option<Command<'a>>
    ensures { option_map command_view result ≡ of_two_files word.now protocol.now second.now }
{
    if word == "run" {
        return Some(Command::Run {
            protocol,
            values: second,
        });
    }
    if word == "replay" {
        return Some(Command::Replay {
            protocol,
            values: second,
        });
    }
    if word == "certify" {
        return Some(Command::Certify {
            protocol,
            certificate: second,
        });
    }
    if word == "upgrade" {
        return Some(Command::Upgrade {
            protocol,
            certificate: second,
        });
    }
    None
}
