// The program: the words of the command line over real files and standard output.
#![tactic(auto)]

use slice_io::{FileShelf, StdSink};
use slice_top::{Status, end_for_memory, top};
use std::env::Env;
use std::fs::Files;
use std::process::ExitCode;
use std::{env, io};

// The words after the program's name.
fn words_of<R: Env + AllocGlobal>(rt: &R) -> io::Result<Vec<String>> {
    let mut words = Vec::new(rt.alloc());
    for (i, word) in env::args(rt)?.enumerate() {
        if i > 0 {
            words.push(word)?;
        }
    }
    Ok(words)
}

// A word that is no text belongs to no command, so none of the words then counts.
fn run<R: Env + AllocGlobal + Files + Print>(rt: &R) -> Status {
    let mut shelf = FileShelf::new(rt);
    let mut sink = StdSink::new(io::writer(rt));
    let words = match words_of(rt) {
        Ok(words) => words,
        Err(error) if error.kind() == io::ErrorKind::OutOfMemory => {
            return end_for_memory(&mut sink);
        }
        Err(_) => Vec::new(rt.alloc()),
    };
    top(rt.alloc(), &words, &mut shelf, &mut sink)
}

fn main(rt: HostRuntime) -> ExitCode {
    ExitCode::from(run(&rt).code())
}
