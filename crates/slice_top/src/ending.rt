// From the words to the status, with what is written on the way.
ghost use Rattle.std.specs.Prelude.{◌≡◌, ◌≢◌, ◌⊎◌, ℕ, ◌<◌, ◌≤◌, List, length, map, None, Some, IfSome, OnErr, OnOk};
ghost use Rattle.std.specs.String.{string_bytes};
ghost use Rattle.slice_io.specs.Causes.{HasCause, Rose};
ghost use Rattle.slice_io.specs.Files.{Files};
ghost use Rattle.slice_io.specs.Told.{appended, FrontIsOut};
ghost use Rattle.slice_gen.specs.Rounds.{rounds_text};
ghost use Rattle.slice_report.specs.Refusals.{HasTexts};
ghost use Rattle.slice_top.specs.Answers.{Answer, IsAnswer};
ghost use Rattle.slice_top.specs.Commands.{command_of};
ghost use Rattle.slice_top.specs.Found.{HoldsUnfairProgram, IsUnfairText, met_file};
ghost use Rattle.slice_top.specs.Headline.{HoldsFairProgram, IsFairText, made_rounds, shown_file};
ghost use Rattle.slice_top.specs.Lines.{first_end, first_line_length};
ghost use Rattle.slice_top.specs.Turns.{ReadsFor};
ghost use Rattle.slice_top.specs.Reports.{Reports, memory_line};
ghost use Rattle.slice_top.specs.Statuses.{IsUsageOrFree};
ghost use Rattle.slice_top.specs.Settled.{IsRefused, Settled};

use crate::command::command_of;
use crate::status::Status;
use crate::stop::Stop;
use crate::work::{Output, work};
use slice_io::{Shelf, Sink, WriteFault, put_all};
use slice_report::{Refusal, refusal_line};
use std::alloc::Global;

// Told where memory is wanted; it takes none.
const MEMORY_LINE: &[u8] = b"{\"refused\":\"memory\"}\n";

/// How the work on a command ends: with what is still to be written, for want of memory, or since a write failed.
#[derive(Debug, Drop)]
pub(crate) enum Ending {
    Last(Output),
    Starved,
    Unwritten,
}

// How the work on the words' command ends, or the line of its refusal.
fn settle<S: Shelf, K: Sink>(
    alloc: Global,
    shelf: &mut S,
    sink: &mut K,
    words: &Vec<String>,
) -> Ending
    requires asked { (n : List ℕ) → ReadsFor (S.told shelf.old) (command_of (map string_bytes words.now.items)) n → S.CanAsk shelf.old n }
    ensures same { S.told shelf.new ≡ S.told shelf.old }
    ensures later { (S.faults shelf.old ≤ S.faults shelf.new) × (K.faults sink.old ≤ K.faults sink.new) }
    ensures settled { Settled (S.told shelf.old) (command_of (map string_bytes words.now.items)) (Rose (S.faults shelf.old) (S.faults shelf.new)) (Rose (K.faults sink.old) (K.faults sink.new)) (K.told sink.old) (K.told sink.new) result }
{
    let Some(command) = command_of(words) else {
        return refused(alloc, &Refusal::Usage);
    };
    match work(alloc, shelf, sink, command) {
        Ok(last) => Ending::Last(last),
        Err(Stop::Refused(refusal)) => refused(alloc, &refusal),
        Err(Stop::Unread { file }) => refused(alloc, &Refusal::ReadFault { file }),
        Err(Stop::Memory) => Ending::Starved,
        Err(Stop::Unwritten) => Ending::Unwritten,
    }
}

// The line of a refusal, and its status.
fn refused(alloc: Global, refusal: &Refusal) -> Ending
    requires { HasTexts refusal.now }
    ensures { IsRefused refusal.now result }
{
    let Ok(bytes) = refusal_line(alloc, refusal) else {
        return Ending::Starved;
    };
    Ending::Last(Output {
        bytes,
        status: Status::of_refusal(refusal),
    })
}

// Where the first LF stands.
fn line_end(bytes: &[u8]) -> Option<usize>
    ensures within { IfSome result (λ at. at < length bytes.now) }
    ensures first { result ≡ first_end bytes.now }
{
    bytes.iter().position(|byte| *byte == b'\n')
}

// How many bytes the first line has, with its LF, where it has one.
fn line_length(bytes: &[u8]) -> usize
    ensures within { result ≤ length bytes.now }
    ensures some { 0 < length bytes.now → 0 < result }
    ensures line { result ≡ first_line_length bytes.now }
{
    match line_end(bytes) {
        Some(at) => at + 1,
        None => bytes.len(),
    }
}

// Writes the bytes line by line.
fn put_lines<K: Sink>(sink: &mut K, bytes: &[u8]) -> Result<(), WriteFault>
    ensures all { OnOk result (K.told sink.new ≡ appended (K.told sink.old) bytes.now) }
    ensures front { OnErr result (FrontIsOut (K.told sink.old) (K.told sink.new) bytes.now) }
    ensures cause { HasCause (K.faults sink.old) (K.faults sink.new) result }
{
    let mut from = 0;
    while from < bytes.len() {
        let to = from + line_length(&bytes[from..]);
        put_all(sink, &bytes[from..to])?;
        from = to;
    }
    Ok(())
}

// Writes the bytes; the status is told unless the sink failed.
fn finish<K: Sink>(sink: &mut K, bytes: &[u8], status: Status) -> Status
    requires { status ≢ Status.WriteFault }
    ensures later { K.faults sink.old ≤ K.faults sink.new }
    ensures kind { (result ≡ status) ⊎ (result ≡ Status.WriteFault) }
    ensures out { result ≢ Status.WriteFault → K.told sink.new ≡ appended (K.told sink.old) bytes.now }
    ensures front { result ≡ Status.WriteFault → FrontIsOut (K.told sink.old) (K.told sink.new) bytes.now }
    ensures write { result ≡ Status.WriteFault → Rose (K.faults sink.old) (K.faults sink.new) }
{
    match put_lines(sink, bytes) {
        Ok(()) => status,
        Err(_) => Status::WriteFault,
    }
}

/// Does what the words ask for, those after the program's name: reads files from the shelf, writes the answer to the sink, and
/// tells with what status the program ends.
///
/// - `check F` writes one line with the counts of the core of the protocol in the file F.
/// - `print F` writes its canonical text, line by line.
/// - `paths F` writes a line for each goal of the core, when it is made, and one of their count.
/// - `run F V` runs it on the valuations in the file V, where each cut is answered by the least right answer, and
///   `replay F V` with the answers that stand in V; each writes one line.
/// - `verify F` writes a certificate, a line for each goal that no line took when it is refuted; where the rows of one have a
///   solution, the line of the counterexample that it gives is the last (`Negative`).
/// - `certify F C` checks the certificate in the file C, line by line, and writes one line: that it is accepted, or what is
///   wrong with it first (`Negative`).
/// - `upgrade F C` checks the certificate of version 1 in the file C so, and writes one of version 2 meanwhile, line by line; where
///   C is rejected, what is wrong with it is the last line (`Negative`).
/// - `demo N` does the same as `verify` with the protocol `rounds` of N rounds, a digit from 1 to 8, in memory, and then checks
///   what was written as `certify` does; it writes one line: how many bytes the certificate has, and for how many goals it is
///   accepted, or that of the counterexample (`Negative`). It reads no file, and what is too long is told of a file `report`.
///
/// What stops them is told by one line too, the first of these: the words are no command (`Usage`); F can't be read
/// (`ReadFault`) or has more than 1,048,576 bytes (`Refused`); its text has a fault, the first of which is told with its place
/// (`Refused`); and, where more than `print` is asked for, the program breaks a rule, the first of which is told (`Refused`), or
/// passes a limit of expansion (`Limit`); V can't be read, is too long, or has a fault of form (`Refused`); an answer is refused
/// (`Refused`), or a number of the run, or of a goal, doesn't fit or a goal is one too many (`Limit`); C can't be read, or a
/// line of it that is read goes past 268,435,456 bytes (`Refused`), or a number of the check of its multipliers doesn't fit
/// (`Limit`); a goal isn't decided within 100,000 pivots, a number of the prover doesn't fit, or a height of the counterexample
/// is too great (`Limit`).
///
/// `ReadFault` comes only where the shelf's count of faults rose, and `WriteFault` only where the sink's did; then a front of
/// what was to be written is out. The sink gets line after line. The shelf is asked for V or C only once F's program keeps the
/// rules and passes no limit, so a `ReadFault` names it only then. `Memory` may come at any time, and writes a line of its own;
/// of `paths`, `verify` and `upgrade` the lines before a refusal, or before that line, are out, with the header where there is one;
/// of `upgrade` also those before a `ReadFault` of C.
pub fn top<S: Shelf, K: Sink>(
    alloc: Global,
    words: &Vec<String>,
    shelf: &mut S,
    sink: &mut K,
) -> Status
    // A second file is asked for only once F's program keeps the rules and passes no limit.
    requires asked { (n : List ℕ) → ReadsFor (S.told shelf.old) (command_of (map string_bytes words.now.items)) n → S.CanAsk shelf.old n }
    ensures same { S.told shelf.new ≡ S.told shelf.old }
    ensures later { (S.faults shelf.old ≤ S.faults shelf.new) × (K.faults sink.old ≤ K.faults sink.new) }

    // Words that are no command, and no others, are refused as such.
    ensures usage { result ≡ Status.Usage → command_of (map string_bytes words.now.items) ≡ None }
    ensures unknown { command_of (map string_bytes words.now.items) ≡ None → IsUsageOrFree result }

    // A device is blamed only where its count of faults rose.
    ensures read { result ≡ Status.ReadFault → Rose (S.faults shelf.old) (S.faults shelf.new) }
    ensures write { result ≡ Status.WriteFault → Rose (K.faults sink.old) (K.faults sink.new) }

    // What is written, and the status: the answer over the files that the shelf tells, or over some bytes of each where it
    // tells none (of a certificate then nothing is said but the form of the lines).
    ensures report { Reports (S.told shelf.old) (command_of (map string_bytes words.now.items)) (K.told sink.old) (K.told sink.new) result }

    // Unless a device failed or memory was wanted, that is an answer, whole; the laws of completeness say which.
    ensures answered { result ≢ Status.ReadFault → result ≢ Status.WriteFault → result ≢ Status.Memory → (a : Answer)
        × (IsAnswer (S.told shelf.old) (command_of (map string_bytes words.now.items)) a × ((K.told sink.new ≡ appended (K.told sink.old) a.text) × (result ≡ a.status))) }

    // The headline: where `verify F`, `certify F C` or `upgrade F C` ends with Good, whoever wrote C, every run of the protocol in F is fair.
    ensures headline { result ≡ Status.Good → (files : Files) → S.told shelf.old ≡ Some files → IfSome (shown_file (command_of (map string_bytes words.now.items))) (HoldsFairProgram files) }

    // Where `verify F` ends with Negative, the last line tells a run of the protocol in F that is stuck or leaves envy.
    ensures found { result ≡ Status.Negative → (files : Files) → S.told shelf.old ≡ Some files → IfSome (met_file (command_of (map string_bytes words.now.items))) (HoldsUnfairProgram files (K.told sink.old) (K.told sink.new)) }

    // The same of the protocol `rounds` of N rounds, which `demo N` makes; it reads no file.
    ensures headline_of_rounds { result ≡ Status.Good → IfSome (made_rounds (command_of (map string_bytes words.now.items))) (λ n. IsFairText (rounds_text n)) }
    ensures found_of_rounds { result ≡ Status.Negative → IfSome (made_rounds (command_of (map string_bytes words.now.items))) (λ n. IsUnfairText (K.told sink.old) (K.told sink.new) (rounds_text n)) }
{
    match settle(alloc, shelf, sink, words) {
        Ending::Last(last) => finish(sink, &last.bytes, last.status),
        Ending::Starved => finish(sink, MEMORY_LINE, Status::Memory),
        Ending::Unwritten => Status::WriteFault,
    }
}

/// The end of a program that has no memory for its words: it writes the line that says so.
pub fn end_for_memory<K: Sink>(sink: &mut K) -> Status
    ensures later { K.faults sink.old ≤ K.faults sink.new }
    ensures kind { (result ≡ Status.Memory) ⊎ (result ≡ Status.WriteFault) }
    ensures out { result ≢ Status.WriteFault → K.told sink.new ≡ appended (K.told sink.old) memory_line }
    ensures front { result ≡ Status.WriteFault → FrontIsOut (K.told sink.old) (K.told sink.new) memory_line }
    ensures write { result ≡ Status.WriteFault → Rose (K.faults sink.old) (K.faults sink.new) }
{
    finish(sink, MEMORY_LINE, Status::Memory)
}
