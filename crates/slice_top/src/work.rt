// The work on a command, stage by stage: each says what it found of the answer, or why it stopped.
ghost use Rattle.std.specs.Prelude.{◌≡◌, ◌↔◌, ℕ, ◌≤◌, List, Some, IfOk, IfErr};
ghost use Rattle.slice_ast.specs.View.{program_of};
ghost use Rattle.slice_core.specs.Cores.{core_of};
ghost use Rattle.slice_io.specs.Causes.{Rose};
ghost use Rattle.slice_top.specs.Answers.{IsAnswer, TellsGivenRun, TellsLeastRun, IsReplayAnswer, IsRunAnswer, answer_of, refused};
ghost use Rattle.slice_top.specs.Commands as words;
ghost use Rattle.slice_top.specs.Reports.{ReadsAfter};
ghost use Rattle.slice_top.specs.Settled.{Ends, StopsIn};
ghost use Rattle.slice_top.specs.Statuses.{IsWorked};
ghost use Rattle.slice_top.specs.Stops.{StopsBy, StopsFor, command_view};
ghost use Rattle.slice_top.specs.Turns.{HoldsProgram, IsSecondTurn, ReadsFor, RefusesSpelling};

use crate::certificates::certify_core;
use crate::command::Command;
use crate::cores::read_core;
use crate::decisions::decide_core;
use crate::demo::demo_rounds;
use crate::files::read_file;
use crate::goals::put_goals;
use crate::programs::read_program;
use crate::runs::{tell_given, tell_least};
use crate::status::Status;
use crate::stop::Stop;
use crate::upgrades::upgrade_core;
use crate::values::{read_answers, read_values};
use slice_ast::{Program, print as canonical_text};
use slice_core::Core;
use slice_io::{Shelf, Sink};
use slice_report::check_line;
use std::alloc::Global;

/// What is still to be written, each line with its LF, and the status that the program ends with.
#[derive(Debug, Drop)]
pub(crate) struct Output {
    pub(crate) bytes: Vec<u8>,
    pub(crate) status: Status,
}

/// Works on the command: writes the lines of its answer as they are made, but for the last output, which it gives.
pub(crate) fn work<S: Shelf, K: Sink>(
    alloc: Global,
    shelf: &mut S,
    sink: &mut K,
    command: Command<'_>,
) -> Result<Output, Stop>
    requires asked { (n : List ℕ) → ReadsFor (S.told shelf.old) (Some (command_view command)) n → S.CanAsk shelf.old n }
    ensures same { S.told shelf.new ≡ S.told shelf.old }
    ensures later { (S.faults shelf.old ≤ S.faults shelf.new) × (K.faults sink.old ≤ K.faults sink.new) }
    ensures worked { IfOk result (λ l. IsWorked l.status) }
    ensures ok { IfOk result (λ l. Ends (IsAnswer (S.told shelf.old) (Some (command_view command.entry))) (K.told sink.old) (K.told sink.new) l.bytes.items l.status) }
    ensures err { IfErr result (StopsIn (IsAnswer (S.told shelf.old) (Some (command_view command.entry))) (ReadsAfter (S.told shelf.old) (Some (command_view command.entry))) (Rose (S.faults shelf.old) (S.faults shelf.new)) (Rose (K.faults sink.old) (K.faults sink.new)) (K.told sink.old) (K.told sink.new)) }
{
    match command {
        Command::Check { protocol } => check(alloc, shelf, protocol),
        Command::Print { protocol } => print(alloc, shelf, protocol),
        Command::Paths { protocol } => paths(alloc, shelf, sink, protocol),
        Command::Verify { protocol } => verify(alloc, shelf, sink, protocol),
        Command::Run { protocol, values } => run(alloc, shelf, protocol, values),
        Command::Replay { protocol, values } => replay(alloc, shelf, protocol, values),
        Command::Certify {
            protocol,
            certificate,
        } => certify(alloc, shelf, protocol, certificate),
        Command::Upgrade {
            protocol,
            certificate,
        } => upgrade(alloc, shelf, sink, protocol, certificate),
        Command::Demo { rounds } => demo_rounds(alloc, rounds),
    }
}

// The line of `check`.
fn check<S: Shelf>(alloc: Global, shelf: &mut S, protocol: &str) -> Result<Output, Stop>
    requires asked { S.CanAsk shelf.old protocol.now }
    ensures same { S.told shelf.new ≡ S.told shelf.old }
    ensures later { S.faults shelf.old ≤ S.faults shelf.new }
    ensures worked { IfOk result (λ l. IsWorked l.status) }
    ensures ok { IfOk result (λ l. IsAnswer (S.told shelf.old) (Some (words.check protocol.now)) (answer_of l.bytes.items l.status)) }
    ensures err { IfErr result (StopsBy (λ r. IsAnswer (S.told shelf.old) (Some (words.check protocol.now)) (refused r)) (ReadsFor (S.told shelf.old) (Some (words.check protocol.now))) (Rose (S.faults shelf.old) (S.faults shelf.new))) }
{
    let core = match read_core(alloc, shelf, protocol) {
        Ok(core) => core,
        Err(stop) => return Err(stop),
    };
    let Ok(bytes) = check_line(alloc, &core) else {
        return Err(Stop::Memory);
    };
    Ok(Output {
        bytes,
        status: Status::Good,
    })
}

// The text of `print`.
fn print<S: Shelf>(alloc: Global, shelf: &mut S, protocol: &str) -> Result<Output, Stop>
    requires asked { S.CanAsk shelf.old protocol.now }
    ensures same { S.told shelf.new ≡ S.told shelf.old }
    ensures later { S.faults shelf.old ≤ S.faults shelf.new }
    ensures worked { IfOk result (λ l. IsWorked l.status) }
    ensures ok { IfOk result (λ l. IsAnswer (S.told shelf.old) (Some (words.print protocol.now)) (answer_of l.bytes.items l.status)) }
    ensures err { IfErr result (StopsBy (λ r. IsAnswer (S.told shelf.old) (Some (words.print protocol.now)) (refused r)) (ReadsFor (S.told shelf.old) (Some (words.print protocol.now))) (Rose (S.faults shelf.old) (S.faults shelf.new))) }
{
    let program = match read_protocol(alloc, shelf, protocol) {
        Ok(program) => program,
        Err(stop) => return Err(stop),
    };
    let Ok(bytes) = canonical_text(alloc, &program) else {
        return Err(Stop::Memory);
    };
    Ok(Output {
        bytes,
        status: Status::Good,
    })
}

// The lines of `paths`.
fn paths<S: Shelf, K: Sink>(
    alloc: Global,
    shelf: &mut S,
    sink: &mut K,
    protocol: &str,
) -> Result<Output, Stop>
    requires asked { S.CanAsk shelf.old protocol.now }
    ensures same { S.told shelf.new ≡ S.told shelf.old }
    ensures later { (S.faults shelf.old ≤ S.faults shelf.new) × (K.faults sink.old ≤ K.faults sink.new) }
    ensures worked { IfOk result (λ l. IsWorked l.status) }
    ensures ok { IfOk result (λ l. Ends (IsAnswer (S.told shelf.old) (Some (words.paths protocol.now))) (K.told sink.old) (K.told sink.new) l.bytes.items l.status) }
    ensures err { IfErr result (StopsIn (IsAnswer (S.told shelf.old) (Some (words.paths protocol.now))) (ReadsAfter (S.told shelf.old) (Some (words.paths protocol.now))) (Rose (S.faults shelf.old) (S.faults shelf.new)) (Rose (K.faults sink.old) (K.faults sink.new)) (K.told sink.old) (K.told sink.new)) }
{
    let core = match read_core(alloc, shelf, protocol) {
        Ok(core) => core,
        Err(stop) => return Err(stop),
    };
    put_goals(alloc, sink, &core)
}

// The lines of `verify`.
fn verify<S: Shelf, K: Sink>(
    alloc: Global,
    shelf: &mut S,
    sink: &mut K,
    protocol: &str,
) -> Result<Output, Stop>
    requires asked { S.CanAsk shelf.old protocol.now }
    ensures same { S.told shelf.new ≡ S.told shelf.old }
    ensures later { (S.faults shelf.old ≤ S.faults shelf.new) × (K.faults sink.old ≤ K.faults sink.new) }
    ensures worked { IfOk result (λ l. IsWorked l.status) }
    ensures ok { IfOk result (λ l. Ends (IsAnswer (S.told shelf.old) (Some (words.verify protocol.now))) (K.told sink.old) (K.told sink.new) l.bytes.items l.status) }
    ensures err { IfErr result (StopsIn (IsAnswer (S.told shelf.old) (Some (words.verify protocol.now))) (ReadsAfter (S.told shelf.old) (Some (words.verify protocol.now))) (Rose (S.faults shelf.old) (S.faults shelf.new)) (Rose (K.faults sink.old) (K.faults sink.new)) (K.told sink.old) (K.told sink.new)) }
{
    let core = match read_core(alloc, shelf, protocol) {
        Ok(core) => core,
        Err(stop) => return Err(stop),
    };
    decide_core(alloc, sink, &core)
}

// The program in a file.
fn read_protocol<S: Shelf>(alloc: Global, shelf: &mut S, name: &str) -> Result<Program, Stop>
    requires asked { S.CanAsk shelf.old name.now }
    ensures same { S.told shelf.new ≡ S.told shelf.old }
    ensures later { S.faults shelf.old ≤ S.faults shelf.new }
    ensures ok { IfOk result (λ p. HoldsProgram (S.told shelf.old) name.now (program_of p)) }
    ensures err { IfErr result (StopsBy (RefusesSpelling (S.told shelf.old) name.now) (λ file. file ≡ name.now) (Rose (S.faults shelf.old) (S.faults shelf.new))) }
{
    let text = match read_file(alloc, shelf, name) {
        Ok(text) => text,
        Err(stop) => return Err(stop),
    };
    read_program(alloc, &text)
}

// The line of `run`.
fn run<S: Shelf>(alloc: Global, shelf: &mut S, protocol: &str, values: &str) -> Result<Output, Stop>
    requires protocol { S.CanAsk shelf.old protocol.now }
    requires values { IsSecondTurn (S.told shelf.old) protocol.now → S.CanAsk shelf.old values.now }
    ensures same { S.told shelf.new ≡ S.told shelf.old }
    ensures later { S.faults shelf.old ≤ S.faults shelf.new }
    ensures worked { IfOk result (λ l. IsWorked l.status) }
    ensures ok { IfOk result (λ l. IsAnswer (S.told shelf.old) (Some (words.run protocol.now values.now)) (answer_of l.bytes.items l.status)) }
    ensures err { IfErr result (StopsBy (λ r. IsAnswer (S.told shelf.old) (Some (words.run protocol.now values.now)) (refused r)) (ReadsFor (S.told shelf.old) (Some (words.run protocol.now values.now))) (Rose (S.faults shelf.old) (S.faults shelf.new))) }
{
    let core = match read_core(alloc, shelf, protocol) {
        Ok(core) => core,
        Err(stop) => return Err(stop),
    };
    run_values(alloc, shelf, &core, values)
}

// The line of `run` of a core.
fn run_values<S: Shelf>(
    alloc: Global,
    shelf: &mut S,
    core: &Core,
    values: &str,
) -> Result<Output, Stop>
    requires asked { S.CanAsk shelf.old values.now }
    ensures same { S.told shelf.new ≡ S.told shelf.old }
    ensures later { S.faults shelf.old ≤ S.faults shelf.new }
    ensures worked { IfOk result (λ l. IsWorked l.status) }
    ensures ok { IfOk result (λ l. IsRunAnswer (S.told shelf.old) values.now (core_of core.now) (answer_of l.bytes.items l.status)) }
    ensures err { IfErr result (StopsBy (λ r. IsRunAnswer (S.told shelf.old) values.now (core_of core.now) (refused r)) (λ file. file ≡ values.now) (Rose (S.faults shelf.old) (S.faults shelf.new))) }
{
    let bytes = match read_file(alloc, shelf, values) {
        Ok(bytes) => bytes,
        Err(stop) => return Err(stop),
    };
    tell_values(alloc, core, &bytes)
}

// The line of `replay`.
fn replay<S: Shelf>(
    alloc: Global,
    shelf: &mut S,
    protocol: &str,
    values: &str,
) -> Result<Output, Stop>
    requires protocol { S.CanAsk shelf.old protocol.now }
    requires values { IsSecondTurn (S.told shelf.old) protocol.now → S.CanAsk shelf.old values.now }
    ensures same { S.told shelf.new ≡ S.told shelf.old }
    ensures later { S.faults shelf.old ≤ S.faults shelf.new }
    ensures worked { IfOk result (λ l. IsWorked l.status) }
    ensures ok { IfOk result (λ l. IsAnswer (S.told shelf.old) (Some (words.replay protocol.now values.now)) (answer_of l.bytes.items l.status)) }
    ensures err { IfErr result (StopsBy (λ r. IsAnswer (S.told shelf.old) (Some (words.replay protocol.now values.now)) (refused r)) (ReadsFor (S.told shelf.old) (Some (words.replay protocol.now values.now))) (Rose (S.faults shelf.old) (S.faults shelf.new))) }
{
    let core = match read_core(alloc, shelf, protocol) {
        Ok(core) => core,
        Err(stop) => return Err(stop),
    };
    replay_answers(alloc, shelf, &core, values)
}

// The line of `replay` of a core.
fn replay_answers<S: Shelf>(
    alloc: Global,
    shelf: &mut S,
    core: &Core,
    values: &str,
) -> Result<Output, Stop>
    requires asked { S.CanAsk shelf.old values.now }
    ensures same { S.told shelf.new ≡ S.told shelf.old }
    ensures later { S.faults shelf.old ≤ S.faults shelf.new }
    ensures worked { IfOk result (λ l. IsWorked l.status) }
    ensures ok { IfOk result (λ l. IsReplayAnswer (S.told shelf.old) values.now (core_of core.now) (answer_of l.bytes.items l.status)) }
    ensures err { IfErr result (StopsBy (λ r. IsReplayAnswer (S.told shelf.old) values.now (core_of core.now) (refused r)) (λ file. file ≡ values.now) (Rose (S.faults shelf.old) (S.faults shelf.new))) }
{
    let bytes = match read_file(alloc, shelf, values) {
        Ok(bytes) => bytes,
        Err(stop) => return Err(stop),
    };
    tell_answers(alloc, core, &bytes)
}

// The line of `certify`.
fn certify<S: Shelf>(
    alloc: Global,
    shelf: &mut S,
    protocol: &str,
    certificate: &str,
) -> Result<Output, Stop>
    requires protocol { S.CanAsk shelf.old protocol.now }
    requires certificate { IsSecondTurn (S.told shelf.old) protocol.now → S.CanAsk shelf.old certificate.now }
    ensures same { S.told shelf.new ≡ S.told shelf.old }
    ensures later { S.faults shelf.old ≤ S.faults shelf.new }
    ensures worked { IfOk result (λ l. IsWorked l.status) }
    ensures ok { IfOk result (λ l. IsAnswer (S.told shelf.old) (Some (words.certify protocol.now certificate.now)) (answer_of l.bytes.items l.status)) }
    ensures err { IfErr result (StopsBy (λ r. IsAnswer (S.told shelf.old) (Some (words.certify protocol.now certificate.now)) (refused r)) (ReadsFor (S.told shelf.old) (Some (words.certify protocol.now certificate.now))) (Rose (S.faults shelf.old) (S.faults shelf.new))) }
{
    let core = match read_core(alloc, shelf, protocol) {
        Ok(core) => core,
        Err(stop) => return Err(stop),
    };
    certify_core(alloc, shelf, &core, certificate)
}

// The lines of `upgrade`.
fn upgrade<S: Shelf, K: Sink>(
    alloc: Global,
    shelf: &mut S,
    sink: &mut K,
    protocol: &str,
    certificate: &str,
) -> Result<Output, Stop>
    requires protocol { S.CanAsk shelf.old protocol.now }
    requires certificate { IsSecondTurn (S.told shelf.old) protocol.now → S.CanAsk shelf.old certificate.now }
    ensures same { S.told shelf.new ≡ S.told shelf.old }
    ensures later { (S.faults shelf.old ≤ S.faults shelf.new) × (K.faults sink.old ≤ K.faults sink.new) }
    ensures worked { IfOk result (λ l. IsWorked l.status) }
    ensures ok { IfOk result (λ l. Ends (IsAnswer (S.told shelf.old) (Some (words.upgrade protocol.now certificate.now))) (K.told sink.old) (K.told sink.new) l.bytes.items l.status) }
    ensures err { IfErr result (StopsIn (IsAnswer (S.told shelf.old) (Some (words.upgrade protocol.now certificate.now))) (ReadsAfter (S.told shelf.old) (Some (words.upgrade protocol.now certificate.now))) (Rose (S.faults shelf.old) (S.faults shelf.new)) (Rose (K.faults sink.old) (K.faults sink.new)) (K.told sink.old) (K.told sink.new)) }
{
    let core = match read_core(alloc, shelf, protocol) {
        Ok(core) => core,
        Err(stop) => return Err(stop),
    };
    upgrade_core(alloc, shelf, sink, &core, certificate)
}

// What is told of the least run on the valuations in a file.
fn tell_values(alloc: Global, core: &Core, bytes: &[u8]) -> Result<Output, Stop>
    ensures worked { IfOk result (λ l. IsWorked l.status) }
    ensures ok { IfOk result (λ l. TellsLeastRun bytes.now (core_of core.now) (answer_of l.bytes.items l.status)) }
    ensures err { IfErr result (StopsFor (λ r. TellsLeastRun bytes.now (core_of core.now) (refused r))) }
{
    let valuations = match read_values(alloc, bytes, core.agents()) {
        Ok(valuations) => valuations,
        Err(stop) => return Err(stop),
    };
    tell_least(alloc, core, &valuations)
}

// What is told of the run on the valuations and with the answers in a file.
fn tell_answers(alloc: Global, core: &Core, bytes: &[u8]) -> Result<Output, Stop>
    ensures worked { IfOk result (λ l. IsWorked l.status) }
    ensures ok { IfOk result (λ l. TellsGivenRun bytes.now (core_of core.now) (answer_of l.bytes.items l.status)) }
    ensures err { IfErr result (StopsFor (λ r. TellsGivenRun bytes.now (core_of core.now) (refused r))) }
{
    let file = match read_answers(alloc, bytes, core.agents()) {
        Ok(file) => file,
        Err(stop) => return Err(stop),
    };
    tell_given(alloc, core, &file.valuations, &file.cuts)
}
