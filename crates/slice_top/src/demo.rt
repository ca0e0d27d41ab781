// A protocol that is made from a number, decided, and its report checked, all in memory.
ghost use Rattle.std.specs.Prelude.{◌≡◌, IfOk, IfErr};
ghost use Rattle.slice_check.specs.Certificate.{Accepts};
ghost use Rattle.slice_core.specs.Cores.{core_of};
ghost use Rattle.slice_counter.specs.CounterLine.{counter_text};
ghost use Rattle.slice_gen.specs.Rounds.{rounds_text};
ghost use Rattle.slice_top.specs.Answers.{CountsReport, IsDemoAnswer, OfText, answer_of, refused};
ghost use Rattle.slice_top.specs.Demos.{AcceptsReport, RefusesReport, stop_in_memory};
ghost use Rattle.slice_top.specs.Statuses.{IsWorked};
ghost use Rattle.slice_top.specs.Stops.{StopsFor};

use crate::certificates::check_file;
use crate::cores::core_of_text;
use crate::decisions::verify_stop;
use crate::status::Status;
use crate::stop::Stop;
use crate::work::Output;
use slice_check::CertAnswer;
use slice_core::Core;
use slice_counter::{Counterexample, counter_line};
use slice_gen::rounds;
use slice_io::{GrowingSink, NamedFile, OneFile};
use slice_report::demo_line;
use slice_verify::{Decision, verify};
use std::alloc::Global;

// The name of the report, as a file in memory.
const REPORT: &str = "report";

/// The line of `demo` of so many rounds, from 1 to 8.
pub(crate) fn demo_rounds(alloc: Global, count: u32) -> Result<Output, Stop>
    ensures worked { IfOk result (λ l. IsWorked l.status) }
    ensures ok { IfOk result (λ l. OfText (rounds_text count) IsDemoAnswer (answer_of l.bytes.items l.status)) }
    ensures err { IfErr result (StopsFor (λ r. OfText (rounds_text count) IsDemoAnswer (refused r))) }
{
    let Ok(text) = rounds(alloc, count) else {
        return Err(Stop::Memory);
    };
    let core = match core_of_text(alloc, &text) {
        Ok(core) => core,
        Err(stop) => return Err(stop),
    };
    demo_core(alloc, &core)
}

// The line of `demo` of a core.
fn demo_core(alloc: Global, core: &Core) -> Result<Output, Stop>
    ensures worked { IfOk result (λ l. IsWorked l.status) }
    ensures ok { IfOk result (λ l. IsDemoAnswer (core_of core.now) (answer_of l.bytes.items l.status)) }
    ensures err { IfErr result (StopsFor (λ r. IsDemoAnswer (core_of core.now) (refused r))) }
{
    let mut sink = GrowingSink::new(alloc);
    match verify(alloc, core, &mut sink) {
        Ok(Decision::EnvyFree { .. }) => count_report(alloc, core, sink.into_bytes()),
        Ok(Decision::Found(counter)) => counter_output(alloc, &counter),
        Err(fault) => Err(stop_in_memory(verify_stop(fault))),
    }
}

// The stop of work that writes into memory alone, where a write fails only for want of it.
fn stop_in_memory(stop: Stop) -> Stop
    ensures { result ≡ stop_in_memory stop }
{
    match stop {
        Stop::Unwritten => Stop::Memory,
        other => other,
    }
}

// The line of a counterexample.
fn counter_output(alloc: Global, counter: &Counterexample) -> Result<Output, Stop>
    ensures ok { IfOk result (λ l. (l.bytes.items ≡ counter_text counter.now) × (l.status ≡ Status.Negative)) }
    ensures err { IfErr result (λ e. e ≡ Stop.Memory) }
{
    let Ok(bytes) = counter_line(alloc, counter) else {
        return Err(Stop::Memory);
    };
    Ok(Output {
        bytes,
        status: Status::Negative,
    })
}

// The line of a report that is accepted.
fn count_report(alloc: Global, core: &Core, report: Vec<u8>) -> Result<Output, Stop>
    requires accepts { Accepts (core_of core.now) report.items }
    ensures worked { IfOk result (λ l. IsWorked l.status) }
    ensures ok { IfOk result (λ l. CountsReport (core_of core.now) report.items (answer_of l.bytes.items l.status)) }
    ensures err { IfErr result (StopsFor (λ r. CountsReport (core_of core.now) report.items (refused r))) }
{
    let length = report.len() as u64;
    let goals = match check_report(alloc, core, report) {
        Ok(goals) => goals,
        Err(stop) => return Err(stop),
    };
    let Ok(bytes) = demo_line(alloc, core, goals, length) else {
        return Err(Stop::Memory);
    };
    Ok(Output {
        bytes,
        status: Status::Good,
    })
}

// For how many goals the checker accepts the report, which is a certificate.
fn check_report(alloc: Global, core: &Core, report: Vec<u8>) -> Result<u64, Stop>
    requires accepts { Accepts (core_of core.now) report.items }
    ensures ok { IfOk result (λ n. AcceptsReport (core_of core.now) report.items n) }
    ensures err { IfErr result (StopsFor (RefusesReport (core_of core.now) report.items)) }
{
    let Ok(name) = String::from_str(alloc, REPORT) else {
        return Err(Stop::Memory);
    };
    let mut shelf = OneFile::new(NamedFile {
        name,
        bytes: report,
    });
    match check_file(alloc, &mut shelf, core, REPORT) {
        Ok(CertAnswer::Accepted { goals }) => Ok(goals),
        Ok(CertAnswer::Rejected(_)) => unreachable!(),
        Err(stop) => Err(stop),
    }
}
