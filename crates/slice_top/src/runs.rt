// What a run comes to.
ghost use Rattle.std.specs.Prelude.{◌≡◌, length, map, IfOk, IfErr};
ghost use Rattle.slice_core.specs.Cores.{core_of};
ghost use Rattle.slice_run.specs.Outcomes.{told_of};
ghost use Rattle.slice_run.specs.Walk.{Least, Given, outcome};
ghost use Rattle.slice_report.specs.RunReport.{told_json};
ghost use Rattle.slice_json.specs.Texts.{line_of};
ghost use Rattle.slice_top.specs.Answers.{IsOutcome, answer_of, refused};
ghost use Rattle.slice_top.specs.Runs.{told_status, run_refusal};
ghost use Rattle.slice_top.specs.Statuses.{IsWorked};
ghost use Rattle.slice_top.specs.Stops.{StopsFor, stop_for};

use crate::status::Status;
use crate::stop::Stop;
use crate::work::Output;
use slice_core::{Core, CutAnswer};
use slice_report::{Refusal, envy, run_line};
use slice_run::{Outcome, RunFault, replay, run_least};
use slice_step::Valuations;
use std::alloc::{AllocError, Global};

/// What is told of the least run.
pub(crate) fn tell_least(
    alloc: Global,
    core: &Core,
    valuations: &Valuations,
) -> Result<Output, Stop>
    requires agents { (core_of core.now).agents ≡ length valuations.now }
    ensures worked { IfOk result (λ l. IsWorked l.status) }
    ensures ok { IfOk result (λ l. IsOutcome (outcome valuations.now (core_of core.now) Least) (answer_of l.bytes.items l.status)) }
    ensures err { IfErr result (StopsFor (λ r. IsOutcome (outcome valuations.now (core_of core.now) Least) (refused r))) }
{
    match run_least(alloc, core, valuations) {
        Ok(outcome) => tell(alloc, &outcome),
        Err(fault) => Err(run_stop(fault)),
    }
}

/// What is told of the run with these answers to its cuts.
pub(crate) fn tell_given(
    alloc: Global,
    core: &Core,
    valuations: &Valuations,
    cuts: &[CutAnswer],
) -> Result<Output, Stop>
    requires agents { (core_of core.now).agents ≡ length valuations.now }
    ensures worked { IfOk result (λ l. IsWorked l.status) }
    ensures ok { IfOk result (λ l. IsOutcome (outcome valuations.now (core_of core.now) (Given cuts.now)) (answer_of l.bytes.items l.status)) }
    ensures err { IfErr result (StopsFor (λ r. IsOutcome (outcome valuations.now (core_of core.now) (Given cuts.now)) (refused r))) }
{
    match replay(alloc, core, valuations, cuts) {
        Ok(outcome) => tell(alloc, &outcome),
        Err(fault) => Err(run_stop(fault)),
    }
}

// The line of a run, and its status.
fn tell(alloc: Global, outcome: &Outcome) -> Result<Output, Stop>
    ensures ok { IfOk result (λ l. (l.bytes.items ≡ line_of (told_json (told_of outcome.now))) × (l.status ≡ told_status (told_of outcome.now))) }
    ensures err { IfErr result (λ e. e ≡ Stop.Memory) }
{
    let Ok(bytes) = run_line(alloc, outcome) else {
        return Err(Stop::Memory);
    };
    let Ok(status) = run_status(alloc, outcome) else {
        return Err(Stop::Memory);
    };
    Ok(Output { bytes, status })
}

// `Good` where the run came to its end and nobody is envied.
fn run_status(alloc: Global, outcome: &Outcome) -> Result<Status, AllocError>
    ensures { IfOk result (λ s. s ≡ told_status (told_of outcome.now)) }
{
    let Outcome::Done(finish) = outcome else {
        return Ok(Status::Negative);
    };
    if envy(alloc, &finish.values)?.is_empty() {
        return Ok(Status::Good);
    }
    Ok(Status::Negative)
}

// The stop for a run that was given up.
fn run_stop(fault: RunFault) -> Stop
    ensures { result ≡ stop_for (run_refusal fault) }
{
    match fault {
        RunFault::Overflow { query } => Stop::Refused(Refusal::RunOverflow { query }),
        RunFault::BadAnswer { query } => Stop::Refused(Refusal::BadAnswer { query }),
        RunFault::TooFewAnswers { query } => Stop::Refused(Refusal::TooFewAnswers { query }),
        RunFault::TooManyAnswers => Stop::Refused(Refusal::TooManyAnswers),
        RunFault::Memory => Stop::Memory,
    }
}
