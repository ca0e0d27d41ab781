// The lines of goals, each written when it is made.
ghost use Rattle.std.specs.Prelude.{◌≡◌, ◌≤◌, IfOk, IfErr, OnOk};
ghost use Rattle.slice_core.specs.Cores.{core_of};
ghost use Rattle.slice_io.specs.Causes.{Rose};
ghost use Rattle.slice_io.specs.Told.{appended};
ghost use Rattle.slice_json.specs.Texts.{line_of};
ghost use Rattle.slice_report.specs.GoalReport.{count_json, goal_json};
ghost use Rattle.slice_top.specs.Answers.{IsPathsAnswer};
ghost use Rattle.slice_top.specs.Goals.{goal_refusal};
ghost use Rattle.slice_top.specs.Settled.{Ends, LineStops, LinesStop};
ghost use Rattle.slice_top.specs.Statuses.{IsWorked};
ghost use Rattle.slice_top.specs.Stops.{stop_for};

use crate::status::Status;
use crate::stop::Stop;
use crate::work::Output;
use slice_core::Core;
use slice_io::{Sink, put_all};
use slice_paths::{Goal, GoalFault, GoalStream};
use slice_report::{Refusal, goal_line, goals_line};
use std::alloc::Global;

/// Writes a line for each goal of the core, and gives that of their count.
pub(crate) fn put_goals<K: Sink>(alloc: Global, sink: &mut K, core: &Core) -> Result<Output, Stop>
    ensures later { K.faults sink.old ≤ K.faults sink.new }
    ensures worked { IfOk result (λ l. IsWorked l.status) }
    ensures ok { IfOk result (λ l. Ends (IsPathsAnswer (core_of core.now)) (K.told sink.old) (K.told sink.new) l.bytes.items l.status) }
    ensures err { IfErr result (LinesStop (IsPathsAnswer (core_of core.now)) (Rose (K.faults sink.old) (K.faults sink.new)) (K.told sink.old) (K.told sink.new)) }
{
    let Ok(mut stream) = GoalStream::new(alloc, core) else {
        return Err(Stop::Memory);
    };
    'goals: loop {
        match stream.next() {
            Ok(Some(goal)) => match put_goal(alloc, sink, &goal) {
                Ok(()) => {}
                Err(stop) => return Err(stop),
            },
            Ok(None) => return count_output(alloc, stream.given()),
            Err(fault) => return Err(goal_stop(fault)),
        }
    }
}

// Writes the line of a goal.
fn put_goal<K: Sink>(alloc: Global, sink: &mut K, goal: &Goal) -> Result<(), Stop>
    ensures later { K.faults sink.old ≤ K.faults sink.new }
    ensures ok { OnOk result (K.told sink.new ≡ appended (K.told sink.old) (line_of (goal_json goal.now))) }
    ensures err { IfErr result (LineStops (line_of (goal_json goal.now)) (Rose (K.faults sink.old) (K.faults sink.new)) (K.told sink.old) (K.told sink.new)) }
{
    let Ok(line) = goal_line(alloc, goal) else {
        return Err(Stop::Memory);
    };
    match put_all(sink, &line) {
        Ok(()) => Ok(()),
        Err(_) => Err(Stop::Unwritten),
    }
}

// The line of the count of goals.
fn count_output(alloc: Global, count: u64) -> Result<Output, Stop>
    ensures status { IfOk result (λ l. l.status ≡ Status.Good) }
    ensures line { IfOk result (λ l. l.bytes.items ≡ line_of (count_json count)) }
    ensures err { IfErr result (λ e. e ≡ Stop.Memory) }
{
    let Ok(bytes) = goals_line(alloc, count) else {
        return Err(Stop::Memory);
    };
    Ok(Output {
        bytes,
        status: Status::Good,
    })
}

// The stop for a goal that isn't given.
fn goal_stop(fault: GoalFault) -> Stop
    ensures { result ≡ stop_for (goal_refusal fault) }
{
    match fault {
        GoalFault::GoalLimit => Stop::Refused(Refusal::GoalLimit),
        GoalFault::Overflow { goal } => Stop::Refused(Refusal::FormOverflow { goal }),
        GoalFault::Memory => Stop::Memory,
    }
}
