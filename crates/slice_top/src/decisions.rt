// How the goals of a core are decided.
ghost use Rattle.std.specs.Prelude.{◌≡◌, ◌≤◌, IfOk, IfErr};
ghost use Rattle.slice_core.specs.Cores.{core_of};
ghost use Rattle.slice_io.specs.Causes.{Rose};
ghost use Rattle.slice_top.specs.Answers.{IsVerifyAnswer};
ghost use Rattle.slice_top.specs.Decisions.{decided_status, verify_stop};
ghost use Rattle.slice_top.specs.Settled.{Ends, LinesStop};
ghost use Rattle.slice_top.specs.Statuses.{IsWorked};

use crate::status::Status;
use crate::stop::Stop;
use crate::work::Output;
use slice_core::Core;
use slice_io::Sink;
use slice_report::Refusal;
use slice_verify::{Decision, VerifyFault, verify};
use std::alloc::Global;

/// Writes the lines of `verify` of a core, all of them.
pub(crate) fn decide_core<K: Sink>(alloc: Global, sink: &mut K, core: &Core) -> Result<Output, Stop>
    ensures later { K.faults sink.old ≤ K.faults sink.new }
    ensures worked { IfOk result (λ l. IsWorked l.status) }
    ensures ok { IfOk result (λ l. Ends (IsVerifyAnswer (core_of core.now)) (K.told sink.old) (K.told sink.new) l.bytes.items l.status) }
    ensures err { IfErr result (LinesStop (IsVerifyAnswer (core_of core.now)) (Rose (K.faults sink.old) (K.faults sink.new)) (K.told sink.old) (K.told sink.new)) }
{
    match verify(alloc, core, sink) {
        Ok(decision) => Ok(Output {
            bytes: Vec::new(alloc),
            status: decided_status(&decision),
        }),
        Err(fault) => Err(verify_stop(fault)),
    }
}

// Good where no run is stuck or leaves envy.
fn decided_status(decision: &Decision) -> Status
    ensures same { result ≡ decided_status decision.now }
    ensures worked { IsWorked result }
{
    match decision {
        Decision::EnvyFree { .. } => Status::Good,
        Decision::Found(_) => Status::Negative,
    }
}

/// The stop where nothing is decided.
pub(crate) fn verify_stop(fault: VerifyFault) -> Stop
    ensures { result ≡ verify_stop fault }
{
    match fault {
        VerifyFault::GoalLimit => Stop::Refused(Refusal::GoalLimit),
        VerifyFault::FormOverflow { goal } => Stop::Refused(Refusal::FormOverflow { goal }),
        VerifyFault::PivotLimit { goal } => Stop::Refused(Refusal::PivotLimit { goal }),
        VerifyFault::PivotOverflow {
            goal,
            pivots,
            row,
            col,
        } => Stop::Refused(Refusal::ProverOverflow {
            goal,
            pivots,
            row,
            col,
        }),
        VerifyFault::HeightLimit { goal, agent, atom } => {
            Stop::Refused(Refusal::HeightLimit { goal, agent, atom })
        }
        VerifyFault::WriteFault => Stop::Unwritten,
        VerifyFault::Memory => Stop::Memory,
    }
}
