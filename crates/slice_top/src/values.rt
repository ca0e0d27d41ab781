// How a second file is read.
ghost use Rattle.std.specs.Prelude.{◌≡◌, ◌<◌, length, IfOk, IfErr};
ghost use Rattle.slice_step.specs.ValuationFile.{IsReplayFile, IsValuationFile};
ghost use Rattle.slice_top.specs.Values.{RefusesReplay, RefusesValues, values_refusal};
ghost use Rattle.slice_top.specs.Stops.{StopsFor, stop_for};

use crate::stop::Stop;
use slice_report::Refusal;
use slice_step::{ReplayFile, ValuationFault, Valuations, read_replay, read_valuations};
use std::alloc::Global;

/// The valuations of so many agents.
pub(crate) fn read_values(alloc: Global, bytes: &[u8], agents: u32) -> Result<Valuations, Stop>
    requires some { 0 < agents }
    ensures ok { IfOk result (λ vs. IsValuationFile bytes.now agents vs) }
    ensures agents { IfOk result (λ vs. length vs ≡ agents) }
    ensures err { IfErr result (StopsFor (RefusesValues bytes.now agents)) }
{
    match read_valuations(alloc, bytes, agents) {
        Ok(valuations) => Ok(valuations),
        Err(fault) => Err(values_stop(fault)),
    }
}

/// The valuations of so many agents, and answers to cuts.
pub(crate) fn read_answers(alloc: Global, bytes: &[u8], agents: u32) -> Result<ReplayFile, Stop>
    requires some { 0 < agents }
    ensures ok { IfOk result (λ f. IsReplayFile bytes.now agents f.valuations f.cuts.items) }
    ensures agents { IfOk result (λ f. length f.valuations ≡ agents) }
    ensures err { IfErr result (StopsFor (RefusesReplay bytes.now agents)) }
{
    match read_replay(alloc, bytes, agents) {
        Ok(file) => Ok(file),
        Err(fault) => Err(values_stop(fault)),
    }
}

// The stop for a fault of the second file.
fn values_stop(fault: ValuationFault) -> Stop
    ensures { result ≡ stop_for (values_refusal fault) }
{
    match fault {
        ValuationFault::Json => Stop::Refused(Refusal::Json),
        ValuationFault::Shape { agent } => Stop::Refused(Refusal::Shape { agent }),
        ValuationFault::AgentCount => Stop::Refused(Refusal::AgentCount),
        ValuationFault::NotWhole { agent } => Stop::Refused(Refusal::NotWhole { agent }),
        ValuationFault::EndsOrder { agent } => Stop::Refused(Refusal::EndsOrder { agent }),
        ValuationFault::HeightRange { agent } => Stop::Refused(Refusal::HeightRange { agent }),
        ValuationFault::NoTotal { agent } => Stop::Refused(Refusal::NoTotal { agent }),
        ValuationFault::LengthsDiffer { agent } => Stop::Refused(Refusal::LengthsDiffer { agent }),
        ValuationFault::CutForm { index } => Stop::Refused(Refusal::CutForm { index }),
        ValuationFault::Memory => Stop::Memory,
    }
}
