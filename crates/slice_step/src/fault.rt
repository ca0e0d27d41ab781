//! Why a file gave no valuations.
ghost use Rattle.std.specs.Prelude.{◌≡◌, ◌≢◌};
ghost use Rattle.slice_json.specs.declared.read.JsonFault.TheVariants.{Json as JsonJson};
ghost use Rattle.slice_step.specs.declared.fault.ValuationFault.TheVariants.{Json, Memory};

use slice_json::JsonFault;
use std::alloc::{AllocError, AllocFailed};

/// Why bytes gave no valuations, or no answers. Agents are numbered from 1, and answers from 0.
#[derive(Clone, Copy, Debug, PartialEq, Eq)]
pub enum ValuationFault {
    /// The bytes are no JSON, or no UTF-8.
    Json,
    /// An entry isn't an object with the arrays `ends` and `heights`, as long as each other, of 1 to 1,000 items.
    /// With agent 0: a file of valuations isn't an array, or a replay file isn't an object with the arrays `valuations`
    /// and `cuts`.
    Shape { agent: u32 },
    /// There aren't as many valuations as agents.
    AgentCount,
    /// An end or a height isn't a whole number from -2^63 to 2^64 - 1, as `1.0`, `1e2` and `-0` aren't.
    NotWhole { agent: u32 },
    /// The ends don't rise strictly from above 0, or the last is above 1,000,000.
    EndsOrder { agent: u32 },
    /// A height is below 0 or above 10^18.
    HeightRange { agent: u32 },
    /// All heights are 0.
    NoTotal { agent: u32 },
    /// The last end isn't the first agent's.
    LengthsDiffer { agent: u32 },
    /// An answer is neither the text of a fraction nor an array of a part and such a text.
    CutForm { index: usize },
    /// There was too little memory.
    Memory,
}

impl From<JsonFault> for ValuationFault {
    ghost from_gives = { λ f e. e ≢ Memory → (f ≡ JsonJson) × (e ≡ Json) };

    fn from(fault: JsonFault) -> ValuationFault {
        match fault {
            JsonFault::Json => ValuationFault::Json,
            JsonFault::Memory => ValuationFault::Memory,
        }
    }
}

impl From<AllocError> for ValuationFault {
    ghost from_gives = { λ _ e. e ≡ Memory };

    fn from(_error: AllocError) -> ValuationFault {
        ValuationFault::Memory
    }
}

impl<T: Drop> From<AllocFailed<T>> for ValuationFault {
    ghost from_gives = { λ _ e. e ≡ Memory };

    fn from(_error: AllocFailed<T>) -> ValuationFault {
        ValuationFault::Memory
    }
}
