//! Why a program has no core.
ghost use Rattle.std.specs.Prelude.{◌≡◌};
ghost use Rattle.slice_expand.specs.declared.fault.ExpandFault.TheVariants as fault;

use slice_num::Memory;
use std::alloc::{AllocError, AllocFailed};
use thiserror::Error;

/// A limit that expansion passes, or want of memory. The text of each is its name.
#[derive(Clone, Copy, Debug, PartialEq, Eq, Error)]
pub enum ExpandFault {
    /// There is a 200,001st node.
    #[error("NodeLimit")]
    NodeLimit,
    /// A way has a 513th node.
    #[error("DepthLimit")]
    DepthLimit,
    /// A way has a 65th cut.
    #[error("CutLimit")]
    CutLimit,
    /// A 100,001st call is put in line.
    #[error("CallLimit")]
    CallLimit,
    /// An allocation was refused.
    #[error("Memory")]
    Memory,
}

impl From<Memory> for ExpandFault {
    ghost from_gives = { λ _ e. e ≡ fault.Memory };

    fn from(_error: Memory) -> ExpandFault {
        ExpandFault::Memory
    }
}

impl From<AllocError> for ExpandFault {
    ghost from_gives = { λ _ e. e ≡ fault.Memory };

    fn from(_error: AllocError) -> ExpandFault {
        ExpandFault::Memory
    }
}

impl<T: Drop> From<AllocFailed<T>> for ExpandFault {
    ghost from_gives = { λ _ e. e ≡ fault.Memory };

    fn from(_error: AllocFailed<T>) -> ExpandFault {
        ExpandFault::Memory
    }
}
