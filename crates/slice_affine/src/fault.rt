//! What a program can break the rules by.
use slice_num::{Memory, Word};
use thiserror::Error;

/// Why a program breaks the rules, and where. `at` is the place of a token: how many bytes of the text come before
/// it. The fault with the least place is told; of several at one place, the first in the order of this list.
#[derive(Debug, Drop, Error)]
pub enum AffineFault {
    /// The name isn't in scope as what is wanted of it, an agent, a piece or a number; or no procedure of that name
    /// is defined earlier in the text. `at` is where the name stands.
    #[error("Unbound")]
    Unbound { name: Word, at: usize },
    /// The name is bound where it is in scope or was bound earlier in the same statement, a parameter repeats, or a
    /// procedure has the name of an earlier one. `at` is where the later name stands.
    #[error("Rebound")]
    Rebound { name: Word, at: usize },
    /// A piece is used, or asked by `value`, that was used before on some way through the program, whatever its
    /// tests. `at` is where the later name stands, and `first` the least place of such an earlier use.
    #[error("UsedTwice")]
    UsedTwice { name: Word, at: usize, first: usize },
    /// The agent's number is 0 or above the protocol's count, or the count itself is 0 or above 16. `at` is where the
    /// number stands.
    #[error("AgentRange")]
    AgentRange { at: usize },
    /// The arguments of a call differ from the procedure's parameters in number or kind. `at` is where the call names
    /// the procedure.
    #[error("Arity")]
    Arity { at: usize },
    /// An `if` doesn't bind as many names as each of its blocks yields, a call as many as its procedure yields, or a
    /// `pick` as many as it has pieces; or a `pick` has one piece. `at` is where the statement's last token stands.
    #[error("YieldCount")]
    YieldCount { at: usize },
    /// The denominator is 0. `at` is where it stands.
    #[error("ZeroDen")]
    ZeroDen { at: usize },
    /// The procedure is the 65th. `at` is where its name stands.
    #[error("ProcLimit")]
    ProcLimit { at: usize },
    /// Memory ran out.
    #[error("Memory")]
    Memory,
}

impl From<Memory> for AffineFault {
    ghost use Rattle.std.specs.Prelude.{◌≡◌};
    ghost use Rattle.slice_affine.specs.declared.fault.AffineFault.TheVariants as fault;

    ghost from_gives = { λ _ e. e ≡ fault.Memory };

    fn from(_error: Memory) -> AffineFault {
        AffineFault::Memory
    }
}

ghost use Rattle.std.specs.Prelude.{◌≡◌};
ghost use Rattle.slice_affine.specs.Faults.{place_of, rank_of, is_before};

impl AffineFault {
    // The place that the fault names.
    fn place(&self) -> usize
        ensures { result ≡ place_of self.now }
    {
        match self {
            AffineFault::Unbound { at, .. }
            | AffineFault::Rebound { at, .. }
            | AffineFault::UsedTwice { at, .. }
            | AffineFault::AgentRange { at }
            | AffineFault::Arity { at }
            | AffineFault::YieldCount { at }
            | AffineFault::ZeroDen { at }
            | AffineFault::ProcLimit { at } => *at,
            AffineFault::Memory => 0,
        }
    }

    // Of faults at one place the least is told.
    fn rank(&self) -> u8
        ensures { result ≡ rank_of self.now }
    {
        match self {
            AffineFault::Unbound { .. } => 0,
            AffineFault::Rebound { .. } => 1,
            AffineFault::UsedTwice { .. } => 2,
            AffineFault::AgentRange { .. } => 3,
            AffineFault::Arity { .. } => 4,
            AffineFault::YieldCount { .. } => 5,
            AffineFault::ZeroDen { .. } => 6,
            AffineFault::ProcLimit { .. } => 7,
            AffineFault::Memory => 8,
        }
    }

    /// The fault is told before the other one: it stands at a lesser place, or at the same one and comes first there.
    #[tactic(auto, unfolding(crate::specs::Faults::is_before))]
    pub(crate) fn is_before(&self, other: &AffineFault) -> bool
        ensures { result ≡ is_before self.now other.now }
    {
        self.place() < other.place()
            || (self.place() == other.place() && self.rank() < other.rank())
    }
}
