//! How the program ends.
ghost use Rattle.std.specs.Prelude.{◌≡◌};
ghost use Rattle.slice_top.specs.Statuses.{code_of, refused_status};

use slice_report::Refusal;

/// How the program ends.
#[derive(Clone, Copy, Debug, PartialEq, Eq)]
pub enum Status {
    /// The work was done: a text was printed, a core was counted, its goals were told, or nobody is envied.
    Good,
    /// The run got stuck, or someone is envied.
    Negative,
    /// The words are no command.
    Usage,
    /// A file couldn't be read: the shelf's count of faults rose.
    ReadFault,
    /// The report couldn't be written whole: the sink's count of faults rose.
    WriteFault,
    /// A file is too long, isn't of its form or breaks a rule, or an answer was refused.
    Refused,
    /// A limit was passed, or a number doesn't fit.
    Limit,
    /// Want of memory.
    Memory,
}

impl Status {
    /// The exit status, 0 to 7 in the order of the variants.
    pub fn code(self) -> u8
        ensures { result ≡ code_of self }
    {
        match self {
            Status::Good => 0,
            Status::Negative => 1,
            Status::Usage => 2,
            Status::ReadFault => 3,
            Status::WriteFault => 4,
            Status::Refused => 5,
            Status::Limit => 6,
            Status::Memory => 7,
        }
    }

    /// The status of a refusal.
    pub fn of_refusal(refusal: &Refusal) -> Status
        ensures { result ≡ refused_status refusal.now }
    {
        match refusal {
            Refusal::Usage => Status::Usage,
            Refusal::ReadFault { .. } => Status::ReadFault,
            Refusal::NodeLimit
            | Refusal::DepthLimit
            | Refusal::CutLimit
            | Refusal::CallLimit
            | Refusal::GoalLimit
            | Refusal::RunOverflow { .. }
            | Refusal::FormOverflow { .. }
            | Refusal::ProverOverflow { .. }
            | Refusal::CheckOverflow { .. }
            | Refusal::PivotLimit { .. }
            | Refusal::HeightLimit { .. } => Status::Limit,
            _ => Status::Refused,
        }
    }
}
