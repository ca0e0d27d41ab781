// Why the work on a command stops, beside its answer.
ghost use Rattle.std.specs.Prelude.{◌≡◌, IfOk, IfErr};
ghost use Rattle.std.specs.Str.{IsUtf8};

use slice_num::Word;
use slice_report::Refusal;
use std::alloc::Global;

/// Why the work on a command stopped.
#[derive(Debug, Drop)]
pub(crate) enum Stop {
    /// The command is refused.
    Refused(Refusal),
    /// A file couldn't be read: the shelf's count of faults rose.
    Unread { file: Word },
    /// Want of memory.
    Memory,
    /// A line couldn't be written: the sink's count of faults rose.
    Unwritten,
}

/// The name of a file, to be told.
pub(crate) fn file_word(alloc: Global, name: &str) -> Result<Word, Stop>
    ensures same { IfOk result (λ w. w ≡ name.now) }
    ensures text { IfOk result (λ w. IsUtf8 w) }
    ensures fault { IfErr result (λ e. e ≡ Stop.Memory) }
{
    match Word::new(alloc, name.as_bytes()) {
        Ok(word) => Ok(word),
        Err(_) => Err(Stop::Memory),
    }
}
