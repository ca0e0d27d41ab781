// How a file is read.
ghost use Rattle.std.specs.Prelude.{◌≡◌, ◌↔◌, ℕ, ◌≤◌, List, IfOk, IfErr};
ghost use Rattle.slice_io.specs.Causes.{Rose};
ghost use Rattle.slice_top.specs.FilesRead.{IsFileOf, RefusesFile};
ghost use Rattle.slice_top.specs.Stops.{StopsBy};

use crate::stop::{Stop, file_word};
use slice_io::{FetchFault, Shelf, fetch};
use slice_report::Refusal;
use std::alloc::Global;

// The most bytes of a file.
const LIMIT: u64 = 1_048_576;

/// The bytes of a file of at most 1,048,576 bytes.
pub(crate) fn read_file<S: Shelf>(alloc: Global, shelf: &mut S, name: &str) -> Result<Vec<u8>, Stop>
    requires asked { S.CanAsk shelf.old name.now }
    ensures same { S.told shelf.new ≡ S.told shelf.old }
    ensures later { S.faults shelf.old ≤ S.faults shelf.new }
    ensures rule { (n : List ℕ) → S.CanAsk shelf.old n ↔ S.CanAsk shelf.new n }
    ensures ok { IfOk result (λ v. IsFileOf (S.told shelf.old) name.now v.items) }
    ensures err { IfErr result (StopsBy (RefusesFile (S.told shelf.old) name.now) (λ file. file ≡ name.now) (Rose (S.faults shelf.old) (S.faults shelf.new))) }
{
    let fault = match fetch(alloc, shelf, name, LIMIT) {
        Ok(bytes) => return Ok(bytes),
        Err(fault) => fault,
    };
    let file = match file_word(alloc, name) {
        Ok(file) => file,
        Err(stop) => return Err(stop),
    };
    match fault {
        FetchFault::ReadFault => Err(Stop::Unread { file }),
        FetchFault::TooLong => Err(Stop::Refused(Refusal::TooLong { file })),
        FetchFault::Memory => Err(Stop::Memory),
    }
}
