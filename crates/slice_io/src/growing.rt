// One file that can always be read, and written bytes that grow.
ghost use Rattle.std.specs.Prelude.{◌≡◌, ◌<◌, ◌≤◌, ◌-◌, IfOk, length, min, Ok, Some, []};
ghost use Rattle.std.specs.Io.{ReadsAtMost};
ghost use Rattle.std.specs.String.{string_bytes};
ghost use Rattle.slice_io.specs.Causes.{HasCause};
ghost use Rattle.slice_io.specs.Files.{file_of, ReadsPart, KeepsRest};
ghost use Rattle.slice_io.specs.Growing.{files_held, after_growth};
ghost use Rattle.slice_io.specs.Told.{TakesFront};

use crate::memory::copy_part;
use crate::{Failed, NamedFile, Shelf, Sink};
use std::alloc::Global;
use std::marker::Model;

/// One file in memory. Only its name may be asked for, so no read fails, and its count of faults
/// is the constant 0. A read gives the least of the buffer's length and the bytes left, and
/// changes only the front of the buffer that it fills. Contracts see the name and the bytes.
#[derive(Drop)]
pub struct OneFile {
    file: NamedFile,
}

impl Model for OneFile {
    ghost use Rattle.std.specs.String.{string_bytes};
    ghost use Rattle.slice_io.specs.Growing.{HeldFile};

    ghost Value = { HeldFile };

    ghost view = { λ s. record { name = string_bytes s.file.name; bytes = s.file.bytes.items } };
}

impl OneFile {
    /// A shelf that holds this file alone.
    pub fn new(file: NamedFile) -> OneFile
        ensures name { result.name ≡ string_bytes file.name }
        ensures bytes { result.bytes ≡ file.bytes.items }
    {
        OneFile { file }
    }
}

impl Shelf for OneFile {
    ghost told = { λ s. Some (files_held s) };

    ghost faults = { λ s. 0 };

    ghost CanAsk = { λ s n. n ≡ s.name };

    fn read(&mut self, _name: &str, from: u64, into: &mut [u8]) -> Result<usize, Failed>
        requires asked { _name.now ≡ self.old.name }
        ensures bound { ReadsAtMost result into.new }
        ensures bytes { ReadsPart (Some (file_of _name.now (files_held self.old))) from result into.new }

        // No read fails; how many bytes it gives, and what the buffer and the shelf hold then.
        ensures exact { result ≡ Ok (min (length into.old) (length self.old.bytes - from)) }
        ensures rest { KeepsRest result into.old into.new }
        ensures same { self.new ≡ self.old }
    {
        Ok(copy_part(self.file.bytes.as_slice(), from, usize::MAX, into))
    }
}

/// Written bytes that grow as they come.
///
/// A write takes all of its bytes, or fails where no memory is left for them, and then none. Each
/// failure raises the count of faults, which starts at 0 and stays at `u64`'s last value.
/// Contracts see the bytes and that count.
#[derive(Drop)]
pub struct GrowingSink {
    bytes: Vec<u8>,
    faults: u64,
}

impl Model for GrowingSink {
    ghost use Rattle.slice_io.specs.Growing.{GrownBytes};

    ghost Value = { GrownBytes };

    ghost view = { λ s. record { bytes = s.bytes.items; faults = s.faults } };
}

impl GrowingSink {
    /// An empty sink. It takes no memory before the first write.
    pub fn new(alloc: Global) -> GrowingSink
        ensures bytes { result.bytes ≡ [] }
        ensures count { result.faults ≡ 0 }
    {
        GrowingSink {
            bytes: Vec::new(alloc),
            faults: 0,
        }
    }

    /// The bytes that were written.
    pub fn into_bytes(self) -> Vec<u8>
        ensures { result.items ≡ self.bytes }
    {
        self.bytes
    }
}

impl Sink for GrowingSink {
    ghost told = { λ s. Some s.bytes };

    ghost faults = { λ s. s.faults };

    fn write(&mut self, bytes: &[u8]) -> Result<usize, Failed>
        ensures bytes { TakesFront (Some self.old.bytes) (Some self.new.bytes) result bytes.now }
        ensures bound { IfOk result (λ n. n ≤ length bytes.now) }
        ensures some { IfOk result (λ n. 0 < length bytes.now → 0 < n) }
        ensures cause { HasCause self.old.faults self.new.faults result }

        // All of the bytes are taken or none, and what the sink holds then.
        ensures whole { IfOk result (λ n. n ≡ length bytes.now) }
        ensures after { self.new ≡ after_growth self.old result bytes.now }
    {
        if self.bytes.extend_from_slice(bytes).is_err() {
            self.faults = self.faults.saturating_add(1);
            return Err(Failed);
        }
        Ok(bytes.len())
    }
}
