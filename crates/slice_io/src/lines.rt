// Files of lines, read a line at a time.
ghost use Rattle.std.specs.Prelude.{◌≡◌, ◌≢◌, ◌↔◌, ℕ, ◌+◌, ◌-◌, ◌<◌, ◌≤◌, List, [], ◌++◌, IfOk, IfErr, IsErr, OnOk, OnErr, IsTrue, MatchOption, length, take, drop, None, Some, Ok, Err, true, false, option_map, nat_lt};
ghost use Rattle.std.specs.String.{string_bytes};
ghost use Rattle.slice_io.specs.Causes.{Rose, counted};
ghost use Rattle.slice_io.specs.Files.{told_file};
ghost use Rattle.slice_io.specs.Gathered.{HasGathered, Gathers, after_part, has_end};
ghost use Rattle.slice_io.specs.Lines.{LineIs, LineRefused, StandsIn, IsSameReader, line_given, given_after, fresh, rest_from, first_line, after_line, line_bytes};

use crate::Shelf;
use slice_num::Memory;
use std::alloc::Global;
use std::marker::Model;
use thiserror::Error;

/// Why a line was not given.
#[derive(Clone, Copy, Debug, PartialEq, Eq, Error)]
pub enum LineFault {
    /// A read failed: the shelf's count of faults rose.
    #[error("ReadFault")]
    ReadFault,
    /// The line of this number, from 1, has more bytes than a line may have.
    #[error("LineTooLong")]
    LineTooLong { line: u64 },
    /// The line or its LF goes past the bytes that the file may have.
    #[error("TooLong")]
    TooLong,
    /// Memory ran out.
    #[error("Memory")]
    Memory,
}

// Bytes asked for in one read.
const BLOCK: usize = 8192;

/// Reads the lines of one file in their order. A line ends at LF, the last needs none.
///
/// Contracts see the file's name, the limits, how many lines were given and bytes looked at, the
/// line last given, and the bytes that were read and not looked at.
#[derive(Drop)]
pub struct LineReader {
    name: String,
    line_limit: u64,
    limit: u64,
    given: u64,
    place: u64,
    line: Vec<u8>,
    block: Vec<u8>,
    from: usize,
    to: usize,
}

impl Model for LineReader {
    ghost use Rattle.std.specs.Prelude.{◌-◌, ◌<◌, ◌≤◌, take, drop, length, vec_len};
    ghost use Rattle.std.specs.String.{string_bytes};
    ghost use Rattle.slice_io.specs.Lines.{Reading};

    ghost Value = { Reading };

    ghost view = { λ r. record { name = string_bytes r.name; line_limit = r.line_limit; limit = r.limit; given = r.given; place = r.place; line = r.line.items; ahead = take (r.to - r.from) (drop r.from r.block.items) } };

    ghost invariant = { λ r. (r.from ≤ r.to) × (r.to ≤ length r.block.items) × (0 < length r.block.items) × (r.given ≤ r.place) × (r.place ≤ r.limit) };
}

impl LineReader {
    /// A reader of the lines of the file `name` that have at most `line_limit` bytes without LF
    /// and lie, with their LF, in the file's first `limit` bytes. It stands at the file's start,
    /// whatever the file is. `Memory` comes where memory runs out.
    pub fn new(alloc: Global, name: &str, line_limit: u64, limit: u64) -> Result<LineReader, Memory>
        ensures fresh { IfOk result (λ r. r ≡ fresh name.now line_limit limit) }
        ensures stands { IfOk result (λ r. (file : List ℕ) → StandsIn r file) }
    {
        let name = String::from_str(alloc, name)?;
        let block = vec![in alloc; 0u8; BLOCK]?;
        Ok(LineReader {
            name,
            line_limit,
            limit,
            given: 0,
            place: 0,
            line: Vec::new(alloc),
            block,
            from: 0,
            to: 0,
        })
    }

    /// The next line without its LF, or `None` exactly at the end of the file. Contracts count
    /// lines from 0, faults name them from 1.
    ///
    /// `ReadFault` comes only where a read failed. `LineTooLong` comes exactly where the line has
    /// more bytes than a line may have; it belongs to the first byte too many. `TooLong` comes
    /// exactly where the line or its LF goes past the bytes that the file may have; it belongs to
    /// the file's first byte too many. Of both the one whose byte comes first is told, at one byte
    /// `LineTooLong`. `Memory` comes where memory runs out. What is said of lines holds where
    /// each call is lent a shelf that tells the same bytes under the name, until a call refuses:
    /// after that nothing is known of the lines that further calls give.
    pub fn next<S: Shelf>(&mut self, shelf: &mut S) -> Result<Option<&[u8]>, LineFault>
        requires asked { S.CanAsk shelf.old self.old.name }
        ensures line { IfOk result (λ o. (file : List ℕ) → told_file (S.told shelf.old) self.old.name ≡ Some (Some file) → StandsIn self.old file
            → LineIs self.old.line_limit self.old.limit file self.old.given (option_map (λ l. l.now) o)) }
        ensures refused { IfErr result (λ e. (file : List ℕ) → told_file (S.told shelf.old) self.old.name ≡ Some (Some file) → StandsIn self.old file
            → LineRefused self.old.line_limit self.old.limit file self.old.given e) }
        ensures missing { told_file (S.told shelf.old) self.old.name ≡ Some None → self.old.ahead ≡ [] → result ≡ Err LineFault.ReadFault }
        ensures read { result ≡ Err LineFault.ReadFault → Rose (S.faults shelf.old) (S.faults shelf.new) }

        // The shelf tells and allows what it did, and its count has not fallen.
        ensures same { S.told shelf.new ≡ S.told shelf.old }
        ensures rule { (n : List ℕ) → S.CanAsk shelf.old n ↔ S.CanAsk shelf.new n }
        ensures later { S.faults shelf.old ≤ S.faults shelf.new }
    {
        if self.advance(shelf)? {
            return Ok(Some(self.line()));
        }
        Ok(None)
    }

    /// Goes on to the next line, and says whether there is one. `next` is this and [`LineReader::line`],
    /// with the same answers: a caller that goes on reading takes these two.
    pub fn advance<S: Shelf>(&mut self, shelf: &mut S) -> Result<bool, LineFault>
        requires asked { S.CanAsk shelf.old self.old.name }
        ensures line { IfOk result (λ more. (file : List ℕ) → told_file (S.told shelf.old) self.old.name ≡ Some (Some file) → StandsIn self.old file
            → LineIs self.old.line_limit self.old.limit file self.old.given (line_given more self.new)) }
        ensures stands { IfOk result (λ more. (file : List ℕ) → told_file (S.told shelf.old) self.old.name ≡ Some (Some file) → StandsIn self.old file
            → StandsIn self.new file) }
        ensures given { IfOk result (λ more. self.new.given ≡ given_after self.old.given more) }
        ensures refused { IfErr result (λ e. (file : List ℕ) → told_file (S.told shelf.old) self.old.name ≡ Some (Some file) → StandsIn self.old file
            → LineRefused self.old.line_limit self.old.limit file self.old.given e) }
        ensures missing { told_file (S.told shelf.old) self.old.name ≡ Some None → self.old.ahead ≡ [] → result ≡ Err LineFault.ReadFault }
        ensures read { result ≡ Err LineFault.ReadFault → Rose (S.faults shelf.old) (S.faults shelf.new) }
        ensures keeps { IsSameReader self.old self.new }

        // The shelf tells and allows what it did, and its count has not fallen.
        ensures same { S.told shelf.new ≡ S.told shelf.old }
        ensures rule { (n : List ℕ) → S.CanAsk shelf.old n ↔ S.CanAsk shelf.new n }
        ensures later { S.faults shelf.old ≤ S.faults shelf.new }
    {
        self.line.clear();
        let more = self.gather(shelf)?;
        if more {
            self.given += 1;
        }
        Ok(more)
    }

    /// How many lines were given.
    pub fn given(&self) -> u64
        ensures { result ≡ self.now.given }
    {
        self.given
    }

    /// The line that was given last.
    pub fn line(&self) -> &[u8]
        ensures { result.now ≡ self.now.line }
    {
        self.line.as_slice()
    }

    // Reads on until the line has ended, and says whether there was one.
    fn gather<S: Shelf>(&mut self, shelf: &mut S) -> Result<bool, LineFault>
        requires asked { S.CanAsk shelf.old self.old.name }
        requires empty { self.old.line ≡ [] }
        requires within { self.old.place ≤ self.old.limit }
        ensures line { (file : List ℕ) → told_file (S.told shelf.old) self.old.name ≡ Some (Some file) → StandsIn self.old file
            → result ≡ Ok true → LineIs self.old.line_limit self.old.limit file self.old.given (Some self.new.line) × HasGathered self.new file }
        ensures end { (file : List ℕ) → told_file (S.told shelf.old) self.old.name ≡ Some (Some file) → StandsIn self.old file
            → result ≡ Ok false → (rest_from self.old.given file ≡ []) × StandsIn self.new file }
        ensures refused { IfErr result (λ e. (file : List ℕ) → told_file (S.told shelf.old) self.old.name ≡ Some (Some file) → StandsIn self.old file
            → LineRefused self.old.line_limit self.old.limit file self.old.given e) }
        ensures missing { told_file (S.told shelf.old) self.old.name ≡ Some None → self.old.ahead ≡ [] → result ≡ Err LineFault.ReadFault }
        ensures read { result ≡ Err LineFault.ReadFault → Rose (S.faults shelf.old) (S.faults shelf.new) }
        ensures keeps { (self.new.given ≡ self.old.given) × IsSameReader self.old self.new }
        ensures on { result ≡ Ok true → self.old.place < self.new.place }
        ensures same { S.told shelf.new ≡ S.told shelf.old }
        ensures rule { (n : List ℕ) → S.CanAsk shelf.old n ↔ S.CanAsk shelf.new n }
        ensures later { S.faults shelf.old ≤ S.faults shelf.new }
    {
        loop {
            if !self.ready(shelf)? {
                return Ok(self.has_bytes());
            }
            if self.take_part()? {
                return Ok(true);
            }
        }
    }

    // Sees to it that something is ahead, and says whether there is: nothing only at the file's end.
    fn ready<S: Shelf>(&mut self, shelf: &mut S) -> Result<bool, LineFault>
        requires asked { S.CanAsk shelf.old self.old.name }
        ensures keeps { (self.new.given ≡ self.old.given) × IsSameReader self.old self.new }
        ensures line { (self.new.line ≡ self.old.line) × (self.new.place ≡ self.old.place) }
        ensures some { IfOk result (λ some. (some ≡ true → self.new.ahead ≢ []) × (some ≡ false → self.new.ahead ≡ [])) }
        ensures gathers { IfOk result (λ some. (file : List ℕ) → told_file (S.told shelf.old) self.old.name ≡ Some (Some file) → Gathers self.old file
            → Gathers self.new file × (some ≡ false → rest_from self.old.given file ≡ self.old.line)) }
        ensures missing { told_file (S.told shelf.old) self.old.name ≡ Some None → self.old.ahead ≡ [] → result ≡ Err LineFault.ReadFault }
        ensures kind { IfErr result (λ e. e ≡ LineFault.ReadFault) }
        ensures read { OnErr result (Rose (S.faults shelf.old) (S.faults shelf.new)) }
        ensures same { S.told shelf.new ≡ S.told shelf.old }
        ensures rule { (n : List ℕ) → S.CanAsk shelf.old n ↔ S.CanAsk shelf.new n }
        ensures later { S.faults shelf.old ≤ S.faults shelf.new }
    {
        if self.is_spent() {
            self.fill(shelf)?;
            return Ok(!self.is_spent());
        }
        Ok(true)
    }

    // Whether nothing is ahead.
    fn is_spent(&self) -> bool
        ensures { IsTrue result ↔ (self.now.ahead ≡ []) }
    {
        self.from == self.to
    }

    // Whether the line has a byte.
    fn has_bytes(&self) -> bool
        ensures { IsTrue result ↔ (0 < length self.now.line) }
    {
        !self.line.is_empty()
    }

    // Reads the next block. Nothing is ahead then only where the file has ended.
    fn fill<S: Shelf>(&mut self, shelf: &mut S) -> Result<(), LineFault>
        requires asked { S.CanAsk shelf.old self.old.name }
        ensures keeps { (self.new.given ≡ self.old.given) × IsSameReader self.old self.new }
        ensures line { (self.new.line ≡ self.old.line) × (self.new.place ≡ self.old.place) }
        ensures bytes { OnOk result ((file : List ℕ) → told_file (S.told shelf.old) self.old.name ≡ Some (Some file)
            → (self.new.ahead ≡ take (length self.new.ahead) (drop self.old.place file)) × (self.new.ahead ≡ [] → length file ≤ self.old.place)) }
        ensures missing { told_file (S.told shelf.old) self.old.name ≡ Some None → result ≡ Err LineFault.ReadFault }
        ensures kind { IfErr result (λ e. e ≡ LineFault.ReadFault) }
        ensures read { OnErr result (Rose (S.faults shelf.old) (S.faults shelf.new)) }
        ensures same { S.told shelf.new ≡ S.told shelf.old }
        ensures rule { (n : List ℕ) → S.CanAsk shelf.old n ↔ S.CanAsk shelf.new n }
        ensures later { S.faults shelf.old ≤ S.faults shelf.new }
    {
        let Ok(count) = shelf.read(&self.name, self.place, &mut self.block) else {
            return Err(LineFault::ReadFault);
        };
        self.from = 0;
        self.to = count;
        Ok(())
    }

    // Moves what is ahead of the first line to the line, with its LF, and says whether there was one.
    fn take_part(&mut self) -> Result<bool, LineFault>
        requires line { length self.old.line ≤ self.old.line_limit }
        ensures part { IfOk result (λ ended. (ended ≡ has_end self.old.ahead) × (self.new ≡ after_part self.old)) }
        ensures bounds { OnOk result ((length self.old.line + length (first_line self.old.ahead) ≤ self.old.line_limit) × (self.old.place + line_bytes self.old.ahead ≤ self.old.limit)) }
        ensures kind { IfErr result (λ e. e ≢ LineFault.ReadFault) }
        ensures line { (n : ℕ) → result ≡ Err (LineFault.LineTooLong n) → (n ≡ counted self.old.given)
            × (self.old.line_limit < length self.old.line + length (first_line self.old.ahead))
            × (self.old.place + (self.old.line_limit - length self.old.line) ≤ self.old.limit) }
        ensures long { result ≡ Err LineFault.TooLong → (self.old.limit < self.old.place + line_bytes self.old.ahead)
            × (self.old.line_limit < length self.old.line + length (first_line self.old.ahead) → self.old.limit < self.old.place + (self.old.line_limit - length self.old.line)) }
        ensures keeps { (self.new.given ≡ self.old.given) × IsSameReader self.old self.new }
    {
        let part = &self.block[self.from..self.to];
        let (count, bytes) = first_part(part);
        let line_room = self.line_limit - self.line.len() as u64;
        let number = self.given.saturating_add(1);
        fits(
            number,
            count as u64,
            line_room,
            bytes as u64,
            self.limit - self.place,
        )?;
        if self.line.extend_from_slice(&part[..count]).is_err() {
            return Err(LineFault::Memory);
        }
        self.from += bytes;
        self.place += bytes as u64;
        Ok(count < bytes)
    }
}

// How many bytes the first line has, without its LF and with it.
fn first_part(part: &[u8]) -> (usize, usize)
    ensures line { take result.0 part.now ≡ first_line part.now }
    ensures length { result.0 ≡ length (first_line part.now) }
    ensures bytes { result.1 ≡ line_bytes part.now }
    ensures within { (result.0 ≤ result.1) × (result.1 ≤ length part.now) }
    ensures after { drop result.1 part.now ≡ after_line part.now }
    ensures end { nat_lt result.0 result.1 ≡ has_end part.now }
{
    for (i, byte) in part.iter().enumerate() {
        if *byte == b'\n' {
            return (i, i + 1);
        }
    }
    (part.len(), part.len())
}

// Whether so many bytes of the line numbered `number`, `bytes` with its LF, have room in the line and in the file.
fn fits(number: u64, count: u64, line_room: u64, bytes: u64, room: u64) -> Result<(), LineFault>
    requires more { count ≤ bytes }
    ensures ok { OnOk result ((count ≤ line_room) × (bytes ≤ room)) }
    ensures kind { IfErr result (λ e. (e ≢ LineFault.ReadFault) × (e ≢ LineFault.Memory)) }
    ensures line { (n : ℕ) → result ≡ Err (LineFault.LineTooLong n) → (n ≡ number) × (line_room < count) × (line_room ≤ room) }
    ensures long { result ≡ Err LineFault.TooLong → (room < bytes) × (line_room < count → room < line_room) }
{
    if count > line_room && line_room <= room {
        return Err(LineFault::LineTooLong { line: number });
    }
    if bytes > room {
        return Err(LineFault::TooLong);
    }
    Ok(())
}
