//! The way that makes given choices, as far as its cuts ask for: its pieces, and where it cuts the cake.
ghost use Rattle.std.specs.Prelude.{◌≡◌, ◌≢◌, ℕ, ◌+◌, ◌*◌, ◌<◌, ◌≤◌, ◌^◌, List, [], ◌∷◌, ◌++◌, length, map, take, drop, IfOk, OnOk, OnErr, MatchOption, slice_get, Some, None};
ghost use Rattle.std.specs.List.{All};
ghost use Rattle.slice_num.specs.declared.choice.Choice.{Choice};
ghost use Rattle.slice_num.specs.Pieces.{emptied, piece_at, join_pieces};
ghost use Rattle.slice_counter.specs.Marks.{moved, moved_mark, parts_of, cut_parts, part_taken, arm_taken};

use slice_num::{Choice, Memory};
use std::alloc::Global;
use std::mem;

/// A cut that was passed: the number of the part in its piece, from 0, and how many atoms lie to the left of the cut.
#[derive(Clone, Copy, Debug, PartialEq, Eq)]
pub struct Mark {
    pub part: u32,
    pub left: u64,
}

/// A way so far: for each piece its parts, each told by how many atoms lie to its left, and the cuts.
#[derive(Drop)]
pub struct Trail {
    pub(crate) pieces: Vec<Vec<u64>>,
    pub(crate) cuts: Vec<Mark>,
}

impl Trail {
    /// The uncut cake. `Err` comes only for want of memory.
    pub(crate) fn new(alloc: Global) -> Result<Trail, Memory>
        ensures pieces { IfOk result (λ t. parts_of t ≡ (0 ∷ []) ∷ []) }
        ensures cuts { IfOk result (λ t. t.cuts.items ≡ []) }
    {
        let whole = Vec::from_slice(alloc, &[0u64])?;
        let mut pieces = Vec::new(alloc);
        if pieces.push(whole).is_err() {
            return Err(Memory);
        }
        Ok(Trail {
            pieces,
            cuts: Vec::new(alloc),
        })
    }

    // The parts of the piece, which has none from then on.
    fn take(&mut self, alloc: Global, piece: u32) -> Vec<u64>
        ensures parts { result.items ≡ piece_at (parts_of self.old) piece }
        ensures pieces { parts_of self.new ≡ emptied (parts_of self.old) piece }
        ensures cuts { self.new.cuts ≡ self.old.cuts }
    {
        let at = piece as usize;
        if at < self.pieces.len() {
            mem::replace(&mut self.pieces[at], Vec::new(alloc))
        } else {
            Vec::new(alloc)
        }
    }

    /// The piece is given away.
    pub(crate) fn give(&mut self, alloc: Global, piece: u32)
        ensures pieces { parts_of self.new ≡ emptied (parts_of self.old) piece }
        ensures cuts { self.new.cuts ≡ self.old.cuts }
    {
        let parts = self.take(alloc, piece);
        drop(parts);
    }

    /// The two pieces become one. `Err` comes only for want of memory.
    pub(crate) fn join(&mut self, alloc: Global, first: u32, second: u32) -> Result<(), Memory>
        ensures pieces { OnOk result (parts_of self.new ≡ join_pieces (parts_of self.old) first second) }
        ensures cuts { self.new.cuts ≡ self.old.cuts }
    {
        let mut parts = self.take(alloc, first);
        let more = self.take(alloc, second);
        parts.extend_from_slice(more.as_slice())?;
        if self.pieces.push(parts).is_err() {
            return Err(Memory);
        }
        Ok(())
    }

    /// The atom that is the part of that number in the piece, if it has so many.
    pub(crate) fn atom(&self, piece: u32, part: usize) -> Option<u64>
        ensures { result ≡ slice_get (piece_at (parts_of self.now) piece) part }
    {
        let at = piece as usize;
        if at < self.pieces.len() {
            self.pieces[at].get(part).copied()
        } else {
            None
        }
    }

    /// That atom, the part of that number in the piece, is cut. `Err` comes only for want of memory.
    pub(crate) fn cut(
        &mut self,
        alloc: Global,
        piece: u32,
        part: usize,
        atom: u64,
    ) -> Result<(), Memory>
        requires part { slice_get (piece_at (parts_of self.old) piece) part ≡ Some atom }
        requires parts { All (λ ps. All (λ n. n ≤ 64) ps) (parts_of self.old) }
        requires marks { All (λ m. m.left ≤ 64) self.old.cuts.items }
        requires few { part < 2 ^ 32 }
        ensures pieces { OnOk result (parts_of self.new ≡ cut_parts piece part atom (map (map (moved atom)) (parts_of self.old))) }
        ensures cuts { OnOk result (self.new.cuts.items ≡ map (moved_mark atom) self.old.cuts.items ++ (record { part = part; left = atom + 1 }) ∷ []) }
    {
        move_pieces(&mut self.pieces, atom);
        move_marks(&mut self.cuts, atom);
        let parts = self.take(alloc, piece);
        let left = left_piece(alloc, parts.as_slice(), part, atom)?;
        let right = right_piece(alloc, parts.as_slice(), part, atom + 1)?;
        self.put(left, right)?;
        let mark = Mark {
            part: part as u32,
            left: atom + 1,
        };
        if self.cuts.push(mark).is_err() {
            return Err(Memory);
        }
        Ok(())
    }

    /// The cuts, in order.
    pub(crate) fn into_cuts(self) -> Vec<Mark>
        ensures { result ≡ self.cuts }
    {
        self.cuts
    }

    // Two more pieces.
    fn put(&mut self, left: Vec<u64>, right: Vec<u64>) -> Result<(), Memory>
        ensures pieces { OnOk result (parts_of self.new ≡ parts_of self.old ++ left.items ∷ right.items ∷ []) }
        ensures cuts { self.new.cuts ≡ self.old.cuts }
    {
        if self.pieces.push(left).is_err() {
            return Err(Memory);
        }
        if self.pieces.push(right).is_err() {
            return Err(Memory);
        }
        Ok(())
    }
}

// So many atoms to the left, after that atom was cut.
fn moved(left: u64, atom: u64) -> u64
    requires { left ≤ 64 }
    ensures { result ≡ moved atom left }
{
    if left > atom { left + 1 } else { left }
}

// The parts of all pieces that lie to the right of the atom move on by one.
fn move_pieces(pieces: &mut Vec<Vec<u64>>, atom: u64)
    requires { All (λ ps. All (λ n. n ≤ 64) ps) (map (λ p. p.items) pieces.old.items) }
    ensures { map (λ p. p.items) pieces.new.items ≡ map (map (moved atom)) (map (λ p. p.items) pieces.old.items) }
{
    for piece in pieces.iter_mut() {
        move_parts(piece, atom);
    }
}

// What lies to the right of the atom moves on by one.
fn move_parts(parts: &mut Vec<u64>, atom: u64)
    requires { All (λ n. n ≤ 64) parts.old.items }
    ensures { parts.new.items ≡ map (moved atom) parts.old.items }
{
    for part in parts.iter_mut() {
        *part = moved(*part, atom);
    }
}

// The cuts to the right of the atom move on by one.
fn move_marks(marks: &mut Vec<Mark>, atom: u64)
    requires { All (λ m. m.left ≤ 64) marks.old.items }
    ensures { marks.new.items ≡ map (moved_mark atom) marks.old.items }
{
    for mark in marks.iter_mut() {
        *mark = Mark {
            part: mark.part,
            left: moved(mark.left, atom),
        };
    }
}

// The parts before one of them, and then the left half of it.
fn left_piece(alloc: Global, parts: &[u64], part: usize, half: u64) -> Result<Vec<u64>, Memory>
    requires { part < length parts.now }
    ensures { IfOk result (λ v. v.items ≡ take part parts.now ++ half ∷ []) }
{
    let mut piece = Vec::from_slice(alloc, &parts[..part])?;
    if piece.push(half).is_err() {
        return Err(Memory);
    }
    Ok(piece)
}

// The right half of a part, and then the parts after it.
fn right_piece(alloc: Global, parts: &[u64], part: usize, half: u64) -> Result<Vec<u64>, Memory>
    requires { part < length parts.now }
    ensures { IfOk result (λ v. v.items ≡ half ∷ drop (part + 1) parts.now) }
{
    let mut piece = Vec::from_slice(alloc, &[half])?;
    piece.extend_from_slice(&parts[part + 1..])?;
    Ok(piece)
}

/// Which part the choices from there on take: so many times No, then Go.
pub(crate) fn part_taken(trace: &[Choice], at: usize) -> Option<usize>
    requires { at ≤ length trace.now }
    ensures taken { result ≡ part_taken (drop at trace.now) }
    ensures within { MatchOption result (Unit {0}) (λ part. at + part < length trace.now) }
{
    for i in at..trace.len() {
        match trace[i] {
            Choice::No => {}
            Choice::Go => return Some(i - at),
            _ => return None,
        }
    }
    None
}

/// Whether the next choice is yes; None where it is neither yes nor no.
pub(crate) fn arm_taken(trace: &[Choice], at: usize) -> Option<bool>
    requires { at ≤ length trace.now }
    ensures taken { result ≡ arm_taken (drop at trace.now) }
    ensures within { MatchOption result (Unit {0}) (λ arm. at < length trace.now) }
{
    if at == trace.len() {
        return None;
    }
    match trace[at] {
        Choice::Yes => Some(true),
        Choice::No => Some(false),
        _ => None,
    }
}
