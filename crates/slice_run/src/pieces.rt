//! The pieces of a run, by the numbers in which they were made.
ghost use Rattle.std.specs.Prelude.{◌≡◌, ℕ, ◌+◌, ◌-◌, ◌<◌, ◌≤◌, List, [], ◌∷◌, ◌++◌, length, map, vec_len, slice_get, Some, IfOk, OnOk, OnErr};
ghost use Rattle.slice_num.specs.Valuation.{cake};
ghost use Rattle.slice_num.specs.declared.interval.Interval.{Interval};
ghost use Rattle.std.specs.Vec.{vec_capacity};
ghost use Rattle.slice_num.specs.Pieces.{join_pieces};
ghost use Rattle.slice_run.specs.Pieces.{held, piece_at, emptied, given, joined, cut_part, with_rest, IsWithin};

use slice_num::{Frac, Interval, Memory};
use slice_piece::{Back, BackTwo, Book, Piece};
use std::alloc::Global;
use std::marker::Model;
use std::mem;

/// The pieces that were made so far, as contracts see them; one that was cut, joined or given has no stretch any more.
pub(crate) struct Pieces {
    slots: Vec<Option<Piece>>,
}

impl Model for Pieces {
    ghost use Rattle.std.specs.Prelude.{List, map};
    ghost use Rattle.slice_num.specs.declared.interval.Interval.{Interval};
    ghost use Rattle.slice_run.specs.Pieces.{held};

    ghost Value = { List (List Interval) };

    ghost view = { λ p. map held p.slots.items };
}

impl Pieces {
    /// The whole cake `[0, length)` as the piece of number 0.
    pub(crate) fn start(alloc: Global, length: u64) -> Result<Pieces, Memory>
        ensures { IfOk result (λ p. p ≡ (cake length ∷ []) ∷ []) }
    {
        let Ok(mut slots) = Vec::with_capacity(alloc, 1) else {
            return Err(Memory);
        };
        let whole = match Piece::cake(alloc, length) {
            Ok(whole) => whole,
            Err(_) => {
                slots.destroy_empty();
                return Err(Memory);
            }
        };
        slots.push(Some(whole)).unwrap();
        Ok(Pieces { slots })
    }

    /// The stretches of the piece of that number.
    pub(crate) fn stretches(&self, number: usize) -> &[Interval]
        requires there { number < length self.now }
        ensures { result.now ≡ piece_at self.now number }
    {
        match &self.slots[number] {
            Some(piece) => piece.intervals(),
            None => &[],
        }
    }

    /// Cuts the piece of that number at a point of one of its parts; the two new pieces get the next numbers. Where
    /// memory is wanted the piece is left.
    pub(crate) fn cut(
        &mut self,
        number: usize,
        part: usize,
        y: &Frac,
        book: &mut Book,
    ) -> Result<(), Memory>
        requires there { part < length (piece_at self.old number) }
        requires within { (i : Interval) → slice_get (piece_at self.old number) part ≡ Some i → IsWithin y.now i }
        requires room { length (joined self.old) ≤ book.old.spare }
        ensures ok { (i : Interval) → slice_get (piece_at self.old number) part ≡ Some i
            → OnOk result (self.new ≡ cut_part self.old number part i y.now) }
        ensures book { OnOk result (book.new ≡ book.old) }
        ensures err { OnErr result (length (joined self.new) ≤ book.new.spare) }
    {
        if self.slots.reserve(2).is_err() {
            return Err(Memory);
        }
        match take(&mut self.slots, number).cut(part, y) {
            Ok((left, right)) => {
                self.slots.push(Some(left)).unwrap();
                self.slots.push(Some(right)).unwrap();
                Ok(())
            }
            Err(Back { piece }) => {
                piece.leave(book);
                Err(Memory)
            }
        }
    }

    /// Makes one piece of two, which gets the next number. Where memory is wanted both are left.
    pub(crate) fn join(
        &mut self,
        first: usize,
        second: usize,
        book: &mut Book,
    ) -> Result<(), Memory>
        requires first_held { 0 < length (piece_at self.old first) }
        requires second_held { 0 < length (piece_at (emptied self.old first) second) }
        requires room { length (joined self.old) ≤ book.old.spare }
        ensures ok { OnOk result (self.new ≡ join_pieces self.old first second) }
        ensures book { OnOk result (book.new ≡ book.old) }
        ensures err { OnErr result (length (joined self.new) ≤ book.new.spare) }
    {
        if self.slots.reserve(1).is_err() {
            return Err(Memory);
        }
        let before = take(&mut self.slots, first);
        let after = take(&mut self.slots, second);
        match before.join(after) {
            Ok(piece) => {
                self.slots.push(Some(piece)).unwrap();
                Ok(())
            }
            Err(BackTwo { first, second }) => {
                first.leave(book);
                second.leave(book);
                Err(Memory)
            }
        }
    }

    /// Gives the piece of that number to the agent. Where memory is wanted it is left.
    pub(crate) fn give(&mut self, number: usize, book: &mut Book, agent: u32) -> Result<(), Memory>
        requires held { 0 < length (piece_at self.old number) }
        requires from_one { 1 ≤ agent }
        requires there { agent ≤ length book.old.shares }
        requires room { length (joined self.old) ≤ book.old.spare }
        ensures pieces { OnOk result (self.new ≡ emptied self.old number) }
        ensures book { OnOk result (book.new ≡
            record book.old { shares = given book.old.shares (agent - 1) (piece_at self.old number) }) }
        ensures err { OnErr result (length (joined self.new) ≤ book.new.spare) }
    {
        match take(&mut self.slots, number).give(book, agent) {
            Ok(()) => return Ok(()),
            Err(Back { piece }) => piece.leave(book),
        }
        Err(Memory)
    }

    /// Leaves all pieces that are still held, in the order in which they were made.
    pub(crate) fn leave_all(self, book: &mut Book)
        requires room { length (joined self) ≤ book.old.spare }
        ensures { book.new ≡ with_rest book.old self }
    {
        let Pieces { mut slots } = self;
        slots.reverse();
        while let Some(slot) = slots.pop() {
            match slot {
                Some(piece) => piece.leave(book),
                None => {}
            }
        }
        slots.destroy_empty();
    }
}

// Takes the piece of that number out to be spent.
fn take(slots: &mut Vec<Option<Piece>>, number: usize) -> Piece
    requires held { 0 < length (piece_at (map held slots.old.items) number) }
    ensures piece { result ≡ piece_at (map held slots.old.items) number }
    ensures rest { map held slots.new.items ≡ emptied (map held slots.old.items) number }
    ensures len { vec_len slots.new ≡ vec_len slots.old }
    ensures room { vec_capacity slots.new ≡ vec_capacity slots.old }
{
    match mem::replace(&mut slots[number], None) {
        Some(piece) => piece,
        None => unreachable!(),
    }
}
