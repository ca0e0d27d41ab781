//! Pieces of the cake, which must be spent: a piece is cut, joined, given or left, and nothing else ends it.
ghost use Rattle.std.specs.Prelude.{◌≡◌, ℕ, ◌+◌, ◌-◌, ◌<◌, ◌≤◌, List, [], ◌∷◌, ◌++◌, length, take, drop, slice_get, Some, IfOk, IfErr, OnOk, OnErr};
ghost use Rattle.slice_num.specs.Valuation.{cake};
ghost use Rattle.slice_num.specs.declared.interval.Interval.{Interval};
ghost use Rattle.slice_num.specs.Pieces.{given};
ghost use Rattle.slice_piece.specs.Ledger.{IsWithin};

use crate::book::Book;
use slice_num::{Frac, Interval, Memory};
use std::alloc::Global;
use std::marker::Model;

/// A list of stretches that belong to one piece, as contracts see it. It can't be copied, cloned or dropped.
pub struct Piece {
    intervals: Vec<Interval>,
}

impl Model for Piece {
    ghost use Rattle.std.specs.Prelude.{List};
    ghost use Rattle.slice_num.specs.declared.interval.Interval.{Interval};

    ghost Value = { List Interval };

    ghost view = { λ p. p.intervals.items };
}

/// Want of memory: the piece comes back as it was, and is still to be spent.
pub struct Back {
    pub piece: Piece,
}

/// Want of memory: both pieces come back as they were, and are still to be spent.
pub struct BackTwo {
    pub first: Piece,
    pub second: Piece,
}

impl Piece {
    /// The whole cake `[0, length)`, in points. `Err` comes only for want of memory.
    pub fn cake(alloc: Global, length: u64) -> Result<Piece, Memory>
        ensures { IfOk result (λ p. p ≡ cake length ∷ []) }
    {
        let mut intervals = Vec::new(alloc);
        let whole = Interval {
            from: Frac::whole(0),
            to: Frac::whole(length as u128),
        };
        if intervals.push(whole).is_err() {
            return Err(Memory);
        }
        Ok(Piece { intervals })
    }

    /// The stretches of the piece, in order.
    pub fn intervals(&self) -> &[Interval]
        ensures { result.now ≡ self.now }
    {
        self.intervals.as_slice()
    }

    /// Cuts the piece at the point y of its part of that number, counted from 0, a stretch `[x, z)` that y lies in or at
    /// one of its ends: into the parts before it and `[x, y)`, and `[y, z)` and the parts after it. A stretch may be
    /// empty, and its ends are then one point. `Err` comes only for want of memory.
    pub fn cut(self, part: usize, y: &Frac) -> Result<(Piece, Piece), Back>
        requires there { part < length self }
        requires within { (i : Interval) → slice_get self part ≡ Some i → IsWithin y.now i }
        ensures left { (i : Interval) → slice_get self part ≡ Some i
            → IfOk result (λ parts. parts.0 ≡ take part self ++ record { from = i.from; to = y.now } ∷ []) }
        ensures right { (i : Interval) → slice_get self part ≡ Some i
            → IfOk result (λ parts. parts.1 ≡ record { from = y.now; to = i.to } ∷ drop (part + 1) self) }
        ensures back { IfErr result (λ b. b.piece ≡ self) }
    {
        let Piece { mut intervals } = self;
        let stretch = intervals[part];
        let after = Interval {
            from: *y,
            to: stretch.to,
        };
        let rest = match with_first(*intervals.allocator(), after, &intervals[part + 1..]) {
            Ok(rest) => rest,
            Err(_) => {
                return Err(Back {
                    piece: Piece { intervals },
                });
            }
        };
        intervals.truncate(part + 1);
        intervals[part] = Interval {
            from: stretch.from,
            to: *y,
        };
        Ok((Piece { intervals }, Piece { intervals: rest }))
    }

    /// Makes one piece of two: the stretches of the first, and then those of the second. `Err` comes only for want of
    /// memory.
    pub fn join(self, other: Piece) -> Result<Piece, BackTwo>
        ensures joined { IfOk result (λ p. p ≡ self ++ other) }
        ensures first { IfErr result (λ b. b.first ≡ self) }
        ensures second { IfErr result (λ b. b.second ≡ other) }
    {
        let Piece { intervals: mut all } = self;
        let Piece { intervals: more } = other;
        if all.extend_from_slice(&more).is_err() {
            return Err(BackTwo {
                first: Piece { intervals: all },
                second: Piece { intervals: more },
            });
        }
        Ok(Piece { intervals: all })
    }

    /// Appends the stretches of the piece to the agent's share; agents are numbered from 1. `Err` comes only for want of
    /// memory, and the book is then as it was.
    pub fn give(self, book: &mut Book, agent: u32) -> Result<(), Back>
        requires from_one { 1 ≤ agent }
        requires there { agent ≤ length book.old.shares }
        ensures given { OnOk result
            (book.new ≡ record book.old { shares = given book.old.shares (agent - 1) self }) }
        ensures back { IfErr result (λ b. b.piece ≡ self) }
        ensures unchanged { OnErr result (book.new ≡ book.old) }
    {
        let Piece { intervals } = self;
        if book.add_to_share(agent, &intervals).is_err() {
            return Err(Back {
                piece: Piece { intervals },
            });
        }
        Ok(())
    }

    /// Leaves the piece to nobody: its stretches are appended to what is left, in room that the book keeps. This takes no
    /// memory.
    pub fn leave(self, book: &mut Book)
        requires room { length self ≤ book.old.spare }
        ensures { book.new ≡ record book.old {
          left = book.old.left ++ self;
          spare = book.old.spare - length self;
        } }
    {
        let Piece { intervals } = self;
        book.add_to_left(&intervals);
    }
}

// The stretch, and then the others.
fn with_first(alloc: Global, first: Interval, others: &[Interval]) -> Result<Vec<Interval>, Memory>
    ensures { IfOk result (λ v. v.items ≡ first ∷ others.now) }
{
    let mut all = Vec::new(alloc);
    if all.push(first).is_err() {
        return Err(Memory);
    }
    if all.extend_from_slice(others).is_err() {
        return Err(Memory);
    }
    Ok(all)
}
