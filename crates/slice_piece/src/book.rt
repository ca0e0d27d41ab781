//! The book of a run: what each agent was given, and what is left.
ghost use Rattle.std.specs.Prelude.{◌≡◌, ℕ, ◌+◌, ◌-◌, ◌<◌, ◌≤◌, List, [], ◌++◌, length, replicate, map, IfOk, OnOk, OnErr, slice_get, Some};
ghost use Rattle.slice_num.specs.Pieces.{given};

use slice_num::{Interval, Memory};
use std::alloc::Global;
use std::marker::Model;

/// The shares of the agents and what is left, as lists of stretches in the order in which they came. Contracts see it as
/// a `Ledger`: shares by agent, what is left, and the room that is kept for more.
#[derive(Drop)]
pub struct Book {
    shares: Vec<Vec<Interval>>,
    left: Vec<Interval>,
    spare: usize,
}

impl Model for Book {
    ghost use Rattle.std.specs.Prelude.{ℕ, ◌+◌, ◌≤◌, map, vec_len};
    ghost use Rattle.std.specs.Vec.{vec_capacity};
    ghost use Rattle.slice_piece.specs.Ledger.{Ledger};

    ghost Value = { Ledger };

    ghost view = { λ b. record { shares = map (λ s. s.items) b.shares.items; left = b.left.items; spare = b.spare } };

    ghost invariant = { λ b. vec_len b.left + b.spare ≤ vec_capacity b.left };
}

impl Book {
    /// An empty book for so many agents, with room for so many stretches that are left. `Err` comes only for want of
    /// memory.
    pub fn new(alloc: Global, agents: u32, room: usize) -> Result<Book, Memory>
        ensures shares { IfOk result (λ b. b.shares ≡ replicate agents []) }
        ensures left { IfOk result (λ b. b.left ≡ []) }
        ensures room { IfOk result (λ b. b.spare ≡ room) }
    {
        let Ok(left) = Vec::with_capacity(alloc, room) else {
            return Err(Memory);
        };
        let mut shares = Vec::new(alloc);
        for agent in 0..agents {
            if shares.push(Vec::new(alloc)).is_err() {
                return Err(Memory);
            }
        }
        Ok(Book {
            shares,
            left,
            spare: room,
        })
    }

    /// The stretches that the agent was given, in order. Agents are numbered from 1.
    pub fn share(&self, agent: u32) -> &[Interval]
        requires from_one { 1 ≤ agent }
        requires there { agent ≤ length self.now.shares }
        ensures { slice_get self.now.shares (agent - 1) ≡ Some result.now }
    {
        self.shares[agent as usize - 1].as_slice()
    }

    /// What each agent was given, agent by agent.
    pub fn shares(&self) -> &[Vec<Interval>]
        ensures { map (λ s. s.items) result.now ≡ self.now.shares }
    {
        self.shares.as_slice()
    }

    /// The stretches that nobody was given, in order.
    pub fn left(&self) -> &[Interval]
        ensures { result.now ≡ self.now.left }
    {
        self.left.as_slice()
    }

    /// For how many more stretches room is kept among those that are left.
    pub fn spare(&self) -> usize
        ensures { result ≡ self.now.spare }
    {
        self.spare
    }

    /// How many agents have a share.
    pub fn agents(&self) -> usize
        ensures { result ≡ length self.now.shares }
    {
        self.shares.len()
    }

    /// Appends the stretches to the agent's share. `Err` comes only for want of memory.
    pub(crate) fn add_to_share(&mut self, agent: u32, piece: &[Interval]) -> Result<(), Memory>
        requires from_one { 1 ≤ agent }
        requires there { agent ≤ length self.old.shares }
        ensures ok { OnOk result
            (self.new ≡ record self.old { shares = given self.old.shares (agent - 1) piece.now }) }
        ensures err { OnErr result (self.new ≡ self.old) }
    {
        if append_at(&mut self.shares, agent as usize - 1, piece).is_err() {
            return Err(Memory);
        }
        Ok(())
    }

    /// Appends the stretches to what is left, in the room that was kept for them.
    pub(crate) fn add_to_left(&mut self, piece: &[Interval])
        requires room { length piece.now ≤ self.old.spare }
        ensures { self.new ≡ record self.old {
          left = self.old.left ++ piece.now;
          spare = self.old.spare - length piece.now;
        } }
    {
        self.left.extend_from_slice(piece).unwrap();
        self.spare -= piece.len();
    }
}

// Appends to the list of that number, from 0.
fn append_at(lists: &mut Vec<Vec<Interval>>, at: usize, more: &[Interval]) -> Result<(), Memory>
    requires { at < length lists.old.items }
    ensures ok { OnOk result
        (map (λ s. s.items) lists.new.items ≡ given (map (λ s. s.items) lists.old.items) at more.now) }
    ensures err { OnErr result (map (λ s. s.items) lists.new.items ≡ map (λ s. s.items) lists.old.items) }
{
    let list = &mut lists[at];
    if list.extend_from_slice(more).is_err() {
        return Err(Memory);
    }
    Ok(())
}
