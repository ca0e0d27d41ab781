//! The atoms of a way: the parts of the cake that were made and not cut.
//!
//! An atom has a number, and stands for an address: a list of lefts and rights. Pieces are numbered in the order in which
//! they are made; each has parts, which are atoms.
#![tactic(auto)]

ghost use Rattle.std.specs.Prelude.{◌≡◌, ◌≢◌, vec_len, ℕ, ◌+◌, ◌*◌, ◌<◌, ◌≤◌, ◌^◌, List, [], ◌∷◌, ◌++◌, length, map, take, drop, IfOk, OnOk, OnErr, pos};
ghost use Rattle.std.specs.Vec.{vec_capacity};
ghost use Rattle.slice_num.specs.Pieces.{emptied, piece_at, join_pieces, cut_pieces};
ghost use Rattle.slice_atoms.specs.Addresses.{atoms, halved};
ghost use Rattle.slice_atoms.specs.Numbers.{IsNumbering, addresses_of, cut_addresses, cut_at, part_of, next_atom, name_of, cake_of, split_in, unknowns, all_keys, sum_over, one_at};
ghost use Rattle.slice_linear.specs.Terms.{AreDifferent};

pub mod laws;

use slice_num::{Key, Memory};
use std::alloc::Global;
use std::marker::Model;

#[cfg(test)]
mod tests;

/// The atoms of a way and its pieces, as contracts see them a `Numbering`.
#[derive(Drop)]
pub struct Atoms {
    agents: u32,
    olds: Vec<u32>,
    order: Vec<u32>,
    pieces: Vec<Vec<u32>>,
}

impl Model for Atoms {
    ghost use Rattle.std.specs.Prelude.{map};
    ghost use Rattle.slice_atoms.specs.Numbers.{Numbering, IsNumbering};

    ghost Value = { Numbering };

    ghost view = { λ a. record { agents = a.agents; olds = a.olds.items; order = a.order.items; pieces = map (λ p. p.items) a.pieces.items } };

    ghost invariant = { λ a. IsNumbering (record { agents = a.agents; olds = a.olds.items; order = a.order.items; pieces = map (λ p. p.items) a.pieces.items }) };
}

/// What a cut made of an atom: in every form the two new ones take its place, with its coefficient.
#[derive(Clone, Copy, Debug, PartialEq, Eq)]
pub struct Split {
    pub old: u32,
    pub left: u32,
    pub right: u32,
}

impl Atoms {
    /// The uncut cake: one atom, of number 1, in one piece, of number 0. `Err` comes only for want of memory.
    pub fn new(alloc: Global, agents: u32) -> Result<Atoms, Memory>
        ensures { IfOk result (λ a. a ≡ record { agents = agents; olds = []; order = 1 ∷ []; pieces = (1 ∷ []) ∷ [] }) }
    {
        let order = one(alloc, 1)?;
        let whole = one(alloc, 1)?;
        let mut pieces = Vec::new(alloc);
        if pieces.push(whole).is_err() {
            return Err(Memory);
        }
        Ok(Atoms {
            agents,
            olds: Vec::new(alloc),
            order,
            pieces,
        })
    }

    /// Of how many parts the piece is. A piece that was cut or joined has none.
    pub fn parts(&self, piece: u32) -> u32
        requires there { piece < length self.now.pieces }
        requires few { length (piece_at self.now.pieces piece) < 2 ^ 32 }
        ensures { result ≡ length (piece_at self.now.pieces piece) }
    {
        self.pieces[piece as usize].len() as u32
    }

    /// How many pieces were made.
    pub fn pieces(&self) -> u32
        requires { length self.now.pieces < 2 ^ 32 }
        ensures { result ≡ length self.now.pieces }
    {
        self.pieces.len() as u32
    }

    /// The atoms from left to right: in the order of their addresses in the dictionary.
    pub fn order(&self) -> &[u32]
        ensures value { result.now ≡ self.now.order }
        ensures dictionary { map (name_of self.now.olds) result.now ≡ atoms (cake_of self.now.olds) }
    {
        self.order.as_slice()
    }

    /// All unknowns in their order: the whole, and then, agent by agent, the atoms from left to right. `Err` comes only for
    /// want of memory.
    pub fn keys(&self, alloc: Global) -> Result<Vec<Key>, Memory>
        ensures { IfOk result (λ v. v.items ≡ all_keys self.now.agents self.now.order) }
    {
        all_keys(alloc, self.agents, self.order.as_slice())
    }

    /// The same once more. `Err` comes only for want of memory.
    pub fn copy(&self, alloc: Global) -> Result<Atoms, Memory>
        ensures { IfOk result (λ a. a ≡ self.now) }
    {
        let olds = Vec::from_slice(alloc, self.olds.as_slice())?;
        let order = Vec::from_slice(alloc, self.order.as_slice())?;
        let pieces = copy_lists(alloc, self.pieces.as_slice())?;
        Ok(Atoms {
            agents: self.agents,
            olds,
            order,
            pieces,
        })
    }

    /// Cuts the piece at one of its parts, counted from 0. The left piece gets the parts before it and its left half, the
    /// right piece its right half and the parts after it; their numbers are the next two. On `Err`, for want of memory,
    /// nothing changes.
    pub fn cut(&mut self, piece: u32, part: u32, left: u32, right: u32) -> Result<Split, Memory>
        requires there { part < length (piece_at self.old.pieces piece) }
        requires next { left ≡ length self.old.pieces }
        requires after { right ≡ left + 1 }
        requires few { length self.old.olds < 2 ^ 30 }
        ensures ok { OnOk result (self.new ≡ cut_at piece part self.old) }
        ensures split { IfOk result (λ s. s ≡ record { old = part_of self.old piece part; left = next_atom self.old; right = next_atom self.old + 1 }) }
        ensures cake { OnOk result (cake_of self.new.olds ≡ halved (name_of self.old.olds (part_of self.old piece part)) (cake_of self.old.olds)) }
        ensures addresses { OnOk result (addresses_of self.new ≡ cut_addresses piece part (addresses_of self.old)) }
        ensures err { OnErr result (self.new ≡ self.old) }
    {
        let split = self.split(piece, part);
        let alloc = *self.olds.allocator();
        let parts = self.parts_of(piece);
        let before = left_piece(alloc, parts, part as usize, split.left)?;
        let after = right_piece(alloc, parts, part as usize, split.right)?;
        self.olds.reserve(1)?;
        self.pieces.reserve(2)?;
        split_order(&mut self.order, split)?;
        self.olds.push(split.old).unwrap();
        put_halves(&mut self.pieces, piece as usize, before, after);
        Ok(split)
    }

    // What a cut at that part makes of its atom.
    fn split(&self, piece: u32, part: u32) -> Split
        requires there { part < length (piece_at self.now.pieces piece) }
        requires few { length self.now.olds < 2 ^ 30 }
        ensures value { result ≡ record { old = part_of self.now piece part; left = next_atom self.now; right = next_atom self.now + 1 } }
        ensures there { 1 ≤ sum_over (one_at result.old) self.now.order }
    {
        let count = self.olds.len() as u32;
        Split {
            old: self.parts_of(piece)[part as usize],
            left: 2 * count + 2,
            right: 2 * count + 3,
        }
    }

    // The atoms of the piece's parts.
    fn parts_of(&self, piece: u32) -> &[u32]
        requires there { piece < length self.now.pieces }
        ensures value { result.now ≡ piece_at self.now.pieces piece }
    {
        self.pieces[piece as usize].as_slice()
    }

    /// The two pieces become one, the first's parts before the second's. On `Err`, for want of memory, nothing changes.
    pub fn join(&mut self, first: u32, second: u32, piece: u32) -> Result<(), Memory>
        requires first { first < length self.old.pieces }
        requires second { second < length self.old.pieces }
        requires differ { first ≢ second }
        requires next { piece ≡ length self.old.pieces }
        ensures ok { OnOk result (self.new ≡ record self.old { pieces = join_pieces self.old.pieces first second }) }
        ensures addresses { OnOk result (addresses_of self.new ≡ join_pieces (addresses_of self.old) first second) }
        ensures err { OnErr result (self.new ≡ self.old) }
    {
        let alloc = *self.olds.allocator();
        let mut parts = Vec::from_slice(alloc, self.parts_of(first))?;
        parts.extend_from_slice(self.parts_of(second))?;
        self.pieces.reserve(1)?;
        put_joined(&mut self.pieces, first as usize, second as usize, parts);
        Ok(())
    }

    /// What the piece is worth to the agent: the unknowns of its parts. `Err` comes only for want of memory.
    pub fn unknowns_of(&self, alloc: Global, agent: u32, piece: u32) -> Result<Vec<Key>, Memory>
        requires there { piece < length self.now.pieces }
        ensures value { IfOk result (λ v. v.items ≡ unknowns agent (piece_at self.now.pieces piece)) }
        ensures differ { IfOk result (λ v. AreDifferent v.items) }
        ensures formed { IsNumbering self.now }
    {
        let _ = &self.agents;
        keys_of(alloc, agent, self.parts_of(piece))
    }
}

// The piece has no part any more.
fn use_up(pieces: &mut Vec<Vec<u32>>, at: usize)
    requires { at < length pieces.old.items }
    ensures items { map (λ p. p.items) pieces.new.items ≡ emptied (map (λ p. p.items) pieces.old.items) at }
    ensures len { vec_len pieces.new ≡ vec_len pieces.old }
    ensures room { vec_capacity pieces.new ≡ vec_capacity pieces.old }
{
    pieces[at].clear();
}

// Two halves in the place of a piece, in room that was kept.
fn put_halves(pieces: &mut Vec<Vec<u32>>, at: usize, before: Vec<u32>, after: Vec<u32>)
    requires there { at < length pieces.old.items }
    requires room { vec_len pieces.old + 2 ≤ vec_capacity pieces.old }
    ensures { map (λ p. p.items) pieces.new.items ≡ cut_pieces (map (λ p. p.items) pieces.old.items) at before.items after.items }
{
    use_up(pieces, at);
    pieces.push(before).unwrap();
    pieces.push(after).unwrap();
}

// One piece in the place of two, in room that was kept.
fn put_joined(pieces: &mut Vec<Vec<u32>>, first: usize, second: usize, parts: Vec<u32>)
    requires first { first < length pieces.old.items }
    requires second { second < length pieces.old.items }
    requires room { vec_len pieces.old + 1 ≤ vec_capacity pieces.old }
    ensures { map (λ p. p.items) pieces.new.items ≡ emptied (emptied (map (λ p. p.items) pieces.old.items) first) second ++ parts.items ∷ [] }
{
    use_up(pieces, first);
    use_up(pieces, second);
    pieces.push(parts).unwrap();
}

fn copy_lists(alloc: Global, lists: &[Vec<u32>]) -> Result<Vec<Vec<u32>>, Memory>
    ensures { IfOk result (λ v. map (λ p. p.items) v.items ≡ map (λ p. p.items) lists.now) }
{
    let mut made = Vec::new(alloc);
    for list in lists {
        let copy = Vec::from_slice(alloc, list.as_slice())?;
        if made.push(copy).is_err() {
            return Err(Memory);
        }
    }
    Ok(made)
}

fn all_keys(alloc: Global, agents: u32, order: &[u32]) -> Result<Vec<Key>, Memory>
    ensures { IfOk result (λ v. v.items ≡ all_keys agents order.now) }
{
    let mut keys = Vec::new(alloc);
    if keys.push(Key { agent: 0, atom: 0 }).is_err() {
        return Err(Memory);
    }
    for agent in 0..agents {
        let more = keys_of(alloc, agent + 1, order)?;
        keys.extend_from_slice(more.as_slice())?;
    }
    Ok(keys)
}

fn keys_of(alloc: Global, agent: u32, atoms: &[u32]) -> Result<Vec<Key>, Memory>
    ensures { IfOk result (λ v. v.items ≡ unknowns agent atoms.now) }
{
    let mut keys = Vec::new(alloc);
    for atom in atoms {
        let key = Key { agent, atom: *atom };
        if keys.push(key).is_err() {
            return Err(Memory);
        }
    }
    Ok(keys)
}

// The parts before one of them, and its left half.
fn left_piece(alloc: Global, parts: &[u32], part: usize, half: u32) -> Result<Vec<u32>, Memory>
    requires { part < length parts.now }
    ensures { IfOk result (λ v. v.items ≡ take part parts.now ++ half ∷ []) }
{
    let mut piece = Vec::from_slice(alloc, &parts[..part])?;
    if piece.push(half).is_err() {
        return Err(Memory);
    }
    Ok(piece)
}

// The right half of a part, and the parts after it.
fn right_piece(alloc: Global, parts: &[u32], part: usize, half: u32) -> Result<Vec<u32>, Memory>
    requires { part < length parts.now }
    ensures { IfOk result (λ v. v.items ≡ half ∷ drop (part + 1) parts.now) }
{
    let mut piece = one(alloc, half)?;
    piece.extend_from_slice(&parts[part + 1..])?;
    Ok(piece)
}

// Two atoms in the place of one.
fn split_order(order: &mut Vec<u32>, split: Split) -> Result<(), Memory>
    requires { 1 ≤ sum_over (one_at split.old) order.old.items }
    ensures ok { OnOk result (order.new.items ≡ split_in split.old split.left split.right order.old.items) }
    ensures err { OnErr result (order.new.items ≡ order.old.items) }
{
    let mut at = 0;
    while at < order.len() && order[at] != split.old {
        at += 1;
    }
    if order.insert(at, split.left).is_err() {
        return Err(Memory);
    }
    order[at + 1] = split.right;
    Ok(())
}

fn one(alloc: Global, atom: u32) -> Result<Vec<u32>, Memory>
    ensures { IfOk result (λ v. v.items ≡ atom ∷ []) }
{
    let mut atoms = Vec::new(alloc);
    if atoms.push(atom).is_err() {
        return Err(Memory);
    }
    Ok(atoms)
}
