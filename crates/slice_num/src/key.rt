//! The unknowns of the prover's rows.

/// An unknown: what an atom, a part of the cake that isn't cut any more, is worth to an agent.
/// Agents and atoms are numbered from 1; agent 0 and atom 0 stand for the whole cake.
#[derive(Clone, Copy, Debug, PartialEq, Eq)]
pub struct Key {
    pub agent: u32,
    pub atom: u32,
}
