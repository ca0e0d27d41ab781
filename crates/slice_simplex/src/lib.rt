//! The prover: rows of whole numbers over unknowns that aren't below 0 are refuted, or a solution of them is found, by
//! the simplex method.
#![tactic(auto)]

#[cfg(test)]
mod elimination;
pub mod laws;
mod multipliers;
mod pivots;
pub mod prover;
#[cfg(test)]
mod random;
mod solution;
#[cfg(test)]
mod tests;

pub use prover::{Proof, ProveFault, Prover, prove};
