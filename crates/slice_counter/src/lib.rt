//! Counterexamples: a run that ends as a goal says, from a solution of the goal's rows.
#![tactic(auto)]

pub mod counter;
pub mod laws;
mod line;
pub mod replay_law;
mod trail;
mod walk;

pub use counter::{CounterFault, Counterexample, build};
pub use line::counter_line;
