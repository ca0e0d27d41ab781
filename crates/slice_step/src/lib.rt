//! Valuations of the cake by steps: what a stretch or a piece is worth to an agent, the least right answer to a cut, and
//! the files that hold valuations and answers.
#![tactic(auto)]

pub mod fault;
pub mod laws;
mod place;
pub mod replay_file;
pub mod valuation;
pub mod valuation_file;
pub mod valuations;

pub use fault::ValuationFault;
pub use replay_file::{ReplayFile, read_replay};
pub use slice_num::CutAnswer;
pub use valuation::Valuation;
pub use valuation_file::read_valuations;
pub use valuations::Valuations;

#[cfg(test)]
mod tests;
