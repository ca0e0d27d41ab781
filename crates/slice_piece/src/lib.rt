//! Pieces of a cake that must be spent, and the book of who got them.
//!
//! A `Piece` is a list of stretches of the cake. It can't be copied, cloned or dropped: it is cut, joined, given to an
//! agent or left to nobody, so no stretch is lost and none is there twice. A `Book` keeps what was given and left. Points
//! are positions on the cake, from 0 to its length; agents are numbered from 1, and parts of a piece from 0.
#![tactic(auto)]

pub mod book;
pub mod piece;

pub use book::Book;
pub use piece::{Back, BackTwo, Piece};
pub use slice_num::Interval;

#[cfg(test)]
mod tests;
