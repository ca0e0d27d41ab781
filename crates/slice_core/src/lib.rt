//! The core of a protocol: what is done, over numbers in place of names, and what a run of it is.
#![tactic(auto)]

pub mod core_tree;
pub mod laws;
pub mod node;
pub mod query;

pub use core_tree::{Core, Size};
pub use node::{Lin, LinTerm, Node, Source};
pub use query::{Query, QueryKind};
pub use slice_num::CutAnswer;

#[cfg(test)]
mod tests;
