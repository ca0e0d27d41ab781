//! The goals of a core: what has to be refuted so that every run of it is done without envy, each as rows of whole numbers.
#![tactic(auto)]

mod aims;
mod counting;
mod frames;
pub mod goal;
pub mod laws;
mod retrace;
mod rows;
mod spot;
pub mod stream;
mod sums;
mod walk;

pub use goal::{Goal, GoalFault, GoalKind, SkipFault};
pub use stream::GoalStream;
