//! The core of a program: its calls put in line, its names become numbers.
#![tactic(auto)]

mod build;
mod fault;
mod grow;
mod index;
pub mod laws;
mod names;
mod straight;
mod sums;
mod trail;
mod whole;

pub use fault::ExpandFault;
pub use slice_core::Core;
pub use whole::expand;
