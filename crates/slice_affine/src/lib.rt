//! The check of a program's names and pieces: each name stands for what is wanted of it, and no piece is used
//! twice on any way through the program.
#![tactic(auto)]

mod calls;
mod checker;
mod fault;
mod kept;
pub mod laws;
mod looking;
mod names;
mod program;
mod statements;
mod trail;

pub use fault::AffineFault;
pub use kept::Checked;
pub use program::check;
