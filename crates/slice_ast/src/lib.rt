//! The surface tree of a program, its tokens and its canonical text.
#![tactic(auto)]

mod digits;
pub mod laws;
pub mod page;
mod taking;
pub mod tokens;
pub mod tree;
mod walk;

pub use page::print;
pub use tokens::tokens_of;
pub use tree::{
    AgentRef, Arg, Block, Cmp, Fraction, Kind, Name, Number, Operand, Param, Proc, Program, Stmt,
    Sum, Term,
};

#[cfg(test)]
mod tests;
