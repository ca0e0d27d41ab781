//! Programs, parsed from their text.
#![tactic(auto)]

mod cursor;
mod laws;
mod lexeme;
mod lexemes;
mod lists;
mod parser;
mod program;
mod statements;
mod sums;

pub use laws::{parsings_are_unique, parsings_exist};
pub use parser::{ParseFault, parse};
