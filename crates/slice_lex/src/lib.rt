//! The tokens of a text of the language, with their places, or the leftmost fault.
//!
//! A text is words, numbers and signs, with layout and comments before, between and after them.
//! Places are offsets in bytes, from 0.
#![tactic(auto)]

pub mod laws;
mod lexer;
mod name;
mod token;

pub use lexer::lex;
pub use name::is_name;
pub use token::{LexFault, Token, TokenKind};

#[cfg(test)]
mod tests;
