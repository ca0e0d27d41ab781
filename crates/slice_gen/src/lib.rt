//! Protocols that are made from a number, as inputs of any size.
#![tactic(auto)]

pub mod generator;

pub use generator::{GenFault, rounds};

#[cfg(test)]
mod tests;
