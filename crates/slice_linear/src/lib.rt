//! Forms: sums of unknowns with fractions as coefficients. Rows: what a form says, in whole numbers. Where rows hold,
//! and what refutes them.
//!
//! An unknown is what a part of the cake is worth to an agent, or what the whole cake is worth; none is below 0.
#![tactic(auto)]

pub mod forms;
pub mod laws;
pub mod lowest;
pub mod row;
mod sums;
mod terms;
mod to_row;

pub use forms::{Form, FormFault, Term};
pub use lowest::reduce;
pub use row::{Row, RowKind, holds};
pub use slice_num::{Key, NoFit};

#[cfg(test)]
mod tests;
