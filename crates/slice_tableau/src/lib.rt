//! Tableaux of the simplex method in whole numbers, for rows over unknowns that aren't negative. Each row of a tableau is
//! the row of a basis, in lowest whole numbers; the row that leaves is chosen by the lexicographic rule of Dantzig, Orden
//! and Wolfe, by which no basis comes twice.
#![tactic(auto)]

mod cells;
mod clearing;
#[cfg(test)]
mod dense;
mod first;
pub mod laws;
mod leaving;
mod row;
mod sparse;
pub mod tableau;
#[cfg(test)]
mod tests;

pub use tableau::{CellFault, Tableau};
