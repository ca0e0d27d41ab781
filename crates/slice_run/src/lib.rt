//! Runs of a core on valuations by steps, exact to the last fraction.
//!
//! `run_least` runs a core, a protocol over numbers in place of names, and answers each cut by the least right answer;
//! `replay` takes answers that are given; an `Outcome` tells what came of it. Amounts and share-values are fractions of
//! 1, where 1 is the whole cake; points are positions on the cake, from 0 to its length. No number is ever rounded: a run
//! whose numbers don't fit is given up.
#![tactic(auto)]

mod answers;
mod laws;
pub mod outcome;
mod pieces;
pub mod run;
mod sums;
mod table;
mod values;

pub use laws::{
    given_walks_are_runs, least_runs_are_unique, least_runs_exist, least_walks_are_least_runs,
};
pub use outcome::{Finish, Outcome, RunFault};
pub use run::{replay, run_least};
pub use slice_core::{CutAnswer, Query, QueryKind};
