//! What a run comes to.
use slice_core::Query;
use slice_num::{Frac, Side};
use slice_piece::Book;

/// A run that came to its end: its queries in order, what each agent was given and what is left, and a row of values for
/// each agent. `values[a - 1][b - 1]` is agent a's share-value of agent b's share, a fraction of 1.
#[derive(Drop)]
pub struct Finish {
    pub queries: Vec<Query>,
    pub book: Book,
    pub values: Vec<Vec<Frac>>,
}

/// How a run ended.
#[derive(Drop)]
pub enum Outcome {
    /// All that the core says was done.
    Done(Finish),
    /// The cut of that number has no right answer, counted from 0: its amount is below 0 (`Low`) or above what the piece
    /// is worth to the agent (`High`). The queries before it were answered.
    Stuck {
        queries: Vec<Query>,
        query: u32,
        side: Side,
    },
}

/// Why a run was given up. Queries are counted from 0.
#[derive(Clone, Copy, Debug, PartialEq, Eq)]
pub enum RunFault {
    /// A number of that query doesn't fit. What is made after the last query, as the values at the end, belongs to the
    /// number of queries.
    Overflow { query: u32 },
    /// The answer to that query is wrong: its part isn't there, the point lies outside it, or what lies before it isn't
    /// worth the amount.
    BadAnswer { query: u32 },
    /// That query, a cut that has a right answer, found no answer left.
    TooFewAnswers { query: u32 },
    /// The run has ended, and answers remain.
    TooManyAnswers,
    /// Want of memory.
    Memory,
}
