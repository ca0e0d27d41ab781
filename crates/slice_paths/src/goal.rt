//! Goals, and why none is given.
ghost use Rattle.std.specs.Prelude.{◌≡◌};

use slice_linear::Row;
use slice_num::Choice;
use std::marker::Model;

/// What a goal speaks of. Agents are numbered from 1.
#[derive(Clone, Copy, Debug, PartialEq, Eq)]
pub enum GoalKind {
    /// A cut is stuck, since its amount is below 0.
    Low,
    /// A cut is stuck, since its amount is above what the piece is worth.
    High,
    /// Agent `a` values the share of agent `b` above its own.
    Envy { a: u32, b: u32 },
}

/// Why no goal was given.
#[derive(Clone, Copy, Debug, PartialEq, Eq)]
pub enum GoalFault {
    /// A further goal would be the 1,000,001st.
    GoalLimit,
    /// After so many goals a number of a form or a row doesn't fit.
    Overflow { goal: u64 },
    /// Memory ran out.
    Memory,
}

/// Why no goals were passed over.
#[derive(Clone, Copy, Debug, PartialEq, Eq)]
pub enum SkipFault {
    /// With those passed over more than 1,000,000 goals would have been given.
    GoalLimit,
    /// Memory ran out.
    Memory,
}

/// A goal: what is to be refuted, so that no run that makes these choices ends so. Contracts see it as a `Goal` of the
/// definitions.
#[derive(Drop)]
pub struct Goal {
    /// Its number, from 0.
    pub number: u64,
    /// The choices to it; a Low or High of its own comes last.
    pub trace: Vec<Choice>,
    /// What it speaks of.
    pub kind: GoalKind,
    /// How many queries are answered before its place.
    pub query: u32,
    /// Its rows, all over the same unknowns; its own comes last.
    pub rows: Vec<Row>,
}

impl Model for Goal {
    ghost use Rattle.slice_paths.specs.Goals.{Goal as GoalOf};

    ghost Value = { GoalOf };

    ghost view = { λ g. record { number = g.number; trace = g.trace.items; kind = g.kind; query = g.query; rows = g.rows.items } };
}

impl Goal {
    /// Its number, from 0.
    pub fn number(&self) -> u64
        ensures { result ≡ self.now.number }
    {
        self.number
    }

    /// The choices to it; a Low or High of its own comes last.
    pub fn trace(&self) -> &[Choice]
        ensures { result.now ≡ self.now.trace }
    {
        self.trace.as_slice()
    }

    /// What it speaks of.
    pub fn kind(&self) -> GoalKind
        ensures { result ≡ self.now.kind }
    {
        self.kind
    }

    /// How many queries are answered before its place.
    pub fn query(&self) -> u32
        ensures { result ≡ self.now.query }
    {
        self.query
    }

    /// Its rows; its own comes last.
    pub fn rows(&self) -> &[Row]
        ensures { result.now ≡ self.now.rows }
    {
        self.rows.as_slice()
    }
}
