//! The decision on rows over unknowns that aren't negative.
ghost use Rattle.std.specs.Prelude.{◌≡◌, ℕ, ◌≤◌, IfOk, IfErr};
ghost use Rattle.slice_linear.specs.Rows.{AreRowsOver, width};
ghost use Rattle.slice_tableau.specs.Table.{IsFirst};
ghost use Rattle.slice_simplex.specs.Made.{IsLast};
ghost use Rattle.slice_simplex.specs.declared.prover.ProveFault.TheVariants.{Memory};
ghost use Rattle.slice_simplex.specs.Bases.{FaultShows};
ghost use Rattle.slice_simplex.specs.ProverAnswer.{ProofMeans, FaultMeans, ProofShows, ProofFits};

use crate::multipliers::end_multipliers;
use crate::pivots::pivot_run;
use crate::solution::{EndFault, end_solution};
use slice_linear::Row;
use slice_num::Memory;
use slice_tableau::Tableau;
use std::alloc::Global;

/// What the pivot run of rows ends with.
#[derive(Debug, Drop)]
pub enum Proof {
    /// Multipliers, one for each row, that refute the rows.
    Refuted(Vec<i128>),
    /// A solution of the rows in lowest whole numbers, one for each unknown.
    Feasible(Vec<i128>),
}

/// Why rows weren't decided.
#[derive(Clone, Copy, Debug, PartialEq, Eq)]
pub enum ProveFault {
    /// As many pivots as the limit were made, and a further column enters.
    PivotLimit,
    /// A number doesn't fit.
    Overflow {
        /// How many pivots were made before.
        pivots: u64,
        /// The row of the tableau, the objective row counted last.
        row: usize,
        /// The column of the tableau.
        col: usize,
    },
    /// No memory was left.
    Memory,
}

impl From<Memory> for ProveFault {
    ghost from_gives = { λ _ e. e ≡ Memory };

    fn from(_memory: Memory) -> ProveFault {
        ProveFault::Memory
    }
}

/// Refutes rows over unknowns that aren't negative, or finds a solution of them, by at most `limit` pivots of the simplex
/// method. Refuted rows have no solution (Motzkin).
///
/// The rows are over one width, of at least 1, and there is one. The multipliers and the solution are those that the last
/// tableau of the pivot run tells. `PivotLimit` comes exactly where `limit` pivots were made and a further column enters;
/// `Overflow` exactly where after so many pivots a number doesn't fit, first at that row and column: one that the next
/// pivot makes, or, at the end, one that makes the solution, at the column of the right side. The first of these on the
/// run is told. `Memory` comes only for want of it, and not from the first pivot to the last.
pub fn prove(alloc: Global, rows: &[Row], limit: u64) -> Result<Proof, ProveFault>
    requires { AreRowsOver (width rows.now) rows.now }
    ensures run { IfOk result (λ p. ProofMeans rows.now limit p) }
    ensures shows { IfOk result (λ p. ProofShows rows.now p) }
    ensures fits { IfOk result (λ p. ProofFits p) }
    ensures fault { IfErr result (λ e. FaultMeans rows.now limit e) }
    ensures bases { IfErr result (λ e. FaultShows rows.now limit e) }
{
    let mut tableau = Tableau::new(alloc, rows)?;
    decide(alloc, rows, &mut tableau, limit)
}

/// A prover that keeps the memory of its last tableau for the next one.
#[derive(Drop)]
pub struct Prover {
    used: Option<Tableau>,
}

impl Prover {
    /// A prover that holds no memory.
    pub fn new() -> Prover {
        Prover { used: None }
    }

    /// As `prove`.
    pub fn prove(&mut self, alloc: Global, rows: &[Row], limit: u64) -> Result<Proof, ProveFault>
        requires { AreRowsOver (width rows.now) rows.now }
        ensures run { IfOk result (λ p. ProofMeans rows.now limit p) }
        ensures shows { IfOk result (λ p. ProofShows rows.now p) }
        ensures fits { IfOk result (λ p. ProofFits p) }
        ensures fault { IfErr result (λ e. FaultMeans rows.now limit e) }
        ensures bases { IfErr result (λ e. FaultShows rows.now limit e) }
    {
        let mut tableau = match self.used.take() {
            Some(used) => used.renew(alloc, rows)?,
            None => Tableau::new(alloc, rows)?,
        };
        let answer = decide(alloc, rows, &mut tableau, limit);
        self.used = Some(tableau);
        answer
    }
}

// The pivot run from the first tableau, and what it ends with.
fn decide(
    alloc: Global,
    rows: &[Row],
    tableau: &mut Tableau,
    limit: u64,
) -> Result<Proof, ProveFault>
    requires rows { AreRowsOver (width rows.now) rows.now }
    requires first { IsFirst rows.now tableau.old }
    ensures run { IfOk result (λ p. ProofMeans rows.now limit p) }
    ensures shows { IfOk result (λ p. ProofShows rows.now p) }
    ensures fits { IfOk result (λ p. ProofFits p) }
    ensures fault { IfErr result (λ e. FaultMeans rows.now limit e) }
    ensures bases { IfErr result (λ e. FaultShows rows.now limit e) }
{
    let pivots = pivot_run(tableau, limit)?;
    end(alloc, rows, tableau, pivots)
}

// What the last tableau tells.
fn end(alloc: Global, rows: &[Row], tableau: &Tableau, pivots: u64) -> Result<Proof, ProveFault>
    requires rows { AreRowsOver (width rows.now) rows.now }
    requires last { IsLast rows.now pivots tableau.now }
    ensures run { IfOk result (λ p. (limit : ℕ) → pivots ≤ limit → ProofMeans rows.now limit p) }
    ensures shows { IfOk result (λ p. ProofShows rows.now p) }
    ensures fits { IfOk result (λ p. ProofFits p) }
    ensures fault { IfErr result (λ e. (limit : ℕ) → pivots ≤ limit → FaultMeans rows.now limit e) }
{
    let right = tableau.right();
    if tableau.cell(tableau.height(), right) == 0 {
        let multipliers = end_multipliers(alloc, rows, tableau)?;
        return Ok(Proof::Refuted(multipliers));
    }
    match end_solution(alloc, tableau) {
        Ok(solution) => Ok(Proof::Feasible(solution)),
        Err(EndFault::Unfit(row)) => Err(ProveFault::Overflow {
            pivots,
            row,
            col: right,
        }),
        Err(EndFault::Memory) => Err(ProveFault::Memory),
    }
}
