//! The pivot run: lawful pivots, until no column enters.
ghost use Rattle.std.specs.Prelude.{◌≡◌, ℕ, ◌≤◌, List, IfOk, IfErr};
ghost use Rattle.slice_linear.specs.Rows.{LinearRow};
ghost use Rattle.slice_tableau.specs.Table.{IsTableauOf, IsFirst, IsEntering, IsLeaving, IsFirstMisfit};
ghost use Rattle.slice_tableau.specs.Run.{IsLawfulStep};
ghost use Rattle.slice_simplex.specs.Made.{StepFits, IsLast};
ghost use Rattle.slice_simplex.specs.ProverAnswer.{FaultMeans};

use crate::prover::ProveFault;
use slice_tableau::{CellFault, Tableau};

// The lawful pivot for the column that enters.
fn lawful_pivot(tableau: &mut Tableau, col: usize) -> Result<(), CellFault>
    requires { IsEntering tableau.old col }
    ensures step { IfOk result (λ _. (rows : List LinearRow) → IsTableauOf rows tableau.old → IsLawfulStep rows tableau.old tableau.new) }
    ensures fits { IfOk result (λ _. StepFits tableau.old) }
    ensures fault { IfErr result (λ e. (row : ℕ) × IsLeaving tableau.old col row × IsFirstMisfit tableau.old row col e.row e.col) }
{
    let row = tableau.leaving(col);
    tableau.pivot(row, col)
}

// Makes lawful pivots until no column enters, and tells how many. Takes no memory.
pub(crate) fn pivot_run(tableau: &mut Tableau, limit: u64) -> Result<u64, ProveFault>
    ensures ends { IfOk result (λ n. (rows : List LinearRow) → IsFirst rows tableau.old → IsLast rows n tableau.new) }
    ensures within { IfOk result (λ n. n ≤ limit) }
    ensures fault { IfErr result (λ e. (rows : List LinearRow) → IsFirst rows tableau.old → FaultMeans rows limit e) }
{
    let mut pivots = 0;
    'run: while let Some(col) = tableau.entering() {
        if pivots == limit {
            return Err(ProveFault::PivotLimit);
        }
        match lawful_pivot(tableau, col) {
            Ok(()) => pivots += 1,
            Err(fault) => {
                return Err(ProveFault::Overflow {
                    pivots,
                    row: fault.row,
                    col: fault.col,
                });
            }
        }
    }
    Ok(pivots)
}
