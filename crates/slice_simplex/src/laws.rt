//! Laws of the definitions that contracts cite. Each function does nothing: its clauses are the laws.
ghost use Rattle.std.specs.Prelude.{◌≡◌, ◌⊎◌, ℕ, List, ◌∷◌, ℤ};
ghost use Rattle.slice_linear.specs.Rows.{LinearRow, AreRowsOver, Refutes, width};
ghost use Rattle.slice_tableau.specs.Table.{Table};
ghost use Rattle.slice_simplex.specs.Ends.{end_multipliers, end_solution};
ghost use Rattle.slice_simplex.specs.Made.{IsEndOf, IsMade, IsLast};
ghost use Rattle.slice_tableau.specs.Run.{IsPivotRun};
ghost use Rattle.slice_simplex.specs.ProverAnswer.{ProverAnswer, AtLimit, Unfit, IsProverAnswer, AreEndMultipliers, IsEndSolution, IsLowestSolution, RunFits};
ghost use Rattle.slice_simplex.specs.Bases.{AllDiffer};

/// A pivot run is determined by its rows: after so many pivots it has one tableau, and it has one last tableau.
pub fn a_run_is_one()
    ensures tableau { (rows : List LinearRow) (pivots : ℕ) (t u : Table) → IsMade rows pivots t → IsMade rows pivots u → t ≡ u }
    ensures last { (rows : List LinearRow) (n k : ℕ) (t u : Table) → IsLast rows n t → IsLast rows k u → (n ≡ k) × (t ≡ u) }
{}

/// The end multipliers of rows are one list, and so is the end solution; rows don't have both.
pub fn an_end_is_one()
    ensures multipliers { (rows : List LinearRow) (m n : List ℤ) → AreEndMultipliers rows m → AreEndMultipliers rows n → m ≡ n }
    ensures solution { (rows : List LinearRow) (xs ys : List ℤ) → IsEndSolution rows xs → IsEndSolution rows ys → xs ≡ ys }
    ensures not_both { (rows : List LinearRow) (m xs : List ℤ) → AreEndMultipliers rows m → IsEndSolution rows xs → ⊥ }
{}

/// At the end of a pivot run either the right side is 0 and the end multipliers refute the rows, or it is above 0 and the
/// end solution is a solution of them, in lowest whole numbers.
pub fn an_end_decides()
    ensures either { (rows : List LinearRow) (t : Table) → IsEndOf rows t → AreEndMultipliers rows (end_multipliers rows t) ⊎ IsEndSolution rows (end_solution t) }
    ensures refutes { (rows : List LinearRow) (m : List ℤ) → AreRowsOver (width rows) rows → AreEndMultipliers rows m → Refutes rows m }
    ensures solves { (rows : List LinearRow) (xs : List ℤ) → IsEndSolution rows xs → IsLowestSolution rows xs }
{}

/// Where the run ends within the limit and its numbers fit, the prover decides, but for want of memory.
pub fn a_fitting_run_decides()
    ensures limit { (rows : List LinearRow) (limit : ℕ) → RunFits rows limit → IsProverAnswer rows limit AtLimit → ⊥ }
    ensures unfit { (rows : List LinearRow) (limit pivots i j : ℕ) → RunFits rows limit → IsProverAnswer rows limit (Unfit pivots i j) → ⊥ }
{}

/// The prover's answer is determined by the rows and the limit, but for want of memory.
pub fn an_answer_is_one()
    ensures { (rows : List LinearRow) (limit : ℕ) (a b : ProverAnswer) → IsProverAnswer rows limit a → IsProverAnswer rows limit b → a ≡ b }
{}

/// Rows, whatever their widths, have an answer of the prover for every limit, want of memory aside.
pub fn an_answer_exists()
    ensures { (rows : List LinearRow) (limit : ℕ) → (a : ProverAnswer) × IsProverAnswer rows limit a }
{}

/// No set of basic columns comes twice in a pivot run.
pub fn no_basis_comes_twice()
    ensures { (rows : List LinearRow) (t : Table) (before : List Table) → IsPivotRun rows (t ∷ before) → AllDiffer (t ∷ before) }
{}
