//! Laws of the definitions that contracts cite. Each function does nothing: its clauses are the laws.
ghost use Rattle.slice_linear.specs.Proportion.{FractionsHaveMultiples, RowsAreLowest, RowsMeanTheirForms};
ghost use Rattle.slice_linear.specs.Rows.{RefutedRowsHaveNoSolution, SolutionsHoldRowByRow};
ghost use Rattle.slice_linear.specs.TermOrder.{FormsAreTold};

/// Forms with the same coefficients are the same.
pub fn forms_are_told_by_coefficients()
    ensures { FormsAreTold }
{}

/// The lowest whole numbers of fractions are in proportion to them, and no number above 1 divides them all, unless all
/// are 0.
pub fn rows_are_lowest()
    ensures { RowsAreLowest }
{}

/// A row in lowest whole numbers holds exactly where its form says so.
pub fn rows_mean_their_forms()
    ensures { RowsMeanTheirForms }
{}

/// Fractions can be brought to whole numbers, all by one factor.
pub fn fractions_have_multiples()
    ensures { FractionsHaveMultiples }
{}

/// A solution is a list of numbers, none below 0, at which each row holds.
pub fn solutions_hold_row_by_row()
    ensures { SolutionsHoldRowByRow }
{}

/// Rows that are refuted have no solution (the easy half of Motzkin's theorem).
pub fn refuted_rows_have_no_solution()
    ensures { RefutedRowsHaveNoSolution }
{}
