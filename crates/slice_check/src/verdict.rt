//! Whether multipliers refute rows.
ghost use Rattle.std.specs.Prelude.{◌≡◌, ℕ, ◌<◌, ◌↔◌, ◌*ℤ◌, ◌+ℤ◌, pos, ◌<ℤ◌, length, IsTrue, OkIff, MatchOption};
ghost use Rattle.slice_num.specs.Rational.{Fits};
ghost use Rattle.slice_linear.specs.Sums.{at};
ghost use Rattle.slice_linear.specs.Rows.{IsAbove, KindTakes, coefs_at, kind_at, weighted, width};
ghost use Rattle.slice_check.specs.Verdicts.{HasStrict, HaveOneWidth, IsVerdict, SignsHold, SumFits, SumsHold, SumFails};

use slice_linear::{Row, RowKind};
use slice_num::{NoFit, product, sum};

/// Whether multipliers refute rows, or what is wrong with them.
#[derive(Clone, Copy, Debug, PartialEq, Eq)]
pub enum Verdict {
    /// They refute the rows.
    Yes,
    /// There are more rows than multipliers, or fewer.
    Length,
    /// The multiplier of this row, counted from 0, is below 0, which only a Zero row takes.
    Sign { row: usize },
    /// The sum over the rows of multiplier times coefficient is above 0 at this unknown.
    Sum { unknown: usize },
    /// No Above row has a multiplier above 0.
    NoStrict,
    /// A product or a partial sum of that sum doesn't fit at this unknown.
    Overflow { unknown: usize },
}

/// Whether the multipliers, one for each row, refute the rows: whether the rows, added up with them, would say that a sum
/// of unknowns, none with a coefficient above 0, is above 0 (Motzkin's transposition for unknowns that aren't below 0).
/// It looks at how many there are, then at their signs row by row, then at the sums unknown by unknown, over the rows in
/// order, then for an Above row with a multiplier above 0, and tells the first that is wrong. It takes no memory.
pub fn refutes(rows: &[Row], multipliers: &[i128]) -> Verdict
    requires rows { HaveOneWidth rows.now }
    ensures { IsVerdict rows.now multipliers.now result }
{
    if rows.len() != multipliers.len() {
        return Verdict::Length;
    }
    if let Some(row) = wrong_sign(rows, multipliers) {
        return Verdict::Sign { row };
    }
    if let Some(verdict) = wrong_sum(rows, multipliers) {
        return verdict;
    }
    if !has_strict(rows, multipliers) {
        return Verdict::NoStrict;
    }
    Verdict::Yes
}

// The first row whose multiplier has a sign that its kind does not take.
fn wrong_sign(rows: &[Row], multipliers: &[i128]) -> Option<usize>
    requires same { length rows.now ≡ length multipliers.now }
    ensures { MatchOption result (SignsHold rows.now multipliers.now (length rows.now))
        (λ i. (i < length rows.now) × (KindTakes (kind_at rows.now i) (at multipliers.now i) → ⊥) × SignsHold rows.now multipliers.now i) }
{
    for i in 0..rows.len() {
        if !takes(&rows[i], multipliers[i]) {
            return Some(i);
        }
    }
    None
}

// Whether the row takes the multiplier.
fn takes(row: &Row, multiplier: i128) -> bool
    ensures { IsTrue result ↔ KindTakes row.now.kind multiplier }
{
    match row.kind() {
        RowKind::Zero => true,
        RowKind::AtLeast | RowKind::Above => multiplier >= 0,
    }
}

// What is wrong with the first unknown whose sum is above 0 or has a number that does not fit.
fn wrong_sum(rows: &[Row], multipliers: &[i128]) -> Option<Verdict>
    requires same { length rows.now ≡ length multipliers.now }
    requires rows { HaveOneWidth rows.now }
    ensures { MatchOption result (SumsHold rows.now multipliers.now (width rows.now)) (SumFails rows.now multipliers.now) }
{
    for unknown in 0..count_unknowns(rows) {
        match sum_at(rows, multipliers, unknown) {
            Err(NoFit) => return Some(Verdict::Overflow { unknown }),
            Ok(sum) => {
                if sum > 0 {
                    return Some(Verdict::Sum { unknown });
                }
            }
        }
    }
    None
}

// How many unknowns the rows are over.
fn count_unknowns(rows: &[Row]) -> usize
    ensures { result ≡ width rows.now }
{
    match rows.first() {
        Some(row) => row.coefs().len(),
        None => 0,
    }
}

// The weighted sum of an unknown, over the rows in order, where each number of it fits.
fn sum_at(rows: &[Row], multipliers: &[i128], unknown: usize) -> Result<i128, NoFit>
    requires same { length rows.now ≡ length multipliers.now }
    requires rows { HaveOneWidth rows.now }
    requires within { unknown < width rows.now }
    ensures { OkIff result (SumFits rows.now multipliers.now unknown) (weighted rows.now multipliers.now unknown) }
{
    let mut total = 0;
    for i in 0..rows.len() {
        let Ok(term) = term(rows, multipliers, i, unknown) else {
            return Err(NoFit);
        };
        let Ok(next) = sum(total, term) else {
            return Err(NoFit);
        };
        total = next;
    }
    Ok(total)
}

// The coefficient of an unknown.
fn coef(row: &Row, unknown: usize) -> i128
    requires { unknown < length row.now.coefs }
    ensures { result ≡ at row.now.coefs unknown }
{
    row.coefs()[unknown]
}

// The product of a row's multiplier and its coefficient.
fn term(rows: &[Row], multipliers: &[i128], i: usize, unknown: usize) -> Result<i128, NoFit>
    requires same { length rows.now ≡ length multipliers.now }
    requires rows { HaveOneWidth rows.now }
    requires row { i < length rows.now }
    requires within { unknown < width rows.now }
    ensures { OkIff result (Fits (at multipliers.now i *ℤ at (coefs_at rows.now i) unknown)) (at multipliers.now i *ℤ at (coefs_at rows.now i) unknown) }
{
    product(multipliers[i], coef(&rows[i], unknown))
}

// Whether some Above row has a multiplier above 0.
fn has_strict(rows: &[Row], multipliers: &[i128]) -> bool
    requires same { length rows.now ≡ length multipliers.now }
    ensures { IsTrue result ↔ HasStrict rows.now multipliers.now }
{
    for i in 0..rows.len() {
        if is_strict(&rows[i], multipliers[i]) {
            return true;
        }
    }
    false
}

// Whether the row's multiplier makes the sum strict.
fn is_strict(row: &Row, multiplier: i128) -> bool
    ensures { IsTrue result ↔ (IsAbove row.now.kind × (pos 0 <ℤ multiplier)) }
{
    match row.kind() {
        RowKind::Above => multiplier > 0,
        RowKind::Zero | RowKind::AtLeast => false,
    }
}
