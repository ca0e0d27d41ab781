//! Rows of whole numbers: what a pivot makes of them.
ghost use Rattle.std.specs.Prelude.{◌≡◌, ◌≢◌, ℕ, ◌<◌, ◌^◌, length, pos, ◌<ℤ◌, ◌-ℤ◌, ◌*ℤ◌, MatchOption, unsigned_abs, ◌↔◌, IsTrue, int_div};
ghost use Rattle.std.specs.Int.{IsGcd, ◌∣◌};
ghost use Rattle.slice_num.specs.Rational.{Fits};
ghost use Rattle.slice_num.specs.Gcd.{gcd_of, divided};
ghost use Rattle.slice_linear.specs.Sums.{at};
ghost use Rattle.slice_tableau.specs.Cells.{IsCellFit, FitsAt, times_of, less_of};
ghost use Rattle.slice_tableau.specs.Inside.{FirstUnfit, IsDivided, row_of};

use crate::row::SparseRow;
use slice_num::{difference, divide, gcd, product};

// The number at a row and a column.
pub(crate) fn entry(cells: &[SparseRow], row: usize, col: usize) -> i128
    requires row_there { row < length cells.now }
    requires col_there { col < length (row_of cells.now row) }
    ensures { result ≡ at (row_of cells.now row) col }
{
    cells[row].number(col)
}

// How often a row with `here` at the column is taken, and how often the pivot row is taken away from it, to make it 0.
pub(crate) fn factors(pivot: i128, here: i128) -> (i128, i128)
    requires pivot_fits { Fits pivot }
    requires here_fits { Fits here }
    requires above { pos 0 <ℤ pivot }
    ensures times { result.0 ≡ times_of pivot here }
    ensures less { result.1 ≡ less_of pivot here }
    ensures above { pos 0 <ℤ result.0 }
    ensures equal { result.0 *ℤ here ≡ result.1 *ℤ pivot }
{
    let common = gcd(pivot, here);
    if common == 1 {
        return (pivot, here);
    }
    let times = divide(pivot, common);
    let less = divide(here, common);
    (times, less)
}

// Whether the number is so small that products of two such numbers, and their difference, fit.
pub(crate) fn is_small(x: i128) -> bool
    ensures { IsTrue result → unsigned_abs x < 2 ^ 62 }
{
    -0x4000_0000_0000_0000 < x && x < 0x4000_0000_0000_0000
}

// The same of all four numbers.
fn are_small(times: i128, x: i128, less: i128, y: i128) -> bool
    ensures { IsTrue result → IsCellFit times x less y }
{
    if !is_small(x) {
        return false;
    }
    if !is_small(y) {
        return false;
    }
    if !is_small(times) {
        return false;
    }
    is_small(less)
}

// Whether both products and the difference of times * x - less * y fit, by making them.
fn made_fits(times: i128, x: i128, less: i128, y: i128) -> bool
    ensures { IsTrue result ↔ IsCellFit times x less y }
{
    let Ok(left) = product(times, x) else {
        return false;
    };
    let Ok(right) = product(less, y) else {
        return false;
    };
    difference(left, right).is_ok()
}

// The same; small numbers needn't be multiplied for it.
pub(crate) fn cell_fits(times: i128, x: i128, less: i128, y: i128) -> bool
    ensures { IsTrue result ↔ IsCellFit times x less y }
{
    if are_small(times, x, less, y) {
        return true;
    }
    made_fits(times, x, less, y)
}

// The first column of a row at which a pivot makes a number that doesn't fit.
fn row_misfit(row: &SparseRow, pivot: &SparseRow, col: usize) -> Option<usize>
    requires same { length row.now ≡ length pivot.now }
    requires there { col < length row.now }
    requires above { pos 0 <ℤ at pivot.now col }
    requires row_fits { Fits (at row.now col) }
    requires pivot_fits { Fits (at pivot.now col) }
    ensures { MatchOption result ((j : ℕ) → j < length row.now → FitsAt col (at row.now) (at pivot.now) j) (λ c. (c < length row.now) × (FitsAt col (at row.now) (at pivot.now) c → ⊥) × ((j : ℕ) → j < c → FitsAt col (at row.now) (at pivot.now) j)) }
{
    let here = row.number(col);
    if here == 0 {
        return None;
    }
    let (times, less) = factors(pivot.number(col), here);
    row.misfit(pivot, times, less)
}

// The first cell, row by row, at which a pivot makes a number that doesn't fit.
pub(crate) fn misfit(cells: &[SparseRow], row: usize, col: usize) -> Option<(usize, usize)>
    requires row_there { row < length cells.now }
    requires widths { (l : ℕ) → l < length cells.now → length (row_of cells.now l) ≡ length (row_of cells.now row) }
    requires col_there { col < length (row_of cells.now row) }
    requires above { pos 0 <ℤ at (row_of cells.now row) col }
    requires fit { (i j : ℕ) → Fits (at (row_of cells.now i) j) }
    ensures { MatchOption result ((i j : ℕ) → i < length cells.now → i ≢ row → j < length (row_of cells.now row) → FitsAt col (at (row_of cells.now i)) (at (row_of cells.now row)) j) (λ p. FirstUnfit cells.now row col p.0 p.1) }
{
    for i in 0..cells.len() {
        if i != row {
            match row_misfit(&cells[i], &cells[row], col) {
                Some(j) => return Some((i, j)),
                None => {}
            }
        }
    }
    None
}
