//! The rows of a pivot: each row but the pivot row becomes 0 at the column, in lowest numbers.
ghost use Rattle.std.specs.Prelude.{◌≡◌, ◌≢◌, ℕ, ◌<◌, length, pos, ◌<ℤ◌, ◌-ℤ◌, ◌*ℤ◌};
ghost use Rattle.slice_num.specs.Rational.{Fits};
ghost use Rattle.slice_linear.specs.Sums.{at};
ghost use Rattle.slice_tableau.specs.Cells.{IsCellFit, FitsAt};
ghost use Rattle.slice_tableau.specs.Pivot.{IsCleared, IsClearable};
ghost use Rattle.slice_tableau.specs.Inside.{IsDivided, row_of};

use crate::cells::{entry, factors};
use crate::row::SparseRow;

// Row i becomes times * row i - less * row k; the spare row takes what row i was.
fn clear_in(
    cells: &mut Vec<SparseRow>,
    spare: &mut SparseRow,
    i: usize,
    k: usize,
    times: i128,
    less: i128,
)
    requires row { i < length cells.old.items }
    requires pivot_row { k < length cells.old.items }
    requires same { length (row_of cells.old.items i) ≡ length (row_of cells.old.items k) }
    requires room { length spare.old ≡ length (row_of cells.old.items i) }
    requires fits { (j : ℕ) → j < length (row_of cells.old.items i) → IsCellFit times (at (row_of cells.old.items i) j) less (at (row_of cells.old.items k) j) }
    ensures made { (j : ℕ) → j < length (row_of cells.old.items i) → at (row_of cells.new.items i) j ≡ times *ℤ at (row_of cells.old.items i) j -ℤ less *ℤ at (row_of cells.old.items k) j }
    ensures others { (l : ℕ) → (l ≡ i → ⊥) → row_of cells.new.items l ≡ row_of cells.old.items l }
    ensures height { length cells.new.items ≡ length cells.old.items }
    ensures width { length (row_of cells.new.items i) ≡ length (row_of cells.old.items i) }
    ensures spare { length spare.new ≡ length spare.old }
{
    spare.clear(&cells[i], &cells[k], times, less);
    std::mem::swap(&mut cells[i], spare);
}

// Divides row i by the greatest common divisor of its numbers.
fn reduce_in(cells: &mut Vec<SparseRow>, i: usize)
    requires row { i < length cells.old.items }
    requires fits { (j : ℕ) → Fits (at (row_of cells.old.items i) j) }
    requires not_zero { (x : ℕ) × (at (row_of cells.old.items i) x ≡ pos 0 → ⊥) }
    ensures divided { IsDivided (at (row_of cells.old.items i)) (at (row_of cells.new.items i)) }
    ensures fits { (j : ℕ) → Fits (at (row_of cells.new.items i) j) }
    ensures others { (l : ℕ) → (l ≡ i → ⊥) → row_of cells.new.items l ≡ row_of cells.old.items l }
    ensures height { length cells.new.items ≡ length cells.old.items }
    ensures width { length (row_of cells.new.items i) ≡ length (row_of cells.old.items i) }
{
    cells[i].reduce();
}

// Row i becomes 0 at the column, by the pivot row, in lowest numbers.
fn clear_row(cells: &mut Vec<SparseRow>, spare: &mut SparseRow, i: usize, row: usize, col: usize)
    requires row_there { i < length cells.old.items }
    requires pivot_there { row < length cells.old.items }
    requires other { i ≢ row }
    requires same { length (row_of cells.old.items i) ≡ length (row_of cells.old.items row) }
    requires room { length spare.old ≡ length (row_of cells.old.items row) }
    requires col_there { col < length (row_of cells.old.items row) }
    requires above { pos 0 <ℤ at (row_of cells.old.items row) col }
    requires row_fits { (j : ℕ) → Fits (at (row_of cells.old.items i) j) }
    requires pivot_fits { (j : ℕ) → Fits (at (row_of cells.old.items row) j) }
    requires fits { (j : ℕ) → j < length (row_of cells.old.items row) → FitsAt col (at (row_of cells.old.items i)) (at (row_of cells.old.items row)) j }
    requires clearable { IsClearable (at (row_of cells.old.items i)) (at (row_of cells.old.items row)) }
    ensures cleared { IsCleared col (at (row_of cells.old.items i)) (at (row_of cells.old.items row)) (at (row_of cells.new.items i)) }
    ensures fits { (j : ℕ) → Fits (at (row_of cells.new.items i) j) }
    ensures others { (l : ℕ) → (l ≡ i → ⊥) → row_of cells.new.items l ≡ row_of cells.old.items l }
    ensures height { length cells.new.items ≡ length cells.old.items }
    ensures width { length (row_of cells.new.items i) ≡ length (row_of cells.old.items i) }
    ensures spare { length spare.new ≡ length spare.old }
{
    let here = entry(cells, i, col);
    if here == 0 {
        return;
    }
    let pivot = entry(cells, row, col);
    let (times, less) = factors(pivot, here);
    clear_in(cells, spare, i, row, times, less);
    reduce_in(cells, i);
}

// Each row but the pivot row becomes 0 at the column, in lowest numbers.
pub(crate) fn clear_all(cells: &mut Vec<SparseRow>, spare: &mut SparseRow, row: usize, col: usize)
    requires row_there { row < length cells.old.items }
    requires widths { (l : ℕ) → l < length cells.old.items → length (row_of cells.old.items l) ≡ length (row_of cells.old.items row) }
    requires room { length spare.old ≡ length (row_of cells.old.items row) }
    requires col_there { col < length (row_of cells.old.items row) }
    requires above { pos 0 <ℤ at (row_of cells.old.items row) col }
    requires fit { (i j : ℕ) → Fits (at (row_of cells.old.items i) j) }
    requires fits { (i j : ℕ) → i < length cells.old.items → i ≢ row → j < length (row_of cells.old.items row) → FitsAt col (at (row_of cells.old.items i)) (at (row_of cells.old.items row)) j }
    requires clearable { (l : ℕ) → l < length cells.old.items → l ≢ row → IsClearable (at (row_of cells.old.items l)) (at (row_of cells.old.items row)) }
    ensures pivot_row { row_of cells.new.items row ≡ row_of cells.old.items row }
    ensures height { length cells.new.items ≡ length cells.old.items }
    ensures widths { (l : ℕ) → length (row_of cells.new.items l) ≡ length (row_of cells.old.items l) }
    ensures fit { (i j : ℕ) → Fits (at (row_of cells.new.items i) j) }
    ensures spare { length spare.new ≡ length spare.old }
    ensures cleared { (l : ℕ) → l < length cells.old.items → l ≢ row → IsCleared col (at (row_of cells.old.items l)) (at (row_of cells.old.items row)) (at (row_of cells.new.items l)) }
{
    for i in 0..cells.len() {
        if i != row {
            clear_row(cells, spare, i, row, col);
        }
    }
}
