//! Which row leaves: the one whose list, divided by its number at the column, is the least.
ghost use Rattle.std.specs.Prelude.{◌≡◌, ℕ, suc, ◌+◌, ◌<◌, ◌≤◌, ◌^◌, length, pos, ◌<ℤ◌, ◌≤ℤ◌, ◌-ℤ◌, ◌*ℤ◌, MatchOption};
ghost use Rattle.std.specs.Ordering.{MatchOrdering};
ghost use Rattle.slice_linear.specs.Sums.{at};
ghost use Rattle.slice_tableau.specs.System.{list_column};
ghost use Rattle.slice_tableau.specs.Lex.{IsRatioBelow};
ghost use Rattle.slice_tableau.specs.Inside.{IsRatioSame, IsLeastOf, row_of, list_of, column_of};

use crate::cells::entry;
use crate::first::Size;
use crate::row::SparseRow;
use slice_num::compare_ratios;
use std::cmp::Ordering;

// The order of x / p and y / q.
pub(crate) fn compare_at(x: i128, p: i128, y: i128, q: i128) -> Ordering
    requires p_above { pos 0 <ℤ p }
    requires q_above { pos 0 <ℤ q }
    ensures { MatchOrdering result (pos 0 <ℤ (p *ℤ y -ℤ q *ℤ x)) (p *ℤ y -ℤ q *ℤ x ≡ pos 0) (pos 0 <ℤ (q *ℤ x -ℤ p *ℤ y)) }
{
    if x == 0 && y == 0 {
        return Ordering::Equal;
    }
    compare_ratios(x, p, y, q)
}

// The better of the best row so far and the next one.
fn better(size: Size, cells: &[SparseRow], col: usize, best: Option<usize>, row: usize) -> usize
    requires size { size.unknowns + size.height + 3 < 2 ^ 64 }
    requires col_there { col < size.unknowns + size.height + 3 }
    requires row_there { row < length cells.now }
    requires widths { (l : ℕ) → l ≤ row → length (row_of cells.now l) ≡ size.unknowns + size.height + 3 }
    requires best { MatchOption best ((l : ℕ) → l < row → (column_of cells.now col l) ≤ℤ pos 0) (λ r. IsLeastOf (suc size.height) row (list_of cells.now size.unknowns size.height) (column_of cells.now col) r) }
    requires above { pos 0 <ℤ (column_of cells.now col row) }
    ensures { IsLeastOf (suc size.height) (suc row) (list_of cells.now size.unknowns size.height) (column_of cells.now col) result }
{
    match best {
        None => row,
        Some(r) => {
            let here = entry(cells, row, col);
            let there = entry(cells, r, col);
            match cells[row].compare(here, &cells[r], there, size) {
                Ordering::Less => row,
                Ordering::Equal => r,
                Ordering::Greater => r,
            }
        }
    }
}

// The row with the least list among those with a number above 0 at the column. `None` where there is none.
pub(crate) fn least_row(size: Size, cells: &[SparseRow], col: usize) -> Option<usize>
    requires size { size.unknowns + size.height + 3 < 2 ^ 64 }
    requires col_there { col < size.unknowns + size.height + 3 }
    requires rows_there { size.height < length cells.now }
    requires widths { (l : ℕ) → l ≤ size.height → length (row_of cells.now l) ≡ size.unknowns + size.height + 3 }
    ensures { MatchOption result ((l : ℕ) → l < size.height → (column_of cells.now col l) ≤ℤ pos 0) (λ r. IsLeastOf (suc size.height) size.height (list_of cells.now size.unknowns size.height) (column_of cells.now col) r) }
{
    let mut best = None;
    for l in 0..size.height {
        if entry(cells, l, col) > 0 {
            best = Some(better(size, cells, col, best, l));
        }
    }
    best
}
