//! A row of a tableau: contracts see the list of all its numbers.
ghost use Rattle.std.specs.Prelude.{◌≡◌, ℕ, suc, ◌+◌, ◌<◌, ◌≤◌, ◌^◌, length, pos, ◌-ℤ◌, ◌*ℤ◌, ◌<ℤ◌, ◌≤ℤ◌, MatchOption, IfOk, IsTrue, replicate, slice_set, unsigned_abs};
ghost use Rattle.std.specs.Ordering.{MatchOrdering};
ghost use Rattle.slice_num.specs.Rational.{Fits};
ghost use Rattle.slice_linear.specs.Sums.{at};
ghost use Rattle.slice_tableau.specs.System.{list_column};
ghost use Rattle.slice_tableau.specs.Lex.{IsRatioBelow};
ghost use Rattle.slice_tableau.specs.Cells.{IsCellFit};
ghost use Rattle.slice_tableau.specs.Inside.{IsRatioSame, IsDivided};

use crate::cells::is_small;
use crate::first::Size;
use crate::leaving::compare_at;
use crate::sparse::{
    Cell, are_all_small, compare_columns, first_below, first_misfit, merge, number, put,
    reduce_cells,
};
use slice_num::Memory;
use std::alloc::Global;
use std::cmp::Ordering;
use std::marker::Model;

// The numbers that aren't 0, in order of columns. There is room for a number at each column.
#[derive(Drop)]
pub(crate) struct SparseRow {
    cells: Vec<Cell>,
    width: usize,
}

impl Model for SparseRow {
    ghost use Rattle.std.specs.Prelude.{List, ℤ, ◌≤◌};
    ghost use Rattle.std.specs.Vec.{vec_capacity};

    ghost Value = { List ℤ };

    ghost use Rattle.slice_tableau.specs.Sparse.{dense, IsRising};

    ghost view = { λ r. dense r.width r.cells.items };

    ghost invariant = { λ r. IsRising 0 r.width r.cells.items × (r.width ≤ vec_capacity r.cells) };
}

impl SparseRow {
    // A row of so many zeros, with room for any other of this width, in the memory of a used row where there is one.
    pub(crate) fn zeros(
        alloc: Global,
        used: &mut Vec<SparseRow>,
        width: usize,
    ) -> Result<SparseRow, Memory>
        ensures { IfOk result (λ r. r ≡ replicate width (pos 0)) }
    {
        let mut cells = match used.pop() {
            Some(row) => row.cells,
            None => Vec::new(alloc),
        };
        cells.clear();
        cells.reserve(width)?;
        Ok(SparseRow { cells, width })
    }

    // Writes a number at a column from which on all are 0.
    pub(crate) fn put(&mut self, col: usize, value: i128)
        requires there { col < length self.old }
        requires zeros { (j : ℕ) → col ≤ j → at self.old j ≡ pos 0 }
        ensures { self.new ≡ slice_set self.old col value }
    {
        put(&mut self.cells, col, value);
    }

    // The number at a column.
    pub(crate) fn number(&self, col: usize) -> i128
        ensures { result ≡ at self.now col }
    {
        number(&self.cells, col)
    }

    // Becomes times * row - less * pivot. Takes no memory.
    pub(crate) fn clear(&mut self, row: &SparseRow, pivot: &SparseRow, times: i128, less: i128)
        requires same { length row.now ≡ length pivot.now }
        requires room { length self.old ≡ length row.now }
        requires fits { (j : ℕ) → j < length row.now → IsCellFit times (at row.now j) less (at pivot.now j) }
        ensures made { (j : ℕ) → j < length row.now → at self.new j ≡ times *ℤ at row.now j -ℤ less *ℤ at pivot.now j }
        ensures width { length self.new ≡ length self.old }
    {
        merge(
            &row.cells,
            &pivot.cells,
            times,
            less,
            self.width,
            &mut self.cells,
        );
    }

    // Divides the row by the greatest common divisor of its numbers.
    pub(crate) fn reduce(&mut self)
        requires fits { (j : ℕ) → Fits (at self.old j) }
        requires not_zero { (x : ℕ) × (at self.old x ≡ pos 0 → ⊥) }
        ensures divided { IsDivided (at self.old) (at self.new) }
        ensures width { length self.new ≡ length self.old }
    {
        reduce_cells(&mut self.cells);
    }

    // Whether all numbers are small.
    fn is_small(&self) -> bool
        ensures { IsTrue result → (j : ℕ) → unsigned_abs (at self.now j) < 2 ^ 62 }
    {
        are_all_small(&self.cells)
    }

    // The first column at which a number of times * self - less * pivot doesn't fit.
    pub(crate) fn misfit(&self, pivot: &SparseRow, times: i128, less: i128) -> Option<usize>
        requires { length self.now ≡ length pivot.now }
        ensures { MatchOption result ((j : ℕ) → j < length self.now → IsCellFit times (at self.now j) less (at pivot.now j)) (λ c. (c < length self.now) × (IsCellFit times (at self.now c) less (at pivot.now c) → ⊥) × ((j : ℕ) → j < c → IsCellFit times (at self.now j) less (at pivot.now j))) }
    {
        if is_small(times) && is_small(less) && self.is_small() && pivot.is_small() {
            return None;
        }
        first_misfit(&self.cells, &pivot.cells, times, less, self.width)
    }

    // The first column before `end` at which the number is below 0.
    pub(crate) fn first_below(&self, end: usize) -> Option<usize>
        ensures { MatchOption result ((j : ℕ) → j < end → pos 0 ≤ℤ (at self.now j)) (λ c. (c < end) × ((at self.now c) <ℤ pos 0) × ((j : ℕ) → j < c → pos 0 ≤ℤ (at self.now j))) }
    {
        first_below(&self.cells, end)
    }

    // The order of the list of this row over p and that of the other one over q.
    pub(crate) fn compare(&self, p: i128, other: &SparseRow, q: i128, size: Size) -> Ordering
        requires size { size.unknowns + size.height + 3 < 2 ^ 64 }
        requires wide { length self.now ≡ size.unknowns + size.height + 3 }
        requires other_wide { length other.now ≡ size.unknowns + size.height + 3 }
        requires p_above { pos 0 <ℤ p }
        requires q_above { pos 0 <ℤ q }
        ensures { MatchOrdering result (IsRatioBelow (suc size.height) (λ i. at self.now (list_column size.unknowns size.height i)) p (λ i. at other.now (list_column size.unknowns size.height i)) q) (IsRatioSame (suc size.height) (λ i. at self.now (list_column size.unknowns size.height i)) p (λ i. at other.now (list_column size.unknowns size.height i)) q) (IsRatioBelow (suc size.height) (λ i. at other.now (list_column size.unknowns size.height i)) q (λ i. at self.now (list_column size.unknowns size.height i)) p) }
    {
        let right = size.unknowns + 1 + size.height;
        match compare_at(self.number(right), p, other.number(right), q) {
            Ordering::Less => return Ordering::Less,
            Ordering::Equal => {}
            Ordering::Greater => return Ordering::Greater,
        }
        compare_columns(
            &self.cells,
            p,
            &other.cells,
            q,
            size.unknowns + 1,
            right,
            self.width,
        )
    }
}
