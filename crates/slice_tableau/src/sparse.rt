//! A row of a tableau, kept as its numbers that aren't 0, in order of columns.
ghost use Rattle.std.specs.Prelude.{◌≡◌, ℕ, suc, ◌+◌, ◌<◌, ◌≤◌, ◌^◌, length, cond, nat_eq, pos, ◌-ℤ◌, ◌*ℤ◌, ◌<ℤ◌, ◌≤ℤ◌, ◌↔◌, map, unsigned_abs, IsTrue, MatchOption};
ghost use Rattle.std.specs.Int.{IsGcd, ◌∣◌};
ghost use Rattle.std.specs.Ordering.{MatchOrdering};
ghost use Rattle.std.specs.Vec.{vec_capacity};
ghost use Rattle.slice_num.specs.Rational.{Fits};
ghost use Rattle.slice_tableau.specs.Sparse.{number_at, IsRising, over};
ghost use Rattle.slice_tableau.specs.Cells.{IsCellFit};
ghost use Rattle.slice_tableau.specs.Inside.{IsFirstAbove, IsDivided};

use crate::cells::{cell_fits, is_small};
use crate::leaving::compare_at;
use slice_num::{divide, gcd_natural};
use std::cmp::Ordering;

// A number that isn't 0, and its column.
#[derive(Clone, Copy, Debug, PartialEq, Eq)]
pub(crate) struct Cell {
    pub(crate) col: usize,
    pub(crate) value: i128,
}

// The number at a column.
pub(crate) fn number(row: &[Cell], col: usize) -> i128
    requires { (end : ℕ) × IsRising 0 end row.now }
    ensures { result ≡ number_at row.now col }
{
    let mut rest = row;
    while let Some((first, tail)) = rest.split_first() {
        if first.col == col {
            return first.value;
        }
        if first.col > col {
            return 0;
        }
        rest = tail;
    }
    0
}

// The first column at which one of the rows isn't 0, or `end`.
fn next_column(left: &[Cell], right: &[Cell], end: usize) -> usize
    ensures { (from : ℕ) → from ≤ end → IsRising from end left.now → IsRising from end right.now → (from ≤ result) × (result ≤ end) × IsRising result end left.now × IsRising result end right.now }
{
    let here = first_column(left, end);
    let there = first_column(right, end);
    if here < there { here } else { there }
}

// The first column at which a row isn't 0, or `end`.
fn first_column(row: &[Cell], end: usize) -> usize
    ensures { (from : ℕ) → from ≤ end → IsRising from end row.now → (from ≤ result) × (result ≤ end) × IsRising result end row.now }
{
    match row.first() {
        Some(cell) => cell.col,
        None => end,
    }
}

// The number at a column that no cell comes before, and the cells after it.
fn take<'a>(row: &'a [Cell], col: usize) -> (i128, &'a [Cell])
    ensures { (end : ℕ) → IsRising col end row.now → (result.0 ≡ number_at row.now col) × IsRising (suc col) end result.1.now × ((j : ℕ) → col < j → number_at result.1.now j ≡ number_at row.now j) }
{
    match row.split_first() {
        Some((first, tail)) => {
            if first.col == col {
                (first.value, tail)
            } else {
                (0, row)
            }
        }
        None => (0, row),
    }
}

// Appends a number at a column after all others, where it isn't 0.
pub(crate) fn put(out: &mut Vec<Cell>, col: usize, value: i128)
    requires before { IsRising 0 col out.old.items }
    requires room { col < vec_capacity out.old }
    ensures rising { IsRising 0 (suc col) out.new.items }
    ensures numbers { (j : ℕ) → number_at out.new.items j ≡ cond (nat_eq j col) value (number_at out.old.items j) }
    ensures room { vec_capacity out.new ≡ vec_capacity out.old }
{
    if value != 0 {
        out.push_reserved(Cell { col, value });
    }
}

// times * x - less * y.
fn combined(times: i128, x: i128, less: i128, y: i128) -> i128
    requires { IsCellFit times x less y }
    ensures { result ≡ times *ℤ x -ℤ less *ℤ y }
{
    times * x - less * y
}

// out = times * row - less * pivot.
pub(crate) fn merge(
    row: &[Cell],
    pivot: &[Cell],
    times: i128,
    less: i128,
    end: usize,
    out: &mut Vec<Cell>,
)
    requires row { IsRising 0 end row.now }
    requires pivot { IsRising 0 end pivot.now }
    requires room { end ≤ vec_capacity out.old }
    requires fits { (j : ℕ) → j < end → IsCellFit times (number_at row.now j) less (number_at pivot.now j) }
    ensures rising { IsRising 0 end out.new.items }
    ensures numbers { (j : ℕ) → j < end → number_at out.new.items j ≡ times *ℤ number_at row.now j -ℤ less *ℤ number_at pivot.now j }
    ensures room { vec_capacity out.new ≡ vec_capacity out.old }
{
    out.clear();
    let mut left = row;
    let mut right = pivot;
    let mut col = next_column(left, right, end);
    while col < end {
        let (x, left_rest) = take(left, col);
        let (y, right_rest) = take(right, col);
        put(out, col, combined(times, x, less, y));
        left = left_rest;
        right = right_rest;
        col = next_column(left, right, end);
    }
}

// The first column at which a number of times * row - less * pivot doesn't fit.
pub(crate) fn first_misfit(
    row: &[Cell],
    pivot: &[Cell],
    times: i128,
    less: i128,
    end: usize,
) -> Option<usize>
    requires row { IsRising 0 end row.now }
    requires pivot { IsRising 0 end pivot.now }
    ensures { MatchOption result ((j : ℕ) → j < end → IsCellFit times (number_at row.now j) less (number_at pivot.now j)) (λ c. (c < end) × (IsCellFit times (number_at row.now c) less (number_at pivot.now c) → ⊥) × ((j : ℕ) → j < c → IsCellFit times (number_at row.now j) less (number_at pivot.now j))) }
{
    let mut left = row;
    let mut right = pivot;
    let mut col = next_column(left, right, end);
    while col < end {
        let (x, left_rest) = take(left, col);
        let (y, right_rest) = take(right, col);
        if !cell_fits(times, x, less, y) {
            return Some(col);
        }
        left = left_rest;
        right = right_rest;
        col = next_column(left, right, end);
    }
    None
}

// Whether all numbers of a row are small.
pub(crate) fn are_all_small(row: &[Cell]) -> bool
    ensures { IsTrue result → (j : ℕ) → unsigned_abs (number_at row.now j) < 2 ^ 62 }
{
    let mut rest = row;
    while let Some((first, tail)) = rest.split_first() {
        if !is_small(first.value) {
            return false;
        }
        rest = tail;
    }
    true
}

// The greatest common divisor of a row.
fn cells_gcd(row: &[Cell]) -> u128
    requires { (end : ℕ) × IsRising 0 end row.now }
    ensures { (d : ℕ) → (d ∣ result) ↔ ((j : ℕ) → d ∣ unsigned_abs (number_at row.now j)) }
{
    let mut g = 0;
    let mut rest = row;
    while let Some((first, tail)) = rest.split_first() {
        g = gcd_natural(g, first.value.unsigned_abs());
        if g == 1 {
            return 1;
        }
        rest = tail;
    }
    g
}

// Divides each number by g.
fn divide_cells(row: &mut [Cell], g: i128)
    requires { pos 0 <ℤ g }
    ensures { row.new ≡ map (over g) row.old }
{
    for k in 0..row.len() {
        row[k].value = divide(row[k].value, g);
    }
}

// Divides a row by the greatest common divisor of its numbers.
pub(crate) fn reduce_cells(row: &mut [Cell])
    requires rising { (end : ℕ) × IsRising 0 end row.old }
    requires fits { (j : ℕ) → Fits (number_at row.old j) }
    requires not_zero { (x : ℕ) × (number_at row.old x ≡ pos 0 → ⊥) }
    ensures divided { IsDivided (number_at row.old) (number_at row.new) }
    ensures rising { (end : ℕ) → IsRising 0 end row.old → IsRising 0 end row.new }
{
    let divisor = cells_gcd(row);
    if divisor > 1 {
        divide_cells(row, divisor as i128);
    }
}

// The first column before `end` at which the number is below 0.
pub(crate) fn first_below(row: &[Cell], end: usize) -> Option<usize>
    requires { (width : ℕ) × IsRising 0 width row.now }
    ensures { MatchOption result ((j : ℕ) → j < end → pos 0 ≤ℤ (number_at row.now j)) (λ c. (c < end) × ((number_at row.now c) <ℤ pos 0) × ((j : ℕ) → j < c → pos 0 ≤ℤ (number_at row.now j))) }
{
    let mut rest = row;
    while let Some((first, tail)) = rest.split_first() {
        if first.col >= end {
            return None;
        }
        if first.value < 0 {
            return Some(first.col);
        }
        rest = tail;
    }
    None
}

// The cells from a column on.
fn skip_to(row: &[Cell], from: usize) -> &[Cell]
    ensures { (end : ℕ) → IsRising 0 end row.now → IsRising from end result.now × ((j : ℕ) → from ≤ j → number_at result.now j ≡ number_at row.now j) }
{
    let mut rest = row;
    while let Some((first, tail)) = rest.split_first() {
        if first.col >= from {
            return rest;
        }
        rest = tail;
    }
    rest
}

// The order of the numbers from one column to another: those of row a over p, and those of row b over q.
pub(crate) fn compare_columns(
    a: &[Cell],
    p: i128,
    b: &[Cell],
    q: i128,
    from: usize,
    end: usize,
    width: usize,
) -> Ordering
    requires a_rises { IsRising 0 width a.now }
    requires b_rises { IsRising 0 width b.now }
    requires p_above { pos 0 <ℤ p }
    requires q_above { pos 0 <ℤ q }
    requires order { from ≤ end }
    requires within { end ≤ width }
    ensures { MatchOrdering result (IsFirstAbove from end (λ j. p *ℤ number_at b.now j -ℤ q *ℤ number_at a.now j)) ((j : ℕ) → from ≤ j → j < end → p *ℤ number_at b.now j -ℤ q *ℤ number_at a.now j ≡ pos 0) (IsFirstAbove from end (λ j. q *ℤ number_at a.now j -ℤ p *ℤ number_at b.now j)) }
{
    let mut left = skip_to(a, from);
    let mut right = skip_to(b, from);
    let mut col = next_column(left, right, width);
    while col < end {
        let (x, left_rest) = take(left, col);
        let (y, right_rest) = take(right, col);
        match compare_at(x, p, y, q) {
            Ordering::Less => return Ordering::Less,
            Ordering::Equal => {}
            Ordering::Greater => return Ordering::Greater,
        }
        left = left_rest;
        right = right_rest;
        col = next_column(left, right, width);
    }
    Ordering::Equal
}
