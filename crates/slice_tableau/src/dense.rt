//! The tableau written plainly, for tests: every number of every row, and each pivot by its rule. It is slow, and says nothing.
use crate::CellFault;
use slice_linear::{Row, RowKind};
use slice_num::{compare_ratios, gcd_natural};
use std::alloc::{AllocError, Global};
use std::cmp::Ordering;

#[derive(Drop)]
pub(crate) struct Dense {
    cells: Vec<Vec<i128>>,
    basis: Vec<usize>,
    unknowns: usize,
}

// What a line has beside its coefficients.
#[derive(Clone, Copy)]
struct Side {
    sign: i128,
    t: i128,
    right: i128,
}

// x / p, cut off; 0 where there is no such number.
fn over(x: i128, p: i128) -> i128 {
    match x.checked_div(p) {
        Some(quotient) => quotient,
        None => 0,
    }
}

fn divisor(a: i128, b: i128) -> i128 {
    match i128::try_from(gcd_natural(a.unsigned_abs(), b.unsigned_abs())) {
        Ok(divisor) => divisor,
        Err(_) => 0,
    }
}

// The number, where it fits.
fn fitting(number: Option<i128>) -> Option<i128> {
    match number {
        Some(i128::MIN) | None => None,
        Some(number) => Some(number),
    }
}

fn lowest(row: &mut Vec<i128>) {
    let mut common = 0;
    for x in row.iter() {
        common = divisor(common, *x);
    }
    for x in row.iter_mut() {
        *x = over(*x, common);
    }
}

fn line(
    alloc: Global,
    coefs: &[i128],
    unknowns: usize,
    side: Side,
    place: usize,
    height: usize,
) -> Result<Vec<i128>, AllocError> {
    let mut row = Vec::new(alloc);
    for j in 0..unknowns {
        let coef = match coefs.get(j) {
            Some(coef) => *coef,
            None => 0,
        };
        row.push(coef.wrapping_mul(side.sign))?;
    }
    row.push(side.t)?;
    for k in 0..height {
        row.push(if k == place { 1 } else { 0 })?;
    }
    row.push(side.right)?;
    row.push(if place == height { 1 } else { 0 })?;
    Ok(row)
}

// The place of each line's row among the rows, and its sides.
fn sides(alloc: Global, rows: &[Row]) -> Result<Vec<(usize, Side)>, AllocError> {
    let mut sides = Vec::new(alloc);
    for k in 0..rows.len() {
        let t = match rows[k].kind() {
            RowKind::Above => 1,
            _ => 0,
        };
        let first = Side {
            sign: -1,
            t,
            right: 0,
        };
        sides.push((k, first))?;
        match rows[k].kind() {
            RowKind::Zero => sides.push((k, Side { sign: 1, ..first }))?,
            _ => {}
        }
    }
    Ok(sides)
}

impl Dense {
    // The first tableau of the rows, over so many unknowns.
    pub(crate) fn new(alloc: Global, rows: &[Row], unknowns: usize) -> Result<Dense, AllocError> {
        let sides = sides(alloc, rows)?;
        let height = sides.len().wrapping_add(1);
        let mut cells = Vec::new(alloc);
        let mut basis = Vec::new(alloc);
        for (place, (k, side)) in sides.iter().enumerate() {
            let coefs = match rows.get(*k) {
                Some(row) => row.coefs(),
                None => &[],
            };
            cells.push(line(alloc, coefs, unknowns, *side, place, height)?)?;
            basis.push(unknowns.wrapping_add(1).wrapping_add(place))?;
        }
        let last = Side {
            sign: 0,
            t: 1,
            right: 1,
        };
        cells.push(line(alloc, &[], unknowns, last, sides.len(), height)?)?;
        basis.push(unknowns.wrapping_add(height))?;
        let objective = Side {
            sign: 0,
            t: -1,
            right: 0,
        };
        cells.push(line(alloc, &[], unknowns, objective, height, height)?)?;
        basis.push(unknowns.wrapping_add(height).wrapping_add(2))?;
        Ok(Dense {
            cells,
            basis,
            unknowns,
        })
    }

    // How many rows stand before the objective row.
    pub(crate) fn height(&self) -> usize {
        self.cells.len().saturating_sub(1)
    }

    // The column of the right side.
    fn right(&self) -> usize {
        self.unknowns.wrapping_add(self.height()).wrapping_add(1)
    }

    pub(crate) fn number(&self, row: usize, col: usize) -> i128 {
        match self.cells.get(row) {
            Some(numbers) => match numbers.get(col) {
                Some(number) => *number,
                None => 0,
            },
            None => 0,
        }
    }

    pub(crate) fn basic(&self, row: usize) -> Option<usize> {
        match self.basis.get(row) {
            Some(col) => Some(*col),
            None => None,
        }
    }

    pub(crate) fn entering(&self) -> Option<usize> {
        for col in 0..self.right() {
            if self.number(self.height(), col) < 0 {
                return Some(col);
            }
        }
        None
    }

    // Whether the list of a row over its number at the column is less than that of another.
    fn is_less(&self, row: usize, other: usize, col: usize) -> bool {
        let p = self.number(row, col);
        let q = self.number(other, col);
        if p <= 0 || q <= 0 {
            return false;
        }
        for place in 0..self.height().wrapping_add(1) {
            let at = if place == 0 {
                self.right()
            } else {
                self.unknowns.wrapping_add(place)
            };
            match compare_ratios(self.number(row, at), p, self.number(other, at), q) {
                Ordering::Less => return true,
                Ordering::Equal => {}
                Ordering::Greater => return false,
            }
        }
        false
    }

    pub(crate) fn leaving(&self, col: usize) -> Option<usize> {
        let mut best = None;
        for row in 0..self.height() {
            if self.number(row, col) > 0 {
                best = match best {
                    Some(other) if !self.is_less(row, other, col) => Some(other),
                    _ => Some(row),
                };
            }
        }
        best
    }

    // The number that a pivot makes at a cell, before its row is divided.
    fn cleared(&self, i: usize, j: usize, row: usize, col: usize) -> Option<i128> {
        let here = self.number(i, col);
        if i == row || here == 0 {
            return Some(self.number(i, j));
        }
        let pivot = self.number(row, col);
        let common = divisor(pivot, here);
        let left = fitting(over(pivot, common).checked_mul(self.number(i, j)))?;
        let right = fitting(over(here, common).checked_mul(self.number(row, j)))?;
        fitting(left.checked_sub(right))
    }

    // `Some` is the first cell that doesn't fit.
    pub(crate) fn pivot(
        &mut self,
        alloc: Global,
        row: usize,
        col: usize,
    ) -> Result<Option<CellFault>, AllocError> {
        let mut cells = Vec::new(alloc);
        for i in 0..self.cells.len() {
            let mut numbers = Vec::new(alloc);
            for j in 0..self.right().wrapping_add(2) {
                match self.cleared(i, j, row, col) {
                    Some(number) => numbers.push(number)?,
                    None => return Ok(Some(CellFault { row: i, col: j })),
                }
            }
            lowest(&mut numbers);
            cells.push(numbers)?;
        }
        self.cells = cells;
        match self.basis.get_mut(row) {
            Some(basic) => *basic = col,
            None => {}
        }
        Ok(None)
    }
}
