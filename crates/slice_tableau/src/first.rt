//! The first tableau of rows: the lines of the system with a slack each, and the objective row.
ghost use Rattle.std.specs.Prelude.{◌≡◌, ℕ, ◌+◌, ◌*◌, ◌<◌, ◌≤◌, ◌^◌, length, List, [], ◌∷◌, ◌++◌, map, pos, negsuc, ◌*ℤ◌, IfOk, slice_index};
ghost use Rattle.slice_num.specs.Rational.{Fits};
ghost use Rattle.slice_linear.specs.Sums.{at};
ghost use Rattle.slice_linear.specs.Rows.{AreRowsOver};
ghost use Rattle.slice_tableau.specs.System.{Line, lines, lines_of, own_column};
ghost use Rattle.slice_tableau.specs.First.{line_items, objective_items, lines_items};

use crate::row::SparseRow;
use slice_linear::{Row, RowKind};
use slice_num::Memory;
use std::alloc::Global;

// How many unknowns a system has, and how many lines.
#[derive(Clone, Copy)]
pub(crate) struct Size {
    pub(crate) unknowns: usize,
    pub(crate) height: usize,
}

// How many lines the system of the rows has.
pub(crate) fn lines_of_rows(rows: &[Row]) -> usize
    ensures count { result ≡ length (lines rows.now) }
    ensures small { result ≤ 2 * length rows.now + 1 }
{
    let mut height = 1;
    for k in 0..rows.len() {
        match rows[k].kind() {
            RowKind::Zero => height += 2,
            _ => height += 1,
        }
    }
    height
}

// Writes the coefficients times the sign at the front of a row of zeros.
fn put_coefs(row: &mut SparseRow, sign: i128, coefs: &[i128])
    requires room { length coefs.now ≤ length row.old }
    requires zeros { (j : ℕ) → at row.old j ≡ pos 0 }
    requires fits { (j : ℕ) → Fits (sign *ℤ at coefs.now j) }
    ensures front { (j : ℕ) → j < length coefs.now → at row.new j ≡ sign *ℤ at coefs.now j }
    ensures rest { (j : ℕ) → length coefs.now ≤ j → at row.new j ≡ pos 0 }
    ensures width { length row.new ≡ length row.old }
{
    for j in 0..coefs.len() {
        row.put(j, sign * coefs[j]);
    }
}

// A line of the system: its place, its sign and coefficients, its numbers at t and at the right side.
fn line(
    alloc: Global,
    used: &mut Vec<SparseRow>,
    size: Size,
    place: usize,
    sign: i128,
    coefs: &[i128],
    t: i128,
    right: i128,
) -> Result<SparseRow, Memory>
    requires place { place < size.height }
    requires width { length coefs.now ≤ size.unknowns }
    requires size { size.unknowns + size.height + 3 < 2 ^ 64 }
    requires fits { (j : ℕ) → Fits (sign *ℤ at coefs.now j) }
    ensures { IfOk result (λ r. r ≡ line_items size.unknowns size.height place (record { sign = sign; coefs = coefs.now; t = t; right = right })) }
{
    let mut line = SparseRow::zeros(alloc, used, size.unknowns + size.height + 3)?;
    put_coefs(&mut line, sign, coefs);
    line.put(size.unknowns, t);
    line.put(size.unknowns + 1 + place, 1);
    line.put(size.unknowns + 1 + size.height, right);
    Ok(line)
}

// The objective row: z - t.
fn objective(alloc: Global, used: &mut Vec<SparseRow>, size: Size) -> Result<SparseRow, Memory>
    requires size { size.unknowns + size.height + 3 < 2 ^ 64 }
    ensures { IfOk result (λ r. r ≡ objective_items size.unknowns size.height) }
{
    let mut line = SparseRow::zeros(alloc, used, size.unknowns + size.height + 3)?;
    line.put(size.unknowns, -1);
    line.put(size.unknowns + size.height + 2, 1);
    Ok(line)
}

// Appends the line or the two lines of a row.
fn push_row(
    alloc: Global,
    used: &mut Vec<SparseRow>,
    cells: &mut Vec<SparseRow>,
    size: Size,
    row: &Row,
) -> Result<(), Memory>
    requires room { length cells.old.items + length (lines_of row.now.kind row.now.coefs []) ≤ size.height }
    requires width { length row.now.coefs ≤ size.unknowns }
    requires size { size.unknowns + size.height + 3 < 2 ^ 64 }
    requires fits { (j : ℕ) → Fits (at row.now.coefs j) }
    ensures made { IfOk result (λ _. (rest : List Line) → cells.new.items ++ lines_items size.unknowns size.height rest (length cells.new.items) ≡ cells.old.items ++ lines_items size.unknowns size.height (lines_of row.now.kind row.now.coefs rest) (length cells.old.items)) }
    ensures count { IfOk result (λ _. length cells.new.items ≡ length cells.old.items + length (lines_of row.now.kind row.now.coefs [])) }
{
    let place = cells.len();
    let t = match row.kind() {
        RowKind::Above => 1,
        _ => 0,
    };
    let first = line(alloc, used, size, place, -1, row.coefs(), t, 0)?;
    push(cells, first)?;
    match row.kind() {
        RowKind::Zero => {
            let second = line(alloc, used, size, place + 1, 1, row.coefs(), 0, 0)?;
            push(cells, second)?;
        }
        _ => {}
    }
    Ok(())
}

// Appends a line.
fn push(cells: &mut Vec<SparseRow>, line: SparseRow) -> Result<(), Memory>
    ensures { IfOk result (λ _. cells.new.items ≡ cells.old.items ++ line ∷ []) }
{
    match cells.push(line) {
        Ok(()) => Ok(()),
        Err(_) => Err(Memory),
    }
}

// The lines of the rows, and the objective row.
pub(crate) fn first_cells(
    alloc: Global,
    used: &mut Vec<SparseRow>,
    size: Size,
    rows: &[Row],
) -> Result<Vec<SparseRow>, Memory>
    requires rows { AreRowsOver size.unknowns rows.now }
    requires height { size.height ≡ length (lines rows.now) }
    requires size { size.unknowns + size.height + 3 < 2 ^ 64 }
    ensures { IfOk result (λ v. v.items ≡ lines_items size.unknowns size.height (lines rows.now) 0) }
{
    let mut cells = Vec::with_capacity(alloc, size.height + 1)?;
    for k in 0..rows.len() {
        push_row(alloc, used, &mut cells, size, &rows[k])?;
    }
    let place = cells.len();
    let last = line(alloc, used, size, place, 1, &[], 1, 1)?;
    push(&mut cells, last)?;
    let end = objective(alloc, used, size)?;
    push(&mut cells, end)?;
    Ok(cells)
}

// The basis of slacks, and z.
pub(crate) fn first_basis(alloc: Global, size: Size) -> Result<Vec<usize>, Memory>
    requires size { size.unknowns + size.height + 3 < 2 ^ 64 }
    ensures slacks { IfOk result (λ v. (l : ℕ) → l ≤ size.height → slice_index v.items l ≡ own_column size.unknowns size.height l) }
    ensures count { IfOk result (λ v. length v.items ≡ size.height + 1) }
{
    let mut basis = Vec::with_capacity(alloc, size.height + 1)?;
    for i in 0..size.height {
        if basis.push(size.unknowns + 1 + i).is_err() {
            return Err(Memory);
        }
    }
    if basis.push(size.unknowns + 2 + size.height).is_err() {
        return Err(Memory);
    }
    Ok(basis)
}
