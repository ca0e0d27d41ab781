//! A tableau of rows, and its pivots.
ghost use Rattle.std.specs.Prelude.{◌≡◌, ℕ, ◌+◌, ◌<◌, ◌≤◌, pos, ◌<ℤ◌, MatchOption, IfOk, IfErr};

use crate::cells::{entry, misfit};
use crate::clearing::clear_all;
use crate::first::{Size, first_basis, first_cells, lines_of_rows};
use crate::leaving::least_row;
use crate::row::SparseRow;
use slice_linear::Row;
use slice_num::Memory;
use std::alloc::Global;
use std::marker::Model;

/// The first cell, row by row, at which a pivot makes a number that doesn't fit.
#[derive(Clone, Copy, Debug, PartialEq, Eq)]
pub struct CellFault {
    /// The row of the cell, counted from 0, the objective row last.
    pub row: usize,
    /// The column of the cell, counted from 0.
    pub col: usize,
}

/// A tableau: its rows are the rows of its basis, for the system of the rows that it was made of. Columns are in order
/// the unknowns, t, a slack for each row of the tableau, the right side and z; the objective row is the last row.
/// Contracts see it as a `Table`.
#[derive(Drop)]
pub struct Tableau {
    cells: Vec<SparseRow>,
    spare: SparseRow,
    basis: Vec<usize>,
    unknowns: usize,
    height: usize,
    right: usize,
}

impl Model for Tableau {
    ghost use Rattle.std.specs.Prelude.{length, List, ℕ, ◌≡◌, ◌+◌, ◌<◌, ◌^◌};
    ghost use Rattle.slice_linear.specs.Rows.{LinearRow};
    ghost use Rattle.slice_tableau.specs.Table.{Table, IsTableauOf, HasSizes, CellsFit, right_column, columns};

    ghost Value = { Table };

    ghost view = { λ t. record { unknowns = t.unknowns; height = t.height; cells = t.cells.items; basis = t.basis.items } };

    ghost invariant = { λ t. (t.right ≡ t.unknowns + 1 + t.height) × (length t.spare ≡ t.unknowns + t.height + 3) × HasSizes (record { unknowns = t.unknowns; height = t.height; cells = t.cells.items; basis = t.basis.items }) × CellsFit (record { unknowns = t.unknowns; height = t.height; cells = t.cells.items; basis = t.basis.items }) × ((rows : List LinearRow) × IsTableauOf rows (record { unknowns = t.unknowns; height = t.height; cells = t.cells.items; basis = t.basis.items })) × (t.unknowns + t.height + 3 < 2 ^ 64) };
}

impl Tableau {
    ghost use Rattle.slice_num.specs.Rational.{Fits};
    ghost use Rattle.slice_linear.specs.Rows.{AreRowsOver, width};
    ghost use Rattle.slice_tableau.specs.Run.{ListsAreHigh, Rises};
    ghost use Rattle.slice_tableau.specs.Table.{IsFirst, cell_at, basic_at, right_column, columns, IsEntering, IsLeaving, NoneEnters, IsPivot, PivotFits, IsFirstMisfit};

    /// The first tableau of rows that are over one width, of at least 1: its basis is the slacks, and z. Takes all the
    /// memory that the tableau needs, so that no other call but `renew` takes any; `Err` comes only for want of it.
    pub fn new(alloc: Global, rows: &[Row]) -> Result<Tableau, Memory>
        requires { AreRowsOver (width rows.now) rows.now }
        ensures { IfOk result (λ t. IsFirst rows.now t) }
    {
        let mut used = Vec::new(alloc);
        Tableau::first(alloc, &mut used, rows)
    }

    /// The same, in the memory of the rows of a tableau that isn't needed any more.
    pub fn renew(self, alloc: Global, rows: &[Row]) -> Result<Tableau, Memory>
        requires { AreRowsOver (width rows.now) rows.now }
        ensures { IfOk result (λ t. IsFirst rows.now t) }
    {
        let mut used = self.cells;
        Tableau::first(alloc, &mut used, rows)
    }

    // The same, in the memory of used rows as far as there are any.
    fn first(alloc: Global, used: &mut Vec<SparseRow>, rows: &[Row]) -> Result<Tableau, Memory>
        requires { AreRowsOver (width rows.now) rows.now }
        ensures { IfOk result (λ t. IsFirst rows.now t) }
    {
        let size = Size {
            unknowns: rows[0].coefs().len(),
            height: lines_of_rows(rows),
        };
        let cells = first_cells(alloc, used, size, rows)?;
        let basis = first_basis(alloc, size)?;
        let spare = SparseRow::zeros(alloc, used, size.unknowns + size.height + 3)?;
        Ok(Tableau {
            cells,
            spare,
            basis,
            unknowns: size.unknowns,
            height: size.height,
            right: size.unknowns + 1 + size.height,
        })
    }

    /// How many unknowns the rows are over.
    pub fn unknowns(&self) -> usize
        ensures { result ≡ self.now.unknowns }
    {
        self.unknowns
    }

    /// How many rows stand before the objective row.
    pub fn height(&self) -> usize
        ensures { result ≡ self.now.height }
    {
        self.height
    }

    /// The column of the right side.
    pub fn right(&self) -> usize
        ensures { result ≡ right_column self.now }
    {
        self.right
    }

    /// The number at a row and a column, the objective row counted last.
    pub fn cell(&self, row: usize, col: usize) -> i128
        requires row_there { row ≤ self.now.height }
        requires col_there { col < columns self.now }
        ensures value { result ≡ cell_at self.now row col }
        ensures fits { Fits result }
    {
        entry(&self.cells, row, col)
    }

    /// The basic column of a row.
    pub fn basic(&self, row: usize) -> usize
        requires { row ≤ self.now.height }
        ensures { result ≡ basic_at self.now row }
    {
        self.basis[row]
    }

    /// The least column among unknowns, t and slacks with a number below 0 in the objective row. `None` where there is
    /// none.
    pub fn entering(&self) -> Option<usize>
        ensures { MatchOption result (NoneEnters self.now) (λ c. IsEntering self.now c) }
    {
        self.cells[self.height].first_below(self.right)
    }

    /// The row that leaves for the column that enters: among the rows with a number above 0 there, the one whose list
    /// (right side, then slacks) divided by that number is the least in the order of a dictionary, by exact comparison.
    /// There always is one, and two rows never tie.
    pub fn leaving(&self, col: usize) -> usize
        requires { IsEntering self.now col }
        ensures { IsLeaving self.now col result }
    {
        let size = Size {
            unknowns: self.unknowns,
            height: self.height,
        };
        match least_row(size, &self.cells, col) {
            Some(row) => row,
            None => 0,
        }
    }

    /// Puts the column in the place of the row's basic column, for a row before the objective row, a column before the
    /// right side and a number above 0 there: each other row is made 0 at the column by that row, and divided by its
    /// greatest common divisor. Takes no memory.
    ///
    /// `Err` comes exactly where a product or a difference doesn't fit. It names the first such cell, row by row, the
    /// objective row last, and nothing is changed then.
    ///
    /// Where row and column are the lawful choice, and the lists of all rows but the objective row are above the zeros,
    /// they stay so, and the objective row's list rises.
    pub fn pivot(&mut self, row: usize, col: usize) -> Result<(), CellFault>
        requires row_there { row < self.old.height }
        requires col_there { col < right_column self.old }
        requires above { pos 0 <ℤ (cell_at self.old row col) }
        ensures made { IfOk result (λ _. IsPivot self.old row col self.new) }
        ensures fits { IfOk result (λ _. (i j : ℕ) → i ≤ self.old.height → j < columns self.old → PivotFits self.old row col i j) }
        ensures keeps { IfOk result (λ _. ListsAreHigh self.old → IsEntering self.old col → IsLeaving self.old col row → ListsAreHigh self.new) }
        ensures rises { IfOk result (λ _. ListsAreHigh self.old → IsEntering self.old col → IsLeaving self.old col row → Rises self.old self.new) }
        ensures fault { IfErr result (λ e. IsFirstMisfit self.old row col e.row e.col) }
        ensures unchanged { IfErr result (λ _. self.new ≡ self.old) }
    {
        match misfit(&self.cells, row, col) {
            None => {
                clear_all(&mut self.cells, &mut self.spare, row, col);
                self.basis[row] = col;
                Ok(())
            }
            Some(at) => Err(CellFault {
                row: at.0,
                col: at.1,
            }),
        }
    }
}
