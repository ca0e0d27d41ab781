// The tableau against one that is written plainly, on the pivot runs of small systems that were followed by hand.
ghost use Rattle.std.specs.Prelude.{◌≡◌, ℕ, length, IsTrue};
ghost use Rattle.slice_num.specs.Rational.{Fits};
ghost use Rattle.slice_linear.specs.Sums.{at};
ghost use Rattle.slice_linear.specs.Rows.{AreRowsOver, width};

use crate::dense::Dense;
use crate::{CellFault, Tableau};
use slice_linear::RowKind::{Above, AtLeast, Zero};
use slice_linear::{Row, RowKind};
use std::alloc::{AllocError, Global};
use std::process::Abort;
use std::test::Fail;

// The greatest number that fits.
const MOST: i128 = i128::MAX;

// Rows, and their pivot run: at each pivot the column that enters and the row that leaves. Then the objective row at the last
// tableau, or where the last pivot makes a number that doesn't fit.
struct Case {
    rows: &'static [(RowKind, &'static [i128])],
    pivots: &'static [(usize, usize)],
    end: End,
}

enum End {
    Objective(&'static [i128]),
    Misfit(usize, usize),
}

const CASES: &[Case] = &[
    // No row is above 0: t takes the place of the last slack, and all unknowns stay 0.
    Case {
        rows: &[(Zero, &[1, -1]), (AtLeast, &[1, 0])],
        pivots: &[(2, 3)],
        end: End::Objective(&[0, 0, 0, 0, 0, 0, 1, 1, 1]),
    },
    // x + y > 0, 2x + y = 0, x >= 0. At the third pivot the lists of rows 2 and 3 are (0, 0, 0, 1, 0, 0) and
    // (0, 0, 0, 1, 2, 0): only the slack before the last one decides. The last slack's column is that of the right side.
    Case {
        rows: &[(Above, &[1, 1]), (Zero, &[2, 1]), (AtLeast, &[1, 0])],
        pivots: &[(2, 0), (0, 2), (1, 2)],
        end: End::Objective(&[1, 0, 0, 1, 0, 1, 0, 0, 0, 1]),
    },
    // Agent 1 cuts at 1/2, agent 2 finds the left part worth at least the right one and takes it, and agent 1 envies.
    Case {
        rows: &[
            (Above, &[1, 0, 0, 0, 0]),
            (Zero, &[-1, 1, 1, 0, 0]),
            (Zero, &[-1, 0, 0, 1, 1]),
            (Zero, &[-1, 2, 0, 0, 0]),
            (AtLeast, &[0, 0, 0, 1, -1]),
            (Above, &[0, 1, -1, 0, 0]),
        ],
        pivots: &[(5, 8), (1, 6), (0, 3), (3, 1)],
        end: End::Objective(&[0, 0, 0, 0, 0, 0, 0, 1, 0, 0, 0, 0, 1, 0, 1, 0, 0, 1]),
    },
    // The same cut, where agent 2 takes the right part and envies: its two rows refute each other.
    Case {
        rows: &[
            (Above, &[1, 0, 0, 0, 0]),
            (Zero, &[-1, 1, 1, 0, 0]),
            (Zero, &[-1, 0, 0, 1, 1]),
            (Zero, &[-1, 2, 0, 0, 0]),
            (Above, &[0, 0, 0, -1, 1]),
            (Above, &[0, 0, 0, 1, -1]),
        ],
        pivots: &[(5, 8), (3, 7)],
        end: End::Objective(&[0, 0, 0, 0, 0, 0, 0, 0, 0, 0, 0, 0, 0, 1, 1, 0, 0, 2]),
    },
    // The cut at 1/3, agent 2 takes the right part, and agent 1 envies: this is so where the parts are worth 1 and 2 to both.
    Case {
        rows: &[
            (Above, &[1, 0, 0, 0, 0]),
            (Zero, &[-1, 1, 1, 0, 0]),
            (Zero, &[-1, 0, 0, 1, 1]),
            (Zero, &[-1, 3, 0, 0, 0]),
            (Above, &[0, 0, 0, -1, 1]),
            (Above, &[0, -1, 1, 0, 0]),
        ],
        pivots: &[(5, 8), (2, 7), (4, 4), (0, 5), (1, 2), (3, 9)],
        end: End::Objective(&[0, 0, 0, 0, 0, 0, 0, 0, 0, 0, 0, 0, 0, 0, 0, 1, 1, 1]),
    },
    // The greatest number in the pivot itself: it is the divisor of both.
    Case {
        rows: &[(Above, &[MOST])],
        pivots: &[(1, 0), (0, 1)],
        end: End::Objective(&[0, 0, 0, 1, 1, 1]),
    },
    // The second pivot takes row 1 so many times as 3 * MOST, which is a number of column 1.
    Case {
        rows: &[(Above, &[3, 0]), (AtLeast, &[2, MOST])],
        pivots: &[(2, 0), (0, 2)],
        end: End::Misfit(1, 1),
    },
    // Both products fit, and the difference is one below the least number that fits.
    Case {
        rows: &[(Above, &[1, -1]), (AtLeast, &[1, MOST])],
        pivots: &[(2, 0), (0, 2)],
        end: End::Misfit(1, 1),
    },
];

fn all_fit(coefs: &[i128]) -> bool
    ensures { IsTrue result → (j : ℕ) → Fits (at coefs.now j) }
{
    for j in 0..coefs.len() {
        if coefs[j] == i128::MIN {
            return false;
        }
    }
    true
}

fn is_over(row: &Row, wide: usize) -> bool
    ensures width { IsTrue result → length row.now.coefs ≡ wide }
    ensures fit { IsTrue result → (j : ℕ) → Fits (at row.now.coefs j) }
{
    if row.coefs().len() != wide {
        return false;
    }
    all_fit(row.coefs())
}

// Whether there is a row and an unknown, and all rows are over one width and fit.
fn are_rows(rows: &[Row]) -> bool
    ensures { IsTrue result → AreRowsOver (width rows.now) rows.now }
{
    if rows.len() == 0 {
        return false;
    }
    let wide = rows[0].coefs().len();
    if wide == 0 {
        return false;
    }
    for k in 0..rows.len() {
        if !is_over(&rows[k], wide) {
            return false;
        }
    }
    true
}

fn rows_of(alloc: Global, given: &[(RowKind, &[i128])]) -> Result<Vec<Row>, AllocError> {
    let mut rows = Vec::new(alloc);
    for (kind, coefs) in given {
        rows.push(Row {
            kind: *kind,
            coefs: Vec::from_slice(alloc, coefs)?,
        })?;
    }
    Ok(rows)
}

// All numbers and basic columns of both are the same.
fn assert_same(rt: &impl Abort, tableau: &Tableau, dense: &Dense) {
    let height = tableau.height();
    let right = tableau.right();
    assert!(rt; right < 1000);
    assert_eq!(rt; height, dense.height());
    for row in 0..height + 1 {
        assert_eq!(rt; Some(tableau.basic(row)), dense.basic(row));
        for col in 0..right + 2 {
            assert_eq!(rt;
                tableau.cell(row, col),
                dense.number(row, col),
                "row {row}, column {col}"
            );
        }
    }
}

// The numbers of the objective row.
fn assert_objective(rt: &impl Abort, dense: &Dense, numbers: &[i128]) {
    for col in 0..numbers.len() {
        assert_eq!(rt;
            dense.number(dense.height(), col),
            numbers[col],
            "column {col}"
        );
    }
}

// Makes the lawful pivot in both, which is that one, and tells what refuses it.
fn step(
    rt: &impl Abort,
    alloc: Global,
    tableau: &mut Tableau,
    dense: &mut Dense,
    pivot: (usize, usize),
) -> Result<Option<CellFault>, AllocError> {
    let Some(col) = tableau.entering() else {
        return Ok(Some(CellFault { row: 1000, col: 0 }));
    };
    let row = tableau.leaving(col);
    assert_eq!(rt; (col, row), pivot);
    assert_eq!(rt; dense.entering(), Some(col));
    assert_eq!(rt; dense.leaving(col), Some(row));
    let fault = dense.pivot(alloc, row, col)?;
    match tableau.pivot(row, col) {
        Ok(()) => assert_eq!(rt; fault, None),
        Err(found) => assert_eq!(rt; fault, Some(found)),
    }
    assert_same(rt, tableau, dense);
    Ok(fault)
}

#[test]
fn a_tableau_is_the_one_that_is_written_plainly(rt: HostRuntime) -> Result<(), Fail> {
    let alloc = rt.alloc();
    let first = rows_of(alloc, &[(AtLeast, &[5, 7, 9])])?;
    assert!(rt; are_rows(&first));
    let mut tableau = Tableau::new(alloc, &first)?;
    for case in CASES {
        let rows = rows_of(alloc, case.rows)?;
        assert!(rt; are_rows(&rows));
        tableau = tableau.renew(alloc, &rows)?;
        let mut dense = Dense::new(alloc, &rows, tableau.unknowns())?;
        assert_same(&rt, &tableau, &dense);
        let mut fault = None;
        for pivot in case.pivots {
            assert_eq!(rt; fault, None);
            fault = step(&rt, alloc, &mut tableau, &mut dense, *pivot)?;
        }
        match case.end {
            End::Objective(numbers) => {
                assert_eq!(rt; fault, None);
                assert_eq!(rt; tableau.entering(), None);
                assert_objective(&rt, &dense, numbers);
            }
            End::Misfit(row, col) => assert_eq!(rt; fault, Some(CellFault { row, col })),
        }
    }
    Ok(())
}
