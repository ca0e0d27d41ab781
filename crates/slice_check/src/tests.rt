// Worked verdicts: that the clauses say what is meant.
mod certificates;
mod upgrades;

ghost use Rattle.std.specs.Prelude.{◌≡◌, length, IsTrue};
ghost use Rattle.slice_check.specs.Verdicts.{HaveOneWidth};

use crate::Verdict::{self, Length, NoStrict, Overflow, Sign, Sum, Yes};
use crate::refutes;
use slice_linear::Row;
use slice_linear::RowKind::{self, Above, AtLeast, Zero};
use std::alloc::{AllocError, Global};
use std::test::Fail;

const MOST: i128 = i128::MAX;

// Rows of kinds and coefficients.
type Given = &'static [(RowKind, &'static [i128])];

// The whole is worth something, x1 and x2 are worth the whole, and the whole is worth more than 2 * x1.
const HALF: Given = &[
    (Above, &[1, 0, 0]),
    (Zero, &[-1, 1, 0]),
    (Zero, &[-1, 0, 1]),
    (Above, &[1, -2, 0]),
];

const MIXED: Given = &[(AtLeast, &[-1]), (Zero, &[1]), (Above, &[0])];

const CASES: &[(Given, &'static [i128], Verdict)] = &[
    // 1 - 2 + 0 + 1 = 0 and 2 - 2 = 0
    (HALF, &[1, 2, 0, 1], Yes),
    (HALF, &[1, 2, 0], Length),
    (HALF, &[1, 2, 0, 1, 0], Length),
    (HALF, &[-1, -2, 0, -1], Sign { row: 0 }),
    (HALF, &[1, -2, 0, -1], Sign { row: 3 }),
    // 2 - 2 + 0 + 1 = 1
    (HALF, &[2, 2, 0, 1], Sum { unknown: 0 }),
    // 1 - 2 = -1, and 2
    (HALF, &[1, 2, 0, 0], Sum { unknown: 1 }),
    (HALF, &[0, 0, 1, 0], Sum { unknown: 2 }),
    (HALF, &[0, 0, 0, 0], NoStrict),
    // MOST + 1, though with the third row it would fit
    (HALF, &[MOST, -1, 1, 0], Overflow { unknown: 0 }),
    // 0 - MOST + 0 + MOST = 0, and MOST * -2
    (HALF, &[0, MOST, 0, MOST], Overflow { unknown: 1 }),
    (MIXED, &[-1, 0, 0], Sign { row: 0 }),
    // -1 + 1 = 0, but no Above row counts
    (MIXED, &[1, 1, 0], NoStrict),
    (MIXED, &[0, -1, 1], Yes),
    (MIXED, &[0, 1, 1], Sum { unknown: 0 }),
    (&[], &[], NoStrict),
    (&[], &[0], Length),
];

fn rows_of(alloc: Global, given: Given) -> Result<Vec<Row>, AllocError> {
    let mut rows = Vec::new(alloc);
    for (kind, coefs) in given {
        rows.push(Row {
            kind: *kind,
            coefs: Vec::from_slice(alloc, coefs)?,
        })?;
    }
    Ok(rows)
}

fn is_over(row: &Row, wide: usize) -> bool
    ensures { IsTrue result → length row.now.coefs ≡ wide }
{
    row.coefs().len() == wide
}

// Whether all rows are over as many unknowns as the first.
fn have_one_width(rows: &[Row]) -> bool
    ensures { IsTrue result → HaveOneWidth rows.now }
{
    if rows.len() == 0 {
        return true;
    }
    let wide = rows[0].coefs().len();
    for k in 0..rows.len() {
        if !is_over(&rows[k], wide) {
            return false;
        }
    }
    true
}

#[test]
fn judges_multipliers(rt: HostRuntime) -> Result<(), Fail> {
    for (given, multipliers, want) in CASES {
        let rows = rows_of(rt.alloc(), *given)?;
        let rows = rows.as_slice();
        if have_one_width(rows) {
            assert_eq!(rt; refutes(rows, *multipliers), *want);
        } else {
            assert!(rt; false, "rows of one width");
        }
    }
    Ok(())
}
