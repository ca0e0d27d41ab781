// The prover on systems that were followed by hand.
ghost use Rattle.std.specs.Prelude.{◌≡◌, ℕ, ◌<◌, length, IsTrue};
ghost use Rattle.slice_num.specs.Rational.{Fits};
ghost use Rattle.slice_linear.specs.Sums.{at};
ghost use Rattle.slice_linear.specs.Rows.{AreRowsOver, width};

use crate::{Proof, ProveFault, Prover, prove};
use slice_linear::RowKind::{Above, AtLeast, Zero};
use slice_linear::{Row, RowKind};
use std::alloc::{AllocError, Global};
use std::process::Abort;
use std::test::Fail;

// The greatest number that fits.
const MOST: i128 = i128::MAX;

// 3 to the 79th.
const TALL: i128 = 49269609804781974438694403402127765867;

// 1 more than 2 to the 125th.
const WIDE: i128 = (1 << 125) + 1;

// Rows, the most pivots, and the answer.
struct Case {
    rows: &'static [(RowKind, &'static [i128])],
    limit: u64,
    end: End,
}

enum End {
    Refuted(&'static [i128]),
    Feasible(&'static [i128]),
    Fault(ProveFault),
}

const CASES: &[Case] = &[
    // One cuts at 1/2, the other chooses: the six goals. The cut's amount is below 0; it is above the cake.
    Case {
        rows: &[
            (Above, &[1, 0, 0]),
            (Zero, &[-1, 1, 0]),
            (Zero, &[-1, 0, 1]),
            (Above, &[-1, 0, 0]),
        ],
        limit: 1,
        end: End::Refuted(&[0, 0, 0, 1]),
    },
    Case {
        rows: &[
            (Above, &[1, 0, 0]),
            (Zero, &[-1, 1, 0]),
            (Zero, &[-1, 0, 1]),
            (Above, &[1, -2, 0]),
        ],
        limit: 3,
        end: End::Refuted(&[0, 1, 0, 1]),
    },
    // Agent 2 takes the left part: agent 1 envies, agent 2 envies.
    Case {
        rows: &[
            (Above, &[1, 0, 0, 0, 0]),
            (Zero, &[-1, 1, 1, 0, 0]),
            (Zero, &[-1, 0, 0, 1, 1]),
            (Zero, &[-1, 2, 0, 0, 0]),
            (AtLeast, &[0, 0, 0, 1, -1]),
            (Above, &[0, 1, -1, 0, 0]),
        ],
        limit: 100_000,
        end: End::Refuted(&[0, 1, 0, -1, 0, 1]),
    },
    Case {
        rows: &[
            (Above, &[1, 0, 0, 0, 0]),
            (Zero, &[-1, 1, 1, 0, 0]),
            (Zero, &[-1, 0, 0, 1, 1]),
            (Zero, &[-1, 2, 0, 0, 0]),
            (AtLeast, &[0, 0, 0, 1, -1]),
            (Above, &[0, 0, 0, -1, 1]),
        ],
        limit: 100_000,
        end: End::Refuted(&[0, 0, 0, 0, 1, 1]),
    },
    // Agent 2 takes the right part: agent 1 envies, agent 2 envies.
    Case {
        rows: &[
            (Above, &[1, 0, 0, 0, 0]),
            (Zero, &[-1, 1, 1, 0, 0]),
            (Zero, &[-1, 0, 0, 1, 1]),
            (Zero, &[-1, 2, 0, 0, 0]),
            (Above, &[0, 0, 0, -1, 1]),
            (Above, &[0, -1, 1, 0, 0]),
        ],
        limit: 100_000,
        end: End::Refuted(&[0, -1, 0, 1, 0, 1]),
    },
    Case {
        rows: &[
            (Above, &[1, 0, 0, 0, 0]),
            (Zero, &[-1, 1, 1, 0, 0]),
            (Zero, &[-1, 0, 0, 1, 1]),
            (Zero, &[-1, 2, 0, 0, 0]),
            (Above, &[0, 0, 0, -1, 1]),
            (Above, &[0, 0, 0, 1, -1]),
        ],
        limit: 100_000,
        end: End::Refuted(&[0, 0, 0, 0, 1, 1]),
    },
    // The cut at 1/3, and agent 1 envies: the parts are worth 1 and 2 to both.
    Case {
        rows: &[
            (Above, &[1, 0, 0, 0, 0]),
            (Zero, &[-1, 1, 1, 0, 0]),
            (Zero, &[-1, 0, 0, 1, 1]),
            (Zero, &[-1, 3, 0, 0, 0]),
            (Above, &[0, 0, 0, -1, 1]),
            (Above, &[0, -1, 1, 0, 0]),
        ],
        limit: 6,
        end: End::Feasible(&[3, 1, 2, 1, 2]),
    },
    // No row is above 0: all unknowns stay 0.
    Case {
        rows: &[(Zero, &[1, -1]), (AtLeast, &[1, 0])],
        limit: 1,
        end: End::Feasible(&[0, 0]),
    },
    // 6x > 0 and 4y > 0 at 1/6 and 1/4, which are 2 and 3 over 12.
    Case {
        rows: &[(Above, &[6, 0]), (Above, &[0, 4])],
        limit: 3,
        end: End::Feasible(&[2, 3]),
    },
    // x + y > 0, 2x + y = 0, x >= 0: at the third pivot the lists of two rows differ in one slack alone, after which only that
    // of t + s = 1 comes, which is the right side again.
    Case {
        rows: &[(Above, &[1, 1]), (Zero, &[2, 1]), (AtLeast, &[1, 0])],
        limit: 3,
        end: End::Refuted(&[1, -1, 0]),
    },
    // 0 > 0.
    Case {
        rows: &[(Above, &[0, 0])],
        limit: 1,
        end: End::Refuted(&[1]),
    },
    // A column enters and no pivot may be made.
    Case {
        rows: &[
            (Above, &[1, 0, 0]),
            (Zero, &[-1, 1, 0]),
            (Zero, &[-1, 0, 1]),
            (Above, &[-1, 0, 0]),
        ],
        limit: 0,
        end: End::Fault(ProveFault::PivotLimit),
    },
    // The first pivot takes one row from the other: twice the greatest number that fits.
    Case {
        rows: &[(Above, &[MOST, -1]), (Above, &[-MOST, 1])],
        limit: 100_000,
        end: End::Fault(ProveFault::Overflow {
            pivots: 0,
            row: 0,
            col: 0,
        }),
    },
    // The values are 1 over the one and 1 over the other: no number that fits is a multiple of both. The limit comes first.
    Case {
        rows: &[(Above, &[MOST, 0]), (Above, &[0, MOST - 1])],
        limit: 3,
        end: End::Fault(ProveFault::Overflow {
            pivots: 3,
            row: 2,
            col: 6,
        }),
    },
    Case {
        rows: &[(Above, &[MOST, 0]), (Above, &[0, MOST - 1])],
        limit: 2,
        end: End::Fault(ProveFault::PivotLimit),
    },
    // The values are 1 more than TALL, 1, and 3 times the first over WIDE: the first times WIDE doesn't fit.
    Case {
        rows: &[
            (Above, &[0, 1, 0]),
            (Above, &[-2, -TALL, WIDE]),
            (Zero, &[-3, 0, WIDE]),
        ],
        limit: 4,
        end: End::Fault(ProveFault::Overflow {
            pivots: 4,
            row: 0,
            col: 9,
        }),
    },
];

fn all_fit(coefs: &[i128]) -> bool
    ensures { IsTrue result → (j : ℕ) → Fits (at coefs.now j) }
{
    for j in 0..coefs.len() {
        if coefs[j] == i128::MIN {
            return false;
        }
    }
    true
}

fn is_over(row: &Row, wide: usize) -> bool
    ensures width { IsTrue result → length row.now.coefs ≡ wide }
    ensures fit { IsTrue result → (j : ℕ) → Fits (at row.now.coefs j) }
{
    if row.coefs().len() != wide {
        return false;
    }
    all_fit(row.coefs())
}

// Whether there is a row and an unknown, and all rows are over one width and fit.
pub(crate) fn are_rows(rows: &[Row]) -> bool
    ensures { IsTrue result → AreRowsOver (width rows.now) rows.now }
{
    if rows.len() == 0 {
        return false;
    }
    let wide = rows[0].coefs().len();
    if wide == 0 {
        return false;
    }
    for k in 0..rows.len() {
        if !is_over(&rows[k], wide) {
            return false;
        }
    }
    true
}

fn rows_of(alloc: Global, given: &[(RowKind, &[i128])]) -> Result<Vec<Row>, AllocError> {
    let mut rows = Vec::new(alloc);
    for (kind, coefs) in given {
        rows.push(Row {
            kind: *kind,
            coefs: Vec::from_slice(alloc, coefs)?,
        })?;
    }
    Ok(rows)
}

fn assert_end(rt: &impl Abort, found: &Result<Proof, ProveFault>, end: &End) {
    match end {
        End::Refuted(multipliers) => {
            assert!(rt;
                matches!(found, Ok(Proof::Refuted(m)) if m.as_slice() == *multipliers),
                "{found:?} against {multipliers:?}"
            );
        }
        End::Feasible(solution) => {
            assert!(rt;
                matches!(found, Ok(Proof::Feasible(xs)) if xs.as_slice() == *solution),
                "{found:?} against {solution:?}"
            );
        }
        End::Fault(fault) => {
            assert!(rt;
                matches!(found, Err(e) if e == fault),
                "{found:?} against {fault:?}"
            );
        }
    }
}

// Each system by itself, and in the memory of the one before.
#[test]
fn answers(rt: HostRuntime) -> Result<(), Fail> {
    let alloc = rt.alloc();
    let mut prover = Prover::new();
    for case in CASES {
        let rows = rows_of(alloc, case.rows)?;
        assert!(rt; are_rows(&rows));
        assert_end(&rt, &prove(alloc, &rows, case.limit), &case.end);
        assert_end(&rt, &prover.prove(alloc, &rows, case.limit), &case.end);
    }
    Ok(())
}
