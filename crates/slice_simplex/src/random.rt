// The prover against elimination, on many small systems that look random and are always the same.
use crate::elimination::have_solution;
use crate::tests::are_rows;
use crate::{Proof, ProveFault, Prover, prove};
use slice_linear::RowKind::{Above, AtLeast, Zero};
use slice_linear::{Row, RowKind};
use std::alloc::{AllocError, Global};
use std::process::Abort;
use std::test::Fail;

// A linear congruential generator, with Knuth's numbers.
#[derive(Drop)]
struct Numbers {
    state: u64,
}

impl Numbers {
    // The next number, below a count that isn't 0.
    fn below(&mut self, count: u64) -> u64 {
        self.state = self
            .state
            .wrapping_mul(6364136223846793005)
            .wrapping_add(1442695040888963407);
        match (self.state >> 33).checked_rem(count) {
            Some(number) => number,
            None => 0,
        }
    }

    fn kind(&mut self) -> RowKind {
        match self.below(3) {
            0 => Zero,
            1 => AtLeast,
            _ => Above,
        }
    }

    // Rows over so many unknowns, with coefficients from -3 to 3.
    fn rows(&mut self, alloc: Global, count: u64, unknowns: u64) -> Result<Vec<Row>, AllocError> {
        let mut rows = Vec::new(alloc);
        for _ in 0..count {
            let kind = self.kind();
            let mut coefs = Vec::new(alloc);
            for _ in 0..unknowns {
                coefs.push(i128::from(self.below(7)).wrapping_sub(3))?;
            }
            rows.push(Row { kind, coefs })?;
        }
        Ok(rows)
    }
}

// A sum and a product more.
fn plus(rt: &impl Abort, sum: i128, a: i128, b: i128) -> i128 {
    let product = a.checked_mul(b).expect(rt, "the product fits");
    sum.checked_add(product).expect(rt, "the sum fits")
}

// Whether a number may stand at a kind: as a multiplier, and as a sum of coefficient times unknown.
fn may_multiply(kind: RowKind, multiplier: i128) -> bool {
    match kind {
        Zero => true,
        AtLeast | Above => multiplier >= 0,
    }
}

fn may_be_sum(kind: RowKind, sum: i128) -> bool {
    match kind {
        Zero => sum == 0,
        AtLeast => sum >= 0,
        Above => sum > 0,
    }
}

// The multipliers may stand there, one at an Above row is above 0, and no weighted sum of coefficients is.
fn assert_refuted(rt: &impl Abort, rows: &[Row], multipliers: &[i128], unknowns: usize) {
    assert_eq!(rt; multipliers.len(), rows.len());
    let mut some_above = false;
    for (row, multiplier) in rows.iter().zip(multipliers) {
        assert!(rt;
            may_multiply(row.kind(), *multiplier),
            "{rows:?} by {multipliers:?}"
        );
        some_above = some_above || (matches!(row.kind(), Above) && *multiplier > 0);
    }
    assert!(rt; some_above, "{rows:?} by {multipliers:?}");
    for unknown in 0..unknowns {
        let mut sum = 0;
        for (row, multiplier) in rows.iter().zip(multipliers) {
            let coef = row.coefs().get(unknown).expect(rt, "a coefficient");
            sum = plus(rt, sum, *multiplier, *coef);
        }
        assert!(rt; sum <= 0, "{rows:?} by {multipliers:?}");
    }
}

// No unknown is below 0, and each row holds.
fn assert_solved(rt: &impl Abort, rows: &[Row], solution: &[i128], unknowns: usize) {
    assert_eq!(rt; solution.len(), unknowns);
    for number in solution {
        assert!(rt; *number >= 0, "{rows:?} by {solution:?}");
    }
    for row in rows {
        let mut sum = 0;
        for (coef, number) in row.coefs().iter().zip(solution) {
            sum = plus(rt, sum, *coef, *number);
        }
        assert!(rt; may_be_sum(row.kind(), sum), "{rows:?} by {solution:?}");
    }
}

// The answer is a solution exactly where there is one.
fn assert_decided(
    rt: &impl Abort,
    rows: &[Row],
    answer: &Result<Proof, ProveFault>,
    unknowns: usize,
    there_is_one: bool,
) {
    match answer {
        Ok(Proof::Refuted(multipliers)) => {
            assert!(rt; !there_is_one, "{rows:?} by {multipliers:?}");
            assert_refuted(rt, rows, multipliers, unknowns);
        }
        Ok(Proof::Feasible(solution)) => {
            assert!(rt; there_is_one, "{rows:?} by {solution:?}");
            assert_solved(rt, rows, solution, unknowns);
        }
        Err(fault) => assert!(rt; false, "{rows:?}: {fault:?}"),
    }
}

// Many systems of each size, alone and in the memory of the one before.
fn assert_all_decided(
    rt: &impl Abort,
    alloc: Global,
    numbers: &mut Numbers,
    prover: &mut Prover,
    (count, unknowns): (u64, usize),
) -> Result<(), Fail> {
    let mut solved = 0u32;
    for _ in 0..100 {
        let rows = numbers.rows(alloc, count, unknowns as u64)?;
        assert!(rt; are_rows(&rows));
        let there_is_one = have_solution(rt, alloc, &rows, unknowns)?;
        if there_is_one {
            solved = solved.wrapping_add(1);
        }
        let alone = prove(alloc, &rows, 1000);
        assert_decided(rt, &rows, &alone, unknowns, there_is_one);
        let after = prover.prove(alloc, &rows, 1000);
        assert_decided(rt, &rows, &after, unknowns, there_is_one);
    }
    assert!(rt;
        solved > 4 && solved < 96,
        "{solved} of {count} rows over {unknowns} unknowns"
    );
    Ok(())
}

#[test]
fn it_decides_as_elimination_does(rt: HostRuntime) -> Result<(), Fail> {
    let alloc = rt.alloc();
    let mut numbers = Numbers { state: 1 };
    let mut prover = Prover::new();
    for size in [(2, 2), (3, 2), (3, 3), (4, 3), (5, 3), (4, 4)] {
        assert_all_decided(&rt, alloc, &mut numbers, &mut prover, size)?;
    }
    Ok(())
}
