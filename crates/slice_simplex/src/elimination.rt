//! Whether rows have a solution, by eliminating one unknown after the other (Fourier and Motzkin), for tests. It is slow, and
//! says nothing.
use slice_linear::{Row, RowKind};
use slice_num::gcd_natural;
use std::alloc::{AllocError, Global};
use std::process::Abort;

// The sum of coefficient times unknown isn't below 0, or it is above 0.
#[derive(Drop)]
struct Fact {
    coefs: Vec<i128>,
    is_above: bool,
}

impl Fact {
    // The coefficient of an unknown, 0 past the last.
    fn coef(&self, unknown: usize) -> i128 {
        match self.coefs.get(unknown) {
            Some(coef) => *coef,
            None => 0,
        }
    }
}

// Adds a fact, but for one whose sum is there.
fn add(facts: &mut Vec<Fact>, fact: Fact) -> Result<(), AllocError> {
    for known in facts.iter_mut() {
        if known.coefs.as_slice() == fact.coefs.as_slice() {
            known.is_above = known.is_above || fact.is_above;
            return Ok(());
        }
    }
    facts.push(fact)?;
    Ok(())
}

// The greatest common divisor of numbers.
fn divisor(numbers: &[i128]) -> i128 {
    let mut common = 0;
    for number in numbers {
        common = gcd_natural(common, number.unsigned_abs());
    }
    match i128::try_from(common) {
        Ok(common) => common,
        Err(_) => 0,
    }
}

// A times one fact and b times the other, in lowest numbers. A and b are above 0, so it follows.
fn combined(
    rt: &impl Abort,
    alloc: Global,
    (a, one): (i128, &Fact),
    (b, other): (i128, &Fact),
) -> Result<Fact, AllocError> {
    let mut coefs = Vec::new(alloc);
    for unknown in 0..one.coefs.len() {
        let left = a.checked_mul(one.coef(unknown)).expect(rt, "it fits");
        let right = b.checked_mul(other.coef(unknown)).expect(rt, "it fits");
        coefs.push(left.checked_add(right).expect(rt, "it fits"))?;
    }
    let common = divisor(&coefs);
    for coef in coefs.iter_mut() {
        match coef.checked_div(common) {
            Some(quotient) => *coef = quotient,
            None => {}
        }
    }
    Ok(Fact {
        coefs,
        is_above: one.is_above || other.is_above,
    })
}

// What a fact says with each of the others in which the unknown's coefficient has the other sign; the fact itself where its
// own is 0.
fn eliminated_from(
    rt: &impl Abort,
    alloc: Global,
    found: &mut Vec<Fact>,
    fact: &Fact,
    facts: &[Fact],
    unknown: usize,
) -> Result<(), AllocError> {
    let a = fact.coef(unknown);
    if a == 0 {
        return add(found, combined(rt, alloc, (1, fact), (1, fact))?);
    }
    for other in facts {
        let b = other.coef(unknown);
        if a > 0 && b < 0 {
            add(
                found,
                combined(rt, alloc, (b.wrapping_neg(), fact), (a, other))?,
            )?;
        }
    }
    Ok(())
}

// Facts without the unknown that have a solution exactly where these do.
fn eliminated(
    rt: &impl Abort,
    alloc: Global,
    facts: &[Fact],
    unknown: usize,
) -> Result<Vec<Fact>, AllocError> {
    let mut found = Vec::new(alloc);
    for fact in facts {
        eliminated_from(rt, alloc, &mut found, fact, facts, unknown)?;
    }
    Ok(found)
}

// The coefficients of a row times a number.
fn scaled(
    rt: &impl Abort,
    alloc: Global,
    row: &Row,
    by: i128,
    is_above: bool,
) -> Result<Fact, AllocError> {
    let mut coefs = Vec::new(alloc);
    for coef in row.coefs() {
        coefs.push(coef.checked_mul(by).expect(rt, "it fits"))?;
    }
    Ok(Fact { coefs, is_above })
}

// An unknown isn't below 0.
fn not_below(alloc: Global, unknown: usize, unknowns: usize) -> Result<Fact, AllocError> {
    let mut coefs = Vec::new(alloc);
    for other in 0..unknowns {
        coefs.push(if other == unknown { 1 } else { 0 })?;
    }
    Ok(Fact {
        coefs,
        is_above: false,
    })
}

// What the rows say, and that no unknown is below 0.
fn facts_of(
    rt: &impl Abort,
    alloc: Global,
    rows: &[Row],
    unknowns: usize,
) -> Result<Vec<Fact>, AllocError> {
    let mut facts = Vec::new(alloc);
    for row in rows {
        add(
            &mut facts,
            scaled(rt, alloc, row, 1, matches!(row.kind(), RowKind::Above))?,
        )?;
        match row.kind() {
            RowKind::Zero => add(&mut facts, scaled(rt, alloc, row, -1, false)?)?,
            _ => {}
        }
    }
    for unknown in 0..unknowns {
        add(&mut facts, not_below(alloc, unknown, unknowns)?)?;
    }
    Ok(facts)
}

// Whether rows over so many unknowns have a solution: what is left without unknowns says of 0 that it isn't below 0, or that
// it is above 0.
pub(crate) fn have_solution(
    rt: &impl Abort,
    alloc: Global,
    rows: &[Row],
    unknowns: usize,
) -> Result<bool, AllocError> {
    let mut facts = facts_of(rt, alloc, rows, unknowns)?;
    for unknown in 0..unknowns {
        facts = eliminated(rt, alloc, &facts, unknown)?;
    }
    for fact in &facts {
        if fact.is_above {
            return Ok(false);
        }
    }
    Ok(true)
}
