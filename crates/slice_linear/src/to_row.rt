//! Rows of forms.
ghost use Rattle.std.specs.Prelude.{◌≡◌, ℕ, pos, ◌<ℤ◌, ◌^◌, nat_lt, unsigned_abs, IfOk, IfErr, OnErr, OkIff, true, false};
ghost use Rattle.slice_num.specs.Rational.{Fits};
ghost use Rattle.slice_linear.specs.Sums.{at};
ghost use Rattle.slice_linear.specs.LowestRow.{common_den, cleared, cleared_at, all_fit, lowest, lowest_fits};
ghost use Rattle.slice_linear.specs.Proportion.{AreLowest};
ghost use Rattle.slice_linear.specs.Terms.{coefs_of};

use crate::forms::{Form, FormFault, Term};
use crate::lowest::{reduce, with_denominator};
use crate::row::{Row, RowKind};
use crate::terms::coef_at;
use slice_num::{Frac, Key, NoFit, divide, product};
use std::alloc::Global;

impl Form {
    /// The row that says of the form what its kind says: its coefficients at these keys, in order, in lowest whole
    /// numbers. Each key of the form should be among them, and none twice.
    ///
    /// Overflow comes exactly where the least common multiple of the denominators, or a numerator times that over its
    /// denominator, doesn't fit.
    pub fn to_row(&self, alloc: Global, kind: RowKind, order: &[Key]) -> Result<Row, FormFault>
        ensures kind { IfOk result (λ r. r.kind ≡ kind) }
        ensures coefs { IfOk result (λ r. r.coefs ≡ lowest (coefs_of self.now order.now)) }
        ensures lowest { IfOk result (λ r. AreLowest r.coefs (coefs_of self.now order.now)) }
        ensures row_fits { IfOk result (λ r. (j : ℕ) → Fits (at r.coefs j)) }
        ensures fits { IfOk result (λ r. lowest_fits (coefs_of self.now order.now) ≡ true) }
        ensures overflow { IfErr result (λ e. e ≡ FormFault.Overflow → lowest_fits (coefs_of self.now order.now) ≡ false) }
    {
        let coefs = lowest_coefs(alloc, self.terms(), order)?;
        Ok(Row { kind, coefs })
    }
}

// The coefficients of these keys in lowest whole numbers.
fn lowest_coefs(alloc: Global, terms: &[Term], order: &[Key]) -> Result<Vec<i128>, FormFault>
    ensures coefs { IfOk result (λ v. v.items ≡ lowest (coefs_of terms.now order.now)) }
    ensures row_fits { IfOk result (λ v. (j : ℕ) → Fits (at v.items j)) }
    ensures fits { IfOk result (λ v. lowest_fits (coefs_of terms.now order.now) ≡ true) }
    ensures overflow { IfErr result (λ e. e ≡ FormFault.Overflow → lowest_fits (coefs_of terms.now order.now) ≡ false) }
{
    let coefs = coefs_in_order(alloc, terms, order)?;
    let Ok(common) = common_denominator(coefs.as_slice()) else {
        return Err(FormFault::Overflow);
    };
    let mut whole = clear(alloc, coefs.as_slice(), common)?;
    reduce(&mut whole);
    Ok(whole)
}

// The coefficients of these keys.
fn coefs_in_order(alloc: Global, terms: &[Term], order: &[Key]) -> Result<Vec<Frac>, FormFault>
    ensures value { IfOk result (λ v. v.items ≡ coefs_of terms.now order.now) }
    ensures err { IfErr result (λ e. e ≡ FormFault.Memory) }
{
    let mut coefs = Vec::new(alloc);
    for key in order {
        if coefs.push(coef_at(terms, *key)).is_err() {
            return Err(FormFault::Memory);
        }
    }
    Ok(coefs)
}

// The least common multiple of the denominators, taken from the last one on.
fn common_denominator(coefs: &[Frac]) -> Result<i128, NoFit>
    ensures value { IfOk result (λ d. d ≡ pos (common_den coefs.now)) }
    ensures fits { IfOk result (λ d. (pos 0 <ℤ d) × Fits d) }
    ensures err { OnErr result (nat_lt (common_den coefs.now) (2 ^ 127) ≡ false) }
{
    let mut common = 1;
    let mut j = coefs.len();
    while j > 0 {
        j -= 1;
        common = with_denominator(coefs[j].den(), common)?;
    }
    Ok(common)
}

// Each fraction times a number that its denominator divides.
fn clear(alloc: Global, coefs: &[Frac], common: i128) -> Result<Vec<i128>, FormFault>
    requires above { pos 0 <ℤ common }
    requires fits { Fits common }
    ensures value { IfOk result (λ v. v.items ≡ cleared (unsigned_abs common) coefs.now) }
    ensures fit { IfOk result (λ v. all_fit v.items ≡ true) }
    ensures each_fits { IfOk result (λ v. (j : ℕ) → Fits (at v.items j)) }
    ensures overflow { IfErr result (λ e. e ≡ FormFault.Overflow → all_fit (cleared (unsigned_abs common) coefs.now) ≡ false) }
{
    let mut whole = Vec::new(alloc);
    for coef in coefs {
        let Ok(number) = cleared_number(coef, common) else {
            return Err(FormFault::Overflow);
        };
        if whole.push(number).is_err() {
            return Err(FormFault::Memory);
        }
    }
    Ok(whole)
}

// A numerator times the common multiple over its denominator.
fn cleared_number(coef: &Frac, common: i128) -> Result<i128, NoFit>
    requires above { pos 0 <ℤ common }
    requires fits { Fits common }
    ensures { OkIff result (Fits (cleared_at (unsigned_abs common) coef.now)) (cleared_at (unsigned_abs common) coef.now) }
{
    product(coef.num(), divide(common, coef.den()))
}
