//! Lists of terms whose keys rise.
ghost use Rattle.std.specs.Prelude.{◌≡◌, ◌∷◌, [], pos, IfOk, IfErr, OnOk, OnErr, ◌++◌, true, false, if◌then◌else◌};
ghost use Rattle.slice_num.specs.Rational.{times, negated, whole};
ghost use Rattle.slice_num.specs.Fitting.{rational_fits};
ghost use Rattle.slice_num.specs.declared.key.Key.{Key};
ghost use Rattle.slice_linear.specs.Terms.{is_same, is_zero, coef_of, raw_sum_fits, SumsFit, ProductsFit, IsFormSum, IsFormMultiple};
ghost use Rattle.slice_linear.specs.TermOrder.{is_before, AreTerms};
ghost use Rattle.slice_linear.specs.TermSteps.{kept, both, multiple};

use crate::forms::{FormFault, Term};
use slice_num::{Frac, Key, Memory};
use std::alloc::Global;

// The coefficient of a key.
pub(crate) fn coef_at(terms: &[Term], key: Key) -> Frac
    ensures { result ≡ coef_of terms.now key }
{
    for term in terms {
        if term.key == key {
            return term.coef;
        }
    }
    Frac::whole(0)
}

// Appends a term.
pub(crate) fn put(terms: &mut Vec<Term>, term: Term) -> Result<(), Memory>
    ensures { OnOk result (terms.new.items ≡ terms.old.items ++ term ∷ []) }
{
    if terms.push(term).is_err() {
        return Err(Memory);
    }
    Ok(())
}

// The terms but for that of one key.
pub(crate) fn without(alloc: Global, terms: &[Term], key: Key) -> Result<Vec<Term>, Memory>
    requires { AreTerms terms.now }
    ensures coefs { IfOk result (λ v. (k : Key) → coef_of v.items k ≡ (if is_same key k then whole (pos 0) else coef_of terms.now k)) }
    ensures terms { IfOk result (λ v. AreTerms v.items) }
{
    let mut rest = Vec::new(alloc);
    for term in terms {
        if term.key != key {
            put(&mut rest, *term)?;
        }
    }
    Ok(rest)
}

// Puts a term for a key that has none at its place.
pub(crate) fn place(terms: &mut Vec<Term>, term: Term) -> Result<(), Memory>
    requires terms { AreTerms terms.old.items }
    requires some { is_zero term.coef ≡ false }
    requires none { coef_of terms.old.items term.key ≡ whole (pos 0) }
    ensures coefs { OnOk result ((k : Key) → coef_of terms.new.items k ≡ (if is_same term.key k then term.coef else coef_of terms.old.items k)) }
    ensures terms { OnOk result (AreTerms terms.new.items) }
{
    let mut at = 0;
    while at < terms.len() && before(terms[at].key, term.key) {
        at += 1;
    }
    if terms.insert(at, term).is_err() {
        return Err(Memory);
    }
    Ok(())
}

// The terms with their coefficients negated.
pub(crate) fn negate(alloc: Global, terms: &[Term]) -> Result<Vec<Term>, Memory>
    requires { AreTerms terms.now }
    ensures coefs { IfOk result (λ v. (k : Key) → coef_of v.items k ≡ negated (coef_of terms.now k)) }
    ensures terms { IfOk result (λ v. AreTerms v.items) }
{
    let mut made = Vec::new(alloc);
    for term in terms {
        let term = Term {
            key: term.key,
            coef: term.coef.negated(),
        };
        put(&mut made, term)?;
    }
    Ok(made)
}

// The terms times a number; those that come to 0 go.
pub(crate) fn scale_terms(
    alloc: Global,
    terms: &[Term],
    factor: &Frac,
) -> Result<Vec<Term>, FormFault>
    requires { AreTerms terms.now }
    ensures multiple { IfOk result (λ v. IsFormMultiple factor.now terms.now v.items) }
    ensures fits { IfOk result (λ v. ProductsFit factor.now terms.now) }
    ensures terms { IfOk result (λ v. AreTerms v.items) }
    ensures overflow { IfErr result (λ e. e ≡ FormFault.Overflow → ProductsFit factor.now terms.now → ⊥) }
{
    let mut made = Vec::new(alloc);
    for term in terms {
        if let Err(fault) = put_product(&mut made, term, factor) {
            return Err(fault);
        }
    }
    Ok(made)
}

// Appends the term times a number, unless that is 0.
fn put_product(terms: &mut Vec<Term>, term: &Term, factor: &Frac) -> Result<(), FormFault>
    ensures put { OnOk result (terms.new.items ≡ terms.old.items ++ kept (multiple factor.now term.now) []) }
    ensures fits { OnOk result (rational_fits (times factor.now term.now.coef) ≡ true) }
    ensures overflow { IfErr result (λ e. e ≡ FormFault.Overflow → rational_fits (times factor.now term.now.coef) ≡ false) }
{
    let Ok(coef) = factor.mul(&term.coef) else {
        return Err(FormFault::Overflow);
    };
    if coef.num() != 0 {
        put(
            terms,
            Term {
                key: term.key,
                coef,
            },
        )?;
    }
    Ok(())
}

// Whether a key comes before another: by agent, and for one agent by atom.
fn before(a: Key, b: Key) -> bool
    ensures { result ≡ is_before a b }
{
    a.agent < b.agent || (a.agent == b.agent && a.atom < b.atom)
}

// The sum of two lists of terms, merged by key.
pub(crate) fn merge_terms(alloc: Global, xs: &[Term], ys: &[Term]) -> Result<Vec<Term>, FormFault>
    requires left { AreTerms xs.now }
    requires right { AreTerms ys.now }
    ensures sum { IfOk result (λ v. IsFormSum xs.now ys.now v.items) }
    ensures fits { IfOk result (λ v. SumsFit xs.now ys.now) }
    ensures terms { IfOk result (λ v. AreTerms v.items) }
    ensures overflow { IfErr result (λ e. e ≡ FormFault.Overflow → SumsFit xs.now ys.now → ⊥) }
{
    let mut made = Vec::new(alloc);
    let mut i = 0;
    let mut j = 0;
    while i < xs.len() || j < ys.len() {
        if j >= ys.len() {
            put(&mut made, xs[i])?;
            i += 1;
        } else if i >= xs.len() {
            put(&mut made, ys[j])?;
            j += 1;
        } else if before(xs[i].key, ys[j].key) {
            put(&mut made, xs[i])?;
            i += 1;
        } else if before(ys[j].key, xs[i].key) {
            put(&mut made, ys[j])?;
            j += 1;
        } else {
            if let Err(fault) = put_sum(&mut made, &xs[i], &ys[j]) {
                return Err(fault);
            }
            i += 1;
            j += 1;
        }
    }
    Ok(made)
}

// Appends the sum of two terms of one key, unless it is 0.
fn put_sum(terms: &mut Vec<Term>, x: &Term, y: &Term) -> Result<(), FormFault>
    ensures put { OnOk result (terms.new.items ≡ terms.old.items ++ kept (both x.now y.now) []) }
    ensures fits { OnOk result (raw_sum_fits x.now.coef y.now.coef ≡ true) }
    ensures overflow { IfErr result (λ e. e ≡ FormFault.Overflow → raw_sum_fits x.now.coef y.now.coef ≡ false) }
{
    let Ok(coef) = x.coef.add(&y.coef) else {
        return Err(FormFault::Overflow);
    };
    if coef.num() != 0 {
        put(terms, Term { key: x.key, coef })?;
    }
    Ok(())
}
