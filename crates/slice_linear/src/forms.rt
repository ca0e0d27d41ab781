//! Forms, and what is made of them.
ghost use Rattle.std.specs.Prelude.{◌≡◌, pos, IfOk, IfErr, false};
ghost use Rattle.slice_num.specs.Rational.{whole};
ghost use Rattle.slice_linear.specs.TermOrder.{AreTerms};
ghost use Rattle.slice_linear.specs.Terms.{is_same, coef_of, SumsFit, DifferencesFit, ProductsFit, IsFormSum, IsFormDifference, IsFormMultiple, IsWholeForm, IsKeySum, IsReplaced, AreDifferent};

use crate::terms::{coef_at, merge_terms, negate, place, put, scale_terms, without};
use slice_num::{Frac, Key, Memory};
use std::alloc::Global;
use std::marker::Model;

/// An unknown, and how many times it is taken.
#[derive(Clone, Copy, Debug, PartialEq, Eq)]
pub struct Term {
    /// The unknown.
    pub key: Key,
    /// How many times it is taken.
    pub coef: Frac,
}

/// A sum of unknowns, each with a coefficient. Contracts see it as the list of its terms, which have rising keys and no
/// coefficient of 0, so that forms with the same coefficients are the same.
#[derive(Drop)]
pub struct Form {
    terms: Vec<Term>,
}

impl Model for Form {
    ghost use Rattle.std.specs.Prelude.{List};
    ghost use Rattle.slice_linear.specs.declared.forms.Term.{Term};

    ghost Value = { List Term };

    ghost use Rattle.slice_linear.specs.TermOrder.{AreTerms};

    ghost view = { λ f. f.terms.items };

    ghost invariant = { λ f. AreTerms f.terms.items };
}

/// Why a form or a row wasn't made.
#[derive(Clone, Copy, Debug, PartialEq, Eq)]
pub enum FormFault {
    /// A number doesn't fit.
    Overflow,
    /// No memory was left.
    Memory,
}

impl From<Memory> for FormFault {
    ghost use Rattle.slice_linear.specs.declared.forms.FormFault.TheVariants as fault;

    ghost from_gives = { λ _ e. e ≡ fault.Memory };

    fn from(_memory: Memory) -> FormFault {
        FormFault::Memory
    }
}

impl Form {
    /// The same form once more. `Err` comes only for want of memory.
    pub fn copy(&self, alloc: Global) -> Result<Form, Memory>
        ensures { IfOk result (λ f. f ≡ self.now) }
    {
        let terms = Vec::from_slice(alloc, self.terms.as_slice())?;
        Ok(Form { terms })
    }

    /// The whole, so many times. `Err` comes only for want of memory.
    pub fn whole(alloc: Global, factor: Frac) -> Result<Form, Memory>
        ensures { IfOk result (λ f. IsWholeForm factor f) }
    {
        let mut terms = Vec::new(alloc);
        if factor.num() != 0 {
            let key = Key { agent: 0, atom: 0 };
            put(&mut terms, Term { key, coef: factor })?;
        }
        Ok(Form { terms })
    }

    /// The sum of these unknowns, which are different ones, in any order. `Err` comes only for want of memory.
    pub fn of_keys(alloc: Global, keys: &[Key]) -> Result<Form, Memory>
        requires { AreDifferent keys.now }
        ensures { IfOk result (λ f. IsKeySum keys.now f) }
    {
        let mut terms = Vec::new(alloc);
        for key in keys {
            let one = Term {
                key: *key,
                coef: Frac::whole(1),
            };
            place(&mut terms, one)?;
        }
        Ok(Form { terms })
    }

    /// The sum, coefficient by coefficient. Overflow comes exactly where a sum of two coefficients doesn't fit.
    pub fn add(&self, alloc: Global, other: &Form) -> Result<Form, FormFault>
        ensures sum { IfOk result (λ f. IsFormSum self.now other.now f) }
        ensures fits { IfOk result (λ f. SumsFit self.now other.now) }
        ensures overflow { IfErr result (λ e. e ≡ FormFault.Overflow → SumsFit self.now other.now → ⊥) }
    {
        let terms = merge_terms(alloc, self.terms(), other.terms())?;
        Ok(Form { terms })
    }

    /// The difference: the sum with the other form's coefficients negated. Overflow comes exactly where a sum of two of
    /// these coefficients doesn't fit.
    pub fn sub(&self, alloc: Global, other: &Form) -> Result<Form, FormFault>
        ensures difference { IfOk result (λ f. IsFormDifference self.now other.now f) }
        ensures fits { IfOk result (λ f. DifferencesFit self.now other.now) }
        ensures overflow { IfErr result (λ e. e ≡ FormFault.Overflow → DifferencesFit self.now other.now → ⊥) }
    {
        let negated = negate(alloc, other.terms())?;
        let terms = merge_terms(alloc, self.terms(), negated.as_slice())?;
        Ok(Form { terms })
    }

    /// The form times a number, coefficient by coefficient. Overflow comes exactly where a product doesn't fit.
    pub fn scale(&self, alloc: Global, factor: &Frac) -> Result<Form, FormFault>
        ensures multiple { IfOk result (λ f. IsFormMultiple factor.now self.now f) }
        ensures fits { IfOk result (λ f. ProductsFit factor.now self.now) }
        ensures overflow { IfErr result (λ e. e ≡ FormFault.Overflow → ProductsFit factor.now self.now → ⊥) }
    {
        let terms = scale_terms(alloc, self.terms(), factor)?;
        Ok(Form { terms })
    }

    /// Two unknowns take the place of one, as where an atom is cut: both have its coefficient then. They are different
    /// ones, and the form has neither. `Err` comes only for want of memory.
    pub fn replace(&self, alloc: Global, old: Key, left: Key, right: Key) -> Result<Form, Memory>
        requires differ { is_same left right ≡ false }
        requires no_left { coef_of self.now left ≡ whole (pos 0) }
        requires no_right { coef_of self.now right ≡ whole (pos 0) }
        ensures { IfOk result (λ f. IsReplaced old left right self.now f) }
    {
        let mut terms = without(alloc, self.terms(), old)?;
        let coef = coef_at(self.terms(), old);
        if coef.num() == 0 {
            return Ok(Form { terms });
        }
        place(&mut terms, Term { key: left, coef })?;
        place(&mut terms, Term { key: right, coef })?;
        Ok(Form { terms })
    }

    // The terms, by rising key.
    pub(crate) fn terms(&self) -> &[Term]
        ensures value { result.now ≡ self.now }
        ensures terms { AreTerms result.now }
    {
        self.terms.as_slice()
    }
}
