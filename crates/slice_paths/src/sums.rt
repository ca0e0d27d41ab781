//! Sums of a core, over forms.
ghost use Rattle.std.specs.Prelude.{◌≡◌, length, IfOk, IfErr};
ghost use Rattle.slice_core.specs.WellFormed.{IsBound, AreBound};
ghost use Rattle.slice_linear.specs.declared.forms.FormFault.TheVariants as FormFault;
ghost use Rattle.slice_paths.specs.Sums.{SourceMeans, TermMeans, TermBreaks, IsAdded, AddedFit, RestMeans, RestBreaks, SumMeans, SumBreaks};

use slice_core::{Lin, LinTerm, Source};
use slice_linear::{Form, FormFault};
use slice_num::Memory;
use std::alloc::Global;

/// The form of a sum: its terms one after another, the first without its sign. Overflow comes exactly where a number of it
/// doesn't fit.
pub(crate) fn sum_form(alloc: Global, regs: &[Form], sum: &Lin) -> Result<Form, FormFault>
    requires bound { AreBound (length regs.now) sum.now.terms }
    ensures ok { IfOk result (λ f. SumMeans regs.now sum.now.terms f) }
    ensures err { IfErr result (λ e. e ≡ FormFault.Overflow → SumBreaks regs.now sum.now.terms) }
{
    match sum.terms.as_slice() {
        [] => match Form::of_keys(alloc, &[]) {
            Ok(none) => Ok(none),
            Err(Memory) => Err(FormFault::Memory),
        },
        [first, rest @ ..] => match term_form(alloc, regs, first) {
            Ok(total) => add_terms(alloc, total, regs, rest),
            Err(fault) => Err(fault),
        },
    }
}

// The total with the terms added to it, one after another.
fn add_terms(
    alloc: Global,
    total: Form,
    regs: &[Form],
    terms: &[LinTerm],
) -> Result<Form, FormFault>
    requires bound { AreBound (length regs.now) terms.now }
    ensures ok { IfOk result (λ f. RestMeans regs.now total terms.now f) }
    ensures err { IfErr result (λ e. e ≡ FormFault.Overflow → RestBreaks regs.now total terms.now) }
{
    match terms {
        [] => Ok(total),
        [term, rest @ ..] => match term_form(alloc, regs, term) {
            Err(fault) => Err(fault),
            Ok(form) => match add_term(alloc, &total, term.minus, &form) {
                Err(fault) => Err(fault),
                Ok(total) => add_terms(alloc, total, regs, rest),
            },
        },
    }
}

// The form added to the total, or subtracted from it.
fn add_term(alloc: Global, total: &Form, minus: bool, form: &Form) -> Result<Form, FormFault>
    ensures added { IfOk result (λ f. IsAdded minus total.now form.now f) }
    ensures fits { IfOk result (λ f. AddedFit minus total.now form.now) }
    ensures overflow { IfErr result (λ e. e ≡ FormFault.Overflow → AddedFit minus total.now form.now → ⊥) }
{
    if minus {
        total.sub(alloc, form)
    } else {
        total.add(alloc, form)
    }
}

// The form of a term, without its sign.
fn term_form(alloc: Global, regs: &[Form], term: &LinTerm) -> Result<Form, FormFault>
    requires bound { IsBound (length regs.now) term.now.source }
    ensures ok { IfOk result (λ f. TermMeans regs.now term.now f) }
    ensures err { IfErr result (λ e. e ≡ FormFault.Overflow → TermBreaks regs.now term.now) }
{
    let form = match source_form(alloc, regs, &term.source) {
        Ok(form) => form,
        Err(Memory) => return Err(FormFault::Memory),
    };
    match &term.factor {
        None => Ok(form),
        Some(factor) => form.scale(alloc, factor),
    }
}

// The form of a number that is known, or of a register.
fn source_form(alloc: Global, regs: &[Form], source: &Source) -> Result<Form, Memory>
    requires bound { IsBound (length regs.now) source.now }
    ensures { IfOk result (λ f. SourceMeans regs.now source.now f) }
{
    match source {
        Source::Const(value) => Form::whole(alloc, *value),
        Source::Reg(number) => regs[*number as usize].copy(alloc),
    }
}
