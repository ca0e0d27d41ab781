//! Sums over registers.
ghost use Rattle.std.specs.Prelude.{◌≡◌};
ghost use Rattle.slice_num.specs.Fitting.{fitting_of};
ghost use Rattle.slice_core.specs.Run.{source_value};
ghost use Rattle.slice_run.specs.Sums.{term_in, lin_in};

use slice_core::{Lin, LinTerm, Source};
use slice_num::{Frac, NoFit};

// The number that is known, or that of the register; a register that wasn't set holds 0.
fn source_value(registers: &[Frac], source: &Source) -> Frac
    ensures { result ≡ source_value registers.now source.now }
{
    match source {
        Source::Const(value) => *value,
        Source::Reg(number) => match registers.get(*number as usize) {
            Some(value) => *value,
            None => Frac::whole(0),
        },
    }
}

// A term without its sign: the factor times the operand, or the operand alone.
fn term_value(registers: &[Frac], term: &LinTerm) -> Result<Frac, NoFit>
    ensures { fitting_of result ≡ term_in registers.now term.now }
{
    let value = source_value(registers, &term.source);
    match &term.factor {
        Some(factor) => factor.mul(&value),
        None => Ok(value),
    }
}

/// The sum: the first term, and then each further one is made and added or subtracted. `NoFit` comes exactly where a
/// number on the way doesn't fit.
pub(crate) fn sum_value(registers: &[Frac], sum: &Lin) -> Result<Frac, NoFit>
    ensures { fitting_of result ≡ lin_in registers.now sum.now.terms }
{
    let terms = sum.terms.as_slice();
    if terms.is_empty() {
        return Ok(Frac::whole(0));
    }
    let mut total = term_value(registers, &terms[0])?;
    for i in 1..terms.len() {
        let term = &terms[i];
        let value = term_value(registers, term)?;
        total = if term.minus {
            total.sub(&value)?
        } else {
            total.add(&value)?
        };
    }
    Ok(total)
}
