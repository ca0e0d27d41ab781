//! The rules of sums.
ghost use Rattle.std.specs.Prelude.{◌≡◌};
ghost use Rattle.slice_parse.specs.Rules as spec;
ghost use Rattle.slice_parse.specs.Reads.{Reads};

use crate::cursor::{Cursor, Stop};
use crate::lexeme::Fixed;
use crate::lists::before;
use slice_ast::{Fraction, Number, Operand, Sum, Term};
use sqlite_items::Items;

/// How many terms a sum may have after its first.
pub const MOST_MORE_TERMS: usize = 63;

#[tactic(auto, unfolding(crate::specs::Rules::denominator))]
fn denominator(tokens: &mut Cursor<'_>) -> Result<Option<Number>, Stop>
    ensures { Reads (λ d. d) (spec.denominator tokens.old) result tokens.new }
{
    if !tokens.sees(Fixed::Slash) {
        return Ok(None);
    }
    tokens.expect(Fixed::Slash)?;
    Ok(Some(tokens.number()?))
}

#[tactic(auto, unfolding(crate::specs::Rules::fraction))]
fn fraction(tokens: &mut Cursor<'_>) -> Result<Fraction, Stop>
    ensures { Reads (λ f. f) (spec.fraction tokens.old) result tokens.new }
{
    let num = tokens.number()?;
    let den = denominator(tokens)?;
    Ok(Fraction { num, den })
}

#[tactic(auto, unfolding(crate::specs::Rules::value_operand))]
fn value_operand(tokens: &mut Cursor<'_>) -> Result<Operand, Stop>
    ensures { Reads (λ o. o) (spec.value_operand tokens.old) result tokens.new }
{
    tokens.expect(Fixed::Value)?;
    tokens.expect(Fixed::OpenParen)?;
    let agent = tokens.agent_ref()?;
    tokens.expect(Fixed::Comma)?;
    let piece = tokens.name()?;
    tokens.expect(Fixed::CloseParen)?;
    Ok(Operand::Value { agent, piece })
}

// An operand that begins with no number.
#[tactic(auto, unfolding(crate::specs::Rules::plain_operand, crate::specs::Rules::named_operand))]
fn plain_operand(tokens: &mut Cursor<'_>) -> Result<Operand, Stop>
    ensures { Reads (λ o. o) (spec.plain_operand tokens.old) result tokens.new }
{
    if tokens.sees(Fixed::Value) {
        value_operand(tokens)
    } else {
        Ok(Operand::Named(tokens.name()?))
    }
}

#[tactic(auto, unfolding(crate::specs::Rules::operand_rule, crate::specs::Rules::fraction_operand))]
fn operand(tokens: &mut Cursor<'_>) -> Result<Operand, Stop>
    ensures { Reads (λ o. o) (spec.operand_rule tokens.old) result tokens.new }
{
    if tokens.sees_number() {
        Ok(Operand::Fraction(fraction(tokens)?))
    } else {
        plain_operand(tokens)
    }
}

// A fraction is a factor where `*` comes behind it, and else an operand.
#[tactic(auto, unfolding(crate::specs::Rules::fraction_term, crate::specs::Rules::after_fraction))]
fn fraction_term(minus: bool, tokens: &mut Cursor<'_>) -> Result<Term, Stop>
    ensures { Reads (λ t. t) (spec.fraction_term minus tokens.old) result tokens.new }
{
    let first = fraction(tokens)?;
    if !tokens.sees(Fixed::Star) {
        return Ok(Term {
            minus,
            factor: None,
            operand: Operand::Fraction(first),
        });
    }
    tokens.expect(Fixed::Star)?;
    let operand = operand(tokens)?;
    Ok(Term {
        minus,
        factor: Some(first),
        operand,
    })
}

// A term behind its sign.
#[tactic(auto, unfolding(crate::specs::Rules::term, crate::specs::Rules::plain_term))]
fn term(minus: bool, tokens: &mut Cursor<'_>) -> Result<Term, Stop>
    ensures { Reads (λ t. t) (spec.term minus tokens.old) result tokens.new }
{
    if tokens.sees_number() {
        fraction_term(minus, tokens)
    } else {
        let operand = plain_operand(tokens)?;
        Ok(Term {
            minus,
            factor: None,
            operand,
        })
    }
}

#[tactic(auto, unfolding(crate::specs::Rules::signed_term))]
fn signed_term(tokens: &mut Cursor<'_>) -> Result<Term, Stop>
    ensures { Reads (λ t. t) (spec.signed_term tokens.old) result tokens.new }
{
    let minus = tokens.sign()?;
    term(minus, tokens)
}

// At most so many terms, each behind its sign.
#[tactic(auto, unfolding(crate::specs::Rules::more_terms, crate::specs::Combinators::many))]
fn more_terms(most: usize, tokens: &mut Cursor<'_>) -> Result<Items<Term>, Stop>
    ensures { Reads (λ ts. ts) (spec.more_terms most tokens.old) result tokens.new }
{
    let mut found = Items::new(tokens.alloc());
    for _turn in 0..most {
        if !tokens.sees_sign() {
            return Ok(found);
        }
        let next = signed_term(tokens)?;
        if found.push(next).is_err() {
            return Err(Stop::Memory);
        }
    }
    if tokens.sees_sign() {
        Err(Stop::Long)
    } else {
        Ok(found)
    }
}

/// A sum of at most 64 terms.
#[tactic(auto, unfolding(crate::specs::Rules::sum))]
pub fn sum(tokens: &mut Cursor<'_>) -> Result<Sum, Stop>
    ensures { Reads (λ s. s) (spec.sum MOST_MORE_TERMS tokens.old) result tokens.new }
{
    let first = term(false, tokens)?;
    let more = more_terms(MOST_MORE_TERMS, tokens)?;
    let terms = before(tokens.alloc(), first, more)?;
    Ok(Sum { terms })
}
