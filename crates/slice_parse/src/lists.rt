//! The rules of lists.
ghost use Rattle.std.specs.Prelude.{◌≡◌, ◌∷◌, IfOk, IfErr};
ghost use Rattle.slice_parse.specs.Combinators.{Tired, many};
ghost use Rattle.slice_parse.specs.Rules as spec;
ghost use Rattle.slice_parse.specs.Lexemes as lexemes;
ghost use Rattle.slice_parse.specs.Reads.{Reads};

use crate::cursor::{Cursor, Stop};
use crate::lexeme::Fixed;
use crate::sums::{MOST_MORE_TERMS, sum};
use slice_ast::{Arg, Name, Param};
use sqlite_items::Items;
use std::alloc::Global;

/// The items with one more before them.
pub fn before<T: Drop>(alloc: Global, first: T, more: Items<T>) -> Result<Items<T>, Stop>
    ensures found { IfOk result (λ all. all ≡ first ∷ more) }
    ensures memory { IfErr result (λ stop. stop ≡ Stop.Memory) }
{
    let mut all = Items::new(alloc);
    if all.push(first).is_err() || all.append(more).is_err() {
        return Err(Stop::Memory);
    }
    Ok(all)
}

#[tactic(auto, unfolding(crate::specs::Rules::after_comma))]
fn next_name(tokens: &mut Cursor<'_>) -> Result<Name, Stop>
    ensures { Reads (λ x. x) (spec.after_comma lexemes.name tokens.old) result tokens.new }
{
    tokens.expect(Fixed::Comma)?;
    tokens.name()
}

#[tactic(auto, unfolding(crate::specs::Combinators::many))]
fn more_names(turns: usize, tokens: &mut Cursor<'_>) -> Result<Items<Name>, Stop>
    ensures { Reads (λ xs. xs) (many Tired (lexemes.is Fixed.Comma) (spec.after_comma lexemes.name) turns tokens.old) result tokens.new }
{
    let mut found = Items::new(tokens.alloc());
    for _turn in 0..turns {
        if !tokens.sees(Fixed::Comma) {
            return Ok(found);
        }
        let next = next_name(tokens)?;
        if found.push(next).is_err() {
            return Err(Stop::Memory);
        }
    }
    if tokens.sees(Fixed::Comma) {
        Err(Stop::Tired)
    } else {
        Ok(found)
    }
}

/// One name or more.
#[tactic(auto, unfolding(crate::specs::Rules::names, crate::specs::Rules::listed))]
pub fn names(turns: usize, tokens: &mut Cursor<'_>) -> Result<Items<Name>, Stop>
    ensures { Reads (λ xs. xs) (spec.names turns tokens.old) result tokens.new }
{
    let first = tokens.name()?;
    let more = more_names(turns, tokens)?;
    before(tokens.alloc(), first, more)
}

/// `as` and names, or nothing.
#[tactic(auto, unfolding(crate::specs::Rules::as_names))]
pub fn as_names(turns: usize, tokens: &mut Cursor<'_>) -> Result<Items<Name>, Stop>
    ensures { Reads (λ xs. xs) (spec.as_names turns tokens.old) result tokens.new }
{
    if !tokens.sees(Fixed::As) {
        return Ok(Items::new(tokens.alloc()));
    }
    tokens.expect(Fixed::As)?;
    names(turns, tokens)
}

/// `yield` and names, or nothing.
#[tactic(auto, unfolding(crate::specs::Rules::yields))]
pub fn yields(turns: usize, tokens: &mut Cursor<'_>) -> Result<Items<Name>, Stop>
    ensures { Reads (λ xs. xs) (spec.yields turns tokens.old) result tokens.new }
{
    if !tokens.sees(Fixed::Yield) {
        return Ok(Items::new(tokens.alloc()));
    }
    tokens.expect(Fixed::Yield)?;
    let found = names(turns, tokens)?;
    tokens.expect(Fixed::Semicolon)?;
    Ok(found)
}

#[tactic(auto, unfolding(crate::specs::Rules::param))]
fn param(tokens: &mut Cursor<'_>) -> Result<Param, Stop>
    ensures { Reads (λ p. p) (spec.param tokens.old) result tokens.new }
{
    let kind = tokens.kind()?;
    let name = tokens.name()?;
    Ok(Param { kind, name })
}

#[tactic(auto, unfolding(crate::specs::Rules::after_comma))]
fn next_param(tokens: &mut Cursor<'_>) -> Result<Param, Stop>
    ensures { Reads (λ p. p) (spec.after_comma spec.param tokens.old) result tokens.new }
{
    tokens.expect(Fixed::Comma)?;
    param(tokens)
}

#[tactic(auto, unfolding(crate::specs::Combinators::many))]
fn more_params(turns: usize, tokens: &mut Cursor<'_>) -> Result<Items<Param>, Stop>
    ensures { Reads (λ ps. ps) (many Tired (lexemes.is Fixed.Comma) (spec.after_comma spec.param) turns tokens.old) result tokens.new }
{
    let mut found = Items::new(tokens.alloc());
    for _turn in 0..turns {
        if !tokens.sees(Fixed::Comma) {
            return Ok(found);
        }
        let next = next_param(tokens)?;
        if found.push(next).is_err() {
            return Err(Stop::Memory);
        }
    }
    if tokens.sees(Fixed::Comma) {
        Err(Stop::Tired)
    } else {
        Ok(found)
    }
}

#[tactic(auto, unfolding(crate::specs::Rules::listed))]
fn listed_params(turns: usize, tokens: &mut Cursor<'_>) -> Result<Items<Param>, Stop>
    ensures { Reads (λ ps. ps) (spec.listed spec.param turns tokens.old) result tokens.new }
{
    let first = param(tokens)?;
    let more = more_params(turns, tokens)?;
    before(tokens.alloc(), first, more)
}

/// Parameters in parentheses; there may be none.
#[tactic(auto, unfolding(crate::specs::Rules::params, crate::specs::Rules::in_parens))]
pub fn params(turns: usize, tokens: &mut Cursor<'_>) -> Result<Items<Param>, Stop>
    ensures { Reads (λ ps. ps) (spec.params turns tokens.old) result tokens.new }
{
    tokens.expect(Fixed::OpenParen)?;
    let found = if tokens.sees(Fixed::CloseParen) {
        Items::new(tokens.alloc())
    } else {
        listed_params(turns, tokens)?
    };
    tokens.expect(Fixed::CloseParen)?;
    Ok(found)
}

#[tactic(auto, unfolding(crate::specs::Rules::argument, crate::specs::Rules::agent_arg, crate::specs::Rules::piece_arg, crate::specs::Rules::number_arg))]
fn argument(tokens: &mut Cursor<'_>) -> Result<Arg, Stop>
    ensures { Reads (λ a. a) (spec.argument MOST_MORE_TERMS tokens.old) result tokens.new }
{
    if tokens.sees(Fixed::Agent) {
        tokens.expect(Fixed::Agent)?;
        Ok(Arg::Agent(tokens.agent_ref()?))
    } else if tokens.sees(Fixed::Piece) {
        tokens.expect(Fixed::Piece)?;
        Ok(Arg::Piece(tokens.name()?))
    } else {
        tokens.expect(Fixed::Number)?;
        Ok(Arg::Number(sum(tokens)?))
    }
}

#[tactic(auto, unfolding(crate::specs::Rules::after_comma))]
fn next_argument(tokens: &mut Cursor<'_>) -> Result<Arg, Stop>
    ensures { Reads (λ a. a) (spec.after_comma (spec.argument MOST_MORE_TERMS) tokens.old) result tokens.new }
{
    tokens.expect(Fixed::Comma)?;
    argument(tokens)
}

#[tactic(auto, unfolding(crate::specs::Combinators::many))]
fn more_args(turns: usize, tokens: &mut Cursor<'_>) -> Result<Items<Arg>, Stop>
    ensures { Reads (λ xs. xs) (many Tired (lexemes.is Fixed.Comma) (spec.after_comma (spec.argument MOST_MORE_TERMS)) turns tokens.old) result tokens.new }
{
    let mut found = Items::new(tokens.alloc());
    for _turn in 0..turns {
        if !tokens.sees(Fixed::Comma) {
            return Ok(found);
        }
        let next = next_argument(tokens)?;
        if found.push(next).is_err() {
            return Err(Stop::Memory);
        }
    }
    if tokens.sees(Fixed::Comma) {
        Err(Stop::Tired)
    } else {
        Ok(found)
    }
}

#[tactic(auto, unfolding(crate::specs::Rules::listed))]
fn listed_args(turns: usize, tokens: &mut Cursor<'_>) -> Result<Items<Arg>, Stop>
    ensures { Reads (λ xs. xs) (spec.listed (spec.argument MOST_MORE_TERMS) turns tokens.old) result tokens.new }
{
    let first = argument(tokens)?;
    let more = more_args(turns, tokens)?;
    before(tokens.alloc(), first, more)
}

/// Arguments in parentheses; there may be none.
#[tactic(auto, unfolding(crate::specs::Rules::args, crate::specs::Rules::in_parens))]
pub fn args(turns: usize, tokens: &mut Cursor<'_>) -> Result<Items<Arg>, Stop>
    ensures { Reads (λ xs. xs) (spec.args MOST_MORE_TERMS turns tokens.old) result tokens.new }
{
    tokens.expect(Fixed::OpenParen)?;
    let found = if tokens.sees(Fixed::CloseParen) {
        Items::new(tokens.alloc())
    } else {
        listed_args(turns, tokens)?
    };
    tokens.expect(Fixed::CloseParen)?;
    Ok(found)
}
