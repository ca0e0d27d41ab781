//! The rules of statements and blocks.
ghost use Rattle.std.specs.Prelude.{◌≡◌, map};
ghost use Rattle.slice_ast.specs.View.{head_of};
ghost use Rattle.slice_parse.specs.Rules as spec;
ghost use Rattle.slice_parse.specs.Reads.{Reads};
ghost use Rattle.slice_parse.specs.Views.{braced_of};

use crate::cursor::{Cursor, Stop};
use crate::lexeme::Fixed;
use crate::lists::{args, as_names, names, yields};
use crate::sums::{MOST_MORE_TERMS, sum};
use slice_ast::{Block, Name, Stmt};
use sqlite_items::Items;

/// The names at the end of an `if`, and the place of its last token.
#[derive(Drop)]
pub struct Ended {
    pub names: Items<Name>,
    pub end: usize,
}

/// A block, and the place of the brace that closes it.
#[derive(Drop)]
pub struct ClosedBlock {
    pub block: Block,
    pub close: usize,
}

#[tactic(auto, unfolding(crate::specs::Rules::cut_head))]
fn cut(tokens: &mut Cursor<'_>) -> Result<Stmt, Stop>
    ensures { Reads head_of (spec.cut_head MOST_MORE_TERMS tokens.old) result tokens.new }
{
    tokens.expect(Fixed::Cut)?;
    let agent = tokens.agent_ref()?;
    let piece = tokens.name()?;
    tokens.expect(Fixed::At)?;
    let amount = sum(tokens)?;
    tokens.expect(Fixed::As)?;
    let left = tokens.name()?;
    tokens.expect(Fixed::Comma)?;
    let right = tokens.name()?;
    tokens.expect(Fixed::Semicolon)?;
    Ok(Stmt::Cut {
        agent,
        piece,
        amount,
        left,
        right,
    })
}

#[tactic(auto, unfolding(crate::specs::Rules::let_head))]
fn let_(tokens: &mut Cursor<'_>) -> Result<Stmt, Stop>
    ensures { Reads head_of (spec.let_head MOST_MORE_TERMS tokens.old) result tokens.new }
{
    tokens.expect(Fixed::Let)?;
    let name = tokens.name()?;
    tokens.expect(Fixed::Equals)?;
    let sum = sum(tokens)?;
    tokens.expect(Fixed::Semicolon)?;
    Ok(Stmt::Let { name, sum })
}

#[tactic(auto, unfolding(crate::specs::Rules::join_head))]
fn join(tokens: &mut Cursor<'_>) -> Result<Stmt, Stop>
    ensures { Reads head_of (spec.join_head tokens.old) result tokens.new }
{
    tokens.expect(Fixed::Join)?;
    let first = tokens.name()?;
    tokens.expect(Fixed::Comma)?;
    let second = tokens.name()?;
    tokens.expect(Fixed::As)?;
    let name = tokens.name()?;
    tokens.expect(Fixed::Semicolon)?;
    Ok(Stmt::Join {
        first,
        second,
        name,
    })
}

#[tactic(auto, unfolding(crate::specs::Rules::give_head))]
fn give(tokens: &mut Cursor<'_>) -> Result<Stmt, Stop>
    ensures { Reads head_of (spec.give_head tokens.old) result tokens.new }
{
    tokens.expect(Fixed::Give)?;
    let piece = tokens.name()?;
    tokens.expect(Fixed::To)?;
    let agent = tokens.agent_ref()?;
    tokens.expect(Fixed::Semicolon)?;
    Ok(Stmt::Give { piece, agent })
}

#[tactic(auto, unfolding(crate::specs::Rules::pick_head))]
fn pick(turns: usize, tokens: &mut Cursor<'_>) -> Result<Stmt, Stop>
    ensures { Reads head_of (spec.pick_head turns tokens.old) result tokens.new }
{
    tokens.expect(Fixed::Pick)?;
    let agent = tokens.agent_ref()?;
    tokens.expect(Fixed::From)?;
    let pieces = names(turns, tokens)?;
    tokens.expect(Fixed::As)?;
    let names = names(turns, tokens)?;
    let end = tokens.expect(Fixed::Semicolon)?;
    Ok(Stmt::Pick {
        agent,
        pieces,
        names,
        end,
    })
}

#[tactic(auto, unfolding(crate::specs::Rules::call_head))]
fn call(turns: usize, tokens: &mut Cursor<'_>) -> Result<Stmt, Stop>
    ensures { Reads head_of (spec.call_head MOST_MORE_TERMS turns tokens.old) result tokens.new }
{
    tokens.expect(Fixed::Call)?;
    let callee = tokens.name()?;
    let args = args(turns, tokens)?;
    let names = as_names(turns, tokens)?;
    let end = tokens.expect(Fixed::Semicolon)?;
    Ok(Stmt::Call {
        callee,
        args,
        names,
        end,
    })
}

// What stands behind the second block of an `if`, which closes at this place.
#[tactic(auto, unfolding(crate::specs::Rules::if_end))]
fn if_end(turns: usize, close: usize, tokens: &mut Cursor<'_>) -> Result<Ended, Stop>
    ensures { Reads (λ e. e) (spec.if_end turns close tokens.old) result tokens.new }
{
    if !tokens.sees(Fixed::As) {
        return Ok(Ended {
            names: Items::new(tokens.alloc()),
            end: close,
        });
    }
    tokens.expect(Fixed::As)?;
    let names = names(turns, tokens)?;
    let end = tokens.expect(Fixed::Semicolon)?;
    Ok(Ended { names, end })
}

#[cycle(blocks)]
#[tactic(auto, unfolding(crate::specs::Rules::if_head))]
fn if_(turns: usize, depth: u32, tokens: &mut Cursor<'_>) -> Result<Stmt, Stop>
    ensures { Reads head_of (spec.if_head MOST_MORE_TERMS turns (spec.block MOST_MORE_TERMS turns depth) tokens.old) result tokens.new }
{
    tokens.expect(Fixed::If)?;
    let left = sum(tokens)?;
    let cmp = tokens.comparison()?;
    let right = sum(tokens)?;
    let yes = block(turns, depth, tokens)?;
    tokens.expect(Fixed::Else)?;
    let no = block(turns, depth, tokens)?;
    let ended = if_end(turns, no.close, tokens)?;
    Ok(Stmt::If {
        left,
        cmp,
        right,
        yes: yes.block,
        no: no.block,
        names: ended.names,
        end: ended.end,
    })
}

#[cycle(blocks)]
#[tactic(auto, unfolding(crate::specs::Rules::head))]
fn statement(turns: usize, depth: u32, tokens: &mut Cursor<'_>) -> Result<Stmt, Stop>
    ensures { Reads head_of (spec.head MOST_MORE_TERMS turns (spec.block MOST_MORE_TERMS turns depth) tokens.old) result tokens.new }
{
    if tokens.sees(Fixed::Cut) {
        cut(tokens)
    } else if tokens.sees(Fixed::Let) {
        let_(tokens)
    } else if tokens.sees(Fixed::Join) {
        join(tokens)
    } else if tokens.sees(Fixed::Give) {
        give(tokens)
    } else if tokens.sees(Fixed::If) {
        if_(turns, depth, tokens)
    } else if tokens.sees(Fixed::Pick) {
        pick(turns, tokens)
    } else {
        call(turns, tokens)
    }
}

/// Statements in a row, whose blocks have at most so many blocks, one inside the other.
#[cycle(blocks)]
#[tactic(auto, unfolding(crate::specs::Rules::heads, crate::specs::Combinators::many))]
pub fn statements(turns: usize, depth: u32, tokens: &mut Cursor<'_>) -> Result<Items<Stmt>, Stop>
    ensures { Reads (map head_of) (spec.heads MOST_MORE_TERMS turns (spec.block MOST_MORE_TERMS turns depth) tokens.old) result tokens.new }
{
    let mut found = Items::new(tokens.alloc());
    for _turn in 0..turns {
        if !tokens.sees_statement() {
            return Ok(found);
        }
        let next = statement(turns, depth, tokens)?;
        if found.push(next).is_err() {
            return Err(Stop::Memory);
        }
    }
    if tokens.sees_statement() {
        Err(Stop::Tired)
    } else {
        Ok(found)
    }
}

/// A block of at most so many blocks, one inside the other.
#[cycle(blocks)]
#[tactic(auto, unfolding(crate::specs::Rules::block), using(crate::proofs::Deeper::block_inside))]
pub fn block(turns: usize, depth: u32, tokens: &mut Cursor<'_>) -> Result<ClosedBlock, Stop>
    ensures { Reads braced_of (spec.block MOST_MORE_TERMS turns depth tokens.old) result tokens.new }
{
    if depth == 0 {
        let fault = if tokens.sees(Fixed::OpenBrace) {
            Stop::Deep
        } else {
            Stop::Syntax
        };
        return Err(fault);
    }
    body(turns, depth - 1, tokens)
}

#[cycle(blocks)]
#[tactic(auto, unfolding(crate::specs::Rules::body))]
fn body(turns: usize, depth: u32, tokens: &mut Cursor<'_>) -> Result<ClosedBlock, Stop>
    ensures { Reads braced_of (spec.body MOST_MORE_TERMS turns (spec.block MOST_MORE_TERMS turns depth) tokens.old) result tokens.new }
{
    tokens.expect(Fixed::OpenBrace)?;
    let stmts = statements(turns, depth, tokens)?;
    let yields = yields(turns, tokens)?;
    let close = tokens.expect(Fixed::CloseBrace)?;
    Ok(ClosedBlock {
        block: Block { stmts, yields },
        close,
    })
}
