//! The rules of procedures and of the whole program.
ghost use Rattle.std.specs.Prelude.{◌≡◌, ◌+◌, ◌<◌, ◌^◌, map};
ghost use Rattle.slice_ast.specs.View.{proc_of, program_of};
ghost use Rattle.slice_parse.specs.Rules as spec;
ghost use Rattle.slice_parse.specs.Reads.{Reads};

use crate::cursor::{Cursor, Stop};
use crate::lexeme::Fixed;
use crate::lists::params;
use crate::statements::{block, statements};
use crate::sums::MOST_MORE_TERMS;
use slice_ast::{Proc, Program};
use sqlite_items::Items;

#[tactic(auto, unfolding(crate::specs::Rules::proc))]
fn proc(turns: usize, depth: u32, tokens: &mut Cursor<'_>) -> Result<Proc, Stop>
    ensures { Reads proc_of (spec.proc MOST_MORE_TERMS turns depth tokens.old) result tokens.new }
{
    tokens.expect(Fixed::Procedure)?;
    let name = tokens.name()?;
    let params = params(turns, tokens)?;
    let body = block(turns, depth, tokens)?;
    Ok(Proc {
        name,
        params,
        body: body.block,
    })
}

#[tactic(auto, unfolding(crate::specs::Rules::procs, crate::specs::Combinators::many))]
fn procs(turns: usize, depth: u32, tokens: &mut Cursor<'_>) -> Result<Items<Proc>, Stop>
    ensures { Reads (map proc_of) (spec.procs MOST_MORE_TERMS turns depth tokens.old) result tokens.new }
{
    let mut found = Items::new(tokens.alloc());
    for _turn in 0..turns {
        if !tokens.sees(Fixed::Procedure) {
            return Ok(found);
        }
        let next = proc(turns, depth, tokens)?;
        if found.push(next).is_err() {
            return Err(Stop::Memory);
        }
    }
    if tokens.sees(Fixed::Procedure) {
        Err(Stop::Tired)
    } else {
        Ok(found)
    }
}

/// A program with at most so many blocks inside the protocol's own, one inside the other.
#[tactic(auto, unfolding(crate::specs::Rules::program), using(crate::proofs::Deeper::one_deeper))]
pub fn program(turns: usize, depth: u32, tokens: &mut Cursor<'_>) -> Result<Program, Stop>
    requires { depth + 1 < 2 ^ 32 }
    ensures { Reads program_of (spec.program MOST_MORE_TERMS turns depth tokens.old) result tokens.new }
{
    let procs = procs(turns, depth + 1, tokens)?;
    tokens.expect(Fixed::Protocol)?;
    let name = tokens.name()?;
    tokens.expect(Fixed::Agents)?;
    let agents = tokens.number()?;
    tokens.expect(Fixed::OpenBrace)?;
    let body = statements(turns, depth, tokens)?;
    tokens.expect(Fixed::CloseBrace)?;
    tokens.finish()?;
    Ok(Program {
        procs,
        name,
        agents,
        body,
    })
}
