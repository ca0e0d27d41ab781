//! Statements that make no arms, and the arguments of calls.
ghost use Rattle.std.specs.Prelude.{◌≡◌, MatchResult, IfOk, OnOk};
ghost use Rattle.slice_expand.specs.Stand.{meaning_of, meanings_of};
ghost use Rattle.slice_expand.specs.Trail.{Good, FaultIs, cut_in, let_in, join_in, give_in, arg_in, args_in, call_in};

use crate::fault::ExpandFault;
use crate::names::{Meaning, Names};
use crate::sums::ask_sum;
use crate::trail::Trail;
use slice_ast::{AgentRef, Arg, Name, Sum};
use std::alloc::Global;

/// What a cut is made of.
#[derive(Clone, Copy, Drop)]
pub struct Cut<'a> {
    pub agent: &'a AgentRef,
    pub piece: &'a Name,
    pub amount: &'a Sum,
    pub left: &'a Name,
    pub right: &'a Name,
}

/// A cut: its queries, the cut and its two names.
pub fn cut_piece<'a>(
    alloc: Global,
    cut: Cut<'a>,
    names: &mut Names<'a>,
    trail: &mut Trail,
) -> Result<(), ExpandFault>
    ensures { MatchResult result (λ u. cut_in cut.entry.agent.now cut.entry.piece.now cut.entry.amount.now cut.entry.left.now cut.entry.right.now names.old trail.old ≡ Good (names.new, trail.new)) (λ e. FaultIs e (cut_in cut.entry.agent.now cut.entry.piece.now cut.entry.amount.now cut.entry.left.now cut.entry.right.now names.old trail.old)) }
{
    let amount = ask_sum(alloc, names, cut.amount, trail)?;
    let agent = names.agent(cut.agent)?;
    let piece = names.piece(cut.piece);
    let left = trail.pieces;
    let right = left + 1;
    trail.cut(agent, piece, amount)?;
    if names.bind(alloc, cut.left, Meaning::Piece(left)).is_err() {
        return Err(ExpandFault::Memory);
    }
    if names.bind(alloc, cut.right, Meaning::Piece(right)).is_err() {
        return Err(ExpandFault::Memory);
    }
    Ok(())
}

/// A number: its queries, its sum in a register, and its name.
pub fn let_number<'a>(
    alloc: Global,
    name: &'a Name,
    sum: &Sum,
    names: &mut Names<'a>,
    trail: &mut Trail,
) -> Result<(), ExpandFault>
    ensures { MatchResult result (λ u. let_in name.now sum.now names.old trail.old ≡ Good (names.new, trail.new)) (λ e. FaultIs e (let_in name.now sum.now names.old trail.old)) }
{
    let sum = ask_sum(alloc, names, sum, trail)?;
    let reg = trail.regs;
    trail.set(sum)?;
    if names.bind(alloc, name, Meaning::Number(reg)).is_err() {
        return Err(ExpandFault::Memory);
    }
    Ok(())
}

/// A join and its name.
pub fn join_pieces<'a>(
    alloc: Global,
    first: &Name,
    second: &Name,
    name: &'a Name,
    names: &mut Names<'a>,
    trail: &mut Trail,
) -> Result<(), ExpandFault>
    ensures { MatchResult result (λ u. join_in first.now second.now name.now names.old trail.old ≡ Good (names.new, trail.new)) (λ e. FaultIs e (join_in first.now second.now name.now names.old trail.old)) }
{
    let piece = trail.pieces;
    trail.join(names.piece(first), names.piece(second))?;
    if names.bind(alloc, name, Meaning::Piece(piece)).is_err() {
        return Err(ExpandFault::Memory);
    }
    Ok(())
}

/// A gift.
pub fn give_piece(
    piece: &Name,
    agent: &AgentRef,
    names: &Names<'_>,
    trail: &mut Trail,
) -> Result<(), ExpandFault>
    ensures { MatchResult result (λ u. give_in piece.now agent.now names.now trail.old ≡ Good (names.now, trail.new)) (λ e. FaultIs e (give_in piece.now agent.now names.now trail.old)) }
{
    let agent = names.agent(agent)?;
    trail.give(names.piece(piece), agent)
}

// An argument: a number takes its queries and a register.
fn arg(
    alloc: Global,
    arg: &Arg,
    names: &Names<'_>,
    trail: &mut Trail,
) -> Result<Meaning, ExpandFault>
    ensures { MatchResult result (λ m. arg_in names.now arg.now trail.old ≡ Good (meaning_of m, trail.new)) (λ e. FaultIs e (arg_in names.now arg.now trail.old)) }
{
    match arg {
        Arg::Agent(agent) => Ok(Meaning::Agent(names.agent(agent)?)),
        Arg::Piece(name) => Ok(Meaning::Piece(names.piece(name))),
        Arg::Number(sum) => {
            let sum = ask_sum(alloc, names, sum, trail)?;
            let reg = trail.regs;
            trail.set(sum)?;
            Ok(Meaning::Number(reg))
        }
    }
}

/// The arguments of a call.
fn args(
    alloc: Global,
    args: &[Arg],
    names: &Names<'_>,
    trail: &mut Trail,
) -> Result<Vec<Meaning>, ExpandFault>
    ensures { MatchResult result (λ ms. args_in names.now args.now trail.old ≡ Good (meanings_of ms.items, trail.new)) (λ e. FaultIs e (args_in names.now args.now trail.old)) }
{
    let mut meanings = Vec::new(alloc);
    for item in args {
        let meaning = arg(alloc, item, names, trail)?;
        if meanings.push(meaning).is_err() {
            return Err(ExpandFault::Memory);
        }
    }
    Ok(meanings)
}

/// Counts a call and makes its arguments.
pub fn arguments(
    alloc: Global,
    items: &[Arg],
    names: &Names<'_>,
    trail: &mut Trail,
) -> Result<Vec<Meaning>, ExpandFault>
    ensures { MatchResult result (λ ms. call_in names.now items.now trail.old ≡ Good (meanings_of ms.items, trail.new)) (λ e. FaultIs e (call_in names.now items.now trail.old)) }
{
    trail.call()?;
    args(alloc, items, names, trail)
}
