//! The walk from a spot to the next ones. Each step takes the spot along.
ghost use Rattle.std.specs.Prelude.{◌≡◌, ◌<◌, ◌≤◌, ◌+◌, ◌^◌, ℕ, length, IfOk, IfErr};
ghost use Rattle.slice_num.specs.Pieces.{piece_at};
ghost use Rattle.slice_core.specs.Nodes.{tree_of};
ghost use Rattle.slice_core.specs.Tree.{Ask as AskTree, Set as SetTree, Cut as CutTree, Join as JoinTree, Test as TestTree, Give as GiveTree};
ghost use Rattle.slice_paths.specs.Places.{yes_kind as kind_at_yes, no_kind as kind_at_no};
ghost use Rattle.slice_paths.specs.Walking.{Ready, CutReady, NoReady, YesReady, WalkLeads, WalkBreaks, PartLeads, PartBreaks, YesLeads, YesBreaks, NoLeads, NoBreaks};

use crate::frames::{CutHere, Frame, NoHere, Onward, Rest};
use crate::spot::Spot;
use crate::sums::sum_form;
use slice_core::{Lin, Node};
use slice_linear::{Form, FormFault, RowKind};
use slice_num::{Choice, Memory};
use std::alloc::Global;

/// Does what a node says, up to the goals at a cut, the arms of a test or the pairs at an end. Overflow comes exactly where
/// a number of a form that is made here doesn't fit.
pub(crate) fn walk<'a>(alloc: Global, node: &'a Node, spot: Spot) -> Result<Onward<'a>, FormFault>
    requires { Ready spot.atoms.agents (tree_of node.now) spot }
    ensures ok { IfOk result (λ o. WalkLeads spot.atoms.agents (tree_of node.now) spot o) }
    ensures err { IfErr result (λ e. WalkBreaks spot.atoms.agents (tree_of node.now) spot e) }
{
    match node {
        Node::Ask {
            agent,
            piece,
            next,
            ..
        } => walk_ask(alloc, *agent, *piece, next.get(), spot),
        Node::Set { sum, next, .. } => walk_set(alloc, sum, next.get(), spot),
        Node::Cut {
            agent,
            piece,
            amount,
            next,
            ..
        } => walk_cut(alloc, *agent, *piece, amount, next.get(), spot),
        Node::Join {
            first,
            second,
            piece,
            next,
        } => walk_join(*first, *second, *piece, next.get(), spot),
        Node::Test {
            left,
            right,
            strict,
            yes,
            no,
        } => walk_test(alloc, left, right, *strict, yes.get(), no.get(), spot),
        Node::Give { piece, agent, next } => walk_give(*piece, *agent, next.get(), spot),
        Node::Done => Ok(Onward::One(Frame {
            rest: Rest::Pairs(1, 1),
            spot,
        })),
    }
}

// The agent is asked for the piece's value.
fn walk_ask<'a>(
    alloc: Global,
    agent: u32,
    piece: u32,
    next: &'a Node,
    spot: Spot,
) -> Result<Onward<'a>, FormFault>
    requires ready { (r : ℕ) × Ready spot.atoms.agents (AskTree agent piece r (tree_of next.now)) spot }
    ensures ok { IfOk result (λ o. (r : ℕ) → WalkLeads spot.atoms.agents (AskTree agent piece r (tree_of next.now)) spot o) }
    ensures err { IfErr result (λ e. (r : ℕ) → WalkBreaks spot.atoms.agents (AskTree agent piece r (tree_of next.now)) spot e) }
{
    let mut spot = spot;
    match spot.ask(alloc, agent, piece) {
        Err(Memory) => Err(FormFault::Memory),
        Ok(()) => Ok(Onward::One(Frame {
            rest: Rest::Walk(next),
            spot,
        })),
    }
}

// A register is set to a sum.
fn walk_set<'a>(
    alloc: Global,
    sum: &Lin,
    next: &'a Node,
    spot: Spot,
) -> Result<Onward<'a>, FormFault>
    requires ready { (r : ℕ) × Ready spot.atoms.agents (SetTree r sum.now (tree_of next.now)) spot }
    ensures ok { IfOk result (λ o. (r : ℕ) → WalkLeads spot.atoms.agents (SetTree r sum.now (tree_of next.now)) spot o) }
    ensures err { IfErr result (λ e. (r : ℕ) → WalkBreaks spot.atoms.agents (SetTree r sum.now (tree_of next.now)) spot e) }
{
    let mut spot = spot;
    match spot.set(alloc, sum) {
        Err(fault) => Err(fault),
        Ok(()) => Ok(Onward::One(Frame {
            rest: Rest::Walk(next),
            spot,
        })),
    }
}

// Two pieces become one.
fn walk_join<'a>(
    first: u32,
    second: u32,
    piece: u32,
    next: &'a Node,
    spot: Spot,
) -> Result<Onward<'a>, FormFault>
    requires { Ready spot.atoms.agents (JoinTree first second piece (tree_of next.now)) spot }
    ensures ok { IfOk result (λ o. WalkLeads spot.atoms.agents (JoinTree first second piece (tree_of next.now)) spot o) }
    ensures err { IfErr result (λ e. WalkBreaks spot.atoms.agents (JoinTree first second piece (tree_of next.now)) spot e) }
{
    let mut spot = spot;
    match spot.join(first, second, piece) {
        Err(Memory) => Err(FormFault::Memory),
        Ok(()) => Ok(Onward::One(Frame {
            rest: Rest::Walk(next),
            spot,
        })),
    }
}

// The piece goes to the agent.
fn walk_give<'a>(
    piece: u32,
    agent: u32,
    next: &'a Node,
    spot: Spot,
) -> Result<Onward<'a>, FormFault>
    requires { Ready spot.atoms.agents (GiveTree piece agent (tree_of next.now)) spot }
    ensures ok { IfOk result (λ o. WalkLeads spot.atoms.agents (GiveTree piece agent (tree_of next.now)) spot o) }
    ensures err { IfErr result (λ e. WalkBreaks spot.atoms.agents (GiveTree piece agent (tree_of next.now)) spot e) }
{
    let mut spot = spot;
    match spot.give(agent, piece) {
        Err(Memory) => Err(FormFault::Memory),
        Ok(()) => Ok(Onward::One(Frame {
            rest: Rest::Walk(next),
            spot,
        })),
    }
}

// The agent is to cut the piece: the form of the amount is made.
fn walk_cut<'a>(
    alloc: Global,
    agent: u32,
    piece: u32,
    amount: &Lin,
    next: &'a Node,
    spot: Spot,
) -> Result<Onward<'a>, FormFault>
    requires ready { (l : ℕ) × (r : ℕ) × Ready spot.atoms.agents (CutTree agent piece amount.now l r (tree_of next.now)) spot }
    ensures ok { IfOk result (λ o. (l r : ℕ) → WalkLeads spot.atoms.agents (CutTree agent piece amount.now l r (tree_of next.now)) spot o) }
    ensures err { IfErr result (λ e. (l r : ℕ) → WalkBreaks spot.atoms.agents (CutTree agent piece amount.now l r (tree_of next.now)) spot e) }
{
    match sum_form(alloc, spot.regs.as_slice(), amount) {
        Err(fault) => Err(fault),
        Ok(amount) => {
            let cut = CutHere {
                agent,
                piece,
                amount,
                next,
            };
            Ok(Onward::One(Frame {
                rest: Rest::Low(cut),
                spot,
            }))
        }
    }
}

// The forms of both sides of a test are made, and its yes is taken.
fn walk_test<'a>(
    alloc: Global,
    left: &Lin,
    right: &Lin,
    strict: bool,
    yes: &'a Node,
    no: &'a Node,
    spot: Spot,
) -> Result<Onward<'a>, FormFault>
    requires { Ready spot.atoms.agents (TestTree left.now right.now strict (tree_of yes.now) (tree_of no.now)) spot }
    ensures ok { IfOk result (λ o. WalkLeads spot.atoms.agents (TestTree left.now right.now strict (tree_of yes.now) (tree_of no.now)) spot o) }
    ensures err { IfErr result (λ e. WalkBreaks spot.atoms.agents (TestTree left.now right.now strict (tree_of yes.now) (tree_of no.now)) spot e) }
{
    let left = match sum_form(alloc, spot.regs.as_slice(), left) {
        Err(fault) => return Err(fault),
        Ok(left) => left,
    };
    let right = match sum_form(alloc, spot.regs.as_slice(), right) {
        Err(fault) => return Err(fault),
        Ok(right) => right,
    };
    let here = NoHere {
        left,
        right,
        strict,
        next: no,
    };
    take_yes(alloc, here, yes, spot)
}

// The yes of a test is passed; its no is left.
fn take_yes<'a>(
    alloc: Global,
    test: NoHere<'a>,
    yes: &'a Node,
    spot: Spot,
) -> Result<Onward<'a>, FormFault>
    requires { YesReady spot.atoms.agents test.left test.right (tree_of yes.now) (tree_of test.next.now) spot }
    ensures ok { IfOk result (λ o. YesLeads spot.atoms.agents test.entry.left test.entry.right test.entry.strict (tree_of yes.now) (tree_of test.entry.next.now) spot o) }
    ensures err { IfErr result (λ e. YesBreaks spot.atoms.agents test.entry.left test.entry.right test.entry.strict (tree_of yes.now) (tree_of test.entry.next.now) spot e) }
{
    let mut at_yes = match spot.copy(alloc) {
        Err(Memory) => return Err(FormFault::Memory),
        Ok(at_yes) => at_yes,
    };
    let kind = yes_kind(test.strict);
    match at_yes.pass(alloc, kind, &test.left, &test.right, Choice::Yes) {
        Err(fault) => Err(fault),
        Ok(()) => Ok(Onward::Two(
            Frame {
                rest: Rest::No(test),
                spot,
            },
            Frame {
                rest: Rest::Walk(yes),
                spot: at_yes,
            },
        )),
    }
}

/// The no of a test is passed. Overflow comes exactly where a number of the difference of the sides doesn't fit.
pub(crate) fn take_no<'a>(
    alloc: Global,
    test: NoHere<'a>,
    spot: Spot,
) -> Result<Onward<'a>, FormFault>
    requires { NoReady spot.atoms.agents test.left test.right (tree_of test.next.now) spot }
    ensures ok { IfOk result (λ o. NoLeads spot.atoms.agents test.entry.left test.entry.right test.entry.strict (tree_of test.entry.next.now) spot o) }
    ensures err { IfErr result (λ e. NoBreaks spot.atoms.agents test.entry.left test.entry.right test.entry.strict (tree_of test.entry.next.now) spot e) }
{
    let mut spot = spot;
    let kind = no_kind(test.strict);
    match spot.pass(alloc, kind, &test.right, &test.left, Choice::No) {
        Err(fault) => Err(fault),
        Ok(()) => Ok(Onward::One(Frame {
            rest: Rest::Walk(test.next),
            spot,
        })),
    }
}

/// What left less right comes to at yes.
pub(crate) fn yes_kind(strict: bool) -> RowKind
    ensures { result ≡ kind_at_yes strict }
{
    if strict {
        RowKind::Above
    } else {
        RowKind::AtLeast
    }
}

/// What right less left comes to at no.
pub(crate) fn no_kind(strict: bool) -> RowKind
    ensures { result ≡ kind_at_no strict }
{
    if strict {
        RowKind::AtLeast
    } else {
        RowKind::Above
    }
}

/// What follows an answer in that part of a cut's piece; the parts after it are left. Overflow comes exactly where a number
/// of what the answer tells doesn't fit.
pub(crate) fn take_part<'a>(
    alloc: Global,
    agents: u32,
    cut: CutHere<'a>,
    part: u32,
    spot: Spot,
) -> Result<Onward<'a>, FormFault>
    requires ready { CutReady agents cut.agent cut.piece cut.amount (tree_of cut.next.now) spot }
    ensures ok { IfOk result (λ o. PartLeads agents cut.entry.agent cut.entry.piece cut.entry.amount part (tree_of cut.entry.next.now) spot o) }
    ensures err { IfErr result (λ e. PartBreaks agents cut.entry.agent cut.entry.piece cut.entry.amount part (tree_of cut.entry.next.now) spot e) }
{
    let parts = spot.atoms.parts(cut.piece);
    if part >= parts {
        Ok(Onward::End)
    } else if part + 1 == parts {
        last_part(alloc, agents, cut, part, spot)
    } else {
        early_part(alloc, agents, cut, part, spot)
    }
}

// What follows an answer in the last part.
fn last_part<'a>(
    alloc: Global,
    agents: u32,
    cut: CutHere<'a>,
    part: u32,
    spot: Spot,
) -> Result<Onward<'a>, FormFault>
    requires ready { CutReady agents cut.agent cut.piece cut.amount (tree_of cut.next.now) spot }
    requires last { part + 1 ≡ length (piece_at spot.atoms.pieces cut.piece) }
    ensures ok { IfOk result (λ o. PartLeads agents cut.entry.agent cut.entry.piece cut.entry.amount part (tree_of cut.entry.next.now) spot o) }
    ensures err { IfErr result (λ e. PartBreaks agents cut.entry.agent cut.entry.piece cut.entry.amount part (tree_of cut.entry.next.now) spot e) }
{
    let mut spot = spot;
    match spot.answer(alloc, agents, cut.agent, cut.piece, &cut.amount, part) {
        Err(fault) => Err(fault),
        Ok(()) => Ok(Onward::One(Frame {
            rest: Rest::Walk(cut.next),
            spot,
        })),
    }
}

// What follows an answer in a part before the last.
fn early_part<'a>(
    alloc: Global,
    agents: u32,
    cut: CutHere<'a>,
    part: u32,
    spot: Spot,
) -> Result<Onward<'a>, FormFault>
    requires ready { CutReady agents cut.agent cut.piece cut.amount (tree_of cut.next.now) spot }
    requires early { part + 1 < length (piece_at spot.atoms.pieces cut.piece) }
    requires few { length (piece_at spot.atoms.pieces cut.piece) < 2 ^ 32 }
    ensures ok { IfOk result (λ o. PartLeads agents cut.entry.agent cut.entry.piece cut.entry.amount part (tree_of cut.entry.next.now) spot o) }
    ensures err { IfErr result (λ e. PartBreaks agents cut.entry.agent cut.entry.piece cut.entry.amount part (tree_of cut.entry.next.now) spot e) }
{
    let mut here = match spot.copy(alloc) {
        Err(Memory) => return Err(FormFault::Memory),
        Ok(here) => here,
    };
    let next = cut.next;
    match here.answer(alloc, agents, cut.agent, cut.piece, &cut.amount, part) {
        Err(fault) => Err(fault),
        Ok(()) => Ok(Onward::Two(
            Frame {
                rest: Rest::Parts(cut, part + 1),
                spot,
            },
            Frame {
                rest: Rest::Walk(next),
                spot: here,
            },
        )),
    }
}
