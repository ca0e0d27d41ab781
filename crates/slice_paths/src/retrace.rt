//! The way to a spot once more, along the choices of a trace.
ghost use Rattle.std.specs.Prelude.{◌≡◌, ◌≤◌, ◌<◌, ◌+◌, ◌^◌, ℕ, Some, None, true, false, List, [], length, drop, IfOk, IfSome, MatchOption};
ghost use Rattle.slice_num.specs.declared.choice.Choice.{Choice as ChoiceOf};
ghost use Rattle.slice_num.specs.Pieces.{piece_at};
ghost use Rattle.slice_core.specs.Cores.{core_of};
ghost use Rattle.slice_core.specs.Nodes.{tree_of};
ghost use Rattle.slice_core.specs.Tree.{Tree, Ask as AskTree, Set as SetTree, Cut as CutTree, Join as JoinTree, Test as TestTree, Give as GiveTree};
ghost use Rattle.slice_core.specs.WellFormed.{AreBound};
ghost use Rattle.slice_paths.specs.Ahead.{ahead_of};
ghost use Rattle.slice_paths.specs.Fronts.{cover_rows, way_behind, events_after};
ghost use Rattle.slice_paths.specs.Places.{first_way};
ghost use Rattle.slice_paths.specs.Retraced.{part_in, arm_in, still as still_left, Strides, Retraces};
ghost use Rattle.slice_paths.specs.Sums.{SumMeans};
ghost use Rattle.slice_paths.specs.Walking.{Ready, AllReady};
ghost use Rattle.slice_paths.specs.declared.frames.Frame.{Frame as FrameOf};

use crate::frames::{CutHere, Frame, NoHere, Rest, put_frame};
use crate::rows::way_rows;
use crate::spot::Spot;
use crate::sums::sum_form;
use crate::walk::{no_kind, yes_kind};
use slice_core::{Core, Lin, Node};
use slice_linear::{FormFault, Row};
use slice_num::{Choice, Memory};
use std::alloc::Global;

/// What one stride comes to: the next node and the spot there; how many choices were made, and whether one was passed.
#[derive(Drop)]
pub(crate) struct Stride<'a> {
    pub(crate) node: &'a Node,
    pub(crate) spot: Spot,
    pub(crate) taken: usize,
    pub(crate) passed: bool,
}

/// The rows of a core behind the first so many passed choices of a trace; None where it has fewer. It is refused for want of
/// memory, and where a number of a form or a row on the way there doesn't fit.
pub(crate) fn cover_of(
    alloc: Global,
    core: &Core,
    trace: &[Choice],
    passed: u32,
) -> Result<Option<Vec<Row>>, FormFault>
    ensures { IfOk result (λ o. MatchOption o (cover_rows (core_of core.now) passed trace.now ≡ None) (λ v. cover_rows (core_of core.now) passed trace.now ≡ Some v.items)) }
{
    let agents = core.agents();
    let spot = match Spot::start(alloc, agents) {
        Err(Memory) => return Err(FormFault::Memory),
        Ok(spot) => spot,
    };
    let mut behind = Vec::new(alloc);
    match retrace(alloc, agents, core.root(), spot, trace, passed, &mut behind) {
        Err(fault) => Err(fault),
        Ok(None) => Ok(None),
        Ok(Some(there)) => match way_rows(alloc, agents, &there) {
            Err(fault) => Err(fault),
            Ok(rows) => Ok(Some(rows)),
        },
    }
}

/// The frames of what comes up behind all that follows the first so many passed choices of a trace. It is refused for want of
/// memory, and where a number of a form on the way there doesn't fit.
pub(crate) fn frames_behind<'a>(
    alloc: Global,
    core: &'a Core,
    trace: &[Choice],
    passed: u32,
) -> Result<Vec<Frame<'a>>, FormFault>
    requires { way_behind passed (core_of core.now).tree [] (first_way (core_of core.now).agents) trace.now ≡ None → ⊥ }
    ensures ahead { IfOk result (λ v. ahead_of (core_of core.now).agents v.items [] ≡ events_after (core_of core.now) passed trace.now) }
    ensures ready { IfOk result (λ v. AllReady (core_of core.now).agents v.items) }
{
    let agents = core.agents();
    let spot = match Spot::start(alloc, agents) {
        Err(Memory) => return Err(FormFault::Memory),
        Ok(spot) => spot,
    };
    let mut behind = Vec::new(alloc);
    match retrace(alloc, agents, core.root(), spot, trace, passed, &mut behind) {
        Err(fault) => Err(fault),
        Ok(None) => unreachable!(),
        Ok(Some(_)) => Ok(behind),
    }
}

/// Walks from a node behind the first so many passed choices, and puts the frames of what is behind all that follows them.
/// None where there are fewer.
pub(crate) fn retrace<'a>(
    alloc: Global,
    agents: u32,
    node: &'a Node,
    spot: Spot,
    choices: &[Choice],
    passed: u32,
    behind: &mut Vec<Frame<'a>>,
) -> Result<Option<Spot>, FormFault>
    requires { Ready agents (tree_of node.now) spot }
    ensures { IfOk result (λ o. Retraces agents passed (tree_of node.now) spot choices.now behind.old.items behind.new.items o) }
{
    if passed == 0 {
        return Ok(Some(spot));
    }
    let by = Guide {
        alloc,
        agents,
        choices,
    };
    match go_on(by, node, spot, behind) {
        Err(fault) => Err(fault),
        Ok(None) => Ok(None),
        Ok(Some(on)) => {
            let left = still(on.passed, passed);
            let rest = choices_after(choices, on.taken);
            retrace(alloc, agents, on.node, on.spot, rest, left, behind)
        }
    }
}

// How many choices are left to pass.
fn still(passed: bool, left: u32) -> u32
    requires { 0 < left }
    ensures { (k : ℕ) → left ≡ 1 + k → result ≡ still_left passed k }
{
    if passed { left - 1 } else { left }
}

/// The choices after so many.
pub(crate) fn choices_after(choices: &[Choice], taken: usize) -> &[Choice]
    requires { taken ≤ length choices.now }
    ensures { result.now ≡ drop taken choices.now }
{
    &choices[taken..]
}

// What a walk goes by: memory, how many agents there are, and the choices that are left.
#[derive(Clone, Copy)]
struct Guide<'b> {
    alloc: Global,
    agents: u32,
    choices: &'b [Choice],
}

// Does what a node says, as the choices tell.
fn go_on<'a>(
    by: Guide<'_>,
    node: &'a Node,
    spot: Spot,
    behind: &mut Vec<Frame<'a>>,
) -> Result<Option<Stride<'a>>, FormFault>
    requires { Ready by.agents (tree_of node.now) spot }
    ensures { IfOk result (λ o. Strides by.entry.agents (tree_of node.now) spot by.entry.choices.now behind.old.items behind.new.items o) }
{
    match node {
        Node::Ask {
            agent,
            piece,
            next,
            ..
        } => stride_ask(by.alloc, *agent, *piece, next.get(), spot),
        Node::Set { sum, next, .. } => stride_set(by.alloc, sum, next.get(), spot),
        Node::Cut {
            agent,
            piece,
            amount,
            next,
            ..
        } => stride_cut(by, *agent, *piece, amount, next.get(), spot, behind),
        Node::Join {
            first,
            second,
            piece,
            next,
        } => stride_join(*first, *second, *piece, next.get(), spot),
        Node::Test {
            left,
            right,
            strict,
            yes,
            no,
        } => stride_test(by, left, right, *strict, yes.get(), no.get(), spot, behind),
        Node::Give { piece, agent, next } => stride_give(*piece, *agent, next.get(), spot),
        Node::Done => Ok(None),
    }
}

/// The number of the part in which the choices answer a cut of so many parts; None where they answer it in none of them.
pub(crate) fn part_taken(choices: &[Choice], parts: u32) -> Option<u32>
    ensures part { result ≡ part_in parts choices.now }
    ensures there { IfSome result (λ part. part < parts) }
{
    if parts == 0 {
        return None;
    }
    match choices {
        [] => None,
        [first, rest @ ..] => match first {
            Choice::Go => Some(0),
            Choice::No => match part_taken(rest, parts - 1) {
                None => None,
                Some(part) => Some(part + 1),
            },
            Choice::Low | Choice::High | Choice::Yes => None,
        },
    }
}

/// Whether the choices take the yes of a test; None where they take no arm.
pub(crate) fn arm_taken(choices: &[Choice]) -> Option<bool>
    ensures { result ≡ arm_in choices.now }
{
    match choices {
        [] => None,
        [first, ..] => match first {
            Choice::Yes => Some(true),
            Choice::No => Some(false),
            Choice::Low | Choice::High | Choice::Go => None,
        },
    }
}

// The agent is asked for the piece's value.
fn stride_ask<'a>(
    alloc: Global,
    agent: u32,
    piece: u32,
    next: &'a Node,
    spot: Spot,
) -> Result<Option<Stride<'a>>, FormFault>
    requires ready { (n : ℕ) × (r : ℕ) × Ready n (AskTree agent piece r (tree_of next.now)) spot }
    ensures { IfOk result (λ o. (n r : ℕ) (cs : List ChoiceOf) (fs : List FrameOf) → Ready n (AskTree agent piece r (tree_of next.now)) spot → Strides n (AskTree agent piece r (tree_of next.now)) spot cs fs fs o) }
{
    let mut spot = spot;
    match spot.ask(alloc, agent, piece) {
        Err(Memory) => Err(FormFault::Memory),
        Ok(()) => Ok(Some(Stride {
            node: next,
            spot,
            taken: 0,
            passed: false,
        })),
    }
}

// A register is set to a sum.
fn stride_set<'a>(
    alloc: Global,
    sum: &Lin,
    next: &'a Node,
    spot: Spot,
) -> Result<Option<Stride<'a>>, FormFault>
    requires ready { (n : ℕ) × (r : ℕ) × Ready n (SetTree r sum.now (tree_of next.now)) spot }
    ensures { IfOk result (λ o. (n r : ℕ) (cs : List ChoiceOf) (fs : List FrameOf) → Ready n (SetTree r sum.now (tree_of next.now)) spot → Strides n (SetTree r sum.now (tree_of next.now)) spot cs fs fs o) }
{
    let mut spot = spot;
    match spot.set(alloc, sum) {
        Err(fault) => Err(fault),
        Ok(()) => Ok(Some(Stride {
            node: next,
            spot,
            taken: 0,
            passed: false,
        })),
    }
}

// Two pieces become one.
fn stride_join<'a>(
    first: u32,
    second: u32,
    piece: u32,
    next: &'a Node,
    spot: Spot,
) -> Result<Option<Stride<'a>>, FormFault>
    requires ready { (n : ℕ) × Ready n (JoinTree first second piece (tree_of next.now)) spot }
    ensures { IfOk result (λ o. (n : ℕ) (cs : List ChoiceOf) (fs : List FrameOf) → Ready n (JoinTree first second piece (tree_of next.now)) spot → Strides n (JoinTree first second piece (tree_of next.now)) spot cs fs fs o) }
{
    let mut spot = spot;
    match spot.join(first, second, piece) {
        Err(Memory) => Err(FormFault::Memory),
        Ok(()) => Ok(Some(Stride {
            node: next,
            spot,
            taken: 0,
            passed: false,
        })),
    }
}

// The piece goes to the agent.
fn stride_give<'a>(
    piece: u32,
    agent: u32,
    next: &'a Node,
    spot: Spot,
) -> Result<Option<Stride<'a>>, FormFault>
    requires ready { (n : ℕ) × Ready n (GiveTree piece agent (tree_of next.now)) spot }
    ensures { IfOk result (λ o. (n : ℕ) (cs : List ChoiceOf) (fs : List FrameOf) → Ready n (GiveTree piece agent (tree_of next.now)) spot → Strides n (GiveTree piece agent (tree_of next.now)) spot cs fs fs o) }
{
    let mut spot = spot;
    match spot.give(agent, piece) {
        Err(Memory) => Err(FormFault::Memory),
        Ok(()) => Ok(Some(Stride {
            node: next,
            spot,
            taken: 0,
            passed: false,
        })),
    }
}

// A cut is answered in the part that the choices tell.
fn stride_cut<'a>(
    by: Guide<'_>,
    agent: u32,
    piece: u32,
    amount: &Lin,
    next: &'a Node,
    spot: Spot,
    behind: &mut Vec<Frame<'a>>,
) -> Result<Option<Stride<'a>>, FormFault>
    requires ready { (l : ℕ) × (r : ℕ) × Ready by.agents (CutTree agent piece amount.now l r (tree_of next.now)) spot }
    ensures { IfOk result (λ o. (l r : ℕ) → Strides by.entry.agents (CutTree agent piece amount.now l r (tree_of next.now)) spot by.entry.choices.now behind.old.items behind.new.items o) }
{
    let parts = spot.atoms.parts(piece);
    match part_taken(by.choices, parts) {
        None => Ok(None),
        Some(part) => answer_cut(
            by.alloc, by.agents, agent, piece, amount, next, spot, part, behind,
        ),
    }
}

// A cut is answered in that part; what follows an answer in a later one is behind.
fn answer_cut<'a>(
    alloc: Global,
    agents: u32,
    agent: u32,
    piece: u32,
    amount: &Lin,
    next: &'a Node,
    spot: Spot,
    part: u32,
    behind: &mut Vec<Frame<'a>>,
) -> Result<Option<Stride<'a>>, FormFault>
    requires ready { (l : ℕ) × (r : ℕ) × Ready agents (CutTree agent piece amount.now l r (tree_of next.now)) spot }
    requires there { part < length (piece_at spot.atoms.pieces piece) }
    requires few { length (piece_at spot.atoms.pieces piece) < 2 ^ 32 }
    ensures { IfOk result (λ o. (l r : ℕ) (cs : List ChoiceOf) → part_in (length (piece_at spot.atoms.pieces piece)) cs ≡ Some part → Strides agents (CutTree agent piece amount.now l r (tree_of next.now)) spot cs behind.old.items behind.new.items o) }
{
    let amount = match sum_form(alloc, spot.regs.as_slice(), amount) {
        Err(fault) => return Err(fault),
        Ok(amount) => amount,
    };
    let mut here = match spot.copy(alloc) {
        Err(Memory) => return Err(FormFault::Memory),
        Ok(here) => here,
    };
    match here.answer(alloc, agents, agent, piece, &amount, part) {
        Err(fault) => return Err(fault),
        Ok(()) => {}
    }
    let cut = CutHere {
        agent,
        piece,
        amount,
        next,
    };
    let rest = Rest::Parts(cut, part + 1);
    match put_frame(behind, Frame { rest, spot }) {
        Err(Memory) => Err(FormFault::Memory),
        Ok(()) => Ok(Some(Stride {
            node: next,
            spot: here,
            taken: part as usize + 1,
            passed: true,
        })),
    }
}

// The forms of both sides of a test.
fn sides<'a>(
    alloc: Global,
    left: &Lin,
    right: &Lin,
    strict: bool,
    no: &'a Node,
    spot: &Spot,
) -> Result<NoHere<'a>, FormFault>
    requires left { AreBound (length spot.now.regs) left.now.terms }
    requires right { AreBound (length spot.now.regs) right.now.terms }
    ensures left { IfOk result (λ t. SumMeans spot.now.regs left.now.terms t.left) }
    ensures right { IfOk result (λ t. SumMeans spot.now.regs right.now.terms t.right) }
    ensures strict { IfOk result (λ t. t.strict ≡ strict) }
    ensures next { IfOk result (λ t. t.next ≡ no.entry) }
{
    let left = match sum_form(alloc, spot.regs.as_slice(), left) {
        Err(fault) => return Err(fault),
        Ok(left) => left,
    };
    match sum_form(alloc, spot.regs.as_slice(), right) {
        Err(fault) => Err(fault),
        Ok(right) => Ok(NoHere {
            left,
            right,
            strict,
            next: no,
        }),
    }
}

// The arm of a test is taken that the choices tell.
fn stride_test<'a>(
    by: Guide<'_>,
    left: &Lin,
    right: &Lin,
    strict: bool,
    yes: &'a Node,
    no: &'a Node,
    spot: Spot,
    behind: &mut Vec<Frame<'a>>,
) -> Result<Option<Stride<'a>>, FormFault>
    requires ready { (n : ℕ) × Ready n (TestTree left.now right.now strict (tree_of yes.now) (tree_of no.now)) spot }
    ensures { IfOk result (λ o. (n : ℕ) → Ready n (TestTree left.now right.now strict (tree_of yes.now) (tree_of no.now)) spot → Strides n (TestTree left.now right.now strict (tree_of yes.now) (tree_of no.now)) spot by.entry.choices.now behind.old.items behind.new.items o) }
{
    match arm_taken(by.choices) {
        None => Ok(None),
        Some(taken) => {
            if taken {
                stride_yes(by.alloc, left, right, strict, yes, no, spot, behind)
            } else {
                stride_no(by.alloc, left, right, strict, no, spot)
            }
        }
    }
}

// The yes of a test is passed; its no is behind.
fn stride_yes<'a>(
    alloc: Global,
    left: &Lin,
    right: &Lin,
    strict: bool,
    yes: &'a Node,
    no: &'a Node,
    spot: Spot,
    behind: &mut Vec<Frame<'a>>,
) -> Result<Option<Stride<'a>>, FormFault>
    requires ready { (n : ℕ) × Ready n (TestTree left.now right.now strict (tree_of yes.now) (tree_of no.now)) spot }
    ensures { IfOk result (λ o. (n : ℕ) (cs : List ChoiceOf) → Ready n (TestTree left.now right.now strict (tree_of yes.now) (tree_of no.now)) spot → arm_in cs ≡ Some true → Strides n (TestTree left.now right.now strict (tree_of yes.now) (tree_of no.now)) spot cs behind.old.items behind.new.items o) }
{
    let test = match sides(alloc, left, right, strict, no, &spot) {
        Err(fault) => return Err(fault),
        Ok(test) => test,
    };
    let mut at_yes = match spot.copy(alloc) {
        Err(Memory) => return Err(FormFault::Memory),
        Ok(at_yes) => at_yes,
    };
    let kind = yes_kind(strict);
    match at_yes.pass(alloc, kind, &test.left, &test.right, Choice::Yes) {
        Err(fault) => return Err(fault),
        Ok(()) => {}
    }
    let rest = Rest::No(test);
    match put_frame(behind, Frame { rest, spot }) {
        Err(Memory) => Err(FormFault::Memory),
        Ok(()) => Ok(Some(Stride {
            node: yes,
            spot: at_yes,
            taken: 1,
            passed: true,
        })),
    }
}

// The no of a test is passed.
fn stride_no<'a>(
    alloc: Global,
    left: &Lin,
    right: &Lin,
    strict: bool,
    no: &'a Node,
    spot: Spot,
) -> Result<Option<Stride<'a>>, FormFault>
    requires ready { (n : ℕ) × (at_yes : Tree) × Ready n (TestTree left.now right.now strict at_yes (tree_of no.now)) spot }
    ensures { IfOk result (λ o. (n : ℕ) (at_yes : Tree) (cs : List ChoiceOf) (fs : List FrameOf) → Ready n (TestTree left.now right.now strict at_yes (tree_of no.now)) spot → arm_in cs ≡ Some false → Strides n (TestTree left.now right.now strict at_yes (tree_of no.now)) spot cs fs fs o) }
{
    let test = match sides(alloc, left, right, strict, no, &spot) {
        Err(fault) => return Err(fault),
        Ok(test) => test,
    };
    let mut spot = spot;
    let kind = no_kind(strict);
    match spot.pass(alloc, kind, &test.right, &test.left, Choice::No) {
        Err(fault) => Err(fault),
        Ok(()) => Ok(Some(Stride {
            node: no,
            spot,
            taken: 1,
            passed: true,
        })),
    }
}
