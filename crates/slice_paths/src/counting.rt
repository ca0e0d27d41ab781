//! How many goals there are. That depends on how many parts the pieces have, and on no form.
ghost use Rattle.std.specs.Prelude.{◌≡◌, ◌<◌, ◌≤◌, ◌+◌, ◌-◌, ◌++◌, ◌∷◌, [], ℕ, Bool, length, IfOk, OnOk};
ghost use Rattle.slice_core.specs.Cores.{core_of};
ghost use Rattle.slice_core.specs.Nodes.{tree_of};
ghost use Rattle.slice_core.specs.Sizes.{most_cuts};
ghost use Rattle.slice_core.specs.Tree.{Cut as CutTree, Test as TestTree};
ghost use Rattle.slice_core.specs.declared.node.Lin.{Lin as LinOf};
ghost use Rattle.slice_paths.specs.Ahead.{pairs_from};
ghost use Rattle.slice_paths.specs.Counting.{part_count, used_counts, cut_counts, join_counts, all_parts, goals_on, goals_in_parts, one_less, once_passed, left_at_cut, left_at_end, goals_left, goals_under, IsCounted};

use crate::aims::LIMIT;
use crate::goal::{GoalKind, SkipFault};
use crate::retrace::{arm_taken, choices_after, part_taken};
use slice_core::{Core, Node};
use slice_num::{Choice, Memory};
use std::alloc::Global;

// Of how many parts the piece is; one that was used, or isn't there, has none.
fn parts_of(counts: &[u32], piece: u32) -> u32
    ensures { result ≡ part_count counts.now piece }
{
    match counts.get(piece as usize) {
        None => 0,
        Some(parts) => *parts,
    }
}

// The piece has no part any more.
fn use_up(counts: &mut Vec<u32>, piece: u32)
    ensures { counts.new.items ≡ used_counts counts.old.items piece }
{
    let at = piece as usize;
    if at >= counts.len() {
        return;
    }
    counts[at] = 0;
}

// One more piece, of so many parts.
fn put(counts: &mut Vec<u32>, parts: u32) -> Result<(), Memory>
    ensures { OnOk result (counts.new.items ≡ counts.old.items ++ parts ∷ []) }
{
    if counts.push(parts).is_err() {
        return Err(Memory);
    }
    Ok(())
}

// The counts after a piece was used.
fn after_use(alloc: Global, counts: &[u32], piece: u32) -> Result<Vec<u32>, Memory>
    ensures { IfOk result (λ v. v.items ≡ used_counts counts.now piece) }
{
    let mut made = Vec::from_slice(alloc, counts)?;
    use_up(&mut made, piece);
    Ok(made)
}

// The counts after a piece was cut into two of so many parts.
fn after_cut(
    alloc: Global,
    counts: &[u32],
    piece: u32,
    left: u32,
    right: u32,
) -> Result<Vec<u32>, Memory>
    ensures { IfOk result (λ v. v.items ≡ cut_counts counts.now piece left right) }
{
    let mut made = after_use(alloc, counts, piece)?;
    put(&mut made, left)?;
    put(&mut made, right)?;
    Ok(made)
}

// The counts after two pieces became one.
fn after_join(alloc: Global, counts: &[u32], first: u32, second: u32) -> Result<Vec<u32>, Memory>
    requires few { all_parts counts.now ≤ 65 }
    ensures { IfOk result (λ v. v.items ≡ join_counts counts.now first second) }
{
    let alone = after_use(alloc, counts, first)?;
    let parts = parts_of(counts, first) + parts_of(alone.as_slice(), second);
    let mut made = after_use(alloc, alone.as_slice(), second)?;
    put(&mut made, parts)?;
    Ok(made)
}

// So many goals more.
fn more(given: u64, goals: u64) -> Result<u64, SkipFault>
    requires few { given ≤ 1000000 }
    requires goals { goals ≤ 1000000 }
    ensures { IsCounted (given + goals) result }
{
    if given + goals > LIMIT {
        return Err(SkipFault::GoalLimit);
    }
    Ok(given + goals)
}

// With one goal for each pair from one on.
fn count_pairs(agents: u32, a: u32, b: u32, given: u64) -> Result<u64, SkipFault>
    requires agents { agents ≤ 16 }
    requires few { given ≤ 1000000 }
    ensures { IsCounted (given + length (pairs_from agents a b)) result }
{
    if a > agents {
        return Ok(given);
    }
    if b > agents {
        return count_pairs(agents, a + 1, 1, given);
    }
    if a == b {
        return count_pairs(agents, a, b + 1, given);
    }
    match more(given, 1) {
        Err(fault) => Err(fault),
        Ok(given) => count_pairs(agents, a, b + 1, given),
    }
}

/// How many goals there are with all those of a node, after so many; the counts say of how many parts each piece is.
/// GoalLimit comes exactly where they are more than may be given.
#[cycle(all_goals)]
pub(crate) fn count_on(
    alloc: Global,
    agents: u32,
    node: &Node,
    counts: &[u32],
    given: u64,
) -> Result<u64, SkipFault>
    requires agents { agents ≤ 16 }
    requires parts { all_parts counts.now + most_cuts (tree_of node.now) ≤ 65 }
    requires few { given ≤ 1000000 }
    ensures { IsCounted (given + goals_on agents (tree_of node.now) counts.now) result }
{
    match node {
        Node::Ask { next, .. } => count_on(alloc, agents, next.get(), counts, given),
        Node::Set { next, .. } => count_on(alloc, agents, next.get(), counts, given),
        Node::Cut { piece, next, .. } => match more(given, 2) {
            Err(fault) => Err(fault),
            Ok(given) => count_parts(alloc, agents, *piece, next.get(), counts, 0, given),
        },
        Node::Join {
            first,
            second,
            next,
            ..
        } => match after_join(alloc, counts, *first, *second) {
            Err(Memory) => Err(SkipFault::Memory),
            Ok(counts) => count_on(alloc, agents, next.get(), counts.as_slice(), given),
        },
        Node::Test { yes, no, .. } => match count_on(alloc, agents, yes.get(), counts, given) {
            Err(fault) => Err(fault),
            Ok(given) => count_on(alloc, agents, no.get(), counts, given),
        },
        Node::Give { piece, next, .. } => match after_use(alloc, counts, *piece) {
            Err(Memory) => Err(SkipFault::Memory),
            Ok(counts) => count_on(alloc, agents, next.get(), counts.as_slice(), given),
        },
        Node::Done => count_pairs(agents, 1, 1, given),
    }
}

// With those that follow an answer to a cut in a part from one on.
#[cycle(all_goals)]
fn count_parts(
    alloc: Global,
    agents: u32,
    piece: u32,
    next: &Node,
    counts: &[u32],
    from: u32,
    given: u64,
) -> Result<u64, SkipFault>
    requires agents { agents ≤ 16 }
    requires parts { all_parts counts.now + 1 + most_cuts (tree_of next.now) ≤ 65 }
    requires few { given ≤ 1000000 }
    ensures { IsCounted (given + goals_in_parts agents (tree_of next.now) counts.now piece from) result }
{
    let parts = parts_of(counts, piece);
    let mut given = given;
    for part in from..parts {
        let here = match after_cut(alloc, counts, piece, part + 1, parts - part) {
            Err(Memory) => return Err(SkipFault::Memory),
            Ok(here) => here,
        };
        given = match count_on(alloc, agents, next, here.as_slice(), given) {
            Err(fault) => return Err(fault),
            Ok(given) => given,
        };
    }
    Ok(given)
}

// The same where no choice is left to pass; otherwise none.
fn later_parts(
    alloc: Global,
    agents: u32,
    passed: u32,
    piece: u32,
    next: &Node,
    counts: &[u32],
    from: u32,
    given: u64,
) -> Result<u64, SkipFault>
    requires agents { agents ≤ 16 }
    requires parts { all_parts counts.now + 1 + most_cuts (tree_of next.now) ≤ 65 }
    requires few { given ≤ 1000000 }
    ensures { IsCounted (given + once_passed passed (goals_in_parts agents (tree_of next.now) counts.now piece from)) result }
{
    if passed > 0 {
        return Ok(given);
    }
    count_parts(alloc, agents, piece, next, counts, from, given)
}

// With those of the no of a test, where no choice is left to pass.
fn later_no(
    alloc: Global,
    agents: u32,
    passed: u32,
    no: &Node,
    counts: &[u32],
    given: u64,
) -> Result<u64, SkipFault>
    requires agents { agents ≤ 16 }
    requires parts { all_parts counts.now + most_cuts (tree_of no.now) ≤ 65 }
    requires few { given ≤ 1000000 }
    ensures { IsCounted (given + once_passed passed (goals_on agents (tree_of no.now) counts.now)) result }
{
    if passed > 0 {
        return Ok(given);
    }
    count_on(alloc, agents, no, counts, given)
}

// The goals behind one of that kind, where there are so many agents.
#[derive(Clone, Copy)]
struct Behind {
    alloc: Global,
    agents: u32,
    kind: GoalKind,
}

/// How many goals were given then, where so many were given, with the one of that kind to which these choices lead, and those
/// behind it are passed over that have the same first so many passed choices. GoalLimit comes exactly where they are more than
/// may be given.
pub(crate) fn count_from_root(
    alloc: Global,
    core: &Core,
    passed: u32,
    choices: &[Choice],
    kind: GoalKind,
    given: u64,
) -> Result<u64, SkipFault>
    requires few { given ≤ 1000000 }
    ensures { IsCounted (given + goals_under (core_of core.now) passed choices.now kind) result }
{
    let behind = Behind {
        alloc,
        agents: core.agents(),
        kind,
    };
    count_left(behind, passed, core.root(), &[1], choices, given)
}

/// How many goals there are with those that come behind the one of that kind to which the choices lead from a node, after so
/// many, and have the same first so many passed choices. GoalLimit comes exactly where they are more than may be given.
#[cycle(left_goals)]
fn count_left(
    behind: Behind,
    passed: u32,
    node: &Node,
    counts: &[u32],
    choices: &[Choice],
    given: u64,
) -> Result<u64, SkipFault>
    requires agents { behind.agents ≤ 16 }
    requires parts { all_parts counts.now + most_cuts (tree_of node.now) ≤ 65 }
    requires few { given ≤ 1000000 }
    ensures { IsCounted (given + goals_left behind.agents passed (tree_of node.now) counts.now choices.now behind.kind) result }
{
    match node {
        Node::Ask { next, .. } => count_left(behind, passed, next.get(), counts, choices, given),
        Node::Set { next, .. } => count_left(behind, passed, next.get(), counts, choices, given),
        Node::Cut { piece, next, .. } => {
            left_of_cut(behind, passed, *piece, next.get(), counts, choices, given)
        }
        Node::Join {
            first,
            second,
            next,
            ..
        } => match after_join(behind.alloc, counts, *first, *second) {
            Err(Memory) => Err(SkipFault::Memory),
            Ok(here) => count_left(behind, passed, next.get(), here.as_slice(), choices, given),
        },
        Node::Test { yes, no, .. } => {
            left_of_test(behind, passed, yes.get(), no.get(), counts, choices, given)
        }
        Node::Give { piece, next, .. } => match after_use(behind.alloc, counts, *piece) {
            Err(Memory) => Err(SkipFault::Memory),
            Ok(here) => count_left(behind, passed, next.get(), here.as_slice(), choices, given),
        },
        Node::Done => left_of_end(behind, given),
    }
}

// With those behind a goal at a cut, or behind an answer to it.
#[cycle(left_goals)]
fn left_of_cut(
    behind: Behind,
    passed: u32,
    piece: u32,
    next: &Node,
    counts: &[u32],
    choices: &[Choice],
    given: u64,
) -> Result<u64, SkipFault>
    requires agents { behind.agents ≤ 16 }
    requires parts { all_parts counts.now + 1 + most_cuts (tree_of next.now) ≤ 65 }
    requires few { given ≤ 1000000 }
    ensures { (a l r : ℕ) (amount : LinOf) → IsCounted (given + goals_left behind.agents passed (CutTree a piece amount l r (tree_of next.now)) counts.now choices.now behind.kind) result }
{
    let parts = parts_of(counts, piece);
    let part = match part_taken(choices, parts) {
        None => return left_of_stuck(behind, piece, next, counts, given),
        Some(part) => part,
    };
    let here = match after_cut(behind.alloc, counts, piece, part + 1, parts - part) {
        Err(Memory) => return Err(SkipFault::Memory),
        Ok(here) => here,
    };
    let left = one_passed(passed);
    let rest = choices_after(choices, part as usize + 1);
    match count_left(behind, left, next, here.as_slice(), rest, given) {
        Err(fault) => Err(fault),
        Ok(given) => later_parts(
            behind.alloc,
            behind.agents,
            passed,
            piece,
            next,
            counts,
            part + 1,
            given,
        ),
    }
}

// With those behind the arm of a test that is taken.
#[cycle(left_goals)]
fn left_of_test(
    behind: Behind,
    passed: u32,
    yes: &Node,
    no: &Node,
    counts: &[u32],
    choices: &[Choice],
    given: u64,
) -> Result<u64, SkipFault>
    requires agents { behind.agents ≤ 16 }
    requires yes_parts { all_parts counts.now + most_cuts (tree_of yes.now) ≤ 65 }
    requires no_parts { all_parts counts.now + most_cuts (tree_of no.now) ≤ 65 }
    requires few { given ≤ 1000000 }
    ensures { (left right : LinOf) (strict : Bool) → IsCounted (given + goals_left behind.agents passed (TestTree left right strict (tree_of yes.now) (tree_of no.now)) counts.now choices.now behind.kind) result }
{
    let taken = match arm_taken(choices) {
        None => return Ok(given),
        Some(taken) => taken,
    };
    let left = one_passed(passed);
    let rest = choices_after(choices, 1);
    if !taken {
        return count_left(behind, left, no, counts, rest, given);
    }
    match count_left(behind, left, yes, counts, rest, given) {
        Err(fault) => Err(fault),
        Ok(given) => later_no(behind.alloc, behind.agents, passed, no, counts, given),
    }
}

// One choice less is left to pass.
fn one_passed(passed: u32) -> u32
    ensures { result ≡ one_less passed }
{
    passed.saturating_sub(1)
}

// With those behind Low or High of a cut.
fn left_of_stuck(
    behind: Behind,
    piece: u32,
    next: &Node,
    counts: &[u32],
    given: u64,
) -> Result<u64, SkipFault>
    requires agents { behind.agents ≤ 16 }
    requires parts { all_parts counts.now + 1 + most_cuts (tree_of next.now) ≤ 65 }
    requires few { given ≤ 1000000 }
    ensures { IsCounted (given + left_at_cut behind.kind (goals_in_parts behind.agents (tree_of next.now) counts.now piece 0)) result }
{
    match behind.kind {
        GoalKind::Low => match more(given, 1) {
            Err(fault) => Err(fault),
            Ok(given) => count_parts(behind.alloc, behind.agents, piece, next, counts, 0, given),
        },
        GoalKind::High => count_parts(behind.alloc, behind.agents, piece, next, counts, 0, given),
        GoalKind::Envy { .. } => Ok(given),
    }
}

// With those behind a pair at an end.
fn left_of_end(behind: Behind, given: u64) -> Result<u64, SkipFault>
    requires agents { behind.agents ≤ 16 }
    requires few { given ≤ 1000000 }
    ensures { IsCounted (given + left_at_end behind.agents behind.kind) result }
{
    match behind.kind {
        GoalKind::Low => Ok(given),
        GoalKind::High => Ok(given),
        GoalKind::Envy { a, b } => count_behind(behind.agents, a, b, given),
    }
}

// With one goal for each pair behind one. Behind the last pair of an agent come those of the next one.
fn count_behind(agents: u32, a: u32, b: u32, given: u64) -> Result<u64, SkipFault>
    requires agents { agents ≤ 16 }
    requires few { given ≤ 1000000 }
    ensures { IsCounted (given + length (pairs_from agents a (b + 1))) result }
{
    if a > agents {
        return Ok(given);
    }
    if b >= agents {
        return count_pairs(agents, a + 1, 1, given);
    }
    count_pairs(agents, a, b + 1, given)
}
