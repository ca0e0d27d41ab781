//! The forks of a core, where each way is made to its end.
ghost use Rattle.std.specs.Prelude.{◌≡◌, ◌≤◌, ◌<◌, ◌+◌, MatchResult, IfOk, IfErr, OnOk, length, map, [], ◌∷◌, ◌++◌};
ghost use Rattle.slice_core.specs.Nodes.{tree_of};
ghost use Rattle.slice_core.specs.Tree as tree;
ghost use Rattle.slice_expand.specs.Scope.{pieces_named, as_pieces, agent_at};
ghost use Rattle.slice_expand.specs.Expansion.{offers, offered, one_reg, sum_lin, asks_of};
ghost use Rattle.slice_expand.specs.Stand.{meanings_of};
ghost use Rattle.slice_expand.specs.Trail.{Good, FaultIs, test_tree, offers_in, test_in, build};
ghost use Rattle.slice_expand.specs.Frames.{build_at, with_head};
ghost use Rattle.slice_expand.specs.Marked as marked;
ghost use Rattle.slice_expand.specs.Spots.{spot_of, fork_head, made_of, arm_of};
ghost use Rattle.slice_expand.specs.Growing.{offer_of, offers_of, order_of, order_pieces, keep, beat, arms_at, IsArms, contest_at, orders_at};
ghost use Rattle.slice_expand.specs.declared.build.Fork.TheVariants as fork;

use crate::build::{Builder, Built, Fork, Pick, Test};
use crate::fault::ExpandFault;
use crate::names::{Meaning, Names};
use crate::sums::ask_sum;
use crate::trail::{Trail, put_all};
use slice_ast::{Block, Cmp, Name};
use slice_core::{Lin, LinTerm, Node, Source};
use sqlite_items::{Boxed, Items};
use std::alloc::Global;

/// A piece that was asked, and the register of the answer.
#[derive(Clone, Copy, Debug, PartialEq, Eq)]
pub struct Offer {
    pub piece: u32,
    pub reg: u32,
}

/// The best offer so far, and the others before and after it.
#[derive(Drop)]
pub struct Order {
    pub before: Vec<Offer>,
    pub best: Offer,
    pub after: Vec<Offer>,
}

/// Both arms of a test, and how many nodes and calls there are after them.
#[derive(Drop)]
pub struct Arms {
    pub yes: Node,
    pub no: Node,
    pub nodes: u32,
    pub calls: u32,
}

// A test of two sums.
fn test_node(
    alloc: Global,
    sums: (Lin, Lin),
    strict: bool,
    yes: Node,
    no: Node,
) -> Result<Node, ExpandFault>
    ensures tree { IfOk result (λ n. tree_of n ≡ tree.Test sums.0 sums.1 strict (tree_of yes) (tree_of no)) }
    ensures fault { IfErr result (λ e. e ≡ ExpandFault.Memory) }
{
    let (left, right) = sums;
    let Ok(yes) = Boxed::new(alloc, yes) else {
        return Err(ExpandFault::Memory);
    };
    let Ok(no) = Boxed::new(alloc, no) else {
        return Err(ExpandFault::Memory);
    };
    Ok(Node::Test {
        left,
        right,
        strict,
        yes,
        no,
    })
}

// The test of a comparison.
fn compare_node(
    alloc: Global,
    cmp: Cmp,
    left: Lin,
    right: Lin,
    arms: (Node, Node),
) -> Result<Node, ExpandFault>
    ensures tree { IfOk result (λ n. tree_of n ≡ test_tree cmp left right (tree_of arms.0) (tree_of arms.1)) }
    ensures fault { IfErr result (λ e. e ≡ ExpandFault.Memory) }
{
    let (yes, no) = arms;
    match cmp {
        Cmp::Less => test_node(alloc, (right, left), true, yes, no),
        Cmp::AtMost => test_node(alloc, (right, left), false, yes, no),
        Cmp::More => test_node(alloc, (left, right), true, yes, no),
        Cmp::AtLeast => test_node(alloc, (left, right), false, yes, no),
    }
}

// The sum that is one register.
fn one_reg(alloc: Global, reg: u32) -> Result<Lin, ExpandFault>
    ensures sum { IfOk result (λ l. l ≡ one_reg reg) }
    ensures fault { IfErr result (λ e. e ≡ ExpandFault.Memory) }
{
    let mut terms = Items::new(alloc);
    let term = LinTerm {
        minus: false,
        factor: None,
        source: Source::Reg(reg),
    };
    if terms.push(term).is_err() {
        return Err(ExpandFault::Memory);
    }
    Ok(Lin { terms })
}

// The queries of a pick.
fn ask_each(
    alloc: Global,
    agent: u32,
    pieces: &[Name],
    names: &Names<'_>,
    trail: &mut Trail,
) -> Result<Vec<Offer>, ExpandFault>
    ensures queries { MatchResult result (λ o. offers_in agent (pieces_named names.now pieces.now) trail.old ≡ Good trail.new) (λ e. FaultIs e (offers_in agent (pieces_named names.now pieces.now) trail.old)) }
    ensures offers { IfOk result (λ o. offers_of o.items ≡ offers trail.old.regs (pieces_named names.now pieces.now)) }
{
    let mut asked = Vec::new(alloc);
    for name in pieces {
        let piece = names.piece(name);
        let reg = trail.regs;
        trail.ask(agent, piece)?;
        if asked.push(Offer { piece, reg }).is_err() {
            return Err(ExpandFault::Memory);
        }
    }
    Ok(asked)
}

// The pieces of offers.
fn push_pieces(meanings: &mut Vec<Meaning>, offers: &[Offer]) -> Result<(), ExpandFault>
    ensures pieces { OnOk result (meanings_of meanings.new.items ≡ meanings_of meanings.old.items ++ as_pieces (offered (offers_of offers.now))) }
    ensures fault { IfErr result (λ e. e ≡ ExpandFault.Memory) }
{
    for offer in offers {
        if meanings.push(Meaning::Piece(offer.piece)).is_err() {
            return Err(ExpandFault::Memory);
        }
    }
    Ok(())
}

impl Order {
    // The best piece, then the others in their order.
    fn meanings(&self, alloc: Global) -> Result<Vec<Meaning>, ExpandFault>
        ensures pieces { IfOk result (λ ms. meanings_of ms.items ≡ as_pieces (order_pieces (order_of self.now))) }
        ensures fault { IfErr result (λ e. e ≡ ExpandFault.Memory) }
    {
        let mut meanings = Vec::new(alloc);
        push_pieces(&mut meanings, &[self.best])?;
        push_pieces(&mut meanings, self.before.as_slice())?;
        push_pieces(&mut meanings, self.after.as_slice())?;
        Ok(meanings)
    }

    // The order where the best stays before that one.
    fn kept(&self, alloc: Global, offer: Offer) -> Result<Order, ExpandFault>
        ensures order { IfOk result (λ o. order_of o ≡ keep (offer_of offer) (order_of self.now)) }
        ensures fault { IfErr result (λ e. e ≡ ExpandFault.Memory) }
    {
        let Ok(before) = Vec::from_slice(alloc, self.before.as_slice()) else {
            return Err(ExpandFault::Memory);
        };
        let Ok(mut after) = Vec::from_slice(alloc, self.after.as_slice()) else {
            return Err(ExpandFault::Memory);
        };
        if after.push(offer).is_err() {
            return Err(ExpandFault::Memory);
        }
        let best = self.best;
        Ok(Order {
            before,
            best,
            after,
        })
    }

    // The order where that one is better.
    fn beaten(&self, alloc: Global, offer: Offer) -> Result<Order, ExpandFault>
        ensures order { IfOk result (λ o. order_of o ≡ beat (offer_of offer) (order_of self.now)) }
        ensures fault { IfErr result (λ e. e ≡ ExpandFault.Memory) }
    {
        let Ok(mut before) = Vec::from_slice(alloc, self.before.as_slice()) else {
            return Err(ExpandFault::Memory);
        };
        if before.push(self.best).is_err() {
            return Err(ExpandFault::Memory);
        }
        if before.extend_from_slice(self.after.as_slice()).is_err() {
            return Err(ExpandFault::Memory);
        }
        Ok(Order {
            before,
            best: offer,
            after: Vec::new(alloc),
        })
    }
}

// Nothing follows.
fn finish(alloc: Global, mut builder: Builder<'_>) -> Result<Built, ExpandFault>
    ensures { MatchResult result (λ x. build marked.End builder.entry.trail ≡ Good (made_of x)) (λ e. FaultIs e (build marked.End builder.entry.trail)) }
{
    builder.trail.node()?;
    let steps = builder.trail.take_steps(alloc);
    let nodes = builder.trail.nodes;
    let calls = builder.trail.calls;
    let root = put_all(alloc, steps, Node::Done)?;
    Ok(Built { root, nodes, calls })
}

// Goes on to the end of each way.
#[cycle(advance)]
pub fn advance(alloc: Global, mut builder: Builder<'_>) -> Result<Built, ExpandFault>
    requires { builder.trail.depth ≤ 512 }
    ensures { MatchResult result (λ x. build_at (spot_of builder.entry) ≡ Good (made_of x)) (λ e. FaultIs e (build_at (spot_of builder.entry))) }
{
    match builder.run(alloc)? {
        None => finish(alloc, builder),
        Some(Fork::Test(item)) => run_test(alloc, builder, item),
        Some(Fork::Pick(item)) => run_pick(alloc, builder, item),
    }
}

// Both arms of a test.
#[cycle(advance)]
fn both_arms<'a>(
    alloc: Global,
    mut builder: Builder<'a>,
    item: Test<'a>,
) -> Result<Arms, ExpandFault>
    requires { builder.trail.depth ≤ 512 }
    ensures { MatchResult result (λ x. IsArms (arms_at (arm_of item.entry.yes.now) (arm_of item.entry.no.now) item.entry.names.now (spot_of builder.entry)) x) (λ e. FaultIs e (arms_at (arm_of item.entry.yes.now) (arm_of item.entry.no.now) item.entry.names.now (spot_of builder.entry))) }
{
    let mut first = builder.copy(alloc)?;
    first.open(alloc, item.yes, item.names)?;
    let yes = advance(alloc, first)?;
    builder.trail = builder.trail.fork(alloc, yes.nodes, yes.calls);
    builder.open(alloc, item.no, item.names)?;
    let no = advance(alloc, builder)?;
    Ok(Arms {
        yes: yes.root,
        no: no.root,
        nodes: no.nodes,
        calls: no.calls,
    })
}

// The queries of a comparison, its two sums, and its node.
fn begin_test(
    alloc: Global,
    item: Test<'_>,
    names: &Names<'_>,
    trail: &mut Trail,
) -> Result<(Lin, Lin), ExpandFault>
    ensures queries { MatchResult result (λ s. test_in names.now item.entry.left.now.terms item.entry.right.now.terms trail.old ≡ Good trail.new) (λ e. FaultIs e (test_in names.now item.entry.left.now.terms item.entry.right.now.terms trail.old)) }
    ensures left { IfOk result (λ s. s.0 ≡ sum_lin names.now trail.old.regs item.entry.left.now.terms) }
    ensures right { IfOk result (λ s. s.1 ≡ sum_lin names.now (trail.old.regs + asks_of item.entry.left.now.terms) item.entry.right.now.terms) }
    ensures deeper { OnOk result ((trail.old.depth < trail.new.depth) × (trail.new.depth ≤ 512)) }
{
    let left = ask_sum(alloc, names, item.left, trail)?;
    let right = ask_sum(alloc, names, item.right, trail)?;
    trail.node()?;
    Ok((left, right))
}

// A comparison and what comes after it.
#[cycle(advance)]
fn run_test<'a>(
    alloc: Global,
    mut builder: Builder<'a>,
    item: Test<'a>,
) -> Result<Built, ExpandFault>
    requires { builder.trail.depth ≤ 512 }
    ensures { MatchResult result (λ x. build_at (with_head (fork_head (fork.Test item.entry)) (spot_of builder.entry)) ≡ Good (made_of x)) (λ e. FaultIs e (build_at (with_head (fork_head (fork.Test item.entry)) (spot_of builder.entry)))) }
{
    let place = &mut builder;
    let (left, right) = begin_test(alloc, item, &place.top.names, &mut place.trail)?;
    let steps = place.trail.take_steps(alloc);
    let Arms {
        yes,
        no,
        nodes,
        calls,
    } = both_arms(alloc, builder, item)?;
    let node = compare_node(alloc, item.cmp, left, right, (yes, no))?;
    let root = put_all(alloc, steps, node)?;
    Ok(Built { root, nodes, calls })
}

// The queries of a pick.
fn begin_pick(
    alloc: Global,
    item: Pick<'_>,
    names: &Names<'_>,
    trail: &mut Trail,
) -> Result<Vec<Offer>, ExpandFault>
    ensures queries { MatchResult result (λ o. offers_in (agent_at names.now item.entry.agent.now) (pieces_named names.now item.entry.pieces.now) trail.old ≡ Good trail.new) (λ e. FaultIs e (offers_in (agent_at names.now item.entry.agent.now) (pieces_named names.now item.entry.pieces.now) trail.old)) }
    ensures offers { IfOk result (λ o. offers_of o.items ≡ offers trail.old.regs (pieces_named names.now item.entry.pieces.now)) }
    ensures deeper { IfOk result (λ o. 0 < length o.items → (trail.old.depth < trail.new.depth) × (trail.new.depth ≤ 512)) }
{
    let agent = names.agent(item.agent)?;
    let offers = ask_each(alloc, agent, item.pieces, names, trail)?;
    Ok(offers)
}

// The queries of a pick, its tests, and what comes after it.
#[cycle(advance)]
fn run_pick<'a>(
    alloc: Global,
    mut builder: Builder<'a>,
    item: Pick<'a>,
) -> Result<Built, ExpandFault>
    requires { builder.trail.depth ≤ 512 }
    ensures { MatchResult result (λ x. build_at (with_head (fork_head (fork.Pick item.entry)) (spot_of builder.entry)) ≡ Good (made_of x)) (λ e. FaultIs e (build_at (with_head (fork_head (fork.Pick item.entry)) (spot_of builder.entry)))) }
{
    let place = &mut builder;
    let offers = begin_pick(alloc, item, &place.top.names, &mut place.trail)?;
    // The grammar has no pick without pieces.
    let Some((best, left)) = offers.as_slice().split_first() else {
        return Err(ExpandFault::Memory);
    };
    let order = Order {
        before: Vec::new(alloc),
        best: *best,
        after: Vec::new(alloc),
    };
    contest(alloc, builder, order, left, item.names)
}

// The tests of a pick from an order on, and what comes after it.
#[cycle(advance)]
fn contest<'a>(
    alloc: Global,
    builder: Builder<'a>,
    order: Order,
    left: &[Offer],
    names: &'a [Name],
) -> Result<Built, ExpandFault>
    requires { builder.trail.depth ≤ 512 }
    ensures { MatchResult result (λ x. contest_at (order_of order) (offers_of left.now) names.now (spot_of builder.entry) ≡ Good (made_of x)) (λ e. FaultIs e (contest_at (order_of order) (offers_of left.now) names.now (spot_of builder.entry))) }
{
    match left.split_first() {
        Some((offer, left)) => duel(alloc, builder, order, *offer, left, names),
        None => settle(alloc, builder, order, names),
    }
}

// The names get the pieces, the best first.
#[cycle(advance)]
fn settle<'a>(
    alloc: Global,
    mut builder: Builder<'a>,
    order: Order,
    names: &'a [Name],
) -> Result<Built, ExpandFault>
    requires { builder.trail.depth ≤ 512 }
    ensures { MatchResult result (λ x. contest_at (order_of order) [] names.now (spot_of builder.entry) ≡ Good (made_of x)) (λ e. FaultIs e (contest_at (order_of order) [] names.now (spot_of builder.entry))) }
{
    let meanings = order.meanings(alloc)?;
    builder
        .top
        .names
        .bind_all(alloc, names, meanings.as_slice())?;
    advance(alloc, builder)
}

// Both ways on from two orders.
#[cycle(advance)]
fn both_orders<'a>(
    alloc: Global,
    mut builder: Builder<'a>,
    orders: (Order, Order),
    left: &[Offer],
    names: &'a [Name],
) -> Result<Arms, ExpandFault>
    requires { builder.trail.depth ≤ 512 }
    ensures { MatchResult result (λ x. IsArms (orders_at (order_of orders.0) (order_of orders.1) (offers_of left.now) names.now (spot_of builder.entry)) x) (λ e. FaultIs e (orders_at (order_of orders.0) (order_of orders.1) (offers_of left.now) names.now (spot_of builder.entry))) }
{
    let (kept, beaten) = orders;
    let first = builder.copy(alloc)?;
    let yes = contest(alloc, first, kept, left, names)?;
    builder.trail = builder.trail.fork(alloc, yes.nodes, yes.calls);
    let no = contest(alloc, builder, beaten, left, names)?;
    Ok(Arms {
        yes: yes.root,
        no: no.root,
        nodes: no.nodes,
        calls: no.calls,
    })
}

// The best so far against one more.
#[cycle(advance)]
fn duel<'a>(
    alloc: Global,
    mut builder: Builder<'a>,
    order: Order,
    offer: Offer,
    left: &[Offer],
    names: &'a [Name],
) -> Result<Built, ExpandFault>
    requires { builder.trail.depth ≤ 512 }
    ensures { MatchResult result (λ x. contest_at (order_of order) (offer_of offer ∷ offers_of left.now) names.now (spot_of builder.entry) ≡ Good (made_of x)) (λ e. FaultIs e (contest_at (order_of order) (offer_of offer ∷ offers_of left.now) names.now (spot_of builder.entry))) }
{
    let best = one_reg(alloc, order.best.reg)?;
    let other = one_reg(alloc, offer.reg)?;
    let kept = order.kept(alloc, offer)?;
    let beaten = order.beaten(alloc, offer)?;
    let place = &mut builder;
    place.trail.node()?;
    let steps = place.trail.take_steps(alloc);
    let Arms {
        yes,
        no,
        nodes,
        calls,
    } = both_orders(alloc, builder, (kept, beaten), left, names)?;
    let test = test_node(alloc, (best, other), false, yes, no)?;
    let root = put_all(alloc, steps, test)?;
    Ok(Built { root, nodes, calls })
}
