//! What expansion keeps on a way: the nodes since the last test, and the counts.
ghost use Rattle.std.specs.Prelude.{◌≡◌, ◌≤◌, ◌+◌, ◌*◌, MatchResult, OnOk, IfOk, IfErr, []};
ghost use Rattle.slice_core.specs.Nodes.{tree_of};
ghost use Rattle.slice_expand.specs.Trail.{Good, FaultIs, noded, called, stepped, asked, set, cut, joined, given, before, attach, forked, forked_after};

use crate::fault::ExpandFault;
use slice_core::{Lin, Node};
use sqlite_items::Boxed;
use std::alloc::Global;
use std::marker::Model;
use std::mem;

/// The most nodes of a core.
const NODES: u32 = 200_000;
/// The most nodes on a way.
const DEPTH: u32 = 512;
/// The most cuts on a way.
const CUTS: u32 = 64;
/// The most calls that are put in line.
const CALLS: u32 = 100_000;

/// A node that one thing follows.
#[derive(Drop)]
pub enum Step {
    Ask {
        agent: u32,
        piece: u32,
        reg: u32,
    },
    Set {
        reg: u32,
        sum: Lin,
    },
    Cut {
        agent: u32,
        piece: u32,
        amount: Lin,
        left: u32,
        right: u32,
    },
    Join {
        first: u32,
        second: u32,
        piece: u32,
    },
    Give {
        piece: u32,
        agent: u32,
    },
}

/// The steps since the last test, and what is on the way and in the core so far.
#[derive(Drop)]
pub struct Trail {
    pub steps: Vec<Step>,
    pub depth: u32,
    pub cuts: u32,
    pub regs: u32,
    pub pieces: u32,
    pub nodes: u32,
    pub calls: u32,
}

impl Model for Trail {
    ghost use Rattle.std.specs.Prelude.{◌≤◌, ◌+◌, ◌*◌};
    ghost use Rattle.slice_expand.specs.Trail.{PlainTrail};

    ghost Value = { PlainTrail };

    ghost view = { λ t. record { steps = t.steps.items; depth = t.depth; cuts = t.cuts; regs = t.regs; pieces = t.pieces; nodes = t.nodes; calls = t.calls } };

    // A node is a cut at most, sets one register at most and makes two pieces at most.
    ghost invariant = { λ t. (t.depth ≤ 512) × (t.cuts ≤ t.depth) × (t.regs ≤ t.depth) × (t.pieces ≤ 2 * t.depth + 1) };
}

impl Trail {
    /// The same place on the way with no steps, where so many nodes and calls were made in all.
    pub fn fork(&self, alloc: Global, nodes: u32, calls: u32) -> Trail
        ensures { result ≡ forked_after self.now nodes calls }
    {
        Trail {
            steps: Vec::new(alloc),
            depth: self.depth,
            cuts: self.cuts,
            regs: self.regs,
            pieces: self.pieces,
            nodes,
            calls,
        }
    }

    /// Takes the steps.
    pub fn take_steps(&mut self, alloc: Global) -> Vec<Step>
        ensures steps { result.items ≡ self.old.steps }
        ensures rest { self.new ≡ forked self.old }
    {
        mem::replace(&mut self.steps, Vec::new(alloc))
    }

    // A node more, with so many cuts up to it.
    fn count(&mut self, cuts: u32) -> Result<(), ExpandFault>
        requires { cuts ≤ self.old.depth + 1 }
        ensures counted { MatchResult result (λ u. noded cuts self.old ≡ Good self.new) (λ e. FaultIs e (noded cuts self.old)) }
        ensures deeper { OnOk result ((self.new.depth ≡ self.old.depth + 1) × (self.new.depth ≤ 512)) }
        ensures same { OnOk result ((self.new.regs ≡ self.old.regs) × (self.new.pieces ≡ self.old.pieces)) }
    {
        if self.nodes >= NODES {
            return Err(ExpandFault::NodeLimit);
        }
        if self.depth >= DEPTH {
            return Err(ExpandFault::DepthLimit);
        }
        if cuts > CUTS {
            return Err(ExpandFault::CutLimit);
        }
        self.nodes += 1;
        self.depth += 1;
        self.cuts = cuts;
        Ok(())
    }

    /// A node more, which is no cut.
    pub fn node(&mut self) -> Result<(), ExpandFault>
        ensures counted { MatchResult result (λ u. noded self.old.cuts self.old ≡ Good self.new) (λ e. FaultIs e (noded self.old.cuts self.old)) }
        ensures deeper { OnOk result ((self.new.depth ≡ self.old.depth + 1) × (self.new.depth ≤ 512)) }
    {
        self.count(self.cuts)
    }

    /// A call more.
    pub fn call(&mut self) -> Result<(), ExpandFault>
        ensures { MatchResult result (λ u. called self.old ≡ Good self.new) (λ e. FaultIs e (called self.old)) }
    {
        if self.calls >= CALLS {
            return Err(ExpandFault::CallLimit);
        }
        self.calls += 1;
        Ok(())
    }

    // A step more, which sets so many registers and makes so many pieces.
    fn push(&mut self, step: Step, regs: u32, pieces: u32) -> Result<(), ExpandFault>
        requires regs { self.old.regs + regs ≤ self.old.depth }
        requires pieces { self.old.pieces + pieces ≤ 2 * self.old.depth + 1 }
        ensures done { OnOk result (self.new ≡ stepped step regs pieces self.old) }
        ensures fault { IfErr result (λ e. e ≡ ExpandFault.Memory) }
    {
        let regs = self.regs + regs;
        let pieces = self.pieces + pieces;
        if self.steps.push(step).is_err() {
            return Err(ExpandFault::Memory);
        }
        self.regs = regs;
        self.pieces = pieces;
        Ok(())
    }

    /// A query.
    pub fn ask(&mut self, agent: u32, piece: u32) -> Result<(), ExpandFault>
        ensures { MatchResult result (λ u. asked agent piece self.old ≡ Good self.new) (λ e. FaultIs e (asked agent piece self.old)) }
    {
        let reg = self.regs;
        self.count(self.cuts)?;
        self.push(Step::Ask { agent, piece, reg }, 1, 0)?;
        Ok(())
    }

    /// A sum in a register.
    pub fn set(&mut self, sum: Lin) -> Result<(), ExpandFault>
        ensures { MatchResult result (λ u. set sum self.old ≡ Good self.new) (λ e. FaultIs e (set sum self.old)) }
    {
        let reg = self.regs;
        self.count(self.cuts)?;
        self.push(Step::Set { reg, sum }, 1, 0)?;
        Ok(())
    }

    /// A cut.
    pub fn cut(&mut self, agent: u32, piece: u32, amount: Lin) -> Result<(), ExpandFault>
        ensures { MatchResult result (λ u. cut agent piece amount self.old ≡ Good self.new) (λ e. FaultIs e (cut agent piece amount self.old)) }
    {
        let left = self.pieces;
        let right = left + 1;
        self.count(self.cuts + 1)?;
        self.push(
            Step::Cut {
                agent,
                piece,
                amount,
                left,
                right,
            },
            0,
            2,
        )?;
        Ok(())
    }

    /// A join.
    pub fn join(&mut self, first: u32, second: u32) -> Result<(), ExpandFault>
        ensures { MatchResult result (λ u. joined first second self.old ≡ Good self.new) (λ e. FaultIs e (joined first second self.old)) }
    {
        let piece = self.pieces;
        self.count(self.cuts)?;
        self.push(
            Step::Join {
                first,
                second,
                piece,
            },
            0,
            1,
        )?;
        Ok(())
    }

    /// A gift.
    pub fn give(&mut self, piece: u32, agent: u32) -> Result<(), ExpandFault>
        ensures { MatchResult result (λ u. given piece agent self.old ≡ Good self.new) (λ e. FaultIs e (given piece agent self.old)) }
    {
        self.count(self.cuts)?;
        self.push(Step::Give { piece, agent }, 0, 0)?;
        Ok(())
    }
}

// The step before a node.
fn put_before(alloc: Global, step: Step, node: Node) -> Result<Node, ExpandFault>
    ensures tree { IfOk result (λ n. tree_of n ≡ before step (tree_of node)) }
    ensures fault { IfErr result (λ e. e ≡ ExpandFault.Memory) }
{
    let Ok(next) = Boxed::new(alloc, node) else {
        return Err(ExpandFault::Memory);
    };
    Ok(match step {
        Step::Ask { agent, piece, reg } => Node::Ask {
            agent,
            piece,
            reg,
            next,
        },
        Step::Set { reg, sum } => Node::Set { reg, sum, next },
        Step::Cut {
            agent,
            piece,
            amount,
            left,
            right,
        } => Node::Cut {
            agent,
            piece,
            amount,
            left,
            right,
            next,
        },
        Step::Join {
            first,
            second,
            piece,
        } => Node::Join {
            first,
            second,
            piece,
            next,
        },
        Step::Give { piece, agent } => Node::Give { piece, agent, next },
    })
}

/// The steps before a node.
#[tactic(auto, using(crate::proofs::Trails::attach_last))]
pub fn put_all(alloc: Global, mut steps: Vec<Step>, node: Node) -> Result<Node, ExpandFault>
    ensures tree { IfOk result (λ n. tree_of n ≡ attach steps.items (tree_of node)) }
    ensures fault { IfErr result (λ e. e ≡ ExpandFault.Memory) }
{
    let mut whole = node;
    while let Some(step) = steps.pop() {
        whole = put_before(alloc, step, whole)?;
    }
    Ok(whole)
}
