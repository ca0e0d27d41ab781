//! The core of a program, made depth first.
ghost use Rattle.std.specs.Prelude.{◌≡◌, ◌≤◌, ◌<◌, MatchResult, MatchOption, IfOk, IfErr, OnOk, map, [], ◌∷◌, ◌++◌, Some, length};
ghost use Rattle.slice_ast.specs.Code.{ACall};
ghost use Rattle.slice_expand.specs.ProgramRun.{param_names};
ghost use Rattle.slice_expand.specs.Trail.{Good, FaultIs, build, forked};
ghost use Rattle.slice_expand.specs.Marked as marked;
ghost use Rattle.slice_expand.specs.Scope.{bind, looks};
ghost use Rattle.slice_expand.specs.Stand.{meanings_of};
ghost use Rattle.slice_expand.specs.Spots.{frame_of, frames_of, spot_of, Follows, IsCallee, made_of, Halts, Called, Taken};
ghost use Rattle.slice_expand.specs.Frames.{build_at, with_head, rest_with, rest_from, rest_end, with_code, with_names, inside, inside_call};
ghost use Rattle.slice_ast.specs.View.{head_of, code_of, proc_of};

use crate::fault::ExpandFault;
use crate::names::{Meaning, Names};
use crate::straight::{Cut, arguments, cut_piece, give_piece, join_pieces, let_number};
use crate::trail::Trail;
use slice_ast::{AgentRef, Arg, Block, Cmp, Name, Param, Proc, Stmt, Sum};
use slice_core::Node;
use slice_num::Word;
use std::alloc::Global;
use std::mem;

/// A block that is expanded, or waits for one in it.
#[derive(Drop)]
pub struct Frame<'a> {
    /// The statements that are left.
    pub stmts: &'a [Stmt],
    /// What its names stand for.
    pub names: Names<'a>,
    /// What it yields.
    pub yields: &'a [Name],
    /// The names that the yields get in the block around it.
    pub targets: &'a [Name],
    /// The procedures that it can call.
    pub procs: &'a [Proc],
}

/// Where expansion stands.
#[derive(Drop)]
pub struct Builder<'a> {
    /// The innermost block.
    pub top: Frame<'a>,
    /// Those around it, the innermost last.
    pub outer: Vec<Frame<'a>>,
    pub trail: Trail,
}

/// A core that was made, and how many nodes and calls there are after it.
#[derive(Drop)]
pub struct Built {
    pub root: Node,
    pub nodes: u32,
    pub calls: u32,
}

/// A procedure that is called, and those that it can call.
#[derive(Clone, Copy, Drop)]
pub struct Callee<'a> {
    pub proc: &'a Proc,
    pub earlier: &'a [Proc],
}

/// A comparison, its arms, and the names that their yields get.
#[derive(Clone, Copy, Drop)]
pub struct Test<'a> {
    pub left: &'a Sum,
    pub cmp: Cmp,
    pub right: &'a Sum,
    pub yes: &'a Block,
    pub no: &'a Block,
    pub names: &'a [Name],
}

/// A pick among pieces, and the names that they get.
#[derive(Clone, Copy, Drop)]
pub struct Pick<'a> {
    pub agent: &'a AgentRef,
    pub pieces: &'a [Name],
    pub names: &'a [Name],
}

/// A statement at which a way forks.
#[derive(Clone, Copy, Drop)]
pub enum Fork<'a> {
    Test(Test<'a>),
    Pick(Pick<'a>),
}

// The last procedure of that name.
fn find_callee<'a>(procs: &'a [Proc], name: &Word) -> Option<Callee<'a>>
    ensures { IsCallee result procs.now name.now }
{
    let mut left = procs.len();
    while left > 0 {
        left -= 1;
        let proc = &procs[left];
        if proc.name.word.bytes() == name.bytes() {
            let earlier = &procs[..left];
            return Some(Callee { proc, earlier });
        }
    }
    None
}

// The names of parameters, bound to the arguments in order.
fn parameters<'a>(
    alloc: Global,
    params: &'a [Param],
    args: &[Meaning],
) -> Result<Names<'a>, ExpandFault>
    ensures names { IfOk result (λ n. n ≡ bind (param_names params.now) (meanings_of args.now) []) }
    ensures fault { IfErr result (λ e. e ≡ ExpandFault.Memory) }
{
    let mut names = Names::new();
    let count = params.len().min(args.len());
    for i in 0..count {
        if names.bind(alloc, &params[i].name, args[i]).is_err() {
            return Err(ExpandFault::Memory);
        }
    }
    Ok(names)
}

impl<'a> Frame<'a> {
    // The same block once more.
    fn copy(&self, alloc: Global) -> Result<Frame<'a>, ExpandFault>
        ensures { IfOk result (λ f. frame_of f ≡ frame_of self.now) }
    {
        Ok(Frame {
            stmts: self.stmts,
            names: self.names.copy()?,
            yields: self.yields,
            targets: self.targets,
            procs: self.procs,
        })
    }
}

// The same blocks once more.
fn copy_all<'a>(alloc: Global, frames: &[Frame<'a>]) -> Result<Vec<Frame<'a>>, ExpandFault>
    ensures { IfOk result (λ fs. frames_of fs.items ≡ frames_of frames.now) }
{
    let mut copy = Vec::new(alloc);
    for frame in frames {
        let one = frame.copy(alloc)?;
        if copy.push(one).is_err() {
            return Err(ExpandFault::Memory);
        }
    }
    Ok(copy)
}

impl<'a> Builder<'a> {
    // Everything once more, with no steps.
    pub fn copy(&self, alloc: Global) -> Result<Builder<'a>, ExpandFault>
        ensures fault { IfErr result (λ e. e ≡ ExpandFault.Memory) }
        ensures frames { IfOk result (λ b. (frame_of b.top ≡ frame_of self.now.top) × (frames_of b.outer.items ≡ frames_of self.now.outer.items)) }
        ensures trail { IfOk result (λ b. b.trail ≡ forked self.now.trail) }
    {
        let Ok(top) = self.top.copy(alloc) else {
            return Err(ExpandFault::Memory);
        };
        let Ok(outer) = copy_all(alloc, self.outer.as_slice()) else {
            return Err(ExpandFault::Memory);
        };
        let trail = self.trail.fork(alloc, self.trail.nodes, self.trail.calls);
        Ok(Builder { top, outer, trail })
    }

    // The block around gets the names for what the innermost one yields, and goes on.
    fn close(&mut self, alloc: Global, parent: Frame<'a>) -> Result<(), ExpandFault>
        ensures top { OnOk result (frame_of self.new.top ≡ with_names (bind (frame_of self.old.top).targets (looks (frame_of self.old.top).names (frame_of self.old.top).yields) (frame_of parent.entry).names) (frame_of parent.entry)) }
        ensures outer { self.new.outer ≡ self.old.outer }
        ensures fault { IfErr result (λ e. e ≡ ExpandFault.Memory) }
        ensures trail { self.new.trail ≡ self.old.trail }
    {
        let yielded = self.top.names.look_all(alloc, self.top.yields)?;
        let targets = self.top.targets;
        self.top = parent;
        self.top.names.bind_all(alloc, targets, yielded.as_slice())
    }

    // The next statement, after all blocks that ended, if there is one.
    fn next(&mut self, alloc: Global) -> Result<Option<&'a Stmt>, ExpandFault>
        ensures fault { IfErr result (λ e. e ≡ ExpandFault.Memory) }
        ensures stmt { IfOk result (λ o. Follows o (spot_of self.old) (spot_of self.new)) }
        ensures trail { self.new.trail ≡ self.old.trail }
        ensures fewer { length self.new.outer.items ≤ length self.old.outer.items }
    {
        loop {
            if let Some((stmt, more)) = self.top.stmts.split_first() {
                self.top.stmts = more;
                return Ok(Some(stmt));
            }
            let Some(parent) = self.outer.pop() else {
                return Ok(None);
            };
            self.close(alloc, parent)?;
        }
    }

    // A block inside, whose yields get these names.
    fn enter(&mut self, block: Frame<'a>) -> Result<(), ExpandFault>
        ensures blocks { OnOk result ((frame_of self.new.top ≡ frame_of block.entry) × (frames_of self.new.outer.items ≡ frames_of self.old.outer.items ++ frame_of self.old.top ∷ [])) }
        ensures trail { self.new.trail ≡ self.old.trail }
        ensures fault { IfErr result (λ e. e ≡ ExpandFault.Memory) }
    {
        let outer = mem::replace(&mut self.top, block);
        if self.outer.push(outer).is_err() {
            return Err(ExpandFault::Memory);
        }
        Ok(())
    }

    // An arm inside.
    pub fn open(
        &mut self,
        alloc: Global,
        arm: &'a Block,
        targets: &'a [Name],
    ) -> Result<(), ExpandFault>
        ensures fault { IfErr result (λ e. e ≡ ExpandFault.Memory) }
        ensures inside { OnOk result (spot_of self.new ≡ inside (code_of arm.now.stmts) arm.now.yields targets.now (spot_of self.old)) }
    {
        let Ok(names) = self.top.names.copy() else {
            return Err(ExpandFault::Memory);
        };
        let procs = self.top.procs;
        self.enter(Frame {
            stmts: arm.stmts.as_slice(),
            names,
            yields: arm.yields.as_slice(),
            targets,
            procs,
        })
    }

    // The statements of a procedure inside.
    fn open_call(
        &mut self,
        alloc: Global,
        callee: Callee<'a>,
        given: &[Meaning],
        targets: &'a [Name],
    ) -> Result<(), ExpandFault>
        ensures inside { OnOk result (spot_of self.new ≡ inside_call (proc_of callee.entry.proc.now) (map proc_of callee.entry.earlier.now) (meanings_of given.now) targets.now (spot_of self.old)) }
        ensures fault { IfErr result (λ e. e ≡ ExpandFault.Memory) }
    {
        let Callee { proc, earlier } = callee;
        let names = parameters(alloc, proc.params.as_slice(), given)?;
        self.enter(Frame {
            stmts: proc.body.stmts.as_slice(),
            names,
            yields: proc.body.yields.as_slice(),
            targets,
            procs: earlier,
        })
    }

    // A call, with its arguments' queries.
    fn call(
        &mut self,
        alloc: Global,
        name: &Name,
        items: &[Arg],
        targets: &'a [Name],
    ) -> Result<(), ExpandFault>
        ensures built { MatchResult result (λ u. build_at (with_head (ACall name.now items.now targets.now 0) (spot_of self.old)) ≡ build_at (spot_of self.new)) (λ e. FaultIs e (build_at (with_head (ACall name.now items.now targets.now 0) (spot_of self.old)))) }
        ensures counts { OnOk result (Called (spot_of self.old) (spot_of self.new)) }
    {
        let given = arguments(alloc, items, &self.top.names, &mut self.trail)?;
        let Some(callee) = find_callee(self.top.procs, &name.word) else {
            return Ok(());
        };
        self.open_call(alloc, callee, given.as_slice(), targets)?;
        Ok(())
    }

    // A statement: it is done, or it is where a way forks.
    fn take(&mut self, alloc: Global, stmt: &'a Stmt) -> Result<Option<Fork<'a>>, ExpandFault>
        ensures { MatchResult result (λ o. Taken o (head_of stmt.now) (spot_of self.old) (spot_of self.new)) (λ e. FaultIs e (build_at (with_head (head_of stmt.now) (spot_of self.old)))) }
    {
        let names = &mut self.top.names;
        let trail = &mut self.trail;
        match stmt {
            Stmt::Cut {
                agent,
                piece,
                amount,
                left,
                right,
            } => {
                let parts = Cut {
                    agent,
                    piece,
                    amount,
                    left,
                    right,
                };
                cut_piece(alloc, parts, names, trail)?;
                Ok(None)
            }
            Stmt::Let { name, sum } => {
                let_number(alloc, name, sum, names, trail)?;
                Ok(None)
            }
            Stmt::Join {
                first,
                second,
                name,
            } => {
                join_pieces(alloc, first, second, name, names, trail)?;
                Ok(None)
            }
            Stmt::Give { piece, agent } => {
                give_piece(piece, agent, names, trail)?;
                Ok(None)
            }
            Stmt::Call {
                callee,
                args,
                names,
                ..
            } => {
                self.call(alloc, callee, args.as_slice(), names.as_slice())?;
                Ok(None)
            }
            Stmt::If {
                left,
                cmp,
                right,
                yes,
                no,
                names,
                ..
            } => Ok(Some(Fork::Test(Test {
                left,
                cmp: *cmp,
                right,
                yes,
                no,
                names: names.as_slice(),
            }))),
            Stmt::Pick {
                agent,
                pieces,
                names,
                ..
            } => Ok(Some(Fork::Pick(Pick {
                agent,
                pieces: pieces.as_slice(),
                names: names.as_slice(),
            }))),
        }
    }

    // All statements up to a fork or the end.
    pub fn run(&mut self, alloc: Global) -> Result<Option<Fork<'a>>, ExpandFault>
        ensures { MatchResult result (λ o. Halts o (spot_of self.old) (spot_of self.new)) (λ e. FaultIs e (build_at (spot_of self.old))) }
    {
        while let Some(stmt) = self.next(alloc)? {
            if let Some(fork) = self.take(alloc, stmt)? {
                return Ok(Some(fork));
            }
        }
        Ok(None)
    }
}
