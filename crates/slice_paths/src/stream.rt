//! The goals of a core, one at a time.
ghost use Rattle.std.specs.Prelude.{◌≡◌, ◌<◌, ◌≤◌, ◌+◌, ◌++◌, ◌∷◌, ℕ, [], ⊤, drop, IfOk, IfErr, OnOk, OnErr, IsSome, IsNone, Some, None, is_some, MatchOption, if◌then◌else◌};
ghost use Rattle.slice_core.specs.Cores.{core_of};
ghost use Rattle.slice_paths.specs.Ahead.{left_at, ahead_of, frames_of};
ghost use Rattle.slice_paths.specs.Events.{events_of, next_goal};
ghost use Rattle.slice_paths.specs.Fronts.{cover_rows, front_of, events_after, ShareFirst};
ghost use Rattle.slice_paths.specs.Goals.{Goal as GoalOf, goals};
ghost use Rattle.slice_paths.specs.Streams.{last_after, kind_after, TellsRest, IsGivenLast};
ghost use Rattle.slice_paths.specs.Told.{IsNextGoal, IsRefusal};
ghost use Rattle.slice_paths.specs.Walking.{AllReady, OnwardReady, CutReady, PairsReady, RestReady, IsStep, IsNoStep, IsTurn};
ghost use Rattle.slice_paths.specs.declared.frames.Onward.TheVariants as onward;
ghost use Rattle.slice_paths.specs.declared.frames.Rest.TheVariants as Rest;
ghost use Rattle.slice_paths.specs.declared.goal.SkipFault.TheVariants as SkipFault;
ghost use Rattle.slice_core.specs.Nodes.{tree_of};

use crate::aims::{envy, goal_fault, high, low};
use crate::counting::count_from_root;
use crate::frames::{CutHere, Frame, Onward, Rest, Step, put_frame};
use crate::goal::{Goal, GoalFault, GoalKind, SkipFault};
use crate::retrace::{cover_of, frames_behind};
use crate::spot::Spot;
use crate::walk::{take_no, take_part, walk};
use slice_core::Core;
use slice_linear::Row;
use slice_num::{Choice, Memory};
use std::alloc::Global;
use std::marker::Model;

/// The goals of a core, one at a time, each made when it is asked for: Low and High at each cut, before what follows an
/// answer in each part of the piece; yes before no at each test; and each pair's envy at each end. Held are the spots on the
/// way from which something is left. Contracts see what is ahead, how many goals were given, the core, and of the goal given
/// last the choices and the kind.
#[derive(Drop)]
pub struct GoalStream<'a> {
    alloc: Global,
    core: &'a Core,
    agents: u32,
    given: u64,
    last: Vec<Choice>,
    kind: GoalKind,
    frames: Vec<Frame<'a>>,
}

impl<'a> Model for GoalStream<'a> {
    ghost use Rattle.std.specs.Prelude.{[], ◌≡◌, ◌≤◌};
    ghost use Rattle.slice_paths.specs.Streams.{Stream};

    ghost Value = { Stream };

    ghost use Rattle.slice_core.specs.contracts.core_tree.Core as core_row;
    ghost use Rattle.std.specs.Coded.{codes};

    ghost coded = { Prim.hlevel (codes, core_row.the_row.coded) };

    ghost use Rattle.slice_core.specs.Cores.{core_of};
    ghost use Rattle.slice_paths.specs.Ahead.{ahead_of};
    ghost use Rattle.slice_paths.specs.Walking.{AllReady};

    ghost view = { λ s. record {
      ahead = ahead_of s.agents s.frames.items [];
      given = s.given;
      core = s.core.now;
      last = s.last.items;
      kind = s.kind;
    } };

    ghost invariant = { λ s. AllReady s.agents s.frames.items × (s.agents ≡ (core_of s.core.now).agents) × (s.given ≤ 1000000) };
}

impl<'a> GoalStream<'a> {
    /// Before the first goal. `Err` comes only for want of memory.
    pub fn new(alloc: Global, core: &'a Core) -> Result<GoalStream<'a>, Memory>
        ensures ahead { IfOk result (λ s. s.ahead ≡ events_of (core_of core.now)) }
        ensures given { IfOk result (λ s. s.given ≡ 0) }
        ensures core { IfOk result (λ s. s.core ≡ core.now) }
        ensures last { IfOk result (λ s. s.last ≡ []) }
        ensures rest { IfOk result (λ s. TellsRest s) }
    {
        let agents = core.agents();
        let spot = Spot::start(alloc, agents)?;
        let rest = Rest::Walk(core.root());
        let mut frames = Vec::new(alloc);
        put_frame(&mut frames, Frame { rest, spot })?;
        let last = Vec::new(alloc);
        Ok(GoalStream {
            alloc,
            core,
            agents,
            given: 0,
            last,
            kind: GoalKind::Low,
            frames,
        })
    }

    /// How many goals were given, with those passed over.
    pub fn given(&self) -> u64
        ensures { result ≡ self.now.given }
    {
        self.given
    }

    /// The next goal; None exactly after the last. GoalLimit comes exactly where a goal is reached and 1,000,000 were given;
    /// Overflow, with the count of goals given, exactly where a number of a form on the way to the next goal doesn't fit, or
    /// one of its rows and 1,000,000 weren't given; Memory only for want of memory. After a refusal it may not be called
    /// again: what is ahead then isn't told.
    pub fn next(&mut self) -> Result<Option<Goal>, GoalFault>
        ensures ok { IfOk result (λ o. IsNextGoal o self.new.ahead (next_goal self.old.ahead self.old.given)) }
        ensures given { IfOk result (λ o. self.new.given ≡ self.old.given + (if is_some o then 1 else 0)) }
        ensures last { IfOk result (λ o. self.new.last ≡ last_after o self.old.last) }
        ensures kind { IfOk result (λ o. self.new.kind ≡ kind_after o self.old.kind) }
        ensures rest { TellsRest self.old → IfOk result (λ o. TellsRest self.new × MatchOption o ⊤ (λ g. IsGivenLast self.new g)) }
        ensures core { self.new.core ≡ self.old.core }
        ensures err { IfErr result (λ f. IsRefusal f self.old.given (next_goal self.old.ahead self.old.given)) }
    {
        match advance(self.alloc, self.agents, self.given, &mut self.frames) {
            Err(fault) => Err(fault),
            Ok(None) => Ok(None),
            Ok(Some(goal)) => {
                let Ok(last) = Vec::from_slice(self.alloc, goal.trace()) else {
                    return Err(GoalFault::Memory);
                };
                self.last = last;
                self.kind = goal.kind();
                self.given += 1;
                Ok(Some(goal))
            }
        }
    }

    /// The rows behind the first so many passed choices of the goal given last, without that of a goal: the whole is above 0,
    /// each agent's values make it up, and one row for each of these choices, over the atoms there. None exactly where the
    /// goal has fewer. A cut that was answered is one passed choice, and so is a test. Before the first goal no choice was
    /// passed. `Err` is want of memory. A number that didn't fit would be answered so too; none is met, since each of these
    /// fitted when the goal was made, but no clause says so.
    pub fn cover(&self, passed: u32) -> Result<Option<Vec<Row>>, Memory>
        ensures { IfOk result (λ o. MatchOption o (cover_rows (core_of self.now.core) passed self.now.last ≡ None) (λ v. cover_rows (core_of self.now.core) passed self.now.last ≡ Some v.items)) }
    {
        match cover_of(self.alloc, self.core, self.last.as_slice(), passed) {
            Ok(rows) => Ok(rows),
            Err(_) => Err(Memory),
        }
    }

    /// How many goals that are left have the same first so many passed choices as the one given last, those whose ways have
    /// numbers that don't fit included: those that `skip` would pass over. GoalLimit comes exactly where with them more than
    /// 1,000,000 goals would have been given, Memory only for want of memory.
    pub fn sharing(&self, passed: u32) -> Result<u64, SkipFault>
        requires rest { TellsRest self.now }
        requires last { (g : GoalOf) × IsGivenLast self.now g }
        requires has { front_of passed (core_of self.now.core).tree self.now.last ≡ None → ⊥ }
        ensures ok { IfOk result (λ n. ShareFirst (core_of self.now.core) passed self.now.last (drop self.now.given (goals (core_of self.now.core))) n × (self.now.given + n ≤ 1000000)) }
        ensures limit { IfErr result (λ f. f ≡ SkipFault.GoalLimit → (n : ℕ) × ShareFirst (core_of self.now.core) passed self.now.last (drop self.now.given (goals (core_of self.now.core))) n × (1000000 < self.now.given + n)) }
    {
        match count_from_root(
            self.alloc,
            self.core,
            passed,
            self.last.as_slice(),
            self.kind,
            self.given,
        ) {
            Err(fault) => Err(fault),
            Ok(given) => Ok(given - self.given),
        }
    }

    /// Passes over all goals that come yet and have the same first so many passed choices as the one given last, those whose
    /// ways have numbers that don't fit included, and tells how many they were. After that `next` gives what comes behind
    /// them. GoalLimit comes exactly where more than 1,000,000 goals would have been given then; nothing changes. Memory is
    /// want of memory. A number that didn't fit on the way to these choices would be answered so too; none is met, since each
    /// fitted when the goal was made, but no clause says so.
    pub fn skip(&mut self, passed: u32) -> Result<u64, SkipFault>
        requires rest { TellsRest self.old }
        requires last { (g : GoalOf) × IsGivenLast self.old g }
        requires has { front_of passed (core_of self.old.core).tree self.old.last ≡ None → ⊥ }
        ensures ok { IfOk result (λ n. ShareFirst (core_of self.old.core) passed self.old.last (drop self.old.given (goals (core_of self.old.core))) n × (self.new.given ≡ self.old.given + n) × (self.new.ahead ≡ events_after (core_of self.old.core) passed self.old.last)) }
        ensures few { OnOk result (self.new.given ≤ 1000000) }
        ensures rest { OnOk result (TellsRest self.new) }
        ensures limit { IfErr result (λ f. f ≡ SkipFault.GoalLimit → (n : ℕ) × ShareFirst (core_of self.old.core) passed self.old.last (drop self.old.given (goals (core_of self.old.core))) n × (1000000 < self.old.given + n)) }
        ensures err { OnErr result (self.new ≡ self.old) }
        ensures core { self.new.core ≡ self.old.core }
    {
        let skipped = match self.sharing(passed) {
            Err(fault) => return Err(fault),
            Ok(skipped) => skipped,
        };
        match frames_behind(self.alloc, self.core, self.last.as_slice(), passed) {
            Err(_) => Err(SkipFault::Memory),
            Ok(frames) => {
                self.frames = frames;
                self.given += skipped;
                Ok(skipped)
            }
        }
    }
}

// The next goal of the frames, after so many.
fn advance<'a>(
    alloc: Global,
    agents: u32,
    given: u64,
    frames: &mut Vec<Frame<'a>>,
) -> Result<Option<Goal>, GoalFault>
    requires { AllReady agents frames.old.items }
    ensures ok { IfOk result (λ o. IsNextGoal o (ahead_of agents frames.new.items []) (next_goal (ahead_of agents frames.old.items []) given)) }
    ensures few { IfOk result (λ o. IsSome o → given < 1000000) }
    ensures end { IfOk result (λ o. IsNone o → ahead_of agents frames.new.items [] ≡ []) }
    ensures err { IfErr result (λ f. IsRefusal f given (next_goal (ahead_of agents frames.old.items []) given)) }
    ensures ready { AllReady agents frames.new.items }
{
    while let Some(frame) = frames.pop() {
        match turn(alloc, agents, given, frame, frames) {
            Err(fault) => return Err(fault),
            Ok(Some(goal)) => return Ok(Some(goal)),
            Ok(None) => {}
        }
    }
    Ok(None)
}

// Takes one step at a frame that was the last, and puts what it leaves behind the others.
fn turn<'a>(
    alloc: Global,
    agents: u32,
    given: u64,
    frame: Frame<'a>,
    frames: &mut Vec<Frame<'a>>,
) -> Result<Option<Goal>, GoalFault>
    requires frame { RestReady agents frame.rest frame.spot }
    requires ready { AllReady agents frames.old.items }
    ensures ok { IfOk result (λ o. IsTurn agents given frame.entry frames.old.items o frames.new.items) }
    ensures err { IfErr result (λ f. IsRefusal f given (next_goal (left_at agents frame.entry.rest frame.entry.spot ++ ahead_of agents frames.old.items []) given)) }
    ensures ready { AllReady agents frames.new.items }
{
    match step(alloc, agents, given, frame) {
        Err(fault) => Err(fault),
        Ok(Step::Quiet(onward)) => match put(frames, onward) {
            Err(Memory) => Err(GoalFault::Memory),
            Ok(()) => Ok(None),
        },
        Ok(Step::Told(goal, frame)) => match put(frames, Onward::One(frame)) {
            Err(Memory) => Err(GoalFault::Memory),
            Ok(()) => Ok(Some(goal)),
        },
    }
}

// Puts the frames that a step leaves behind the others.
fn put<'a>(frames: &mut Vec<Frame<'a>>, onward: Onward<'a>) -> Result<(), Memory>
    ensures ok { OnOk result (frames.new.items ≡ frames.old.items ++ frames_of onward.entry) }
    ensures ready { (n : ℕ) → AllReady n frames.old.items → OnwardReady n onward.entry → AllReady n frames.new.items }
{
    match onward {
        Onward::End => Ok(()),
        Onward::One(frame) => put_frame(frames, frame),
        Onward::Two(later, sooner) => match put_frame(frames, later) {
            Err(Memory) => Err(Memory),
            Ok(()) => put_frame(frames, sooner),
        },
    }
}

// Does one thing of what is left at a spot.
fn step<'a>(alloc: Global, agents: u32, given: u64, frame: Frame<'a>) -> Result<Step<'a>, GoalFault>
    requires { RestReady agents frame.rest frame.spot }
    ensures ok { IfOk result (λ s. IsStep agents given frame.entry.rest frame.entry.spot s) }
    ensures err { IfErr result (λ e. IsNoStep agents given frame.entry.rest frame.entry.spot e) }
{
    let Frame { rest, spot } = frame;
    match rest {
        Rest::Walk(node) => match walk(alloc, node, spot) {
            Err(fault) => Err(goal_fault(fault, given)),
            Ok(onward) => Ok(Step::Quiet(onward)),
        },
        Rest::Parts(cut, part) => match take_part(alloc, agents, cut, part, spot) {
            Err(fault) => Err(goal_fault(fault, given)),
            Ok(onward) => Ok(Step::Quiet(onward)),
        },
        Rest::No(test) => match take_no(alloc, test, spot) {
            Err(fault) => Err(goal_fault(fault, given)),
            Ok(onward) => Ok(Step::Quiet(onward)),
        },
        Rest::Low(cut) => tell_low(alloc, agents, given, cut, spot),
        Rest::High(cut) => tell_high(alloc, agents, given, cut, spot),
        Rest::Pairs(a, b) => tell_pair(alloc, agents, given, a, b, spot),
    }
}

// The Low goal of a cut; its High comes behind it.
fn tell_low<'a>(
    alloc: Global,
    agents: u32,
    given: u64,
    cut: CutHere<'a>,
    spot: Spot,
) -> Result<Step<'a>, GoalFault>
    requires { CutReady agents cut.agent cut.piece cut.amount (tree_of cut.next.now) spot }
    ensures ok { IfOk result (λ s. IsStep agents given (Rest.Low cut.entry) spot s) }
    ensures err { IfErr result (λ e. IsNoStep agents given (Rest.Low cut.entry) spot e) }
{
    match low(alloc, agents, given, &cut.amount, &spot) {
        Err(fault) => Err(fault),
        Ok(goal) => Ok(Step::Told(
            goal,
            Frame {
                rest: Rest::High(cut),
                spot,
            },
        )),
    }
}

// The High goal of a cut; what follows an answer in each part comes behind it.
fn tell_high<'a>(
    alloc: Global,
    agents: u32,
    given: u64,
    cut: CutHere<'a>,
    spot: Spot,
) -> Result<Step<'a>, GoalFault>
    requires { CutReady agents cut.agent cut.piece cut.amount (tree_of cut.next.now) spot }
    ensures ok { IfOk result (λ s. IsStep agents given (Rest.High cut.entry) spot s) }
    ensures err { IfErr result (λ e. IsNoStep agents given (Rest.High cut.entry) spot e) }
{
    match high(alloc, agents, given, &cut, &spot) {
        Err(fault) => Err(fault),
        Ok(goal) => Ok(Step::Told(
            goal,
            Frame {
                rest: Rest::Parts(cut, 0),
                spot,
            },
        )),
    }
}

// The envy of a pair, or nothing where there is none of these numbers; the pairs after it are left.
fn tell_pair<'a>(
    alloc: Global,
    agents: u32,
    given: u64,
    a: u32,
    b: u32,
    spot: Spot,
) -> Result<Step<'a>, GoalFault>
    requires { PairsReady agents a b spot }
    ensures ok { IfOk result (λ s. IsStep agents given (Rest.Pairs a b) spot s) }
    ensures err { IfErr result (λ e. IsNoStep agents given (Rest.Pairs a b) spot e) }
{
    if a > agents {
        return Ok(Step::Quiet(Onward::End));
    }
    if b > agents {
        return Ok(Step::Quiet(pairs_left(a + 1, 1, spot)));
    }
    if a == b {
        return Ok(Step::Quiet(pairs_left(a, b + 1, spot)));
    }
    match envy(alloc, agents, given, a, b, &spot) {
        Err(fault) => Err(fault),
        Ok(goal) => Ok(Step::Told(
            goal,
            Frame {
                rest: Rest::Pairs(a, b + 1),
                spot,
            },
        )),
    }
}

// The pairs from one on are left.
fn pairs_left<'a>(a: u32, b: u32, spot: Spot) -> Onward<'a>
    ensures { result ≡ onward.One (record { rest = Rest.Pairs a b; spot = spot }) }
{
    Onward::One(Frame {
        rest: Rest::Pairs(a, b),
        spot,
    })
}
