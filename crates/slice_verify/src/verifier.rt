//! The decision of a core, goal by goal.
ghost use Rattle.std.specs.Prelude.{◌≡◌, ℕ, ◌≤◌, MatchOption, ⊤, length, IfOk, IfErr, OnOk, None};
ghost use Rattle.std.specs.List.{All, Contains};
ghost use Rattle.slice_num.specs.Rational.{Fits};
ghost use Rattle.slice_io.specs.Causes.{Rose};
ghost use Rattle.slice_core.specs.Cores.{core_of};
ghost use Rattle.slice_linear.specs.Rows.{AreRowsOver, IsSolution, width};
ghost use Rattle.slice_paths.specs.Events.{events_of, next_goal};
ghost use Rattle.slice_paths.specs.Goals.{Goal as GoalOf, goals};
ghost use Rattle.slice_paths.specs.Streams.{IsGivenLast, TellsRest};
ghost use Rattle.slice_paths.specs.Told.{IsRefusal};
ghost use Rattle.slice_check.specs.Upgrading.{HasPassed};
ghost use Rattle.slice_verify.specs.Report.{DecisionIs, FaultIs, IsAccepted, IsCounterOf, IsExact, IsRefutedBy};
ghost use Rattle.slice_verify.specs.Working.{GoalIs, GoalStops, GoesOn, IsNextOf, IsPassed, IsTooHigh, NoneComes, PassStops, stop_at, stop_for};
ghost use Rattle.slice_verify.specs.declared.verifier.VerifyFault.TheVariants as fault;

use crate::lines::{close, close_found, put_header, put_line};
use slice_cert::{Line, short_line};
use slice_core::Core;
use slice_counter::{CounterFault, Counterexample, build};
use slice_io::Sink;
use slice_num::Memory;
use slice_paths::laws::{
    covers_are_fronts, goals_behind_fit, goals_have_covers,
    goals_refuted_on_the_way_mean_fair_runs, rows_are_over_the_unknowns, short_forms_refute,
    streams_give_goals,
};
use slice_paths::{Goal, GoalFault, GoalStream, SkipFault};
use slice_simplex::{Proof, ProveFault, Prover};
use std::alloc::Global;

/// What is decided of a core.
#[derive(Drop)]
pub enum Decision {
    /// No run is stuck or leaves envy.
    EnvyFree {
        /// How many goals were refuted: all.
        goals: u64,
    },
    /// This run is stuck, or leaves envy.
    Found(Counterexample),
}

/// Why nothing was decided. A goal is told by its number, from 0.
#[derive(Clone, Copy, Debug, PartialEq, Eq)]
pub enum VerifyFault {
    /// A further goal would be the 1,000,001st.
    GoalLimit,
    /// After so many goals a number of a form or a row doesn't fit.
    FormOverflow {
        goal: u64,
    },
    /// The prover made 100,000 pivots for the goal, and would make a further one.
    PivotLimit {
        goal: u64,
    },
    /// After so many pivots for the goal a number of the prover doesn't fit, at this row and column of its tableau.
    PivotOverflow {
        goal: u64,
        pivots: u64,
        row: usize,
        col: usize,
    },
    /// The solution of the goal's rows gives the agent, numbered from 1, a value of the atom, numbered from 0 from left to
    /// right, above 10^18.
    HeightLimit {
        goal: u64,
        agent: u32,
        atom: u32,
    },
    /// The sink failed.
    WriteFault,
    /// No memory was left.
    Memory,
}

impl From<Memory> for VerifyFault {
    ghost from_gives = { λ _ e. e ≡ fault.Memory };

    fn from(_memory: Memory) -> VerifyFault {
        VerifyFault::Memory
    }
}

impl From<GoalFault> for VerifyFault {
    ghost from_gives = { λ f e. e ≡ stop_at f };

    fn from(fault: GoalFault) -> VerifyFault {
        match fault {
            GoalFault::GoalLimit => VerifyFault::GoalLimit,
            GoalFault::Overflow { goal } => VerifyFault::FormOverflow { goal },
            GoalFault::Memory => VerifyFault::Memory,
        }
    }
}

// How many pivots the prover makes for a goal, at most.
const PIVOT_LIMIT: u64 = 100_000;

/// Decides a core: whether every run of it is done and leaves no envy, whatever the agents like.
///
/// It writes the lines of a certificate of version 2: a header, and for each goal in order that no line took yet, as soon as
/// it is refuted and before the next one is made, its line in short form. Where that covers goals, all later ones with the
/// same passed choices are passed over. After the last goal it writes the closing line and gives `EnvyFree`. The first goal
/// whose rows have a solution ends the work: the closing line then tells the counterexample that the solution gives, which
/// is `Found`. It holds one goal, one tableau and one line at a time.
///
/// `GoalLimit` and `FormOverflow` come with the goals that are made, `GoalLimit` also where a line that is out covers more
/// than may be given; `PivotLimit` and `PivotOverflow` exactly where the prover doesn't decide the goal that is made,
/// `HeightLimit` exactly where the solution has a number above 10^18, the first by agent and then atom. `WriteFault` comes
/// only where a write failed, `Memory` for want of memory (and where a number of a form on the way to a
/// cover line's choices, which fitted before, didn't fit once more). The lines so far are out then.
pub fn verify<K: Sink>(alloc: Global, core: &Core, sink: &mut K) -> Result<Decision, VerifyFault>
    ensures decision { IfOk result (λ d. DecisionIs (core_of core.now) (K.told sink.old) (K.told sink.new) d) }
    ensures fault { IfErr result (λ e. FaultIs (core_of core.now) (K.told sink.old) (K.told sink.new) e) }
    ensures exact { IfOk result (λ d. IsExact (core_of core.now) d) }
    ensures accepted { IfOk result (λ d. IsAccepted (core_of core.now) (K.told sink.old) (K.told sink.new) d) }
    ensures later { K.faults sink.old ≤ K.faults sink.new }
    ensures rose { IfErr result (λ e. e ≡ VerifyFault.WriteFault → Rose (K.faults sink.old) (K.faults sink.new)) }
{
    let mut goals = GoalStream::new(alloc, core)?;
    let mut prover = Prover::new();
    report(alloc, core, &mut goals, &mut prover, sink)
}

// Writes the report of a core, whose goals are all in the stream yet.
fn report<K: Sink>(
    alloc: Global,
    core: &Core,
    goals: &mut GoalStream<'_>,
    prover: &mut Prover,
    sink: &mut K,
) -> Result<Decision, VerifyFault>
    requires ahead { goals.old.ahead ≡ events_of (core_of core.now) }
    requires given { goals.old.given ≡ 0 }
    requires core { goals.old.core ≡ core.now }
    requires rest { TellsRest goals.old }
    ensures decision { IfOk result (λ d. DecisionIs (core_of core.now) (K.told sink.old) (K.told sink.new) d) }
    ensures fault { IfErr result (λ e. FaultIs (core_of core.now) (K.told sink.old) (K.told sink.new) e) }
    ensures exact { IfOk result (λ d. IsExact (core_of core.now) d) }
    ensures accepted { IfOk result (λ d. IsAccepted (core_of core.now) (K.told sink.old) (K.told sink.new) d) }
    ensures later { K.faults sink.old ≤ K.faults sink.new }
    ensures rose { IfErr result (λ e. e ≡ VerifyFault.WriteFault → Rose (K.faults sink.old) (K.faults sink.new)) }
{
    streams_give_goals();
    goals_behind_fit();
    covers_are_fronts();
    goals_have_covers();
    short_forms_refute();
    goals_refuted_on_the_way_mean_fair_runs();
    put_header(alloc, core, sink)?;
    while let Some(goal) = next_goal(goals)? {
        if let Some(counter) = decide(alloc, core, &goal, goals, prover, sink)? {
            return close_found(alloc, counter, sink);
        }
    }
    close(alloc, goals.given(), sink)
}

// The next goal, or none after the last.
fn next_goal(goals: &mut GoalStream<'_>) -> Result<Option<Goal>, GoalFault>
    requires { GoesOn goals.old }
    ensures goal { IfOk result (λ o. MatchOption o (NoneComes goals.old goals.new) (λ g. IsNextOf goals.old g goals.new)) }
    ensures fault { IfErr result (λ e. IsRefusal e goals.old.given (next_goal goals.old.ahead goals.old.given)) }
{
    streams_give_goals();
    goals.next()
}

// Decides the goal that was given last: None where it is refuted, its line is written and the other goals that the line takes
// are passed over; or the counterexample to it.
fn decide<K: Sink>(
    alloc: Global,
    core: &Core,
    goal: &Goal,
    goals: &mut GoalStream<'_>,
    prover: &mut Prover,
    sink: &mut K,
) -> Result<Option<Counterexample>, VerifyFault>
    requires core { goals.old.core ≡ core.now }
    requires last { IsGivenLast goals.old goal.now }
    requires goes { GoesOn goals.old }
    requires rows { AreRowsOver (width goal.now.rows) goal.now.rows }
    ensures decided { IfOk result (λ o. GoalIs (core_of core.now) goal.now goals.old goals.new (K.told sink.old) (K.told sink.new) o) }
    ensures exact { IfOk result (λ o. MatchOption o ⊤ (λ c. IsExact (core_of core.now) (Decision.Found c))) }
    ensures stops { IfErr result (λ e. GoalStops (core_of core.now) goal.now goals.old (K.told sink.old) (K.told sink.new) e) }
    ensures later { K.faults sink.old ≤ K.faults sink.new }
    ensures rose { IfErr result (λ e. e ≡ VerifyFault.WriteFault → Rose (K.faults sink.old) (K.faults sink.new)) }
{
    match prover.prove(alloc, goal.rows(), PIVOT_LIMIT) {
        Ok(Proof::Refuted(multipliers)) => {
            settle(alloc, core, goal, multipliers, goals, sink)?;
            Ok(None)
        }
        Ok(Proof::Feasible(solution)) => Ok(Some(found(alloc, core, goal, solution.as_slice())?)),
        Err(fault) => Err(stop_for(goal.number(), fault)),
    }
}

// Writes the line of the goal that was given last, which these multipliers refute, and passes over the other goals that the
// line takes.
fn settle<K: Sink>(
    alloc: Global,
    core: &Core,
    goal: &Goal,
    multipliers: Vec<i128>,
    goals: &mut GoalStream<'_>,
    sink: &mut K,
) -> Result<(), VerifyFault>
    requires core { goals.old.core ≡ core.now }
    requires last { IsGivenLast goals.old goal.now }
    requires goes { GoesOn goals.old }
    requires refuted { IsRefutedBy goal.now multipliers.items }
    requires fits { All Fits multipliers.items }
    ensures decided { OnOk result (GoalIs (core_of core.now) goal.now goals.old goals.new (K.told sink.old) (K.told sink.new) None) }
    ensures stops { IfErr result (λ e. GoalStops (core_of core.now) goal.now goals.old (K.told sink.old) (K.told sink.new) e) }
    ensures later { K.faults sink.old ≤ K.faults sink.new }
    ensures rose { IfErr result (λ e. e ≡ VerifyFault.WriteFault → Rose (K.faults sink.old) (K.faults sink.new)) }
{
    covers_are_fronts();
    goals_have_covers();
    let line = short_line(core.agents(), goal.number(), multipliers);
    put_line(alloc, &line, sink)?;
    pass_over(&line, goals)
}

// Passes over the goals that a line takes beside the one given last.
fn pass_over(line: &Line, goals: &mut GoalStream<'_>) -> Result<(), VerifyFault>
    requires rest { TellsRest goals.old }
    requires last { (g : GoalOf) × IsGivenLast goals.old g }
    requires has { HasPassed goals.old line.now }
    ensures passed { OnOk result (IsPassed goals.old line.now goals.new) }
    ensures rest { OnOk result (TellsRest goals.new) }
    ensures few { OnOk result (goals.old.given ≤ 1000000 → goals.new.given ≤ 1000000) }
    ensures core { goals.new.core ≡ goals.old.core }
    ensures stops { IfErr result (λ e. PassStops goals.old line.now e) }
{
    let Line::Cover { passed, .. } = line else {
        return Ok(());
    };
    match goals.skip(*passed) {
        Ok(_) => Ok(()),
        Err(SkipFault::GoalLimit) => Err(VerifyFault::GoalLimit),
        Err(SkipFault::Memory) => Err(VerifyFault::Memory),
    }
}

// The counterexample that a solution of the goal's rows gives.
fn found(
    alloc: Global,
    core: &Core,
    goal: &Goal,
    solution: &[i128],
) -> Result<Counterexample, VerifyFault>
    requires goal { Contains (goals (core_of core.now)) goal.now }
    requires rows { AreRowsOver (width goal.now.rows) goal.now.rows }
    requires long { length solution.now ≡ width goal.now.rows }
    requires solves { IsSolution goal.now.rows solution.now }
    ensures counter { IfOk result (λ c. IsCounterOf (core_of core.now) goal.now solution.now c) }
    ensures exact { IfOk result (λ c. IsExact (core_of core.now) (Decision.Found c)) }
    ensures high { IfErr result (λ e. IsTooHigh (core_of core.now) goal.now solution.now e) }
{
    rows_are_over_the_unknowns();
    match build(alloc, core, goal, solution) {
        Ok(counter) => Ok(counter),
        Err(CounterFault::HeightLimit { agent, atom }) => Err(VerifyFault::HeightLimit {
            goal: goal.number(),
            agent,
            atom,
        }),
        Err(CounterFault::Memory) => Err(VerifyFault::Memory),
    }
}

// Why the prover didn't decide the goal.
fn stop_for(goal: u64, fault: ProveFault) -> VerifyFault
    ensures { result ≡ stop_for goal fault }
{
    match fault {
        ProveFault::PivotLimit => VerifyFault::PivotLimit { goal },
        ProveFault::Overflow { pivots, row, col } => VerifyFault::PivotOverflow {
            goal,
            pivots,
            row,
            col,
        },
        ProveFault::Memory => VerifyFault::Memory,
    }
}
