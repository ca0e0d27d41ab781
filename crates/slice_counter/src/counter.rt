//! The run that a solution of a goal's rows gives.
ghost use Rattle.std.specs.Prelude.{◌≡◌, ◌≢◌, ℕ, ◌+◌, ◌-◌, ◌*◌, ◌<◌, ◌≤◌, ◌≤ℤ◌, ◌<ℤ◌, ◌^◌, pos, ℤ, unsigned_abs, List, [], ◌++◌, length, map, take, drop, IfOk, IfErr, MatchOption, slice_index, ⊤};
ghost use Rattle.std.specs.List.{All, Contains};
ghost use Rattle.slice_num.specs.Rational.{whole};
ghost use Rattle.slice_core.specs.Cores.{core_of};
ghost use Rattle.slice_core.specs.Division.{IsFair};
ghost use Rattle.slice_core.specs.Measures.{worth_of, length_of};
ghost use Rattle.slice_core.specs.Run.{run_core};
ghost use Rattle.slice_core.specs.WellFormed.{IsWellFormed};
ghost use Rattle.slice_linear.specs.Rows.{IsSolution};
ghost use Rattle.slice_linear.specs.Sums.{at};
ghost use Rattle.slice_atoms.specs.Addresses.{atom_count};
ghost use Rattle.slice_paths.specs.Goals.{goals};
ghost use Rattle.slice_paths.specs.Ways.{way_of};
ghost use Rattle.slice_counter.specs.Counter.{IsCounterexample, IsLow, valuations_of, answers_of, lists_of};
ghost use Rattle.slice_counter.specs.Marks.{marks_of};
ghost use Rattle.slice_counter.specs.Heights.{HighIs, FaultAt, answer_at};

use crate::trail::Mark;
use crate::walk::walk;
use slice_core::{Core, CutAnswer};
use slice_num::{Frac, Memory};
use slice_paths::{Goal, GoalKind};
use slice_step::Valuations;
use std::alloc::Global;

/// A run that ends as a goal says.
#[derive(Drop)]
pub struct Counterexample {
    /// The goal's number, from 0.
    pub goal: u64,
    /// What the goal speaks of.
    pub kind: GoalKind,
    /// How many queries are answered before the goal's place.
    pub query: u32,
    /// A valuation for each agent, at most 16, with a step of width 1 for each atom.
    pub valuations: Valuations,
    /// An answer for each cut that is passed: the number of the part in its piece, from 0, and a point of the cake.
    pub cuts: Vec<CutAnswer>,
    ghost few: { length valuations ≤ 16 },
}

/// Why a solution gives no counterexample.
#[derive(Clone, Copy, Debug, PartialEq, Eq)]
pub enum CounterFault {
    /// The agent's value of the atom is above 10^18, the greatest height. Agents are numbered from 1, atoms from 0, from
    /// left to right.
    HeightLimit { agent: u32, atom: u32 },
    /// No memory was left.
    Memory,
}

// The greatest height.
const GREATEST: i128 = 1_000_000_000_000_000_000;

/// The counterexample to a goal that a solution of its rows gives. The goal is one of the core's. The solution has a number
/// for each unknown of the rows: first the whole, and then agent by agent what each atom is worth, from left to right.
/// Each atom becomes a step of width 1 with the agent's number as its height, and each cut that is passed is answered in
/// its part by the boundary of its two sides.
///
/// `HeightLimit` comes exactly where a height is above 10^18, and names the first, by agent and then atom. `Memory` comes
/// only for want of memory.
pub fn build(
    alloc: Global,
    core: &Core,
    goal: &Goal,
    solution: &[i128],
) -> Result<Counterexample, CounterFault>
    requires goal { Contains (goals (core_of core.now)) goal.now }
    requires long { length solution.now ≡ 1 + (core_of core.now).agents * atom_count (way_of (core_of core.now) goal.now.trace).cake }
    requires solves { IsSolution goal.now.rows solution.now }
    ensures goal { IfOk result (λ c. (c.goal ≡ goal.now.number) × (c.kind ≡ goal.now.kind) × (c.query ≡ goal.now.query)) }
    ensures valuations { IfOk result (λ c. c.valuations ≡ valuations_of (core_of core.now).agents (way_of (core_of core.now) goal.now.trace).cake solution.now) }
    ensures cuts { IfOk result (λ c. c.cuts.items ≡ answers_of (way_of (core_of core.now) goal.now.trace)) }
    ensures low { IfOk result (λ c. IsLow solution.now) }
    ensures counter { IfOk result (λ c. IsCounterexample (core_of core.now) c.valuations c.cuts.items goal.now) }
    ensures unfair { IfOk result (λ c. IsFair (core_of core.now).agents (worth_of c.valuations)
        (run_core (worth_of c.valuations) (core_of core.now) (length_of c.valuations) c.cuts.items) → ⊥) }
    ensures high { IfErr result (λ e. HighIs (core_of core.now).agents (atom_count (way_of (core_of core.now) goal.now.trace).cake) solution.now e) }
{
    let marks = match walk(alloc, core, goal.trace()) {
        Ok(marks) => marks,
        Err(Memory) => return Err(CounterFault::Memory),
    };
    let _formed = core.agents();
    let atoms = marks.len() + 1;
    if let Some(unknown) = first_high(solution) {
        return Err(fault_at(unknown, atoms));
    }
    finish(alloc, core, goal, solution, marks)
}

// The counterexample, where no number is too great.
fn finish(
    alloc: Global,
    core: &Core,
    goal: &Goal,
    solution: &[i128],
    marks: Vec<Mark>,
) -> Result<Counterexample, CounterFault>
    requires formed { IsWellFormed (core_of core.now) }
    requires goal { Contains (goals (core_of core.now)) goal.now }
    requires long { length solution.now ≡ 1 + (core_of core.now).agents * atom_count (way_of (core_of core.now) goal.now.trace).cake }
    requires solves { IsSolution goal.now.rows solution.now }
    requires low { IsLow solution.now }
    requires marks { marks.items ≡ marks_of (way_of (core_of core.now) goal.now.trace) }
    requires atoms { atom_count (way_of (core_of core.now) goal.now.trace).cake ≡ 1 + length marks.items }
    ensures goal { IfOk result (λ c. (c.goal ≡ goal.now.number) × (c.kind ≡ goal.now.kind) × (c.query ≡ goal.now.query)) }
    ensures valuations { IfOk result (λ c. c.valuations ≡ valuations_of (core_of core.now).agents (way_of (core_of core.now) goal.now.trace).cake solution.now) }
    ensures cuts { IfOk result (λ c. c.cuts.items ≡ answers_of (way_of (core_of core.now) goal.now.trace)) }
    ensures counter { IfOk result (λ c. IsCounterexample (core_of core.now) c.valuations c.cuts.items goal.now) }
    ensures memory { IfErr result (λ e. e ≡ CounterFault.Memory) }
{
    let Ok(valuations) = steps_of(alloc, core, goal, solution, marks.len() + 1) else {
        return Err(CounterFault::Memory);
    };
    let Ok(cuts) = answers(alloc, marks.as_slice()) else {
        return Err(CounterFault::Memory);
    };
    Ok(Counterexample {
        goal: goal.number(),
        kind: goal.kind(),
        query: goal.query(),
        valuations,
        cuts,
    })
}

// The valuations of the solution, for so many atoms: each agent's numbers are the heights of its steps.
fn steps_of(
    alloc: Global,
    core: &Core,
    goal: &Goal,
    solution: &[i128],
    atoms: usize,
) -> Result<Valuations, Memory>
    requires goal { Contains (goals (core_of core.now)) goal.now }
    requires long { length solution.now ≡ 1 + (core_of core.now).agents * atom_count (way_of (core_of core.now) goal.now.trace).cake }
    requires solves { IsSolution goal.now.rows solution.now }
    requires low { IsLow solution.now }
    requires atoms { atoms ≡ atom_count (way_of (core_of core.now) goal.now.trace).cake }
    ensures { IfOk result (λ vs. vs ≡ valuations_of (core_of core.now).agents (way_of (core_of core.now) goal.now.trace).cake solution.now) }
{
    let lists = height_lists(alloc, core.agents(), atoms, &solution[1..])?;
    Valuations::from_unit_steps(alloc, lists)
}

// The first number from 1 on that is above the greatest height.
fn first_high(solution: &[i128]) -> Option<usize>
    ensures { MatchOption result (IsLow solution.now) (λ j. (1 ≤ j) × (j < length solution.now) × (pos (10 ^ 18) <ℤ (at solution.now j)) × ((i : ℕ) → 1 ≤ i → i < j → (at solution.now i) ≤ℤ pos (10 ^ 18))) }
{
    for j in 1..solution.len() {
        if solution[j] > GREATEST {
            return Some(j);
        }
    }
    None
}

// The agent and the atom of that unknown, where each agent has so many atoms.
fn fault_at(unknown: usize, atoms: usize) -> CounterFault
    requires some { 1 ≤ atoms }
    requires first { 1 ≤ unknown }
    requires few { unknown < 2 ^ 31 }
    ensures { FaultAt unknown atoms result }
{
    let place = unknown - 1;
    CounterFault::HeightLimit {
        agent: (place / atoms) as u32 + 1,
        atom: (place % atoms) as u32,
    }
}

// So many heights for each agent, in order.
fn height_lists(
    alloc: Global,
    agents: u32,
    atoms: usize,
    numbers: &[i128],
) -> Result<Vec<Vec<u64>>, Memory>
    requires long { length numbers.now ≡ agents * atoms }
    requires low { All (λ z. (pos 0 ≤ℤ z) × (z ≤ℤ pos (10 ^ 18))) numbers.now }
    ensures { IfOk result (λ v. map (λ hs. hs.items) v.items ≡ lists_of agents atoms numbers.now) }
{
    let mut lists = Vec::new(alloc);
    for agent in 0..agents {
        let start = agent as usize * atoms;
        let list = heights(alloc, &numbers[start..start + atoms])?;
        if lists.push(list).is_err() {
            return Err(Memory);
        }
    }
    Ok(lists)
}

// The numbers as heights.
fn heights(alloc: Global, numbers: &[i128]) -> Result<Vec<u64>, Memory>
    requires { All (λ z. (pos 0 ≤ℤ z) × (z ≤ℤ pos (10 ^ 18))) numbers.now }
    ensures { IfOk result (λ v. v.items ≡ map unsigned_abs numbers.now) }
{
    let mut heights = Vec::new(alloc);
    for number in numbers {
        if heights.push(*number as u64).is_err() {
            return Err(Memory);
        }
    }
    Ok(heights)
}

// Each cut, answered by the boundary of its two sides.
fn answers(alloc: Global, marks: &[Mark]) -> Result<Vec<CutAnswer>, Memory>
    ensures { IfOk result (λ v. v.items ≡ map answer_at marks.now) }
{
    let mut answers = Vec::new(alloc);
    for mark in marks {
        let answer = CutAnswer {
            part: mark.part,
            point: Frac::whole(mark.left as u128),
        };
        if answers.push(answer).is_err() {
            return Err(Memory);
        }
    }
    Ok(answers)
}
