//! Files of valuations: a JSON array with an object for each agent, in their order, with the arrays `ends` and
//! `heights` of whole numbers. Other keys are passed over.
ghost use Rattle.std.specs.Prelude.{◌≡◌, ◌≢◌, ◌<◌, ◌^◌, ◌&&◌, ℤ, pos, int_le, [], ◌∷◌, map, Some, None, IfOk, IfErr, IsTrue, codes};
ghost use Rattle.std.specs.Ordering.{int_eq};
ghost use Rattle.std.specs.List.{All};
ghost use Rattle.serde_json.specs.View.{view, items_view};
ghost use Rattle.slice_num.specs.Valuation.{cake_length};
ghost use Rattle.slice_step.specs.ValuationFile.{numbers_at, Says, Hold, IsValuationFile, has_steps, first_failed, entry_fault, entries_fault, valuations_fault, are_ends, are_heights, are_zero};
ghost use Rattle.slice_step.specs.FileSteps.{form_fault, numbers_fault, AreSteps};
ghost use Rattle.slice_step.specs.ValuationShape.{IsSmallValuation};

use crate::fault::ValuationFault;
use crate::valuation::Valuation;
use crate::valuations::Valuations;
use serde_json::Value;
use slice_json::{items_at, json, wholes};
use std::alloc::{AllocError, Global};

// How many steps a valuation has at most.
const MOST_STEPS: usize = 1000;

// Where the last step ends at most, in points.
const LAST_END: i128 = 1_000_000;

// How high a step is at most.
const TALLEST: i128 = 1_000_000_000_000_000_000;

/// The valuations of a file, one for each of so many agents, over one cake. `Err` tells the first fault of the file:
/// of the whole, then of each agent's entry in order, in the order in which `ValuationFault` lists them.
pub fn read_valuations(
    alloc: Global,
    bytes: &[u8],
    agents: u32,
) -> Result<Valuations, ValuationFault>
    requires some { 0 < agents }
    ensures holds { IfOk result (λ vs. IsValuationFile bytes.now agents vs) }
    ensures fault { IfErr result (λ e. e ≢ ValuationFault.Memory → valuations_fault bytes.now agents ≡ Some e) }
{
    let value = json(alloc, bytes)?;
    match value.as_array() {
        Some(entries) => valuations_from(alloc, entries, agents),
        None => Err(ValuationFault::Shape { agent: 0 }),
    }
}

// The valuations of the entries, one for each agent.
pub(crate) fn valuations_from(
    alloc: Global,
    entries: &Vec<Value>,
    agents: u32,
) -> Result<Valuations, ValuationFault>
    requires some { 0 < agents }
    ensures holds { IfOk result (λ vs. Hold (items_view entries.now.items) agents vs) }
    ensures none { IfOk result (λ vs. entries_fault agents (items_view entries.now.items) ≡ None) }
    ensures fault { IfErr result (λ e. e ≢ ValuationFault.Memory → entries_fault agents (items_view entries.now.items) ≡ Some e) }
{
    if entries.len() != agents as usize {
        return Err(ValuationFault::AgentCount);
    }
    let first = valuation_from(alloc, &entries[0], 1)?;
    let length = first.length();
    let mut items = Vec::new(alloc);
    items.push(first)?;
    for i in 1..entries.len() {
        items.push(next_valuation(alloc, &entries[i], i as u32 + 1, length)?)?;
    }
    Ok(Valuations::new(items))
}

// The valuation of an agent's entry, whose last end must be that.
fn next_valuation(
    alloc: Global,
    entry: &Value,
    agent: u32,
    length: u64,
) -> Result<Valuation, ValuationFault>
    ensures said { IfOk result (λ v. Says (view entry.now) v) }
    ensures small { IfOk result (λ v. IsSmallValuation v) }
    ensures long { IfOk result (λ v. cake_length v ≡ length) }
    ensures none { IfOk result (λ v. entry_fault agent (pos length) (view entry.now) ≡ None) }
    ensures fault { IfErr result (λ e. e ≢ ValuationFault.Memory → entry_fault agent (pos length) (view entry.now) ≡ Some e) }
{
    let valuation = valuation_from(alloc, entry, agent)?;
    if valuation.length() != length {
        return Err(ValuationFault::LengthsDiffer { agent });
    }
    Ok(valuation)
}

// The valuation of an agent's entry.
fn valuation_from(alloc: Global, entry: &Value, agent: u32) -> Result<Valuation, ValuationFault>
    ensures said { IfOk result (λ v. Says (view entry.now) v) }
    ensures small { IfOk result (λ v. IsSmallValuation v) }
    ensures passes { IfOk result (λ v. (cake_end : ℤ) → entry_fault agent cake_end (view entry.now) ≡ first_failed ((int_eq (pos (cake_length v)) cake_end, ValuationFault.LengthsDiffer agent) ∷ [])) }
    ensures fault { IfErr result (λ e. e ≢ ValuationFault.Memory → (cake_end : ℤ) → entry_fault agent cake_end (view entry.now) ≡ Some e) }
{
    let lists = lists_of(alloc, entry, agent)?;
    valuation_of(alloc, &lists.ends, &lists.heights, agent)
}

// The whole numbers of an agent's entry.
#[derive(Drop)]
struct Lists {
    ends: Vec<i128>,
    heights: Vec<i128>,
}

// The whole numbers of an agent's entry, as many ends as heights.
fn lists_of(alloc: Global, entry: &Value, agent: u32) -> Result<Lists, ValuationFault>
    ensures ends { IfOk result (λ l. numbers_at (codes "ends") (view entry.now) ≡ Some l.ends.items) }
    ensures heights { IfOk result (λ l. numbers_at (codes "heights") (view entry.now) ≡ Some l.heights.items) }
    ensures steps { IfOk result (λ l. AreSteps l.ends.items l.heights.items) }
    ensures none { IfOk result (λ l. form_fault agent (view entry.now) ≡ None) }
    ensures fault { IfErr result (λ e. e ≢ ValuationFault.Memory → form_fault agent (view entry.now) ≡ Some e) }
{
    let Some(ends) = items_at(entry, "ends") else {
        return Err(ValuationFault::Shape { agent });
    };
    let Some(heights) = items_at(entry, "heights") else {
        return Err(ValuationFault::Shape { agent });
    };
    if !are_steps(ends, heights) {
        return Err(ValuationFault::Shape { agent });
    }
    let Some(ends) = wholes(alloc, ends)? else {
        return Err(ValuationFault::NotWhole { agent });
    };
    let Some(heights) = wholes(alloc, heights)? else {
        return Err(ValuationFault::NotWhole { agent });
    };
    Ok(Lists { ends, heights })
}

// As many ends as heights, from 1 to 1,000.
#[tactic(auto, using(crate::proofs::EntryLaws::counts))]
fn are_steps(ends: &Vec<Value>, heights: &Vec<Value>) -> bool
    ensures { result ≡ has_steps (Some (items_view ends.now.items)) (Some (items_view heights.now.items)) }
{
    ends.len() == heights.len() && 1 <= ends.len() && ends.len() <= MOST_STEPS
}

// The valuation of these ends and heights.
fn valuation_of(
    alloc: Global,
    ends: &Vec<i128>,
    heights: &Vec<i128>,
    agent: u32,
) -> Result<Valuation, ValuationFault>
    requires steps { AreSteps ends.now.items heights.now.items }
    ensures ends { IfOk result (λ v. ends.now.items ≡ map (λ n. pos n) v.ends) }
    ensures heights { IfOk result (λ v. heights.now.items ≡ map (λ n. pos n) v.heights) }
    ensures small { IfOk result (λ v. IsSmallValuation v) }
    ensures none { IfOk result (λ v. numbers_fault agent ends.now.items heights.now.items ≡ None) }
    ensures fault { IfErr result (λ e. e ≢ ValuationFault.Memory → numbers_fault agent ends.now.items heights.now.items ≡ Some e) }
{
    if !are_ends(ends) {
        return Err(ValuationFault::EndsOrder { agent });
    }
    if !are_heights(heights) {
        return Err(ValuationFault::HeightRange { agent });
    }
    if are_zero(heights) {
        return Err(ValuationFault::NoTotal { agent });
    }
    let ends = naturals(alloc, ends)?;
    let heights = naturals(alloc, heights)?;
    Ok(Valuation::new(ends, heights))
}

// The ends rise strictly from above 0, up to at most 1,000,000.
fn are_ends(ends: &Vec<i128>) -> bool
    ensures { result ≡ are_ends ends.now.items }
{
    let mut low = 0;
    for end in ends {
        if *end <= low {
            return false;
        }
        low = *end;
    }
    low <= LAST_END
}

// The heights lie from 0 to 10^18.
fn are_heights(heights: &Vec<i128>) -> bool
    ensures { result ≡ are_heights heights.now.items }
{
    heights
        .iter()
        .all(|height| 0 <= *height && *height <= TALLEST)
}

// All heights are 0.
fn are_zero(heights: &Vec<i128>) -> bool
    ensures { result ≡ are_zero heights.now.items }
{
    heights.iter().all(|height| *height == 0)
}

// The same numbers, none of which is below 0 or above 10^18.
fn naturals(alloc: Global, numbers: &Vec<i128>) -> Result<Vec<u64>, AllocError>
    requires small { All (λ z. IsTrue (int_le (pos 0) z && int_le z (pos (10 ^ 18)))) numbers.now.items }
    ensures { IfOk result (λ v. numbers.now.items ≡ map (λ n. pos n) v.items) }
{
    let mut copy = Vec::new(alloc);
    for number in numbers {
        copy.push(*number as u64)?;
    }
    Ok(copy)
}
