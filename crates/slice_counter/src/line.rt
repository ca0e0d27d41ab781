//! The closing line of a counterexample.
ghost use Rattle.std.specs.Prelude.{◌≡◌, ◌≤◌, length, map, Some, IfOk};
ghost use Rattle.serde_json.specs.View.{view, items_of};
ghost use Rattle.slice_json.specs.Texts.{list_of};
ghost use Rattle.slice_step.specs.ValuationFile.{IsReplayFile, AllAnswer, cut_of};
ghost use Rattle.slice_counter.specs.CounterLine.{answer_json, counter_json, counter_text, outcome_json, valuation_json};

use crate::counter::Counterexample;
use serde_json::{Value, json};
use slice_json::{ToJson, list};
use slice_num::{CutAnswer, Memory};
use slice_paths::GoalKind;
use slice_step::{Valuation, Valuations};
use std::alloc::{AllocError, Global};

/// The line that closes a report with a counterexample, with its LF: the answers to its cuts, the number of the goal, how the
/// run ends, and the valuations. It is a replay file of these valuations and answers. `Memory` comes only for want of memory.
pub fn counter_line(alloc: Global, counter: &Counterexample) -> Result<Vec<u8>, Memory>
    ensures text { IfOk result (λ v. v.items ≡ counter_text counter.now) }
    ensures replay { IfOk result (λ v. IsReplayFile v.items (length counter.now.valuations) counter.now.valuations counter.now.cuts.items) }
{
    line_bytes(alloc, counter).map_err(|_| Memory)
}

// The text of the line, with its LF.
fn line_bytes(alloc: Global, counter: &Counterexample) -> Result<Vec<u8>, AllocError>
    ensures text { IfOk result (λ v. v.items ≡ counter_text counter.now) }
    ensures replay { IfOk result (λ v. IsReplayFile v.items (length counter.now.valuations) counter.now.valuations counter.now.cuts.items) }
{
    let cuts = answers_json(alloc, &counter.cuts)?;
    let value = counter_value(alloc, counter, cuts)?;
    let _bounds = counter.valuations.len();
    let mut bytes = value.to_vec(alloc)?;
    bytes.push(b'\n')?;
    Ok(bytes)
}

// The line as JSON, with the answers to its cuts.
fn counter_value(alloc: Global, counter: &Counterexample, cuts: Value) -> Result<Value, AllocError>
    requires { view cuts ≡ list_of answer_json counter.now.cuts.items }
    ensures { IfOk result (λ v. view v ≡ counter_json counter.now.goal counter.now.kind counter.now.query counter.now.valuations counter.now.cuts.items) }
{
    let outcome = outcome_json(alloc, counter.query, counter.kind)?;
    let valuations = valuations_json(alloc, &counter.valuations)?;
    json!(in alloc; {"closing": "counterexample", "cuts": cuts, "goal": counter.goal, "outcome": outcome, "valuations": valuations})
}

fn outcome_json(alloc: Global, query: u32, kind: GoalKind) -> Result<Value, AllocError>
    ensures { IfOk result (λ v. view v ≡ outcome_json query kind) }
{
    match kind {
        GoalKind::Low => json!(in alloc; {"query": query, "side": "low"}),
        GoalKind::High => json!(in alloc; {"query": query, "side": "high"}),
        GoalKind::Envy { a, b } => json!(in alloc; {"agent": a, "envies": b}),
    }
}

// The answers, each of which is read again as it is.
fn answers_json(alloc: Global, answers: &[CutAnswer]) -> Result<Value, AllocError>
    ensures json { IfOk result (λ v. view v ≡ list_of answer_json answers.now) }
    ensures said { IfOk result (λ v. AllAnswer (items_of (map answer_json answers.now)) answers.now) }
{
    let mut values = Vec::new(alloc);
    for answer in answers {
        values.push(answer_json(alloc, answer)?)?;
    }
    Ok(Value::Array(values))
}

// An answer, which is read again as it is.
fn answer_json(alloc: Global, answer: &CutAnswer) -> Result<Value, AllocError>
    ensures json { IfOk result (λ v. view v ≡ answer_json answer.now) }
    ensures said { IfOk result (λ v. cut_of (answer_json answer.now) ≡ Some answer.now) }
{
    let part = answer.part;
    // What these two tell is that the parts of the point fit, so that its text is read as the point.
    let _fits = (answer.point.num(), answer.point.den());
    let point = answer.point.to_json(alloc)?;
    if part == 0 {
        return Ok(point);
    }
    json!(in alloc; [part, point])
}

fn valuations_json(alloc: Global, valuations: &Valuations) -> Result<Value, AllocError>
    requires { length valuations.now ≤ 16 }
    ensures { IfOk result (λ v. view v ≡ list_of valuation_json valuations.now) }
{
    let mut values = Vec::new(alloc);
    for i in 0..valuations.len() {
        values.push(valuation_json(alloc, valuations.get(i as u32 + 1))?)?;
    }
    Ok(Value::Array(values))
}

fn valuation_json(alloc: Global, valuation: &Valuation) -> Result<Value, AllocError>
    ensures { IfOk result (λ v. view v ≡ valuation_json valuation.now) }
{
    let ends = list(alloc, valuation.ends())?;
    let heights = list(alloc, valuation.heights())?;
    json!(in alloc; {"ends": ends, "heights": heights})
}
