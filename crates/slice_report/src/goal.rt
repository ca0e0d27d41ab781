//! The lines of goals.
ghost use Rattle.std.specs.Prelude.{◌≡◌, IfOk, refl};
ghost use Rattle.serde_json.specs.View.{view};
ghost use Rattle.slice_json.specs.Texts.{line_of, list_of, signed};
ghost use Rattle.slice_report.specs.GoalReport.{choice_json, count_json, goal_json, kind_json, linear_json, outcome_json, plain-goal_json};

use crate::line::line_of;
use serde_json::{Value, json};
use slice_json::{ToJson, json_line, list};
use slice_linear::{Row, RowKind};
use slice_num::Choice;
use slice_paths::{Goal, GoalKind};
use std::alloc::{AllocError, Global};

/// The line of a goal, with its LF: its number, how the run ends that it speaks of, its rows and the choices to it. The one
/// error is want of memory.
pub fn goal_line(alloc: Global, goal: &Goal) -> Result<Vec<u8>, AllocError>
    ensures { IfOk result (λ v. v.items ≡ line_of (goal_json goal.now)) }
{
    json_line(alloc, &GoalReport { goal })
}

/// The line of a count of goals, with its LF. The one error is want of memory.
pub fn goals_line(alloc: Global, count: u64) -> Result<Vec<u8>, AllocError>
    ensures { IfOk result (λ v. v.items ≡ line_of (count_json count)) }
{
    line_of(alloc, &count_value(alloc, count)?)
}

fn count_value(alloc: Global, count: u64) -> Result<Value, AllocError>
    ensures { IfOk result (λ v. view v ≡ count_json count) }
{
    json!(in alloc; {"goals": count})
}

// What is written of a goal.
#[derive(Clone, Copy)]
struct GoalReport<'a> {
    goal: &'a Goal,
}

impl<'a> ToJson for GoalReport<'a> {
    ghost as_json = { λ r. goal_json r.goal.now };

    ghost plain = { λ r. plain-goal_json r.goal.now };

    fn to_json(&self, alloc: Global) -> Result<Value, AllocError> {
        let goal = self.goal;
        let number = goal.number();
        let outcome = outcome_json(alloc, goal.query(), goal.kind())?;
        let rows = rows_json(alloc, goal.rows())?;
        let trace = trace_json(alloc, goal.trace())?;
        json!(in alloc; {"goal": number, "outcome": outcome, "rows": rows, "trace": trace})
    }
}

fn outcome_json(alloc: Global, query: u32, kind: GoalKind) -> Result<Value, AllocError>
    ensures { IfOk result (λ v. view v ≡ outcome_json query kind) }
{
    match kind {
        GoalKind::Low => json!(in alloc; {"query": query, "side": "low"}),
        GoalKind::High => json!(in alloc; {"query": query, "side": "high"}),
        GoalKind::Envy { a, b } => json!(in alloc; {"agent": a, "envies": b}),
    }
}

fn rows_json(alloc: Global, rows: &[Row]) -> Result<Value, AllocError>
    ensures { IfOk result (λ v. view v ≡ list_of linear_json rows.now) }
{
    let mut values = Vec::new(alloc);
    for row in rows {
        values.push(row_json(alloc, row)?)?;
    }
    Ok(Value::Array(values))
}

fn row_json(alloc: Global, row: &Row) -> Result<Value, AllocError>
    ensures { IfOk result (λ v. view v ≡ linear_json row.now) }
{
    let coefs = coefs_json(alloc, row.coefs())?;
    let kind = kind_json(alloc, row.kind())?;
    json!(in alloc; {"coefs": coefs, "kind": kind})
}

fn coefs_json(alloc: Global, coefs: &[i128]) -> Result<Value, AllocError>
    ensures { IfOk result (λ v. view v ≡ list_of signed coefs.now) }
{
    list(alloc, coefs)
}

fn kind_json(alloc: Global, kind: RowKind) -> Result<Value, AllocError>
    ensures { IfOk result (λ v. view v ≡ kind_json kind) }
{
    match kind {
        RowKind::Zero => json!(in alloc; "zero"),
        RowKind::AtLeast => json!(in alloc; "atleast"),
        RowKind::Above => json!(in alloc; "above"),
    }
}

fn trace_json(alloc: Global, trace: &[Choice]) -> Result<Value, AllocError>
    ensures { IfOk result (λ v. view v ≡ list_of choice_json trace.now) }
{
    let mut values = Vec::new(alloc);
    for choice in trace {
        values.push(choice_json(alloc, *choice)?)?;
    }
    Ok(Value::Array(values))
}

fn choice_json(alloc: Global, choice: Choice) -> Result<Value, AllocError>
    ensures { IfOk result (λ v. view v ≡ choice_json choice) }
{
    match choice {
        Choice::Low => json!(in alloc; "low"),
        Choice::High => json!(in alloc; "high"),
        Choice::Go => json!(in alloc; "go"),
        Choice::Yes => json!(in alloc; "yes"),
        Choice::No => json!(in alloc; "no"),
    }
}
