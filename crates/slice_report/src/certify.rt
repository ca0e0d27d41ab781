//! The line of what is said of a certificate.
ghost use Rattle.std.specs.Prelude.{◌≡◌, IfOk};
ghost use Rattle.serde_json.specs.View.{view};
ghost use Rattle.slice_json.specs.Texts.{line_of};
ghost use Rattle.slice_report.specs.CertifyReport.{at_line, certify_json, field_name, of_field, of_goal, rejected_json};

use crate::line::line_of;
use serde_json::{Value, json};
use slice_check::{CertAnswer, HeaderField, Rejection};
use std::alloc::{AllocError, Global};

/// The line of what is said of a certificate, with its LF: that it is accepted, for how many goals, or the first thing
/// that is wrong with it, with the number of its line (from 1) or of its goal (from 0), and of the row or the unknown (from
/// 0). The one error is want of memory.
pub fn certify_line(alloc: Global, answer: CertAnswer) -> Result<Vec<u8>, AllocError>
    ensures { IfOk result (λ v. v.items ≡ line_of (certify_json answer)) }
{
    line_of(alloc, &certify_value(alloc, answer)?)
}

fn certify_value(alloc: Global, answer: CertAnswer) -> Result<Value, AllocError>
    ensures { IfOk result (λ v. view v ≡ certify_json answer) }
{
    match answer {
        CertAnswer::Accepted { goals } => json!(in alloc; {"accepted": true, "goals": goals}),
        CertAnswer::Rejected(rejection) => rejected_value(alloc, rejection),
    }
}

// The line's value: a row for each rejection.
fn rejected_value(alloc: Global, rejection: Rejection) -> Result<Value, AllocError>
    ensures { IfOk result (λ v. view v ≡ rejected_json rejection) }
{
    match rejection {
        Rejection::BadLine { line } => at_line(alloc, line, "BadLine"),
        Rejection::LineTooLong { line } => at_line(alloc, line, "LineTooLong"),
        Rejection::HeaderDiffers { field } => of_field(alloc, field_name(field)),
        Rejection::GoalOrder { line } => at_line(alloc, line, "GoalOrder"),
        Rejection::Missing { goal } => of_goal(alloc, goal, "Missing"),
        Rejection::Extra { line } => at_line(alloc, line, "Extra"),
        Rejection::ClosingDiffers { line } => at_line(alloc, line, "ClosingDiffers"),
        Rejection::NotClosed => not_closed(alloc),
        Rejection::Length { goal } => of_goal(alloc, goal, "Length"),
        Rejection::Sign { goal, row } => of_row(alloc, goal, row),
        Rejection::Sum { goal, unknown } => of_unknown(alloc, goal, unknown),
        Rejection::NoStrict { goal } => of_goal(alloc, goal, "NoStrict"),
    }
}

fn field_name(field: HeaderField) -> &'static str
    ensures { result.now ≡ field_name field }
{
    match field {
        HeaderField::Kind => "kind",
        HeaderField::Version => "version",
        HeaderField::Protocol => "protocol",
        HeaderField::Agents => "agents",
    }
}

fn not_closed(alloc: Global) -> Result<Value, AllocError>
    ensures { IfOk result (λ v. view v ≡ rejected_json Rejection.NotClosed) }
{
    json!(in alloc; {"accepted": false, "fault": "NotClosed"})
}

fn of_field(alloc: Global, name: &str) -> Result<Value, AllocError>
    ensures { IfOk result (λ v. view v ≡ of_field name.now) }
{
    json!(in alloc; {"accepted": false, "fault": "HeaderDiffers", "field": name})
}

fn at_line(alloc: Global, line: u64, name: &str) -> Result<Value, AllocError>
    ensures { IfOk result (λ v. view v ≡ at_line line name.now) }
{
    json!(in alloc; {"accepted": false, "fault": name, "line": line})
}

fn of_goal(alloc: Global, goal: u64, name: &str) -> Result<Value, AllocError>
    ensures { IfOk result (λ v. view v ≡ of_goal goal name.now) }
{
    json!(in alloc; {"accepted": false, "fault": name, "goal": goal})
}

fn of_row(alloc: Global, goal: u64, row: usize) -> Result<Value, AllocError>
    ensures { IfOk result (λ v. view v ≡ rejected_json (Rejection.Sign goal row)) }
{
    json!(in alloc; {"accepted": false, "fault": "Sign", "goal": goal, "row": row as u64})
}

fn of_unknown(alloc: Global, goal: u64, unknown: usize) -> Result<Value, AllocError>
    ensures { IfOk result (λ v. view v ≡ rejected_json (Rejection.Sum goal unknown)) }
{
    json!(in alloc; {"accepted": false, "fault": "Sum", "goal": goal, "unknown": unknown as u64})
}
