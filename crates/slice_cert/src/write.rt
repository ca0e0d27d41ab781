//! Lines as they are written.
ghost use Rattle.std.specs.Prelude.{◌≡◌, ◌≤◌, ◌++◌, ◌∷◌, [], IfOk, IsTrue, false};
ghost use Rattle.std.specs.String.{string_bytes};
ghost use Rattle.serde_json.specs.View.{view};
ghost use Rattle.slice_num.specs.Name.{is_name};
ghost use Rattle.slice_cert.specs.CertLines.{line_json, line_text, IsWrittenLine, MayStand};

use crate::Line;
use serde_json::{Value, json};
use slice_json::list;
use slice_num::{Memory, Word};
use std::alloc::{AllocError, Global};
use std::str;

/// The text of a line: compact JSON with its keys in the order of their bytes, and one LF at its end. The protocol's
/// name is a name, and each multiplier fits. Without its LF the text is read as the line again.
/// `Memory` comes where memory runs out.
pub fn write_line(alloc: Global, line: &Line) -> Result<Vec<u8>, Memory>
    requires may { MayStand line.now }
    ensures text { IfOk result (λ v. v.items ≡ line_text line.now) }
    ensures line { IfOk result (λ v. IsWrittenLine v.items line.now) }
{
    line_bytes(alloc, line).map_err(|_| Memory)
}

// The text of a line, with its LF.
fn line_bytes(alloc: Global, line: &Line) -> Result<Vec<u8>, AllocError>
    requires may { MayStand line.now }
    ensures text { IfOk result (λ v. v.items ≡ line_text line.now) }
    ensures line { IfOk result (λ v. IsWrittenLine v.items line.now) }
{
    let value = line_value(alloc, line)?;
    slice_json::texts_hold_no_line_end();
    let mut bytes = value.to_vec(alloc)?;
    bytes.push(b'\n')?;
    Ok(bytes)
}

// The line as JSON.
fn line_value(alloc: Global, line: &Line) -> Result<Value, AllocError>
    requires may { MayStand line.now }
    ensures { IfOk result (λ v. view v ≡ line_json line.now) }
{
    match line {
        Line::Header {
            version,
            protocol,
            agents,
        } => {
            let name = name_text(alloc, protocol)?;
            json!(in alloc; {"agents": *agents, "certificate": *version, "protocol": name})
        }
        Line::Refutation { goal, multipliers } => {
            let texts = list(alloc, multipliers.as_slice())?;
            json!(in alloc; {"goal": *goal, "multipliers": texts})
        }
        Line::Cover {
            goal,
            passed,
            multipliers,
        } => {
            let texts = list(alloc, multipliers.as_slice())?;
            json!(in alloc; {"cover": *passed, "goal": *goal, "multipliers": texts})
        }
        Line::Closing { goals } => { json!(in alloc; {"closing": "envy-free", "goals": *goals}) }
    }
}

// A name as a text.
fn name_text(alloc: Global, name: &Word) -> Result<String, AllocError>
    requires { IsTrue (is_name name.now) }
    ensures { IfOk result (λ s. string_bytes s ≡ name.now) }
{
    let text = str::from_utf8(name.bytes()).unwrap();
    String::from_str(alloc, text)
}
