//! Replay files: a JSON object with the array `valuations`, as a file of valuations has it, and the array `cuts` of the
//! answers to the cuts. Other keys are passed over.
ghost use Rattle.std.specs.Prelude.{◌≡◌, ◌≢◌, ◌<◌, Some, None, IfOk, IfErr};
ghost use Rattle.serde_json.specs.View.{view, items_view};
ghost use Rattle.slice_step.specs.ValuationFile.{IsReplayFile, replay_fault, AllAnswer, cuts_fault, cut_of, pair_in, part_of, point_in};

use crate::fault::ValuationFault;
use crate::valuation_file::valuations_from;
use crate::valuations::Valuations;
use serde_json::Value;
use slice_json::{items_at, json, natural};
use slice_num::{CutAnswer, Frac};
use std::alloc::Global;

/// Valuations, and the answers to the cuts of a run on them, in order.
#[derive(Drop)]
pub struct ReplayFile {
    pub valuations: Valuations,
    pub cuts: Vec<CutAnswer>,
}

/// The valuations and the answers of a file, for so many agents. An answer is the text of a fraction, the point in part 0,
/// or an array of the part, from 0 below 2^32, and such a text. `Err` tells the first fault of the file: those of the
/// valuations, as `read_valuations` has them, then the first answer of another form.
pub fn read_replay(alloc: Global, bytes: &[u8], agents: u32) -> Result<ReplayFile, ValuationFault>
    requires some { 0 < agents }
    ensures holds { IfOk result (λ f. IsReplayFile bytes.now agents f.valuations f.cuts.items) }
    ensures fault { IfErr result (λ e. e ≢ ValuationFault.Memory → replay_fault bytes.now agents ≡ Some e) }
{
    let value = json(alloc, bytes)?;
    let Some(entries) = items_at(&value, "valuations") else {
        return Err(ValuationFault::Shape { agent: 0 });
    };
    let Some(answers) = items_at(&value, "cuts") else {
        return Err(ValuationFault::Shape { agent: 0 });
    };
    let valuations = valuations_from(alloc, entries, agents)?;
    let cuts = cuts_from(alloc, answers)?;
    Ok(ReplayFile { valuations, cuts })
}

// The answers of the entries, in their order.
fn cuts_from(alloc: Global, entries: &Vec<Value>) -> Result<Vec<CutAnswer>, ValuationFault>
    ensures said { IfOk result (λ ys. AllAnswer (items_view entries.now.items) ys.items) }
    ensures none { IfOk result (λ ys. cuts_fault 0 (items_view entries.now.items) ≡ None) }
    ensures fault { IfErr result (λ e. e ≢ ValuationFault.Memory → cuts_fault 0 (items_view entries.now.items) ≡ Some e) }
{
    let mut cuts = Vec::new(alloc);
    for i in 0..entries.len() {
        let Some(answer) = cut_from(&entries[i]) else {
            return Err(ValuationFault::CutForm { index: i });
        };
        cuts.push(answer)?;
    }
    Ok(cuts)
}

// The answer that an entry says.
fn cut_from(value: &Value) -> Option<CutAnswer>
    ensures { result ≡ cut_of (view value.now) }
{
    match value.as_array() {
        Some(items) => pair_from(items),
        None => point_from(0, value),
    }
}

// The answer that a part and a text say.
fn pair_from(items: &Vec<Value>) -> Option<CutAnswer>
    ensures { result ≡ pair_in (items_view items.now.items) }
{
    if items.len() != 2 {
        return None;
    }
    let part = part_from(&items[0])?;
    point_from(part, &items[1])
}

// The number of a part.
fn part_from(value: &Value) -> Option<u32>
    ensures { result ≡ part_of (view value.now) }
{
    let number = natural(value)?;
    if number < 0x1_0000_0000 {
        Some(number as u32)
    } else {
        None
    }
}

// The answer at the point that a text says, in that part.
fn point_from(part: u32, value: &Value) -> Option<CutAnswer>
    ensures { result ≡ point_in part (view value.now) }
{
    let text = value.as_str()?;
    let point = Frac::read(text)?;
    Some(CutAnswer { part, point })
}
