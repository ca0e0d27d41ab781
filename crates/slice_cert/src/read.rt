//! Lines as they are read.
ghost use Rattle.std.specs.Prelude.{◌≡◌, ◌↔◌, ℕ, ℤ, IsTrue, List, IfOk, IfErr, MatchOption, Some, None, codes, map};
ghost use Rattle.std.specs.List.{All};
ghost use Rattle.serde_json.specs.Data.{Data};
ghost use Rattle.serde_json.specs.View.{view};
ghost use Rattle.serde_json.specs.Find.{get};
ghost use Rattle.slice_num.specs.Rational.{Fits};
ghost use Rattle.slice_json.specs.Reading.{key_count};
ghost use Rattle.slice_json.specs.Texts.{whole, signed, text};
ghost use Rattle.slice_cert.specs.declared.line.Line.{Line};
ghost use Rattle.slice_cert.specs.CertLines.{IsLine, Says};
ghost use Rattle.slice_cert.specs.Kinds.{IsHeader, IsRefutation, IsCover, IsClosing};
ghost use Rattle.slice_cert.specs.declared.read.ReadLineFault.TheVariants.{BadLine, Memory};
ghost use Rattle.slice_json.specs.declared.read.JsonFault.TheVariants.{Json};

use crate::Line;
use crate::whole_text::whole_in;
use serde_json::Value;
use slice_json::{JsonFault, items_at, json, key_count, natural, text_at, text_is};
use slice_lex::is_name;
use slice_num::Word;
use sqlite_items::Items;
use std::alloc::{AllocError, AllocFailed, Global};

/// Why a line was not read.
#[derive(Clone, Copy, Debug, PartialEq, Eq)]
pub enum ReadLineFault {
    /// The bytes are no line of a certificate.
    BadLine,
    /// There was too little memory.
    Memory,
}

impl From<JsonFault> for ReadLineFault {
    ghost from_gives = { λ f e. e ≡ BadLine → f ≡ Json };

    fn from(fault: JsonFault) -> ReadLineFault {
        match fault {
            JsonFault::Json => ReadLineFault::BadLine,
            JsonFault::Memory => ReadLineFault::Memory,
        }
    }
}

impl From<AllocError> for ReadLineFault {
    ghost from_gives = { λ _ e. e ≡ Memory };

    fn from(_error: AllocError) -> ReadLineFault {
        ReadLineFault::Memory
    }
}

/// The line that the bytes, without LF, are. `BadLine` comes exactly where they are none.
pub fn read_line(alloc: Global, bytes: &[u8]) -> Result<Line, ReadLineFault>
    ensures line { IfOk result (λ l. IsLine bytes.now l) }
    ensures bad { IfErr result (λ e. e ≡ ReadLineFault.BadLine → (l : Line) → IsLine bytes.now l → ⊥) }
{
    let value = json(alloc, bytes)?;
    if let Some(line) = header(alloc, &value)? {
        return Ok(line);
    }
    if let Some(line) = refutation(alloc, &value)? {
        return Ok(line);
    }
    if let Some(line) = cover(alloc, &value)? {
        return Ok(line);
    }
    match closing(&value) {
        Some(line) => Ok(line),
        None => Err(ReadLineFault::BadLine),
    }
}

// The header that the value is.
fn header(alloc: Global, value: &Value) -> Result<Option<Line>, AllocError>
    ensures { IfOk result (λ o. MatchOption o ((l : Line) → IsHeader l → Says (view value.now) l → ⊥) (λ l. Says (view value.now) l)) }
{
    let Some(agents) = number_at(value, "agents") else {
        return Ok(None);
    };
    let Some(version) = number_at(value, "certificate") else {
        return Ok(None);
    };
    let Some(protocol) = text_at(value, "protocol") else {
        return Ok(None);
    };
    if !has_keys(value, 3) || !is_name(protocol.as_bytes()) {
        return Ok(None);
    }
    let (Ok(agents), Ok(version)) = (u32::try_from(agents), u32::try_from(version)) else {
        return Ok(None);
    };
    let Ok(protocol) = Word::new(alloc, protocol.as_bytes()) else {
        return Err(AllocError);
    };
    Ok(Some(Line::Header {
        version,
        protocol,
        agents,
    }))
}

// The refutation that the value is.
fn refutation(alloc: Global, value: &Value) -> Result<Option<Line>, AllocError>
    ensures { IfOk result (λ o. MatchOption o ((l : Line) → IsRefutation l → Says (view value.now) l → ⊥) (λ l. Says (view value.now) l)) }
{
    let Some(goal) = number_at(value, "goal") else {
        return Ok(None);
    };
    let Some(items) = items_at(value, "multipliers") else {
        return Ok(None);
    };
    if !has_keys(value, 2) {
        return Ok(None);
    }
    let Some(multipliers) = multipliers_of(alloc, items)? else {
        return Ok(None);
    };
    Ok(Some(Line::Refutation {
        goal,
        multipliers: Items::from_vec(multipliers),
    }))
}

// The line that covers goals and that the value is.
fn cover(alloc: Global, value: &Value) -> Result<Option<Line>, AllocError>
    ensures { IfOk result (λ o. MatchOption o ((l : Line) → IsCover l → Says (view value.now) l → ⊥) (λ l. Says (view value.now) l)) }
{
    let Some(passed) = number_at(value, "cover") else {
        return Ok(None);
    };
    let Some(goal) = number_at(value, "goal") else {
        return Ok(None);
    };
    let Some(items) = items_at(value, "multipliers") else {
        return Ok(None);
    };
    let Ok(passed) = u32::try_from(passed) else {
        return Ok(None);
    };
    if !has_keys(value, 3) {
        return Ok(None);
    }
    let Some(multipliers) = multipliers_of(alloc, items)? else {
        return Ok(None);
    };
    Ok(Some(Line::Cover {
        goal,
        passed,
        multipliers: Items::from_vec(multipliers),
    }))
}

// The closing line that the value is.
fn closing(value: &Value) -> Option<Line>
    ensures { MatchOption result ((l : Line) → IsClosing l → Says (view value.now) l → ⊥) (λ l. Says (view value.now) l) }
{
    let goals = number_at(value, "goals")?;
    if !has_keys(value, 2) || !says(value, "closing", "envy-free") {
        return None;
    }
    Some(Line::Closing { goals })
}

// Whether an object has so many keys.
fn has_keys(value: &Value, count: usize) -> bool
    ensures { IsTrue result ↔ (key_count (view value.now) ≡ Some count) }
{
    key_count(value) == Some(count)
}

// Whether an object has the text at the key.
fn says(value: &Value, key: &str, wanted: &str) -> bool
    ensures { IsTrue result ↔ (get key.now (view value.now) ≡ Some (text wanted.now)) }
{
    text_is(value, key, wanted)
}

// The whole number at a key of an object, where it is held as one and is not below 0.
fn number_at(value: &Value, key: &str) -> Option<u64>
    ensures { MatchOption result ((n : ℕ) → get key.now (view value.now) ≡ Some (whole n) → ⊥) (λ n. get key.now (view value.now) ≡ Some (whole n)) }
{
    match value.get(key) {
        Some(found) => natural(found),
        None => None,
    }
}

// The whole numbers that the values are the texts of.
fn multipliers_of(alloc: Global, items: &Vec<Value>) -> Result<Option<Vec<i128>>, AllocError>
    ensures { IfOk result (λ o. MatchOption o ((zs : List ℤ) → All Fits zs → map view items.now.items ≡ map signed zs → ⊥) (λ v. All Fits v.items × (map view items.now.items ≡ map signed v.items))) }
{
    let mut numbers = Vec::new(alloc);
    for item in items {
        let Some(number) = multiplier_of(alloc, item)? else {
            return Ok(None);
        };
        numbers.push(number)?;
    }
    Ok(Some(numbers))
}

// The whole number that the value is the text of.
fn multiplier_of(alloc: Global, value: &Value) -> Result<Option<i128>, AllocError>
    ensures { IfOk result (λ o. MatchOption o ((z : ℤ) → Fits z → view value.now ≡ signed z → ⊥) (λ z. Fits z × (view value.now ≡ signed z))) }
{
    match value.as_str() {
        Some(text) => whole_in(alloc, text),
        None => Ok(None),
    }
}
