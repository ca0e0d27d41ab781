// Words as texts, and values as lines.
ghost use Rattle.std.specs.Prelude.{◌≡◌, IsTrue, IfOk, false};
ghost use Rattle.std.specs.Str.{IsUtf8};
ghost use Rattle.serde_json.specs.View.{view};
ghost use Rattle.serde_json.specs.Written.{has_float};
ghost use Rattle.slice_json.specs.Texts.{line_of};
ghost use Rattle.slice_num.specs.Name.{is_name};

use serde_json::Value;
use slice_num::Word;
use std::alloc::{AllocError, Global};
use std::str;

// The word, as a text.
pub(crate) fn text_of(word: &Word) -> &str
    requires { IsUtf8 word.now }
    ensures { result.now ≡ word.now }
{
    str::from_utf8(word.bytes()).unwrap()
}

// The name, as a text.
pub(crate) fn name_of(word: &Word) -> &str
    requires { IsTrue (is_name word.now) }
    ensures { result.now ≡ word.now }
{
    text_of(word)
}

// The line of a value that has no float, with its LF.
pub(crate) fn line_of(alloc: Global, value: &Value) -> Result<Vec<u8>, AllocError>
    requires { has_float (view value.now) ≡ false }
    ensures { IfOk result (λ v. v.items ≡ line_of (view value.now)) }
{
    let mut bytes = value.to_vec(alloc)?;
    bytes.push(b'\n')?;
    Ok(bytes)
}
