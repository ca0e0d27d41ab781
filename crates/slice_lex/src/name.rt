// Which bytes are a name.
ghost use Rattle.std.specs.Prelude.{◌≡◌, bytes_eq};
ghost use Rattle.slice_num.specs.Name.{all_word_bytes, is_among, is_name, is_word, reserved_words};

use crate::lexer::{LONGEST_WORD, is_word_byte};

fn has_word_bytes(bytes: &[u8]) -> bool
    ensures { result ≡ all_word_bytes bytes.now }
{
    for byte in bytes {
        if !is_word_byte(*byte) {
            return false;
        }
    }
    true
}

fn is_word(bytes: &[u8]) -> bool
    ensures { result ≡ is_word bytes.now }
{
    match bytes.split_first() {
        Some((first, rest)) => {
            first.is_ascii_lowercase() && rest.len() < LONGEST_WORD && has_word_bytes(rest)
        }
        None => false,
    }
}

fn is(word: &[u8], text: &str) -> bool
    ensures { result ≡ bytes_eq word.now text.now }
{
    word == text.as_bytes()
}

fn is_reserved(word: &[u8]) -> bool
    ensures { result ≡ is_among word.now reserved_words }
{
    is(word, "agent")
        || is(word, "agents")
        || is(word, "as")
        || is(word, "at")
        || is(word, "call")
        || is(word, "cut")
        || is(word, "else")
        || is(word, "from")
        || is(word, "give")
        || is(word, "if")
        || is(word, "join")
        || is(word, "let")
        || is(word, "number")
        || is(word, "pick")
        || is(word, "piece")
        || is(word, "procedure")
        || is(word, "protocol")
        || is(word, "to")
        || is(word, "value")
        || is(word, "yield")
}

/// Whether the bytes are a name: a word of at most 64 bytes that isn't reserved.
///
/// Takes no memory.
pub fn is_name(bytes: &[u8]) -> bool
    ensures { result ≡ is_name bytes.now }
{
    is_word(bytes) && !is_reserved(bytes)
}
