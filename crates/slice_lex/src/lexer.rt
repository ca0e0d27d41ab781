// A text parted into its tokens, in one pass.
ghost use Rattle.std.specs.Prelude.{◌≡◌, ◌≢◌, ℕ, ◌≤◌, ◌<◌, ◌==◌, List, [], ◌∷◌, true, false, length, drop, not, slice_index, All, IfOk, IfErr, IsTrue, MatchResult};
ghost use Rattle.std.specs.List.{list_all, prefix_len};
ghost use Rattle.slice_num.specs.Name.{is_digit, is_letter, is_word_byte};
ghost use Rattle.slice_lex.specs.Text.{begins, is_angle, is_gap_byte, is_layout, is_line_end, is_sign, is_token, no_angle_before_equals, Spells};
ghost use Rattle.slice_lex.specs.Lexing.{AfterToken, AreInOrder, BeginsFault, Fault, IsLexing, IsRestOf, IsTokenOf, texts_of, Tokens};

use crate::token::{LexFault, Token, TokenKind};
use std::alloc::Global;

pub const LONGEST_WORD: usize = 64;

const MOST_DIGITS: usize = 18;

pub fn is_word_byte(byte: u8) -> bool
    ensures { result ≡ is_word_byte byte }
{
    byte.is_ascii_lowercase() || byte.is_ascii_digit() || byte == b'_'
}

fn is_layout(byte: u8) -> bool
    ensures { result ≡ is_layout byte }
{
    byte == b' ' || byte == b'\t' || byte == b'\r' || byte == b'\n'
}

// Whether the byte is a sign by itself.
#[tactic(auto, unfolding(crate::specs::Text::is_sign))]
fn is_sign_byte(byte: u8) -> bool
    ensures { result ≡ is_sign (byte ∷ []) }
{
    byte == b'{'
        || byte == b'}'
        || byte == b'('
        || byte == b')'
        || byte == b','
        || byte == b';'
        || byte == b'+'
        || byte == b'-'
        || byte == b'*'
        || byte == b'/'
        || byte == b'='
        || byte == b'<'
        || byte == b'>'
}

#[tactic(auto, unfolding(crate::specs::Text::is_angle))]
fn is_angle(byte: u8) -> bool
    ensures { result ≡ is_angle (byte ∷ []) }
{
    byte == b'<' || byte == b'>'
}

fn begins_with_equals(bytes: &[u8]) -> bool
    ensures { result ≡ begins (λ c. c == 61) bytes.now }
{
    match bytes.first() {
        Some(byte) => *byte == b'=',
        None => false,
    }
}

fn begins_with_word_byte(bytes: &[u8]) -> bool
    ensures { result ≡ begins is_word_byte bytes.now }
{
    match bytes.first() {
        Some(byte) => is_word_byte(*byte),
        None => false,
    }
}

// How many letters, digits and `_` come first.
fn word_length(bytes: &[u8]) -> usize
    ensures count { result ≡ prefix_len is_word_byte bytes.now }
    ensures within { result ≤ length bytes.now }
{
    bytes.iter().take_while(|byte| is_word_byte(**byte)).count()
}

// How many digits come first.
fn number_length(bytes: &[u8]) -> usize
    ensures count { result ≡ prefix_len is_digit bytes.now }
    ensures within { result ≤ length bytes.now }
{
    bytes
        .iter()
        .take_while(|byte| byte.is_ascii_digit())
        .count()
}

// How many bytes come before the next LF.
fn line_length(bytes: &[u8]) -> usize
    ensures count { result ≡ prefix_len (λ c. not (is_line_end c)) bytes.now }
    ensures within { result ≤ length bytes.now }
{
    bytes.iter().take_while(|byte| **byte != b'\n').count()
}

// The word that begins at `at` with a letter.
fn word_at(file: &[u8], at: usize) -> Result<Token, LexFault>
    requires within { at < length file.now }
    requires letter { is_letter (slice_index file.now at) ≡ true }
    ensures token { IfOk result (λ t. AfterToken t (IsRestOf file.now) at (drop at file.now)) }
    ensures span { IfOk result (λ t. (at < t.to) × (t.to ≤ length file.now)) }
    ensures fault { IfErr result (λ fault. BeginsFault fault at (drop at file.now)) }
{
    let length = word_length(&file[at..]);
    if length > LONGEST_WORD {
        return Err(LexFault::LongWord { at });
    }
    Ok(Token {
        kind: TokenKind::Word,
        from: at,
        to: at + length,
    })
}

// The number that begins at `at` with a digit.
fn number_at(file: &[u8], at: usize) -> Result<Token, LexFault>
    requires within { at < length file.now }
    requires digit { is_digit (slice_index file.now at) ≡ true }
    ensures token { IfOk result (λ t. AfterToken t (IsRestOf file.now) at (drop at file.now)) }
    ensures span { IfOk result (λ t. (at < t.to) × (t.to ≤ length file.now)) }
    ensures fault { IfErr result (λ fault. BeginsFault fault at (drop at file.now)) }
{
    let length = number_length(&file[at..]);
    if length > 1 && file[at] == b'0' {
        return Err(LexFault::LeadingZero { at });
    }
    if length > MOST_DIGITS {
        return Err(LexFault::LongNumber { at });
    }
    let to = at + length;
    if begins_with_word_byte(&file[to..]) {
        return Err(LexFault::BadByte { at: to });
    }
    Ok(Token {
        kind: TokenKind::Number,
        from: at,
        to,
    })
}

// The sign that begins at `at`.
fn sign_at(file: &[u8], at: usize) -> Result<Token, LexFault>
    requires within { at < length file.now }
    requires no_word { is_letter (slice_index file.now at) ≡ false }
    requires no_number { is_digit (slice_index file.now at) ≡ false }
    requires no_gap { is_gap_byte (slice_index file.now at) ≡ false }
    ensures token { IfOk result (λ t. AfterToken t (IsRestOf file.now) at (drop at file.now)) }
    ensures span { IfOk result (λ t. (at < t.to) × (t.to ≤ length file.now)) }
    ensures fault { IfErr result (λ fault. BeginsFault fault at (drop at file.now)) }
{
    if !is_sign_byte(file[at]) {
        return Err(LexFault::BadByte { at });
    }
    let next = at + 1;
    let to = if is_angle(file[at]) && begins_with_equals(&file[next..]) {
        next + 1
    } else {
        next
    };
    Ok(Token {
        kind: TokenKind::Sign,
        from: at,
        to,
    })
}

// The token that begins at `at`, where there is no gap.
fn token_at(file: &[u8], at: usize) -> Result<Token, LexFault>
    requires within { at < length file.now }
    requires no_gap { is_gap_byte (slice_index file.now at) ≡ false }
    ensures token { IfOk result (λ t. AfterToken t (IsRestOf file.now) at (drop at file.now)) }
    ensures span { IfOk result (λ t. (at < t.to) × (t.to ≤ length file.now)) }
    ensures fault { IfErr result (λ fault. BeginsFault fault at (drop at file.now)) }
{
    let first = file[at];
    if first.is_ascii_lowercase() {
        word_at(file, at)
    } else if first.is_ascii_digit() {
        number_at(file, at)
    } else {
        sign_at(file, at)
    }
}

/// All tokens of the text in order, with their places, or the leftmost fault with its place.
///
/// One pass over the bytes; no memory is taken but the list of tokens.
/// `BadByte` comes exactly at a byte outside comments that begins no token and is no layout, and at a letter or `_`
/// directly behind a number's last digit. `LongWord` comes exactly at the first byte of a word of more than 64 bytes,
/// `LeadingZero` at that of a number of two or more digits that begins with `0`, and `LongNumber` at that of any other
/// number of more than 18 digits. `Memory` comes where memory runs out.
pub fn lex(alloc: Global, bytes: &[u8]) -> Result<Vec<Token>, LexFault>
    ensures tokens { IfOk result (λ v. IsLexing bytes.now (Tokens v.items)) }
    ensures each { IfOk result (λ v. All (IsTokenOf bytes.now) v.items) }
    ensures in_order { IfOk result (λ v. AreInOrder 0 v.items) }

    // The bytes spell the texts of the tokens, and where they spell tokens, these are the texts.
    ensures spelled { IfOk result (λ v. Spells bytes.now (texts_of bytes.now v.items)) }
    ensures complete { (texts : List (List ℕ)) → IsTrue (list_all is_token texts) → IsTrue (no_angle_before_equals texts) → Spells bytes.now texts → MatchResult result (λ v. texts_of bytes.now v.items ≡ texts) (λ fault. fault ≡ LexFault.Memory) }

    ensures fault { IfErr result (λ fault. fault ≢ LexFault.Memory → IsLexing bytes.now (Fault fault)) }
{
    let mut tokens = Vec::new(alloc);
    let mut at = 0;
    while at < bytes.len() {
        if is_layout(bytes[at]) {
            at += 1;
        } else if bytes[at] == b'#' {
            at += line_length(&bytes[at..]);
        } else {
            let token = token_at(bytes, at)?;
            if tokens.push(token).is_err() {
                return Err(LexFault::Memory);
            }
            at = token.to;
        }
    }
    Ok(tokens)
}
