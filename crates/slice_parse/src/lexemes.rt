//! The tokens of a text, told apart.
ghost use Rattle.std.specs.Prelude.{◌≡◌, ◌<◌, ◌^◌, true, false, decimal, bytes_eq, All, IfOk, IfSome, IsNone};
ghost use Rattle.slice_num.specs.Name.{is_among, reserved_words};
ghost use Rattle.slice_lex.specs.Text.{is_number, is_sign};
ghost use Rattle.slice_lex.specs.Lexing.{IsTokenOf};
ghost use Rattle.slice_parse.specs.Lexemes.{fixed_text};
ghost use Rattle.slice_parse.specs.Classes.{IsToldApart, AreToldApart};

use crate::lexeme::{Fixed, Lexeme, What};
use slice_lex::{Token, TokenKind};
use slice_num::{Memory, Word};
use sqlite_items::Items;
use std::alloc::Global;

fn is(text: &[u8], wanted: &str) -> bool
    ensures { result ≡ bytes_eq text.now wanted.now }
{
    text == wanted.as_bytes()
}

// The keyword that the word is, if it is one.
fn keyword_of(word: &[u8]) -> Option<Fixed>
    ensures found { IfSome result (λ k. fixed_text k ≡ word.now) }
    ensures none { IsNone result → is_among word.now reserved_words ≡ false }
{
    if is(word, "agent") {
        Some(Fixed::Agent)
    } else if is(word, "agents") {
        Some(Fixed::Agents)
    } else if is(word, "as") {
        Some(Fixed::As)
    } else if is(word, "at") {
        Some(Fixed::At)
    } else if is(word, "call") {
        Some(Fixed::Call)
    } else if is(word, "cut") {
        Some(Fixed::Cut)
    } else if is(word, "else") {
        Some(Fixed::Else)
    } else if is(word, "from") {
        Some(Fixed::From)
    } else if is(word, "give") {
        Some(Fixed::Give)
    } else if is(word, "if") {
        Some(Fixed::If)
    } else if is(word, "join") {
        Some(Fixed::Join)
    } else if is(word, "let") {
        Some(Fixed::Let)
    } else if is(word, "number") {
        Some(Fixed::Number)
    } else if is(word, "pick") {
        Some(Fixed::Pick)
    } else if is(word, "piece") {
        Some(Fixed::Piece)
    } else if is(word, "procedure") {
        Some(Fixed::Procedure)
    } else if is(word, "protocol") {
        Some(Fixed::Protocol)
    } else if is(word, "to") {
        Some(Fixed::To)
    } else if is(word, "value") {
        Some(Fixed::Value)
    } else if is(word, "yield") {
        Some(Fixed::Yield)
    } else {
        None
    }
}

#[tactic(auto, unfolding(slice_lex::specs::Text::is_sign))]
fn sign_of(sign: &[u8]) -> Fixed
    requires { is_sign sign.now ≡ true }
    ensures { fixed_text result ≡ sign.now }
{
    if is(sign, "{") {
        Fixed::OpenBrace
    } else if is(sign, "}") {
        Fixed::CloseBrace
    } else if is(sign, "(") {
        Fixed::OpenParen
    } else if is(sign, ")") {
        Fixed::CloseParen
    } else if is(sign, ",") {
        Fixed::Comma
    } else if is(sign, ";") {
        Fixed::Semicolon
    } else if is(sign, "+") {
        Fixed::Plus
    } else if is(sign, "-") {
        Fixed::Minus
    } else if is(sign, "*") {
        Fixed::Star
    } else if is(sign, "/") {
        Fixed::Slash
    } else if is(sign, "=") {
        Fixed::Equals
    } else if is(sign, "<") {
        Fixed::Less
    } else if is(sign, "<=") {
        Fixed::AtMost
    } else if is(sign, ">") {
        Fixed::More
    } else {
        Fixed::AtLeast
    }
}

// The number that the digits spell.
fn number_of(digits: &[u8]) -> u64
    requires { is_number digits.now ≡ true }
    ensures text { decimal result ≡ digits.now }
    ensures below { result < 10 ^ 18 }
{
    let mut value = 0;
    for digit in digits {
        value = 10 * value + u64::from(*digit - b'0');
    }
    value
}

fn lexeme(alloc: Global, file: &[u8], token: &Token) -> Result<Lexeme, Memory>
    requires { IsTokenOf file.now token.now }
    ensures { IfOk result (IsToldApart file.now token.now) }
{
    let text = &file[token.from..token.to];
    let what = match token.kind {
        TokenKind::Word => match keyword_of(text) {
            Some(word) => What::Fixed(word),
            None => What::Name(Word::new(alloc, text)?),
        },
        TokenKind::Number => What::Number(number_of(text)),
        TokenKind::Sign => What::Fixed(sign_of(text)),
    };
    Ok(Lexeme {
        what,
        at: token.from,
    })
}

/// The tokens of the file, told apart. The one error is want of memory.
pub fn lexemes(alloc: Global, file: &[u8], tokens: &[Token]) -> Result<Items<Lexeme>, Memory>
    requires { All (IsTokenOf file.now) tokens.now }
    ensures { IfOk result (AreToldApart file.now tokens.now) }
{
    let mut found = Items::new(alloc);
    for token in tokens {
        let next = lexeme(alloc, file, token)?;
        if found.push(next).is_err() {
            return Err(Memory);
        }
    }
    Ok(found)
}
