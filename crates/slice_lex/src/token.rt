// Tokens with their places, and why a text is not made of tokens.
use thiserror::Error;

/// What a token is.
#[derive(Clone, Copy, Debug, PartialEq, Eq)]
pub enum TokenKind {
    /// A lower-case letter, then lower-case letters, digits and `_`: 1 to 64 bytes. A keyword is a word too.
    Word,
    /// 1 to 18 digits, without a leading zero unless it is `0`.
    Number,
    /// One of `{ } ( ) , ; + - * / = < <= > >=`.
    Sign,
}

/// A token, with its place in the text in bytes.
#[derive(Clone, Copy, Debug, PartialEq, Eq)]
pub struct Token {
    /// What the token is.
    pub kind: TokenKind,
    /// The offset of its first byte.
    pub from: usize,
    /// The offset just past its last byte.
    pub to: usize,
}

/// Why a text has no list of tokens. `at` is an offset in bytes.
#[derive(Clone, Copy, Debug, PartialEq, Eq, Error)]
pub enum LexFault {
    /// The byte begins no token and is no layout, or it is a letter or `_` directly behind a number.
    #[error("BadByte")]
    BadByte { at: usize },
    /// A word of more than 64 bytes begins here.
    #[error("LongWord")]
    LongWord { at: usize },
    /// A number of more than 18 digits, the first not `0`, begins here.
    #[error("LongNumber")]
    LongNumber { at: usize },
    /// A number of two or more digits that begins with `0` begins here.
    #[error("LeadingZero")]
    LeadingZero { at: usize },
    /// Memory ran out.
    #[error("Memory")]
    Memory,
}
