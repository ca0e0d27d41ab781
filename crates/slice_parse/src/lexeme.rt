//! Tokens, told apart once.
use slice_num::Word;

/// A token whose text never varies: a keyword or a sign.
#[derive(Clone, Copy, Debug, PartialEq, Eq)]
pub enum Fixed {
    Agent,
    Agents,
    As,
    At,
    Call,
    Cut,
    Else,
    From,
    Give,
    If,
    Join,
    Let,
    Number,
    Pick,
    Piece,
    Procedure,
    Protocol,
    To,
    Value,
    Yield,
    OpenBrace,
    CloseBrace,
    OpenParen,
    CloseParen,
    Comma,
    Semicolon,
    Plus,
    Minus,
    Star,
    Slash,
    Equals,
    Less,
    AtMost,
    More,
    AtLeast,
}

/// What a token is.
#[derive(Drop)]
pub enum What {
    /// A keyword or a sign.
    Fixed(Fixed),
    /// A word that isn't reserved.
    Name(Word),
    /// A whole number.
    Number(u64),
}

/// A token, with the offset of its first byte.
#[derive(Drop)]
pub struct Lexeme {
    pub what: What,
    pub at: usize,
}
