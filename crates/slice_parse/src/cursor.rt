//! The tokens that are left, and the rules of one token.
ghost use Rattle.std.specs.Prelude.{◌≡◌};
ghost use Rattle.slice_parse.specs.Combinators.{next_is, finish};
ghost use Rattle.slice_parse.specs.Lexemes as spec;
ghost use Rattle.slice_parse.specs.Told.{next_place};
ghost use Rattle.slice_parse.specs.Reads.{Reads};

use crate::lexeme::{Fixed, Lexeme, What};
use slice_ast::{AgentRef, Cmp, Kind, Name, Number};
use slice_num::Word;
use std::alloc::Global;
use std::marker::Model;

/// Why reading stopped, at the token that comes next.
#[derive(Clone, Copy, Debug, PartialEq, Eq)]
pub enum Stop {
    Memory,
    Syntax,
    /// A block would be opened inside too many others.
    Deep,
    /// A sum would get too many terms.
    Long,
    /// A list would have more items than there are tokens, which never comes.
    Tired,
}

/// The tokens that are left. Contracts see it as their list.
#[derive(Drop)]
pub struct Cursor<'a> {
    alloc: Global,
    left: &'a [Lexeme],
}

impl<'a> Model for Cursor<'a> {
    ghost use Rattle.std.specs.Prelude.{List};
    ghost use Rattle.slice_parse.specs.declared.lexeme.Lexeme.{Lexeme};

    ghost Value = { List Lexeme };

    ghost view = { λ c. c.left.now };
}

impl<'a> Cursor<'a> {
    pub fn new(alloc: Global, left: &'a [Lexeme]) -> Cursor<'a>
        ensures { result ≡ left.now }
    {
        Cursor { alloc, left }
    }

    pub fn alloc(&self) -> Global {
        self.alloc
    }

    /// Where the next token begins, or else this end.
    pub fn place(&self, end: usize) -> usize
        ensures { result ≡ next_place self.now end }
    {
        match self.left.first() {
            Some(next) => next.at,
            None => end,
        }
    }

    /// Whether this keyword or sign comes next.
    pub fn sees(&self, word: Fixed) -> bool
        ensures { result ≡ next_is (spec.is word) self.now }
    {
        match self.left.first() {
            Some(
                Lexeme {
                    what: What::Fixed(fixed),
                    ..
                },
            ) => *fixed == word,
            _ => false,
        }
    }

    pub fn sees_number(&self) -> bool
        ensures { result ≡ next_is spec.is_number self.now }
    {
        matches!(
            self.left.first(),
            Some(Lexeme {
                what: What::Number(_),
                ..
            })
        )
    }

    pub fn sees_sign(&self) -> bool
        ensures { result ≡ next_is spec.is_sign self.now }
    {
        match self.left.first() {
            Some(
                Lexeme {
                    what: What::Fixed(word),
                    ..
                },
            ) => is_sign(*word),
            _ => false,
        }
    }

    /// Whether a statement begins here.
    pub fn sees_statement(&self) -> bool
        ensures { result ≡ next_is spec.starts self.now }
    {
        match self.left.first() {
            Some(
                Lexeme {
                    what: What::Fixed(word),
                    ..
                },
            ) => begins_statement(*word),
            _ => false,
        }
    }

    /// Takes this keyword or sign, and gives its place.
    pub fn expect(&mut self, word: Fixed) -> Result<usize, Stop>
        ensures { Reads (λ at. at) (spec.expect word self.old) result self.new }
    {
        let Some((first, rest)) = self.left.split_first() else {
            return Err(Stop::Syntax);
        };
        let What::Fixed(fixed) = &first.what else {
            return Err(Stop::Syntax);
        };
        if *fixed != word {
            return Err(Stop::Syntax);
        }
        self.left = rest;
        Ok(first.at)
    }

    pub fn name(&mut self) -> Result<Name, Stop>
        ensures { Reads (λ x. x) (spec.name self.old) result self.new }
    {
        let Some((first, rest)) = self.left.split_first() else {
            return Err(Stop::Syntax);
        };
        let What::Name(word) = &first.what else {
            return Err(Stop::Syntax);
        };
        let Ok(word) = Word::new(self.alloc, word.bytes()) else {
            return Err(Stop::Memory);
        };
        self.left = rest;
        Ok(Name { word, at: first.at })
    }

    pub fn number(&mut self) -> Result<Number, Stop>
        ensures { Reads (λ n. n) (spec.number self.old) result self.new }
    {
        let Some((first, rest)) = self.left.split_first() else {
            return Err(Stop::Syntax);
        };
        let What::Number(value) = &first.what else {
            return Err(Stop::Syntax);
        };
        self.left = rest;
        Ok(Number {
            value: *value,
            at: first.at,
        })
    }

    pub fn agent_ref(&mut self) -> Result<AgentRef, Stop>
        ensures { Reads (λ a. a) (spec.agent_ref self.old) result self.new }
    {
        if self.sees_number() {
            Ok(AgentRef::Fixed(self.number()?))
        } else {
            Ok(AgentRef::Named(self.name()?))
        }
    }

    /// Takes `+` or `-`; whether it was `-`.
    pub fn sign(&mut self) -> Result<bool, Stop>
        ensures { Reads (λ b. b) (spec.sign self.old) result self.new }
    {
        let Some((first, rest)) = self.left.split_first() else {
            return Err(Stop::Syntax);
        };
        let What::Fixed(word) = &first.what else {
            return Err(Stop::Syntax);
        };
        let Some(minus) = sign_of(*word) else {
            return Err(Stop::Syntax);
        };
        self.left = rest;
        Ok(minus)
    }

    pub fn comparison(&mut self) -> Result<Cmp, Stop>
        ensures { Reads (λ c. c) (spec.comparison self.old) result self.new }
    {
        let Some((first, rest)) = self.left.split_first() else {
            return Err(Stop::Syntax);
        };
        let What::Fixed(word) = &first.what else {
            return Err(Stop::Syntax);
        };
        let Some(cmp) = cmp_of(*word) else {
            return Err(Stop::Syntax);
        };
        self.left = rest;
        Ok(cmp)
    }

    /// Takes `agent`, `piece` or `number`.
    pub fn kind(&mut self) -> Result<Kind, Stop>
        ensures { Reads (λ k. k) (spec.kind_word self.old) result self.new }
    {
        let Some((first, rest)) = self.left.split_first() else {
            return Err(Stop::Syntax);
        };
        let What::Fixed(word) = &first.what else {
            return Err(Stop::Syntax);
        };
        let Some(kind) = kind_of(*word) else {
            return Err(Stop::Syntax);
        };
        self.left = rest;
        Ok(kind)
    }

    /// That no token is left.
    pub fn finish(&self) -> Result<(), Stop>
        ensures { Reads (λ u. u) (finish self.now) result self.now }
    {
        if self.left.is_empty() {
            Ok(())
        } else {
            Err(Stop::Syntax)
        }
    }
}

fn is_sign(word: Fixed) -> bool
    ensures { result ≡ spec.is_sign_fixed word }
{
    matches!(word, Fixed::Plus | Fixed::Minus)
}

fn begins_statement(word: Fixed) -> bool
    ensures { result ≡ spec.begins_stmt word }
{
    matches!(
        word,
        Fixed::Cut | Fixed::Let | Fixed::Join | Fixed::Give | Fixed::If | Fixed::Pick | Fixed::Call
    )
}

fn sign_of(word: Fixed) -> Option<bool>
    ensures { result ≡ spec.sign_of word }
{
    match word {
        Fixed::Plus => Some(false),
        Fixed::Minus => Some(true),
        _ => None,
    }
}

fn cmp_of(word: Fixed) -> Option<Cmp>
    ensures { result ≡ spec.cmp_of word }
{
    match word {
        Fixed::Less => Some(Cmp::Less),
        Fixed::AtMost => Some(Cmp::AtMost),
        Fixed::More => Some(Cmp::More),
        Fixed::AtLeast => Some(Cmp::AtLeast),
        _ => None,
    }
}

fn kind_of(word: Fixed) -> Option<Kind>
    ensures { result ≡ spec.kind_of word }
{
    match word {
        Fixed::Agent => Some(Kind::Agent),
        Fixed::Piece => Some(Kind::Piece),
        Fixed::Number => Some(Kind::Number),
        _ => None,
    }
}
