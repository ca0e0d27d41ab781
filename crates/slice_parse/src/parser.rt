//! Programs from their text.
ghost use Rattle.std.specs.Prelude.{◌≡◌, IfOk, IfErr, MatchResult};
ghost use Rattle.slice_lex.specs.Text.{Spells};
ghost use Rattle.slice_ast.specs.Code.{PlainProgram};
ghost use Rattle.slice_ast.specs.Places.{IsRead};
ghost use Rattle.slice_ast.specs.Tokens.{tokens};
ghost use Rattle.slice_ast.specs.View.{program_of};
ghost use Rattle.slice_parse.specs.Rules as spec;
ghost use Rattle.slice_ast.specs.Spellable.{IsSpellable};
ghost use Rattle.slice_ast.specs.Limits.{IsWithinLimits};
ghost use Rattle.slice_ast.specs.Bare.{without_places};
ghost use Rattle.slice_parse.specs.Parsing.{IsFaultOf};
ghost use Rattle.slice_parse.specs.Told.{Answers, fault_at, of_lexer, told};

use crate::cursor::{Cursor, Stop};
use crate::lexeme::Lexeme;
use crate::lexemes::lexemes;
use crate::program::program;
use slice_ast::Program;
use slice_lex::{LexFault, lex};
use std::alloc::Global;
use thiserror::Error;

/// How many blocks the protocol's own block may hold, one inside the other.
const MOST_INNER_BLOCKS: u32 = 63;

/// Why a text is no program within the limits. `at` is an offset in bytes, from 0.
#[derive(Clone, Copy, Debug, PartialEq, Eq, Error)]
pub enum ParseFault {
    /// The text has no list of tokens.
    #[error("{0}")]
    Lex(LexFault),
    /// No program's tokens begin with those through the one here; or, where `at` is the length of the text, its tokens
    /// begin some program's, and more are needed.
    #[error("Syntax")]
    Syntax { at: usize },
    /// The brace here opens a block inside 64 others.
    #[error("DeepBlock")]
    DeepBlock { at: usize },
    /// The sign here comes before the 65th term of a sum.
    #[error("LongSum")]
    LongSum { at: usize },
    /// Memory ran out.
    #[error("Memory")]
    Memory,
}

// A fault of the lexer, where want of memory is the parser's own.
fn of_lexer(fault: LexFault) -> ParseFault
    ensures { result ≡ of_lexer fault }
{
    match fault {
        LexFault::Memory => ParseFault::Memory,
        other => ParseFault::Lex(other),
    }
}

// Why a program isn't read, where reading stopped at the token that begins at `at`.
fn fault_at(stop: Stop, at: usize) -> ParseFault
    ensures { result ≡ fault_at stop at }
{
    match stop {
        Stop::Memory => ParseFault::Memory,
        Stop::Syntax | Stop::Tired => ParseFault::Syntax { at },
        Stop::Deep => ParseFault::DeepBlock { at },
        Stop::Long => ParseFault::LongSum { at },
    }
}

// The program that the tokens of a text of this length are.
#[tactic(auto, unfolding(crate::specs::Rules::read))]
fn read(alloc: Global, lexemes: &[Lexeme], end: usize) -> Result<Program, ParseFault>
    ensures { Answers (told (spec.read lexemes.now) end) result }
{
    let mut tokens = Cursor::new(alloc, lexemes);
    match program(lexemes.len(), MOST_INNER_BLOCKS, &mut tokens) {
        Ok(program) => Ok(program),
        Err(stop) => Err(fault_at(stop, tokens.place(end))),
    }
}

/// The program that the text spells, with its places.
///
/// One pass over the tokens; memory in proportion to them. Ok comes exactly where the text spells a program within the
/// two limits, unless memory runs out: no block stands inside 64 others, and no sum has more than 64 terms. A fault of
/// the lexer comes first, wherever it is. Otherwise the first wrong token decides: `Syntax` names the first one such
/// that no program's tokens begin with those through it, or the length of the text where its tokens begin some
/// program's and more are needed; `DeepBlock` names the brace that opens a block inside 64 others, where the protocol's
/// or the procedure's own block counts as the first; `LongSum` names the sign before the 65th term of a sum, whatever
/// follows. `Memory` comes where memory runs out, in the lexer too.
pub fn parse(alloc: Global, bytes: &[u8]) -> Result<Program, ParseFault>
    ensures spelled { IfOk result (λ p. Spells bytes.now (tokens (program_of p))) }
    ensures places { IfOk result (λ p. IsRead bytes.now (program_of p)) }
    ensures spellable { IfOk result (λ p. IsSpellable (program_of p)) }
    ensures within { IfOk result (λ p. IsWithinLimits (program_of p)) }

    // A text that spells a program within the limits is parsed as this program.
    ensures complete { (p : PlainProgram) → IsSpellable p → IsWithinLimits p → Spells bytes.now (tokens p) → MatchResult result (λ q. without_places (program_of q) ≡ without_places p) (λ fault. fault ≡ ParseFault.Memory) }

    ensures fault { IfErr result (IsFaultOf bytes.now) }
{
    let tokens = match lex(alloc, bytes) {
        Ok(tokens) => tokens,
        Err(fault) => return Err(of_lexer(fault)),
    };
    let Ok(lexemes) = lexemes(alloc, bytes, tokens.as_slice()) else {
        return Err(ParseFault::Memory);
    };
    read(alloc, lexemes.as_slice(), bytes.len())
}
