// How a text is read as a program.
ghost use Rattle.std.specs.Prelude.{◌≡◌, IfOk, IfErr};
ghost use Rattle.slice_ast.specs.View.{program_of};
ghost use Rattle.slice_parse.specs.Laws.{IsProgramOf};
ghost use Rattle.slice_top.specs.Programs.{RefusesText, text_refusal};
ghost use Rattle.slice_top.specs.Stops.{StopsFor, stop_for};

use crate::stop::Stop;
use slice_ast::Program;
use slice_lex::LexFault;
use slice_parse::{ParseFault, parse};
use slice_report::Refusal;
use std::alloc::Global;

/// The program that the text spells, with its places.
pub(crate) fn read_program(alloc: Global, text: &[u8]) -> Result<Program, Stop>
    ensures ok { IfOk result (λ p. IsProgramOf text.now (program_of p)) }
    ensures err { IfErr result (StopsFor (RefusesText text.now)) }
{
    match parse(alloc, text) {
        Ok(program) => Ok(program),
        Err(fault) => Err(text_stop(fault)),
    }
}

// The stop for a fault of the parser.
fn text_stop(fault: ParseFault) -> Stop
    ensures { result ≡ stop_for (text_refusal fault) }
{
    match fault {
        ParseFault::Lex(fault) => lexer_stop(fault),
        ParseFault::Syntax { at } => Stop::Refused(Refusal::Syntax { at }),
        ParseFault::DeepBlock { at } => Stop::Refused(Refusal::DeepBlock { at }),
        ParseFault::LongSum { at } => Stop::Refused(Refusal::LongSum { at }),
        ParseFault::Memory => Stop::Memory,
    }
}

// The stop for a fault of the lexer.
fn lexer_stop(fault: LexFault) -> Stop
    ensures { result ≡ stop_for (text_refusal (ParseFault.Lex fault)) }
{
    match fault {
        LexFault::BadByte { at } => Stop::Refused(Refusal::BadByte { at }),
        LexFault::LongWord { at } => Stop::Refused(Refusal::LongWord { at }),
        LexFault::LongNumber { at } => Stop::Refused(Refusal::LongNumber { at }),
        LexFault::LeadingZero { at } => Stop::Refused(Refusal::LeadingZero { at }),
        LexFault::Memory => Stop::Memory,
    }
}
