//! Laws of the definitions that [`parse`](crate::parse)'s contract rests on. Each function does nothing: its clauses are
//! the laws.
ghost use Rattle.slice_parse.specs.Laws.{EachTextIsParsed, FaultsAreUnique, FaultyTextsHaveNoProgram, ProgramsAreUnique, ReadProgramsAreUnique};

/// A text has one fault, or it spells one program within the limits, and never both: one program places aside, and one
/// with the places that its tokens have in the text.
pub fn parsings_are_unique()
    ensures faults { FaultsAreUnique }
    ensures programs { ProgramsAreUnique }
    ensures read { ReadProgramsAreUnique }
    ensures apart { FaultyTextsHaveNoProgram }
{}

/// Each text spells a program within the limits, and is read as it, or has a fault.
pub fn parsings_exist()
    ensures { EachTextIsParsed }
{}
