//! Laws of the definitions that the contracts of this crate rest on. Each function does nothing: its clauses
//! are the laws.
ghost use Rattle.slice_ast.specs.Laws.{CanonicalTextsSpell, NoAngleBeforeEquals, ProgramsAreTold, TokensAreTokens};

/// A canonical text spells its tokens, so that a lexer reads them back.
pub fn canonical_texts_spell()
    ensures { CanonicalTextsSpell }
{}

/// The tokens of a program that the grammar can spell are tokens, and no two of them read as one sign.
pub fn programs_have_tokens()
    ensures tokens { TokensAreTokens }
    ensures apart { NoAngleBeforeEquals }
{}

/// The grammar is unambiguous: the tokens of a program that it can spell tell the program, places aside.
pub fn programs_are_told()
    ensures { ProgramsAreTold }
{}
