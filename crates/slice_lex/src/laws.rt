//! Laws of the definitions that [`lex`](crate::lex)'s contract rests on. Each function does nothing: its clauses are the laws.
ghost use Rattle.slice_lex.specs.Laws.{EachFileHasALexing, LexedTokensAreSpelled, LexingsAreUnique, SpelledTokensAreLexed, TokensBeginWithTokens};

/// A file is read in one way alone, as one list of tokens with their places or as one fault, and each file is read so.
/// A byte that is no token by itself begins none.
pub fn lexings_are_unique()
    ensures unique { LexingsAreUnique }
    ensures some { EachFileHasALexing }
    ensures first_byte { TokensBeginWithTokens }
{}

/// A file that spells tokens, none of them `<` or `>` directly before `=`, is read as tokens with these texts.
/// A file that is read as tokens spells their texts.
pub fn spelled_tokens_are_lexed()
    ensures lexed { SpelledTokensAreLexed }
    ensures spelled { LexedTokensAreSpelled }
{}
