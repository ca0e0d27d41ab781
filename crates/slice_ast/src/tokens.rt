//! The tokens of a program, as a list of their texts.
ghost use Rattle.std.specs.Prelude.{◌≡◌, IfOk, map};
ghost use Rattle.slice_ast.specs.Tokens.{tokens};
ghost use Rattle.slice_ast.specs.View.{program_of};

use crate::digits::push_decimal;
use crate::taking::TakesTokens;
use crate::tree::Program;
use crate::walk::Written;
use slice_num::Memory;
use std::alloc::Global;
use std::marker::Model;

/// The texts of tokens, in order.
#[derive(Drop)]
struct TokenList {
    alloc: Global,
    texts: Vec<Vec<u8>>,
}

impl Model for TokenList {
    ghost use Rattle.std.specs.Prelude.{List, ℕ, map};

    ghost Value = { List (List ℕ) };

    ghost view = { λ l. map (λ t. t.items) l.texts.items };
}

impl TakesTokens for TokenList {
    ghost use Rattle.std.specs.Prelude.{[], ◌∷◌, ◌++◌};

    ghost after = { λ texts text. texts ++ text ∷ [] };

    fn put(&mut self, token: &[u8]) -> Result<(), Memory> {
        let text = Vec::from_slice(self.alloc, token)?;
        if self.texts.push(text).is_err() {
            return Err(Memory);
        }
        Ok(())
    }

    fn put_number(&mut self, value: u64) -> Result<(), Memory> {
        let mut text = Vec::new(self.alloc);
        push_decimal(&mut text, value)?;
        if self.texts.push(text).is_err() {
            return Err(Memory);
        }
        Ok(())
    }
}

/// The texts of a program's tokens, in order. Places aren't looked at. The one error is want of memory.
#[tactic(auto, using(crate::proofs::TakingLemmas::listing))]
pub fn tokens_of(alloc: Global, program: &Program) -> Result<Vec<Vec<u8>>, Memory>
    ensures { IfOk result (λ v. map (λ t. t.items) v.items ≡ tokens (program_of program.now)) }
{
    let mut list = TokenList {
        alloc,
        texts: Vec::new(alloc),
    };
    program.write(&mut list)?;
    let TokenList { texts, .. } = list;
    Ok(texts)
}
