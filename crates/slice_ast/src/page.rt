//! The canonical text of a program, laid out as its tokens come.
ghost use Rattle.std.specs.Prelude.{◌≡◌, ◌<◌, ◌^◌, [], ◌∷◌, ◌++◌, OnOk, IfOk, codes};
ghost use Rattle.slice_num.specs.Name.{is_among};
ghost use Rattle.slice_ast.specs.Layout.{new_line, canonical_text, depth_after};
ghost use Rattle.slice_ast.specs.Paging.{gap_after, last_of};
ghost use Rattle.slice_ast.specs.View.{program_of};

use crate::digits::push_decimal;
use crate::taking::TakesTokens;
use crate::tree::Program;
use crate::walk::Written;
use slice_num::Memory;
use std::alloc::Global;
use std::marker::Model;

/// What kind the last token is of, for the gap after it.
#[derive(Clone, Copy, Debug, PartialEq, Eq)]
enum Last {
    /// No token was put yet.
    Nothing,
    /// A line ends after it: `{` and `;`.
    LineEnd,
    /// A line ends after it, unless `else` or `as` is next: `}`.
    Brace,
    /// No space stands after it: `(` and `/`.
    Tight,
    /// A space stands after it, unless the next one forbids it.
    Loose,
}

/// The text so far, without the end of its last line.
#[derive(Drop)]
struct Page {
    text: Vec<u8>,
    last: Last,
    /// How many blocks are open.
    depth: usize,
}

impl Model for Page {
    ghost use Rattle.slice_ast.specs.Paging.{Layout};

    ghost Value = { Layout };

    ghost view = { λ p. record { text = p.text.items; last = p.last; depth = p.depth } };
}

impl TakesTokens for Page {
    ghost use Rattle.slice_ast.specs.Paging.{placed};

    ghost after = { placed };

    fn put(&mut self, token: &[u8]) -> Result<(), Memory> {
        let depth = depth_after(self.depth, token)?;
        push_gap(&mut self.text, self.last, self.depth, token)?;
        self.text.extend_from_slice(token)?;
        self.last = last_of(token);
        self.depth = depth;
        Ok(())
    }

    fn put_number(&mut self, value: u64) -> Result<(), Memory> {
        push_gap(&mut self.text, self.last, self.depth, b"0")?;
        push_decimal(&mut self.text, value)?;
        self.last = Last::Loose;
        Ok(())
    }
}

fn last_of(token: &[u8]) -> Last
    ensures { result ≡ last_of token.now }
{
    if token == b"{".as_slice() || token == b";".as_slice() {
        Last::LineEnd
    } else if token == b"}".as_slice() {
        Last::Brace
    } else if token == b"(".as_slice() || token == b"/".as_slice() {
        Last::Tight
    } else {
        Last::Loose
    }
}

// How many blocks are open after the token. More than can be counted take more memory than there is.
fn depth_after(depth: usize, token: &[u8]) -> Result<usize, Memory>
    ensures { IfOk result (λ d. d ≡ depth_after depth token.now) }
{
    if token == b"{".as_slice() {
        depth.checked_add(1).ok_or(Memory)
    } else if token == b"}".as_slice() {
        Ok(depth.saturating_sub(1))
    } else {
        Ok(depth)
    }
}

// The gap after a token of this kind and before the next one.
fn push_gap(text: &mut Vec<u8>, last: Last, depth: usize, next: &[u8]) -> Result<(), Memory>
    ensures { OnOk result (text.new.items ≡ text.old.items ++ gap_after last depth next.now) }
{
    let space = match last {
        Last::Nothing | Last::Tight => return Ok(()),
        Last::LineEnd => false,
        Last::Brace => next == b"else".as_slice() || next == b"as".as_slice(),
        Last::Loose => {
            if is_joined(next) {
                return Ok(());
            }
            true
        }
    };
    if space {
        text.extend_from_slice(b" ")?;
        return Ok(());
    }
    push_new_line(text, depth, next)
}

// No space stands before the token.
fn is_joined(token: &[u8]) -> bool
    ensures { result ≡ is_among token.now (codes "," ∷ codes ";" ∷ codes ")" ∷ codes "(" ∷ codes "/" ∷ []) }
{
    token == b",".as_slice()
        || token == b";".as_slice()
        || token == b")".as_slice()
        || token == b"(".as_slice()
        || token == b"/".as_slice()
}

// The end of a line, and the spaces of the next one.
#[tactic(auto, using(crate::proofs::LayoutLemmas::indenting))]
fn push_new_line(text: &mut Vec<u8>, depth: usize, next: &[u8]) -> Result<(), Memory>
    ensures { OnOk result (text.new.items ≡ text.old.items ++ new_line depth next.now) }
{
    text.extend_from_slice(b"\n")?;
    let deep = if next == b"}".as_slice() {
        depth.saturating_sub(1)
    } else {
        depth
    };
    for _ in 0..deep {
        text.extend_from_slice(b"  ")?;
    }
    Ok(())
}

/// The canonical text of a program: a line for each statement, indented by two spaces for each block around
/// it. The one error is want of memory.
pub fn print(alloc: Global, program: &Program) -> Result<Vec<u8>, Memory>
    ensures { IfOk result (λ v. v.items ≡ canonical_text (program_of program.now)) }
{
    let mut page = Page {
        text: Vec::new(alloc),
        last: Last::Nothing,
        depth: 0,
    };
    program.write(&mut page)?;
    let Page { mut text, .. } = page;
    text.extend_from_slice(b"\n")?;
    Ok(text)
}
