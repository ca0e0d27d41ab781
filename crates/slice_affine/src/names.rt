//! The names in scope.
ghost use Rattle.std.specs.Prelude.{◌≡◌, ◌++◌, ◌∷◌, [], ◌<◌, Some, None, OnOk, IfSome, IsSome, IsTrue, ◌↔◌, length, take, is_some, slice_get};
ghost use Rattle.std.specs.Option.{option_map};
ghost use Rattle.std.specs.Map.{keys_of, values_of};
ghost use Rattle.slice_num.specs.Name.{is_among};
ghost use Rattle.slice_affine.specs.Scope.{look};
ghost use Rattle.slice_affine.specs.Shown.{stands};
ghost use Rattle.slice_affine.specs.Pass.{index_of, changed_at, used_by, unused_by};

use indexmap::IndexMap;
use slice_ast::Kind;
use slice_num::Memory;
use std::alloc::Global;
use std::marker::Model;

/// What a name stands for: its kind, and for a piece the least place of a use on some way so far.
#[derive(Clone, Copy)]
pub(crate) struct Standing {
    pub kind: Kind,
    pub used: Option<usize>,
}

/// The names in scope, in the order in which they were bound.
#[derive(Drop)]
pub(crate) struct Names<'p> {
    table: IndexMap<&'p [u8], Standing>,
}

impl<'p> Model for Names<'p> {
    ghost use Rattle.std.specs.Prelude.{map};
    ghost use Rattle.slice_affine.specs.Pass.{Ledger};
    ghost use Rattle.slice_affine.specs.Shown.{shown};

    ghost Value = { Ledger };

    ghost view = { λ n. map shown n.table.entries };
}

// What a name stands for that is used at the place.
fn used_at(standing: Standing, place: usize) -> Standing
    ensures { stands result ≡ used_by place (stands standing) }
{
    let used = match standing.used {
        Some(first) => first.min(place),
        None => place,
    };
    Standing {
        kind: standing.kind,
        used: Some(used),
    }
}

impl<'p> Names<'p> {
    pub fn new(alloc: Global) -> Names<'p>
        ensures { result ≡ [] }
    {
        Names {
            table: IndexMap::new(alloc),
        }
    }

    pub fn len(&self) -> usize
        ensures { result ≡ length self.now }
    {
        self.table.len()
    }

    /// What the word stands for.
    pub fn look(&self, word: &[u8]) -> Option<Standing>
        ensures { option_map stands result ≡ look self.now word.now }
    {
        self.table.get(word).copied()
    }

    /// Where the word stands among the names.
    pub fn index_of(&self, word: &[u8]) -> Option<usize>
        ensures { result ≡ index_of word.now self.now }
    {
        self.table.get_index_of(word)
    }

    /// One more name in scope.
    pub fn bind(&mut self, word: &'p [u8], standing: Standing) -> Result<(), Memory>
        requires { look self.old word.now ≡ None }
        ensures { OnOk result (self.new ≡ self.old ++ (word.now, stands standing) ∷ []) }
    {
        // No `?`: the map's error holds the key and the value, and converts to nothing of ours.
        match self.table.insert(word, standing) {
            Ok(_) => Ok(()),
            Err(_) => Err(Memory),
        }
    }

    // The standing at the index is replaced: a write of its own, so that callers see a changed list and no borrow.
    fn replace(&mut self, index: usize, standing: Standing)
        requires { index < length self.old }
        ensures { self.new ≡ changed_at (λ m. stands standing) index self.old }
    {
        self.table[index] = standing;
    }

    /// What the name at the index stands for.
    pub fn at(&self, index: usize) -> Option<Standing>
        ensures { option_map stands result ≡ slice_get (values_of self.now) index }
    {
        match self.table.get_index(index) {
            Some((_, standing)) => Some(*standing),
            None => None,
        }
    }

    /// The name at the index is used at the place; the lesser place is kept. Past the names nothing changes.
    pub fn mark(&mut self, index: usize, place: usize)
        ensures { self.new ≡ changed_at (used_by place) index self.old }
    {
        if let Some(standing) = self.at(index) {
            self.replace(index, used_at(standing, place));
        }
    }

    /// The use of the name at the index is taken back. Past the names nothing changes.
    pub fn clear(&mut self, index: usize)
        ensures { self.new ≡ changed_at unused_by index self.old }
    {
        if let Some(standing) = self.at(index) {
            let kind = standing.kind;
            self.replace(index, Standing { kind, used: None });
        }
    }

    /// Only the first names are left in scope.
    pub fn leave(&mut self, len: usize)
        ensures { self.new ≡ take len self.old }
    {
        self.table.truncate(len);
    }
}
