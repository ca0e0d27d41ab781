//! What names stand for while a program is expanded.
ghost use Rattle.std.specs.Prelude.{◌≡◌, [], ◌∷◌, OnOk, IfOk, IfErr};
ghost use Rattle.slice_expand.specs.Scope.{look, looks, bound, bind, agent_at, agent_of, piece_of, piece_named, AnAgent, APiece, ANumber, Scope};
ghost use Rattle.slice_expand.specs.Stand.{meaning_of, meanings_of, scope_of, link_scope};

use crate::fault::ExpandFault;
use crate::index::{Branch, find, put};
use slice_ast::{AgentRef, Name};
use slice_num::Word;
use std::alloc::Global;
use std::marker::Model;
use std::rc::Rc;

/// What a name stands for: an agent by its number from 1, a piece by its number from 0, or a number by its register.
#[derive(Clone, Copy, Debug, PartialEq, Eq)]
pub enum Meaning {
    Agent(u32),
    Piece(u32),
    Number(u32),
}

impl Meaning {
    /// The agent; 0 where it is none.
    pub fn agent(self) -> u32
        ensures { result ≡ agent_of (meaning_of self) }
    {
        match self {
            Meaning::Agent(agent) => agent,
            _ => 0,
        }
    }

    /// The piece; 0 where it is none.
    pub fn piece(self) -> u32
        ensures { result ≡ piece_of (meaning_of self) }
    {
        match self {
            Meaning::Piece(piece) => piece,
            _ => 0,
        }
    }
}

/// A name that is bound, over those bound before it.
#[derive(Drop)]
pub struct Link<'a> {
    word: &'a Word,
    meaning: Meaning,
    before: Option<Rc<Link<'a>>>,
}

impl<'a> Link<'a> {
    // What a word stands for among the names up to this one.
    fn look(&self, word: &Word) -> Meaning
        ensures { meaning_of result ≡ look (link_scope self.now) word.now }
    {
        if self.word.bytes() == word.bytes() {
            return self.meaning;
        }
        let mut link = &self.before;
        while let Some(here) = link {
            if here.word.bytes() == word.bytes() {
                return here.meaning;
            }
            link = &here.before;
        }
        Meaning::Piece(0)
    }
}

// A name that is bound over others.
fn linked<'a>(
    alloc: Global,
    word: &'a Word,
    meaning: Meaning,
    before: Option<Rc<Link<'a>>>,
) -> Result<Rc<Link<'a>>, ExpandFault>
    ensures link { IfOk result (λ r. link_scope r.value ≡ record { word = word.now; meaning = meaning_of meaning } ∷ scope_of before.entry) }
    ensures fault { IfErr result (λ e. e ≡ ExpandFault.Memory) }
{
    let link = Link {
        word,
        meaning,
        before,
    };
    match Rc::new(alloc, link) {
        Ok(made) => Ok(made),
        Err(_) => Err(ExpandFault::Memory),
    }
}

/// The names that are bound, the latest first, and a tree by which they are found. Copies share what they have in
/// common, so that one takes no time.
pub struct Names<'a> {
    latest: Option<Rc<Link<'a>>>,
    root: Option<Rc<Branch<'a>>>,
}

// A long list goes link by link, with no recursion.
impl<'a> Drop for Names<'a> {
    fn drop(mut self) {
        let Names { latest, root } = self;
        drop(root);
        let mut latest = latest;
        while let Some(link) = latest {
            latest = match Rc::into_inner(link) {
                Some(Link { before, .. }) => before,
                None => None,
            };
        }
    }
}

impl<'a> Model for Names<'a> {
    ghost use Rattle.std.specs.Prelude.{ℕ};
    ghost use Rattle.slice_expand.specs.Scope.{Scope};
    ghost use Rattle.slice_expand.specs.Stand.{scope_of};
    ghost use Rattle.slice_expand.specs.Index.{IsIndexed, index_of};

    ghost Value = { Scope ℕ };

    ghost view = { λ n. scope_of n.latest };

    ghost invariant = { λ n. IsIndexed (index_of n.root) (scope_of n.latest) };
}

impl<'a> Names<'a> {
    /// No names.
    pub fn new() -> Names<'a>
        ensures { result ≡ [] }
    {
        Names {
            latest: None,
            root: None,
        }
    }

    /// The same names once more.
    pub fn copy(&self) -> Result<Names<'a>, ExpandFault>
        ensures { IfOk result (λ n. n ≡ self.now) }
    {
        let latest = self.latest.clone()?;
        let root = self.root.clone()?;
        Ok(Names { latest, root })
    }

    /// A name more.
    pub fn bind(
        &mut self,
        alloc: Global,
        name: &'a Name,
        meaning: Meaning,
    ) -> Result<(), ExpandFault>
        ensures { OnOk result (self.new ≡ bound name.now (meaning_of meaning) self.old) }
    {
        let before = self.latest.clone()?;
        let link = linked(alloc, &name.word, meaning, before)?;
        let latest = link.clone()?;
        let root = put(alloc, &self.root, name.word.bytes(), latest)?;
        self.latest = Some(link);
        self.root = Some(root);
        Ok(())
    }

    /// The names, bound to the meanings in order.
    pub fn bind_all(
        &mut self,
        alloc: Global,
        names: &'a [Name],
        meanings: &[Meaning],
    ) -> Result<(), ExpandFault>
        ensures bound { OnOk result (self.new ≡ bind names.now (meanings_of meanings.now) self.old) }
        ensures fault { IfErr result (λ e. e ≡ ExpandFault.Memory) }
    {
        let count = names.len().min(meanings.len());
        for i in 0..count {
            if self.bind(alloc, &names[i], meanings[i]).is_err() {
                return Err(ExpandFault::Memory);
            }
        }
        Ok(())
    }

    /// What names in a row stand for.
    pub fn look_all(&self, alloc: Global, names: &[Name]) -> Result<Vec<Meaning>, ExpandFault>
        ensures meanings { IfOk result (λ ms. meanings_of ms.items ≡ looks self.now names.now) }
        ensures fault { IfErr result (λ e. e ≡ ExpandFault.Memory) }
    {
        let mut meanings = Vec::new(alloc);
        for name in names {
            let meaning = self.look(&name.word);
            if meanings.push(meaning).is_err() {
                return Err(ExpandFault::Memory);
            }
        }
        Ok(meanings)
    }

    /// What a word stands for.
    pub fn look(&self, word: &Word) -> Meaning
        ensures { meaning_of result ≡ look self.now word.now }
    {
        match find(&self.root, word.bytes()) {
            Some(link) => link.look(word),
            None => Meaning::Piece(0),
        }
    }

    /// The piece of a name.
    pub fn piece(&self, name: &Name) -> u32
        ensures { result ≡ piece_named self.now name.now }
    {
        self.look(&name.word).piece()
    }

    /// The agent that is referred to. A number past u32 takes more memory than there is.
    pub fn agent(&self, agent: &AgentRef) -> Result<u32, ExpandFault>
        ensures value { IfOk result (λ a. a ≡ agent_at self.now agent.now) }
        ensures fault { IfErr result (λ e. e ≡ ExpandFault.Memory) }
    {
        match agent {
            AgentRef::Fixed(number) => {
                let Ok(agent) = u32::try_from(number.value) else {
                    return Err(ExpandFault::Memory);
                };
                Ok(agent)
            }
            AgentRef::Named(name) => Ok(self.look(&name.word).agent()),
        }
    }
}
