//! What the checker has at a statement, and its steps.
ghost use Rattle.std.specs.Prelude.{◌≡◌, ◌≢◌, ◌++◌, ◌∷◌, [], ◌<◌, Some, None, OnOk, IfOk, length, take, MatchResult};
ghost use Rattle.slice_affine.specs.Scope.{look};
ghost use Rattle.slice_affine.specs.Pass.{earlier};
ghost use Rattle.slice_affine.specs.Faults.{is_before};
ghost use Rattle.slice_affine.specs.Looks.{unbound, is_kind, is_of};
ghost use Rattle.std.specs.Option.{option_map};
ghost use Rattle.slice_affine.specs.Shown.{stands};
ghost use Rattle.slice_affine.specs.Pass.{looked, asked_one, told_first, marked, used, used_one, bound, bound_one, remarked, cleared, tell, inside};
ghost use Rattle.slice_affine.specs.Pass as pass;
ghost use Rattle.slice_affine.specs.ProgramPass.{fresh, fresh_cake};
ghost use Rattle.slice_affine.specs.Answers.{Goes};

use crate::fault::AffineFault;
use crate::names::{Names, Standing};
use crate::trail::Use;
use slice_ast::{Kind, Name};
use slice_num::{Memory, Word};
use std::alloc::Global;
use std::marker::Model;
use std::mem;

/// The names in scope, the uses of the block so far, and of the faults found in a statement the one that is told.
#[derive(Drop)]
pub(crate) struct Checker<'p> {
    alloc: Global,
    count: u64,
    names: Names<'p>,
    trail: Vec<Use>,
    found: Option<AffineFault>,
}

impl<'p> Model for Checker<'p> {
    ghost use Rattle.slice_affine.specs.Pass.{State};

    ghost Value = { State };

    ghost view = { λ c. record { count = c.count; names = c.names; trail = c.trail.items; found = c.found } };
}

// The least place of a use, where it is a piece that was used.
fn first_of(standing: Option<Standing>) -> Option<usize>
    ensures { result ≡ pass.first_of (option_map stands standing) }
{
    match standing {
        Some(standing) => match standing.kind {
            Kind::Piece => standing.used,
            Kind::Agent | Kind::Number => None,
        },
        None => None,
    }
}

// The two are one kind.
pub(crate) fn is_kind(one: Kind, other: Kind) -> bool
    ensures { result ≡ is_kind one other }
{
    match (one, other) {
        (Kind::Agent, Kind::Agent) | (Kind::Piece, Kind::Piece) | (Kind::Number, Kind::Number) =>
            true,
        _ => false,
    }
}

// It is of that kind.
fn is_of(kind: Kind, standing: Option<Standing>) -> bool
    ensures { result ≡ is_of kind (option_map stands standing) }
{
    match standing {
        Some(standing) => is_kind(standing.kind, kind),
        None => false,
    }
}

// Of a fault and the one found before, where there is one, the one that is told. Both come by value, so that the one
// that isn't told is dropped here.
#[tactic(auto, unfolding(crate::specs::Pass::earlier))]
fn earlier(found: Option<AffineFault>, fault: AffineFault) -> AffineFault
    ensures { Some result ≡ earlier found (Some fault) }
{
    match found {
        None => fault,
        Some(found) => {
            if fault.is_before(&found) {
                fault
            } else {
                found
            }
        }
    }
}

// The uses are taken back.
fn take_back(names: &mut Names<'_>, uses: &[Use])
    ensures { names.new ≡ cleared uses.now names.old }
{
    for used in uses {
        names.clear(used.index);
    }
}

impl<'p> Checker<'p> {
    /// Nothing is in scope, and nothing was found.
    pub fn new(alloc: Global, count: u64) -> Checker<'p>
        ensures { result ≡ fresh count }
    {
        Checker {
            alloc,
            count,
            names: Names::new(alloc),
            trail: Vec::new(alloc),
            found: None,
        }
    }

    /// The cake is in scope, and nothing was found.
    pub fn with_cake(alloc: Global, count: u64) -> Result<Checker<'p>, Memory>
        ensures { IfOk result (λ c. c ≡ fresh_cake count) }
    {
        let mut names = Names::new(alloc);
        names.bind(
            b"cake",
            Standing {
                kind: Kind::Piece,
                used: None,
            },
        )?;
        Ok(Checker {
            alloc,
            count,
            names,
            trail: Vec::new(alloc),
            found: None,
        })
    }

    /// Finds a fault.
    #[tactic(auto, unfolding(crate::specs::Pass::noted))]
    pub fn note(&mut self, fault: AffineFault)
        ensures { self.new ≡ looked (fault ∷ []) self.old }
    {
        let found = self.found.take();
        self.found = Some(earlier(found, fault));
    }

    /// The allocator.
    pub fn alloc(&self) -> Global {
        self.alloc
    }

    /// How many names are in scope.
    pub fn len(&self) -> usize
        ensures { result ≡ length self.now.names }
    {
        self.names.len()
    }

    /// How many agents the protocol has.
    pub fn count(&self) -> u64
        ensures { result ≡ self.now.count }
    {
        self.count
    }

    /// The name is looked up as one of this kind.
    #[tactic(auto, unfolding(crate::specs::Pass::noted))]
    pub fn look_up(&mut self, kind: Kind, name: &Name) -> Result<(), Memory>
        ensures { OnOk result (self.new ≡ looked (unbound self.old.names kind name.now) self.old) }
    {
        if !is_of(kind, self.names.look(name.word.bytes())) {
            let word = Word::new(self.alloc, name.word.bytes())?;
            self.note(AffineFault::Unbound {
                name: word,
                at: name.at,
            });
        }
        Ok(())
    }

    // The piece was used first at this place, where it was used.
    #[tactic(auto, unfolding(crate::specs::Pass::noted))]
    fn tell_first(&mut self, first: Option<usize>, name: &Name) -> Result<(), Memory>
        ensures { OnOk result (self.new ≡ looked (told_first first name.now) self.old) }
    {
        if let Some(first) = first {
            let word = Word::new(self.alloc, name.word.bytes())?;
            self.note(AffineFault::UsedTwice {
                name: word,
                at: name.at,
                first,
            });
        }
        Ok(())
    }

    /// The piece of the name is asked.
    pub fn ask(&mut self, name: &Name) -> Result<(), Memory>
        ensures { OnOk result (self.new ≡ asked_one name.now self.old) }
    {
        let first = first_of(self.names.look(name.word.bytes()));
        self.tell_first(first, name)
    }

    /// A use is noted: with its name, and on the trail of this block.
    pub fn mark(&mut self, used: Use) -> Result<(), Memory>
        ensures { OnOk result (self.new ≡ marked used self.old) }
    {
        if self.trail.push(used).is_err() {
            return Err(Memory);
        }
        self.names.mark(used.index, used.place);
        Ok(())
    }

    /// The piece of the name is used.
    pub fn use_up(&mut self, name: &Name) -> Result<(), Memory>
        ensures { OnOk result (self.new ≡ used_one name.now self.old) }
    {
        let Some(standing) = self.names.look(name.word.bytes()) else {
            return Ok(());
        };
        if !is_kind(standing.kind, Kind::Piece) {
            return Ok(());
        }
        let Some(index) = self.names.index_of(name.word.bytes()) else {
            return Ok(());
        };
        self.tell_first(standing.used, name)?;
        self.mark(Use {
            index,
            place: name.at,
        })
    }

    /// The name is bound, unless it is in scope.
    #[tactic(auto, unfolding(crate::specs::Pass::noted))]
    pub fn bind(&mut self, kind: Kind, name: &'p Name) -> Result<(), Memory>
        ensures { OnOk result (self.new ≡ bound_one kind name.now self.old) }
    {
        if self.names.look(name.word.bytes()).is_some() {
            let word = Word::new(self.alloc, name.word.bytes())?;
            self.note(AffineFault::Rebound {
                name: word,
                at: name.at,
            });
            return Ok(());
        }
        self.names
            .bind(name.word.bytes(), Standing { kind, used: None })
    }

    /// The names are bound, as `bind` binds one.
    pub fn bind_all(&mut self, kind: Kind, names: &'p [Name]) -> Result<(), Memory>
        ensures { OnOk result (self.new ≡ bound kind names.now self.old) }
    {
        for name in names {
            self.bind(kind, name)?;
        }
        Ok(())
    }

    /// The pieces of the names are used, in order.
    pub fn use_all(&mut self, names: &[Name]) -> Result<(), Memory>
        ensures { OnOk result (self.new ≡ used names.now self.old) }
    {
        for name in names {
            self.use_up(name)?;
        }
        Ok(())
    }

    /// Uses that a block made are noted, as far as they are of names outside it.
    pub fn remark(&mut self, uses: &[Use]) -> Result<(), Memory>
        ensures { OnOk result (self.new ≡ remarked uses.now self.old) }
    {
        for used in uses {
            if used.index < self.names.len() {
                self.mark(*used)?;
            }
        }
        Ok(())
    }

    /// The end of a statement: the fault that was found, where there is one.
    pub fn tell(&mut self) -> Result<(), AffineFault>
        ensures { Goes (tell self.old) result self.new }
    {
        match self.found.take() {
            Some(fault) => Err(fault),
            None => Ok(()),
        }
    }

    /// A block inside begins: its uses are noted on a trail of their own. The trail so far comes back, for `leave`.
    pub fn enter(&mut self) -> Vec<Use>
        ensures state { self.new ≡ inside self.old }
        ensures trail { result.items ≡ self.old.trail }
    {
        mem::replace(&mut self.trail, Vec::new(self.alloc))
    }

    /// The block inside ends: its uses are taken back, since the other block of an `if` doesn't come after it; of the
    /// names only the first `len` stay in scope. The uses are told, and the trail of the block around comes back.
    pub fn leave(&mut self, len: usize, trail: Vec<Use>) -> Vec<Use>
        ensures uses { result.items ≡ self.old.trail }
        ensures names { self.new ≡ record self.old { names = take len (cleared self.old.trail self.old.names); trail = trail.items } }
    {
        let uses = mem::replace(&mut self.trail, trail);
        take_back(&mut self.names, uses.as_slice());
        self.names.leave(len);
        uses
    }
}
