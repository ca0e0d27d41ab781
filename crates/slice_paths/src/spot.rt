//! A spot on a way: what is known there.
ghost use Rattle.std.specs.Prelude.{◌≡◌, ◌≢◌, ◌<◌, ◌≤◌, ◌+◌, ◌-◌, ◌^◌, ◌==◌, if◌then◌else◌, [], ◌++◌, ◌∷◌, length, map, replicate, pos, IfOk, IfErr, OnOk};
ghost use Rattle.slice_num.specs.Pieces.{piece_at};
ghost use Rattle.slice_num.specs.Rational.{whole};
ghost use Rattle.slice_num.specs.declared.choice.Choice.TheVariants as Choice;
ghost use Rattle.slice_core.specs.Agents.{IsAgent};
ghost use Rattle.slice_core.specs.WellFormed.{AreBound};
ghost use Rattle.slice_linear.specs.Terms.{IsKeySum, IsReplaced, coef_of};
ghost use Rattle.slice_linear.specs.declared.forms.FormFault.TheVariants as FormFault;
ghost use Rattle.slice_atoms.specs.Numbers.{IsNumbering, unknowns, part_of, next_atom};
ghost use Rattle.slice_paths.specs.Places.{first_way};
ghost use Rattle.slice_paths.specs.Spots.{regs_of, way_of, tally_of, IsSplit};
ghost use Rattle.slice_paths.specs.Steps.{IsNotGiven, IsKnown, IsOver, IsValueOf, IsAsked, IsSet, IsBroken, GivenTo, IsJoined, IsPassed, IsNoDifference, CanSplit, AllCanSplit, AllSplit, ConditionsSplit, HalvedTo, CutTo, IsNoCut};

use crate::sums::sum_form;
use slice_atoms::{Atoms, Split};
use slice_core::Lin;
use slice_linear::{Form, FormFault, Key, RowKind};
use slice_num::{Choice, Memory};
use std::alloc::Global;
use std::marker::Model;

/// A form, and what it has to come to.
#[derive(Drop)]
pub(crate) struct Condition {
    pub(crate) kind: RowKind,
    pub(crate) form: Form,
}

/// The piece went to the agent.
#[derive(Clone, Copy, Debug, PartialEq, Eq)]
pub(crate) struct Gift {
    pub(crate) agent: u32,
    pub(crate) piece: u32,
}

/// A spot on a way: the atoms there, the forms of the registers and of the choices that were made, all over these atoms;
/// who was given what, in order; the choices; and how many queries were answered. Contracts see it as `Known`.
#[derive(Drop)]
pub(crate) struct Spot {
    pub(crate) atoms: Atoms,
    pub(crate) regs: Vec<Form>,
    pub(crate) conditions: Vec<Condition>,
    pub(crate) gifts: Vec<Gift>,
    pub(crate) trace: Vec<Choice>,
    pub(crate) queries: u32,
}

impl Model for Spot {
    ghost use Rattle.slice_paths.specs.Spots.{Known};

    ghost Value = { Known };

    ghost view = { λ s. record {
      atoms = s.atoms;
      regs = s.regs.items;
      conditions = s.conditions.items;
      gifts = s.gifts.items;
      trace = s.trace.items;
      queries = s.queries;
    } };
}

impl Spot {
    /// Before anything is done. `Err` comes only for want of memory.
    pub(crate) fn start(alloc: Global, agents: u32) -> Result<Spot, Memory>
        ensures regs { IfOk result (λ s. regs_of s ≡ []) }
        ensures way { IfOk result (λ s. way_of s ≡ first_way agents) }
        ensures known { IfOk result (λ s. IsKnown s) }
        ensures tally { IfOk result (λ s. tally_of s ≡ record { agents = agents; pieces = 1; cuts = 0; regs = 0; queries = 0; gifts = [] }) }
    {
        Ok(Spot {
            atoms: Atoms::new(alloc, agents)?,
            regs: Vec::new(alloc),
            conditions: Vec::new(alloc),
            gifts: Vec::new(alloc),
            trace: Vec::new(alloc),
            queries: 0,
        })
    }

    /// The same once more. `Err` comes only for want of memory.
    pub(crate) fn copy(&self, alloc: Global) -> Result<Spot, Memory>
        ensures { IfOk result (λ s. s ≡ self.now) }
    {
        Ok(Spot {
            atoms: self.atoms.copy(alloc)?,
            regs: copy_forms(alloc, self.regs.as_slice())?,
            conditions: copy_conditions(alloc, self.conditions.as_slice())?,
            gifts: Vec::from_slice(alloc, self.gifts.as_slice())?,
            trace: Vec::from_slice(alloc, self.trace.as_slice())?,
            queries: self.queries,
        })
    }

    /// What the agent values the piece at. `Err` comes only for want of memory.
    pub(crate) fn piece_form(&self, alloc: Global, agent: u32, piece: u32) -> Result<Form, Memory>
        requires there { piece < length self.now.atoms.pieces }
        ensures form { IfOk result (λ f. IsKeySum (unknowns agent (piece_at self.now.atoms.pieces piece)) f) }
        ensures value { IfOk result (λ f. IsKnown self.now → IsAgent self.now.atoms.agents agent → IsNotGiven piece self.now.gifts → IsValueOf agent (piece_at (way_of self.now).pieces piece) self.now f) }
    {
        let keys = self.atoms.unknowns_of(alloc, agent, piece)?;
        Form::of_keys(alloc, keys.as_slice())
    }

    /// What the agent values the owner's share at. `Err` comes only for want of memory.
    pub(crate) fn share_form(&self, alloc: Global, agent: u32, owner: u32) -> Result<Form, Memory>
        requires known { IsKnown self.now }
        requires agent { IsAgent self.now.atoms.agents agent }
        requires owner { IsAgent self.now.atoms.agents owner }
        ensures { IfOk result (λ f. IsValueOf agent (piece_at (way_of self.now).shares (owner - 1)) self.now f) }
    {
        let mut keys = Vec::new(alloc);
        for gift in &self.gifts {
            put_given(&mut keys, alloc, &self.atoms, agent, owner, *gift)?;
        }
        Form::of_keys(alloc, keys.as_slice())
    }

    /// The agent is asked for the piece's value. `Err` comes only for want of memory.
    pub(crate) fn ask(&mut self, alloc: Global, agent: u32, piece: u32) -> Result<(), Memory>
        requires agent { IsAgent self.old.atoms.agents agent }
        requires there { piece < length self.old.atoms.pieces }
        requires held { IsNotGiven piece self.old.gifts }
        requires few { self.old.queries < 512 }
        ensures ok { OnOk result (IsAsked agent piece self.old self.new) }
        ensures tally { OnOk result (tally_of self.new ≡ record (tally_of self.old) { regs = length self.old.regs + 1; queries = self.old.queries + 1 }) }
    {
        let form = self.piece_form(alloc, agent, piece)?;
        self.put_register(form)?;
        self.queries += 1;
        Ok(())
    }

    /// A register is set to a sum. Overflow comes exactly where a number of the sum doesn't fit.
    pub(crate) fn set(&mut self, alloc: Global, sum: &Lin) -> Result<(), FormFault>
        requires bound { AreBound (length self.old.regs) sum.now.terms }
        ensures ok { OnOk result (IsSet sum.now.terms self.old self.new) }
        ensures tally { OnOk result (tally_of self.new ≡ record (tally_of self.old) { regs = length self.old.regs + 1 }) }
        ensures err { IfErr result (λ e. e ≡ FormFault.Overflow → IsBroken sum.now.terms self.old) }
    {
        match sum_form(alloc, self.regs.as_slice(), sum) {
            Err(fault) => Err(fault),
            Ok(form) => match self.put_register(form) {
                Err(Memory) => Err(FormFault::Memory),
                Ok(()) => Ok(()),
            },
        }
    }

    // One more register.
    fn put_register(&mut self, form: Form) -> Result<(), Memory>
        ensures { OnOk result (self.new ≡ record self.old { regs = self.old.regs ++ form ∷ [] }) }
    {
        if self.regs.push(form).is_err() {
            return Err(Memory);
        }
        Ok(())
    }

    /// The piece goes to the agent. `Err` comes only for want of memory.
    pub(crate) fn give(&mut self, agent: u32, piece: u32) -> Result<(), Memory>
        requires there { piece < length self.old.atoms.pieces }
        requires owner { IsAgent self.old.atoms.agents agent }
        requires held { IsNotGiven piece self.old.gifts }
        ensures ok { OnOk result (GivenTo agent piece self.old self.new) }
        ensures tally { OnOk result (tally_of self.new ≡ record (tally_of self.old) { gifts = self.old.gifts ++ record { agent = agent; piece = piece } ∷ [] }) }
    {
        self.put_gift(Gift { agent, piece })
    }

    // One more gift.
    fn put_gift(&mut self, gift: Gift) -> Result<(), Memory>
        ensures { OnOk result (self.new ≡ record self.old { gifts = self.old.gifts ++ gift ∷ [] }) }
    {
        if self.gifts.push(gift).is_err() {
            return Err(Memory);
        }
        Ok(())
    }

    /// Two pieces become one. `Err` comes only for want of memory.
    pub(crate) fn join(&mut self, first: u32, second: u32, piece: u32) -> Result<(), Memory>
        requires differ { first ≢ second }
        requires first { first < length self.old.atoms.pieces }
        requires second { second < length self.old.atoms.pieces }
        requires next { piece ≡ length self.old.atoms.pieces }
        requires first_held { IsNotGiven first self.old.gifts }
        requires second_held { IsNotGiven second self.old.gifts }
        ensures ok { OnOk result (IsJoined first second self.old self.new) }
        ensures tally { OnOk result (tally_of self.new ≡ record (tally_of self.old) { pieces = length self.old.atoms.pieces + 1 }) }
    {
        self.atoms.join(first, second, piece)
    }

    /// The difference of two forms is told by a choice. Overflow comes exactly where a number of it doesn't fit.
    pub(crate) fn pass(
        &mut self,
        alloc: Global,
        kind: RowKind,
        upper: &Form,
        lower: &Form,
        choice: Choice,
    ) -> Result<(), FormFault>
        ensures ok { OnOk result (IsPassed kind upper.now lower.now choice self.old self.new) }
        ensures tally { OnOk result (tally_of self.new ≡ tally_of self.old) }
        ensures err { IfErr result (λ e. e ≡ FormFault.Overflow → IsNoDifference upper.now lower.now self.old) }
    {
        match upper.sub(alloc, lower) {
            Err(fault) => Err(fault),
            Ok(form) => match self.choose(kind, form, choice) {
                Err(Memory) => Err(FormFault::Memory),
                Ok(()) => Ok(()),
            },
        }
    }

    // A choice is made, and its condition holds.
    fn choose(&mut self, kind: RowKind, form: Form, choice: Choice) -> Result<(), Memory>
        ensures { OnOk result (self.new ≡ record self.old { conditions = self.old.conditions ++ record { kind = kind; form = form } ∷ []; trace = self.old.trace ++ choice ∷ [] }) }
    {
        if self.conditions.push(Condition { kind, form }).is_err() {
            return Err(Memory);
        }
        if self.trace.push(choice).is_err() {
            return Err(Memory);
        }
        Ok(())
    }

    /// A cut is answered in that part of the piece: the left piece, of the next number, is worth the amount to the agent.
    /// Overflow comes exactly where a number of what this tells doesn't fit.
    pub(crate) fn answer(
        &mut self,
        alloc: Global,
        agents: u32,
        agent: u32,
        piece: u32,
        amount: &Form,
        part: u32,
    ) -> Result<(), FormFault>
        requires known { IsKnown self.old }
        requires agents { agents ≡ self.old.atoms.agents }
        requires agent { IsAgent self.old.atoms.agents agent }
        requires there { part < length (piece_at self.old.atoms.pieces piece) }
        requires held { IsNotGiven piece self.old.gifts }
        requires over { IsOver self.old amount.now }
        requires few_cuts { length self.old.atoms.olds < 2 ^ 30 }
        requires few_pieces { length self.old.atoms.pieces + 1 < 2 ^ 32 }
        requires few_queries { self.old.queries < 512 }
        ensures ok { OnOk result (CutTo agent piece part amount.now self.old self.new) }
        ensures tally { OnOk result (tally_of self.new ≡ record (tally_of self.old) { pieces = length self.old.atoms.pieces + 2; cuts = length self.old.atoms.olds + 1; queries = self.old.queries + 1 }) }
        ensures err { IfErr result (λ e. e ≡ FormFault.Overflow → IsNoCut agent piece part amount.now self.old) }
    {
        let left = self.atoms.pieces();
        let split = match self.split(alloc, agents, piece, part) {
            Ok(split) => split,
            Err(Memory) => return Err(FormFault::Memory),
        };
        let amount = match replace_form(alloc, agents, amount, split) {
            Ok(amount) => amount,
            Err(Memory) => return Err(FormFault::Memory),
        };
        let own = match self.skip(alloc, agent, left, part) {
            Ok(own) => own,
            Err(Memory) => return Err(FormFault::Memory),
        };
        match self.pass(alloc, RowKind::Zero, &own, &amount, Choice::Go) {
            Ok(()) => {}
            Err(fault) => return Err(fault),
        }
        self.queries += 1;
        Ok(())
    }

    // The form of the left piece; the parts before the answered one are passed.
    fn skip(&mut self, alloc: Global, agent: u32, left: u32, part: u32) -> Result<Form, Memory>
        requires { left < length self.old.atoms.pieces }
        ensures form { IfOk result (λ f. IsKeySum (unknowns agent (piece_at self.old.atoms.pieces left)) f) }
        ensures new { OnOk result (self.new ≡ record self.old { trace = self.old.trace ++ replicate part Choice.No }) }
    {
        let own = self.piece_form(alloc, agent, left)?;
        self.put_passed(part)?;
        Ok(own)
    }

    // So many parts are passed.
    fn put_passed(&mut self, part: u32) -> Result<(), Memory>
        ensures { OnOk result (self.new ≡ record self.old { trace = self.old.trace ++ replicate part Choice.No }) }
    {
        put_no(&mut self.trace, part)
    }

    // The piece is cut at that part: in all forms the two halves take the place of its atom.
    fn split(&mut self, alloc: Global, agents: u32, piece: u32, part: u32) -> Result<Split, Memory>
        requires known { IsKnown self.old }
        requires agents { agents ≡ self.old.atoms.agents }
        requires there { part < length (piece_at self.old.atoms.pieces piece) }
        requires few_cuts { length self.old.atoms.olds < 2 ^ 30 }
        requires few_pieces { length self.old.atoms.pieces + 1 < 2 ^ 32 }
        ensures ok { OnOk result (HalvedTo piece part self.old self.new) }
        ensures split { IfOk result (λ s. s ≡ record { old = part_of self.old.atoms piece part; left = next_atom self.old.atoms; right = next_atom self.old.atoms + 1 }) }
    {
        let left = self.atoms.pieces();
        let split = self.atoms.cut(piece, part, left, left + 1)?;
        self.regs = replace_forms(alloc, agents, self.regs.as_slice(), split)?;
        self.conditions = replace_conditions(alloc, agents, self.conditions.as_slice(), split)?;
        Ok(split)
    }
}

// The unknowns of what a gift brings to the owner, to the agent.
fn put_given(
    keys: &mut Vec<Key>,
    alloc: Global,
    atoms: &Atoms,
    agent: u32,
    owner: u32,
    gift: Gift,
) -> Result<(), Memory>
    requires there { gift.piece < length atoms.now.pieces }
    ensures { OnOk result (keys.new.items ≡ keys.old.items ++ (if gift.agent == owner then unknowns agent (piece_at atoms.now.pieces gift.piece) else [])) }
{
    if gift.agent == owner {
        let more = atoms.unknowns_of(alloc, agent, gift.piece)?;
        keys.extend_from_slice(more.as_slice())?;
    }
    Ok(())
}

// The choices after so many parts were passed.
fn put_no(trace: &mut Vec<Choice>, part: u32) -> Result<(), Memory>
    ensures { OnOk result (trace.new.items ≡ trace.old.items ++ replicate part Choice.No) }
{
    for skipped in 0..part {
        if trace.push(Choice::No).is_err() {
            return Err(Memory);
        }
    }
    Ok(())
}

// The form after an atom was split, to all agents.
fn replace_form(alloc: Global, agents: u32, form: &Form, split: Split) -> Result<Form, Memory>
    requires old { 1 ≤ split.old }
    requires left { 1 ≤ split.left }
    requires right { 1 ≤ split.right }
    requires differ { split.left ≢ split.right }
    requires can { CanSplit agents split.old split.left split.right form.now }
    ensures { IfOk result (λ f. IsSplit split.old split.left split.right form.now f) }
{
    let mut made = form.copy(alloc)?;
    for agent in 0..agents {
        made = replace_one(alloc, agent + 1, &made, split)?;
    }
    Ok(made)
}

// The form after an atom was split, to one agent.
fn replace_one(alloc: Global, agent: u32, form: &Form, split: Split) -> Result<Form, Memory>
    requires differ { split.left ≢ split.right }
    requires no_left { coef_of form.now (record { agent = agent; atom = split.left }) ≡ whole (pos 0) }
    requires no_right { coef_of form.now (record { agent = agent; atom = split.right }) ≡ whole (pos 0) }
    ensures { IfOk result (λ f. IsReplaced (record { agent = agent; atom = split.old }) (record { agent = agent; atom = split.left }) (record { agent = agent; atom = split.right }) form.now f) }
{
    let old = Key {
        agent,
        atom: split.old,
    };
    let left = Key {
        agent,
        atom: split.left,
    };
    let right = Key {
        agent,
        atom: split.right,
    };
    form.replace(alloc, old, left, right)
}

// Forms after an atom was split.
fn replace_forms(
    alloc: Global,
    agents: u32,
    forms: &[Form],
    split: Split,
) -> Result<Vec<Form>, Memory>
    requires old { 1 ≤ split.old }
    requires left { 1 ≤ split.left }
    requires right { 1 ≤ split.right }
    requires differ { split.left ≢ split.right }
    requires can { AllCanSplit agents split.old split.left split.right forms.now }
    ensures { IfOk result (λ v. AllSplit split.old split.left split.right forms.now v.items) }
{
    let mut made = Vec::new(alloc);
    for form in forms {
        let form = replace_form(alloc, agents, form, split)?;
        if made.push(form).is_err() {
            return Err(Memory);
        }
    }
    Ok(made)
}

// Conditions after an atom was split.
fn replace_conditions(
    alloc: Global,
    agents: u32,
    conditions: &[Condition],
    split: Split,
) -> Result<Vec<Condition>, Memory>
    requires old { 1 ≤ split.old }
    requires left { 1 ≤ split.left }
    requires right { 1 ≤ split.right }
    requires differ { split.left ≢ split.right }
    requires can { AllCanSplit agents split.old split.left split.right (map (λ c. c.form) conditions.now) }
    ensures { IfOk result (λ v. ConditionsSplit split.old split.left split.right conditions.now v.items) }
{
    let mut made = Vec::new(alloc);
    for condition in conditions {
        let form = replace_form(alloc, agents, &condition.form, split)?;
        let kind = condition.kind;
        if made.push(Condition { kind, form }).is_err() {
            return Err(Memory);
        }
    }
    Ok(made)
}

// The same forms once more.
fn copy_forms(alloc: Global, forms: &[Form]) -> Result<Vec<Form>, Memory>
    ensures { IfOk result (λ v. v.items ≡ forms.now) }
{
    let mut made = Vec::new(alloc);
    for form in forms {
        let form = form.copy(alloc)?;
        if made.push(form).is_err() {
            return Err(Memory);
        }
    }
    Ok(made)
}

// The same conditions once more.
fn copy_conditions(alloc: Global, conditions: &[Condition]) -> Result<Vec<Condition>, Memory>
    ensures { IfOk result (λ v. v.items ≡ conditions.now) }
{
    let mut made = Vec::new(alloc);
    for condition in conditions {
        let form = condition.form.copy(alloc)?;
        let kind = condition.kind;
        if made.push(Condition { kind, form }).is_err() {
            return Err(Memory);
        }
    }
    Ok(made)
}
