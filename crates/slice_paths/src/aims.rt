//! The goals at a spot.
ghost use Rattle.std.specs.Prelude.{◌≡◌, ◌<◌, ◌≤◌, ◌++◌, ◌∷◌, [], IfOk, IfErr};
ghost use Rattle.slice_num.specs.Rational.{whole};
ghost use Rattle.slice_num.specs.declared.choice.Choice.TheVariants as Choice;
ghost use Rattle.slice_core.specs.Nodes.{tree_of};
ghost use Rattle.slice_core.specs.Tree.{Tree};
ghost use Rattle.slice_linear.specs.declared.forms.FormFault.TheVariants as FormFault;
ghost use Rattle.slice_atoms.specs.Forms.{Form as FormOf};
ghost use Rattle.slice_atoms.specs.Numbers.{cake_of};
ghost use Rattle.slice_paths.specs.Events.{low_goal, high_goal, envy_goal};
ghost use Rattle.slice_paths.specs.Same.{SameAt};
ghost use Rattle.slice_paths.specs.Spots.{form_of, way_of};
ghost use Rattle.slice_paths.specs.Steps.{IsKnown, IsOver};
ghost use Rattle.slice_paths.specs.Walking.{CutReady, PairsReady, RowsTell, RowsFail, GoalComes, GoalFails, fault_of};

use crate::frames::CutHere;
use crate::goal::{Goal, GoalFault, GoalKind};
use crate::rows::rows;
use crate::spot::Spot;
use slice_linear::{Form, FormFault, Row};
use slice_num::{Choice, Frac, Memory};
use std::alloc::Global;

/// So many goals may be given.
pub(crate) const LIMIT: u64 = 1_000_000;

/// The fault of a form as one of a goal, after so many goals.
pub(crate) fn goal_fault(fault: FormFault, given: u64) -> GoalFault
    ensures { result ≡ fault_of given fault }
{
    match fault {
        FormFault::Overflow => GoalFault::Overflow { goal: given },
        FormFault::Memory => GoalFault::Memory,
    }
}

/// The goal that a cut is stuck since its amount is below 0.
pub(crate) fn low(
    alloc: Global,
    agents: u32,
    given: u64,
    amount: &Form,
    spot: &Spot,
) -> Result<Goal, GoalFault>
    requires known { IsKnown spot.now }
    requires agents { agents ≡ spot.now.atoms.agents }
    requires over { IsOver spot.now amount.now }
    ensures ok { IfOk result (λ g. GoalComes given (low_goal agents (form_of spot.now.atoms amount.now) (way_of spot.now)) g) }
    ensures few { IfOk result (λ _. given < 1000000) }
    ensures err { IfErr result (λ e. GoalFails given (low_goal agents (form_of spot.now.atoms amount.now) (way_of spot.now)) e) }
{
    let none = match Form::whole(alloc, Frac::whole(0)) {
        Err(Memory) => return Err(GoalFault::Memory),
        Ok(none) => none,
    };
    let rows = match goal_rows(alloc, agents, given, &none, amount, spot) {
        Err(fault) => return Err(fault),
        Ok(rows) => rows,
    };
    stuck(alloc, given, GoalKind::Low, Choice::Low, rows, spot)
}

/// The goal that a cut is stuck since its amount is above what the piece is worth to the agent.
pub(crate) fn high(
    alloc: Global,
    agents: u32,
    given: u64,
    cut: &CutHere<'_>,
    spot: &Spot,
) -> Result<Goal, GoalFault>
    requires { (next : Tree) × CutReady agents cut.now.agent cut.now.piece cut.now.amount next spot.now }
    ensures ok { IfOk result (λ g. GoalComes given (high_goal agents cut.now.agent cut.now.piece (form_of spot.now.atoms cut.now.amount) (way_of spot.now)) g) }
    ensures few { IfOk result (λ _. given < 1000000) }
    ensures err { IfErr result (λ e. GoalFails given (high_goal agents cut.now.agent cut.now.piece (form_of spot.now.atoms cut.now.amount) (way_of spot.now)) e) }
{
    let held = match spot.piece_form(alloc, cut.agent, cut.piece) {
        Err(Memory) => return Err(GoalFault::Memory),
        Ok(held) => held,
    };
    let rows = match goal_rows(alloc, agents, given, &cut.amount, &held, spot) {
        Err(fault) => return Err(fault),
        Ok(rows) => rows,
    };
    stuck(alloc, given, GoalKind::High, Choice::High, rows, spot)
}

/// The goal that agent `a` values the share of agent `b` above its own.
pub(crate) fn envy(
    alloc: Global,
    agents: u32,
    given: u64,
    a: u32,
    b: u32,
    spot: &Spot,
) -> Result<Goal, GoalFault>
    requires ready { PairsReady agents a b spot.now }
    requires a { a ≤ agents }
    requires b { b ≤ agents }
    ensures ok { IfOk result (λ g. GoalComes given (envy_goal agents (way_of spot.now) (a, b)) g) }
    ensures few { IfOk result (λ _. given < 1000000) }
    ensures err { IfErr result (λ e. GoalFails given (envy_goal agents (way_of spot.now) (a, b)) e) }
{
    let other = match spot.share_form(alloc, a, b) {
        Err(Memory) => return Err(GoalFault::Memory),
        Ok(other) => other,
    };
    let own = match spot.share_form(alloc, a, a) {
        Err(Memory) => return Err(GoalFault::Memory),
        Ok(own) => own,
    };
    let rows = match goal_rows(alloc, agents, given, &other, &own, spot) {
        Err(fault) => return Err(fault),
        Ok(rows) => rows,
    };
    at_end(alloc, given, GoalKind::Envy { a, b }, rows, spot)
}

// The goal with these rows at a spot.
fn at_end(
    alloc: Global,
    given: u64,
    kind: GoalKind,
    rows: Vec<Row>,
    spot: &Spot,
) -> Result<Goal, GoalFault>
    ensures ok { IfOk result (λ g. g ≡ record { number = given; trace = spot.now.trace; kind = kind; query = spot.now.queries; rows = rows.items }) }
    ensures err { IfErr result (λ e. e ≡ GoalFault.Memory) }
{
    let Ok(trace) = Vec::from_slice(alloc, spot.trace.as_slice()) else {
        return Err(GoalFault::Memory);
    };
    Ok(Goal {
        number: given,
        trace,
        kind,
        query: spot.queries,
        rows,
    })
}

// The goal with these rows at a spot, after one choice more.
fn stuck(
    alloc: Global,
    given: u64,
    kind: GoalKind,
    last: Choice,
    rows: Vec<Row>,
    spot: &Spot,
) -> Result<Goal, GoalFault>
    ensures ok { IfOk result (λ g. g ≡ record { number = given; trace = spot.now.trace ++ last ∷ []; kind = kind; query = spot.now.queries; rows = rows.items }) }
    ensures err { IfErr result (λ e. e ≡ GoalFault.Memory) }
{
    let Ok(mut trace) = Vec::from_slice(alloc, spot.trace.as_slice()) else {
        return Err(GoalFault::Memory);
    };
    if trace.push(last).is_err() {
        return Err(GoalFault::Memory);
    }
    Ok(Goal {
        number: given,
        trace,
        kind,
        query: spot.queries,
        rows,
    })
}

// The rows of a goal at a spot, whose own row says that the difference of these forms is above 0. The limit comes before
// its rows and the difference.
fn goal_rows(
    alloc: Global,
    agents: u32,
    given: u64,
    upper: &Form,
    lower: &Form,
    spot: &Spot,
) -> Result<Vec<Row>, GoalFault>
    requires known { IsKnown spot.now }
    requires agents { agents ≡ spot.now.atoms.agents }
    requires over { IsOver spot.now upper.now }
    ensures ok { IfOk result (λ v. (f g : FormOf) → SameAt (cake_of spot.now.atoms.olds) (form_of spot.now.atoms upper.now) f → SameAt (cake_of spot.now.atoms.olds) (form_of spot.now.atoms lower.now) g → RowsTell agents given f g spot.now v.items) }
    ensures few { IfOk result (λ _. given < 1000000) }
    ensures err { IfErr result (λ e. (f g : FormOf) → SameAt (cake_of spot.now.atoms.olds) (form_of spot.now.atoms upper.now) f → SameAt (cake_of spot.now.atoms.olds) (form_of spot.now.atoms lower.now) g → RowsFail agents given f g spot.now e) }
{
    if given >= LIMIT {
        return Err(GoalFault::GoalLimit);
    }
    let own = match upper.sub(alloc, lower) {
        Err(fault) => return Err(goal_fault(fault, given)),
        Ok(own) => own,
    };
    match rows(alloc, agents, spot, &own) {
        Err(fault) => Err(goal_fault(fault, given)),
        Ok(rows) => Ok(rows),
    }
}
