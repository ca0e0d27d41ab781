//! The rows of a goal.
ghost use Rattle.std.specs.Prelude.{◌≡◌, ◌≤◌, true, false, [], ◌∷◌, ◌++◌, map, IfOk, IfErr, OnOk};
ghost use Rattle.slice_linear.specs.declared.forms.FormFault.TheVariants as FormFault;
ghost use Rattle.slice_linear.specs.declared.row.RowKind.TheVariants.{Above};
ghost use Rattle.slice_atoms.specs.Numbers.{IsNumbering, cake_of, all_keys, unknowns};
ghost use Rattle.slice_paths.specs.Events.{row_fits, rows_fit};
ghost use Rattle.slice_paths.specs.Fronts.{rows_on};
ghost use Rattle.slice_paths.specs.Goals.{row_of, rows_of};
ghost use Rattle.slice_paths.specs.Places.{whole_condition, first_conditions};
ghost use Rattle.slice_paths.specs.RowsMade.{row_at, row_fits_at, condition_row, condition_rows_fit};
ghost use Rattle.slice_paths.specs.Same.{SameAt};
ghost use Rattle.slice_paths.specs.Spots.{form_of, way_of};

use crate::spot::{Condition, Spot};
use slice_atoms::Atoms;
use slice_linear::{Form, FormFault, Key, Row, RowKind};
use slice_num::{Frac, Memory};
use std::alloc::Global;

/// The rows of a spot, over its atoms, and last the one that says that this form is above 0. Overflow comes exactly where a
/// number of a row doesn't fit.
pub(crate) fn rows(
    alloc: Global,
    agents: u32,
    spot: &Spot,
    own: &Form,
) -> Result<Vec<Row>, FormFault>
    requires numbering { IsNumbering spot.now.atoms }
    requires agents { agents ≡ spot.now.atoms.agents }
    ensures ok { IfOk result (λ v. v.items ≡ rows_of agents (way_of spot.now) (form_of spot.now.atoms own.now)) }
    ensures fit { IfOk result (λ v. rows_fit agents (way_of spot.now).cake ((way_of spot.now).conditions ++ record { kind = Above; form = form_of spot.now.atoms own.now } ∷ []) ≡ true) }
    ensures err { IfErr result (λ e. e ≡ FormFault.Overflow → rows_fit agents (way_of spot.now).cake ((way_of spot.now).conditions ++ record { kind = Above; form = form_of spot.now.atoms own.now } ∷ []) ≡ false) }
{
    let order = match spot.atoms.keys(alloc) {
        Ok(order) => order,
        Err(Memory) => return Err(FormFault::Memory),
    };
    let mut rows = Vec::new(alloc);
    match put_first(&mut rows, alloc, &spot.atoms, agents, order.as_slice()) {
        Ok(()) => {}
        Err(fault) => return Err(fault),
    }
    match put_conditions(
        &mut rows,
        alloc,
        spot.conditions.as_slice(),
        order.as_slice(),
    ) {
        Ok(()) => {}
        Err(fault) => return Err(fault),
    }
    match put_row(&mut rows, alloc, RowKind::Above, own, order.as_slice()) {
        Ok(()) => Ok(rows),
        Err(fault) => Err(fault),
    }
}

/// The rows of a spot's way, over its atoms, without that of a goal. It is refused for want of memory, and where a number of
/// a row doesn't fit.
pub(crate) fn way_rows(alloc: Global, agents: u32, spot: &Spot) -> Result<Vec<Row>, FormFault>
    requires numbering { IsNumbering spot.now.atoms }
    requires agents { agents ≡ spot.now.atoms.agents }
    ensures { IfOk result (λ v. v.items ≡ rows_on agents (way_of spot.now)) }
{
    let order = match spot.atoms.keys(alloc) {
        Ok(order) => order,
        Err(Memory) => return Err(FormFault::Memory),
    };
    let mut rows = Vec::new(alloc);
    match put_first(&mut rows, alloc, &spot.atoms, agents, order.as_slice()) {
        Ok(()) => {}
        Err(fault) => return Err(fault),
    }
    match put_conditions(
        &mut rows,
        alloc,
        spot.conditions.as_slice(),
        order.as_slice(),
    ) {
        Ok(()) => Ok(rows),
        Err(fault) => Err(fault),
    }
}

// The rows that hold on every way: the whole is above 0, and each agent's values make it up.
fn put_first(
    rows: &mut Vec<Row>,
    alloc: Global,
    atoms: &Atoms,
    agents: u32,
    order: &[Key],
) -> Result<(), FormFault>
    requires numbering { IsNumbering atoms.now }
    requires order { order.now ≡ all_keys atoms.now.agents atoms.now.order }
    ensures ok { OnOk result (rows.new.items ≡ rows.old.items ++ (map (row_of atoms.now.agents (cake_of atoms.now.olds)) (first_conditions agents))) }
    ensures fit { OnOk result (rows_fit atoms.now.agents (cake_of atoms.now.olds) (first_conditions agents) ≡ true) }
    ensures err { IfErr result (λ e. e ≡ FormFault.Overflow → rows_fit atoms.now.agents (cake_of atoms.now.olds) (first_conditions agents) ≡ false) }
{
    if agents > 0 {
        match put_first(rows, alloc, atoms, agents - 1, order) {
            Ok(()) => put_sum(rows, alloc, atoms, agents, order),
            Err(fault) => Err(fault),
        }
    } else {
        put_whole(rows, alloc, atoms, order)
    }
}

// The whole is above 0.
fn put_whole(
    rows: &mut Vec<Row>,
    alloc: Global,
    atoms: &Atoms,
    order: &[Key],
) -> Result<(), FormFault>
    requires numbering { IsNumbering atoms.now }
    requires order { order.now ≡ all_keys atoms.now.agents atoms.now.order }
    ensures ok { OnOk result (rows.new.items ≡ rows.old.items ++ (map (row_of atoms.now.agents (cake_of atoms.now.olds)) (first_conditions 0))) }
    ensures fit { OnOk result (rows_fit atoms.now.agents (cake_of atoms.now.olds) (first_conditions 0) ≡ true) }
    ensures err { IfErr result (λ e. e ≡ FormFault.Overflow → rows_fit atoms.now.agents (cake_of atoms.now.olds) (first_conditions 0) ≡ false) }
{
    // The atoms tell the clauses what the order is; the row itself needs none.
    let _ = atoms;
    match Form::whole(alloc, Frac::whole(1)) {
        Ok(whole) => put_row(rows, alloc, RowKind::Above, &whole, order),
        Err(Memory) => Err(FormFault::Memory),
    }
}

// The agent's values of all atoms make up the whole.
fn put_sum(
    rows: &mut Vec<Row>,
    alloc: Global,
    atoms: &Atoms,
    agent: u32,
    order: &[Key],
) -> Result<(), FormFault>
    requires numbering { IsNumbering atoms.now }
    requires order { order.now ≡ all_keys atoms.now.agents atoms.now.order }
    requires first { 1 ≤ agent }
    ensures ok { OnOk result (rows.new.items ≡ rows.old.items ++ row_of atoms.now.agents (cake_of atoms.now.olds) (whole_condition agent) ∷ []) }
    ensures fit { OnOk result (row_fits atoms.now.agents (cake_of atoms.now.olds) (whole_condition agent) ≡ true) }
    ensures err { IfErr result (λ e. e ≡ FormFault.Overflow → row_fits atoms.now.agents (cake_of atoms.now.olds) (whole_condition agent) ≡ false) }
{
    match less_whole(alloc, atoms, agent) {
        Ok(form) => put_row(rows, alloc, RowKind::Zero, &form, order),
        Err(fault) => Err(fault),
    }
}

// What the agent values all atoms at, less the whole. Its numbers always fit.
fn less_whole(alloc: Global, atoms: &Atoms, agent: u32) -> Result<Form, FormFault>
    requires numbering { IsNumbering atoms.now }
    requires first { 1 ≤ agent }
    ensures ok { IfOk result (λ f. SameAt (cake_of atoms.now.olds) (form_of atoms.now f) (whole_condition agent).form) }
    ensures err { IfErr result (λ e. e ≡ FormFault.Memory) }
{
    let keys = agent_keys(alloc, agent, atoms.order())?;
    let all = Form::of_keys(alloc, keys.as_slice())?;
    let whole = Form::whole(alloc, Frac::whole(1))?;
    all.sub(alloc, &whole)
}

// The unknowns of these atoms, to the agent.
fn agent_keys(alloc: Global, agent: u32, atoms: &[u32]) -> Result<Vec<Key>, Memory>
    ensures { IfOk result (λ v. v.items ≡ unknowns agent atoms.now) }
{
    let mut keys = Vec::new(alloc);
    for atom in atoms {
        let key = Key { agent, atom: *atom };
        if keys.push(key).is_err() {
            return Err(Memory);
        }
    }
    Ok(keys)
}

// The rows of conditions, one after another.
fn put_conditions(
    rows: &mut Vec<Row>,
    alloc: Global,
    conditions: &[Condition],
    order: &[Key],
) -> Result<(), FormFault>
    ensures ok { OnOk result (rows.new.items ≡ rows.old.items ++ (map (condition_row order.now) conditions.now)) }
    ensures fit { OnOk result (condition_rows_fit order.now conditions.now ≡ true) }
    ensures err { IfErr result (λ e. e ≡ FormFault.Overflow → condition_rows_fit order.now conditions.now ≡ false) }
{
    match conditions {
        [] => Ok(()),
        [first, rest @ ..] => match put_row(rows, alloc, first.kind, &first.form, order) {
            Err(fault) => Err(fault),
            Ok(()) => put_conditions(rows, alloc, rest, order),
        },
    }
}

// The row of a form.
fn put_row(
    rows: &mut Vec<Row>,
    alloc: Global,
    kind: RowKind,
    form: &Form,
    order: &[Key],
) -> Result<(), FormFault>
    ensures ok { OnOk result (rows.new.items ≡ rows.old.items ++ row_at order.now kind form.now ∷ []) }
    ensures fit { OnOk result (row_fits_at order.now form.now ≡ true) }
    ensures err { IfErr result (λ e. e ≡ FormFault.Overflow → row_fits_at order.now form.now ≡ false) }
{
    match form.to_row(alloc, kind, order) {
        Err(fault) => Err(fault),
        Ok(row) => match rows.push(row) {
            Err(_) => Err(FormFault::Memory),
            Ok(()) => Ok(()),
        },
    }
}
