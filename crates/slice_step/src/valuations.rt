//! The valuations of all agents.
ghost use Rattle.std.specs.Prelude.{◌≡◌, ◌-◌, ◌<◌, ◌≤◌, ◌^◌, length, map, slice_get, Some, IfOk};
ghost use Rattle.std.specs.List.{All};
ghost use Rattle.slice_num.specs.Valuation.{cake_length};
ghost use Rattle.slice_step.specs.ValuationShape.{IsSmallList};
ghost use Rattle.slice_step.specs.UnitSteps.{unit_ends, unit_steps};

use crate::valuation::Valuation;
use slice_num::Memory;
use std::alloc::Global;
use std::marker::Model;

/// The valuations of one or more agents, over one cake. Contracts see it as the list of the valuations.
#[derive(Drop)]
pub struct Valuations {
    items: Vec<Valuation>,
}

impl Model for Valuations {
    ghost use Rattle.std.specs.Prelude.{List};
    ghost use Rattle.slice_num.specs.Valuation.{Valuation as Steps};
    ghost use Rattle.slice_step.specs.ValuationShape.{IsSmallList};

    ghost Value = { List Steps };

    ghost view = { λ vs. vs.items.items };

    ghost invariant = { λ vs. IsSmallList vs.items.items };
}

impl Valuations {
    /// The valuations of the agents, in their order.
    pub fn new(items: Vec<Valuation>) -> Valuations
        requires { IsSmallList items.items }
        ensures { result ≡ items.items }
    {
        Valuations { items }
    }

    /// The valuations with steps of width 1 of these heights, a list for each agent. `Err` comes only for want of memory.
    pub fn from_unit_steps(alloc: Global, heights: Vec<Vec<u64>>) -> Result<Valuations, Memory>
        requires { IsSmallList (map (λ hs. unit_steps hs.items) heights.items) }
        ensures { IfOk result (λ vs. vs ≡ map (λ hs. unit_steps hs.items) heights.items) }
    {
        let mut items = Vec::new(alloc);
        for list in heights {
            let ends = unit_ends(alloc, list.len())?;
            if items.push(Valuation::new(ends, list)).is_err() {
                return Err(Memory);
            }
        }
        Ok(Valuations::new(items))
    }

    /// How many agents there are.
    pub fn len(&self) -> usize
        ensures count { result ≡ length self.now }
        ensures some { 0 < result }
        ensures bounds { IsSmallList self.now }
    {
        self.items.len()
    }

    /// The valuation of an agent, where agents are counted from 1.
    pub fn get(&self, agent: u32) -> &Valuation
        requires some { 0 < agent }
        requires known { agent ≤ length self.now }
        ensures { slice_get self.now (agent - 1) ≡ Some result.now }
    {
        &self.items[agent as usize - 1]
    }

    /// The length of the cake, in points.
    pub fn length(&self) -> u64
        ensures of_each { All (λ v. result ≡ cake_length v) self.now }
        ensures bounds { IsSmallList self.now }
    {
        let first = &self.items[0];
        first.length()
    }
}

// Where so many steps of width 1 end.
fn unit_ends(alloc: Global, count: usize) -> Result<Vec<u64>, Memory>
    requires { count < 2 ^ 63 }
    ensures { IfOk result (λ v. v.items ≡ unit_ends 0 count) }
{
    let mut ends = Vec::new(alloc);
    for i in 0..count {
        if ends.push(i as u64 + 1).is_err() {
            return Err(Memory);
        }
    }
    Ok(ends)
}
