//! The steps of a valuation, and the numbers that the queries make of one.
ghost use Rattle.std.specs.Prelude.{◌≡◌, ◌<◌, ◌^◌, length, IfSome, ◌&&◌};
ghost use Rattle.slice_num.specs.Fitting.{fitting_of, below, at_most};
ghost use Rattle.slice_num.specs.Valuation.{last_end, total_value};
ghost use Rattle.slice_step.specs.ValuationShape.{steps, IsSmallValuation};
ghost use Rattle.slice_step.specs.Arithmetic.{place_in, height_value, reaches, reached_in, point_in};

use slice_num::{Frac, Interval, NoFit};
use std::cmp::Ordering;

// A step: what the steps before it are worth, where it begins, its height.
#[derive(Clone, Copy, Drop)]
pub(crate) struct Place {
    pub base: u128,
    pub start: u64,
    pub height: u64,
}

// Where the last step ends.
pub(crate) fn last_of(ends: &[u64]) -> u64
    requires { 0 < length ends.now }
    ensures { result ≡ last_end 0 ends.now }
{
    ends[ends.len() - 1]
}

// Whether the first fraction is below the second.
pub(crate) fn is_below(a: &Frac, b: &Frac) -> bool
    ensures { result ≡ below a.now b.now }
{
    a.compare(b) == Ordering::Less
}

// Whether the point lies in the stretch, or at one of its ends.
pub(crate) fn is_within(y: &Frac, i: &Interval) -> bool
    ensures { result ≡ (at_most i.now.from y.now && at_most y.now i.now.to) }
{
    !is_below(y, &i.from) && !is_below(&i.to, y)
}

// The sum over all steps of height times length.
pub(crate) fn sum_of_steps(ends: &[u64], heights: &[u64]) -> u128
    requires small { IsSmallValuation (steps ends.now heights.now) }
    ensures value { result ≡ total_value (steps ends.now heights.now) }
    ensures fits { result < 2 ^ 127 }
{
    let mut sum: u128 = 0;
    let mut start: u64 = 0;
    for i in 0..ends.len() {
        let end = ends[i];
        sum = sum + (heights[i] as u128) * ((end - start) as u128);
        start = end;
    }
    sum
}

// The step that a point lies in: the first whose end is at least that.
pub(crate) fn place_of(ends: &[u64], heights: &[u64], p: &Frac) -> Place
    requires small { IsSmallValuation (steps ends.now heights.now) }
    ensures same { result ≡ place_in (steps ends.now heights.now) p.now }
    ensures fits { result.base < 2 ^ 127 }
{
    let mut base: u128 = 0;
    let mut start: u64 = 0;
    for i in 0..ends.len() {
        let end = ends[i];
        let height = heights[i];
        if !is_below(&Frac::whole(end as u128), p) {
            return Place {
                base,
                start,
                height,
            };
        }
        base = base + (height as u128) * ((end - start) as u128);
        start = end;
    }
    Place {
        base,
        start,
        height: 0,
    }
}

// The first step in which the value from 0 comes up to the target.
pub(crate) fn reached(ends: &[u64], heights: &[u64], target: &Frac) -> Option<Place>
    requires small { IsSmallValuation (steps ends.now heights.now) }
    ensures same { result ≡ reached_in (steps ends.now heights.now) target.now }
    ensures fits { IfSome result (λ place. place.base < 2 ^ 127) }
    ensures rises { IfSome result (λ place. 0 < place.height) }
{
    let mut base: u128 = 0;
    let mut start: u64 = 0;
    for i in 0..ends.len() {
        let end = ends[i];
        let height = heights[i];
        let top = base + (height as u128) * ((end - start) as u128);
        if is_reached(base, top, target) {
            return Some(Place {
                base,
                start,
                height,
            });
        }
        base = top;
        start = end;
    }
    None
}

// The value of [0, p), for a point of that step.
pub(crate) fn height_at(place: Place, p: &Frac) -> Result<Frac, NoFit>
    requires fits { place.base < 2 ^ 127 }
    ensures { fitting_of result ≡ height_value place p.now }
{
    let Ok(wide) = p.sub(&Frac::whole(place.start as u128)) else {
        return Err(NoFit);
    };
    let Ok(more) = Frac::whole(place.height as u128).mul(&wide) else {
        return Err(NoFit);
    };
    Frac::whole(place.base).add(&more)
}

// The target lies above the first value, and not above the second.
fn is_reached(base: u128, top: u128, target: &Frac) -> bool
    requires base { base < 2 ^ 127 }
    requires top { top < 2 ^ 127 }
    ensures { result ≡ reaches base top target.now }
{
    is_below(&Frac::whole(base), target) && !is_below(&Frac::whole(top), target)
}

// The point of a step at which the value from 0 is the target.
pub(crate) fn point_of(place: Place, target: &Frac) -> Result<Frac, NoFit>
    requires fits { place.base < 2 ^ 127 }
    requires rises { 0 < place.height }
    ensures { fitting_of result ≡ point_in place target.now }
{
    let Ok(more) = target.sub(&Frac::whole(place.base)) else {
        return Err(NoFit);
    };
    let Ok(wide) = more.div(&Frac::whole(place.height as u128)) else {
        return Err(NoFit);
    };
    Frac::whole(place.start as u128).add(&wide)
}
