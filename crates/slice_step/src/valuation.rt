//! Valuations of the cake by steps, and the queries on them, as Robertson and Webb define them.
ghost use Rattle.std.specs.Prelude.{◌≡◌, ℕ, ◌<◌, ◌^◌, length, List, [], ◌∷◌, ◌++◌, pos, IfOk, IsTrue};
ghost use Rattle.std.specs.List.{All};
ghost use Rattle.slice_num.specs.Rational.{Rational};
ghost use Rattle.slice_num.specs.Fitting.{fitting_of};
ghost use Rattle.slice_num.specs.Valuation.{cake_length, total_value, value, share_value};
ghost use Rattle.slice_num.specs.ValueLaws.{stretch};
ghost use Rattle.slice_step.specs.ValuationShape.{steps, IsSmallValuation};
ghost use Rattle.slice_step.specs.Arithmetic.{value_up_to, value_in, values_from, piece_value_in, share_in, least_point_in, least_answer_in, is_right_in};
ghost use Rattle.slice_step.specs.Exact.{InOrder, HasAmount, IsLeastPoint, CanCut, IsLeastAnswer, LiesIn};

use crate::place::{
    height_at, is_below, is_within, last_of, place_of, point_of, reached, sum_of_steps,
};
use slice_num::{CutAnswer, Frac, Interval, NoFit};
use std::marker::Model;

/// An agent's valuation of the cake by 1 to 1,000 steps, the first of which begins at 0: where each ends, in whole
/// points, and its height, the value per unit of length. The ends rise strictly, up to at most 1,000,000. The heights
/// are at most 10^18, and one of them is above 0. Contracts see it as its ends and heights.
#[derive(Drop)]
pub struct Valuation {
    ends: Vec<u64>,
    heights: Vec<u64>,
}

impl Model for Valuation {
    ghost use Rattle.slice_num.specs.Valuation.{Valuation as Steps};
    ghost use Rattle.slice_step.specs.ValuationShape.{steps, IsSmallValuation};

    ghost Value = { Steps };

    ghost view = { λ v. steps v.ends.items v.heights.items };

    ghost invariant = { λ v. IsSmallValuation (steps v.ends.items v.heights.items) };
}

// A method that reads a field knows what is true of every valuation: `let _ = &self.ends;` is there for that alone.
impl Valuation {
    /// The valuation of these steps: where each ends, and its height.
    pub fn new(ends: Vec<u64>, heights: Vec<u64>) -> Valuation
        requires { IsSmallValuation (steps ends.items heights.items) }
        ensures { result ≡ steps ends.items heights.items }
    {
        Valuation { ends, heights }
    }

    /// Where each step ends, in points.
    pub fn ends(&self) -> &[u64]
        ensures items { result.now ≡ self.now.ends }
        ensures bounds { IsSmallValuation self.now }
    {
        &self.ends
    }

    /// The height of each step, as value per unit of length.
    pub fn heights(&self) -> &[u64]
        ensures { result.now ≡ self.now.heights }
    {
        &self.heights
    }

    // What the whole cake is worth.
    fn whole_value(&self) -> u128
        ensures value { result ≡ total_value self.now }
        ensures fits { result < 2 ^ 127 }
        ensures some { 0 < result }
    {
        sum_of_steps(&self.ends, &self.heights)
    }

    /// What the whole cake is worth: the sum over all steps of height times length.
    pub fn total(&self) -> i128
        ensures value { result ≡ pos (total_value self.now) }
        ensures bounds { IsSmallValuation self.now }
    {
        let _ = &self.ends;
        self.whole_value() as i128
    }

    // The value of [0, p).
    fn value_up_to(&self, p: &Frac) -> Result<Frac, NoFit>
        ensures { fitting_of result ≡ value_up_to self.now p.now }
    {
        height_at(place_of(&self.ends, &self.heights, p), p)
    }

    /// The value of the stretch `[x, y)`, not divided by the total. `NoFit` comes exactly where a number on the way
    /// doesn't fit: the values up to y and up to x, each as difference, product and sum, then their difference.
    pub fn value(&self, x: &Frac, y: &Frac) -> Result<Frac, NoFit>
        ensures fitting { fitting_of result ≡ value_in self.now (stretch x.now y.now) }
        ensures exact { IfOk result (λ r.
            InOrder (stretch x.now y.now) → r ≡ value self.now (stretch x.now y.now)) }
    {
        let _ = &self.ends;
        let upper = self.value_up_to(y)?;
        let lower = self.value_up_to(x)?;
        upper.sub(&lower)
    }

    // The values of the stretches added to a sum, one after another.
    fn values_after(&self, sum: &Frac, piece: &[Interval]) -> Result<Frac, NoFit>
        ensures { fitting_of result ≡ values_from self.now sum.now piece.now }
    {
        let mut sum = *sum;
        for i in 0..piece.len() {
            let stretch = piece[i];
            let more = self.value(&stretch.from, &stretch.to)?;
            sum = sum.add(&more)?;
        }
        Ok(sum)
    }

    // The sum of the values of the stretches, from 0 in their order.
    fn piece_value(&self, piece: &[Interval]) -> Result<Frac, NoFit>
        ensures { fitting_of result ≡ piece_value_in self.now piece.now }
    {
        self.values_after(&Frac::whole(0), piece)
    }

    // The same of a piece and one stretch more.
    fn value_with(&self, piece: &[Interval], last: &Interval) -> Result<Frac, NoFit>
        ensures { fitting_of result ≡ piece_value_in self.now (piece.now ++ last.now ∷ []) }
    {
        let sum = self.piece_value(piece)?;
        self.values_after(&sum, &[*last])
    }

    /// The share-value of a piece, as a fraction of 1: what it is worth by what the whole cake is worth. `NoFit` comes
    /// exactly where a number on the way doesn't fit: the sum from 0 over the stretches, then the quotient.
    pub fn share(&self, piece: &[Interval]) -> Result<Frac, NoFit>
        ensures fitting { fitting_of result ≡ share_in self.now piece.now }
        ensures exact { IfOk result (λ r. All InOrder piece.now → r ≡ share_value self.now piece.now) }
    {
        let _ = &self.ends;
        let value = self.piece_value(piece)?;
        value.div(&Frac::whole(self.whole_value()))
    }

    /// The share-value of a piece and one stretch more, with the numbers of `share` in that order.
    pub fn share_with(&self, piece: &[Interval], last: &Interval) -> Result<Frac, NoFit>
        ensures { fitting_of result ≡ share_in self.now (piece.now ++ last.now ∷ []) }
    {
        let value = self.value_with(piece, last)?;
        value.div(&Frac::whole(self.whole_value()))
    }

    /// The least point from `x` on such that the stretch up to it has the value `amount`, not divided by the total.
    /// `NoFit` comes exactly where a number on the way doesn't fit: the value up to `x`, the target (that and the
    /// amount), and in the step that comes up to the target the difference, the quotient and the sum.
    pub fn least_point(&self, x: &Frac, amount: &Frac) -> Result<Frac, NoFit>
        ensures fitting { fitting_of result ≡ least_point_in self.now x.now amount.now }
        ensures least { IfOk result (λ y. (z : Rational)
            → HasAmount self.now x.now z amount.now → IsLeastPoint self.now x.now z amount.now y) }
    {
        let _ = &self.ends;
        let lower = self.value_up_to(x)?;
        let target = lower.add(amount)?;
        if target == lower {
            return Ok(*x);
        }
        match reached(&self.ends, &self.heights, &target) {
            Some(place) => point_of(place, &target),
            None => Ok(Frac::whole(self.length() as u128)),
        }
    }

    /// The least right answer to a cut of the piece at that share-value, a fraction of 1: the first part of the piece in
    /// which there is a right point, and the least such point there. `NoFit` comes exactly where a number on the way
    /// doesn't fit: the product with the total; part by part the part's value and the sum so far; and in the part that
    /// comes up to the product their difference and the numbers of `least_point`.
    pub fn least_answer(&self, piece: &[Interval], share: &Frac) -> Result<CutAnswer, NoFit>
        requires { length piece.now < 2 ^ 32 }
        ensures fitting { fitting_of result ≡ least_answer_in self.now piece.now share.now }
        ensures least { IfOk result (λ y. All InOrder piece.now → 0 < length piece.now
            → CanCut self.now piece.now share.now → IsLeastAnswer (share_value self.now) piece.now share.now y) }
    {
        let _ = &self.ends;
        self.find_answer(piece, share)
    }

    /// Whether an answer to a cut of the piece at that share-value is right: its part is there, the point lies in it, and
    /// what lies before it is worth the share-value. `NoFit` comes exactly where the part is there, the point lies in it,
    /// and a number of the share-value of what lies before it doesn't fit.
    pub fn is_right(
        &self,
        piece: &[Interval],
        share: &Frac,
        answer: &CutAnswer,
    ) -> Result<bool, NoFit>
        ensures fitting { fitting_of result ≡ is_right_in self.now piece.now share.now answer.now }
        ensures lies { IfOk result (λ right. IsTrue right → LiesIn piece.now answer.now) }
    {
        let part = answer.part as usize;
        if part >= piece.len() {
            return Ok(false);
        }
        let stretch = piece[part];
        let y = answer.point;
        if !is_within(&y, &stretch) {
            return Ok(false);
        }
        let last = Interval {
            from: stretch.from,
            to: y,
        };
        let worth = self.share_with(&piece[..part], &last)?;
        Ok(worth == *share)
    }

    // The part that comes up to the share, and its point.
    fn find_answer(&self, piece: &[Interval], share: &Frac) -> Result<CutAnswer, NoFit>
        requires { length piece.now < 2 ^ 32 }
        ensures { fitting_of result ≡ least_answer_in self.now piece.now share.now }
    {
        let target = share.mul(&Frac::whole(self.whole_value()))?;
        let mut sum = Frac::whole(0);
        for part in 0..piece.len() {
            let stretch = piece[part];
            let more = self.value(&stretch.from, &stretch.to)?;
            let both = sum.add(&more)?;
            if !is_below(&both, &target) {
                let missing = target.sub(&sum)?;
                let point = self.least_point(&stretch.from, &missing)?;
                let part = part as u32;
                return Ok(CutAnswer { part, point });
            }
            sum = both;
        }
        Ok(CutAnswer {
            part: piece.len() as u32,
            point: Frac::whole(0),
        })
    }

    /// The length of the cake, in points: where the last step ends.
    pub fn length(&self) -> u64
        ensures { result ≡ cake_length self.now }
    {
        last_of(&self.ends)
    }
}

#[cfg(test)]
mod tests {
    use super::*;
    use std::test::Fail;

    const FAR: i128 = i128::MAX;

    // Height 3 over a cake of length 4.
    fn uniform(rt: &HostRuntime) -> Result<Valuation, Fail> {
        let ends = vec![in rt.alloc(); 4]?;
        let heights = vec![in rt.alloc(); 3]?;
        Ok(Valuation::new(ends, heights))
    }

    // Height 2 from 0 to 1, 0 from there to 2, 1 from there to 4.
    fn three_steps(rt: &HostRuntime) -> Result<Valuation, Fail> {
        let ends = vec![in rt.alloc(); 1, 2, 4]?;
        let heights = vec![in rt.alloc(); 2, 0, 1]?;
        Ok(Valuation::new(ends, heights))
    }

    #[test]
    fn values_stretches(rt: HostRuntime) -> Result<(), Fail> {
        let flat = uniform(&rt)?;
        let steps = three_steps(&rt)?;
        assert_eq!(rt; flat.total(), 12);
        assert_eq!(rt; steps.total(), 4);
        for (x, y, in_flat, in_steps) in [
            ((0, 1), (4, 1), Ok((12, 1)), Ok((4, 1))),
            ((1, 2), (3, 2), Ok((3, 1)), Ok((1, 1))),
            ((1, 2), (3, 1), Ok((15, 2)), Ok((2, 1))),
            ((1, 1), (2, 1), Ok((3, 1)), Ok((0, 1))),
            ((5, 2), (5, 2), Ok((0, 1)), Ok((0, 1))),
            ((1, FAR), (1, FAR - 2), Err(NoFit), Err(NoFit)),
        ] {
            let from = Frac::new(x.0, x.1)?;
            let to = Frac::new(y.0, y.1)?;
            let parts = flat.value(&from, &to).map(|q| (q.num(), q.den()));
            assert_eq!(rt; parts, in_flat, "uniform, from {from:?} to {to:?}");
            let parts = steps.value(&from, &to).map(|q| (q.num(), q.den()));
            assert_eq!(rt; parts, in_steps, "three steps, from {from:?} to {to:?}");
        }
        Ok(())
    }

    // The point, the amount, the least points.
    #[test]
    fn finds_least_points(rt: HostRuntime) -> Result<(), Fail> {
        let flat = uniform(&rt)?;
        let steps = three_steps(&rt)?;
        for (x, amount, in_flat, in_steps) in [
            ((0, 1), (0, 1), Ok((0, 1)), Ok((0, 1))),
            ((0, 1), (2, 1), Ok((2, 3)), Ok((1, 1))),
            ((1, 1), (0, 1), Ok((1, 1)), Ok((1, 1))),
            ((3, 2), (0, 1), Ok((3, 2)), Ok((3, 2))),
            ((3, 2), (1, 2), Ok((5, 3)), Ok((5, 2))),
            ((1, 2), (3, 1), Ok((3, 2)), Ok((4, 1))),
            ((0, 1), (4, 1), Ok((4, 3)), Ok((4, 1))),
            ((1, FAR), (1, FAR - 2), Err(NoFit), Err(NoFit)),
        ] {
            let from = Frac::new(x.0, x.1)?;
            let most = Frac::new(amount.0, amount.1)?;
            let parts = flat.least_point(&from, &most).map(|q| (q.num(), q.den()));
            assert_eq!(rt; parts, in_flat, "uniform, {most:?} from {from:?} on");
            let parts = steps.least_point(&from, &most).map(|q| (q.num(), q.den()));
            assert_eq!(rt; parts, in_steps, "three steps, {most:?} from {from:?} on");
        }
        Ok(())
    }

    #[test]
    fn shares_pieces(rt: HostRuntime) -> Result<(), Fail> {
        let steps = three_steps(&rt)?;
        let first = Interval {
            from: Frac::whole(0),
            to: Frac::new(1, 2)?,
        };
        let second = Interval {
            from: Frac::whole(1),
            to: Frac::whole(3),
        };
        assert_eq!(rt; steps.share(&[]), Ok(Frac::whole(0)));
        assert_eq!(rt; steps.share(&[first]), Ok(Frac::new(1, 4)?));
        assert_eq!(rt; steps.share(&[first, second]), Ok(Frac::new(1, 2)?));
        Ok(())
    }
}
