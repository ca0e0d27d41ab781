//! Exact fractions, stretches of the cake, valuations by steps, and what all crates above share.
//!
//! The definitions of `specs/` say what a fraction is and what a piece is worth to an agent.
//! Shares of the whole are fractions of 1, and points are positions on the cake, from 0 to its length.
//! A whole number fits where it lies from `-(2^127 - 1)` to `2^127 - 1`.
#![tactic(auto)]

ghost use Rattle.std.specs.Prelude.{◌≡◌, ◌≢◌, ◌↔◌, ◌<◌, ◌^◌, pos, ◌<ℤ◌, ◌*ℤ◌, ◌+ℤ◌, unsigned_abs, IsTrue, OkIff, IfOk, IfErr, Some};
ghost use Rattle.std.specs.String.{string_bytes};
ghost use Rattle.std.specs.Ordering.{int_cmp};
ghost use Rattle.slice_num.specs.Rational.{Rational, plus, times, negated, minus, whole, Fits, is_lowest, IsTrue-prop};
ghost use Rattle.slice_num.specs.Arithmetic.{FitsRational, quotient, inverse, SumFits};
ghost use Rattle.slice_num.specs.Fitting.{fitting_of, sum_in, product_in, difference_in, quotient_in};
ghost use Rattle.slice_num.specs.FractionText.{fraction_text};
ghost use Rattle.slice_num.specs.FractionReading.{Writes, fraction_read};

use crate::numbers::{compare_natural, magnitude, signs_differ, with_sign};
use crate::reading::read_unsigned;
use std::alloc::{AllocError, Global};
use std::cmp::Ordering;
use std::marker::Model;

pub mod choice;
pub mod cut_answer;
pub mod interval;
pub mod key;
mod numbers;
pub mod properties;
mod reading;
pub mod word;

pub use choice::{Choice, Side};
pub use cut_answer::CutAnswer;
pub use interval::Interval;
pub use key::Key;
pub use numbers::{compare_ratios, difference, divide, gcd, gcd_natural, lcm, product, sum};
pub use word::Word;

// The greatest number that fits.
const LIMIT: u128 = 0x7fff_ffff_ffff_ffff_ffff_ffff_ffff_ffff;

/// Want of memory: an allocation was refused.
#[derive(Clone, Copy, Debug, PartialEq, Eq)]
pub struct Memory;

impl From<AllocError> for Memory {
    fn from(_error: AllocError) -> Memory {
        Memory
    }
}

/// A number on the way to a result doesn't fit.
#[derive(Clone, Copy, Debug, PartialEq, Eq)]
pub struct NoFit;

/// Why two numbers make no fraction.
#[derive(Clone, Copy, Debug, PartialEq, Eq)]
pub enum FracFault {
    /// The denominator is 0.
    ZeroDen,
    /// In lowest terms, the numerator or the denominator doesn't fit.
    Overflow,
}

/// An exact fraction in lowest terms, with a denominator above 0. Both parts fit.
///
/// Contracts see it as a `Rational`; equal fractions are equal values, so `==` compares them exactly.
#[derive(Clone, Copy, Debug, PartialEq, Eq)]
pub struct Frac {
    num: i128,
    den: i128,
    ghost lowest: { IsTrue (is_lowest num (unsigned_abs den)) } by { IsTrue-prop (is_lowest num (unsigned_abs den)) },
}

impl Model for Frac {
    ghost use Rattle.slice_num.specs.Rational.{Rational};

    ghost Value = { Rational };

    ghost use Rattle.slice_num.specs.FracShape.{fraction_of, fields_of, IsFrac, fields_of-fraction_of};

    ghost view = { fraction_of };

    ghost invariant = { IsFrac };

    ghost inverse = { fields_of };

    ghost inverse_ok = { fields_of-fraction_of };
}

impl Frac {
    /// `num / den` in lowest terms. `den` may be below 0.
    ///
    /// ZeroDen comes exactly where `den` is 0, and Overflow exactly where a part in lowest terms doesn't fit.
    pub fn new(num: i128, den: i128) -> Result<Frac, FracFault>
        ensures value { OkIff result ((den ≢ pos 0) × FitsRational (quotient num den)) (quotient num den) }
        ensures fault { IfErr result (λ e. (e ≡ FracFault.ZeroDen) ↔ (den ≡ pos 0)) }
    {
        if den == 0 {
            return Err(FracFault::ZeroDen);
        }
        let size = magnitude(num);
        let low = magnitude(den);
        let common = gcd_natural(size, low);
        let upper = size / common;
        let lower = low / common;
        if upper > LIMIT {
            return Err(FracFault::Overflow);
        }
        if lower > LIMIT {
            return Err(FracFault::Overflow);
        }
        let size = with_sign(upper, signs_differ(num, den));
        Ok(Frac::from_parts(size, lower as i128))
    }

    /// A whole number that fits, as a fraction.
    pub fn whole(n: u128) -> Frac
        requires fits { n < 2 ^ 127 }
        ensures { result ≡ whole (pos n) }
    {
        Frac::from_parts(n as i128, 1)
    }

    /// The numerator in lowest terms.
    pub fn num(&self) -> i128
        ensures value { result ≡ self.now.num }
        ensures fits { Fits result }
    {
        self.num
    }

    /// The denominator in lowest terms.
    pub fn den(&self) -> i128
        ensures value { result ≡ pos self.now.den }
        ensures positive { pos 0 <ℤ result }
    {
        self.den
    }

    /// The order of the two fractions. It is exact, and needs no larger numbers.
    pub fn compare(&self, other: &Frac) -> Ordering
        ensures { result ≡ int_cmp (self.now.num *ℤ pos other.now.den) (other.now.num *ℤ pos self.now.den) }
    {
        let first = self.num();
        let second = other.num();
        let low = magnitude(self.den());
        let down = magnitude(other.den());
        if first < 0 {
            if second < 0 {
                compare_natural(magnitude(second), down, magnitude(first), low)
            } else {
                Ordering::Less
            }
        } else if second < 0 {
            Ordering::Greater
        } else {
            compare_natural(magnitude(first), low, magnitude(second), down)
        }
    }

    /// The sum, over the least common denominator.
    ///
    /// With `g` the greatest common divisor of the denominators, NoFit comes exactly where one of the
    /// numerators times the other denominator over `g`, their sum, or the denominator of the reduced sum
    /// doesn't fit.
    pub fn add(&self, other: &Frac) -> Result<Frac, NoFit>
        ensures exact { OkIff result (SumFits self.now other.now) (plus self.now other.now) }
        ensures fitting { fitting_of result ≡ sum_in self.now other.now }
    {
        self.sum_of(other)
    }

    /// The difference: the sum with the other fraction negated, and NoFit exactly where that sum's is.
    pub fn sub(&self, other: &Frac) -> Result<Frac, NoFit>
        ensures exact { OkIff result (SumFits self.now (negated other.now)) (minus self.now other.now) }
        ensures fitting { fitting_of result ≡ difference_in self.now other.now }
    {
        self.add(&other.negated())
    }

    /// The product. NoFit comes exactly where a part of the reduced product doesn't fit.
    pub fn mul(&self, other: &Frac) -> Result<Frac, NoFit>
        ensures exact { OkIff result (FitsRational (times self.now other.now)) (times self.now other.now) }
        ensures fitting { fitting_of result ≡ product_in self.now other.now }
    {
        self.product_of(other)
    }

    /// The quotient by a fraction that isn't 0: the product with its inverse.
    ///
    /// NoFit comes exactly where a part of the reduced quotient doesn't fit.
    pub fn div(&self, other: &Frac) -> Result<Frac, NoFit>
        requires { other.now.num ≢ pos 0 }
        ensures exact { OkIff result (FitsRational (times self.now (inverse other.now))) (times self.now (inverse other.now)) }
        ensures fitting { fitting_of result ≡ quotient_in self.now other.now }
    {
        self.mul(&other.inverse())
    }

    /// The fraction with the other sign.
    pub fn negated(&self) -> Frac
        ensures { result ≡ negated self.now }
    {
        Frac::from_parts(-self.num(), self.den())
    }

    /// In decimal: `n` where the denominator is 1, and `n/d` otherwise. `Err` comes only for want of memory.
    pub fn text(&self, alloc: Global) -> Result<String, Memory>
        ensures { IfOk result (λ s. string_bytes s ≡ fraction_text self.now) }
    {
        let num = self.num();
        let den = magnitude(self.den());
        if den == 1 {
            Ok(format!(in alloc; "{num}")?)
        } else {
            Ok(format!(in alloc; "{num}/{den}")?)
        }
    }

    /// The fraction that a text writes: an optional `-`, 1 to 39 digits, and optionally `/` and 1 to 39 digits.
    ///
    /// It needn't be in lowest terms, and `-0` and leading zeros are taken. None comes exactly where the text has another
    /// form, the denominator is 0, or a part as it is written doesn't fit.
    pub fn read(text: &str) -> Option<Frac>
        ensures exact { (q : Rational) → (result ≡ Some q) ↔ Writes text.now q }
        ensures value { result ≡ fraction_read text.now }
    {
        match text.strip_prefix('-') {
            Some(rest) => read_unsigned(rest, true),
            None => read_unsigned(text, false),
        }
    }

    fn from_parts(num: i128, den: i128) -> Frac
        requires lowest { IsTrue (is_lowest num (unsigned_abs den)) }
        requires positive { pos 0 <ℤ den }
        requires fits { Fits num }
        ensures num { result.num ≡ num }
        ensures den { result.den ≡ unsigned_abs den }
    {
        Frac { num, den }
    }

    fn inverse(&self) -> Frac
        requires { self.now.num ≢ pos 0 }
        ensures { result ≡ inverse self.now }
    {
        let num = self.num();
        let den = self.den();
        if num < 0 {
            Frac::from_parts(-den, -num)
        } else {
            Frac::from_parts(den, num)
        }
    }

    // Reduced crosswise before it multiplies, so that only the parts of the result have to fit.
    fn product_of(&self, other: &Frac) -> Result<Frac, NoFit>
        ensures { OkIff result (FitsRational (times self.now other.now)) (times self.now other.now) }
    {
        let first = gcd(self.num(), other.den());
        let second = gcd(other.num(), self.den());
        let Ok(num) = product(divide(self.num(), first), divide(other.num(), second)) else {
            return Err(NoFit);
        };
        let Ok(den) = product(divide(self.den(), second), divide(other.den(), first)) else {
            return Err(NoFit);
        };
        Ok(Frac::from_parts(num, den))
    }

    // What the sum over the least common denominator shares with it divides `common`.
    fn sum_of(&self, other: &Frac) -> Result<Frac, NoFit>
        ensures { OkIff result (SumFits self.now other.now) (plus self.now other.now) }
    {
        let common = gcd(self.den(), other.den());
        let upper = divide(self.den(), common);
        let lower = divide(other.den(), common);
        let Ok(sum) = self.sum_over(other, upper, lower) else {
            return Err(NoFit);
        };
        let shared = gcd(sum, common);
        let rest = divide(other.den(), shared);
        let Ok(den) = product(upper, rest) else {
            return Err(NoFit);
        };
        let num = divide(sum, shared);
        Ok(Frac::from_parts(num, den))
    }

    fn sum_over(&self, other: &Frac, upper: i128, lower: i128) -> Result<i128, NoFit>
        ensures { OkIff result (Fits (self.now.num *ℤ lower) × Fits (other.now.num *ℤ upper) × Fits (self.now.num *ℤ lower +ℤ other.now.num *ℤ upper)) (self.now.num *ℤ lower +ℤ other.now.num *ℤ upper) }
    {
        let left = product(self.num(), lower)?;
        let right = product(other.num(), upper)?;
        sum(left, right)
    }
}

#[cfg(test)]
mod tests {
    use super::*;
    use std::test::Fail;

    const MOST: i128 = i128::MAX;

    const HIGH: i128 = 1 << 126;

    #[test]
    fn makes_fractions(rt: HostRuntime) -> Result<(), Fail> {
        for (num, den, want) in [
            (4, 6, Ok((2, 3))),
            (3, -6, Ok((-1, 2))),
            (-3, -6, Ok((1, 2))),
            (0, -7, Ok((0, 1))),
            (MOST, MOST, Ok((1, 1))),
            (MOST, 1, Ok((MOST, 1))),
            (1, -MOST, Ok((-1, MOST))),
            (i128::MIN, 2, Ok((-HIGH, 1))),
            (2, i128::MIN, Ok((-1, HIGH))),
            (0, i128::MIN, Ok((0, 1))),
            (i128::MIN, i128::MIN, Ok((1, 1))),
            (i128::MIN, 1, Err(FracFault::Overflow)),
            (i128::MIN, -1, Err(FracFault::Overflow)),
            (1, i128::MIN, Err(FracFault::Overflow)),
            (5, 0, Err(FracFault::ZeroDen)),
            (0, 0, Err(FracFault::ZeroDen)),
            (i128::MIN, 0, Err(FracFault::ZeroDen)),
        ] {
            let parts = Frac::new(num, den).map(|q| (q.num(), q.den()));
            assert_eq!(rt; parts, want, "{num}/{den}");
        }
        assert_eq!(rt; Frac::whole(7), Frac::new(7, 1)?);
        assert_ne!(rt; Frac::new(1, 2)?, Frac::new(-1, 2)?);
        Ok(())
    }

    // Two fractions; their sum, difference, product and order.
    #[test]
    fn computes(rt: HostRuntime) -> Result<(), Fail> {
        for (a, b, want) in [
            (
                (1, 2),
                (1, 3),
                (Some((5, 6)), Some((1, 6)), Some((1, 6)), Ordering::Greater),
            ),
            (
                (1, 6),
                (1, 3),
                (Some((1, 2)), Some((-1, 6)), Some((1, 18)), Ordering::Less),
            ),
            (
                (-1, 2),
                (1, 2),
                (Some((0, 1)), Some((-1, 1)), Some((-1, 4)), Ordering::Less),
            ),
            (
                (-1, 2),
                (-1, 3),
                (Some((-5, 6)), Some((-1, 6)), Some((1, 6)), Ordering::Less),
            ),
            (
                (0, 1),
                (0, 1),
                (Some((0, 1)), Some((0, 1)), Some((0, 1)), Ordering::Equal),
            ),
            (
                (1, HIGH),
                (1, HIGH),
                (Some((1, HIGH / 2)), Some((0, 1)), None, Ordering::Equal),
            ),
            (
                (MOST, 1),
                (1, MOST),
                (None, None, Some((1, 1)), Ordering::Greater),
            ),
            (
                (MOST, 1),
                (1, 1),
                (
                    None,
                    Some((MOST - 1, 1)),
                    Some((MOST, 1)),
                    Ordering::Greater,
                ),
            ),
            (
                (-MOST, 1),
                (1, 1),
                (Some((1 - MOST, 1)), None, Some((-MOST, 1)), Ordering::Less),
            ),
            (
                (MOST, MOST - 1),
                (MOST - 1, MOST - 2),
                (None, None, Some((MOST, MOST - 2)), Ordering::Less),
            ),
            ((1, MOST), (1, MOST - 1), (None, None, None, Ordering::Less)),
        ] {
            let p = Frac::new(a.0, a.1)?;
            let q = Frac::new(b.0, b.1)?;
            let found = (
                parts_of(p.add(&q)),
                parts_of(p.sub(&q)),
                parts_of(p.mul(&q)),
                p.compare(&q),
            );
            assert_eq!(rt; found, want, "{a:?} and {b:?}");
            assert_eq!(rt; q.compare(&p), found.3.reverse(), "{b:?} against {a:?}");
        }
        Ok(())
    }

    #[test]
    fn divides(rt: HostRuntime) -> Result<(), Fail> {
        for (a, b, quotient) in [
            ((1, 2), (1, 3), Some((3, 2))),
            ((1, 2), (-3, 4), Some((-2, 3))),
            ((0, 1), (-3, 4), Some((0, 1))),
            ((MOST, 1), (MOST, 1), Some((1, 1))),
            ((1, 1), (-MOST, 2), Some((-2, MOST))),
            ((MOST, 1), (1, 2), None),
        ] {
            let p = Frac::new(a.0, a.1)?;
            let q = Frac::new(b.0, b.1)?;
            assert_ne!(rt; q.num(), 0);
            assert_eq!(rt; parts_of(p.div(&q)), quotient, "{p:?} by {q:?}");
        }
        Ok(())
    }

    #[test]
    fn writes(rt: HostRuntime) -> Result<(), Fail> {
        for (num, den, want) in [
            (0, 1, "0"),
            (-3, 1, "-3"),
            (7, 2, "7/2"),
            (-1, 10, "-1/10"),
            (MOST, 1, "170141183460469231731687303715884105727"),
            (-1, MOST, "-1/170141183460469231731687303715884105727"),
        ] {
            let text = Frac::new(num, den)?.text(rt.alloc())?;
            assert_eq!(rt; text.as_str(), want);
        }
        Ok(())
    }

    #[test]
    fn reads(rt: HostRuntime) -> Result<(), Fail> {
        for (text, want) in [
            ("0", Some((0, 1))),
            ("-0", Some((0, 1))),
            ("-0/3", Some((0, 1))),
            ("007", Some((7, 1))),
            ("-6/4", Some((-3, 2))),
            ("6/004", Some((3, 2))),
            ("170141183460469231731687303715884105727", Some((MOST, 1))),
            (
                "-170141183460469231731687303715884105727/2",
                Some((-MOST, 2)),
            ),
            ("000000000000000000000000000000000000007/1", Some((7, 1))),
            ("0000000000000000000000000000000000000007", None),
            ("170141183460469231731687303715884105728", None),
            ("-170141183460469231731687303715884105728", None),
            ("2/170141183460469231731687303715884105728", None),
            ("999999999999999999999999999999999999999", None),
            ("", None),
            ("-", None),
            ("+1", None),
            ("1/+2", None),
            ("1/-2", None),
            ("--1", None),
            ("1/0", None),
            ("0/0", None),
            ("1/", None),
            ("/2", None),
            ("1/2/3", None),
            (" 1", None),
            ("1.0", None),
            ("1e2", None),
            ("a", None),
        ] {
            let found = Frac::read(text).map(|q| (q.num(), q.den()));
            assert_eq!(rt; found, want, "{text}");
        }
        Ok(())
    }

    fn parts_of(answer: Result<Frac, NoFit>) -> Option<(i128, i128)> {
        match answer {
            Ok(q) => Some((q.num(), q.den())),
            Err(NoFit) => None,
        }
    }
}
