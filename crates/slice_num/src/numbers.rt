//! Whole numbers: sums and products that fit, greatest common divisors, and the order of ratios.
ghost use Rattle.std.specs.Prelude.{◌≡◌, ℕ, ◌<◌, ◌^◌, ◌*◌, pos, ◌<ℤ◌, ◌*ℤ◌, ◌+ℤ◌, ◌-ℤ◌, unsigned_abs, IsTrue, OkIff, int_div};
ghost use Rattle.std.specs.Int.{IsGcd};
ghost use Rattle.std.specs.Ordering.{int_cmp, nat_cmp};
ghost use Rattle.slice_num.specs.Rational.{Fits};
ghost use Rattle.slice_num.specs.Arithmetic.{signed, differ};
ghost use Rattle.slice_num.specs.Gcd.{gcd_of, lcm_of};

use crate::NoFit;
use std::cmp::Ordering;

// The greatest number of 64 bits.
const NARROW: u128 = 0xffff_ffff_ffff_ffff;

/// The greatest common divisor of two numbers that fit and aren't both 0, by Euclid's steps. It is above 0.
pub fn gcd(a: i128, b: i128) -> i128
    requires a_fits { Fits a }
    requires b_fits { Fits b }
    requires some { (a ≡ pos 0) → (b ≡ pos 0) → ⊥ }
    ensures value { result ≡ pos (gcd_of (unsigned_abs a) (unsigned_abs b)) }
    ensures greatest { IsGcd (unsigned_abs a) (unsigned_abs b) (unsigned_abs result) }
    ensures positive { pos 0 <ℤ result }
{
    gcd_natural(magnitude(a), magnitude(b)) as i128
}

/// The least common multiple of two numbers that fit and are above 0. NoFit comes exactly where it doesn't fit.
pub fn lcm(a: i128, b: i128) -> Result<i128, NoFit>
    requires a_fits { Fits a }
    requires b_fits { Fits b }
    requires a_positive { pos 0 <ℤ a }
    requires b_positive { pos 0 <ℤ b }
    ensures { OkIff result (Fits (pos (lcm_of (unsigned_abs a) (unsigned_abs b)))) (pos (lcm_of (unsigned_abs a) (unsigned_abs b))) }
{
    let common = gcd(a, b);
    product(divide(a, common), b)
}

/// The greatest common divisor of two numbers that aren't below 0, by Euclid's steps; it is 0 where both are.
pub fn gcd_natural(a: u128, b: u128) -> u128
    ensures value { result ≡ gcd_of a b }
    ensures greatest { IsGcd a b result }
{
    let mut x = a;
    let mut y = b;
    while y > NARROW {
        let rest = x % y;
        x = y;
        y = rest;
    }
    if y == 0 {
        return x;
    }
    gcd_narrow(y as u64, (x % y) as u64) as u128
}

// The same for numbers of 64 bits, whose division is much faster.
fn gcd_narrow(a: u64, b: u64) -> u64
    ensures { IsGcd a b result }
{
    let mut x = a;
    let mut y = b;
    while y != 0 {
        let rest = x % y;
        x = y;
        y = rest;
    }
    x
}

// a / b against c / d: the whole parts decide, or else the remainders, turned upside down.
pub(crate) fn compare_natural(a: u128, b: u128, c: u128, d: u128) -> Ordering
    requires b_positive { 0 < b }
    requires d_positive { 0 < d }
    ensures { result ≡ nat_cmp (a * d) (c * b) }
{
    let left = a / b;
    let right = c / d;
    if left != right {
        return left.cmp(&right);
    }
    let up = a % b;
    let down = c % d;
    if up == 0 || down == 0 {
        return up.cmp(&down);
    }
    compare_natural(d, down, b, up)
}

/// The order of `a / b` and `c / d`, with `b` and `d` above 0. It is exact, and needs no larger numbers.
pub fn compare_ratios(a: i128, b: i128, c: i128, d: i128) -> Ordering
    requires b_positive { pos 0 <ℤ b }
    requires d_positive { pos 0 <ℤ d }
    ensures { result ≡ int_cmp (a *ℤ d) (c *ℤ b) }
{
    match a.checked_mul(d) {
        Some(left) => match c.checked_mul(b) {
            Some(right) => left.cmp(&right),
            None => compare_parts(a, b, c, d),
        },
        None => compare_parts(a, b, c, d),
    }
}

// The same by the signs, and by the whole parts.
fn compare_parts(a: i128, b: i128, c: i128, d: i128) -> Ordering
    requires b_positive { pos 0 <ℤ b }
    requires d_positive { pos 0 <ℤ d }
    ensures { result ≡ int_cmp (a *ℤ d) (c *ℤ b) }
{
    let low = magnitude(b);
    let down = magnitude(d);
    if a < 0 {
        if c < 0 {
            compare_natural(magnitude(c), down, magnitude(a), low)
        } else {
            Ordering::Less
        }
    } else if c < 0 {
        Ordering::Greater
    } else {
        compare_natural(magnitude(a), low, magnitude(c), down)
    }
}

pub(crate) fn magnitude(a: i128) -> u128
    ensures { result ≡ unsigned_abs a }
{
    a.unsigned_abs()
}

pub(crate) fn signs_differ(a: i128, b: i128) -> bool
    ensures { result ≡ differ a b }
{
    if a < 0 { b >= 0 } else { b < 0 }
}

pub(crate) fn with_sign(size: u128, negative: bool) -> i128
    requires { size < 2 ^ 127 }
    ensures { result ≡ signed negative size }
{
    if negative {
        -(size as i128)
    } else {
        size as i128
    }
}

/// `a / g`, toward 0, for a `g` above 0.
pub fn divide(a: i128, g: i128) -> i128
    requires positive { pos 0 <ℤ g }
    ensures { result ≡ int_div a g }
{
    if is_narrow(a) && is_narrow(g) {
        return divide_narrow(a as i64, g as i64) as i128;
    }
    a / g
}

// The same for numbers of 64 bits, whose division is much faster.
fn divide_narrow(a: i64, g: i64) -> i64
    requires positive { pos 0 <ℤ g }
    ensures { result ≡ int_div a g }
{
    a / g
}

fn is_narrow(a: i128) -> bool
    ensures { IsTrue result → unsigned_abs a < 2 ^ 62 }
{
    -0x4000_0000_0000_0000 < a && a < 0x4000_0000_0000_0000
}

/// The product. NoFit comes exactly where it doesn't fit.
pub fn product(a: i128, b: i128) -> Result<i128, NoFit>
    ensures { OkIff result (Fits (a *ℤ b)) (a *ℤ b) }
{
    match a.checked_mul(b) {
        Some(i128::MIN) | None => Err(NoFit),
        Some(c) => Ok(c),
    }
}

/// The sum. NoFit comes exactly where it doesn't fit.
pub fn sum(a: i128, b: i128) -> Result<i128, NoFit>
    ensures { OkIff result (Fits (a +ℤ b)) (a +ℤ b) }
{
    match a.checked_add(b) {
        Some(c) if c != i128::MIN => Ok(c),
        _ => Err(NoFit),
    }
}

/// The difference. NoFit comes exactly where it doesn't fit.
pub fn difference(a: i128, b: i128) -> Result<i128, NoFit>
    ensures { OkIff result (Fits (a -ℤ b)) (a -ℤ b) }
{
    match a.checked_sub(b) {
        Some(c) if c != i128::MIN => Ok(c),
        _ => Err(NoFit),
    }
}

#[cfg(test)]
mod tests {
    use super::*;

    #[test]
    fn finds_the_greatest_common_divisor(rt: HostRuntime) {
        assert_eq!(rt; gcd(12, 18), 6);
        assert_eq!(rt; gcd(-4, 6), 2);
        assert_eq!(rt; gcd(0, -5), 5);
        assert_eq!(rt; gcd(7, 0), 7);
        assert_eq!(rt; gcd(i128::MAX, -i128::MAX), i128::MAX);
        assert_eq!(rt; gcd(i128::MAX, i128::MAX - 1), 1);
        assert_eq!(rt; gcd(6 << 90, 10 << 80), 2 << 80);
        assert_eq!(rt; gcd_natural(0, 0), 0);
    }

    #[test]
    fn computes_whole_numbers(rt: HostRuntime) {
        for (a, b, want) in [
            (4, 6, Ok(12)),
            (5, 7, Ok(35)),
            (i128::MAX, i128::MAX, Ok(i128::MAX)),
            (i128::MAX, i128::MAX - 1, Err(NoFit)),
            (1 << 126, 3, Err(NoFit)),
        ] {
            assert_eq!(rt; lcm(a, b), want);
        }
        assert_eq!(rt; product(-3, 1 << 126), Err(NoFit));
        assert_eq!(rt; product(-2, 1 << 126), Err(NoFit));
        assert_eq!(rt; product(-1, i128::MAX), Ok(-i128::MAX));
        assert_eq!(rt; sum(-1, -i128::MAX), Err(NoFit));
        assert_eq!(rt; sum(1, -i128::MAX), Ok(1 - i128::MAX));
        assert_eq!(rt; difference(-i128::MAX, 1), Err(NoFit));
        assert_eq!(rt; difference(5, 7), Ok(-2));
        assert_eq!(rt; divide(-7, 2), -3);
        assert_eq!(rt; divide(-(7 << 100), 2 << 100), -3);
    }

    // The two fractions, and their order.
    #[test]
    fn compares_ratios(rt: HostRuntime) {
        for (first, second, want) in [
            ((1, 2), (2, 4), Ordering::Equal),
            ((1, 3), (1, 2), Ordering::Less),
            ((-1, 3), (-1, 2), Ordering::Greater),
            ((-1, 2), (0, 1), Ordering::Less),
            (
                (i128::MAX, i128::MAX - 1),
                (i128::MAX - 1, i128::MAX - 2),
                Ordering::Less,
            ),
            ((-i128::MAX, 2), (1 - i128::MAX, 2), Ordering::Less),
        ] {
            let found = compare_ratios(first.0, first.1, second.0, second.1);
            assert_eq!(rt; found, want, "{first:?} and {second:?}");
        }
    }
}
