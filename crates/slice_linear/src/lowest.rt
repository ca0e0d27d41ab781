//! Whole numbers in lowest terms: divided by what divides them all.
ghost use Rattle.std.specs.Prelude.{◌≡◌, ◌≤◌, ℕ, ◌<◌, ◌^◌, pos, ◌<ℤ◌, length, map, unsigned_abs, int_div, MatchResult};
ghost use Rattle.slice_num.specs.Rational.{Fits};
ghost use Rattle.slice_num.specs.Gcd.{gcd_of, lcm_of};
ghost use Rattle.slice_linear.specs.Sums.{at};
ghost use Rattle.slice_linear.specs.LowestRow.{gcd_all, reduced, IsInLowestForm};

use slice_num::{NoFit, gcd, lcm};

/// Divides the numbers by their greatest common divisor; zeros stay.
pub fn reduce(numbers: &mut [i128])
    requires { (j : ℕ) → Fits (at numbers.old j) }
    ensures reduced { numbers.new ≡ reduced numbers.old }
    ensures lowest { IsInLowestForm numbers.new }
    ensures fit { (j : ℕ) → Fits (at numbers.new j) }
{
    divide_out(numbers);
}

fn divide_out(numbers: &mut [i128])
    requires { (j : ℕ) → Fits (at numbers.old j) }
    ensures { numbers.new ≡ reduced numbers.old }
{
    let common = common_divisor(numbers);
    if common != 0 {
        divide(numbers, common);
    }
}

// The greatest common divisor of all; 0 where all are 0.
fn common_divisor(numbers: &[i128]) -> i128
    requires { (j : ℕ) → Fits (at numbers.now j) }
    ensures { result ≡ pos (gcd_all numbers.now) }
{
    let mut common = 0;
    let mut j = numbers.len();
    while j > 0 {
        j -= 1;
        common = common_with(numbers[j], common);
    }
    common
}

// The greatest common divisor of two numbers; 0 where both are 0.
fn common_with(a: i128, b: i128) -> i128
    requires a_fits { Fits a }
    requires b_fits { Fits b }
    ensures value { result ≡ pos (gcd_of (unsigned_abs a) (unsigned_abs b)) }
    ensures fits { Fits result }
{
    if a == 0 && b == 0 { 0 } else { gcd(a, b) }
}

// Divides each number.
fn divide(numbers: &mut [i128], divisor: i128)
    requires { pos 0 <ℤ divisor }
    ensures { numbers.new ≡ map (λ z. int_div z divisor) numbers.old }
{
    for number in numbers.iter_mut() {
        *number /= divisor;
    }
}

// The least common multiple of two numbers above 0.
pub(crate) fn with_denominator(a: i128, b: i128) -> Result<i128, NoFit>
    requires a_above { pos 0 <ℤ a }
    requires b_above { pos 0 <ℤ b }
    requires a_fits { Fits a }
    requires b_fits { Fits b }
    ensures { MatchResult result (λ m. (m ≡ pos (lcm_of (unsigned_abs a) (unsigned_abs b))) × (pos 0 <ℤ m) × (lcm_of (unsigned_abs a) (unsigned_abs b) < 2 ^ 127)) (λ _. lcm_of (unsigned_abs a) (unsigned_abs b) < 2 ^ 127 → ⊥) }
{
    lcm(a, b)
}
