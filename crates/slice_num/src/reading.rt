//! Reading fractions.
ghost use Rattle.std.specs.Prelude.{◌≡◌, ◌<◌, ◌^◌, IfSome};
ghost use Rattle.slice_num.specs.FractionReading.{number_read, fraction_over, unsigned_read};

use crate::numbers::with_sign;
use crate::{Frac, LIMIT};

// The fraction that is written behind the sign.
pub(crate) fn read_unsigned(text: &str, negative: bool) -> Option<Frac>
    ensures { result ≡ unsigned_read negative text.now }
{
    match text.split_once('/') {
        Some((upper, lower)) => over(read_number(upper), read_number(lower), negative),
        None => over(read_number(text), Some(1), negative),
    }
}

// The fraction of both parts, where they are there and the denominator isn't 0.
fn over(num: Option<u128>, den: Option<u128>, negative: bool) -> Option<Frac>
    requires num_fits { IfSome num (λ n. n < 2 ^ 127) }
    requires den_fits { IfSome den (λ d. d < 2 ^ 127) }
    ensures { result ≡ fraction_over negative num den }
{
    let num = num?;
    let den = den?;
    Frac::new(with_sign(num, negative), den as i128).ok()
}

// The number that 1 to 39 digits write, where it fits.
fn read_number(text: &str) -> Option<u128>
    ensures value { result ≡ number_read text.now }
    ensures fits { IfSome result (λ n. n < 2 ^ 127) }
{
    if text.len() > 39 || text.starts_with('+') {
        return None;
    }
    match text.parse::<u128>() {
        Ok(number) => { if number <= LIMIT { Some(number) } else { None } }
        Err(_) => None,
    }
}
