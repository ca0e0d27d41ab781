//! Numbers in decimal.
ghost use Rattle.std.specs.Prelude.{◌≡◌, ◌++◌, OnOk, decimal};

use slice_num::Memory;

/// Puts the digits of a number at the end of a text, without leading zeros. The one error is want of memory.
#[tactic(auto, using(crate::proofs::DigitLemmas::digit_steps))]
pub(crate) fn push_decimal(text: &mut Vec<u8>, value: u64) -> Result<(), Memory>
    ensures { OnOk result (text.new.items ≡ text.old.items ++ decimal value) }
{
    if value >= 10 {
        push_decimal(text, value / 10)?;
    }
    if text.push(b'0' + (value % 10) as u8).is_err() {
        return Err(Memory);
    }
    Ok(())
}
