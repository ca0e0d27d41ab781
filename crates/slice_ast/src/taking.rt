//! What takes the tokens of a program, one after the other.
use slice_num::Memory;

/// Takes the tokens of a text in order: `after` says what it is after one more.
pub(crate) trait TakesTokens {
    ghost use Rattle.std.specs.Prelude.{List, ℕ, ◌≡◌, OnOk, decimal};

    ghost after: { Self → List ℕ → Self };

    /// Takes the bytes of a word or a sign. The one error is want of memory.
    fn put(&mut self, token: &[u8]) -> Result<(), Memory>
        ensures { OnOk result (self.new ≡ after self.old token.now) };

    /// Takes a number, in decimal without leading zeros. The one error is want of memory.
    fn put_number(&mut self, value: u64) -> Result<(), Memory>
        ensures { OnOk result (self.new ≡ after self.old (decimal value)) };
}
