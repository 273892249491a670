ghost use Rattle.std.specs.Prelude.{◌≡◌};

use thiserror::Error;

/// By how many decimal digits a text shifts a family's numbers at most.
pub const MAX_DIGITS: u8 = 9;

/// Refusal 43: a text shifts numbers by at most 9 decimal digits.
#[derive(Clone, Copy, Debug, PartialEq, Eq, Error)]
#[error("a family's numbers are shifted by more than 9 digits")]
pub struct TooManyDigits;

impl TooManyDigits {
    /// The refusal's number.
    pub fn number(&self) -> u8
        ensures { result ≡ 43 }
    {
        43
    }
}
