ghost use Rattle.std.specs.Prelude.{◌≡◌};
ghost use Rattle.ledger_core.specs.Tally.{tally_fault_number};

use thiserror::Error;

/// Why a tally takes no operation. Nothing has changed then.
#[derive(Clone, Copy, Debug, PartialEq, Eq, Error)]
pub enum TallyFault {
    /// Refusal 16: the handle is of another registry.
    #[error("the handle is of another registry")]
    WrongRegistry,
    /// Refusal 11: no such counter, histogram or gauge.
    #[error("the operation is outside the row")]
    Outside,
    /// Refusal 12: a word of the tally would pass 2^48 - 1.
    #[error("the operation would take a word of the tally past 2^48 - 1")]
    TooLarge,
    /// Refusal 33: the tally has no room for one more operation.
    #[error("the tally is full")]
    Full,
}

impl TallyFault {
    /// The refusal's number.
    pub fn number(&self) -> u8
        ensures { result ≡ tally_fault_number self.now }
    {
        match self {
            TallyFault::WrongRegistry => 16,
            TallyFault::Outside => 11,
            TallyFault::TooLarge => 12,
            TallyFault::Full => 33,
        }
    }
}
