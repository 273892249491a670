ghost use Rattle.std.specs.Prelude.{◌≡◌};
ghost use Rattle.ledger_core.specs.OpFault.{number_of};

use thiserror::Error;

/// Why a row refuses a list of operations: the first that fails stands at the place `at`, from 0.
#[derive(Clone, Copy, Debug, PartialEq, Eq, Error)]
pub enum OpFault {
    /// Refusal 11: no such counter, histogram or gauge, or a bucket over 24.
    #[error("the operation at {at} is outside the row")]
    OutOfGeometry { at: usize },
    /// Refusal 12: a word would pass 2^48 - 1.
    #[error("the operation at {at} would take a word past 2^48 - 1")]
    TooLarge { at: usize },
}

impl OpFault {
    /// The refusal's number.
    pub fn number(&self) -> u8
        ensures { result ≡ number_of self.now }
    {
        match self {
            OpFault::OutOfGeometry { .. } => 11,
            OpFault::TooLarge { .. } => 12,
        }
    }
}
