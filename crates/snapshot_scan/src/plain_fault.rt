//! Why a plain source refuses.
ghost use Rattle.std.specs.Prelude.{◌≡◌};
ghost use Rattle.snapshot_scan.specs.Plain.{plain_fault_number};

use ledger_core::OpFault;
use thiserror::Error;

/// Why a plain source refuses a list of operations. Nothing has changed then.
#[derive(Clone, Copy, Debug, PartialEq, Eq, Error)]
pub enum PlainFault {
    /// Refusal 15: as many lists were applied as a `u64` can count.
    #[error("the count of lists is the greatest there is")]
    Exhausted,
    /// Refusals 11 and 12: the first operation that fails, and why.
    #[error("{0}")]
    Refused(OpFault),
}

impl PlainFault {
    /// The refusal's number.
    pub fn number(&self) -> u8
        ensures { result ≡ plain_fault_number self.now }
    {
        match self {
            PlainFault::Exhausted => 15,
            PlainFault::Refused(fault) => fault.number(),
        }
    }
}
