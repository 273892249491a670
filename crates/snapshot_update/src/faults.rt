//! Why a worker refuses.
ghost use Rattle.std.specs.Prelude.{◌≡◌};
ghost use Rattle.snapshot_update.specs.Faults.{apply_fault_number, count_fault_number};

use ledger_core::OpFault;
use thiserror::Error;

/// Why a worker refuses a list of operations. Nothing has changed then.
#[derive(Clone, Copy, Debug, PartialEq, Eq, Error)]
pub enum ApplyFault {
    /// Refusal 15: the worker has published as often as a `u64` can count.
    #[error("the worker's number is the greatest there is")]
    Exhausted,
    /// Refusals 11 and 12: the first operation that fails, and why.
    #[error("{0}")]
    Refused(OpFault),
}

impl ApplyFault {
    /// The refusal's number.
    pub fn number(&self) -> u8
        ensures { result ≡ apply_fault_number self.now }
    {
        match self {
            ApplyFault::Exhausted => 15,
            ApplyFault::Refused(fault) => fault.number(),
        }
    }
}

/// Why a worker refuses to count by a handle. Nothing has changed then.
#[derive(Clone, Copy, Debug, PartialEq, Eq, Error)]
pub enum CountFault {
    /// Refusal 16: the handle is of another registry.
    #[error("the handle is of another registry")]
    WrongRegistry,
    /// Refusals 15, 11 and 12.
    #[error("{0}")]
    Apply(ApplyFault),
}

impl CountFault {
    /// The refusal's number.
    pub fn number(&self) -> u8
        ensures { result ≡ count_fault_number self.now }
    {
        match self {
            CountFault::WrongRegistry => 16,
            CountFault::Apply(fault) => fault.number(),
        }
    }
}
