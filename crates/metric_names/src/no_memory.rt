use std::alloc::{AllocError, AllocFailed};
use thiserror::Error;

/// Refusal 6: a growth was refused. Of calls that can fail by nothing else.
#[derive(Clone, Copy, Debug, PartialEq, Eq, Error)]
#[error("out of memory")]
pub struct NoMemory;

impl NoMemory {
    ghost use Rattle.std.specs.Prelude.{◌≡◌};

    /// The refusal's number.
    pub fn number(&self) -> u8
        ensures { result ≡ 6 }
    {
        6
    }
}

impl From<AllocError> for NoMemory {
    fn from(_error: AllocError) -> NoMemory {
        NoMemory
    }
}

impl<T: Drop> From<AllocFailed<T>> for NoMemory {
    fn from(_error: AllocFailed<T>) -> NoMemory {
        NoMemory
    }
}
