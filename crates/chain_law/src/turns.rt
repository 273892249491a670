//! Turns of workers, and why a list of snapshots has no history.
ghost use Rattle.std.specs.Prelude.{◌≡◌};
ghost use Rattle.chain_law.specs.History.{chain_fault_number};

use std::alloc::AllocError;
use thiserror::Error;

/// A turn of a history: this worker publishes so often. Between two snapshots the turns stand by worker, which need not be
/// the order in which the workers ran.
#[derive(Clone, Copy, Debug, PartialEq, Eq)]
pub struct Turn {
    /// The worker, from 0.
    pub worker: usize,
    /// How often it published, at least once.
    pub by: u64,
}

/// Why no history is given.
#[derive(Clone, Copy, Debug, PartialEq, Eq, Error)]
pub enum ChainFault {
    /// Refusal 17: at some place snapshot `b` has a smaller number than its neighbour `a`, which is `b - 1`. They are the
    /// first two of which this is so.
    #[error("snapshot {b} is below snapshot {a}")]
    NotChain { a: usize, b: usize },
    /// Refusal 6: a growth was refused.
    #[error("no memory")]
    NoMemory,
}

impl From<AllocError> for ChainFault {
    ghost use Rattle.std.specs.Prelude.{◌≡◌};
    ghost use Rattle.chain_law.specs.declared.turns.ChainFault.TheVariants.{NoMemory};

    ghost from_gives = { λ _ e. e ≡ NoMemory };

    fn from(_error: AllocError) -> ChainFault {
        ChainFault::NoMemory
    }
}

impl ChainFault {
    /// The refusal's number.
    pub fn number(&self) -> u8
        ensures { result ≡ chain_fault_number self.now }
    {
        match self {
            ChainFault::NotChain { .. } => 17,
            ChainFault::NoMemory => 6,
        }
    }
}
