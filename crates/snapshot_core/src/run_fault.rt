ghost use Rattle.std.specs.Prelude.{◌≡◌};
ghost use Rattle.snapshot_core.specs.Runs.{number_of};

use std::alloc::AllocError;
use thiserror::Error;

/// Why a list of events is not run.
#[derive(Clone, Copy, Debug, PartialEq, Eq, Error)]
pub enum RunFault {
    /// Refusal 13: the number of workers is not 1 to 32.
    #[error("the number of workers is out of range")]
    Geometry,
    /// Refusal 6: a growth was refused.
    #[error("no memory")]
    NoMemory,
}

impl From<AllocError> for RunFault {
    ghost use Rattle.std.specs.Prelude.{◌≡◌};
    ghost use Rattle.snapshot_core.specs.declared.run_fault.RunFault.TheVariants.{NoMemory};

    ghost from_gives = { λ _ e. e ≡ NoMemory };

    fn from(_error: AllocError) -> RunFault {
        RunFault::NoMemory
    }
}

impl RunFault {
    /// The refusal's number.
    pub fn number(&self) -> u8
        ensures { result ≡ number_of self.now }
    {
        match self {
            RunFault::Geometry => 13,
            RunFault::NoMemory => 6,
        }
    }
}
