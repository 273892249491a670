ghost use Rattle.std.specs.Prelude.{◌≡◌};
ghost use Rattle.register_rule.specs.Faults.{number_of};

use std::alloc::AllocError;
use thiserror::Error;

/// Why no board is made.
#[derive(Clone, Copy, Debug, PartialEq, Eq, Error)]
pub enum BoardFault {
    /// Refusal 13: workers are not 1 to 32, counters over 256, histograms over 32, gauges over 64, or readers not
    /// 1 to 4.
    #[error("13: 1 to 32 workers, at most 256 counters, 32 histograms, 64 gauges, and 1 to 4 readers")]
    Geometry,
    /// Refusal 6: a growth was refused.
    #[error("6: out of memory")]
    NoMemory,
}

impl From<AllocError> for BoardFault {
    ghost use Rattle.std.specs.Prelude.{◌≡◌};
    ghost use Rattle.register_rule.specs.declared.board_fault.BoardFault.TheVariants.{NoMemory};

    ghost from_gives = { λ _ e. e ≡ NoMemory };

    fn from(_error: AllocError) -> BoardFault {
        BoardFault::NoMemory
    }
}

impl BoardFault {
    /// The refusal's number.
    pub fn number(&self) -> u8
        ensures { result ≡ number_of self.now }
    {
        match self {
            BoardFault::Geometry => 13,
            BoardFault::NoMemory => 6,
        }
    }
}
