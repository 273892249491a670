//! Why a crew is not opened.
ghost use Rattle.std.specs.Prelude.{◌≡◌};

use registry_state::NewFault;
use thiserror::Error;

/// Why a crew is not opened.
#[derive(Clone, Copy, Debug, PartialEq, Eq, Error)]
pub enum OpenFault {
    /// Refusal 32: it was opened before.
    #[error("32: the crew was opened before")]
    Opened,
    /// Refusals 31 and 6 of the registry, and 6 of the recorders and scanners.
    #[error("{}: {}", .0.number(), .0)]
    Registry(NewFault),
}

impl OpenFault {
    ghost use Rattle.dirgwako.specs.Crews.{open_fault_number};

    /// The refusal's number.
    pub fn number(&self) -> u8
        ensures { result ≡ open_fault_number self.now }
    {
        match self {
            OpenFault::Opened => 32,
            OpenFault::Registry(fault) => fault.number(),
        }
    }
}
