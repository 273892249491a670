//! Why a request was not answered whole.
ghost use Rattle.std.specs.Prelude.{◌≡◌};
ghost use Rattle.scrape_http.specs.Serves.{number_of};

use thiserror::Error;

/// Why a request was not answered whole.
#[derive(Clone, Copy, Debug, PartialEq, Eq, Error)]
pub enum WireFault {
    /// Refusal 24: a read failed before the request was whole. Nothing was written.
    #[error("a read failed before the request was whole")]
    ReadFailed,
    /// Refusal 25: a write or the flush failed, or a write took no byte. The writer has taken the first `sent` bytes of the
    /// reply, and no more.
    #[error("the writer failed after {sent} bytes of the reply")]
    WriteFailed { sent: usize },
    /// Refusal 26: the input ended before its first byte. Nothing was written.
    #[error("the input ended before the request")]
    EndBeforeHead,
}

impl WireFault {
    /// The refusal's number.
    pub fn number(&self) -> u8
        ensures { result ≡ number_of self.now }
    {
        match self {
            WireFault::ReadFailed => 24,
            WireFault::WriteFailed { .. } => 25,
            WireFault::EndBeforeHead => 26,
        }
    }
}
