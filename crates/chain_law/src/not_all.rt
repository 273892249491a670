//! Why there are no exact totals.
ghost use Rattle.std.specs.Prelude.{◌≡◌};

use thiserror::Error;

/// Refusal 18: not all workers are there.
#[derive(Clone, Copy, Debug, PartialEq, Eq, Error)]
#[error("worker {missing} is missing, or not at its place")]
pub struct NotAll {
    /// The least worker that is missing; where each has its place, the least that does not stand there, or how many there are to
    /// be where one is too many.
    pub missing: usize,
}

impl NotAll {
    /// The refusal's number, 18.
    pub fn number(&self) -> u8
        ensures { result ≡ 18 }
    {
        18
    }
}
