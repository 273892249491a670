//! What C holds may go to another thread.
ghost use Rattle.std.specs.Prelude.{◌≡◌};

use crate::handles::{RecorderHandle, RegistryHandle, ScraperHandle};

/// What may go to another thread, as it was.
fn sent<T: Send>(held: T) -> T
    ensures { result ≡ held }
{
    held
}

/// A recorder's handle may go to another thread.
pub fn recorder_sent(handle: RecorderHandle) -> RecorderHandle
    ensures { result ≡ handle }
{
    sent(handle)
}

/// A registry's may.
pub fn registry_sent(handle: RegistryHandle) -> RegistryHandle
    ensures { result ≡ handle }
{
    sent(handle)
}

/// A scraper's may.
pub fn scraper_sent(handle: ScraperHandle) -> ScraperHandle
    ensures { result ≡ handle }
{
    sent(handle)
}
