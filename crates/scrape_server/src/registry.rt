//! Scrapes of a registry behind its lock.
ghost use Rattle.std.specs.Prelude.{◌≡◌, IfOk};
ghost use Rattle.metric_registry.specs.Naming.{ShowsMoment};

use crate::fault::no_scrape;
use expo_text::Scrape;
use metric_registry::{Named, RegistryOf};
use scrape_http::{NoScrape, ScrapeFrom};
use std::alloc::AllocError;
use std::sync::Wait;

/// A registry behind its lock, as a source of scrapes. A scrape waits for the lock, which is free again before the text is made.
///
/// A scrape shows one moment of a history of publishes, and the families that were registered before the lock, where the registry
/// names them. That it is the newest moment of this registry only tests show.
pub struct FromRegistry<
    'a,
    'b,
    T: Wait,
    B: Named,
    const N: usize,
    const C: usize,
    const H: usize,
    const G: usize,
> {
    /// The runtime that waits.
    pub rt: &'a T,
    /// The registry.
    pub registry: &'a RegistryOf<'b, B, N, C, H, G>,
}

impl<T: Wait, B: Named, const N: usize, const C: usize, const H: usize, const G: usize> Clone
    for FromRegistry<'_, '_, T, B, N, C, H, G> {
    fn clone(&self) -> Result<Self, AllocError> {
        Ok(*self)
    }
}

impl<T: Wait, B: Named, const N: usize, const C: usize, const H: usize, const G: usize> Copy
    for FromRegistry<'_, '_, T, B, N, C, H, G> {}

impl<T: Wait, B: Named, const N: usize, const C: usize, const H: usize, const G: usize> ScrapeFrom
    for FromRegistry<'_, '_, T, B, N, C, H, G> {
    ghost again = { 3 };

    ghost gave = { λ before after answer. (after ≡ before) × IfOk answer (ShowsMoment N C H G B.first) };

    /// The registry's scrape.
    fn scrape(&mut self) -> Result<Scrape, NoScrape> {
        match self.registry.scrape(self.rt) {
            Ok(scrape) => Ok(scrape),
            Err(fault) => Err(no_scrape(fault)),
        }
    }

    fn again(&self) -> usize {
        3
    }
}
