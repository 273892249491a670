//! What any number of threads share, as a source of scrapes: a registry, and a page, behind its lock.
ghost use Rattle.std.specs.Prelude.{◌≡◌, ℕ, IfOk};
ghost use Rattle.expo_text.specs.Scraped.{Scraped};
ghost use Rattle.metric_registry.specs.Naming.{ShowsMoment};
ghost use Rattle.page_crew.specs.Locking.{ShowsMoments};

use expo_text::Scrape;
use metric_registry::{Named, RegistryOf};
use page_crew::PageRegistry;
use scrape_http::{NoScrape, ScrapeFrom};
use scrape_server::FromRegistry;
use std::sync::Wait;

/// What stands behind a lock and is scraped: a [`Registry`](crate::Registry) or a [`PageRegistry`]. It names, for contracts
/// alone, what a scrape of it shows.
pub trait Shared {
    // What a scrape of it shows.
    ghost shows: { Scraped → Type 0 };

    // How many times more it may be asked where a scan was given up.
    ghost again: { ℕ };

    /// A scrape, for which the lock is waited for.
    ///
    /// # Errors
    ///
    /// [`NoScrape`], 6 and 14.
    fn scrape<R: Wait>(&self, rt: &R) -> Result<Scrape, NoScrape>
        ensures { IfOk result shows };

    /// How many times more, at most, it is asked where a scan was given up (14): the same number for all of a type.
    fn again(&self) -> usize
        ensures { result ≡ again };
}

impl<B: Named, const N: usize, const C: usize, const H: usize, const G: usize> Shared
    for RegistryOf<'_, B, N, C, H, G> {
    ghost shows = { ShowsMoment N C H G B.first };

    ghost again = { 3 };

    fn scrape<R: Wait>(&self, rt: &R) -> Result<Scrape, NoScrape> {
        let mut source = FromRegistry { rt, registry: self };
        source.scrape()
    }

    fn again(&self) -> usize {
        3
    }
}

impl<const N: usize, const C: usize, const H: usize, const G: usize> Shared
    for PageRegistry<N, C, H, G> {
    ghost shows = { ShowsMoments N C H G };

    ghost again = { 0 };

    fn scrape<R: Wait>(&self, rt: &R) -> Result<Scrape, NoScrape> {
        PageRegistry::scrape(self, rt)
    }

    /// The page asks each board again by itself, and is not asked again.
    fn again(&self) -> usize {
        0
    }
}

/// What is shared, as a source of scrapes, and the runtime that waits for its lock.
#[derive(Drop)]
pub(crate) struct FromShared<'a, R: Wait, X: Shared> {
    pub(crate) rt: &'a R,
    pub(crate) shared: &'a X,
}

impl<R: Wait, X: Shared> ScrapeFrom for FromShared<'_, R, X> {
    ghost again = { X.again };

    ghost gave = { λ before after answer. (after ≡ before) × IfOk answer X.shows };

    fn scrape(&mut self) -> Result<Scrape, NoScrape> {
        Shared::scrape(self.shared, self.rt)
    }

    fn again(&self) -> usize {
        self.shared.again()
    }
}
