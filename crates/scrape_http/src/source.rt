//! Where a server gets its scrapes.
ghost use Rattle.std.specs.Prelude.{◌≡◌, ℕ, Result};
ghost use Rattle.expo_text.specs.Scraped.{Scraped};
ghost use Rattle.scrape_http.specs.declared.source.NoScrape.{NoScrape};

use expo_text::Scrape;

/// Why a source has no scrape to give. A server replies 503 to both.
#[derive(Clone, Copy, Debug, PartialEq, Eq)]
pub enum NoScrape {
    /// Refusal 14: the scan was given up: some worker's number rose in each try, and nobody lent its view.
    Contended,
    /// Refusal 6: a growth was refused.
    NoMemory,
}

/// Where a server gets its scrapes. Each source names, for contracts alone, what one scrape does to it (`gave`).
pub trait ScrapeFrom {
    // How many times more it may be asked where a scan was given up.
    ghost again: { ℕ };

    // What a scrape says of the source before it, of the source after it, and of its outcome.
    ghost gave: { Self → Self → Result Scraped NoScrape → Type 0 };

    /// Makes a scrape.
    ///
    /// # Errors
    ///
    /// [`NoScrape`], to which a server replies 503.
    fn scrape(&mut self) -> Result<Scrape, NoScrape>
        ensures { gave self.old self.new result };

    /// How many times more, at most, whoever serves or prints its scrapes asks it where a scan was given up (14): the same number
    /// for all sources of a type. [`serve_one`](crate::serve_one) asks once.
    fn again(&self) -> usize
        ensures { result ≡ again };
}
