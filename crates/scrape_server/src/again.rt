//! Scrapes that are asked for again where a scan was given up.
ghost use Rattle.scrape_server.specs.Again.{AsksAgain};

use expo_text::Scrape;
use scrape_http::{NoScrape, ScrapeFrom};

/// A scrape of a source, which is asked again where a scan was given up, as often as it says: up to [`ScrapeFrom::again`] times
/// more. That a scan is given up is rare, since one that fails has the threads that publish rest: docs/HTTP.md has how rare
/// ("Scrapes that are given up").
///
/// # Errors
///
/// [`NoScrape`], 6 and 14: of 14 there was one more than [`ScrapeFrom::again`].
pub fn scrape_again<S: ScrapeFrom>(source: &mut S) -> Result<Scrape, NoScrape>
    ensures { AsksAgain S.gave S.again source.old source.new result }
{
    for _again in 0..source.again() {
        match source.scrape() {
            Err(NoScrape::Contended) => {}
            Err(NoScrape::NoMemory) => return Err(NoScrape::NoMemory),
            Ok(scrape) => return Ok(scrape),
        }
    }
    source.scrape()
}

/// A source that is asked again where a scan was given up: [`scrape_again`]. Its own number is 0, since it has asked.
#[derive(Drop)]
pub struct AskedAgain<S> {
    /// What is asked.
    pub source: S,
}

impl<S: ScrapeFrom> ScrapeFrom for AskedAgain<S> {
    ghost again = { 0 };

    ghost gave = { λ before after answer. AsksAgain S.gave S.again before.source after.source answer };

    fn scrape(&mut self) -> Result<Scrape, NoScrape> {
        scrape_again(&mut self.source)
    }

    fn again(&self) -> usize {
        0
    }
}
