//! Why there is no scrape.
ghost use Rattle.std.specs.Prelude.{◌≡◌};
ghost use Rattle.scrape_server.specs.Scrapes.{no_scrape_of};

use registry_state::ScrapeFault;
use scrape_http::NoScrape;

/// Why there is no scrape, as a server is told.
pub(crate) fn no_scrape(fault: ScrapeFault) -> NoScrape
    ensures { result ≡ no_scrape_of fault }
{
    match fault {
        ScrapeFault::NoMemory => NoScrape::NoMemory,
        ScrapeFault::Contended(_) => NoScrape::Contended,
    }
}
