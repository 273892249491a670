//! Scrapes that a board keeps, and that nobody is given.
ghost use Rattle.scrape_server.specs.Scrapes.{Scrapes};
ghost use Rattle.scrape_page.specs.Scraping.{BoardScrapes};
ghost use Rattle.scrape_page.specs.Unshown.{Unshown};

use registry_state::{RegistryState, ScrapeFault};
use scrape_http::NoScrape;
use snapshot_scan::Source;

/// How many times more a board is asked whose scan was given up.
const AGAIN: usize = 3;

/// Keeps a scrape of a board.
fn keep_once<S: Source<N, C, H, G>, const N: usize, const C: usize, const H: usize, const G: usize>(
    board: &mut RegistryState<S, N, C, H, G>,
) -> Result<(), NoScrape>
    ensures { Unshown (Scrapes N C H G S.recorded S.quit S.gave S.gave_up) board.old board.new result }
{
    match board.keep() {
        Ok(()) => Ok(()),
        Err(ScrapeFault::NoMemory) => Err(NoScrape::NoMemory),
        Err(ScrapeFault::Contended(_)) => Err(NoScrape::Contended),
    }
}

/// Keeps a scrape of a board, which is asked again up to three times where its scan was given up.
///
/// # Errors
///
/// [`NoScrape`], 6 and 14: of 14 there were four.
pub(crate) fn keep_again<
    S: Source<N, C, H, G>,
    const N: usize,
    const C: usize,
    const H: usize,
    const G: usize,
>(board: &mut RegistryState<S, N, C, H, G>) -> Result<(), NoScrape>
    ensures { Unshown (BoardScrapes N C H G S.recorded S.quit S.gave S.gave_up) board.old board.new result }
{
    for _again in 0..AGAIN {
        match keep_once(board) {
            Err(NoScrape::Contended) => {}
            Err(NoScrape::NoMemory) => return Err(NoScrape::NoMemory),
            Ok(()) => return Ok(()),
        }
    }
    keep_once(board)
}
