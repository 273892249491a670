//! A scrape of each board.
ghost use Rattle.std.specs.Prelude.{IfOk, IfErr};
ghost use Rattle.scrape_server.specs.Again.{AsksAgain};
ghost use Rattle.scrape_page.specs.Scraping.{AreMade, IsStopped};

use expo_text::Scrape;
use scrape_http::NoScrape;
use scrape_server::{FromState, MakesScrapes, scrape_again};
use std::alloc::Global;

/// A scrape of one board, which is asked again where the scan was given up, up to [`MakesScrapes::again`] times: a registry three
/// times.
///
/// # Errors
///
/// [`NoScrape`], 6 and 14: of 14 there was one more than [`MakesScrapes::again`].
pub(crate) fn scrape_board<X: MakesScrapes>(board: &mut X) -> Result<Scrape, NoScrape>
    ensures { AsksAgain X.made X.again board.old board.new result }
{
    scrape_again(&mut FromState { state: board })
}

/// A scrape of each of these, in order. The memory of the list is taken before the first.
///
/// # Errors
///
/// [`NoScrape`], 6 and 14, of the first that gives none.
pub(crate) fn scrape_each<X: MakesScrapes>(
    alloc: Global,
    boards: &mut Vec<X>,
) -> Result<Vec<Scrape>, NoScrape>
    ensures each { IfOk result (λ parts. AreMade (AsksAgain X.made X.again) boards.old.items boards.new.items parts.items) }
    ensures stopped { IfErr result (IsStopped (AsksAgain X.made X.again) boards.old.items boards.new.items) }
{
    let Ok(mut parts) = Vec::with_capacity(alloc, boards.len()) else {
        return Err(NoScrape::NoMemory);
    };
    for at in 0..boards.len() {
        match scrape_board(&mut boards[at]) {
            // The room was made above.
            Ok(part) => parts.push_reserved(part),
            Err(why) => return Err(why),
        }
    }
    Ok(parts)
}
