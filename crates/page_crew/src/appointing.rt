//! Scrapers are made, each with its ring.
ghost use Rattle.std.specs.Prelude.{◌≡◌, ℕ, All, length, IfOk};
ghost use Rattle.registry_state.specs.Replay.{nothing};
ghost use Rattle.register_rule.specs.declared.board.Board.{Board};
ghost use Rattle.page_crew.specs.News.{IsOver};
ghost use Rattle.page_crew.specs.Following.{AreScrapers};

use crate::news::PageNews;
use crate::page_scraper::PageScraper;
use crate::shared_scanner::SharedScanner;
use metric_names::NoMemory;
use registry_state::RegistryState;
use rtrb::{Producer, RingBuffer};
use std::alloc::Global;

/// The most that a page can ever tell: 95 boards, 128 families, and 256 children of each.
const ROOM: usize = 95 + 128 + 128 * 256;

/// A ring for each scraper, and the scrapers.
pub(crate) struct Appointed<const N: usize, const C: usize, const H: usize, const G: usize> {
    pub(crate) rings: Vec<Producer<Box<PageNews<N, C, H, G>>>>,
    pub(crate) scrapers: Vec<PageScraper<N, C, H, G>>,
}

/// A scraper with a page of each of these boards, and a ring to it, with room for all that a page can ever tell.
///
/// Refusal 6 [`NoMemory`], and no other.
pub(crate) fn appoint<const N: usize, const C: usize, const H: usize, const G: usize>(
    alloc: Global,
    boards: Vec<RegistryState<SharedScanner<N, C, H, G>, N, C, H, G>>,
) -> Result<Appointed<N, C, H, G>, NoMemory>
    requires { All (λ registry. registry.state ≡ nothing) boards.items }
    ensures { (board : Board N C H G) → (id : ℕ) → All (IsOver board id) boards.entry.items
        → IfOk result (λ made. AreScrapers (length boards.entry.items) board id made.rings.items made.scrapers.items) }
{
    let mut rings = Vec::with_capacity(alloc, boards.len())?;
    let mut scrapers = Vec::with_capacity(alloc, boards.len())?;
    for board in boards {
        let (ring, news) = RingBuffer::new(alloc, ROOM)?;
        rings.push(ring)?;
        scrapers.push(PageScraper::new(alloc, board, news)?)?;
    }
    Ok(Appointed { rings, scrapers })
}
