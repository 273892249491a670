//! What C calls to have the scrapers of a page.
ghost use Rattle.std.specs.Prelude.{◌≡◌, [], ◌∷◌, ◌++◌, map, MatchOption};
ghost use Rattle.dirgwako_c.specs.Held.{Calls, Frees};
ghost use Rattle.dirgwako_c.specs.Boards.{TellsScrapers};
ghost use Rattle.dirgwako_c.specs.Registries.{unboxed, HandsOutScraper};

use crate::handles::{RegistryHandle, ScraperHandle};
use crate::held::HeldScraper;
use std::alloc::Global;

/// Takes the last of these scrapers.
fn take_last<const N: usize, const C: usize, const H: usize, const G: usize>(
    scrapers: &mut Vec<Box<HeldScraper<N, C, H, G>>>,
) -> Option<Box<HeldScraper<N, C, H, G>>>
    ensures { MatchOption result ((map unboxed scrapers.old.items ≡ []) × (map unboxed scrapers.new.items ≡ []))
        (λ scraper. map unboxed scrapers.old.items ≡ map unboxed scrapers.new.items ++ scraper.value ∷ []) }
{
    scrapers.pop()
}

/// A scraper that nobody has, into a scraper's handle. What that held is freed. Takes no memory.
///
/// Answers 34, the registry's handle is empty; 49, no scraper is left.
#[unsafe(no_mangle)]
pub extern "C" fn dirgwako_c_scraper_take(
    alloc: Global,
    registry: &mut RegistryHandle,
    scraper: &mut ScraperHandle,
) -> u32
    ensures { Calls (scraper.new.value ≡ scraper.old.value)
        (λ before after. HandsOutScraper result before after scraper.old.value scraper.new.value) result
        registry.old.value registry.new.value }
{
    let Some(mut held) = registry.take(alloc) else {
        return 34;
    };
    let taken = take_last(&mut held.scrapers);
    registry.put(alloc, held);
    match taken {
        Some(made) => {
            scraper.put(alloc, made);
            0
        }
        None => 49,
    }
}

/// How many scrapers, taken or not, are told what comes: all that the registry was made with; but none any more after a child was
/// refused for want of memory that had found no slot on the boards of its family.
///
/// Answers 34, the handle is empty.
#[unsafe(no_mangle)]
pub extern "C" fn dirgwako_c_scrapers(
    alloc: Global,
    registry: &mut RegistryHandle,
    count: &mut usize,
) -> u32
    ensures { Calls (count.new ≡ count.old) (λ before after. TellsScrapers result before after count.new) result
        registry.old.value registry.new.value }
{
    let Some(held) = registry.take(alloc) else {
        return 34;
    };
    *count = held.registrar.at.crew.scrapers();
    registry.put(alloc, held);
    0
}

/// Frees a scraper. Nobody has its reader of each board again.
///
/// Answers 34, the handle is empty.
#[unsafe(no_mangle)]
pub extern "C" fn dirgwako_c_scraper_free(alloc: Global, scraper: &mut ScraperHandle) -> u32
    ensures { Frees result scraper.old.value scraper.new.value }
{
    match scraper.take(alloc) {
        Some(_) => 0,
        None => 34,
    }
}
