//! What C calls for the text of a scrape.
ghost use Rattle.std.specs.Prelude.{◌≡◌, ◌≤◌, length, take, IfOk, IfErr};
ghost use Rattle.dirgwako.specs.Printing.{IsText, IsTextFault};
ghost use Rattle.dirgwako_c.specs.Held.{Calls};
ghost use Rattle.dirgwako_c.specs.Registries.{scrapes_by, scrapes_alone, PrintsTo};

use crate::buffers::hand_over;
use crate::handles::{RegistryHandle, ScraperHandle};
use crate::held::{HeldRegistry, HeldScraper};
use dirgwako::{NoScrape, Scrape, TextFault, render};
use scrape_http::ScrapeFrom;
use std::alloc::Global;

impl<const N: usize, const C: usize, const H: usize, const G: usize> ScrapeFrom
    for HeldRegistry<N, C, H, G> {
    ghost again = { 0 };

    ghost gave = { scrapes_by };

    fn scrape(&mut self) -> Result<Scrape, NoScrape> {
        self.registrar.at.crew.scrape()
    }

    /// The page asks each board again by itself, and is not asked again.
    fn again(&self) -> usize {
        0
    }
}

impl<const N: usize, const C: usize, const H: usize, const G: usize> ScrapeFrom
    for HeldScraper<N, C, H, G> {
    ghost again = { 0 };

    ghost gave = { scrapes_alone };

    fn scrape(&mut self) -> Result<Scrape, NoScrape> {
        self.scraper.scrape()
    }

    /// Its page asks each board again by itself, and is not asked again.
    fn again(&self) -> usize {
        0
    }
}

/// The text of a scrape.
fn text_of<S: ScrapeFrom>(source: &mut S) -> Result<Vec<u8>, TextFault>
    ensures text { IfOk result (λ bytes. IsText S.gave 0 source.old source.new bytes.items) }
    ensures fault { IfErr result (IsTextFault S.gave 0 source.old source.new) }
{
    match source.scrape() {
        Ok(scrape) => match render(&scrape) {
            Ok(text) => Ok(text),
            Err(_) => Err(TextFault::NoMemory),
        },
        Err(NoScrape::NoMemory) => Err(TextFault::NoMemory),
        Err(NoScrape::Contended) => Err(TextFault::Contended),
    }
}

/// The text of a scrape, at the front of a buffer that has room for it.
fn print_to<S: ScrapeFrom>(source: &mut S, buffer: &mut [u8], len: &mut usize) -> u32
    ensures { PrintsTo S.gave result source.old source.new buffer.old buffer.new len.old len.new }
{
    match text_of(source) {
        Ok(text) => hand_over(&text, buffer, len),
        Err(fault) => u32::from(fault.number()),
    }
}

/// The text of a scrape of all boards, in the text exposition format 0.0.4: all series of a board at one moment. It stands at the
/// front of the buffer, and `len` is how many bytes it has.
///
/// Answers 34, the handle is empty; 14, four scans of a board were given up, one after the other; 6, out of memory; 37, the
/// buffer is too short: `len` tells how many bytes this text has, and a later one may have more. The scrape is kept then as well,
/// and at 6 where its text alone found none; at 14, and at 6 of a board, the boards before it have kept theirs.
#[unsafe(no_mangle)]
pub extern "C" fn dirgwako_c_scrape(
    alloc: Global,
    registry: &mut RegistryHandle,
    buffer: &mut [u8],
    len: &mut usize,
) -> u32
    ensures { Calls ((buffer.new ≡ buffer.old) × (len.new ≡ len.old)) (λ before after. PrintsTo scrapes_by result before after
        buffer.old
        buffer.new len.old len.new) result registry.old.value registry.new.value }
{
    let Some(mut held) = registry.take(alloc) else {
        return 34;
    };
    let answer = print_to(&mut *held, buffer, len);
    registry.put(alloc, held);
    answer
}

/// The text of a scrape by a scraper, of all that is registered by then. As [`dirgwako_c_scrape`], beside the registry and other
/// scrapers.
///
/// Answers 34, the handle is empty; 14, four scans of a board were given up, one after the other; 6, out of memory; 37, the
/// buffer is too short: `len` tells how many bytes this text has, and a later one may have more.
#[unsafe(no_mangle)]
pub extern "C" fn dirgwako_c_scraper_scrape(
    alloc: Global,
    scraper: &mut ScraperHandle,
    buffer: &mut [u8],
    len: &mut usize,
) -> u32
    ensures { Calls ((buffer.new ≡ buffer.old) × (len.new ≡ len.old)) (λ before after. PrintsTo scrapes_alone result before after
        buffer.old
        buffer.new len.old len.new) result scraper.old.value scraper.new.value }
{
    let Some(mut held) = scraper.take(alloc) else {
        return 34;
    };
    let answer = print_to(&mut *held, buffer, len);
    scraper.put(alloc, held);
    answer
}
