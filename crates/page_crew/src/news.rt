//! What a page's owner tells its scrapers, each by a ring of its own.
ghost use Rattle.std.specs.Prelude.{◌≡◌, ◌<◌, ◌↔◌, length, All, IfOk, IsTrue};
ghost use Rattle.rtrb.specs.Ring.{known_free};
ghost use Rattle.page_crew.specs.Rings.{AreGiven};
ghost use Rattle.page_crew.specs.News.{AreReady, AreBoardNews, IsChildNews, IsFamilyNews};

use crate::rings::give;
use crate::shared_scanner::SharedScanner;
use metric_desc::Desc;
use metric_names::{LabelValue, NoMemory};
use registry_state::RegistryState;
use rtrb::Producer;
use scrape_page::PageFamilyId;
use std::alloc::Global;

/// A change of a page, as a scraper makes it on a page of its own.
#[derive(Drop)]
pub enum PageNews<const N: usize, const C: usize, const H: usize, const G: usize> {
    /// A board came. This is a registry of the scraper's own over it.
    Board(RegistryState<SharedScanner<N, C, H, G>, N, C, H, G>),
    /// A family of this descriptor was registered in this group.
    Family {
        /// What the family is.
        desc: Desc,
        /// Its group.
        group: u64,
    },
    /// A child of these values was made, of this family.
    Child {
        /// The family's number.
        family: PageFamilyId,
        /// Its label values.
        values: Vec<LabelValue>,
    },
}

/// Whether each of these rings has room for one thing more.
fn have_room<const N: usize, const C: usize, const H: usize, const G: usize>(
    rings: &[Producer<Box<PageNews<N, C, H, G>>>],
) -> bool
    ensures { IsTrue result ↔ All (λ p. 0 < known_free p) rings.now }
{
    for ring in rings {
        if ring.cached_slots() == 0 {
            return false;
        }
    }
    true
}

/// That a board came, for each of these rings: a scraper's registry over the board each.
///
/// Refusal 6 [`NoMemory`], and no other.
pub(crate) fn board_news<const N: usize, const C: usize, const H: usize, const G: usize>(
    alloc: Global,
    rings: &[Producer<Box<PageNews<N, C, H, G>>>],
    registries: Vec<RegistryState<SharedScanner<N, C, H, G>, N, C, H, G>>,
) -> Result<Vec<Box<PageNews<N, C, H, G>>>, NoMemory>
    requires { length registries.items ≡ length rings.now }
    ensures { IfOk result (λ news. AreBoardNews registries.entry.items rings.now news.items) }
{
    if !have_room(rings) {
        return Err(NoMemory);
    }
    let mut news = Vec::with_capacity(alloc, rings.len())?;
    for registry in registries {
        news.push(Box::new(alloc, PageNews::Board(registry))?)?;
    }
    Ok(news)
}

/// That this family was registered, for each of these rings.
///
/// Refusal 6 [`NoMemory`], and no other.
pub(crate) fn family_news<const N: usize, const C: usize, const H: usize, const G: usize>(
    alloc: Global,
    rings: &[Producer<Box<PageNews<N, C, H, G>>>],
    desc: &Desc,
    group: u64,
) -> Result<Vec<Box<PageNews<N, C, H, G>>>, NoMemory>
    ensures { IfOk result (λ news. AreReady (IsFamilyNews desc.now group) rings.now news.items) }
{
    if !have_room(rings) {
        return Err(NoMemory);
    }
    let mut news = Vec::with_capacity(alloc, rings.len())?;
    for _ring in 0..rings.len() {
        let desc = desc.copy()?;
        news.push(Box::new(alloc, PageNews::Family { desc, group })?)?;
    }
    Ok(news)
}

/// Equal values, in memory of their own.
///
/// Refusal 6 [`NoMemory`], and no other.
fn copies_of(alloc: Global, values: &[LabelValue]) -> Result<Vec<LabelValue>, NoMemory>
    ensures { IfOk result (λ copies. copies.items ≡ values.now) }
{
    let mut copies = Vec::with_capacity(alloc, values.len())?;
    for value in values {
        copies.push(value.copy()?)?;
    }
    Ok(copies)
}

/// That a child of these values was made, for each of these rings.
///
/// Refusal 6 [`NoMemory`], and no other.
pub(crate) fn child_news<const N: usize, const C: usize, const H: usize, const G: usize>(
    alloc: Global,
    rings: &[Producer<Box<PageNews<N, C, H, G>>>],
    family: PageFamilyId,
    values: &[LabelValue],
) -> Result<Vec<Box<PageNews<N, C, H, G>>>, NoMemory>
    ensures { IfOk result (λ news. AreReady (IsChildNews family.number values.now) rings.now news.items) }
{
    if !have_room(rings) {
        return Err(NoMemory);
    }
    let mut news = Vec::with_capacity(alloc, rings.len())?;
    for _ring in 0..rings.len() {
        let values = copies_of(alloc, values)?;
        news.push(Box::new(alloc, PageNews::Child { family, values })?)?;
    }
    Ok(news)
}

/// Gives each ring the next of these news.
pub(crate) fn tell<const N: usize, const C: usize, const H: usize, const G: usize>(
    rings: &mut [Producer<Box<PageNews<N, C, H, G>>>],
    news: Vec<Box<PageNews<N, C, H, G>>>,
)
    requires many { length news.items ≡ length rings.old }
    requires room { All (λ p. 0 < known_free p) rings.old }
    ensures { AreGiven rings.old rings.new news.entry.items }
{
    give(rings, news);
}
