//! What C's handles hold, for boards of any geometry.
ghost use Rattle.std.specs.Prelude.{◌≡◌, ◌+◌, ◌*◌, ◌≤◌, length};

use crate::spare::Spare;
use dirgwako::{OnPage, PageRecorder, PageScraper, Registrar};
use ledger_core::Op;
use snapshot_scan::Snapshot;

/// What the numbers of a geometry come to.
#[derive(Clone, Copy)]
pub struct Limits<const N: usize, const C: usize, const H: usize, const G: usize> {
    /// The most changes of one version that C publishes.
    pub most_changes: usize,
    ghost sum: { most_changes ≡ C + H + 2 * G },
    ghost few: { N ≤ 32 },
}

/// What a recorder's handle holds.
#[derive(Drop)]
pub struct HeldRecorder<const N: usize, const C: usize, const H: usize, const G: usize> {
    /// The recorder, of all boards of its page.
    pub recorder: PageRecorder<N, C, H, G>,
    /// Where the operations of a list stand, of the longest that there is.
    pub list: Vec<Op>,
    ghost room: { length list.items ≡ C + H + 2 * G },
}

/// What a scraper's handle holds.
#[derive(Drop)]
pub struct HeldScraper<const N: usize, const C: usize, const H: usize, const G: usize> {
    /// The scraper, with a page of its own.
    pub scraper: PageScraper<N, C, H, G>,
}

/// What a registry's handle holds.
#[derive(Drop)]
pub struct HeldRegistry<const N: usize, const C: usize, const H: usize, const G: usize> {
    /// The page, and what registers by plain texts.
    pub registrar: Registrar<OnPage<N, C, H, G>>,
    /// The recorders that nobody has.
    pub spare: Spare<N, C, H, G>,
    /// The scrapers that nobody has, each in the box that a handle owns, so that handing one out takes no memory.
    pub scrapers: Vec<Box<HeldScraper<N, C, H, G>>>,
    /// Room for the numbers of a moment.
    pub numbers: Snapshot<N, C, H, G>,
}
