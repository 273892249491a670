//! A page is made, with its recorders and scrapers.
ghost use Rattle.std.specs.Prelude.{◌≡◌, map, length, IfOk, IfErr};
ghost use Rattle.dirgwako_c.specs.declared.geometry.TheConstants.{WORKERS, COUNTERS, HISTOGRAMS, GAUGES};
ghost use Rattle.dirgwako_c.specs.Registries.{recorder_in, recorders_in, scraper_in, unboxed, IsNew, IsNewAnswer};

use crate::geometry::{COUNTERS, GAUGES, HISTOGRAMS, MOST_CHANGES, WORKERS};
use crate::held::{HeldRecorder, HeldRegistry, HeldScraper, Limits};
use crate::spare::Spare;
use dirgwako::{OnPage, PageCrew, PageRecorder, PageScraper, Registrar};
use ledger_core::Op;
use snapshot_scan::Snapshot;
use std::alloc::{AllocError, Global};

/// A recorder, in a box of its own.
fn boxed<const N: usize, const C: usize, const H: usize, const G: usize>(
    alloc: Global,
    limits: &Limits<N, C, H, G>,
    recorder: PageRecorder<N, C, H, G>,
) -> Result<Box<HeldRecorder<N, C, H, G>>, AllocError>
    ensures { IfOk result (λ b. recorder_in b.value ≡ recorder.entry) }
{
    let list = vec![in alloc; Op::Inc { counter: 0, by: 0 }; limits.most_changes]?;
    match Box::new(alloc, HeldRecorder { recorder, list }) {
        Ok(made) => Ok(made),
        Err(_) => Err(AllocError),
    }
}

/// These recorders, in order, which nobody has.
fn spare_of<const N: usize, const C: usize, const H: usize, const G: usize>(
    alloc: Global,
    limits: &Limits<N, C, H, G>,
    recorders: Vec<PageRecorder<N, C, H, G>>,
) -> Result<Spare<N, C, H, G>, AllocError>
    requires { length recorders.items ≡ N }
    ensures { IfOk result (λ spare. map recorder_in (recorders_in spare) ≡ recorders.entry.items) }
{
    let mut spare = Spare::new(alloc, limits)?;
    for recorder in recorders {
        let Ok(()) = spare.put(boxed(alloc, limits, recorder)?) else {
            unreachable!()
        };
    }
    Ok(spare)
}

/// These scrapers, in order, each in a box of its own.
fn boxed_scrapers<const N: usize, const C: usize, const H: usize, const G: usize>(
    alloc: Global,
    scrapers: Vec<PageScraper<N, C, H, G>>,
) -> Result<Vec<Box<HeldScraper<N, C, H, G>>>, AllocError>
    ensures { IfOk result (λ made. map scraper_in (map unboxed made.items) ≡ scrapers.entry.items) }
{
    let mut made = Vec::with_capacity(alloc, scrapers.len())?;
    for scraper in scrapers {
        let Ok(boxed) = Box::new(alloc, HeldScraper { scraper }) else {
            return Err(AllocError);
        };
        made.push(boxed)?;
    }
    Ok(made)
}

/// A new page of this id, of one board, which keeps `window` scrapes, its recorders, and so many scrapers, which nobody has.
///
/// # Errors
///
/// 31 unless `window` is 1 to 1,024; then 6, and 13 where the library was built for numbers out of range or there would be over 3
/// scrapers.
pub(crate) fn open(
    alloc: Global,
    id: u32,
    window: usize,
    scrapers: usize,
) -> Result<HeldRegistry<WORKERS, COUNTERS, HISTOGRAMS, GAUGES>, u32>
    ensures new { IfOk result (IsNew id window scrapers) }
    ensures fault { IfErr result (IsNewAnswer WORKERS COUNTERS HISTOGRAMS GAUGES window scrapers) }
{
    let (crew, recorders, scrapers) = match PageCrew::with_scrapers(alloc, id, window, scrapers) {
        Ok(made) => made,
        Err(fault) => return Err(u32::from(fault.number())),
    };
    let limits = Limits {
        most_changes: MOST_CHANGES,
    };
    let Ok(spare) = spare_of(alloc, &limits, recorders) else {
        return Err(6);
    };
    let Ok(scrapers) = boxed_scrapers(alloc, scrapers) else {
        return Err(6);
    };
    let Ok(numbers) = Snapshot::new(alloc) else {
        return Err(6);
    };
    Ok(HeldRegistry {
        registrar: Registrar::of(alloc, OnPage { crew, group: 0 }),
        spare,
        scrapers,
        numbers,
    })
}
