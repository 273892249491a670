//! The scrape that a registry gives: all its memory is taken before the scan, and its numbers are written after it.
ghost use Rattle.std.specs.Prelude.{◌≡◌, ◌<◌, length, map, All, IfOk};
ghost use Rattle.snapshot_scan.specs.Snapshots.{as_answer};
ghost use Rattle.registry_state.specs.Replay.{slots};
ghost use Rattle.registry_state.specs.Shown.{value_at, child_shown, family_shown, IsShown};
ghost use Rattle.registry_state.specs.Held.{IsOrder};
ghost use Rattle.registry_state.specs.Filled.{zero_of, child_blank, family_blank, blanks, arranged, AreWithin, IsFillable};

use crate::family::{Child, Family};
use expo_text::{ChildScrape, FamilyScrape, Number, Scrape};
use ledger_core::{GaugeTotals, HistTotals};
use metric_desc::Kind;
use metric_names::NoMemory;
use snapshot_scan::Snapshot;
use std::alloc::Global;
use std::sync::Arc;

/// The number of this kind where nothing was counted.
fn zero(kind: Kind) -> Number
    ensures { result ≡ zero_of kind }
{
    match kind {
        Kind::Counter => Number::Counter(0),
        Kind::Histogram => Number::Histogram(HistTotals {
            buckets: [0; 25],
            sum: 0,
            count: 0,
        }),
        Kind::Gauge => Number::Gauge(GaugeTotals { up: 0, down: 0 }),
    }
}

/// A family with zeros. Its descriptor and the label values of its children are shared.
///
/// Refusal 6 [`NoMemory`], and no other.
fn blank_family(alloc: Global, family: &Family) -> Result<FamilyScrape, NoMemory>
    ensures { IfOk result (λ shown. shown ≡ family_blank family.now) }
{
    let kind = family.desc.kind();
    let mut children = Vec::with_capacity(alloc, family.children.len())?;
    for child in &family.children {
        let values = Arc::try_clone(&child.values)?;
        children.push(ChildScrape {
            values,
            number: zero(kind),
        })?;
    }
    let desc = Arc::try_clone(&family.desc)?;
    Ok(FamilyScrape { desc, children })
}

/// The families, in this order of their numbers, with zeros.
///
/// Refusal 6 [`NoMemory`], and no other.
fn blank_families(
    alloc: Global,
    families: &[Family],
    order: &[usize],
) -> Result<Vec<FamilyScrape>, NoMemory>
    requires { All (λ family. family < length families.now) order.now }
    ensures { IfOk result (λ shown. shown.items ≡ blanks families.now order.now) }
{
    let mut shown = Vec::with_capacity(alloc, order.len())?;
    for family in order {
        shown.push(blank_family(alloc, &families[*family])?)?;
    }
    Ok(shown)
}

/// The number of a slot in a snapshot.
fn value_of<const N: usize, const C: usize, const H: usize, const G: usize>(
    snapshot: &Snapshot<N, C, H, G>,
    kind: Kind,
    slot: usize,
) -> Number
    requires { slot < slots C H G kind }
    ensures { result ≡ value_at C H snapshot.now.totals kind slot }
{
    match kind {
        Kind::Counter => Number::Counter(snapshot.counter(slot)),
        Kind::Histogram => Number::Histogram(snapshot.hist(slot)),
        Kind::Gauge => Number::Gauge(snapshot.gauge_totals(slot)),
    }
}

/// Writes the numbers of the slots of children of one kind over their zeros.
fn fill_children<const N: usize, const C: usize, const H: usize, const G: usize>(
    shown: &mut [ChildScrape],
    children: &[Child],
    kind: Kind,
    snapshot: &Snapshot<N, C, H, G>,
)
    requires blank { shown.old ≡ map (child_blank kind) children.now }
    requires slots { All (λ child. child.slot < slots C H G kind) children.now }
    ensures { shown.new ≡ map (child_shown C H snapshot.now.totals kind) children.now }
{
    for (place, child) in children.iter().enumerate() {
        let one = &mut shown[place];
        one.number = value_of(snapshot, kind, child.slot);
    }
}

/// Writes the values of the slots of a family's children over their zeros.
fn fill_family<const N: usize, const C: usize, const H: usize, const G: usize>(
    shown: &mut FamilyScrape,
    family: &Family,
    snapshot: &Snapshot<N, C, H, G>,
)
    requires blank { shown.old ≡ family_blank family.now }
    requires slots { AreWithin C H G family.now }
    ensures { shown.new ≡ family_shown C H snapshot.now.totals family.now }
{
    fill_children(
        &mut shown.children,
        &family.children,
        family.desc.kind(),
        snapshot,
    );
}

/// Writes the values of the families, in this order of their numbers, over their zeros. It takes no memory.
fn fill_families<const N: usize, const C: usize, const H: usize, const G: usize>(
    shown: &mut [FamilyScrape],
    families: &[Family],
    order: &[usize],
    snapshot: &Snapshot<N, C, H, G>,
)
    requires blank { shown.old ≡ blanks families.now order.now }
    requires order { All (λ family. family < length families.now) order.now }
    requires slots { All (AreWithin C H G) families.now }
    ensures { shown.new ≡ arranged C H snapshot.now.totals families.now order.now }
{
    for (place, family) in order.iter().enumerate() {
        fill_family(&mut shown[place], &families[*family], snapshot);
    }
}

/// A scrape without its numbers: what it takes of memory.
#[derive(Drop)]
pub(crate) struct Blank {
    vector: Vec<u64>,
    families: Vec<FamilyScrape>,
}

impl Blank {
    ghost use Rattle.registry_state.specs.Filled.{blanks};

    /// A scrape of `workers` workers and of these families, without its numbers. The descriptors of the families and the values
    /// of their children are shared.
    ///
    /// Refusal 6 [`NoMemory`], and no other.
    pub(crate) fn new(
        alloc: Global,
        workers: usize,
        families: &[Family],
        order: &[usize],
    ) -> Result<Blank, NoMemory>
        requires { IsOrder families.now order.now }
        ensures vector { IfOk result (λ blank. length blank.vector.items ≡ workers) }
        ensures families { IfOk result (λ blank. blank.families.items ≡ blanks families.now order.now) }
    {
        let vector = vec![in alloc; 0u64; workers]?;
        let families = blank_families(alloc, families, order)?;
        Ok(Blank { vector, families })
    }

    /// The scrape of the families at a snapshot. Takes no memory.
    pub(crate) fn fill<const N: usize, const C: usize, const H: usize, const G: usize>(
        self,
        families: &[Family],
        order: &[usize],
        snapshot: &Snapshot<N, C, H, G>,
    ) -> Scrape
        requires { IsFillable N C H G self.vector.items self.families.items families.now order.now (as_answer snapshot.now) }
        ensures { IsShown C H families.now (as_answer snapshot.now) result }
    {
        let mut vector = self.vector;
        vector.as_mut_slice().copy_from_slice(snapshot.vector());
        let mut shown = self.families;
        fill_families(&mut shown, families, order, snapshot);
        Scrape::new(vector, shown)
    }
}
