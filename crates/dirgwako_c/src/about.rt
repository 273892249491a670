//! What C asks without a registry.
ghost use Rattle.std.specs.Prelude.{◌≡◌, ◌⊎◌, ◌+◌, ◌*◌, IsUtf8};
ghost use Rattle.ledger_core.specs.Ops.{width};
ghost use Rattle.dirgwako_c.specs.About.{IsNameAnswer};

use crate::change::Change;
use crate::family::CounterFamily;
use crate::geometry::{COUNTERS, GAUGES, HISTOGRAMS, MOST_CHANGES, NUMBERS, WORKERS};
use crate::numbers::HistogramTotals;
use crate::texts::text;
use ledger_core::{Counter, Gauge, Histogram};
use metric_names::MetricName;
use std::alloc::Global;
use std::mem::size_of;

/// The version of the interface for C.
pub const ABI: usize = 1;

/// The bytes of a counter's handle.
pub const COUNTER_BYTES: usize = size_of::<Counter>();

/// The bytes of a gauge's handle.
pub const GAUGE_BYTES: usize = size_of::<Gauge>();

/// The bytes of a histogram's handle.
pub const HISTOGRAM_BYTES: usize = size_of::<Histogram>();

/// The bytes of a family; those of each kind are laid out alike.
pub const FAMILY_BYTES: usize = size_of::<CounterFamily>();

/// The bytes of a change.
pub const CHANGE_BYTES: usize = size_of::<Change>();

/// The bytes of a histogram's totals.
pub const TOTALS_BYTES: usize = size_of::<HistogramTotals>();

/// What a library was built for.
#[repr(C)]
#[derive(Clone, Copy)]
pub struct Abi {
    /// The version of the interface.
    pub version: usize,
    /// Threads that count.
    pub workers: usize,
    /// Counters.
    pub counters: usize,
    /// Histograms.
    pub histograms: usize,
    /// Gauges.
    pub gauges: usize,
    /// How many numbers a moment has.
    pub numbers: usize,
    /// The most changes of one version.
    pub changes: usize,
    /// The bytes of a counter's handle.
    pub counter_bytes: usize,
    /// The bytes of a gauge's handle.
    pub gauge_bytes: usize,
    /// The bytes of a histogram's handle.
    pub histogram_bytes: usize,
    /// The bytes of a family.
    pub family_bytes: usize,
    /// The bytes of a change.
    pub change_bytes: usize,
    /// The bytes of a histogram's totals.
    pub totals_bytes: usize,
}

/// What this library was built for, and how large what crosses is, so that a binding and its library do not differ. Answers 0.
#[unsafe(no_mangle)]
pub extern "C" fn dirgwako_c_abi(abi: &mut Abi) -> u32
    ensures told { abi.new ≡ record {
      version = 1;
      workers = WORKERS;
      counters = COUNTERS;
      histograms = HISTOGRAMS;
      gauges = GAUGES;
      numbers = 1 + WORKERS + width COUNTERS HISTOGRAMS GAUGES;
      changes = COUNTERS + HISTOGRAMS + 2 * GAUGES;
      counter_bytes = 16;
      gauge_bytes = 16;
      histogram_bytes = 216;
      family_bytes = 16;
      change_bytes = 40;
      totals_bytes = 216;
    } }
    ensures answer { result ≡ 0 }
{
    *abi = Abi {
        version: ABI,
        workers: WORKERS,
        counters: COUNTERS,
        histograms: HISTOGRAMS,
        gauges: GAUGES,
        numbers: NUMBERS,
        changes: MOST_CHANGES,
        counter_bytes: COUNTER_BYTES,
        gauge_bytes: GAUGE_BYTES,
        histogram_bytes: HISTOGRAM_BYTES,
        family_bytes: FAMILY_BYTES,
        change_bytes: CHANGE_BYTES,
        totals_bytes: TOTALS_BYTES,
    };
    0
}

/// Whether these bytes are a metric's name, before there is a registry.
///
/// Answers 0 for one; 36, they are not UTF-8; 1, 3, 2 why they are none; 6, out of memory.
#[unsafe(no_mangle)]
pub extern "C" fn dirgwako_c_is_name(alloc: Global, name: &[u8]) -> u32
    ensures { IsNameAnswer name.now result }
{
    let Some(name) = text(name) else {
        return 36;
    };
    match MetricName::read(alloc, name) {
        Ok(_) => 0,
        Err(fault) => u32::from(fault.number()),
    }
}
