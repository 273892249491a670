//! The numbers of a moment in C's buffers, and what handles find in them.
ghost use Rattle.std.specs.Prelude.{◌≡◌, ◌+◌, ◌≤◌, ◌<◌, ◌-ℤ◌, ◌++◌, pos, length, take, drop};
ghost use Rattle.dirgwako_c.specs.Registries.{IsHandedOver};
ghost use Rattle.dirgwako_c.specs.Numbers.{numbers_of};
ghost use Rattle.dirgwako_c.specs.Told.{TellsCounter, TellsGauge, TellsHistogram};
ghost use Rattle.snapshot_scan.specs.Snapshots.{as_answer};

use crate::geometry::{COUNTERS, GAUGES, HISTOGRAMS, NUMBERS, WORKERS};
use ledger_core::{Counter, Gauge, Histogram};
use snapshot_scan::Snapshot;

/// Where the totals begin.
const TOTALS: usize = 1 + WORKERS;

/// Where the totals of histograms begin.
const OF_HISTOGRAMS: usize = TOTALS + COUNTERS;

/// Where the totals of gauges begin.
const OF_GAUGES: usize = OF_HISTOGRAMS + 27 * HISTOGRAMS;

/// What no total reaches.
const LIMIT: u64 = 9_007_199_254_740_992;

/// The totals of a histogram.
#[repr(C)]
#[derive(Clone, Copy)]
pub struct HistogramTotals {
    /// How many values fell into each bucket, none of them cumulated: that of the bound at its place, and behind the last bound
    /// those that are over it.
    pub buckets: [u64; 25],
    /// The sum of the values.
    pub sum: u64,
    /// How many values there were.
    pub count: u64,
}

/// Numbers, at a place of a buffer that has room for them there.
fn put(buffer: &mut [u64], at: usize, numbers: &[u64])
    requires { at + length numbers.now ≤ length buffer.old }
    ensures { buffer.new ≡ take at buffer.old ++ numbers.now ++ drop (at + length numbers.now) buffer.old }
{
    buffer[at..at + numbers.len()].copy_from_slice(numbers);
}

/// The numbers of a moment, at the front of a buffer; or 37, where it is too short for them. `len` is how many they are.
pub(crate) fn hand_over_numbers<const N: usize, const C: usize, const H: usize, const G: usize>(
    id: u64,
    taken: &Snapshot<N, C, H, G>,
    buffer: &mut [u64],
    len: &mut usize,
) -> u32
    ensures { IsHandedOver (numbers_of id (as_answer taken.now)) result buffer.old buffer.new len.new }
{
    let vector = taken.vector();
    let totals = taken.totals();
    *len = 1 + vector.len() + totals.len();
    if *len > buffer.len() {
        return 37;
    }
    buffer[0] = id;
    put(buffer, 1, vector);
    put(buffer, 1 + vector.len(), totals);
    0
}

/// The total of a counter, among numbers that were read.
///
/// Answers 41, these are no numbers that a reading gave; 16, they are of another registry; 11, the board has no such slot.
/// Nothing is told then.
#[unsafe(no_mangle)]
pub extern "C" fn dirgwako_c_counter_total(
    numbers: &[u64],
    counter: &Counter,
    total: &mut u64,
) -> u32
    ensures { TellsCounter numbers.now counter.now result total.old total.new }
{
    if numbers.len() != NUMBERS {
        return 41;
    }
    if numbers[0] != counter.registry {
        return 16;
    }
    if counter.slot >= COUNTERS {
        return 11;
    }
    *total = numbers[TOTALS + counter.slot];
    0
}

/// A gauge's ups less its downs.
fn tell_difference(up: u64, down: u64, value: &mut i64)
    requires { (up < 9007199254740992) × (down < 9007199254740992) }
    ensures { value.new ≡ pos up -ℤ pos down }
{
    *value = up as i64 - down as i64;
}

/// The value of a gauge, its ups less its downs, among numbers that were read.
///
/// Answers 41, 16 and 11 as [`dirgwako_c_counter_total`], and 41 also where the ups or the downs are 2^53 or more.
#[unsafe(no_mangle)]
pub extern "C" fn dirgwako_c_gauge_value(numbers: &[u64], gauge: &Gauge, value: &mut i64) -> u32
    ensures { TellsGauge numbers.now gauge.now result value.old value.new }
{
    if numbers.len() != NUMBERS {
        return 41;
    }
    if numbers[0] != gauge.registry {
        return 16;
    }
    if gauge.slot >= GAUGES {
        return 11;
    }
    let first = OF_GAUGES + 2 * gauge.slot;
    let (up, down) = (numbers[first], numbers[first + 1]);
    if up >= LIMIT || down >= LIMIT {
        return 41;
    }
    tell_difference(up, down, value);
    0
}

/// The totals of a histogram, bucket by bucket, the sum and the count, among numbers that were read.
///
/// Answers 41, 16 and 11 as [`dirgwako_c_counter_total`].
#[unsafe(no_mangle)]
pub extern "C" fn dirgwako_c_histogram_totals(
    numbers: &[u64],
    histogram: &Histogram,
    totals: &mut HistogramTotals,
) -> u32
    ensures { TellsHistogram numbers.now histogram.now result totals.old totals.new }
{
    if numbers.len() != NUMBERS {
        return 41;
    }
    if numbers[0] != histogram.registry {
        return 16;
    }
    if histogram.slot >= HISTOGRAMS {
        return 11;
    }
    let first = OF_HISTOGRAMS + 27 * histogram.slot;
    let mut buckets = [0; 25];
    buckets.copy_from_slice(&numbers[first..first + 25]);
    *totals = HistogramTotals {
        buckets,
        sum: numbers[first + 25],
        count: numbers[first + 26],
    };
    0
}
