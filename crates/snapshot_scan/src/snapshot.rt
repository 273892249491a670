//! What a scan gives its caller.
ghost use Rattle.std.specs.Prelude.{◌^◌, ◌≡◌, ◌+◌, ◌*◌, ◌<◌, ◌-ℤ◌, pos, length, take, drop, slice_index, replicate, sum};
ghost use Rattle.std.specs.Prelude.{slice_set};
ghost use Rattle.std.specs.Prelude.{IfOk, All, ◌∷◌, []};
ghost use Rattle.ledger_core.specs.Ops.{width};
ghost use Rattle.ledger_core.specs.Legal.{IsLegal};
ghost use Rattle.segment_layout.specs.Layout.{IsGeometry};
ghost use Rattle.snapshot_scan.specs.Snapshots.{AreLow};

use crate::remembered_row::copy_words;
use ledger_core::{GaugeTotals, HistTotals, Row};
use std::alloc::{AllocError, Global};
use std::marker::Model;

/// How many words a histogram has: its buckets, its sum and its count.
const HIST_WORDS: usize = 27;

/// How many of them are buckets.
const BUCKETS: usize = 25;

/// How many words a gauge has: its ups and its downs.
const GAUGE_WORDS: usize = 2;

/// All segments at one moment: how often each of `N` workers had published, and the totals of `C` counters, `H`
/// histograms and `G` gauges over all workers, `C + 27 * H + 2 * G` words in the order of a row, each below 2^53.
///
/// Contracts see it as these two lists.
pub struct Snapshot<const N: usize, const C: usize, const H: usize, const G: usize> {
    pub(crate) vector: Vec<u64>,
    pub(crate) totals: Vec<u64>,
}

impl<const N: usize, const C: usize, const H: usize, const G: usize> Drop for Snapshot<N, C, H, G> {
    fn drop(self) {
        let Snapshot {
            vector: _,
            totals: _,
        } = self;
    }
}

impl<const N: usize, const C: usize, const H: usize, const G: usize> Model
    for Snapshot<N, C, H, G> {
    ghost use Rattle.snapshot_scan.specs.Snapshots.{Taken, IsTaken};

    ghost Value = { Taken };

    ghost view = { λ s. record { vector = s.vector.items; totals = s.totals.items } };

    ghost invariant = { λ s. IsTaken N C H G s.vector.items s.totals.items };
}

impl<const N: usize, const C: usize, const H: usize, const G: usize> Snapshot<N, C, H, G> {
    /// The moment at which nobody has published: all numbers and totals are zero.
    ///
    /// # Errors
    ///
    /// Refusal 6 for want of memory.
    pub fn new(alloc: Global) -> Result<Snapshot<N, C, H, G>, AllocError>
        requires { IsGeometry N C H G }
        ensures vector { IfOk result (λ s. s.vector ≡ replicate N 0) }
        ensures totals { IfOk result (λ s. s.totals ≡ replicate (width C H G) 0) }
    {
        let vector = vec![in alloc; 0u64; N]?;
        let totals = vec![in alloc; 0u64; C + HIST_WORDS * H + GAUGE_WORDS * G]?;
        Ok(Snapshot { vector, totals })
    }

    /// How often each worker had published, by worker: `N` numbers.
    pub fn vector(&self) -> &[u64]
        ensures numbers { result.now ≡ self.now.vector }
        ensures all { length result.now ≡ N }
    {
        self.vector.as_slice()
    }

    /// The totals of all words of a row, in their order.
    pub fn totals(&self) -> &[u64]
        ensures words { result.now ≡ self.now.totals }
        ensures all { length result.now ≡ width C H G }
        ensures low { AreLow (width C H G) result.now }
    {
        self.totals.as_slice()
    }

    /// The total of a counter. Asks that the slot is below `C`.
    pub fn counter(&self, slot: usize) -> u64
        requires { slot < C }
        ensures total { result ≡ slice_index self.now.totals slot }
        ensures low { result < 2 ^ 53 }
    {
        self.totals[slot]
    }

    /// The totals of a histogram: its 25 buckets, each with its own values alone, its sum and its count. Asks that the slot is
    /// below `H`.
    pub fn hist(&self, slot: usize) -> HistTotals
        requires { slot < H }
        ensures buckets { result.buckets ≡ take 25 (drop (C + 27 * slot) self.now.totals) }
        ensures sum { result.sum ≡ slice_index self.now.totals (C + 27 * slot + 25) }
        ensures count { result.count ≡ slice_index self.now.totals (C + 27 * slot + 26) }
        ensures low { All (λ bucket. bucket < 2 ^ 53) result.buckets × (result.sum < 2 ^ 53)
            × (result.count < 2 ^ 53) }
        ensures legal { IsLegal C H (slice_index self.now.totals) → result.count ≡ sum result.buckets }
    {
        let totals = self.totals.as_slice();
        let first = C + HIST_WORDS * slot;
        let mut buckets = [0; BUCKETS];
        buckets.copy_from_slice(&totals[first..first + BUCKETS]);
        HistTotals {
            buckets,
            sum: totals[first + BUCKETS],
            count: totals[first + BUCKETS + 1],
        }
    }

    /// The totals of a gauge: its ups and its downs. Asks that the slot is below `G`.
    pub fn gauge_totals(&self, slot: usize) -> GaugeTotals
        requires { slot < G }
        ensures up { result.up ≡ slice_index self.now.totals (C + 27 * H + 2 * slot) }
        ensures down { result.down ≡ slice_index self.now.totals (C + 27 * H + 2 * slot + 1) }
        ensures low { (result.up < 2 ^ 53) × (result.down < 2 ^ 53) }
    {
        let totals = self.totals.as_slice();
        let first = C + HIST_WORDS * H + GAUGE_WORDS * slot;
        GaugeTotals {
            up: totals[first],
            down: totals[first + 1],
        }
    }

    /// The value of a gauge: its ups less its downs. Asks that the slot is below `G`.
    pub fn gauge(&self, slot: usize) -> i64
        requires { slot < G }
        ensures { result ≡ pos (slice_index self.now.totals (C + 27 * H + 2 * slot)) -ℤ pos
            (slice_index self.now.totals (C + 27 * H + 2 * slot + 1)) }
    {
        let totals = self.totals.as_slice();
        let first = C + HIST_WORDS * H + GAUGE_WORDS * slot;
        totals[first] as i64 - totals[first + 1] as i64
    }

    /// Makes this the same snapshot as another. It takes no memory.
    pub fn copy_from(&mut self, other: &Snapshot<N, C, H, G>)
        ensures { self.new ≡ other.now }
    {
        self.set(&other.vector, &other.totals);
    }

    /// Makes this the snapshot of other numbers and totals, as a [`Source`](crate::Source) of one's own does where it answers:
    /// how often each of the `N` workers has published, and the totals of all words of a row, each below 2^53. It takes no
    /// memory.
    pub fn set(&mut self, vector: &[u64], totals: &[u64])
        requires all { length vector.now ≡ N }
        requires wide { length totals.now ≡ width C H G }
        requires low { AreLow (width C H G) totals.now }
        ensures vector { self.new.vector ≡ vector.now }
        ensures totals { self.new.totals ≡ totals.now }
    {
        self.vector.as_mut_slice().copy_from_slice(vector);
        self.totals.as_mut_slice().copy_from_slice(totals);
    }

    /// Makes the number of a worker another one. Asks that the worker is below `N`. It takes no memory.
    pub fn set_number(&mut self, worker: usize, number: u64)
        requires { worker < N }
        ensures { self.new ≡ record self.old { vector = slice_set self.old.vector worker number } }
    {
        self.vector[worker] = number;
    }

    /// Makes the total of a word of a row another one. Asks that the word is one of the row, and that the total is below 2^53. It
    /// takes no memory.
    pub fn set_total(&mut self, word: usize, total: u64)
        requires word { word < width C H G }
        requires low { total < 2 ^ 53 }
        ensures { self.new ≡ record self.old { totals = slice_set self.old.totals word total } }
    {
        self.totals[word] = total;
    }

    /// Makes this the snapshot of one worker, of this number and this row. It takes no memory.
    pub(crate) fn set_row(&mut self, number: u64, row: &Row<C, H, G>)
        requires { N ≡ 1 }
        ensures vector { self.new.vector ≡ number ∷ [] }
        ensures totals { self.new.totals ≡ row.now }
    {
        self.vector[0] = number;
        copy_words(self.totals.as_mut_slice(), row);
    }
}
