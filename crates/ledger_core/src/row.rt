ghost use Rattle.std.specs.Prelude.{◌≡◌, ℕ, ◌+◌, ◌*◌, ◌<◌, ◌≤◌, length, take, drop, slice_index, replicate, sum, OnOk, OnErr};
ghost use Rattle.std.specs.Prelude.{IfErr, All};
ghost use Rattle.ledger_core.specs.Ops.{width};
ghost use Rattle.ledger_core.specs.Row.{Accepts, Adds};
ghost use Rattle.ledger_core.specs.OpFault.{IsOpFault};
ghost use Rattle.ledger_core.specs.Legal.{IsLegal, SumsAreLegal, LegalSumsAreLegal};

use crate::op::Op;
use crate::op_fault::OpFault;
use crate::totals::{GaugeTotals, HistTotals};
use crate::word::{COUNT, DOWNS, SUM, UPS, Word};
use crate::words::Words;
use std::marker::Model;

/// The greatest value of one word of a row: 2^48 - 1.
pub const MAX_WORD: u64 = 281_474_976_710_655;

/// What operations add up to: `C + 27 * H + 2 * G` words, kept in place. The buckets of each histogram add up to its count.
///
/// Contracts see it as the list of its words. It takes no memory.
#[derive(Drop)]
pub struct Row<const C: usize, const H: usize, const G: usize> {
    words: Words<C, H, G>,
}

impl<const C: usize, const H: usize, const G: usize> Model for Row<C, H, G> {
    ghost use Rattle.std.specs.Prelude.{ℕ, List, slice_index};
    ghost use Rattle.ledger_core.specs.Legal.{IsLegal};

    ghost Value = { List ℕ };

    ghost view = { λ r. r.words };

    ghost invariant = { λ r. IsLegal C H (slice_index r.words) };
}

impl<const C: usize, const H: usize, const G: usize> Row<C, H, G> {
    /// A row of zeros.
    pub fn new() -> Row<C, H, G>
        ensures zeros { result ≡ replicate (width C H G) 0 }
        ensures legal { IsLegal C H (slice_index result) }
    {
        Row {
            words: Words::new(),
        }
    }

    /// How many words the row has.
    #[inline]
    pub fn len(&self) -> usize
        ensures width { result ≡ width C H G }
        ensures within { result ≡ length self.now }
    {
        self.words.len()
    }

    /// A row of the same words.
    pub fn copy(&self) -> Row<C, H, G>
        ensures { result ≡ self.now }
    {
        Row {
            words: self.words.copy(),
        }
    }

    /// Writes the words of the row, in their order.
    #[inline]
    pub fn copy_to(&self, words: &mut [u64])
        requires { length words.old ≡ width C H G }
        ensures same { words.new ≡ self.now }
        ensures low { (k : ℕ) → slice_index words.new k ≤ MAX_WORD }
    {
        self.words.copy_to(words);
    }

    /// Adds the whole list, or nothing.
    ///
    /// Operations are tried in order, and the first that fails is named by its place `at` in the list:
    /// refusal 11 `OutOfGeometry`, 12 `TooLarge`; of one operation 11 comes before 12.
    #[inline(always)]
    pub fn try_apply(&mut self, ops: &[Op]) -> Result<(), OpFault>
        ensures ok { OnOk result (Adds C H self.old ops.now self.new) }
        ensures accepted { OnOk result (Accepts C H G (slice_index self.old) ops.now) }
        ensures fault { IfErr result (IsOpFault C H G (slice_index self.old) ops.now) }
        ensures unchanged { OnErr result (self.new ≡ self.old) }
        ensures legal { IsLegal C H (slice_index self.new) }
    {
        self.words.try_apply(ops)
    }

    /// The total of a counter.
    pub fn counter(&self, slot: usize) -> u64
        requires { slot < C }
        ensures total { result ≡ slice_index self.now slot }
        ensures bounded { result ≤ MAX_WORD }
    {
        self.words.word(Word::Counter(slot))
    }

    /// The totals of a histogram.
    pub fn hist(&self, slot: usize) -> HistTotals
        requires { slot < H }
        ensures buckets { result.buckets ≡ take 25 (drop (C + 27 * slot) self.now) }
        ensures sum { result.sum ≡ slice_index self.now (C + 27 * slot + 25) }
        ensures count { result.count ≡ slice_index self.now (C + 27 * slot + 26) }
        ensures bounded { All (λ bucket. bucket ≤ MAX_WORD) result.buckets × (result.sum ≤ MAX_WORD) × (result.count ≤ MAX_WORD) }
        ensures legal { result.count ≡ sum result.buckets }
        ensures laws { SumsAreLegal C H G × LegalSumsAreLegal C H }
    {
        HistTotals {
            buckets: self.words.buckets(slot),
            sum: self.words.word(Word::Hist {
                hist: slot,
                item: SUM,
            }),
            count: self.words.word(Word::Hist {
                hist: slot,
                item: COUNT,
            }),
        }
    }

    /// The totals of a gauge.
    pub fn gauge(&self, slot: usize) -> GaugeTotals
        requires { slot < G }
        ensures up { result.up ≡ slice_index self.now (C + 27 * H + 2 * slot) }
        ensures down { result.down ≡ slice_index self.now (C + 27 * H + 2 * slot + 1) }
        ensures bounded { (result.up ≤ MAX_WORD) × (result.down ≤ MAX_WORD) }
    {
        GaugeTotals {
            up: self.words.word(Word::Gauge {
                gauge: slot,
                item: UPS,
            }),
            down: self.words.word(Word::Gauge {
                gauge: slot,
                item: DOWNS,
            }),
        }
    }

    /// The word `k` of the row: counters first, then the 27 words of each histogram, then the two of each gauge.
    #[inline]
    pub fn word_at(&self, k: usize) -> u64
        requires { k < width C H G }
        ensures word { result ≡ slice_index self.now k }
        ensures bounded { result ≤ MAX_WORD }
    {
        self.words.word(Word::at::<C, H, G>(k))
    }
}
