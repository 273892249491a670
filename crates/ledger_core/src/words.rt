ghost use Rattle.std.specs.Prelude.{◌≡◌, ℕ, ◌+◌, ◌*◌, ◌<◌, ◌≤◌, ◌↔◌, length, take, drop, slice_index, slice_set, replicate};
ghost use Rattle.std.specs.Prelude.{IsTrue, OnOk, OnErr, IfErr, All};
ghost use Rattle.std.specs.Bool.{MatchBool};
ghost use Rattle.ledger_core.specs.Ops.{width, only, part, sum_ops, IsWithin};
ghost use Rattle.ledger_core.specs.Row.{Accepts, Adds};
ghost use Rattle.ledger_core.specs.OpFault.{IsOpFault};
ghost use Rattle.ledger_core.specs.Word.{place_of, IsWord};
ghost use Rattle.ledger_core.specs.Rise.{Rises, HasRoom, LacksRoom, Refuses};

use crate::op::Op;
use crate::op_fault::OpFault;
use crate::row::MAX_WORD;
use crate::word::{BUCKETS, COUNT, DOWNS, SUM, UPS, Word};
use std::marker::Model;

/// The words of a row, kept in place: whatever they are, none of them is over 2^48 - 1.
///
/// Contracts see it as the list of its words.
#[derive(Drop)]
pub(crate) struct Words<const C: usize, const H: usize, const G: usize> {
    counters: [u64; C],
    hists: [[u64; 27]; H],
    gauges: [[u64; 2]; G],
}

impl<const C: usize, const H: usize, const G: usize> Model for Words<C, H, G> {
    ghost use Rattle.std.specs.Prelude.{ℕ, List, ◌++◌};
    ghost use Rattle.std.specs.List.{concat};
    ghost use Rattle.ledger_core.specs.Row.{HasShape};

    ghost Value = { List ℕ };

    ghost view = { λ r. r.counters ++ concat r.hists ++ concat r.gauges };

    ghost invariant = { λ r. HasShape C H G r.counters r.hists r.gauges };
}

impl<const C: usize, const H: usize, const G: usize> Words<C, H, G> {
    /// All zeros.
    pub(crate) fn new() -> Words<C, H, G>
        ensures { result ≡ replicate (width C H G) 0 }
    {
        Words {
            counters: [0; C],
            hists: [[0; 27]; H],
            gauges: [[0; 2]; G],
        }
    }

    /// How many words there are.
    #[inline]
    pub(crate) fn len(&self) -> usize
        ensures width { result ≡ width C H G }
        ensures within { result ≡ length self.now }
    {
        // A look into the words tells the proof how many they are.
        let _ = &self.hists;
        self.counters.len() + 27 * self.hists.len() + 2 * self.gauges.len()
    }

    /// The same words.
    pub(crate) fn copy(&self) -> Words<C, H, G>
        ensures { result ≡ self.now }
    {
        Words {
            counters: self.counters,
            hists: self.hists,
            gauges: self.gauges,
        }
    }

    /// Writes the words, in their order.
    #[inline]
    pub(crate) fn copy_to(&self, words: &mut [u64])
        requires { length words.old ≡ width C H G }
        ensures same { words.new ≡ self.now }
        ensures low { (k : ℕ) → slice_index words.new k ≤ MAX_WORD }
    {
        // A look into the words tells the proof that none of them is over the limit.
        let _ = &self.gauges;
        let _ = self.len();
        self.copy_counters(words);
        self.copy_hists(words);
        self.copy_gauges(words);
    }

    // Writes the counters.
    #[inline]
    fn copy_counters(&self, words: &mut [u64])
        requires { length words.old ≡ width C H G }
        ensures { (k : ℕ) → k < C → slice_index words.new k ≡ slice_index self.now k }
    {
        for counter in 0..C {
            words[counter] = self.word(Word::Counter(counter));
        }
    }

    // Writes the histograms behind the counters.
    #[inline]
    fn copy_hists(&self, words: &mut [u64])
        requires long { length words.old ≡ width C H G }
        requires before { (k : ℕ) → k < C → slice_index words.old k ≡ slice_index self.now k }
        ensures { (k : ℕ) → k < C + 27 * H → slice_index words.new k ≡ slice_index self.now k }
    {
        for hist in 0..H {
            self.copy_hist(hist, words);
        }
    }

    // Writes a histogram behind those before it.
    #[inline]
    fn copy_hist(&self, hist: usize, words: &mut [u64])
        requires inside { hist < H }
        requires long { length words.old ≡ width C H G }
        requires before { (k : ℕ) → k < C + 27 * hist → slice_index words.old k ≡ slice_index self.now k }
        ensures { (k : ℕ) → k < C + 27 * hist + 27 → slice_index words.new k ≡ slice_index self.now k }
    {
        for item in 0..27 {
            words[C + 27 * hist + item] = self.word(Word::Hist { hist, item });
        }
    }

    // Writes the gauges behind the histograms.
    #[inline]
    fn copy_gauges(&self, words: &mut [u64])
        requires long { length words.old ≡ width C H G }
        requires before { (k : ℕ) → k < C + 27 * H → slice_index words.old k ≡ slice_index self.now k }
        ensures { (k : ℕ) → k < width C H G → slice_index words.new k ≡ slice_index self.now k }
    {
        for gauge in 0..G {
            words[C + 27 * H + 2 * gauge] = self.word(Word::Gauge { gauge, item: UPS });
            words[C + 27 * H + 2 * gauge + 1] = self.word(Word::Gauge { gauge, item: DOWNS });
        }
    }

    /// Adds the whole list, or nothing.
    #[inline(always)]
    pub(crate) fn try_apply(&mut self, ops: &[Op]) -> Result<(), OpFault>
        ensures ok { OnOk result (Adds C H self.old ops.now self.new) }
        ensures accepted { OnOk result (Accepts C H G (slice_index self.old) ops.now) }
        ensures fault { IfErr result (IsOpFault C H G (slice_index self.old) ops.now) }
        ensures unchanged { OnErr result (self.new ≡ self.old) }
    {
        // A look into the words tells the proof that none of them is over the limit.
        let _ = &self.counters;
        for (at, op) in ops.iter().enumerate() {
            if let Err(fault) = self.try_add(at, op) {
                self.take_back(&ops[..at]);
                return Err(fault);
            }
        }
        Ok(())
    }

    /// The buckets of a histogram.
    pub(crate) fn buckets(&self, slot: usize) -> [u64; BUCKETS]
        requires { slot < H }
        ensures { result ≡ take 25 (drop (C + 27 * slot) self.now) }
    {
        let words = &self.hists[slot];
        let mut buckets = [0; BUCKETS];
        buckets.copy_from_slice(&words[..BUCKETS]);
        buckets
    }

    // Adds one operation, the one at the place `at`, or nothing.
    #[inline(always)]
    fn try_add(&mut self, at: usize, op: &Op) -> Result<(), OpFault>
        ensures ok { OnOk result (Rises self.old (part C H op.now) self.new) }
        ensures within { OnOk result (IsWithin C H G op.now) }
        ensures room { OnOk result (HasRoom (slice_index self.old) (part C H op.now)) }
        ensures fault { IfErr result (Refuses C H G (slice_index self.old) at op.now) }
        ensures unchanged { OnErr result (self.new ≡ self.old) }
    {
        if !self.holds(op) {
            return Err(OpFault::OutOfGeometry { at });
        }
        if !self.has_room(op) {
            return Err(OpFault::TooLarge { at });
        }
        self.add(op);
        Ok(())
    }

    // Takes from the row what these operations added to it.
    #[cold]
    #[inline(never)]
    fn take_back(&mut self, ops: &[Op])
        requires within { All (IsWithin C H G) ops.now }
        requires added { (k : ℕ) → sum_ops C H ops.now k ≤ slice_index self.old k }
        ensures { Adds C H self.new ops.now self.old }
    {
        for op in ops {
            self.take(op);
        }
    }

    // Whether the operation names a slot of the row.
    #[inline(always)]
    fn holds(&self, op: &Op) -> bool
        ensures { IsTrue result ↔ IsWithin C H G op.now }
    {
        match *op {
            Op::Inc { counter, .. } => counter < C,
            Op::Observe { hist, place, .. } => hist < H && place < BUCKETS,
            Op::Up { gauge, .. } | Op::Down { gauge, .. } => gauge < G,
        }
    }

    // Whether no word passes the limit by the operation.
    #[inline(always)]
    fn has_room(&self, op: &Op) -> bool
        requires { IsWithin C H G op.now }
        ensures { MatchBool result (HasRoom (slice_index self.now) (part C H op.now))
            (LacksRoom (width C H G) (slice_index self.now) (part C H op.now)) }
    {
        match *op {
            Op::Inc { counter, by } => self.fits(Word::Counter(counter), by),
            Op::Observe { hist, place, value } => {
                self.fits(Word::Hist { hist, item: place }, 1)
                    && self.fits(Word::Hist { hist, item: SUM }, value)
                    && self.fits(Word::Hist { hist, item: COUNT }, 1)
            }
            Op::Up { gauge, by } => self.fits(Word::Gauge { gauge, item: UPS }, by),
            Op::Down { gauge, by } => self.fits(Word::Gauge { gauge, item: DOWNS }, by),
        }
    }

    // Adds an operation for which there is room.
    #[inline(always)]
    fn add(&mut self, op: &Op)
        requires within { IsWithin C H G op.now }
        requires room { HasRoom (slice_index self.old) (part C H op.now) }
        ensures { Rises self.old (part C H op.now) self.new }
    {
        match *op {
            Op::Inc { counter, by } => self.raise(Word::Counter(counter), by),
            Op::Observe { hist, place, value } => {
                self.raise(Word::Hist { hist, item: place }, 1);
                self.raise(Word::Hist { hist, item: SUM }, value);
                self.raise(Word::Hist { hist, item: COUNT }, 1);
            }
            Op::Up { gauge, by } => self.raise(Word::Gauge { gauge, item: UPS }, by),
            Op::Down { gauge, by } => self.raise(Word::Gauge { gauge, item: DOWNS }, by),
        }
    }

    // Takes from the row an operation that was added to it.
    fn take(&mut self, op: &Op)
        requires within { IsWithin C H G op.now }
        requires added { (k : ℕ) → part C H op.now k ≤ slice_index self.old k }
        ensures { Rises self.new (part C H op.now) self.old }
    {
        match *op {
            Op::Inc { counter, by } => self.lower(Word::Counter(counter), by),
            Op::Observe { hist, place, value } => {
                self.lower(Word::Hist { hist, item: place }, 1);
                self.lower(Word::Hist { hist, item: SUM }, value);
                self.lower(Word::Hist { hist, item: COUNT }, 1);
            }
            Op::Up { gauge, by } => self.lower(Word::Gauge { gauge, item: UPS }, by),
            Op::Down { gauge, by } => self.lower(Word::Gauge { gauge, item: DOWNS }, by),
        }
    }

    // Whether a word may rise by `by`.
    #[inline(always)]
    fn fits(&self, word: Word, by: u64) -> bool
        requires { IsWord C H G word }
        ensures room { IsTrue result ↔ (slice_index self.now (place_of C H word) + by ≤ MAX_WORD) }
        ensures bounded { (k : ℕ) → slice_index self.now k ≤ MAX_WORD }
    {
        by <= MAX_WORD - self.word(word)
    }

    // Adds `by` to a word.
    #[inline(always)]
    fn raise(&mut self, word: Word, by: u64)
        requires known { IsWord C H G word }
        requires room { slice_index self.old (place_of C H word) + by ≤ MAX_WORD }
        ensures { Rises self.old (only (place_of C H word) by) self.new }
    {
        let value = self.word(word) + by;
        self.set(word, value);
    }

    // Takes `by` from a word.
    fn lower(&mut self, word: Word, by: u64)
        requires known { IsWord C H G word }
        requires added { by ≤ slice_index self.old (place_of C H word) }
        ensures { Rises self.new (only (place_of C H word) by) self.old }
    {
        let value = self.word(word) - by;
        self.set(word, value);
    }

    /// The value of a word.
    #[inline]
    pub(crate) fn word(&self, word: Word) -> u64
        requires { IsWord C H G word }
        ensures value { result ≡ slice_index self.now (place_of C H word) }
        ensures within { place_of C H word < length self.now }
        ensures bounded { (k : ℕ) → slice_index self.now k ≤ MAX_WORD }
    {
        match word {
            Word::Counter(counter) => self.counters[counter],
            Word::Hist { hist, item } => self.hists[hist][item],
            Word::Gauge { gauge, item } => self.gauges[gauge][item],
        }
    }

    // Writes a word.
    #[inline(always)]
    fn set(&mut self, word: Word, value: u64)
        requires known { IsWord C H G word }
        requires bounded { value ≤ MAX_WORD }
        ensures { self.new ≡ slice_set self.old (place_of C H word) value }
    {
        match word {
            Word::Counter(counter) => self.counters[counter] = value,
            Word::Hist { hist, item } => self.hists[hist][item] = value,
            Word::Gauge { gauge, item } => self.gauges[gauge][item] = value,
        }
    }
}
