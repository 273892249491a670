//! The tally: counting without a publish.
ghost use Rattle.std.specs.Prelude.{◌≡◌, ◌≤◌, [], length, min, OnOk, OnErr, IfErr, All, IsTrue, ◌↔◌};
ghost use Rattle.bucket_math.specs.Bounds.{place_of};
ghost use Rattle.ledger_core.specs.Ops.{IsWithin};
ghost use Rattle.ledger_core.specs.Joining.{IsSmall};
ghost use Rattle.ledger_core.specs.Tally.{IsTallied, IsTallyFault, AreMerged, AreBounded};
ghost use Rattle.ledger_core.specs.declared.op.Op.TheVariants.{Inc, Observe, Up, Down};

use crate::handles::{Counter, Gauge, Histogram};
use crate::op::Op;
use crate::op_list::{MOST, OpList};
use crate::row::MAX_WORD;
use crate::tally_fault::TallyFault;
use std::marker::Model;

/// What a thread has counted and not yet published: at most `K` operations, and no more than 65,536, on a row of `C` counters,
/// `H` histograms and `G` gauges. A plain value of one thread: counting in it is plain additions, without memory, lock or shared
/// words. No scrape sees what stands in it, until it is published.
///
/// Increments of one counter become one operation, and so do the raises of one gauge, and its falls; observations are listed
/// each.
#[derive(Drop)]
pub struct Tally<const C: usize, const H: usize, const G: usize, const K: usize> {
    registry: u64,
    list: OpList<K>,
    // Where each counter's operation stands in the list, each gauge's raise, and each gauge's fall.
    counters: [u16; C],
    ups: [u16; G],
    downs: [u16; G],
    // Of each histogram the sum of the values in the list.
    sums: [u64; H],
}

impl<const C: usize, const H: usize, const G: usize, const K: usize> Model for Tally<C, H, G, K> {
    ghost use Rattle.ledger_core.specs.Tally.{Tallied, IsTally};

    ghost Value = { Tallied };

    ghost view = { λ t. record { registry = t.registry; ops = t.list } };

    ghost invariant = { λ t. IsTally C H G t.list t.counters t.ups t.downs t.sums };
}

impl<const C: usize, const H: usize, const G: usize, const K: usize> Tally<C, H, G, K> {
    /// An empty tally for handles of the registry of this id.
    pub fn new(registry: u64) -> Tally<C, H, G, K>
        ensures registry { result.registry ≡ registry }
        ensures empty { result.ops ≡ [] }
    {
        Tally {
            registry,
            list: OpList::new(),
            counters: [0; C],
            ups: [0; G],
            downs: [0; G],
            sums: [0; H],
        }
    }

    /// Adds `by` to a counter.
    ///
    /// # Errors
    ///
    /// 16 [`TallyFault::WrongRegistry`]; then 11 [`TallyFault::Outside`]; then 12 [`TallyFault::TooLarge`] or
    /// 33 [`TallyFault::Full`]. Nothing has changed then.
    #[inline]
    pub fn inc(&mut self, counter: &Counter, by: u64) -> Result<(), TallyFault>
        ensures tallied { OnOk result (IsTallied C H G counter.now.registry (Inc counter.now.slot by) self.old self.new) }
        ensures fault { IfErr result (IsTallyFault C H G (min K 65536) counter.now.registry (Inc counter.now.slot by) self.old) }
        ensures unchanged { OnErr result (self.new ≡ self.old) }
    {
        if counter.registry != self.registry {
            return Err(TallyFault::WrongRegistry);
        }
        let slot = counter.slot;
        if slot >= C {
            return Err(TallyFault::Outside);
        }
        self.list
            .take(&mut self.counters, slot, Op::Inc { counter: slot, by })
    }

    /// Counts a value of a histogram: its bucket, the sum and the count.
    ///
    /// # Errors
    ///
    /// As [`Tally::inc`].
    #[inline]
    pub fn observe(&mut self, hist: &Histogram, value: u64) -> Result<(), TallyFault>
        ensures tallied { OnOk result
            (IsTallied C H G hist.now.registry (Observe hist.now.slot (place_of hist.now.bounds value) value) self.old self.new) }
        ensures fault { IfErr result
            (IsTallyFault C H G (min K 65536) hist.now.registry (Observe hist.now.slot (place_of hist.now.bounds value) value)
            self.old) }
        ensures unchanged { OnErr result (self.new ≡ self.old) }
    {
        if hist.registry != self.registry {
            return Err(TallyFault::WrongRegistry);
        }
        let slot = hist.slot;
        if slot >= H {
            return Err(TallyFault::Outside);
        }
        // The bounds tell the proof that there are at most 24 of them.
        let _ = hist.bounds.as_slice();
        let place = hist.bounds.place(value);
        if value > MAX_WORD - self.sums[slot] {
            return Err(TallyFault::TooLarge);
        }
        let op = Op::Observe {
            hist: slot,
            place,
            value,
        };
        match self.list.add(op) {
            Ok(_) => {
                self.sums[slot] += value;
                Ok(())
            }
            Err(fault) => Err(fault),
        }
    }

    /// Raises a gauge by `by`.
    ///
    /// # Errors
    ///
    /// As [`Tally::inc`].
    #[inline]
    pub fn up(&mut self, gauge: &Gauge, by: u64) -> Result<(), TallyFault>
        ensures tallied { OnOk result (IsTallied C H G gauge.now.registry (Up gauge.now.slot by) self.old self.new) }
        ensures fault { IfErr result (IsTallyFault C H G (min K 65536) gauge.now.registry (Up gauge.now.slot by) self.old) }
        ensures unchanged { OnErr result (self.new ≡ self.old) }
    {
        if gauge.registry != self.registry {
            return Err(TallyFault::WrongRegistry);
        }
        let slot = gauge.slot;
        if slot >= G {
            return Err(TallyFault::Outside);
        }
        self.list
            .take(&mut self.ups, slot, Op::Up { gauge: slot, by })
    }

    /// Lowers a gauge by `by`.
    ///
    /// # Errors
    ///
    /// As [`Tally::inc`].
    #[inline]
    pub fn down(&mut self, gauge: &Gauge, by: u64) -> Result<(), TallyFault>
        ensures tallied { OnOk result (IsTallied C H G gauge.now.registry (Down gauge.now.slot by) self.old self.new) }
        ensures fault { IfErr result (IsTallyFault C H G (min K 65536) gauge.now.registry (Down gauge.now.slot by) self.old) }
        ensures unchanged { OnErr result (self.new ≡ self.old) }
    {
        if gauge.registry != self.registry {
            return Err(TallyFault::WrongRegistry);
        }
        let slot = gauge.slot;
        if slot >= G {
            return Err(TallyFault::Outside);
        }
        self.list
            .take(&mut self.downs, slot, Op::Down { gauge: slot, by })
    }

    /// The id of the registry whose handles it takes.
    #[inline]
    pub fn registry(&self) -> u64
        ensures { result ≡ self.now.registry }
    {
        self.registry
    }

    /// What would be published: one operation for each counter that was raised, one for each gauge that rose and one for each
    /// that fell, and one for each observation. They would fit a row of zeros.
    #[inline]
    pub fn ops(&self) -> &[Op]
        ensures ops { result.now ≡ self.now.ops }
        ensures few { length result.now ≤ min K 65536 }
        ensures within { All (IsWithin C H G) result.now }
        ensures small { All IsSmall result.now }
        ensures merged { AreMerged result.now }
        ensures bounded { AreBounded C H result.now }
    {
        // The number of operations tells the proof that there are no more than the tally has room for.
        let _ = self.list.len();
        self.list.as_slice()
    }

    /// Whether there is no room for one more operation. What joins one that is listed already is taken nevertheless.
    #[inline]
    pub fn is_full(&self) -> bool
        ensures { IsTrue result ↔ (length self.now.ops ≡ min K 65536) }
    {
        self.list.len() == K.min(MOST)
    }

    /// Empties the tally, and forgets what it has counted.
    #[inline]
    pub fn clear(&mut self)
        ensures empty { self.new.ops ≡ [] }
        ensures registry { self.new.registry ≡ self.old.registry }
    {
        self.list.clear();
        self.sums.fill(0);
    }
}
