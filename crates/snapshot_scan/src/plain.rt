//! A source of one thread.
ghost use Rattle.std.specs.Prelude.{◌≡◌, [], ◌∷◌, length, slice_index};
ghost use Rattle.std.specs.Option.{ForSome};
ghost use Rattle.ledger_core.specs.Ops.{width};
ghost use Rattle.ledger_core.specs.Legal.{IsLegal};
ghost use Rattle.ledger_core.specs.Limits.{AreSlots};
ghost use Rattle.snapshot_scan.specs.Moments.{ComeTo};
ghost use Rattle.snapshot_scan.specs.Sources.{NothingFalls};
ghost use Rattle.register_rule.specs.Members.{newest};

use crate::contended::Contended;
use crate::plain_fault::PlainFault;
use crate::plain_table::{NoLaw, Recordings};
use crate::snapshot::Snapshot;
use crate::source::Source;
use atomic_table::{Seat, Table};
use ledger_core::{Op, Row};
use register_rule::load_as;
use std::alloc::{AllocError, Global};
use std::marker::Brand;

/// A source of one thread, as its name says it without the number of workers, which is 1.
pub type PlainSource<const C: usize, const H: usize, const G: usize> = PlainSourceOf<1, C, H, G>;

/// A [`PlainSource`]: one worker (`N` is 1), which has applied `count` lists of operations to its row. It is never contended.
pub struct PlainSourceOf<const N: usize, const C: usize, const H: usize, const G: usize> {
    pub(crate) table: Table<(), Recordings, (), NoLaw, Global>,
    pub(crate) seat: Seat<(), Recordings>,
    pub(crate) row: Row<C, H, G>,
    pub(crate) count: u64,
    ghost seated: { (seat.table_id ≡ table.shared.table_id) × (table.shared.table_id.words ≡ 1) × (seat.me.1 ≡ []) },
    ghost one: { N ≡ 1 },
    ghost slots: { AreSlots C H G },
    ghost wide: { length row ≡ width C H G },
    ghost legal: { IsLegal C H (slice_index row) },
    ghost comes_to: { ∥ ComeTo N C H G count row seat.me.0.entries ∥₁ },
    ghost below: { ForSome (newest seat.me.0.entries)
        (λ a. NothingFalls N (width C H G) a (record { vector = count ∷ []; totals = row })) },
}

impl<const N: usize, const C: usize, const H: usize, const G: usize> Drop
    for PlainSourceOf<N, C, H, G> {
    fn drop(self) {
        let PlainSourceOf {
            table: _,
            seat: _,
            row: _,
            count: _,
        } = self;
    }
}

impl<const N: usize, const C: usize, const H: usize, const G: usize> PlainSourceOf<N, C, H, G> {
    ghost use Rattle.std.specs.Prelude.{◌≡◌, ◌+◌, ◌<◌, ◌++◌, [], ◌∷◌, replicate, IfOk, IfErr, OnOk, OnErr};
    ghost use Rattle.ledger_core.specs.Ops.{width};
    ghost use Rattle.ledger_core.specs.Limits.{AreSlots};
    ghost use Rattle.snapshot_scan.specs.Snapshots.{as_answer};
    ghost use Rattle.snapshot_scan.specs.Plain.{row_of, count_of, recorded_by, IsApplied, IsPlainFault};

    /// A source to which nothing has been applied: its row is all zeros, and nothing is recorded.
    ///
    /// # Errors
    ///
    /// Refusal 6 for want of memory.
    pub fn new(alloc: Global) -> Result<PlainSourceOf<N, C, H, G>, AllocError>
        requires one { N ≡ 1 }
        requires slots { AreSlots C H G }
        ensures row { IfOk result (λ s. row_of s ≡ replicate (width C H G) 0) }
        ensures count { IfOk result (λ s. count_of s ≡ 0) }
        ensures recorded { IfOk result (λ s. recorded_by s ≡ []) }
    {
        let (table, seat) = Table::of_words(alloc, &[0], &())?;
        Ok(PlainSourceOf {
            table,
            seat,
            row: Row::new(),
            count: 0,
        })
    }

    /// Applies the whole list of operations as one, or nothing. It takes no memory.
    ///
    /// # Errors
    ///
    /// 15 [`PlainFault::Exhausted`] where 2^64 - 1 lists were applied; then 11 and 12 of the first operation that fails.
    pub fn apply(&mut self, ops: &[Op]) -> Result<(), PlainFault>
        ensures applied { OnOk result (IsApplied C H G (row_of self.old) (count_of self.old) ops.now (row_of self.new)
            (count_of self.new)) }
        ensures recorded { recorded_by self.new ≡ recorded_by self.old }
        ensures fault { IfErr result (IsPlainFault C H G (row_of self.old) (count_of self.old) ops.now) }
        ensures unchanged { OnErr result ((row_of self.new ≡ row_of self.old) × (count_of self.new ≡ count_of self.old)) }
    {
        if self.count == u64::MAX {
            return Err(PlainFault::Exhausted);
        }
        if let Err(fault) = self.row.try_apply(ops) {
            return Err(PlainFault::Refused(fault));
        }
        self.count += 1;
        Ok(())
    }

    /// A scan, which is never given up: its vector is the count of lists, and its totals are the row. It takes no memory.
    pub fn take(&mut self, out: &mut Snapshot<N, C, H, G>)
        ensures vector { out.new.vector ≡ count_of self.old ∷ [] }
        ensures totals { out.new.totals ≡ row_of self.old }
        ensures recorded { recorded_by self.new ≡ recorded_by self.old ++ as_answer out.new ∷ [] }
        ensures same { (row_of self.new ≡ row_of self.old) × (count_of self.new ≡ count_of self.old) }
    {
        out.set_row(self.count, &self.row);
        let _ = load_as::<Snapshot<N, C, H, G>, (), Recordings, Brand, NoLaw>(
            &self.table.shared,
            &mut self.seat,
            0,
            out,
        );
    }
}

impl<const N: usize, const C: usize, const H: usize, const G: usize> Source<N, C, H, G>
    for PlainSourceOf<N, C, H, G> {
    ghost use Rattle.std.specs.Prelude.{◌≡◌, ◌+◌, ◌<◌, IsOk, IfErr, OnOk, OnErr};
    ghost use Rattle.snapshot_scan.specs.Snapshots.{as_answer};
    ghost use Rattle.snapshot_scan.specs.Sources.{Records};
    ghost use Rattle.snapshot_scan.specs.Plain.{recorded_by, quit_by, GivesRow};

    ghost recorded = { λ s. recorded_by s };

    ghost quit = { λ s. quit_by s };

    ghost gave = { λ s t a. GivesRow s t a };

    ghost gave_up = { λ _ _ _. ⊥ };

    /// A scan, which is never given up: [`PlainSourceOf::take`].
    fn scan(&mut self, out: &mut Snapshot<N, C, H, G>) -> Result<(), Contended>
        ensures recorded { OnOk result (Records N C H G (recorded_by self.old) (recorded_by self.new) (as_answer out.new)) }
        ensures gave { OnOk result (GivesRow self.old self.new (as_answer out.new)) }
        ensures quit { OnOk result (quit_by self.new ≡ quit_by self.old) }
        ensures given_up { OnErr result ((recorded_by self.new ≡ recorded_by self.old)
            × (quit_by self.new ≡ quit_by self.old + 1)) }
        ensures why { IfErr result (λ _. ⊥) }
        ensures rose { IfErr result (λ e. (e.worker < N) × (e.first < e.last)) }
        ensures unchanged { OnErr result (out.new ≡ out.old) }
        ensures never { IsOk result }
    {
        self.take(out);
        Ok(())
    }
}
