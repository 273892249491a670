//! What the scans of one seat work with, made once.
ghost use Rattle.std.specs.Prelude.{◌≡◌, ℕ, ◌+◌, ◌<◌, length, Contains, ◌≤◌, IfOk, map, slice_set, slice_index};
ghost use Rattle.ledger_core.specs.Ops.{width};
ghost use Rattle.segment_layout.specs.Layout.{IsGeometry};
ghost use Rattle.snapshot_scan.specs.RememberedRows.{AreWide, AreTotals, AreBlank, version_of};
ghost use Rattle.snapshot_scan.specs.ChangedItems.{ListsChanges};
ghost use mathlib.Core.Option.{some};
ghost use lib.ListN.{get_elem?};

use crate::changed_items::ChangedItems;
use crate::contended::{Contended, first_moved};
use crate::remembered_row::RememberedRow;
use crate::scan_end::ScanEnd;
use crate::snapshot::Snapshot;
use ledger_core::Row;
use register_rule::{Board, ScanSeat};
use std::alloc::{AllocError, Global};

/// What the scans of one seat work with and remember: of each segment the row that was confirmed last, the sums of these
/// rows, the numbers of both collects, the words that a worker lends, and where the sums changed. It grows no more once it is
/// made.
pub struct ScanMemory<const N: usize, const C: usize, const H: usize, const G: usize> {
    pub(crate) remembered: Vec<RememberedRow>,
    pub(crate) totals: Vec<u64>,
    pub(crate) opened: Vec<u64>,
    pub(crate) found: Vec<u64>,
    pub(crate) lent: Vec<u64>,
    pub(crate) changed_totals: ChangedItems,
    ghost geometry: { IsGeometry N C H G },
    ghost sizes: { (length remembered.items ≡ N) × (length totals.items ≡ width C H G) × (length opened.items ≡ N)
        × (length found.items ≡ N) × (length lent.items ≡ 1 + N + width C H G) },
    ghost wide: { AreWide (width C H G) remembered.items },
    ghost sums: { AreTotals (width C H G) remembered.items totals.items },
    ghost listed: { (j : ℕ) → Contains changed_totals.items j → j < width C H G },
}

impl<const N: usize, const C: usize, const H: usize, const G: usize> Drop
    for ScanMemory<N, C, H, G> {
    fn drop(self) {
        let ScanMemory {
            remembered: _,
            totals: _,
            opened: _,
            found: _,
            lent: _,
            changed_totals: _,
        } = self;
    }
}

impl<const N: usize, const C: usize, const H: usize, const G: usize> ScanMemory<N, C, H, G> {
    ghost use Rattle.std.specs.Prelude.{◌≡◌, ℕ, ◌+◌, ◌<◌, ◌++◌, Bool, true, false, replicate, slice_index, Contains, IfOk};
    ghost use Rattle.std.specs.Prelude.{IfErr, OnOk, OnErr, length, slice_set};
    ghost use Rattle.ledger_core.specs.Ops.{width};
    ghost use Rattle.segment_layout.specs.Layout.{IsGeometry};
    ghost use Rattle.register_rule.specs.Seats.{table_of, members_of, MayScan};
    ghost use Rattle.snapshot_core.specs.declared.next.Next.TheVariants as Next;
    ghost use Rattle.snapshot_scan.specs.declared.contended.Contended.{Contended};
    ghost use Rattle.snapshot_scan.specs.declared.scan_end.ScanEnd.TheVariants as ScanEnd;
    ghost use Rattle.snapshot_scan.specs.Shape.{scan_in, with_scan, IsRuled};
    ghost use Rattle.snapshot_scan.specs.RememberedRows.{AreNumbers, pairs};
    ghost use Rattle.snapshot_scan.specs.Contention.{IsFirstMoved, IsContended};
    ghost use Rattle.snapshot_scan.specs.Scanned.{IsAnswered, HasMoved, IsGivenUp};
    ghost use Rattle.snapshot_scan.specs.Core.{CameTo, AnswersBy};
    ghost use Rattle.snapshot_scan.specs.ScanMemories.{rows_of, totals_in, opened_in, found_in, changed_totals_in, answer_of};
    ghost use Rattle.snapshot_scan.specs.ScanMemories.{HasView, IsReady};
    ghost use Rattle.snapshot_scan.specs.ChangedItems.{Lists};
    ghost use Rattle.ledger_core.specs.Legal.{IsLegal};
    ghost use Rattle.snapshot_scan.specs.Snapshots.{as_answer};
    ghost use mathlib.Core.Option.{some};
    ghost use lib.ListN.{get_elem?};
    ghost use Rattle.register_rule.specs.declared.view.Version.{Version};

    /// A memory of rows of zeros, under the number 0.
    pub fn new(alloc: Global) -> Result<ScanMemory<N, C, H, G>, AllocError>
        requires { IsGeometry N C H G }
        ensures rows { IfOk result (λ m. rows_of m ≡ replicate N (record { number = 0; row = replicate (width C H G) 0 })) }
    {
        let row = C + 27 * H + 2 * G;
        let remembered = blank_rows(alloc, N, row)?;
        let totals = vec![in alloc; 0u64; row]?;
        let opened = vec![in alloc; 0u64; N]?;
        let found = vec![in alloc; 0u64; N]?;
        let lent = vec![in alloc; 0u64; 1 + N + row]?;
        let changed_totals = ChangedItems::new(alloc)?;
        Ok(ScanMemory {
            remembered,
            totals,
            opened,
            found,
            lent,
            changed_totals,
        })
    }

    /// A scan whose answer is written to `out`. Workers are asked to rest from its first failed try on.
    ///
    /// # Errors
    ///
    /// 14 [`Contended`]: the scan was given up after `N` + 2 tries, and `out` is unchanged.
    pub fn scan_to<S: ScanSeat<N, C, H, G>>(
        &mut self,
        board: &Board<N, C, H, G>,
        seat: &mut S,
        out: &mut Snapshot<N, C, H, G>,
    ) -> Result<(), Contended>
        requires of_board { MayScan board.now (S.bundle seat.old) }
        requires ready { IsReady (scan_in (S.bundle seat.old)) self.old }
        ensures table { table_of (S.bundle seat.new) ≡ table_of (S.bundle seat.old) }
        ensures ruled { IsRuled N C H G (S.bundle seat.new) }
        ensures others { members_of (S.bundle seat.new) ≡ with_scan (scan_in (S.bundle seat.new))
            (members_of (S.bundle seat.old)) }
        ensures ready { IsReady (scan_in (S.bundle seat.new)) self.new }
        ensures answered { OnOk result
            (IsAnswered N (scan_in (S.bundle seat.old)) (scan_in (S.bundle seat.new)) (as_answer out.new)) }
        ensures answers { OnOk result (AnswersBy N (width C H G) (scan_in (S.bundle seat.old)) (scan_in (S.bundle seat.new))
            (as_answer out.new)) }
        ensures legal { OnOk result (IsLegal C H (slice_index out.new.totals)) }
        ensures contended { IfErr result (IsContended N (scan_in (S.bundle seat.old)) (scan_in (S.bundle seat.new))) }
        ensures came_up { IfErr result (λ e. CameTo N (width C H G) (scan_in (S.bundle seat.old)) (scan_in (S.bundle seat.new))
            (Next.GaveUp e.worker e.first e.last)) }
        ensures unchanged { OnErr result (out.new ≡ out.old) }
    {
        let ended = self.scan(board, seat, true);
        if let ScanEnd::GaveUp = ended {
            return Err(first_moved(self.opened.as_slice(), self.found.as_slice()));
        }
        let (vector, totals) = self.answer(ended);
        out.set(vector, totals);
        Ok(())
    }

    /// The vector of `N` numbers and the totals of the scan that ended so. Where it was given up they are the numbers that
    /// its last try opened, and the sums of the remembered rows.
    #[inline]
    pub fn answer(&self, ended: ScanEnd) -> (&[u64], &[u64])
        ensures vector { result.0.now ≡ (answer_of self.now ended).vector }
        ensures totals { result.1.now ≡ (answer_of self.now ended).totals }
        ensures lengths { (length result.0.now ≡ N) × (length result.1.now ≡ width C H G) }
    {
        if let ScanEnd::Lent = ended {
            return (&self.lent[1..1 + N], &self.lent[1 + N..]);
        }
        (self.opened.as_slice(), self.totals.as_slice())
    }

    /// Where the last scan may have changed the sums of the remembered rows: at no other words.
    #[inline]
    pub fn changed_totals(&self) -> &ChangedItems
        ensures { result.now ≡ changed_totals_in self.now }
    {
        &self.changed_totals
    }

    /// Remembers that the row of this segment is now `row`, under this number: its words take the place of the old ones in
    /// the sums.
    #[inline(never)]
    pub fn remember(&mut self, place: usize, number: u64, row: &Row<C, H, G>)
        requires inside { place < N }
        ensures rows { rows_of self.new ≡ slice_set (rows_of self.old) place (record { number = number; row = row.now }) }
        ensures sums { (v : Version) → get_elem? (rows_of self.old) place ≡ some v → (k : ℕ) → k < width C H G
            → slice_index (totals_in self.new) k + slice_index v.row k ≡ slice_index
            (totals_in self.old) k + slice_index row.now k }
    {
        let remembered = self.remembered.as_mut_slice();
        let totals = self.totals.as_mut_slice();
        remembered[place].learn(number, row, totals, &mut self.changed_totals);
    }

    /// Remembers that the row of this segment is now `row`, under this number, where it differs from the remembered one at
    /// these words alone.
    #[inline(always)]
    pub fn remember_at(&mut self, place: usize, number: u64, row: &Row<C, H, G>, items: &[usize])
        requires inside { place < N }
        requires words { (j : ℕ) → Contains items.now j → j < width C H G }
        requires others { (v : Version) → get_elem? (rows_of self.old) place ≡ some v → (k : ℕ) → k < width C H G
            → ¬ (Contains items.now k) → slice_index v.row k ≡ slice_index row.now k }
        ensures rows { rows_of self.new ≡ slice_set (rows_of self.old) place (record { number = number; row = row.now }) }
        ensures sums { (v : Version) → get_elem? (rows_of self.old) place ≡ some v → (k : ℕ) → k < width C H G
            → slice_index (totals_in self.new) k + slice_index v.row k ≡ slice_index
            (totals_in self.old) k + slice_index row.now k }
    {
        let remembered = self.remembered.as_mut_slice();
        remembered[place].change(number, row, items, self.totals.as_mut_slice());
    }
}

// What is remembered of `count` segments at first.
fn blank_rows(alloc: Global, count: usize, row: usize) -> Result<Vec<RememberedRow>, AllocError>
    requires few { row ≤ 1248 }
    ensures { IfOk result (λ v. (length v.items ≡ count) × AreBlank row v.items) }
{
    let mut remembered = Vec::new(alloc);
    for _k in 0..count {
        remembered.push(RememberedRow::new(alloc, row)?)?;
    }
    Ok(remembered)
}
