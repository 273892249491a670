//! What a scan remembers of one segment. A buffer has at most 2,529
//! words: twice the 1,248 of a row, the flag and 32 numbers.
ghost use Rattle.std.specs.Prelude.{◌^◌, ◌≡◌, ◌≢◌, ℕ, ◌+◌, ◌-◌, ◌<◌, ◌≤◌, ◌==◌, ◌⊎◌, true, false, cond, Contains};
ghost use Rattle.std.specs.Prelude.{length, slice_index, slice_set, IfOk};
ghost use Rattle.bucket_math.specs.Words.{greatest_word};
ghost use Rattle.ledger_core.specs.Ops.{width};
ghost use Rattle.segment_layout.specs.Layout.{depth};
ghost use Rattle.register_rule.specs.Members.{led, scan_changed};
ghost use Rattle.register_rule.specs.Told.{IsNumber};
ghost use Rattle.register_rule.specs.Seats.{table_of, members_of, MayScan};
ghost use Rattle.snapshot_scan.specs.ChangedItems.{ListsChanges};

use crate::changed_items::ChangedItems;
use crate::exchange::exchange;
use crate::rows::read_row;
use ledger_core::Row;
use register_rule::{Board, ScanSeat};
use std::alloc::{AllocError, Global};

/// What a scan remembers of one segment.
#[derive(Drop)]
pub struct RememberedRow {
    /// The number that was confirmed last.
    pub number: u64,
    /// The row of this version.
    pub row: Vec<u64>,
    /// The row that the try in progress read, where its number is another.
    pub fresh: Vec<u64>,
    /// At which words the two rows may differ.
    pub changed: ChangedItems,
}

impl RememberedRow {
    ghost use Rattle.snapshot_scan.specs.RememberedRows.{IsBlank};

    /// The row of version 0, which is zeros, of `row` words.
    pub(crate) fn new(alloc: Global, row: usize) -> Result<RememberedRow, AllocError>
        ensures { IfOk result (IsBlank row) }
    {
        Ok(RememberedRow {
            number: 0,
            row: vec![in alloc; 0u64; row]?,
            fresh: vec![in alloc; 0u64; row]?,
            changed: ChangedItems::new(alloc)?,
        })
    }

    ghost use Rattle.snapshot_scan.specs.Shape.{looked_at};
    ghost use Rattle.snapshot_scan.specs.RememberedRows.{IsWide, version_of, words_of};

    /// The opening load of the segment, and its row, where it is not the one that is remembered: then `known` becomes false.
    #[inline]
    pub fn open_or_read<
        S: ScanSeat<N, C, H, G>,
        const N: usize,
        const C: usize,
        const H: usize,
        const G: usize,
    >(&mut self, board: &Board<N, C, H, G>, seat: &mut S, place: usize, known: &mut bool) -> u64
        requires of_board { MayScan board.now (S.bundle seat.old) }
        requires inside { place < N }
        requires deep { depth N (width C H G) ≤ 2529 }
        requires wide { IsWide (width C H G) self.old }
        ensures table { table_of (S.bundle seat.new) ≡ table_of (S.bundle seat.old) }
        ensures member { members_of (S.bundle seat.new) ≡ led
            (scan_changed (looked_at (width C H G) place result (self.old.number == result) self.new.fresh.items))
            (members_of (S.bundle seat.old)) }
        ensures told { IsNumber place (members_of (S.bundle seat.old)) result }
        ensures wide { IsWide (width C H G) self.new }
        ensures same { version_of self.new ≡ version_of self.old }
        ensures known { known.new ≡ true → (known.old ≡ true) × (self.old.number ≡ result) }
        ensures unknown { known.new ≡ false → (known.old ≡ false) ⊎ (self.old.number ≢ result) }
    {
        let number = board.open(seat, place);
        if number != self.number {
            *known = false;
            read_row(
                board,
                seat,
                place,
                number,
                self.fresh.as_mut_slice(),
                &mut self.changed,
            );
        }
        number
    }

    /// The confirming load of the segment, which was opened at `opened`, found `found`. Where that is the same number, the row is
    /// remembered, and its words take the place of the old ones in the totals. Where these change is listed in `changed_totals`.
    #[inline]
    pub fn settle(
        &mut self,
        opened: u64,
        found: u64,
        totals: &mut [u64],
        changed_totals: &mut ChangedItems,
    )
        requires wide { IsWide (length totals.old) self.old }
        requires part { (k : ℕ) → k < length totals.old → (slice_index self.old.row.items k ≤ slice_index totals.old k)
            × (slice_index totals.old k ≤ 2 ^ 53) }
        ensures wide { IsWide (length totals.old) self.new }
        ensures version { version_of self.new ≡ cond (opened == found)
            (record { number = opened; row = words_of opened self.old }) (version_of self.old) }
        ensures words { words_of opened self.new ≡ words_of opened self.old }
        ensures totals { (k : ℕ) → k < length totals.old
            → slice_index totals.new k + slice_index self.old.row.items k ≡ slice_index totals.old k + slice_index
            self.new.row.items k }
        ensures changed_totals { ListsChanges (length totals.old) totals.old totals.new changed_totals.old changed_totals.new }
    {
        if found == opened && opened != self.number {
            self.replace(opened, totals, changed_totals);
        }
    }

    /// Remembers the row in `fresh`, under this number, and its words take the place of the old ones in the totals. Where
    /// these change is listed in `changed_totals`.
    #[inline]
    pub fn replace(&mut self, number: u64, totals: &mut [u64], changed_totals: &mut ChangedItems)
        requires wide { IsWide (length totals.old) self.old }
        requires part { (k : ℕ) → k < length totals.old → (slice_index self.old.row.items k ≤ slice_index totals.old k)
            × (slice_index totals.old k ≤ 2 ^ 53) }
        ensures wide { IsWide (length totals.old) self.new }
        ensures version { version_of self.new ≡ record { number = number; row = self.old.fresh.items } }
        ensures fresh { self.new.fresh.items ≡ self.old.fresh.items }
        ensures totals { (k : ℕ) → k < length totals.old
            → slice_index totals.new k + slice_index self.old.row.items k ≡ slice_index totals.old k + slice_index
            self.old.fresh.items k }
        ensures changed_totals { ListsChanges (length totals.old) totals.old totals.new changed_totals.old changed_totals.new }
    {
        exchange(
            totals,
            self.row.as_mut_slice(),
            self.fresh.as_slice(),
            &self.changed,
            changed_totals,
        );
        self.changed.clear();
        self.number = number;
    }

    /// Remembers this row under this number. Where the totals change is listed in `changed_totals`.
    pub fn learn<const C: usize, const H: usize, const G: usize>(
        &mut self,
        number: u64,
        row: &Row<C, H, G>,
        totals: &mut [u64],
        changed_totals: &mut ChangedItems,
    )
        requires long { length totals.old ≡ width C H G }
        requires wide { IsWide (width C H G) self.old }
        requires part { (k : ℕ) → k < width C H G → (slice_index self.old.row.items k ≤ slice_index totals.old k)
            × (slice_index totals.old k ≤ 2 ^ 53) }
        ensures wide { IsWide (width C H G) self.new }
        ensures version { version_of self.new ≡ record { number = number; row = row.now } }
        ensures totals { (k : ℕ) → k < width C H G → slice_index totals.new k + slice_index self.old.row.items k ≡ slice_index
            totals.old k + slice_index row.now k }
        ensures changed_totals { ListsChanges (width C H G) totals.old totals.new changed_totals.old changed_totals.new }
    {
        copy_words(self.fresh.as_mut_slice(), row);
        self.changed.note_all();
        self.replace(number, totals, changed_totals);
    }

    /// Remembers this row under this number, where it differs from the remembered one at these words alone.
    #[inline(always)]
    pub fn change<const C: usize, const H: usize, const G: usize>(
        &mut self,
        number: u64,
        row: &Row<C, H, G>,
        items: &[usize],
        totals: &mut [u64],
    )
        requires long { length totals.old ≡ width C H G }
        requires wide { IsWide (width C H G) self.old }
        requires words { (j : ℕ) → Contains items.now j → j < width C H G }
        requires others { (k : ℕ) → k < width C H G → ¬ (Contains items.now k)
            → slice_index self.old.row.items k ≡ slice_index row.now k }
        requires part { (k : ℕ) → k < width C H G → (slice_index self.old.row.items k ≤ slice_index totals.old k)
            × (slice_index totals.old k ≤ 2 ^ 53) }
        ensures wide { IsWide (width C H G) self.new }
        ensures version { version_of self.new ≡ record { number = number; row = row.now } }
        ensures totals { (k : ℕ) → k < width C H G → slice_index totals.new k + slice_index self.old.row.items k ≡ slice_index
            totals.old k + slice_index row.now k }
    {
        prove!(row.len() == self.row.len());
        change_words(totals, self.row.as_mut_slice(), row, items);
        self.changed.note_all();
        self.number = number;
    }
}

/// Makes these the words of the row.
pub(crate) fn copy_words<const C: usize, const H: usize, const G: usize>(
    words: &mut [u64],
    row: &Row<C, H, G>,
)
    requires { length words.old ≡ width C H G }
    ensures words { words.new ≡ row.now }
    ensures low { (k : ℕ) → k < width C H G → slice_index words.new k ≤ greatest_word }
{
    row.copy_to(words);
}

/// Makes the words of the old row at these items those of the new one, also in the totals.
#[inline(always)]
fn change_words<const C: usize, const H: usize, const G: usize>(
    totals: &mut [u64],
    old: &mut [u64],
    row: &Row<C, H, G>,
    items: &[usize],
)
    requires lengths { (length totals.old ≡ width C H G) × (length old.old ≡ width C H G) }
    requires words { (j : ℕ) → Contains items.now j → j < width C H G }
    requires low { (k : ℕ) → k < width C H G → slice_index old.old k ≤ greatest_word }
    requires part { (k : ℕ) → k < width C H G → (slice_index old.old k ≤ slice_index totals.old k)
        × (slice_index totals.old k ≤ 2 ^ 53) }
    ensures changed { (k : ℕ) → Contains items.now k → slice_index old.new k ≡ slice_index row.now k }
    ensures others { (k : ℕ) → ¬ (Contains items.now k) → slice_index old.new k ≡ slice_index old.old k }
    ensures low { (k : ℕ) → k < width C H G → slice_index old.new k ≤ greatest_word }
    ensures sums { (k : ℕ) → k < width C H G → slice_index totals.new k + slice_index old.old k ≡ slice_index totals.old
        k + slice_index old.new k }
{
    for &item in items {
        change_word(totals, old, item, row.word_at(item));
    }
}

/// Makes one word of the old row another, also in the totals.
#[inline(always)]
fn change_word(totals: &mut [u64], old: &mut [u64], item: usize, word: u64)
    requires inside { (item < length totals.old) × (item < length old.old) }
    requires part { slice_index old.old item ≤ slice_index totals.old item }
    requires room { slice_index totals.old item + word < 2 ^ 64 }
    ensures old { old.new ≡ slice_set old.old item word }
    ensures totals { totals.new ≡ slice_set totals.old item (slice_index totals.old item - slice_index old.old item + word) }
{
    totals[item] = totals[item] - old[item] + word;
    old[item] = word;
}
