//! Lists of changes from lists of changes.
ghost use Rattle.std.specs.Prelude.{◌≡◌, ℕ, ◌+◌, ◌<◌, ◌⊎◌, ◌≤◌, true, false, length, Contains};
ghost use Rattle.snapshot_scan.specs.ChangedItems.{NotesEach};
ghost use Rattle.snapshot_update.specs.Known.{NotesRange};

use snapshot_scan::ChangedItems;

/// Notes each item that is listed in `from`, so much further along the buffer. That all of `from` may have changed is not noted:
/// its callers see to that.
#[inline]
pub(crate) fn note_each(to: &mut ChangedItems, from: &ChangedItems, shift: usize)
    requires room { (j : ℕ) → Contains from.now.items j → j + shift < 18446744073709551616 }
    ensures { NotesEach shift from.now.items to.old to.new }
{
    to.note_each(from.as_slice(), shift);
}

/// Notes so many items from the item `first` on.
#[inline]
pub(crate) fn note_range(to: &mut ChangedItems, first: usize, count: usize)
    requires room { first + count < 18446744073709551616 }
    ensures { NotesRange first count to.old to.new }
{
    for item in first..first + count {
        to.note(item);
    }
}

/// Lists where the version that was published differs from the one that an update of nothing would publish now: at the
/// worker's own number, and at the totals of the words that were touched, which stand `totals_at` further. Where that is not
/// `known`, it may be anywhere.
#[inline]
pub(crate) fn list_late(
    late: &mut ChangedItems,
    touched: &ChangedItems,
    number_item: usize,
    totals_at: usize,
    known: bool,
)
    requires room { (j : ℕ) → Contains touched.now.items j → j + totals_at < 18446744073709551616 }
    ensures unknown { known ≡ false → late.new.all ≡ true }
    ensures number { late.new.all ≡ false → Contains late.new.items number_item }
    ensures totals { late.new.all ≡ false → (k : ℕ) → Contains touched.now.items k → Contains late.new.items (k + totals_at) }
    ensures others { (j : ℕ) → Contains late.new.items j → (j ≡ number_item) ⊎
        ((k : ℕ) × Contains touched.now.items k × (j ≡ k + totals_at)) }
{
    late.clear();
    late.note(number_item);
    note_each(late, touched, totals_at);
    if !known {
        late.note_all();
    }
}
