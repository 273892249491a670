//! Sums of rows, where one row takes the place of another.
ghost use Rattle.std.specs.Prelude.{◌^◌, ◌≡◌, ℕ, ◌+◌, ◌-◌, ◌<◌, ◌≤◌, false, length, slice_index, slice_set, Contains};
ghost use Rattle.bucket_math.specs.Words.{greatest_word};
ghost use Rattle.snapshot_scan.specs.ChangedItems.{Notes, ListsChanges};
ghost use Rattle.snapshot_scan.specs.Exchange.{Exchanges, AreParts};

use crate::changed_items::ChangedItems;

/// How many words of two rows are compared at once.
const BLOCK: usize = 16;

/// Takes the words of one row from the totals, and adds those of another, which take the place of the old ones. The two rows
/// differ at no words but the `changed` ones. Where the totals may change is listed in `changed_totals`.
#[inline]
pub(crate) fn exchange(
    totals: &mut [u64],
    old: &mut [u64],
    new: &[u64],
    changed: &ChangedItems,
    changed_totals: &mut ChangedItems,
)
    requires lengths { (length old.old ≡ length totals.old) × (length new.now ≡ length totals.old) }
    requires words { (j : ℕ) → Contains changed.now.items j → j < length totals.old }
    requires others { changed.now.all ≡ false → (k : ℕ) → k < length totals.old → ¬ (Contains changed.now.items k)
        → slice_index old.old k ≡ slice_index new.now k }
    requires part { (k : ℕ) → k < length totals.old → (slice_index old.old k ≤ slice_index totals.old k)
        × (slice_index totals.old k ≤ 2 ^ 53) }
    requires low { (k : ℕ) → k < length totals.old → (slice_index old.old k ≤ greatest_word)
        × (slice_index new.now k ≤ greatest_word) }
    ensures same { old.new ≡ new.now }
    ensures sums { (k : ℕ) → k < length totals.old → slice_index totals.new k + slice_index old.old k ≡ slice_index totals.old
        k + slice_index new.now k }
    ensures changed_totals { ListsChanges (length totals.old) totals.old totals.new changed_totals.old changed_totals.new }
{
    if changed.is_all() {
        exchange_all(totals, old, new, changed_totals);
    } else {
        exchange_at(totals, old, new, changed.as_slice(), changed_totals);
    }
}

/// As [`exchange`], where the two rows may differ at any word.
fn exchange_all(totals: &mut [u64], old: &mut [u64], new: &[u64], changed_totals: &mut ChangedItems)
    requires lengths { (length old.old ≡ length totals.old) × (length new.now ≡ length totals.old) }
    requires part { (k : ℕ) → k < length totals.old → (slice_index old.old k ≤ slice_index totals.old k)
        × (slice_index totals.old k ≤ 2 ^ 53) }
    requires low { (k : ℕ) → k < length totals.old → slice_index new.now k ≤ greatest_word }
    ensures same { old.new ≡ new.now }
    ensures sums { (k : ℕ) → k < length totals.old → slice_index totals.new k + slice_index old.old k ≡ slice_index totals.old
        k + slice_index new.now k }
    ensures changed_totals { ListsChanges (length totals.old) totals.old totals.new changed_totals.old changed_totals.new }
{
    exchange_sums(totals, old, new, changed_totals);
    old.copy_from_slice(new);
}

/// As [`exchange`], where the two rows differ at no words but these.
#[inline(never)]
fn exchange_at(
    totals: &mut [u64],
    old: &mut [u64],
    new: &[u64],
    items: &[usize],
    changed_totals: &mut ChangedItems,
)
    requires lengths { (length old.old ≡ length totals.old) × (length new.now ≡ length totals.old) }
    requires words { (j : ℕ) → Contains items.now j → j < length totals.old }
    requires others { (k : ℕ) → k < length totals.old → ¬ (Contains items.now k) → slice_index old.old k ≡ slice_index new.now k }
    requires part { (k : ℕ) → k < length totals.old → (slice_index old.old k ≤ slice_index totals.old k)
        × (slice_index totals.old k ≤ 2 ^ 53) }
    requires low { (k : ℕ) → k < length totals.old → (slice_index old.old k ≤ greatest_word)
        × (slice_index new.now k ≤ greatest_word) }
    ensures same { old.new ≡ new.now }
    ensures sums { (k : ℕ) → k < length totals.old → slice_index totals.new k + slice_index old.old k ≡ slice_index totals.old
        k + slice_index new.now k }
    ensures changed_totals { ListsChanges (length totals.old) totals.old totals.new changed_totals.old changed_totals.new }
{
    for &item in items {
        exchange_word(totals, old, new, item, changed_totals);
    }
}

/// Takes one word of a row from its total, adds that of another row, which takes its place, and lists it.
#[inline(always)]
fn exchange_word(
    totals: &mut [u64],
    old: &mut [u64],
    new: &[u64],
    item: usize,
    changed_totals: &mut ChangedItems,
)
    requires inside { (item < length totals.old) × (item < length old.old) × (item < length new.now) }
    requires part { slice_index old.old item ≤ slice_index totals.old item }
    requires room { slice_index totals.old item + slice_index new.now item < 2 ^ 64 }
    ensures old { old.new ≡ slice_set old.old item (slice_index new.now item) }
    ensures totals { totals.new ≡ slice_set totals.old item
        (slice_index totals.old item - slice_index old.old item + slice_index new.now item) }
    ensures notes { Notes item changed_totals.old changed_totals.new }
{
    let word = new[item];
    totals[item] = totals[item] - old[item] + word;
    old[item] = word;
    changed_totals.note(item);
}

/// Takes the words of one row from the totals, and adds those of another. Where these change is listed in `changed_totals`.
#[inline(never)]
fn exchange_sums(totals: &mut [u64], old: &[u64], new: &[u64], changed_totals: &mut ChangedItems)
    requires lengths { (length old.now ≡ length totals.old) × (length new.now ≡ length totals.old) }
    requires part { (k : ℕ) → k < length totals.old → (slice_index old.now k ≤ slice_index totals.old k)
        × (slice_index totals.old k ≤ 2 ^ 53) }
    requires low { (k : ℕ) → k < length totals.old → slice_index new.now k ≤ greatest_word }
    ensures sums { (k : ℕ) → k < length totals.old → slice_index totals.new k + slice_index old.now k ≡ slice_index totals.old
        k + slice_index new.now k }
    ensures changed_totals { ListsChanges (length totals.old) totals.old totals.new changed_totals.old changed_totals.new }
{
    let blocks = totals.len() / BLOCK;
    for block in 0..blocks {
        let from = BLOCK * block;
        if differ(old, new, from) {
            exchange_some(totals, old, new, changed_totals, from, from + BLOCK);
        }
    }
    exchange_some(
        totals,
        old,
        new,
        changed_totals,
        BLOCK * blocks,
        totals.len(),
    );
}

/// Whether two rows differ at one of the words of a block, which begins at `from`.
#[inline(always)]
fn differ(old: &[u64], new: &[u64], from: usize) -> bool
    requires inside { (from + 16 ≤ length old.now) × (from + 16 ≤ length new.now) }
    ensures { result ≡ false → (k : ℕ) → from ≤ k → k < from + 16 → slice_index old.now k ≡ slice_index new.now k }
{
    let mut bits = 0;
    for k in 0..BLOCK {
        bits |= old[from + k] ^ new[from + k];
    }
    bits != 0
}

/// Takes the words of one row from the totals, and adds those of another, from `from` on and before `to`.
#[inline(never)]
fn exchange_some(
    totals: &mut [u64],
    old: &[u64],
    new: &[u64],
    changed_totals: &mut ChangedItems,
    from: usize,
    to: usize,
)
    requires inside { (from ≤ to) × (to ≤ length totals.old) }
    requires lengths { (length old.now ≡ length totals.old) × (length new.now ≡ length totals.old) }
    requires part { AreParts from (length totals.old) old.now totals.old }
    requires low { (k : ℕ) → k < length totals.old → slice_index new.now k ≤ greatest_word }
    ensures { Exchanges (length totals.old) from to old.now new.now totals.old totals.new changed_totals.old changed_totals.new }
{
    for k in from..to {
        if old[k] != new[k] {
            totals[k] = totals[k] - old[k] + new[k];
            changed_totals.note(k);
        }
    }
}
