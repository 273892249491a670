//! At which items of a list something may have changed.
ghost use Rattle.std.specs.Prelude.{◌^◌, ◌≡◌, ◌+◌, ◌<◌, ◌≤◌, ℕ, true, false, [], length, slice_index, IfOk, Contains};
ghost use Rattle.snapshot_scan.specs.ChangedItems.{Notes, NotesEach};

use std::alloc::{AllocError, Global};
use std::marker::Model;

/// How many items can be listed: where more change, all count as changed.
const ROOM: usize = 256;

/// Items of a list at which something may have changed: at most 256 of them are listed, or all may have changed.
///
/// It takes memory when it is made, and never after.
#[derive(Drop)]
pub struct ChangedItems {
    items: Vec<usize>,
    count: usize,
    all: bool,
}

impl Model for ChangedItems {
    ghost use Rattle.std.specs.Prelude.{◌^◌, ◌≡◌, ◌≤◌, length, take};
    ghost use Rattle.snapshot_scan.specs.ChangedItems.{ChangedView};

    ghost Value = { ChangedView };

    ghost view = { λ c. record { all = c.all; items = take c.count c.items.items } };

    ghost invariant = { λ c. (c.count ≤ 256) × (length c.items.items ≡ 256) };
}

impl ChangedItems {
    /// All items may have changed.
    pub fn new(alloc: Global) -> Result<ChangedItems, AllocError>
        ensures { IfOk result (λ c. (c.all ≡ true) × (c.items ≡ [])) }
    {
        let items = vec![in alloc; 0usize; ROOM]?;
        Ok(ChangedItems {
            items,
            count: 0,
            all: true,
        })
    }

    /// Nothing has changed.
    #[inline]
    pub fn clear(&mut self)
        ensures none { (self.new.all ≡ false) × (self.new.items ≡ []) }
    {
        self.count = 0;
        self.all = false;
    }

    /// This item may have changed, too. Where no more can be listed, all may have.
    #[inline]
    pub fn note(&mut self, item: usize)
        ensures full { self.old.all ≡ true → self.new ≡ self.old }
        ensures notes { Notes item self.old self.new }
    {
        if self.all {
            return;
        }
        if self.count > 0 && self.items[self.count - 1] == item {
            return;
        }
        if self.count == ROOM {
            self.all = true;
            return;
        }
        self.items[self.count] = item;
        self.count += 1;
    }

    /// Each of these items, so much further along, may have changed, too. Where not all can be listed, all may have.
    #[inline(always)]
    pub fn note_each(&mut self, items: &[usize], shift: usize)
        requires room { (j : ℕ) → Contains items.now j → j + shift < 2 ^ 64 }
        ensures notes { NotesEach shift items.now self.old self.new }
        ensures fits { self.old.all ≡ false → length self.old.items + length items.now ≤ 256 → self.new.all ≡ false }
    {
        if self.all {
            return;
        }
        if items.len() > ROOM - self.count {
            self.all = true;
            return;
        }
        write_each(self.items.as_mut_slice(), items, self.count, shift);
        self.count += items.len();
    }

    /// All items may have changed.
    #[inline]
    pub fn note_all(&mut self)
        ensures all { self.new.all ≡ true }
        ensures items { self.new.items ≡ self.old.items }
    {
        self.all = true;
    }

    /// Whether all items may have changed.
    #[inline]
    pub fn is_all(&self) -> bool
        ensures { result ≡ self.now.all }
    {
        self.all
    }

    /// The items that are listed: where not all may have changed, no others have.
    #[inline]
    pub fn as_slice(&self) -> &[usize]
        ensures listed { result.now ≡ self.now.items }
        ensures few { length result.now ≤ 256 }
    {
        &self.items[..self.count]
    }
}

/// Writes these items, so much further along, to the places from `first` on.
#[inline(always)]
fn write_each(places: &mut [usize], items: &[usize], first: usize, shift: usize)
    requires room { first + length items.now ≤ length places.old }
    requires fits { (k : ℕ) → k < length items.now → slice_index items.now k + shift < 2 ^ 64 }
    ensures before { (q : ℕ) → q < first → slice_index places.new q ≡ slice_index places.old q }
    ensures written { (k : ℕ) → k < length items.now → slice_index places.new (first + k) ≡ slice_index items.now k + shift }
{
    for k in 0..items.len() {
        places[first + k] = items[k] + shift;
    }
}
