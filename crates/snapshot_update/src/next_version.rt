//! What a buffer is to hold.
ghost use Rattle.std.specs.Prelude.{◌≡◌, length};
ghost use Rattle.ledger_core.specs.Ops.{width};
ghost use Rattle.ledger_core.specs.Limits.{AreSlots};

use ledger_core::Row;

/// One version of a segment: a row, a flag, and the vector and the totals of the view that it lends.
#[derive(Clone, Copy)]
pub(crate) struct NextVersion<'a, const C: usize, const H: usize, const G: usize> {
    pub(crate) row: &'a Row<C, H, G>,
    pub(crate) flag: u64,
    pub(crate) vector: &'a [u64],
    pub(crate) totals: &'a [u64],
    ghost slots: { AreSlots C H G },
    ghost wide: { length row.now ≡ width C H G },
}

impl<'a, const C: usize, const H: usize, const G: usize> NextVersion<'a, C, H, G> {
    ghost use Rattle.std.specs.Prelude.{◌≡◌, ◌+◌, ◌<◌, ◌≤◌, length, slice_index};
    ghost use Rattle.bucket_math.specs.Words.{greatest_word};
    ghost use Rattle.ledger_core.specs.Ops.{width};
    ghost use Rattle.ledger_core.specs.Limits.{AreSlots};
    ghost use Rattle.snapshot_update.specs.BufferImages.{version_words, target_of};

    /// The version of this row. With the flag 1 it lends the view of this vector and these totals, with 0 none.
    #[inline]
    pub(crate) fn new(
        row: &'a Row<C, H, G>,
        flag: u64,
        vector: &'a [u64],
        totals: &'a [u64],
    ) -> NextVersion<'a, C, H, G>
        requires { AreSlots C H G }
        ensures words { target_of result ≡ version_words row.now flag vector.now totals.now }
        ensures lengths { length (target_of result) ≡ width C H G + 1 + length vector.now + length totals.now }
        ensures view { (result.vector.now ≡ vector.now) × (result.totals.now ≡ totals.now) }
    {
        // The row's length tells the proof how many words it has.
        let _ = row.len();
        NextVersion {
            row,
            flag,
            vector,
            totals,
        }
    }

    /// A word of the row.
    #[inline(always)]
    pub(crate) fn row_word(&self, k: usize) -> u64
        requires { k < width C H G }
        ensures word { result ≡ slice_index (target_of self.now) k }
        ensures bounded { result ≤ greatest_word }
    {
        self.row.word_at(k)
    }

    /// A worker's number.
    #[inline(always)]
    pub(crate) fn number_of(&self, worker: usize) -> u64
        requires { worker < length self.now.vector.now }
        ensures { result ≡ slice_index (target_of self.now) (width C H G + 1 + worker) }
    {
        self.vector[worker]
    }

    /// The total of a word.
    #[inline(always)]
    pub(crate) fn total_of(&self, k: usize) -> u64
        requires { k < length self.now.totals.now }
        ensures { result ≡ slice_index (target_of self.now) (width C H G + 1 + length self.now.vector.now + k) }
    {
        self.totals[k]
    }

    /// The word at an item, counted along the buffer.
    #[inline]
    pub(crate) fn word(&self, item: usize) -> u64
        requires { item < length (target_of self.now) }
        ensures word { result ≡ slice_index (target_of self.now) item }
        ensures bounded { item < width C H G → result ≤ greatest_word }
    {
        let flag = self.row.len();
        if item < flag {
            return self.row.word_at(item);
        }
        if item == flag {
            return self.flag;
        }
        let behind = item - flag - 1;
        if behind < self.vector.len() {
            self.vector[behind]
        } else {
            self.totals[behind - self.vector.len()]
        }
    }
}
