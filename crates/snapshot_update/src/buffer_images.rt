//! What a worker knows of its buffers.
ghost use Rattle.std.specs.Prelude.{◌≡◌, true, false, [], replicate, IfOk};

use snapshot_scan::ChangedItems;
use std::alloc::{AllocError, Global};

/// What a worker knows of its buffers: the words of the hidden and of the shown one, where the two may differ from each other,
/// and where the shown one may differ from what an update of nothing would publish now. The head of `update.rt` has a table of
/// the lists.
#[derive(Drop)]
pub(crate) struct BufferImages {
    /// The words of the buffer that is not shown.
    pub(crate) hidden: Vec<u64>,
    /// The words of the buffer that is shown.
    pub(crate) shown: Vec<u64>,
    /// Where the two may differ: they do so at no other items.
    pub(crate) recent: ChangedItems,
    /// Where the shown one may differ from the version that an update of nothing would publish now.
    pub(crate) late: ChangedItems,
    /// Whether the row that is remembered of the worker's own segment is known to be its row.
    pub(crate) row_known: bool,
    /// The words of the row that the last list of operations touched.
    pub(crate) touched: ChangedItems,
    /// Room for the next list of touched words. What it has says nothing.
    pub(crate) spare: ChangedItems,
    /// Whether `recent` is known to have just what `late` and `touched` have, and none of the three to stand for all items.
    pub(crate) joined: bool,
}

impl BufferImages {
    /// Two buffers of zeros, of `words` words. All items count as changed.
    pub(crate) fn new(alloc: Global, words: usize) -> Result<BufferImages, AllocError>
        ensures hidden { IfOk result (λ i. i.hidden.items ≡ replicate words 0) }
        ensures shown { IfOk result (λ i. i.shown.items ≡ replicate words 0) }
        ensures recent { IfOk result (λ i. (i.recent.all ≡ true) × (i.recent.items ≡ [])) }
        ensures late { IfOk result (λ i. (i.late.all ≡ true) × (i.late.items ≡ [])) }
        ensures joined { IfOk result (λ i. i.joined ≡ false) }
    {
        Ok(BufferImages {
            hidden: vec![in alloc; 0u64; words]?,
            shown: vec![in alloc; 0u64; words]?,
            recent: ChangedItems::new(alloc)?,
            late: ChangedItems::new(alloc)?,
            row_known: true,
            touched: ChangedItems::new(alloc)?,
            spare: ChangedItems::new(alloc)?,
            joined: false,
        })
    }
}
