//! The loads that a scan makes, each one atomic step.

/// A load of one word of the board for a scan. A place is that of a worker's segment, from 0; an item is a word of a buffer, from
/// 0, as `segment_layout::item_at` counts them.
#[derive(Clone, Copy)]
pub enum Load {
    /// The opening load: the number of a segment, before its row is read.
    Open {
        place: usize,
    },
    /// A word of the buffer that a number shows: item `item` of it.
    Read {
        place: usize,
        number: u64,
        item: usize,
    },
    /// The confirming load: the number of a segment, after all rows were read.
    Confirm {
        place: usize,
    },
    /// The opening load of a worker that is asked for the view that it lends.
    Ask {
        place: usize,
    },
    /// The confirming load of the worker that is asked.
    EndAsk {
        place: usize,
    },
}
