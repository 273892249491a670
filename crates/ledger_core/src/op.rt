/// One operation on a row.
#[derive(Clone, Copy, Debug, PartialEq, Eq)]
pub enum Op {
    /// Adds `by` to a counter.
    Inc {
        counter: usize,
        by: u64,
    },
    /// Adds 1 to the bucket `place` of a histogram, `value` to its sum and 1 to its count.
    Observe {
        hist: usize,
        place: usize,
        value: u64,
    },
    /// Adds `by` to the ups of a gauge.
    Up {
        gauge: usize,
        by: u64,
    },
    /// Adds `by` to the downs of a gauge.
    Down {
        gauge: usize,
        by: u64,
    },
}
