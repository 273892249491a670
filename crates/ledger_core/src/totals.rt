/// What a histogram's child adds up to.
#[derive(Clone, Copy, Debug, PartialEq, Eq)]
pub struct HistTotals {
    /// How many values fell into each bucket, none of them cumulated.
    pub buckets: [u64; 25],
    /// The sum of the values.
    pub sum: u64,
    /// How many values there were.
    pub count: u64,
}

/// What a gauge's child adds up to: its value is the ups less the downs.
#[derive(Clone, Copy, Debug, PartialEq, Eq)]
pub struct GaugeTotals {
    /// All that it was raised by.
    pub up: u64,
    /// All that it was lowered by.
    pub down: u64,
}
