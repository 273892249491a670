//! How many workers there may be, and how many slots a row may have.

/// The greatest number of workers. There is at least one.
pub const MAX_WORKERS: usize = 32;

/// The greatest number of counters of a row.
pub const MAX_COUNTERS: usize = 256;

/// The greatest number of histograms of a row.
pub const MAX_HISTOGRAMS: usize = 32;

/// The greatest number of gauges of a row.
pub const MAX_GAUGES: usize = 64;
