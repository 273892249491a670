//! The geometry of the board, which is settled when the library is built: `bindings/c/build.sh` sets these four numbers, and
//! proves the crate for them. Here no two of them are alike, so that no proof takes one for another.

/// Threads that count, 1 to 32.
pub const WORKERS: usize = 4;

/// Counters, at most 256.
pub const COUNTERS: usize = 64;

/// Histograms, at most 32.
pub const HISTOGRAMS: usize = 8;

/// Gauges, at most 64.
pub const GAUGES: usize = 16;

/// The most changes of one version that C publishes: each counter, one value of each histogram, and each gauge both ways.
pub const MOST_CHANGES: usize = COUNTERS + HISTOGRAMS + 2 * GAUGES;

/// How many numbers a moment has: the registry's id, how often each worker has published, and the words of a row.
pub const NUMBERS: usize = 1 + WORKERS + COUNTERS + 27 * HISTOGRAMS + 2 * GAUGES;
