//! One operation by a handle.
use ledger_core::{Counter, Gauge, Histogram};

/// What one call counts: by which handle, and how much.
#[derive(Clone, Copy)]
pub(crate) enum Count<'a> {
    Inc(&'a Counter, u64),
    Observe(&'a Histogram, u64),
    Up(&'a Gauge, u64),
    Down(&'a Gauge, u64),
}
