//! The buckets of a histogram: the place of a value among bounds, and cumulated values.
//!
//! Source: Prometheus documentation, "Metric types", "Histogram": buckets are cumulative, and a bound is inclusive.
#![tactic(auto)]

mod bounds;
mod buckets;

pub use bounds::{BadBounds, Bounds, MAX_BOUND, MAX_BOUNDS};
pub use buckets::{BUCKETS, cumulate};
