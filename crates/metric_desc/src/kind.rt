use bucket_math::Bounds;

/// The kind of a family. Source: Prometheus documentation, "Metric types".
#[derive(Clone, Copy, Debug, PartialEq, Eq)]
pub enum Kind {
    /// A total that never falls.
    Counter,
    /// Observed values, counted in buckets.
    Histogram,
    /// A value that may rise and fall.
    Gauge,
}

/// A kind, and of a histogram its bounds.
#[derive(Clone, Copy, Debug)]
pub(crate) enum Shape {
    Counter,
    Histogram(Bounds),
    Gauge,
}
