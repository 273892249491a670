//! Families, as C has them: a registry's id and a number, without a name.
use registry_state::FamilyId;

/// A family of a registry.
#[repr(C)]
#[derive(Clone, Copy)]
pub struct Family {
    /// The id of its registry.
    pub registry: u64,
    /// Which of the registry's families it is.
    pub id: FamilyId,
}

/// A family of counters.
pub type CounterFamily = Family;

/// A family of gauges.
pub type GaugeFamily = Family;

/// A family of histograms.
pub type HistogramFamily = Family;

/// Which kind of family is asked for, and the bounds of a histogram.
#[derive(Clone, Copy)]
pub(crate) enum Asked<'a> {
    Counter,
    Gauge,
    Histogram(&'a [u64]),
}
