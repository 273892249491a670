//! Families, by which their kind is known.
ghost use Rattle.std.specs.Prelude.{◌≡◌};
ghost use Rattle.dirgwako.specs.Refused.{TellsName};

use crate::refused::{Name, name_of};
use registry_state::FamilyId;

/// A family of counters of a registry.
#[derive(Clone, Copy, Debug, PartialEq, Eq)]
pub struct CounterFamily {
    /// The id of its registry.
    pub registry: u64,
    /// Which of the registry's families it is.
    pub id: FamilyId,
    /// Its name, which refusals of its children tell.
    pub name: Name,
}

impl CounterFamily {
    /// The family of this number of the registry of this id, for one who knows both. Refusals tell it by this name, if it has at
    /// most 128 bytes.
    pub fn of(registry: u64, id: FamilyId, name: &str) -> CounterFamily
        ensures registry { result.registry ≡ registry }
        ensures id { result.id ≡ id }
        ensures named { TellsName name.now result.name.bytes }
    {
        let name = name_of(name);
        CounterFamily { registry, id, name }
    }
}

/// A family of gauges of a registry.
#[derive(Clone, Copy, Debug, PartialEq, Eq)]
pub struct GaugeFamily {
    /// The id of its registry.
    pub registry: u64,
    /// Which of the registry's families it is.
    pub id: FamilyId,
    /// Its name, which refusals of its children tell.
    pub name: Name,
}

impl GaugeFamily {
    /// The family of this number of the registry of this id, for one who knows both. Refusals tell it by this name, if it has at
    /// most 128 bytes.
    pub fn of(registry: u64, id: FamilyId, name: &str) -> GaugeFamily
        ensures registry { result.registry ≡ registry }
        ensures id { result.id ≡ id }
        ensures named { TellsName name.now result.name.bytes }
    {
        let name = name_of(name);
        GaugeFamily { registry, id, name }
    }
}

/// A family of histograms of a registry.
#[derive(Clone, Copy, Debug, PartialEq, Eq)]
pub struct HistogramFamily {
    /// The id of its registry.
    pub registry: u64,
    /// Which of the registry's families it is.
    pub id: FamilyId,
    /// Its name, which refusals of its children tell.
    pub name: Name,
}

impl HistogramFamily {
    /// The family of this number of the registry of this id, for one who knows both. Refusals tell it by this name, if it has at
    /// most 128 bytes.
    pub fn of(registry: u64, id: FamilyId, name: &str) -> HistogramFamily
        ensures registry { result.registry ≡ registry }
        ensures id { result.id ≡ id }
        ensures named { TellsName name.now result.name.bytes }
    {
        let name = name_of(name);
        HistogramFamily { registry, id, name }
    }
}

/// A family's kind, and the bounds of a histogram.
#[derive(Clone, Copy)]
pub(crate) enum Shape<'a> {
    Counter,
    Gauge,
    Histogram(&'a [u64]),
}
