//! What a registry hands out.
ghost use Rattle.std.specs.Prelude.{◌≡◌};

use ledger_core::{Counter, Gauge, Histogram};
use metric_desc::{Desc, Kind};

/// A family of a registry, by its number alone. Unlike a [`Handle`] it does not have the registry's id: a family of another
/// registry is taken for the one of that number, and refused (20) only where there are not so many.
#[repr(C)]
#[derive(Clone, Copy, Debug, PartialEq, Eq)]
pub struct FamilyId {
    pub(crate) number: usize,
}

impl FamilyId {
    /// The family of this number.
    pub fn of(number: usize) -> FamilyId
        ensures { result.number ≡ number }
    {
        FamilyId { number }
    }

    /// The family's number: how many families were registered before it.
    pub fn number(&self) -> usize
        ensures { result ≡ self.now.number }
    {
        self.number
    }
}

/// A child of a family, by what counts for it.
#[derive(Clone, Copy, Debug, PartialEq, Eq)]
pub enum Handle {
    /// Of a family of counters.
    Counter(Counter),
    /// Of a family of histograms. It has the bounds of the family.
    Histogram(Histogram),
    /// Of a family of gauges.
    Gauge(Gauge),
}

impl Handle {
    ghost use Rattle.registry_state.specs.Calls.{IsHandle};

    /// The handle of a slot, for a family of this descriptor in the registry of this id.
    pub(crate) fn of(registry: u64, desc: &Desc, slot: usize) -> Handle
        ensures { IsHandle registry desc.now slot result }
    {
        match desc.bounds() {
            Some(bounds) => Handle::Histogram(Histogram {
                registry,
                slot,
                bounds: *bounds,
            }),
            None if desc.kind() == Kind::Gauge => Handle::Gauge(Gauge { registry, slot }),
            None => Handle::Counter(Counter { registry, slot }),
        }
    }
}
