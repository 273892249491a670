//! A refusal that tells which name was asked for.
ghost use Rattle.std.specs.Prelude.{◌≡◌};
ghost use Rattle.dirgwako.specs.Refused.{TellsName, family_refusal_number, child_refusal_number, metric_refusal_number};
ghost use Rattle.dirgwako.specs.declared.fault.MetricRefusal.TheVariants.{Child};

use crate::fault::{ChildRefusal, FamilyRefusal, MetricRefusal};
use arrayvec::ArrayString;
use registry_state::FamilyId;
use std::fmt::Display;
use thiserror::Error;

/// A metric's name, as families and refusals have it: without memory. It is empty where the name has more than 128 bytes.
pub type Name = ArrayString<128>;

/// The name to tell.
pub(crate) fn name_of(name: &str) -> Name
    ensures { TellsName name.now result.bytes }
{
    match ArrayString::from(name) {
        Ok(name) => name,
        Err(_) => ArrayString::new(),
    }
}

/// Why a family, a child or a metric is refused, and the family's name: `22: all 8 Counter slots of each board are used
/// (answers_total)`.
#[derive(Clone, Copy, Debug, PartialEq, Eq, Error)]
#[error("{fault} ({name})")]
pub struct Refused<F: Display + Drop> {
    /// Why.
    pub fault: F,
    /// The name that was asked for. One that is too long for a metric's, over 128 bytes, is not told.
    pub name: Name,
}

impl<F: Display + Drop> Refused<F> {
    /// That of what was asked for by this name.
    pub(crate) fn of(name: &str, fault: F) -> Refused<F>
        ensures fault { result.fault ≡ fault }
        ensures name { TellsName name.now result.name.bytes }
    {
        let name = name_of(name);
        Refused { fault, name }
    }
}

impl Refused<FamilyRefusal> {
    /// The refusal's number.
    pub fn number(&self) -> u8
        ensures { result ≡ family_refusal_number self.now.fault }
    {
        self.fault.number()
    }
}

impl Refused<ChildRefusal> {
    /// The refusal's number.
    pub fn number(&self) -> u8
        ensures { result ≡ child_refusal_number self.now.fault }
    {
        self.fault.number()
    }

    /// The refusal of a metric whose family is registered.
    pub(crate) fn of_metric(self, family: FamilyId) -> Refused<MetricRefusal>
        ensures fault { result.fault ≡ Child family self.fault }
        ensures name { result.name ≡ self.name }
    {
        let Refused { fault, name } = self;
        let fault = MetricRefusal::Child { family, fault };
        Refused { fault, name }
    }
}

impl Refused<MetricRefusal> {
    /// The refusal's number.
    pub fn number(&self) -> u8
        ensures { result ≡ metric_refusal_number self.now.fault }
    {
        self.fault.number()
    }
}

impl From<Refused<FamilyRefusal>> for Refused<MetricRefusal> {
    ghost use Rattle.std.specs.Prelude.{◌≡◌};
    ghost use Rattle.dirgwako.specs.declared.fault.MetricRefusal.TheVariants.{Family};

    ghost from_gives = { λ family metric. metric ≡ record { fault = Family family.fault; name = family.name } };

    fn from(family: Refused<FamilyRefusal>) -> Refused<MetricRefusal> {
        let Refused { fault, name } = family;
        let fault = MetricRefusal::Family(fault);
        Refused { fault, name }
    }
}
