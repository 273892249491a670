//! Why a registry refuses.
ghost use Rattle.std.specs.Prelude.{◌≡◌};
ghost use Rattle.registry_state.specs.Faults.{new_fault_number, register_fault_number, child_fault_number, scrape_fault_number};

use metric_desc::Kind;
use metric_names::NoMemory;
use snapshot_scan::Contended;
use std::alloc::AllocError;
use thiserror::Error;

/// Why there is no registry.
#[derive(Clone, Copy, Debug, PartialEq, Eq, Error)]
pub enum NewFault {
    /// Refusal 31: a registry keeps 1 to 1,024 scrapes.
    #[error("the window is not 1 to 1,024 scrapes")]
    BadWindow,
    /// Refusal 6: a growth was refused.
    #[error("out of memory")]
    NoMemory,
}

impl NewFault {
    /// The refusal's number.
    pub fn number(&self) -> u8
        ensures { result ≡ new_fault_number self.now }
    {
        match self {
            NewFault::BadWindow => 31,
            NewFault::NoMemory => 6,
        }
    }
}

/// Refusal 31: a registry keeps 1 to 1,024 scrapes.
#[derive(Clone, Copy, Debug, PartialEq, Eq, Error)]
#[error("the window is not 1 to 1,024 scrapes")]
pub struct BadWindow;

impl BadWindow {
    /// The refusal's number.
    pub fn number(&self) -> u8
        ensures { result ≡ 31 }
    {
        31
    }
}

/// Why a family is not registered.
#[derive(Clone, Copy, Debug, PartialEq, Eq, Error)]
pub enum RegisterFault {
    /// Refusal 19: a name is shared with the lines of this family, by number, the least such.
    #[error("a name is shared with the lines of family {with}, counted from 0 as they were registered")]
    Clash { with: usize },
    /// Refusal 23: 128 families are there.
    #[error("128 families are there")]
    TooManyFamilies,
    /// Refusal 6: a growth was refused.
    #[error("out of memory")]
    NoMemory,
}

impl RegisterFault {
    /// The refusal's number.
    pub fn number(&self) -> u8
        ensures { result ≡ register_fault_number self.now }
    {
        match self {
            RegisterFault::Clash { .. } => 19,
            RegisterFault::TooManyFamilies => 23,
            RegisterFault::NoMemory => 6,
        }
    }
}

/// Why there is no child.
#[derive(Clone, Copy, Debug, PartialEq, Eq, Error)]
pub enum ChildFault {
    /// Refusal 20: there is no family of this number.
    #[error("there is no such family")]
    NoSuchFamily,
    /// Refusal 21: the family has `want` labels, and `got` values were given.
    #[error("{got} label values for {want} labels")]
    LabelCount { want: usize, got: usize },
    /// Refusal 22: every slot of this kind is used.
    #[error("all {slots} {kind:?} slots are used")]
    Full { kind: Kind, slots: usize },
    /// Refusal 6: a growth was refused.
    #[error("out of memory")]
    NoMemory,
}

impl ChildFault {
    /// The refusal's number.
    pub fn number(&self) -> u8
        ensures { result ≡ child_fault_number self.now }
    {
        match self {
            ChildFault::NoSuchFamily => 20,
            ChildFault::LabelCount { .. } => 21,
            ChildFault::Full { .. } => 22,
            ChildFault::NoMemory => 6,
        }
    }
}

impl From<NoMemory> for ChildFault {
    ghost use Rattle.std.specs.Prelude.{◌≡◌};
    ghost use Rattle.registry_state.specs.declared.fault.ChildFault.{ChildFault};

    ghost from_gives = { λ _ fault. fault ≡ ChildFault.NoMemory };

    fn from(_error: NoMemory) -> ChildFault {
        ChildFault::NoMemory
    }
}

/// Why there is no scrape.
#[derive(Clone, Copy, Debug, PartialEq, Eq, Error)]
pub enum ScrapeFault {
    /// Refusal 6: a growth was refused. Nothing was scanned.
    #[error("out of memory")]
    NoMemory,
    /// Refusal 14: the scan was given up.
    #[error("a number rose in each try of the scan")]
    Contended(Contended),
}

impl ScrapeFault {
    /// The refusal's number.
    pub fn number(&self) -> u8
        ensures { result ≡ scrape_fault_number self.now }
    {
        match self {
            ScrapeFault::NoMemory => 6,
            ScrapeFault::Contended(_) => 14,
        }
    }
}

impl From<AllocError> for ScrapeFault {
    ghost use Rattle.std.specs.Prelude.{◌≡◌};
    ghost use Rattle.registry_state.specs.declared.fault.ScrapeFault.{ScrapeFault};

    ghost from_gives = { λ _ fault. fault ≡ ScrapeFault.NoMemory };

    fn from(_error: AllocError) -> ScrapeFault {
        ScrapeFault::NoMemory
    }
}
