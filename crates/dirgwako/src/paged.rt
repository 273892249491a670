//! A page, by itself and behind its lock, with the group that families are registered in, as what registers.
ghost use Rattle.std.specs.Prelude.{◌≡◌};
ghost use Rattle.dirgwako.specs.Paged.{as_register_fault};

use crate::registers::Registers;
use metric_desc::Desc;
use metric_names::LabelValue;
use page_crew::{PageCrew, PageRegistry};
use registry_state::{FamilyId, Handle, RegisterFault};
use scrape_page::{PageChildFault, PageFamilyFault, PageFamilyId};
use std::sync::Wait;

/// A page that is nobody else's, and the group in which families are registered from now on. Metrics that shall agree go into one
/// group.
#[derive(Drop)]
pub struct OnPage<const N: usize, const C: usize, const H: usize, const G: usize> {
    /// The page.
    pub crew: PageCrew<N, C, H, G>,
    /// The group, any number.
    pub group: u64,
}

/// A page's fault as one of a registry.
fn register_fault(fault: PageFamilyFault) -> RegisterFault
    ensures { result ≡ as_register_fault fault }
{
    match fault {
        PageFamilyFault::Clash { with } => RegisterFault::Clash { with },
        PageFamilyFault::TooManyFamilies => RegisterFault::TooManyFamilies,
        PageFamilyFault::NoMemory => RegisterFault::NoMemory,
    }
}

impl<const N: usize, const C: usize, const H: usize, const G: usize> Registers
    for OnPage<N, C, H, G> {
    ghost use Rattle.page_crew.specs.Owned.{first_of};
    ghost use Rattle.dirgwako.specs.Paged.{RegistersOnPage, GivesOnPage};

    ghost id_in = { λ page. first_of page.crew };

    ghost registered = { RegistersOnPage };

    ghost gave = { GivesOnPage };

    /// The id of the page's first board, which its families have.
    fn id(&self) -> u64 {
        self.crew.first()
    }

    fn register(&mut self, desc: Desc) -> Result<FamilyId, RegisterFault> {
        match self.crew.register(desc, self.group) {
            Ok(family) => Ok(FamilyId::of(family.number())),
            Err(fault) => Err(register_fault(fault)),
        }
    }

    fn child(&mut self, family: FamilyId, values: &[LabelValue]) -> Result<Handle, PageChildFault> {
        self.crew.child(PageFamilyId::of(family.number()), values)
    }
}

/// A page behind its lock, the runtime that waits for it, and the group in which families are registered from now on. Metrics
/// that shall agree go into one group.
#[derive(Drop)]
pub struct BehindPage<'a, R: Wait, const N: usize, const C: usize, const H: usize, const G: usize> {
    /// The runtime.
    pub rt: &'a R,
    /// The page.
    pub registry: &'a PageRegistry<N, C, H, G>,
    /// The group, any number.
    pub group: u64,
}

impl<R: Wait, const N: usize, const C: usize, const H: usize, const G: usize> Registers
    for BehindPage<'_, R, N, C, H, G> {
    ghost use Rattle.std.specs.Prelude.{◌<◌, IfOk};
    ghost use Rattle.registry_state.specs.Calls.{IsInside};
    ghost use Rattle.page_crew.specs.Locking.{id_of, IsOfPage};

    ghost id_in = { λ behind. id_of behind.registry.now };

    ghost registered = { λ before after desc answer. (after ≡ before) × IfOk answer (λ family. family.number < 128) };

    ghost gave = { λ before after family values answer. (after ≡ before) × IfOk answer (λ handle. IsOfPage (id_of
        before.registry.now) handle × IsInside C H G handle) };

    /// The id of the page's first board, which its families have.
    fn id(&self) -> u64 {
        self.registry.id()
    }

    fn register(&mut self, desc: Desc) -> Result<FamilyId, RegisterFault> {
        match self.registry.register(self.rt, desc, self.group) {
            Ok(family) => Ok(FamilyId::of(family.number())),
            Err(fault) => Err(register_fault(fault)),
        }
    }

    fn child(&mut self, family: FamilyId, values: &[LabelValue]) -> Result<Handle, PageChildFault> {
        self.registry
            .child(self.rt, PageFamilyId::of(family.number()), values)
    }
}
