//! What registers families and gives children: a registry behind its lock, and one that is nobody else's.
ghost use Rattle.std.specs.Prelude.{◌≡◌, ℕ, ◌<◌, List, Result, IfOk};
ghost use Rattle.metric_desc.specs.Desc.{Descriptor};
ghost use Rattle.registry_state.specs.declared.fault.RegisterFault.{RegisterFault};
ghost use Rattle.registry_state.specs.declared.handle.FamilyId.{FamilyId};
ghost use Rattle.registry_state.specs.declared.handle.Handle.{Handle};
ghost use Rattle.scrape_page.specs.declared.fault.PageChildFault.{PageChildFault};
ghost use Rattle.metric_registry.specs.Names.{id_of};
ghost use Rattle.metric_registry.specs.Naming.{HasId};
ghost use Rattle.registry_state.specs.Calls.{IsInside};
ghost use Rattle.dirgwako.specs.Alone.{RegistersAlone, GivesAlone, as_page_fault};

use metric_desc::Desc;
use metric_names::LabelValue;
use metric_registry::Registry;
use registry_state::{ChildFault, FamilyId, Handle, RegisterFault, RegistryState};
use scrape_page::PageChildFault;
use snapshot_scan::Source;
use std::sync::Wait;

/// What registers families and gives their children. Each names, for contracts alone, its id (`id_in`) and what one such call
/// does to it (`registered`, `gave`), so that a contract tells which calls were made, with what, and in which order.
pub trait Registers {
    // The id that its handles have.
    ghost id_in: { Self → ℕ };

    // What one registration says of what was there before it, what is there after it, the descriptor, and the answer.
    ghost registered: { Self → Self → Descriptor → Result FamilyId RegisterFault → Type 0 };

    // What asking for one child says of what was there before it, what is there after it, the family, the label values, and the
    // answer.
    ghost gave: { Self → Self → FamilyId → List (List ℕ) → Result Handle PageChildFault → Type 0 };

    /// The id that its handles have.
    fn id(&self) -> u64
        ensures { result ≡ id_in self.now };

    /// Registers a family, without children.
    ///
    /// # Errors
    ///
    /// 19, 23 and 6: [`RegisterFault`].
    fn register(&mut self, desc: Desc) -> Result<FamilyId, RegisterFault>
        ensures { registered self.old self.new desc result };

    /// The child of these label values, which is made where there is none.
    ///
    /// # Errors
    ///
    /// 20, 21, 22 and 6, and of a page 46: [`PageChildFault`].
    fn child(&mut self, family: FamilyId, values: &[LabelValue]) -> Result<Handle, PageChildFault>
        ensures { gave self.old self.new family values.now result };
}

/// A registry's fault as one of a page, which has one more (46).
fn child_fault(fault: ChildFault) -> PageChildFault
    ensures { result ≡ as_page_fault fault }
{
    match fault {
        ChildFault::NoSuchFamily => PageChildFault::NoSuchFamily,
        ChildFault::LabelCount { want, got } => PageChildFault::LabelCount { want, got },
        ChildFault::Full { kind, slots } => PageChildFault::Full { kind, slots },
        ChildFault::NoMemory => PageChildFault::NoMemory,
    }
}

/// A registry behind its lock, and the runtime that waits for it.
#[derive(Drop)]
pub struct Behind<'a, 'b, R: Wait, const N: usize, const C: usize, const H: usize, const G: usize> {
    /// The runtime.
    pub rt: &'a R,
    /// The registry.
    pub registry: &'a Registry<'b, N, C, H, G>,
}

impl<R: Wait, const N: usize, const C: usize, const H: usize, const G: usize> Registers
    for Behind<'_, '_, R, N, C, H, G> {
    ghost id_in = { λ behind. id_of behind.registry.now };

    ghost registered = { λ before after desc answer. (after ≡ before) × IfOk answer (λ family. family.number < 128) };

    ghost gave = { λ before after family values answer. (after ≡ before)
        × IfOk answer (λ handle. HasId (id_of before.registry.now) handle × IsInside C H G handle) };

    fn id(&self) -> u64 {
        self.registry.id()
    }

    fn register(&mut self, desc: Desc) -> Result<FamilyId, RegisterFault> {
        self.registry.register(self.rt, desc)
    }

    fn child(&mut self, family: FamilyId, values: &[LabelValue]) -> Result<Handle, PageChildFault> {
        self.registry
            .child(self.rt, family, values)
            .map_err(child_fault)
    }
}

// A registry that is nobody else's: what a call does to it is known.
impl<
    S: Source<N, C, H, G>,
    const N: usize,
    const C: usize,
    const H: usize,
    const G: usize,
> Registers for RegistryState<S, N, C, H, G> {
    ghost id_in = { λ registry. registry.id };

    ghost registered = { RegistersAlone N C H G };

    ghost gave = { GivesAlone C H G };

    fn id(&self) -> u64 {
        RegistryState::id(self)
    }

    fn register(&mut self, desc: Desc) -> Result<FamilyId, RegisterFault> {
        RegistryState::register(self, desc)
    }

    fn child(&mut self, family: FamilyId, values: &[LabelValue]) -> Result<Handle, PageChildFault> {
        RegistryState::child(self, family, values).map_err(child_fault)
    }
}
