//! The lock.
ghost use Rattle.std.specs.Prelude.{◌≡◌, ℕ, ◌<◌, ◌≤◌, IfErr, IfOk, IfSome, OnErr, OnOk};
ghost use Rattle.registry_state.specs.Calls.{IsInside};
ghost use Rattle.registry_state.specs.Kept.{IsKept};
ghost use Rattle.registry_state.specs.Faults.{IsWindow};
ghost use Rattle.snapshot_scan.specs.Scanners.{recorded_in};
ghost use Rattle.metric_registry.specs.Naming.{IsOf, HasId, BeginsWith, ShowsMoment, IsScrapeFault};

use crate::locked::Locked;
use crate::naming::{AnyBoard, Named};
use expo_text::Scrape;
use ledger_core::{Counter, Gauge, Histogram};
use metric_desc::Desc;
use metric_names::LabelValue;
use registry_state::{
    BadWindow, ChildFault, FamilyId, Handle, RegisterFault, RegistryState, ScrapeFault,
};
use snapshot_scan::Scanner;
use std::sync::{Mutex, Wait};

/// The registry of a board of `N` workers and of rows of `C` counters, `H` histograms and `G` gauges: families, children and kept
/// scrapes behind one lock.
///
/// Its calls take `&self`, so that any number of threads may share it. They wait for the lock, in no order that is promised;
/// while a scrape is made, the others wait for it. Workers count on the board meanwhile, and know nothing of the lock.
///
/// Whatever the calls were, whenever the lock is free its journal replays to its families, and its kept scrapes are at most the
/// window, the last that its reader recorded, and moments of one history of publishes: that is what [`RegistryOf::into_state`]
/// promises, and [`RegistryOf::settle`] that this history is what its workers published. Which of its states a call under the
/// lock meets no clause says, since others may have come between: docs/REGISTRY.md has what is left to tests.
pub struct RegistryOf<
    'a,
    B: Named,
    const N: usize,
    const C: usize,
    const H: usize,
    const G: usize,
> {
    pub(crate) id: u64,
    pub(crate) state: Mutex<Locked<'a, B, N, C, H, G>>,
}

/// The handle, of the registry of this id. It is of it already; but which registry stands behind a lock no proof knows.
fn of_registry(registry: u64, handle: Handle) -> Handle
    ensures id { HasId registry result }
    ensures same { HasId registry handle → result ≡ handle }
    ensures inside { (c h g : ℕ) → IsInside c h g handle → IsInside c h g result }
{
    match handle {
        Handle::Counter(counter) => Handle::Counter(Counter {
            registry,
            ..counter
        }),
        Handle::Histogram(hist) => Handle::Histogram(Histogram { registry, ..hist }),
        Handle::Gauge(gauge) => Handle::Gauge(Gauge { registry, ..gauge }),
    }
}

/// A registry of any board.
pub type Registry<'a, const N: usize, const C: usize, const H: usize, const G: usize> = RegistryOf<
    'a,
    AnyBoard,
    N,
    C,
    H,
    G,
>;

impl<'a, B: Named, const N: usize, const C: usize, const H: usize, const G: usize> Drop
    for RegistryOf<'a, B, N, C, H, G> {
    fn drop(self) {
        let RegistryOf { id: _, state: _ } = self;
    }
}

impl<'a, B: Named, const N: usize, const C: usize, const H: usize, const G: usize> RegistryOf<
    'a,
    B,
    N,
    C,
    H,
    G,
> {
    ghost use Rattle.metric_registry.specs.Names.{id_of};

    /// The id of its board, which its handles have. It does not wait for the lock.
    pub fn id(&self) -> u64
        ensures { result ≡ id_of self.now }
    {
        self.id
    }

    /// Registers a family of this descriptor, without children: [`RegistryState::register`] behind the lock.
    ///
    /// # Errors
    ///
    /// 19 [`RegisterFault::Clash`] with the least family whose lines take a name of this one's; 23
    /// [`RegisterFault::TooManyFamilies`] where 128 are there; 6 [`RegisterFault::NoMemory`]. Nothing has changed then.
    pub fn register<R: Wait>(&self, rt: &R, desc: Desc) -> Result<FamilyId, RegisterFault>
        ensures few { IfOk result (λ family. family.number < 128) }
    {
        let mut locked = self.state.lock(rt);
        locked.state.register(desc)
    }

    /// The family of this name, if there is one: [`RegistryState::family`] behind the lock.
    pub fn family<R: Wait>(&self, rt: &R, name: &str) -> Option<FamilyId>
        ensures few { IfSome result (λ family. family.number < 128) }
    {
        let locked = self.state.lock(rt);
        locked.state.family(name)
    }

    /// The handle of the child of these label values, which is made where there is none: [`RegistryState::child`] behind the
    /// lock. A thread that counts asks once and keeps the handle.
    ///
    /// # Errors
    ///
    /// 20 [`ChildFault::NoSuchFamily`]; 21 [`ChildFault::LabelCount`]; then, of a child that is not there, 22
    /// [`ChildFault::Full`] where every slot of the kind is used, and 6 [`ChildFault::NoMemory`]. Nothing has changed then.
    pub fn child<R: Wait>(
        &self,
        rt: &R,
        family: FamilyId,
        values: &[LabelValue],
    ) -> Result<Handle, ChildFault>
        ensures id { IfOk result (HasId (id_of self.now)) }
        ensures inside { IfOk result (IsInside C H G) }
    {
        let mut locked = self.state.lock(rt);
        match locked.state.child(family, values) {
            Ok(handle) => Ok(of_registry(self.id, handle)),
            Err(fault) => Err(fault),
        }
    }

    /// Scans the board, keeps the answer, and gives all families with their numbers in it: [`RegistryState::scrape`] behind the
    /// lock. The text is made of it afterwards, when the lock is free again.
    ///
    /// # Errors
    ///
    /// 6 [`ScrapeFault::NoMemory`]: nothing was scanned. 14 [`ScrapeFault::Contended`]: the scan was given up. Nothing is kept
    /// then.
    pub fn scrape<R: Wait>(&self, rt: &R) -> Result<Scrape, ScrapeFault>
        ensures moment { IfOk result (ShowsMoment N C H G B.first) }
        ensures fault { IfErr result (IsScrapeFault N) }
    {
        let mut locked = self.state.lock(rt);
        // A look into the journal tells the proof that it replays.
        let _ = locked.state.journal();
        locked.state.scrape()
    }

    /// Keeps `window` scrapes from now on, and answers how many are kept: [`RegistryState::set_window`] behind the lock.
    ///
    /// # Errors
    ///
    /// 31 [`BadWindow`] unless `window` is 1 to 1,024. Nothing has changed then.
    pub fn set_window<R: Wait>(&self, rt: &R, window: usize) -> Result<usize, BadWindow>
        ensures window { OnOk result (IsWindow window) }
        ensures few { IfOk result (λ kept. kept ≤ window) }
        ensures refused { OnErr result (¬ (IsWindow window)) }
    {
        let mut locked = self.state.lock(rt);
        let kept = locked.state.set_window(window);
        let _ = locked.state.journal();
        kept
    }

    /// What stood behind the lock.
    pub fn into_state(self) -> RegistryState<Scanner<'a, N, C, H, G>, N, C, H, G>
        ensures of { IsOf B.board result }
        ensures begins { BeginsWith B.first result.journal }
        ensures kept { IsKept N C H G (recorded_in result.source) result.journal result.window result.state }
    {
        let RegistryOf { id: _, state } = self;
        let Locked { state, of: _ } = state.into_inner();
        // A look into the journal tells the proof what the state keeps.
        let _ = state.journal();
        state
    }
}
