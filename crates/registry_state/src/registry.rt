//! A registry.
ghost use Rattle.std.specs.Prelude.{◌≡◌, ◌<◌, ◌↔◌, IsTrue};
ghost use Rattle.registry_state.specs.Replay.{slots};
ghost use Rattle.registry_state.specs.Faults.{IsWindow};

use crate::family::{Family, may_register, number_named};
use crate::fault::{BadWindow, ChildFault, NewFault, RegisterFault, ScrapeFault};
use crate::handle::{FamilyId, Handle};
use crate::journal::Journal;
use crate::kept::Kept;
use crate::noted_child::{child_of, put_noted};
use crate::noted_family::push_noted;
use crate::ordering::place_of_name;
use crate::shown::Blank;
use crate::used::Used;
use expo_text::Scrape;
use metric_desc::{Desc, Kind};
use metric_names::{LabelValue, NoMemory};
use snapshot_scan::Source;
use std::alloc::Global;
use std::marker::Model;

/// What is registered, made and scraped, over a source of snapshots of `N` workers and of rows of `C` counters, `H` histograms
/// and `G` gauges.
///
/// Contracts see it as its id, its window, its source, its journal and its state. Whenever nobody is at work in it, the journal
/// replays to the state, and its scrapes are at most the window and the last of what the source recorded.
#[derive(Drop)]
pub struct RegistryState<
    S: Source<N, C, H, G>,
    const N: usize,
    const C: usize,
    const H: usize,
    const G: usize,
> {
    pub(crate) id: u64,
    pub(crate) window: usize,
    pub(crate) source: S,
    pub(crate) journal: Journal<N, C, H, G>,
    pub(crate) families: Vec<Family>,
    pub(crate) order: Vec<usize>,
    pub(crate) used: Used,
}

impl<S: Source<N, C, H, G>, const N: usize, const C: usize, const H: usize, const G: usize> Model
    for RegistryState<S, N, C, H, G> {
    ghost use Rattle.register_rule.specs.Members.{newest};
    ghost use Rattle.registry_state.specs.Journal.{scrapes};
    ghost use Rattle.registry_state.specs.Kept.{RegistryView};
    ghost use Rattle.registry_state.specs.Held.{used_of, IsHeld};

    ghost Value = { RegistryView S };

    ghost view = { λ r. record {
      id = r.id;
      window = r.window;
      source = r.source;
      journal = r.journal;
      state = record { families = r.families.items; last = newest (scrapes r.journal) };
    } };

    ghost invariant = { λ r. IsHeld N C H G (S.recorded r.source) r.journal r.window r.families.items r.order.items
        (used_of r.used.counters r.used.hists r.used.gauges) };
}

/// There is no registry. The source is handed back.
#[derive(Drop)]
pub struct NotMade<S> {
    /// The source, as it was.
    pub source: S,
    /// Why there is none.
    pub fault: NewFault,
}

/// How many slots of a kind a row has: `C` of counters, `H` of histograms, `G` of gauges.
pub fn slots_of<const C: usize, const H: usize, const G: usize>(kind: Kind) -> usize
    ensures { result ≡ slots C H G kind }
{
    match kind {
        Kind::Counter => C,
        Kind::Histogram => H,
        Kind::Gauge => G,
    }
}

/// The most scrapes that a registry may keep (`IsWindow`).
const MAX_WINDOW: usize = 1_024;

/// Whether a registry may keep so many scrapes.
pub(crate) fn is_window(window: usize) -> bool
    ensures { IsTrue result ↔ IsWindow window }
{
    1 <= window && window <= MAX_WINDOW
}

impl<
    S: Source<N, C, H, G>,
    const N: usize,
    const C: usize,
    const H: usize,
    const G: usize,
> RegistryState<S, N, C, H, G> {
    ghost use Rattle.std.specs.Prelude.{◌≡◌, ◌≢◌, ◌<◌, [], length, slice_get, All, IfErr, IfOk, IfSome, IsSomeAnd, MatchOption};
    ghost use Rattle.std.specs.Prelude.{OnErr, OnOk};
    ghost use Rattle.segment_layout.specs.Layout.{IsGeometry};
    ghost use Rattle.registry_state.specs.Journal.{Registered, scrapes, within};
    ghost use Rattle.std.specs.Prelude.{⊤};
    ghost use Rattle.registry_state.specs.Replay.{nothing, IsAcceptedChange, IsNew};
    ghost use Rattle.registry_state.specs.Faults.{IsChildFault, IsMissingChild, IsWindow, IsNewFault, IsRegisterFault};
    ghost use Rattle.registry_state.specs.Faults.{Leaves, AreFree};
    ghost use Rattle.registry_state.specs.Held.{IsPlaceOfValues};
    ghost use Rattle.registry_state.specs.Calls.{IsGiven, IsFound, IsInside, WasMade, changed, KeepsScrape};
    ghost use Rattle.registry_state.specs.Kept.{IsKept};
    ghost use Rattle.registry_state.specs.Shown.{IsShown};

    /// A registry of this id, with an empty journal and without families, that keeps `window` scrapes. Room for them is made
    /// here. It asks for `N` from 1 to 32, and at most 256, 32 and 64 for `C`, `H` and `G`. Over a board the id has to be the
    /// board's (`Board::id`): its workers refuse handles of another.
    ///
    /// # Errors
    ///
    /// 31 [`NewFault::BadWindow`] unless `window` is 1 to 1,024; then 6 [`NewFault::NoMemory`]. The source is handed back.
    pub fn new(
        alloc: Global,
        source: S,
        id: u64,
        window: usize,
    ) -> Result<RegistryState<S, N, C, H, G>, NotMade<S>>
        requires { IsGeometry N C H G }
        ensures made { IfOk result (λ r. r ≡ record {
          id = id;
          window = window;
          source = source;
          journal = [];
          state = nothing;
        }) }
        ensures window { OnOk result (IsWindow window) }
        ensures fault { IfErr result (λ e. IsNewFault window e.fault) }
        ensures back { IfErr result (λ e. e.source ≡ source) }
    {
        if !is_window(window) {
            return Err(NotMade {
                source,
                fault: NewFault::BadWindow,
            });
        }
        let Ok(journal) = Journal::new(alloc, window) else {
            return Err(NotMade {
                source,
                fault: NewFault::NoMemory,
            });
        };
        Ok(RegistryState {
            id,
            window,
            source,
            journal,
            families: Vec::new(alloc),
            order: Vec::new(alloc),
            used: Used::NONE,
        })
    }

    /// Registers a family of this descriptor, without children. Families are numbered from 0, in the order of their
    /// registration.
    ///
    /// # Errors
    ///
    /// 19 [`RegisterFault::Clash`] with the least family whose lines share a name with its; 23
    /// [`RegisterFault::TooManyFamilies`] where 128 are there; 6 [`RegisterFault::NoMemory`]. Nothing has changed then.
    pub fn register(&mut self, desc: Desc) -> Result<FamilyId, RegisterFault>
        ensures number { IfOk result (λ family. family.number ≡ length self.old.state.families) }
        ensures registered { OnOk result (self.new ≡ changed (Registered desc) self.old) }
        ensures accepted { OnOk result (IsAcceptedChange N C H G self.old.state.families (Registered desc)) }
        ensures fault { IfErr result (IsRegisterFault self.old.state.families desc) }
        ensures unchanged { OnErr result (self.new ≡ self.old) }
    {
        if let Err(fault) = may_register(&self.families, &desc) {
            return Err(fault);
        }
        match self.add(desc) {
            Ok(number) => Ok(FamilyId { number }),
            Err(NoMemory) => Err(RegisterFault::NoMemory),
        }
    }

    /// The family of this name, if there is one.
    pub fn family(&self, name: &str) -> Option<FamilyId>
        ensures few { IfSome result (λ family. family.number < 128) }
        ensures found { MatchOption result (All (λ it. it.desc.name ≢ name.now) self.now.state.families)
            (λ family. IsSomeAnd (slice_get self.now.state.families family.number) (λ it. it.desc.name ≡ name.now)) }
    {
        match number_named(&self.families, name) {
            Some(number) => Some(FamilyId { number }),
            None => None,
        }
    }

    /// The handle of the child of these label values. Where there is none, it is made, with the least free slot of the
    /// family's kind.
    ///
    /// # Errors
    ///
    /// 20 [`ChildFault::NoSuchFamily`]; 21 [`ChildFault::LabelCount`]; then, of a child that is not there, 22
    /// [`ChildFault::Full`] where every slot of the kind is used, and 6 [`ChildFault::NoMemory`]. Nothing has changed then.
    pub fn child(&mut self, family: FamilyId, values: &[LabelValue]) -> Result<Handle, ChildFault>
        ensures given { IfOk result (IsGiven C H G self.old self.new family.number values.now) }
        ensures inside { IfOk result (IsInside C H G) }
        ensures fault { IfErr result (IsChildFault C H G self.old.state.families family.number values.now) }
        ensures unchanged { OnErr result (self.new ≡ self.old) }
    {
        let number = family.number;
        let Some(it) = self.families.get(number) else {
            return Err(ChildFault::NoSuchFamily);
        };
        let (want, got) = (it.desc.labels().len(), values.len());
        if want != got {
            return Err(ChildFault::LabelCount { want, got });
        }
        match it.handle_of(self.id, values) {
            Ok(handle) => Ok(handle),
            Err(place) => self.make(number, place, values),
        }
    }

    /// Scans the source, keeps the answer, and gives all families with their numbers in it. All memory is taken before the scan.
    ///
    /// # Errors
    ///
    /// 6 [`ScrapeFault::NoMemory`]: nothing was scanned. 14 [`ScrapeFault::Contended`]: the scan was given up. Nothing is kept
    /// then.
    pub fn scrape(&mut self) -> Result<Scrape, ScrapeFault>
        ensures scraped { OnOk result (KeepsScrape N C H G S.recorded S.gave self.old self.new) }
        ensures quit { OnOk result (S.quit self.new.source ≡ S.quit self.old.source) }
        ensures shown { IfOk result
            (λ scrape. IsSomeAnd self.new.state.last (λ answer. IsShown C H self.new.state.families answer scrape)) }
        ensures fault { IfErr result (Leaves N S.recorded S.quit S.gave_up self.old.source self.new.source) }
        ensures unchanged { OnErr result ((self.new.journal ≡ self.old.journal) × (self.new.state ≡ self.old.state)
            × (self.new.id ≡ self.old.id) × (self.new.window ≡ self.old.window)) }
    {
        let alloc = *self.families.allocator();
        let Ok(blank) = Blank::new(alloc, N, &self.families, &self.order) else {
            return Err(ScrapeFault::NoMemory);
        };
        let window = self.window;
        self.journal.note_scrape(&mut self.source, window)?;
        let Some(newest) = self.journal.newest() else {
            unreachable!()
        };
        Ok(blank.fill(&self.families, &self.order, newest))
    }

    /// Scans the source, and keeps the answer: a scrape without what it shows, which [`RegistryState::kept`] has. Memory is taken
    /// only where there is no room for it.
    ///
    /// # Errors
    ///
    /// 6 [`ScrapeFault::NoMemory`]: nothing was scanned. 14 [`ScrapeFault::Contended`]: the scan was given up. Nothing is kept
    /// then.
    pub fn keep(&mut self) -> Result<(), ScrapeFault>
        ensures scraped { OnOk result (KeepsScrape N C H G S.recorded S.gave self.old self.new) }
        ensures quit { OnOk result (S.quit self.new.source ≡ S.quit self.old.source) }
        ensures fault { IfErr result (Leaves N S.recorded S.quit S.gave_up self.old.source self.new.source) }
        ensures unchanged { OnErr result ((self.new.journal ≡ self.old.journal) × (self.new.state ≡ self.old.state)
            × (self.new.id ≡ self.old.id) × (self.new.window ≡ self.old.window)) }
    {
        let window = self.window;
        self.journal.note_scrape(&mut self.source, window)?;
        Ok(())
    }

    /// How many families are registered.
    pub fn family_count(&self) -> usize
        ensures { result ≡ length self.now.state.families }
    {
        self.families.len()
    }

    /// How many slots of this kind are free: the last ones of the row.
    pub fn free_slots(&self, kind: Kind) -> usize
        ensures { AreFree C H G self.now.state.families kind result }
    {
        slots_of::<C, H, G>(kind) - self.used.of(kind)
    }

    /// The handle of the child of these label values, if there is one. `None`, too, where there is no family of this number.
    pub fn find(&self, family: FamilyId, values: &[LabelValue]) -> Option<Handle>
        ensures found { MatchOption result
            (MatchOption (slice_get self.now.state.families family.number) ⊤ (λ it. IsNew it values.now))
            (IsFound self.now.id self.now.state.families family.number values.now) }
        ensures inside { IfSome result (IsInside C H G) }
    {
        let it = self.families.get(family.number)?;
        match it.handle_of(self.id, values) {
            Ok(handle) => Some(handle),
            Err(_) => None,
        }
    }

    /// The journal, which replays to the state.
    pub fn journal(&self) -> &Journal<N, C, H, G>
        ensures journal { result.now ≡ self.now.journal }
        ensures kept { IsKept N C H G (S.recorded self.now.source) self.now.journal self.now.window self.now.state }
    {
        &self.journal
    }

    /// The scrapes that are kept, from the oldest to the newest.
    pub fn kept(&self) -> Kept<'_, N, C, H, G>
        ensures { result ≡ scrapes self.now.journal }
    {
        self.journal.kept()
    }

    /// Keeps `window` scrapes from now on, and answers how many are kept. Where more were kept, the oldest ones are dropped. It
    /// takes no memory: room for more is made by the scrapes that need it.
    ///
    /// # Errors
    ///
    /// 31 [`BadWindow`] unless `window` is 1 to 1,024. Nothing has changed then.
    pub fn set_window(&mut self, window: usize) -> Result<usize, BadWindow>
        ensures window { OnOk result (IsWindow window) }
        ensures set { OnOk result (self.new ≡ record self.old { window = window; journal = within window self.old.journal }) }
        ensures count { IfOk result (λ count. count ≡ length (scrapes self.new.journal)) }
        ensures refused { OnErr result (¬ (IsWindow window)) }
        ensures unchanged { OnErr result (self.new ≡ self.old) }
    {
        if !is_window(window) {
            return Err(BadWindow);
        }
        self.journal.trim(window);
        self.window = window;
        Ok(self.journal.kept().len())
    }

    /// The id that its handles have.
    pub fn id(&self) -> u64
        ensures { result ≡ self.now.id }
    {
        self.id
    }

    /// The source.
    pub fn into_source(self) -> S
        ensures source { result ≡ self.source }
    {
        self.source
    }

    /// The source, and the journal.
    pub fn into_parts(self) -> (S, Journal<N, C, H, G>)
        ensures source { result.0 ≡ self.source }
        ensures journal { result.1 ≡ self.journal }
        ensures kept { IsKept N C H G (S.recorded self.source) self.journal self.window self.state }
    {
        (self.source, self.journal)
    }

    // Registers a family that is accepted.
    fn add(&mut self, desc: Desc) -> Result<usize, NoMemory>
        requires { IsAcceptedChange N C H G self.old.state.families (Registered desc) }
        ensures number { IfOk result (λ number. number ≡ length self.old.state.families) }
        ensures registered { OnOk result (self.new ≡ changed (Registered desc) self.old) }
        ensures unchanged { OnErr result (self.new ≡ self.old) }
    {
        let number = self.families.len();
        let place = place_of_name(&self.families, &self.order, desc.name().as_str());
        push_noted(
            &mut self.journal,
            &mut self.families,
            &mut self.order,
            place,
            desc,
        )?;
        Ok(number)
    }

    // Makes the child of these values, which is not there, at its place among its family's.
    fn make(
        &mut self,
        number: usize,
        place: usize,
        values: &[LabelValue],
    ) -> Result<Handle, ChildFault>
        requires wanted { IsSomeAnd (slice_get self.old.state.families number) (λ it. IsMissingChild it values.now) }
        requires place { IsSomeAnd (slice_get self.old.state.families number)
            (λ it. IsPlaceOfValues it.children values.now place) }
        ensures made { IfOk result (WasMade C H G self.old self.new number values.now) }
        ensures inside { IfOk result (IsInside C H G) }
        ensures fault { IfErr result (IsChildFault C H G self.old.state.families number values.now) }
        ensures unchanged { OnErr result (self.new ≡ self.old) }
    {
        let alloc = *self.families.allocator();
        let desc = &self.families[number].desc;
        let kind = desc.kind();
        let slot = self.used.of(kind);
        let slots = slots_of::<C, H, G>(kind);
        if slot >= slots {
            return Err(ChildFault::Full { kind, slots });
        }
        let handle = Handle::of(self.id, desc, slot);
        let child = child_of(alloc, values, slot)?;
        put_noted(&mut self.journal, &mut self.families, number, place, child)?;
        self.used = self.used.with_one_more(kind);
        Ok(handle)
    }
}
