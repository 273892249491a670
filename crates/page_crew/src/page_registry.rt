//! A page behind a lock.
ghost use Rattle.std.specs.Prelude.{◌≡◌, ◌≢◌, ℕ, ◌<◌, All, IfErr, IfOk, IfSome, OnErr, OnOk};
ghost use Rattle.registry_state.specs.Calls.{IsInside};
ghost use Rattle.registry_state.specs.Kept.{IsKept};
ghost use Rattle.page_crew.specs.Locking.{IsIdOf, IsOfPage, ShowsMoments};

use crate::fault::NoBoard;
use crate::owner::PageCrew;
use expo_text::Scrape;
use ledger_core::{Counter, Gauge, Histogram};
use metric_desc::Desc;
use metric_names::LabelValue;
use registry_state::{BadWindow, Handle, RegistryState};
use scrape_http::{NoScrape, ScrapeFrom};
use scrape_page::{PageChildFault, PageFamilyFault, PageFamilyId};
use snapshot_scan::Source;
use std::alloc::AllocError;
use std::sync::{Mutex, Wait};

/// The most boards of a page.
const MOST: u64 = 96;

/// A page with all who work on its boards, behind one lock.
///
/// Its calls take `&self`, so that any number of threads may share it. They wait for the lock, in no order that is promised;
/// while a scrape or a board is made, the others wait for it. Recorders count on the boards meanwhile, and know nothing of the
/// lock.
///
/// Whatever the calls were, whenever the lock is free it is a page, each of whose boards keeps what a registry keeps: that is
/// what [`PageRegistry::into_crew`] promises. Which of its states a call under the lock meets no clause says, since others may
/// have come between.
pub struct PageRegistry<const N: usize, const C: usize, const H: usize, const G: usize> {
    first: u64,
    crew: Mutex<PageCrew<N, C, H, G>>,
}

impl<const N: usize, const C: usize, const H: usize, const G: usize> Drop
    for PageRegistry<N, C, H, G> {
    fn drop(self) {
        let PageRegistry { first: _, crew: _ } = self;
    }
}

/// The id itself, which is one that a board of the page may have already; but which page is behind a lock no proof knows.
fn within_page(first: u64, id: u64) -> u64
    ensures page { IsIdOf first result }
    ensures same { IsIdOf first id → result ≡ id }
{
    if id < first || id - first >= MOST {
        return first;
    }
    id
}

/// The handle, of a board of the page whose first board has this id. It is of one already.
fn of_page(first: u64, handle: Handle) -> Handle
    ensures page { IsOfPage first result }
    ensures same { IsOfPage first handle → result ≡ handle }
    ensures inside { (c h g : ℕ) → IsInside c h g handle → IsInside c h g result }
{
    match handle {
        Handle::Counter(counter) => Handle::Counter(Counter {
            registry: within_page(first, counter.registry),
            ..counter
        }),
        Handle::Histogram(hist) => Handle::Histogram(Histogram {
            registry: within_page(first, hist.registry),
            ..hist
        }),
        Handle::Gauge(gauge) => Handle::Gauge(Gauge {
            registry: within_page(first, gauge.registry),
            ..gauge
        }),
    }
}

/// A look into the journal of each board tells the proof what the boards keep.
fn look_at<S: Source<N, C, H, G>, const N: usize, const C: usize, const H: usize, const G: usize>(
    boards: &[RegistryState<S, N, C, H, G>],
)
    ensures { All (λ board. IsKept N C H G (S.recorded board.source) board.journal board.window board.state) boards.now }
{
    for board in boards {
        let _ = board.journal();
    }
}

impl<const N: usize, const C: usize, const H: usize, const G: usize> PageRegistry<N, C, H, G> {
    ghost use Rattle.registry_state.specs.Faults.{IsWindow};
    ghost use Rattle.page_crew.specs.declared.fault.NoBoard.TheVariants.{Geometry};
    ghost use Rattle.page_crew.specs.Owned.{first_of, page_of};
    ghost use Rattle.page_crew.specs.Locking.{id_of, IsKeptPage};

    /// Puts a page behind a lock.
    pub fn lock(crew: PageCrew<N, C, H, G>) -> PageRegistry<N, C, H, G>
        ensures { id_of result ≡ first_of crew.entry }
    {
        PageRegistry {
            first: crew.first(),
            crew: Mutex::new(crew),
        }
    }

    /// The id of its first board; the others follow it. It does not wait for the lock.
    pub fn id(&self) -> u64
        ensures { result ≡ id_of self.now }
    {
        self.first
    }

    /// Registers a family in a group, without children: [`PageCrew::register`] behind the lock.
    ///
    /// # Errors
    ///
    /// 19 [`PageFamilyFault::Clash`] with the least family whose lines take a name of this one's; 23
    /// [`PageFamilyFault::TooManyFamilies`] where 128 are there; 6 [`PageFamilyFault::NoMemory`]. Nothing has changed then.
    pub fn register<R: Wait>(
        &self,
        rt: &R,
        desc: Desc,
        group: u64,
    ) -> Result<PageFamilyId, PageFamilyFault>
        ensures few { IfOk result (λ family. family.number < 128) }
    {
        let mut crew = self.crew.lock(rt);
        crew.register(desc, group)
    }

    /// The family of this name, if there is one: [`PageCrew::family`] behind the lock.
    pub fn family<R: Wait>(&self, rt: &R, name: &str) -> Option<PageFamilyId>
        ensures few { IfSome result (λ family. family.number < 128) }
    {
        let crew = self.crew.lock(rt);
        // A look at the boards tells the proof how many families there are.
        let _ = crew.page().boards();
        crew.family(name)
    }

    /// The handle of the child of these label values, whichever board it is on: [`PageCrew::child`] behind the lock. Where there
    /// is none it is made; where every slot of its kind is used on every board, a board is made for it first, so this allocates,
    /// and the other calls wait meanwhile. A thread that counts asks once and keeps the handle.
    ///
    /// # Errors
    ///
    /// 20 [`PageChildFault::NoSuchFamily`]; 21 [`PageChildFault::LabelCount`]; then, of a child that is not there, 46
    /// [`PageChildFault::TooManyChildren`], 22 [`PageChildFault::Full`] only where 96 boards are there or a board has no slot of
    /// the kind, and 6 [`PageChildFault::NoMemory`]. After 6 there may be one board more, on which nothing is counted, and a part
    /// of the family on a further board, which no text shows; else nothing has changed.
    pub fn child<R: Wait>(
        &self,
        rt: &R,
        family: PageFamilyId,
        values: &[LabelValue],
    ) -> Result<Handle, PageChildFault>
        ensures page { IfOk result (IsOfPage (id_of self.now)) }
        ensures inside { IfOk result (IsInside C H G) }
    {
        let mut crew = self.crew.lock(rt);
        match crew.child(family, values) {
            Ok(handle) => Ok(of_page(self.first, handle)),
            Err(fault) => Err(fault),
        }
    }

    /// Makes a further board, behind those that are there, and answers its number: [`PageCrew::add_board`] behind the lock.
    ///
    /// # Errors
    ///
    /// 44 [`NoBoard::TooManyBoards`], 96 are there; 6 [`NoBoard::NoMemory`]; 13 never, since the boards that are there have this
    /// geometry. Nothing has changed then.
    pub fn add_board<R: Wait>(&self, rt: &R) -> Result<usize, NoBoard>
        ensures further { IfOk result (λ number. (0 < number) × (number < 96)) }
        ensures geometry { IfErr result (λ why. why ≢ Geometry) }
    {
        let mut crew = self.crew.lock(rt);
        // A look at the boards tells the proof that there is one.
        let _ = crew.page().boards();
        let added = crew.add_board();
        let _ = crew.page().boards();
        added
    }

    /// One scrape of all boards, shown as one: [`PageCrew::scrape`] behind the lock. The text is made of it afterwards, when the
    /// lock is free again.
    ///
    /// # Errors
    ///
    /// 14 [`NoScrape::Contended`] where a board's scan was given up four times; 6 [`NoScrape::NoMemory`]. The boards before it
    /// have kept their scrapes then.
    pub fn scrape<R: Wait>(&self, rt: &R) -> Result<Scrape, NoScrape>
        ensures moments { IfOk result (ShowsMoments N C H G) }
    {
        let mut crew = self.crew.lock(rt);
        let scrape = crew.scrape();
        look_at(crew.page().boards());
        scrape
    }

    /// Keeps `window` scrapes of each board from now on, also of those that come later: [`PageCrew::set_window`] behind the lock.
    /// It takes no memory.
    ///
    /// # Errors
    ///
    /// 31 [`BadWindow`] unless `window` is 1 to 1,024. Nothing has changed then.
    pub fn set_window<R: Wait>(&self, rt: &R, window: usize) -> Result<(), BadWindow>
        ensures window { OnOk result (IsWindow window) }
        ensures refused { OnErr result (¬ (IsWindow window)) }
    {
        let mut crew = self.crew.lock(rt);
        crew.set_window(window)
    }

    /// What stood behind the lock.
    pub fn into_crew(self) -> PageCrew<N, C, H, G>
        ensures { IsKeptPage (page_of result) }
    {
        let PageRegistry { first: _, crew } = self;
        let crew = crew.into_inner();
        look_at(crew.page().boards());
        crew
    }
}

/// A page behind its lock, as a source of scrapes. A scrape waits for the lock, which is free again before the text is made.
///
/// A scrape shows of each board of a page one moment of a history of publishes, and the families that were on it then. That it is
/// this page, and its newest moment, only tests show.
pub struct FromPage<'a, T: Wait, const N: usize, const C: usize, const H: usize, const G: usize> {
    /// The runtime that waits.
    pub rt: &'a T,
    /// The page.
    pub page: &'a PageRegistry<N, C, H, G>,
}

impl<T: Wait, const N: usize, const C: usize, const H: usize, const G: usize> Clone
    for FromPage<'_, T, N, C, H, G> {
    fn clone(&self) -> Result<Self, AllocError> {
        Ok(*self)
    }
}

impl<T: Wait, const N: usize, const C: usize, const H: usize, const G: usize> Copy
    for FromPage<'_, T, N, C, H, G> {}

impl<T: Wait, const N: usize, const C: usize, const H: usize, const G: usize> ScrapeFrom
    for FromPage<'_, T, N, C, H, G> {
    ghost again = { 0 };

    ghost gave = { λ before after answer. (after ≡ before) × IfOk answer (ShowsMoments N C H G) };

    /// The page's scrape.
    fn scrape(&mut self) -> Result<Scrape, NoScrape> {
        self.page.scrape(self.rt)
    }

    /// A page is not asked again: it has asked each board again by itself.
    fn again(&self) -> usize {
        0
    }
}
