//! A page.
ghost use Rattle.std.specs.Prelude.{◌≡◌};

use crate::boards::{home_of_group, is_fresh};
use crate::family::{PageFamily, PageFamilyId};
use crate::fault::{BoardFault, PageChildFault, PageFamilyFault};
use crate::naming::{may_register, number_named, place_of_name};
use crate::registering::push_registered;
use crate::rooms::roomiest;
use crate::seeking::Sought;
use metric_desc::{Desc, Kind};
use metric_names::{LabelValue, NoMemory};
use registry_state::{Handle, RegistryState};
use snapshot_scan::Source;
use std::alloc::Global;
use std::marker::Model;

/// One to 96 registries without a lock, each over a board of its own, and the families that are spread over them.
///
/// Contracts see it as a `PageView`: its boards and its families. Whenever nobody is at work in it, it is a page (`IsPage`): over
/// all boards a name belongs to one descriptor, no two of which clash, and no label values are those of two children of a family.
pub struct Page<
    S: Source<N, C, H, G>,
    const N: usize,
    const C: usize,
    const H: usize,
    const G: usize,
> {
    pub(crate) boards: Vec<RegistryState<S, N, C, H, G>>,
    pub(crate) families: Vec<PageFamily>,
    pub(crate) order: Vec<usize>,
}

// Written out, so that it is proved once, and no crate that lets a page go has to.
impl<
    S: Source<N, C, H, G> + Drop,
    const N: usize,
    const C: usize,
    const H: usize,
    const G: usize,
> Drop for Page<S, N, C, H, G> {
    fn drop(self) {
        // A look at the boards tells the proof how large one is.
        let _boards = self.boards.as_slice();
        let Page {
            boards: _,
            families: _,
            order: _,
        } = self;
    }
}

impl<S: Source<N, C, H, G>, const N: usize, const C: usize, const H: usize, const G: usize> Model
    for Page<S, N, C, H, G> {
    ghost use Rattle.scrape_page.specs.Families.{PageView};
    ghost use Rattle.scrape_page.specs.Kept.{IsHeldPage};

    ghost Value = { PageView S };

    ghost view = { λ p. record { boards = p.boards.items; families = p.families.items } };

    ghost invariant = { λ p. IsHeldPage (record { boards = p.boards.items; families = p.families.items }) p.order.items };
}

/// A board that a page has not taken. It is handed back.
#[derive(Drop)]
pub struct NotTaken<X> {
    /// The board, as it was.
    pub board: X,
    /// Why it was not taken.
    pub fault: BoardFault,
}

/// The most boards of a page (`IsPage`).
const MAX_BOARDS: usize = 96;

impl<S: Source<N, C, H, G>, const N: usize, const C: usize, const H: usize, const G: usize> Page<
    S,
    N,
    C,
    H,
    G,
> {
    ghost use Rattle.std.specs.Prelude.{◌≡◌, ◌≢◌, ◌<◌, ◌++◌, ◌∷◌, [], length, slice_get, All, IfErr, IfOk, IfSome};
    ghost use Rattle.std.specs.Prelude.{IsSomeAnd, MatchOption};
    ghost use Rattle.std.specs.Prelude.{ℕ, OnErr, OnOk};
    ghost use Rattle.registry_state.specs.Calls.{IsInside};
    ghost use Rattle.scrape_page.specs.Kept.{IsPage};
    ghost use Rattle.scrape_page.specs.Rooms.{IsHome};
    ghost use Rattle.scrape_page.specs.Faults.{AreApart, IsFresh, IsBoardFault, IsPageFamilyFault, IsPageChildFault};
    ghost use Rattle.scrape_page.specs.Calls.{AddsFamily, IsGivenOnPage, LeavesPage};

    /// A page of one board, without families. The id of its registry has to be the board's (`Board::id`), here and in
    /// [`Page::add_board`]: a handle tells its board by it.
    ///
    /// # Errors
    ///
    /// 45 [`BoardFault::NotFresh`] where a family is registered on it; then 6 [`BoardFault::NoMemory`]. The board is handed back.
    pub fn new(
        alloc: Global,
        board: RegistryState<S, N, C, H, G>,
    ) -> Result<Page<S, N, C, H, G>, NotTaken<RegistryState<S, N, C, H, G>>>
        ensures made { IfOk result (λ page. page ≡ record { boards = board ∷ []; families = [] }) }
        ensures fresh { OnOk result (IsFresh [] board) }
        ensures fault { IfErr result (λ refused. IsBoardFault [] board refused.fault) }
        ensures back { IfErr result (λ refused. refused.board ≡ board) }
    {
        if board.family_count() > 0 {
            return Err(NotTaken {
                board,
                fault: BoardFault::NotFresh,
            });
        }
        let Ok(mut boards) = Vec::with_capacity(alloc, 1) else {
            return Err(NotTaken {
                board,
                fault: BoardFault::NoMemory,
            });
        };
        boards.push_reserved(board);
        Ok(Page {
            boards,
            families: Vec::new(alloc),
            order: Vec::new(alloc),
        })
    }

    /// Takes a further board, behind those that are there, and answers its number.
    ///
    /// # Errors
    ///
    /// 44 [`BoardFault::TooManyBoards`] where 96 are there; 45 [`BoardFault::NotFresh`] where a family is registered on it, or a
    /// board has its id; 6 [`BoardFault::NoMemory`]. The board is handed back, and nothing has changed.
    pub fn add_board(
        &mut self,
        board: RegistryState<S, N, C, H, G>,
    ) -> Result<usize, NotTaken<RegistryState<S, N, C, H, G>>>
        ensures number { IfOk result (λ number. number ≡ length self.old.boards) }
        ensures added { OnOk result (self.new ≡ record self.old { boards = self.old.boards ++ board ∷ [] }) }
        ensures fresh { OnOk result ((length self.old.boards < 96) × IsFresh self.old.boards board) }
        ensures fault { IfErr result (λ refused. IsBoardFault self.old.boards board refused.fault) }
        ensures back { IfErr result (λ refused. refused.board ≡ board) }
        ensures unchanged { OnErr result (self.new ≡ self.old) }
    {
        let number = self.boards.len();
        if number >= MAX_BOARDS {
            return Err(NotTaken {
                board,
                fault: BoardFault::TooManyBoards,
            });
        }
        if !is_fresh(&self.boards, &board) {
            return Err(NotTaken {
                board,
                fault: BoardFault::NotFresh,
            });
        }
        if self.boards.reserve(1).is_err() {
            return Err(NotTaken {
                board,
                fault: BoardFault::NoMemory,
            });
        }
        self.boards.push_reserved(board);
        Ok(number)
    }

    /// Registers a family of this descriptor, without children, in a group. It is on the board of its group: what is in one group
    /// is of one moment as long as it is on that board. A new group is on the board with most free slots of the kind; of several
    /// such, on the one with fewest families, of several the first. Families are numbered from 0, in the order of their
    /// registration.
    ///
    /// # Errors
    ///
    /// 19 [`PageFamilyFault::Clash`] with the least family of the page whose lines share a name with its, whichever its group is;
    /// 23 [`PageFamilyFault::TooManyFamilies`] where 128 are there; 6 [`PageFamilyFault::NoMemory`]. Nothing has changed then, on
    /// any board.
    pub fn register(&mut self, desc: Desc, group: u64) -> Result<PageFamilyId, PageFamilyFault>
        ensures number { IfOk result (λ family. family.number ≡ length self.old.families) }
        ensures accepted { OnOk result (AreApart self.old.families desc × (length self.old.families < 128)) }
        ensures registered { OnOk result ((home : ℕ) × IsHome C H G self.old desc.kind group home
            × AddsFamily self.old self.new desc group home) }
        ensures fault { IfErr result (IsPageFamilyFault self.old.families desc) }
        ensures unchanged { OnErr result (self.new ≡ self.old) }
    {
        may_register(&self.families, &desc)?;
        let home = self.home_of(desc.kind(), group);
        let number = self.families.len();
        match self.add_family(desc, group, home) {
            Ok(()) => Ok(PageFamilyId { number }),
            Err(NoMemory) => Err(PageFamilyFault::NoMemory),
        }
    }

    /// The family of this name, if there is one.
    pub fn family(&self, name: &str) -> Option<PageFamilyId>
        ensures { MatchOption result (All (λ it. it.desc.name ≢ name.now) self.now.families)
            (λ family. IsSomeAnd (slice_get self.now.families family.number) (λ it. it.desc.name ≡ name.now)) }
    {
        match number_named(&self.families, name) {
            Some(number) => Some(PageFamilyId { number }),
            None => None,
        }
    }

    /// The handle of the child of these label values, whichever board it is on; a recorder of another board refuses it (16).
    /// Where there is none, it is made: on the first board of the family's that has a free slot; or else the family takes a part
    /// on the board where a new group would be.
    ///
    /// # Errors
    ///
    /// 20 [`PageChildFault::NoSuchFamily`]; 21 [`PageChildFault::LabelCount`]; then, of a child that is not there, 46
    /// [`PageChildFault::TooManyChildren`], 22 [`PageChildFault::Full`] where every slot of the kind is used on every board (then
    /// a further board can be taken: [`Page::add_board`]), and 6 [`PageChildFault::NoMemory`]. Nothing has changed then, but that
    /// after 6 the family may have taken a part on a further board, without children, which no text shows.
    pub fn child(
        &mut self,
        family: PageFamilyId,
        values: &[LabelValue],
    ) -> Result<Handle, PageChildFault>
        ensures given { IfOk result (IsGivenOnPage C H G self.old self.new family.number values.now) }
        ensures inside { IfOk result (IsInside C H G) }
        ensures fault { IfErr result (IsPageChildFault C H G self.old family.number values.now) }
        ensures leaves { IfErr result (LeavesPage C H G self.old self.new family.number) }
    {
        let number = family.number;
        match self.seek(number, values)? {
            Sought::There(handle) => Ok(handle),
            Sought::Room(part) => match self.make_there(number, part, values) {
                Ok(handle) => Ok(handle),
                Err(NoMemory) => Err(PageChildFault::NoMemory),
            },
            Sought::Full(kind) => self.make_further(number, kind, values),
        }
    }

    // The board of a new family of this kind in this group.
    fn home_of(&self, kind: Kind, group: u64) -> usize
        ensures { IsHome C H G self.now kind group result }
    {
        // A look at the boards tells the proof how large one is.
        let boards = self.boards.as_slice();
        match home_of_group(&self.families, group) {
            Some(home) => home,
            None => roomiest(boards, kind).board,
        }
    }

    // Registers a family that is accepted, on the board of its group.
    fn add_family(&mut self, desc: Desc, group: u64, home: usize) -> Result<(), NoMemory>
        requires accepted { AreApart self.old.families desc × (length self.old.families < 128) }
        requires home { IsHome C H G self.old desc.kind group home }
        ensures registered { OnOk result (AddsFamily self.old self.new desc group home) }
        ensures unchanged { OnErr result (self.new ≡ self.old) }
    {
        let place = place_of_name(&self.families, &self.order, desc.name().as_str());
        // A look at the boards tells the proof how large one is.
        let _boards = self.boards.as_slice();
        push_registered(
            &mut self.boards,
            &mut self.families,
            &mut self.order,
            place,
            desc,
            group,
            home,
        )
    }

    /// The boards, in the order in which they came. What a page keeps of them the clause says.
    pub fn boards(&self) -> &[RegistryState<S, N, C, H, G>]
        ensures boards { result.now ≡ self.now.boards }
        ensures kept { IsPage self.now }
    {
        &self.boards
    }

    /// The families, in the order of their registration.
    pub fn families(&self) -> &[PageFamily]
        ensures { result.now ≡ self.now.families }
    {
        &self.families
    }

    /// The boards.
    pub fn into_boards(self) -> Vec<RegistryState<S, N, C, H, G>>
        ensures { result.items ≡ self.boards }
    {
        let Page {
            boards,
            families: _,
            order: _,
        } = self;
        boards
    }
}
