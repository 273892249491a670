//! A page grows by a child.
ghost use Rattle.std.specs.Prelude.{◌≡◌};

use crate::family::Part;
use crate::fault::PageChildFault;
use crate::making::{make_on, take_part};
use crate::page::Page;
use crate::rooms::roomiest;
use metric_desc::Kind;
use metric_names::{LabelValue, NoMemory};
use registry_state::{Handle, slots_of};
use snapshot_scan::Source;

impl<S: Source<N, C, H, G>, const N: usize, const C: usize, const H: usize, const G: usize> Page<
    S,
    N,
    C,
    H,
    G,
> {
    ghost use Rattle.std.specs.Prelude.{◌≡◌, ℕ, ◌<◌, slice_get, All, Contains, IfErr, IfOk, IsSomeAnd, OnErr};
    ghost use Rattle.registry_state.specs.Calls.{IsInside};
    ghost use Rattle.scrape_page.specs.Rooms.{HasRoom, IsFullPart, IsRoomiest};
    ghost use Rattle.scrape_page.specs.Faults.{IsMissing, IsPageChildFault};
    ghost use Rattle.scrape_page.specs.Calls.{AddsPart, AddsChild, WasMadeFurther, LeavesPage};

    // Makes a child on the board of a part that has room.
    pub(crate) fn make_there(
        &mut self,
        number: usize,
        part: Part,
        values: &[LabelValue],
    ) -> Result<Handle, NoMemory>
        requires { IsSomeAnd (slice_get self.old.families number) (λ it. IsMissing self.old.boards it values.now
            × (it.children < 256) × Contains it.parts part
            × IsSomeAnd (slice_get self.old.boards part.board) (HasRoom C H G it.desc.kind)) }
        ensures made { IfOk result (AddsChild C H G self.old self.new number part values.now) }
        ensures inside { IfOk result (IsInside C H G) }
        ensures unchanged { OnErr result (self.new ≡ self.old) }
    {
        // A look at the boards tells the proof how large one is.
        let _boards = self.boards.as_slice();
        let handle = make_on(&mut self.boards, part, values)?;
        let it = &mut self.families[number];
        it.children += 1;
        Ok(handle)
    }

    // The family of this number, whose parts are on full boards, takes a part on another.
    fn add_part(&mut self, number: usize, place: usize) -> Result<Part, NoMemory>
        requires { IsSomeAnd (slice_get self.old.families number) (λ it. All (IsFullPart C H G it.desc.kind self.old.boards)
            it.parts
            × IsSomeAnd (slice_get self.old.boards place) (HasRoom C H G it.desc.kind)) }
        ensures taken { IfOk result (AddsPart self.old self.new number) }
        ensures place { IfOk result (λ part. part.board ≡ place) }
        ensures unchanged { OnErr result (self.new ≡ self.old) }
    {
        // A look at the boards tells the proof how large one is.
        let _boards = self.boards.as_slice();
        take_part(&mut self.boards, &mut self.families, number, place)
    }

    // The board on which a family of this kind, whose parts are on full boards, would take a further part. It has a free slot.
    pub(crate) fn further(
        &self,
        number: usize,
        kind: Kind,
        values: &[LabelValue],
    ) -> Result<usize, PageChildFault>
        requires { IsSomeAnd (slice_get self.now.families number) (λ it. IsMissing self.now.boards it values.now
            × (it.children < 256) × (kind ≡ it.desc.kind) × All (IsFullPart C H G it.desc.kind self.now.boards) it.parts) }
        ensures place { IfOk result (λ place. (room : ℕ) × IsRoomiest C H G kind self.now.boards place room × (0 < room)) }
        ensures fault { IfErr result (IsPageChildFault C H G self.now number values.now) }
    {
        let room = roomiest(&self.boards, kind);
        if room.free == 0 {
            return Err(PageChildFault::Full {
                kind,
                slots: slots_of::<C, H, G>(kind),
            });
        }
        Ok(room.board)
    }

    // Makes a child of a family of this kind whose parts are on full boards.
    pub(crate) fn make_further(
        &mut self,
        number: usize,
        kind: Kind,
        values: &[LabelValue],
    ) -> Result<Handle, PageChildFault>
        requires { IsSomeAnd (slice_get self.old.families number) (λ it. IsMissing self.old.boards it values.now
            × (it.children < 256) × (kind ≡ it.desc.kind) × All (IsFullPart C H G it.desc.kind self.old.boards) it.parts) }
        ensures made { IfOk result (WasMadeFurther C H G self.old self.new number values.now) }
        ensures inside { IfOk result (IsInside C H G) }
        ensures fault { IfErr result (IsPageChildFault C H G self.old number values.now) }
        ensures leaves { IfErr result (LeavesPage C H G self.old self.new number) }
    {
        let place = self.further(number, kind, values)?;
        let Ok(part) = self.add_part(number, place) else {
            return Err(PageChildFault::NoMemory);
        };
        match self.make_there(number, part, values) {
            Ok(handle) => Ok(handle),
            Err(NoMemory) => Err(PageChildFault::NoMemory),
        }
    }
}
