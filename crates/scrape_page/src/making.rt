//! A child is made, on a board that has room for it.
ghost use Rattle.std.specs.Prelude.{◌≡◌, ◌<◌, length, slice_get, IsSomeAnd, OnErr, OnOk, IfOk};
ghost use Rattle.registry_state.specs.Replay.{IsApart};
ghost use Rattle.registry_state.specs.Faults.{HasSlot, IsMissingChild};
ghost use Rattle.registry_state.specs.Calls.{IsInside};
ghost use Rattle.scrape_page.specs.Places.{HasPart};
ghost use Rattle.scrape_page.specs.Calls.{AddsPart, IsMadeOn};

use crate::family::{PageFamily, Part};
use crate::registering::register_on;
use metric_names::{LabelValue, NoMemory};
use registry_state::{ChildFault, Handle, RegistryState};
use snapshot_scan::Source;

/// Registers the family of this number on a further board, and notes the part, or does nothing.
///
/// Refusal 6 [`NoMemory`], and no other.
pub(crate) fn take_part<
    S: Source<N, C, H, G>,
    const N: usize,
    const C: usize,
    const H: usize,
    const G: usize,
>(
    boards: &mut Vec<RegistryState<S, N, C, H, G>>,
    families: &mut Vec<PageFamily>,
    number: usize,
    place: usize,
) -> Result<Part, NoMemory>
    requires { IsSomeAnd (slice_get families.old.items number) (λ it. IsSomeAnd (slice_get boards.old.items place)
        (λ board. (length board.state.families < 128) × IsApart board.state.families it.desc)) }
    ensures taken { IfOk result (AddsPart
        (record { boards = boards.old.items; families = families.old.items })
        (record { boards = boards.new.items; families = families.new.items }) number) }
    ensures place { IfOk result (λ part. part.board ≡ place) }
    ensures unchanged { OnErr result ((boards.new.items ≡ boards.old.items) × (families.new.items ≡ families.old.items)) }
{
    let it = &mut families[number];
    it.parts.reserve(1)?;
    let family = register_on(boards, place, it.desc.copy()?)?;
    let part = Part {
        board: place,
        family,
    };
    // The room was made above.
    it.parts.push_reserved(part);
    Ok(part)
}

/// Makes the child of these values on the board of a part, which has room for it.
///
/// Refusal 6 [`NoMemory`], and no other.
pub(crate) fn make_on<
    S: Source<N, C, H, G>,
    const N: usize,
    const C: usize,
    const H: usize,
    const G: usize,
>(
    boards: &mut Vec<RegistryState<S, N, C, H, G>>,
    part: Part,
    values: &[LabelValue],
) -> Result<Handle, NoMemory>
    requires { HasPart boards.old.items part (λ board it. IsMissingChild it values.now
        × HasSlot C H G board.state.families it.desc.kind) }
    ensures made { IfOk result (IsMadeOn C H G boards.old.items boards.new.items part values.now) }
    ensures inside { IfOk result (IsInside C H G) }
    ensures unchanged { OnErr result (boards.new.items ≡ boards.old.items) }
{
    match boards[part.board].child(part.family, values) {
        Ok(handle) => Ok(handle),
        Err(ChildFault::NoMemory) => Err(NoMemory),
        Err(ChildFault::NoSuchFamily | ChildFault::LabelCount { .. } | ChildFault::Full { .. }) =>
            unreachable!(),
    }
}
