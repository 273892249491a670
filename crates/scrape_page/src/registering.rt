//! A family is registered on a board, and noted by its page, or neither is done.
ghost use Rattle.std.specs.Prelude.{◌≡◌, ◌<◌, ◌≤◌, ◌++◌, ◌∷◌, [], length, slice_get, IsSomeAnd, OnErr, OnOk, IfOk};
ghost use Rattle.std.specs.List.{insert};
ghost use Rattle.registry_state.specs.Replay.{IsApart};
ghost use Rattle.scrape_page.specs.Calls.{AddsFamily, IsRegisteredOn};

use crate::family::{PageFamily, Part};
use metric_desc::Desc;
use metric_names::NoMemory;
use registry_state::{FamilyId, RegisterFault, RegistryState};
use snapshot_scan::Source;
use std::sync::Arc;

/// Registers a family of this descriptor on the board of this number.
///
/// Refusal 6 [`NoMemory`], and no other.
pub(crate) fn register_on<
    S: Source<N, C, H, G>,
    const N: usize,
    const C: usize,
    const H: usize,
    const G: usize,
>(
    boards: &mut Vec<RegistryState<S, N, C, H, G>>,
    place: usize,
    desc: Desc,
) -> Result<FamilyId, NoMemory>
    requires { IsSomeAnd (slice_get boards.old.items place) (λ board. (length board.state.families < 128)
        × IsApart board.state.families desc) }
    ensures registered { IfOk result (λ family. IsRegisteredOn boards.old.items boards.new.items place desc family.number) }
    ensures unchanged { OnErr result (boards.new.items ≡ boards.old.items) }
{
    match boards[place].register(desc) {
        Ok(family) => Ok(family),
        Err(RegisterFault::NoMemory) => Err(NoMemory),
        Err(RegisterFault::Clash { .. } | RegisterFault::TooManyFamilies) => unreachable!(),
    }
}

/// Registers a family of this descriptor on the board of this number, puts it behind the page's families, and its number at this
/// place of their order, or does nothing.
///
/// Refusal 6 [`NoMemory`], and no other.
pub(crate) fn push_registered<
    S: Source<N, C, H, G>,
    const N: usize,
    const C: usize,
    const H: usize,
    const G: usize,
>(
    boards: &mut Vec<RegistryState<S, N, C, H, G>>,
    families: &mut Vec<PageFamily>,
    order: &mut Vec<usize>,
    place: usize,
    desc: Desc,
    group: u64,
    home: usize,
) -> Result<(), NoMemory>
    requires place { place ≤ length order.old.items }
    requires home { IsSomeAnd (slice_get boards.old.items home) (λ board. (length board.state.families < 128)
        × IsApart board.state.families desc) }
    ensures registered { OnOk result (AddsFamily
        (record { boards = boards.old.items; families = families.old.items })
        (record { boards = boards.new.items; families = families.new.items }) desc group home) }
    ensures placed { OnOk result (order.new.items ≡ insert order.old.items place (length families.old.items)) }
    ensures unchanged { OnErr result ((boards.new.items ≡ boards.old.items) × (families.new.items ≡ families.old.items)
        × (order.new.items ≡ order.old.items)) }
{
    let number = families.len();
    let alloc = *families.allocator();
    let kept = Arc::new(alloc, desc.copy()?)?;
    let mut parts = Vec::with_capacity(alloc, 1)?;
    families.reserve(1)?;
    order.reserve(1)?;
    let family = register_on(boards, home, desc)?;
    // The room for all three was made above.
    parts.push_reserved(Part {
        board: home,
        family,
    });
    families.push_reserved(PageFamily {
        desc: kept,
        group,
        home,
        parts,
        children: 0,
    });
    let _ = order.insert(place, number);
    Ok(())
}
