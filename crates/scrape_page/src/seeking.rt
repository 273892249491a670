//! What there is of a child that a family is asked for, before anything is made.
ghost use Rattle.std.specs.Prelude.{IfErr, IfOk};
ghost use Rattle.scrape_page.specs.Sought.{IsWhole, IsSought, IsRefused};

use crate::family::{PageFamily, Part};
use crate::fault::PageChildFault;
use crate::finding::find_child;
use crate::rooms::first_with_room;
use metric_desc::Kind;
use metric_names::LabelValue;
use registry_state::{Handle, RegistryState};
use snapshot_scan::Source;

/// The most children of a family (`IsSpread`).
const MAX_CHILDREN: usize = 256;

/// What there is of a child that a family may have.
#[derive(Clone, Copy)]
pub(crate) enum Sought {
    /// It is there, with this handle.
    There(Handle),
    /// It is not; this is the first of the family's parts whose board has a free slot.
    Room(Part),
    /// It is not, and no such board has one of this kind, which is the family's.
    Full(Kind),
}

/// What there is of the child of these values of a family.
///
/// Refusals, in the order in which they are tried: 21 `LabelCount`; of a child that is not there 46 `TooManyChildren`.
pub(crate) fn seek_of<
    S: Source<N, C, H, G>,
    const N: usize,
    const C: usize,
    const H: usize,
    const G: usize,
>(
    boards: &[RegistryState<S, N, C, H, G>],
    family: &PageFamily,
    values: &[LabelValue],
) -> Result<Sought, PageChildFault>
    requires { IsWhole boards.now family.now }
    ensures sought { IfOk result (λ sought. IsSought C H G boards.now values.now sought family.now) }
    ensures fault { IfErr result (λ fault. IsRefused boards.now values.now fault family.now) }
{
    let (want, got) = (family.desc.labels().len(), values.len());
    if want != got {
        return Err(PageChildFault::LabelCount { want, got });
    }
    if let Some(handle) = find_child(boards, &family.parts, values) {
        return Ok(Sought::There(handle));
    }
    if family.children >= MAX_CHILDREN {
        return Err(PageChildFault::TooManyChildren);
    }
    let kind = family.desc.kind();
    match first_with_room(boards, &family.parts, kind) {
        Some(place) => Ok(Sought::Room(family.parts[place])),
        None => Ok(Sought::Full(kind)),
    }
}
