//! A child is noted in the journal and put at its place among its family's, or neither is done.
ghost use Rattle.std.specs.Prelude.{◌≡◌, ◌++◌, ◌∷◌, [], slice_get, IfOk, IsSomeAnd, OnErr, OnOk};
ghost use Rattle.registry_state.specs.Journal.{Changed, ChildMade};
ghost use Rattle.registry_state.specs.Replay.{with_child};
ghost use Rattle.registry_state.specs.Held.{IsPlaceOfValues};

use crate::family::{Child, Family, put_child};
use crate::journal::Journal;
use crate::noted_change::NotedChange;
use metric_names::{LabelValue, NoMemory};
use std::alloc::Global;
use std::sync::Arc;

/// Equal values, in memory of their own.
///
/// Refusal 6 [`NoMemory`], and no other.
fn copies_of(alloc: Global, values: &[LabelValue]) -> Result<Vec<LabelValue>, NoMemory>
    ensures { IfOk result (λ copies. copies.items ≡ values.now) }
{
    let mut copies = Vec::with_capacity(alloc, values.len())?;
    for value in values {
        copies.push(value.copy()?)?;
    }
    Ok(copies)
}

/// A child of equal values, in memory of their own, and of this slot.
///
/// Refusal 6 [`NoMemory`], and no other.
pub(crate) fn child_of(alloc: Global, values: &[LabelValue], slot: usize) -> Result<Child, NoMemory>
    ensures { IfOk result (λ child. child ≡ record { values = values.now; slot = slot }) }
{
    let values = Arc::new(alloc, copies_of(alloc, values)?)?;
    Ok(Child { values, slot })
}

/// Notes a child of the family of this number.
///
/// Refusal 6 [`NoMemory`], and no other.
fn note_made<const N: usize, const C: usize, const H: usize, const G: usize>(
    journal: &mut Journal<N, C, H, G>,
    family: usize,
    child: &Child,
) -> Result<(), NoMemory>
    ensures noted { OnOk result (journal.new ≡ journal.old ++ Changed (ChildMade family child.now.values child.now.slot) ∷ []) }
    ensures unchanged { OnErr result (journal.new ≡ journal.old) }
{
    let values = Arc::try_clone(&child.values)?;
    let slot = child.slot;
    journal.note(NotedChange::ChildMade {
        family,
        values,
        slot,
    })
}

/// Notes a child of the family of this number and puts it at its place among the family's, or does neither.
///
/// Refusal 6 [`NoMemory`], and no other.
pub(crate) fn put_noted<const N: usize, const C: usize, const H: usize, const G: usize>(
    journal: &mut Journal<N, C, H, G>,
    families: &mut Vec<Family>,
    number: usize,
    place: usize,
    child: Child,
) -> Result<(), NoMemory>
    requires { IsSomeAnd (slice_get families.old.items number) (λ it. IsPlaceOfValues it.children child.values place) }
    ensures noted { OnOk result (journal.new ≡ journal.old ++ Changed (ChildMade number child.values child.slot) ∷ []) }
    ensures put { OnOk result (families.new.items ≡ with_child families.old.items number child) }
    ensures unchanged { OnErr result ((journal.new ≡ journal.old) × (families.new.items ≡ families.old.items)) }
{
    let family = &mut families[number];
    family.children.reserve(1)?;
    note_made(journal, number, &child)?;
    // The room was made above.
    let _ = put_child(&mut family.children, place, child);
    Ok(())
}
