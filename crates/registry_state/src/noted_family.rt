//! A family is noted in the journal and put behind the others, or neither is done.
ghost use Rattle.std.specs.Prelude.{◌≡◌, ◌≤◌, ◌++◌, ◌∷◌, [], length, OnErr, OnOk};
ghost use Rattle.std.specs.List.{insert};
ghost use Rattle.std.specs.Arc.{arc_value};
ghost use Rattle.registry_state.specs.Journal.{Changed, Registered};

use crate::family::Family;
use crate::journal::Journal;
use crate::noted_change::NotedChange;
use metric_desc::Desc;
use metric_names::NoMemory;
use std::sync::Arc;

/// Notes a family of this descriptor, which is shared.
///
/// Refusal 6 [`NoMemory`], and no other.
fn note_registered<const N: usize, const C: usize, const H: usize, const G: usize>(
    journal: &mut Journal<N, C, H, G>,
    desc: &Arc<Desc>,
) -> Result<(), NoMemory>
    ensures noted { OnOk result (journal.new ≡ journal.old ++ Changed (Registered (arc_value desc.now)) ∷ []) }
    ensures unchanged { OnErr result (journal.new ≡ journal.old) }
{
    let noted = Arc::try_clone(desc)?;
    journal.note(NotedChange::Registered(noted))
}

/// Notes a family without children, puts it behind the others, and its number at this place of their order, or does nothing.
///
/// Refusal 6 [`NoMemory`], and no other.
pub(crate) fn push_noted<const N: usize, const C: usize, const H: usize, const G: usize>(
    journal: &mut Journal<N, C, H, G>,
    families: &mut Vec<Family>,
    order: &mut Vec<usize>,
    place: usize,
    desc: Desc,
) -> Result<(), NoMemory>
    requires { place ≤ length order.old.items }
    ensures noted { OnOk result (journal.new ≡ journal.old ++ Changed (Registered desc) ∷ []) }
    ensures pushed { OnOk result (families.new.items ≡ families.old.items ++ record { desc = desc; children = [] } ∷ []) }
    ensures placed { OnOk result (order.new.items ≡ insert order.old.items place (length families.old.items)) }
    ensures unchanged { OnErr result ((journal.new ≡ journal.old) × (families.new.items ≡ families.old.items)
        × (order.new.items ≡ order.old.items)) }
{
    let number = families.len();
    let alloc = *families.allocator();
    let desc = Arc::new(alloc, desc)?;
    families.reserve(1)?;
    order.reserve(1)?;
    note_registered(journal, &desc)?;
    // The room for both was made above.
    let _ = families.push(Family {
        desc,
        children: Vec::new(alloc),
    });
    let _ = order.insert(place, number);
    Ok(())
}
