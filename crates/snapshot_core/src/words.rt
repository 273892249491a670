// Lists of words and rows.
ghost use Rattle.std.specs.Prelude.{◌≡◌, cond, Some, None, false, IfOk, OnOk};
ghost use Rattle.snapshot_core.specs.Machine.{added, applied};

use ledger_core::{Op, Row};
use std::alloc::{AllocError, Global};

/// A copy of the items.
pub(crate) fn copied<T: Copy>(alloc: Global, items: &[T]) -> Result<Vec<T>, AllocError>
    ensures { IfOk result (λ v. v.items ≡ items.now) }
{
    let mut copy = Vec::new(alloc);
    copy.extend_from_slice(items)?;
    Ok(copy)
}

/// Writes the words of the row in place of the list.
pub(crate) fn write<const C: usize, const H: usize, const G: usize>(
    words: &mut Vec<u64>,
    row: &Row<C, H, G>,
) -> Result<(), AllocError>
    ensures { OnOk result (words.new.items ≡ row.now) }
{
    words.clear();
    for k in 0..row.len() {
        words.push(row.word_at(k))?;
    }
    Ok(())
}

/// Adds the row to the list, word by word.
#[tactic(auto, using(crate::proofs::Summing::added_next, crate::proofs::Summing::added_all, crate::proofs::Summing::length_added_up))]
pub(crate) fn add<const C: usize, const H: usize, const G: usize>(
    words: &mut Vec<u64>,
    row: &Row<C, H, G>,
)
    ensures { words.new.items ≡ added words.old.items row.now }
{
    let both = words.len().min(row.len());
    for k in 0..both {
        words[k] = words[k].wrapping_add(row.word_at(k));
    }
}

/// Applies the operations and says whether the row accepted them. Where it did not, it is unchanged.
pub(crate) fn apply<const C: usize, const H: usize, const G: usize>(
    row: &mut Row<C, H, G>,
    ops: &[Op],
) -> bool
    ensures applied { applied C H G row.old ops.now ≡ cond result (Some row.new) None }
    ensures unchanged { result ≡ false → row.new ≡ row.old }
{
    // A look at its length tells the proof how many words the row has.
    let _ = row.len();
    row.try_apply(ops).is_ok()
}
