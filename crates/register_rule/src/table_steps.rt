//! The atomic steps on the table's words, and the split of a seat: those of `atomic_table` with one more argument, `_about`,
//! which only the proof reads; the compiled code drops it.
//!
//! A *play* says how a step changes the view of the seat that makes it, a *split* which part of a view goes to which seat. Types
//! name them. The calls of this crate name `Brand` for both, whose own ghosts are placeholders: each call picks its play or split
//! in its `Invariants.antt`, as `ghosts-load_as` in proofs/board/Board/load, and may speak there of `_about`.
//!
//! In the contracts, `step` is what the table notes of an access: the word, what was stored, and of slots nothing. `Allows` says
//! that the rule holds after the step if it held before. A seat's `id` is its number at the table, not a board's. A view comes
//! with the slots that its seat holds, `me.1`; the board uses none, so that list is empty.
ghost use Rattle.std.specs.Prelude.{◌≡◌, ◌<◌, [], ◌++◌};
ghost use mathlib.Core.Option.{none};
ghost use Rattle.atomic_table.specs.Table.{step, Allows, Splits};
ghost use Rattle.register_rule.specs.Members.{group, met};

use crate::view::SeatView;
use atomic_table::{Join, Play, Seat, Shared, Split, TableRule};

/// A load of the table's word `word` by this seat, of any view.
#[inline]
pub fn load_as<X, K, V, J: Play<(), V>, P: TableRule<(), V, K>>(
    shared: &Shared<(), V, K, P>,
    seat: &mut Seat<(), V>,
    word: usize,
    _about: &X,
) -> u64
    requires { (seat.old.table_id ≡ shared.now.table_id) × (word < shared.now.table_id.words)
        × Allows (P.holds shared.now.key) shared.now.table_id.slots seat.old.id seat.old.me word (λ n. n)
        (J.then (step shared.now.table_id.slots word 0 0 none) seat.old.me) }
    ensures { (seat.new.table_id ≡ seat.old.table_id) × (seat.new.id ≡ seat.old.id)
        × J.then (step shared.now.table_id.slots word 0 0 none) seat.old.me result seat.new.me }
{
    shared.load::<J>(seat, word)
}

/// A store of `new` to the table's word `word` by this seat.
#[inline]
pub(crate) fn store_as<X, K, J: Play<(), SeatView>, P: TableRule<(), SeatView, K>>(
    shared: &Shared<(), SeatView, K, P>,
    seat: &mut Seat<(), SeatView>,
    word: usize,
    new: u64,
    _about: &X,
)
    requires { (seat.old.table_id ≡ shared.now.table_id) × (word < shared.now.table_id.words)
        × Allows (P.holds shared.now.key) shared.now.table_id.slots seat.old.id seat.old.me word (λ _. new)
        (λ _. J.then (step shared.now.table_id.slots word new 0 none) seat.old.me new) }
    ensures { (seat.new.table_id ≡ seat.old.table_id) × (seat.new.id ≡ seat.old.id)
        × J.then (step shared.now.table_id.slots word new 0 none) seat.old.me new seat.new.me }
{
    shared.store::<J>(seat, word, new);
}

/// Parts a seat in two: the one that is answered takes the right part of the view.
pub(crate) fn split_as<X, K, J: Split<SeatView>, P: TableRule<(), SeatView, K>>(
    shared: &Shared<(), SeatView, K, P>,
    seat: &mut Seat<(), SeatView>,
    _about: &X,
) -> Seat<(), SeatView>
    requires { (seat.old.table_id ≡ shared.now.table_id) × (0 < shared.now.table_id.words)
        × Splits (P.holds shared.now.key) seat.old.id seat.old.me.0 (J.left seat.old.me.0) (J.right seat.old.me.0) }
    ensures { (seat.new.table_id ≡ seat.old.table_id) × (seat.new.id ≡ seat.old.id)
        × (seat.new.me ≡ (J.left seat.old.me.0, seat.old.me.1)) × (result.table_id ≡ seat.old.table_id)
        × (result.me ≡ (J.right seat.old.me.0, [])) }
{
    shared.split_seat::<J>(seat)
}

/// The members of both seats meet in the first one.
pub(crate) struct Both;

impl Join<SeatView> for Both {
    ghost both = { λ v w. group (met (v.members ++ w.members)) };

    ghost spent = { group [] };
}
