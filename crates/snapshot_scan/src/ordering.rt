//! How the snapshots of two readers compare.
ghost use Rattle.std.specs.Prelude.{◌≡◌, ℕ, [], ◌∷◌, ◌++◌, length};
ghost use mathlib.Core.Option.{some};
ghost use lib.ListN.{get_elem?};
ghost use Rattle.register_rule.specs.History.{Comparable};
ghost use Rattle.register_rule.specs.declared.view.Answer.{Answer};
ghost use Rattle.register_rule.specs.declared.view.Who.TheVariants as Who;
ghost use Rattle.register_rule.specs.Members.{first_of, met};
ghost use Rattle.register_rule.specs.Seats.{table_of, members_of, IsSeatOf};
ghost use Rattle.snapshot_scan.specs.Shape.{scan_in};
ghost use Rattle.snapshot_scan.specs.Snapshots.{as_answer};
ghost use Rattle.snapshot_scan.specs.Readers.{members_with, scan_by, index_of, IsReaderOf};
ghost use Rattle.snapshot_scan.specs.Order.{IsOrder, HasRecorded, IsAlone};

use crate::reader::Reader;
use crate::snapshot::Snapshot;
use register_rule::{Board, Bundle, Who};
use std::cmp::Ordering;

/// How two snapshots compare that scans of these readers gave: their vectors, place by place. Any two compare, since each is all
/// segments at one moment of the same history of publishes.
///
/// It takes four loads, during which the readers meet: each has then seen what one of them has seen. No worker may be lent to
/// either of them.
pub fn order<const N: usize, const C: usize, const H: usize, const G: usize>(
    board: &Board<N, C, H, G>,
    one: &Snapshot<N, C, H, G>,
    of_one: &mut Reader<N, C, H, G>,
    other: &Snapshot<N, C, H, G>,
    of_other: &mut Reader<N, C, H, G>,
) -> Ordering
    requires of_board { IsReaderOf board.now of_one.old × IsReaderOf board.now of_other.old }
    requires recorded { HasRecorded of_one.old (as_answer one.now) × HasRecorded of_other.old (as_answer other.now) }
    requires alone { IsAlone of_one.old × IsAlone of_other.old }
    ensures of_board { IsReaderOf board.now of_one.new × IsReaderOf board.now of_other.new }
    ensures index { (index_of of_one.new ≡ index_of of_one.old) × (index_of of_other.new ≡ index_of of_other.old) }
    ensures alone { IsAlone of_one.new × IsAlone of_other.new }
    ensures recorded { ((scan_by of_one.new).recorded ≡ (scan_by of_one.old).recorded)
        × ((scan_by of_other.new).recorded ≡ (scan_by of_other.old).recorded) }
    ensures met { members_with of_one.new ++ members_with of_other.new ≡ met
        (members_with of_one.old ++ members_with of_other.old) }
    ensures order { IsOrder one.now.vector other.now.vector result }
{
    meet(
        board,
        &mut of_one.bundle,
        &mut of_other.bundle,
        of_other.index,
    );
    compare(one.vector(), other.vector())
}

// The readers of two seats meet, and all that they recorded is comparable. The second one is reader `who`.
fn meet<const N: usize, const C: usize, const H: usize, const G: usize>(
    board: &Board<N, C, H, G>,
    one: &mut Bundle,
    other: &mut Bundle,
    who: usize,
)
    requires of_board { IsSeatOf board.now one.old × IsSeatOf board.now other.old }
    requires alone { (members_of one.old ≡ first_of (members_of one.old) ∷ [])
        × (members_of other.old ≡ first_of (members_of other.old) ∷ []) }
    requires is { (first_of (members_of other.old)).who ≡ Who.Reader who }
    ensures table { (table_of one.new ≡ table_of one.old) × (table_of other.new ≡ table_of other.old) }
    ensures alone { (members_of one.new ≡ first_of (members_of one.new) ∷ [])
        × (members_of other.new ≡ first_of (members_of other.new) ∷ []) }
    ensures recorded { ((scan_in one.new).recorded ≡ (scan_in one.old).recorded)
        × ((scan_in other.new).recorded ≡ (scan_in other.old).recorded) }
    ensures met { members_of one.new ++ members_of other.new ≡ met (members_of one.old ++ members_of other.old) }
    ensures comparable { (a b : Answer) (p q : ℕ) → get_elem? (scan_in one.old).recorded p ≡ some a
        → get_elem? (scan_in other.old).recorded q ≡ some b → Comparable a.vector b.vector }
{
    let guest = board.part(other, Who::Reader(who));
    board.join(one, guest);
    let _number = board.tell(one, 0);
    *other = board.part(one, Who::Reader(who));
}

// How two vectors compare of which one is above the other at no place.
fn compare(one: &[u64], other: &[u64]) -> Ordering
    requires all { length one.now ≡ length other.now }
    requires comparable { Comparable one.now other.now }
    ensures { IsOrder one.now other.now result }
{
    for k in 0..one.len() {
        if one[k] < other[k] {
            return Ordering::Less;
        }
        if other[k] < one[k] {
            return Ordering::Greater;
        }
    }
    Ordering::Equal
}
