//! The second collect of a try; where its rows are all remembered, four places in one turn.
ghost use Rattle.std.specs.Prelude.{◌≡◌, ◌≢◌, ℕ, ◌+◌, ◌<◌, ◌≤◌, ◌==◌, ◌&&◌, ◌↔◌, Bool, true, false, cond, List, IsTrue};
ghost use Rattle.std.specs.Prelude.{length, slice_index};
ghost use Rattle.std.specs.Prelude.{slice_set, MatchOption};
ghost use Rattle.ledger_core.specs.Ops.{width};
ghost use Rattle.segment_layout.specs.Layout.{IsGeometry};
ghost use Rattle.register_rule.specs.declared.view.Member.{Member};
ghost use Rattle.register_rule.specs.ScanSteps.{ended};
ghost use Rattle.register_rule.specs.Seats.{table_of, members_of, HasMember, MayScan};
ghost use Rattle.snapshot_scan.specs.Shape.{scan_in, with_scan, IsRuled};
ghost use Rattle.snapshot_scan.specs.RememberedRows.{AreKnown, settling, AreWide, AreTotals};
ghost use Rattle.snapshot_scan.specs.Collecting.{MayConfirm, HasConfirmed};
ghost use mathlib.Core.Option.{some};
ghost use lib.ListN.{get_elem?};
ghost use Rattle.snapshot_scan.specs.ChangedItems.{ListsChanges};

use crate::changed_items::ChangedItems;
use crate::remembered_row::RememberedRow;
use register_rule::{Board, ScanSeat};

/// How many places are confirmed in one turn.
const TURN: usize = 4;

/// Confirms a place, where those before it are confirmed: its number now.
#[inline(always)]
fn confirm_one<
    S: ScanSeat<N, C, H, G>,
    const N: usize,
    const C: usize,
    const H: usize,
    const G: usize,
>(board: &Board<N, C, H, G>, seat: &mut S, place: usize) -> u64
    requires of_board { MayScan board.now (S.bundle seat.old) }
    requires geometry { IsGeometry N C H G }
    requires inside { place < N }
    ensures table { table_of (S.bundle seat.new) ≡ table_of (S.bundle seat.old) }
    ensures leads { HasMember (members_of (S.bundle seat.new)) }
    ensures confirmed { (ms : List Member) (gs : List RememberedRow) (os fs : List ℕ) (all : Bool)
        → (length gs ≡ N) × (length os ≡ N) × (length fs ≡ N)
        → HasConfirmed N C H G place ms gs os (members_of (S.bundle seat.old)) fs all
        → HasConfirmed N C H G (place + 1) ms gs os (members_of (S.bundle seat.new)) (slice_set fs place result)
        (all && (slice_index os place == result)) }
{
    board.confirm(seat, place)
}

/// The numbers that were found before a place that has another number now: those that were opened.
#[cold]
#[inline(never)]
fn note_moved(opened: &[u64], found: &mut [u64], place: usize, number: u64)
    requires inside { (place < length opened.now) × (length found.old ≡ length opened.now) }
    ensures { found.new ≡ slice_set opened.now place number }
{
    found.copy_from_slice(opened);
    found[place] = number;
}

/// Confirms so many places, from `from` on, where those before were found again, up to the first that has another number now, if
/// there is one. Only then `found` is written.
#[inline(always)]
fn confirm_places<
    S: ScanSeat<N, C, H, G>,
    const N: usize,
    const C: usize,
    const H: usize,
    const G: usize,
>(
    board: &Board<N, C, H, G>,
    seat: &mut S,
    opened: &[u64],
    found: &mut [u64],
    from: usize,
    count: usize,
) -> Option<usize>
    requires of_board { MayScan board.now (S.bundle seat.old) }
    requires geometry { IsGeometry N C H G }
    requires inside { (from + count ≤ N) × (length opened.now ≡ N) × (length found.old ≡ N) }
    ensures table { table_of (S.bundle seat.new) ≡ table_of (S.bundle seat.old) }
    ensures leads { HasMember (members_of (S.bundle seat.new)) }
    ensures confirmed { MatchOption result
        ((ms : List Member) (gs : List RememberedRow) → length gs ≡ N
        → HasConfirmed N C H G from ms gs opened.now (members_of (S.bundle seat.old)) opened.now true
        → HasConfirmed N C H G (from + count) ms gs opened.now (members_of (S.bundle seat.new)) opened.now true)
        (λ place. (place < N) × ((ms : List Member) (gs : List RememberedRow) → length gs ≡ N
        → HasConfirmed N C H G from ms gs opened.now (members_of (S.bundle seat.old)) opened.now true
        → HasConfirmed N C H G (place + 1) ms gs opened.now (members_of (S.bundle seat.new)) found.new false)) }
{
    for k in 0..count {
        let place = from + k;
        let number = confirm_one(board, seat, place);
        if number != opened[place] {
            note_moved(opened, found, place, number);
            return Some(place);
        }
    }
    None
}

/// Confirms the places from `from` on, where one before was not found again.
#[cold]
#[inline(never)]
fn confirm_rest<
    S: ScanSeat<N, C, H, G>,
    const N: usize,
    const C: usize,
    const H: usize,
    const G: usize,
>(board: &Board<N, C, H, G>, seat: &mut S, found: &mut [u64], from: usize)
    requires of_board { MayScan board.now (S.bundle seat.old) }
    requires geometry { IsGeometry N C H G }
    requires inside { (from ≤ N) × (length found.old ≡ N) }
    ensures table { table_of (S.bundle seat.new) ≡ table_of (S.bundle seat.old) }
    ensures confirmed { (ms : List Member) (gs : List RememberedRow) (os : List ℕ) → (length gs ≡ N) × (length os ≡ N)
        → HasConfirmed N C H G from ms gs os (members_of (S.bundle seat.old)) found.old false
        → HasConfirmed N C H G N ms gs os (members_of (S.bundle seat.new)) found.new false }
{
    for place in from..N {
        found[place] = confirm_one(board, seat, place);
    }
}

/// The second collect of a try whose rows are all remembered: nothing is left to remember. It says whether each number was
/// found again; where one was not, `found` has all that were found.
#[inline(always)]
pub(crate) fn confirm_known<
    S: ScanSeat<N, C, H, G>,
    const N: usize,
    const C: usize,
    const H: usize,
    const G: usize,
>(
    board: &Board<N, C, H, G>,
    seat: &mut S,
    remembered: &[RememberedRow],
    opened: &[u64],
    found: &mut [u64],
) -> bool
    requires may { MayConfirm board.now (S.bundle seat.old) remembered.now opened.now }
    requires room { length found.old ≡ N }
    requires known { AreKnown opened.now remembered.now }
    ensures table { table_of (S.bundle seat.new) ≡ table_of (S.bundle seat.old) }
    ensures ruled { IsRuled N C H G (S.bundle seat.new) }
    ensures view { members_of (S.bundle seat.new) ≡ with_scan
        (ended N (width C H G) (settling opened.now (cond result opened.now found.new) remembered.now (scan_in (S.bundle
        seat.old))))
        (members_of (S.bundle seat.old)) }
    ensures risen { (q : ℕ) → q < N → slice_index opened.now q ≤ slice_index (cond result opened.now found.new) q }
    ensures moved { result ≡ false → opened.now ≢ found.new }
{
    let _ = remembered;
    let turns = N / TURN;
    for turn in 0..turns {
        let moved = confirm_places(board, seat, opened, found, TURN * turn, TURN);
        if let Some(place) = moved {
            confirm_rest(board, seat, found, place + 1);
            return false;
        }
    }
    let moved = confirm_places(board, seat, opened, found, TURN * turns, N % TURN);
    if let Some(place) = moved {
        confirm_rest(board, seat, found, place + 1);
        return false;
    }
    true
}

/// The second collect of a try. It says whether each number was found again. Where the totals change is listed in
/// `changed_totals`.
#[inline(never)]
fn confirm_and_settle<
    S: ScanSeat<N, C, H, G>,
    const N: usize,
    const C: usize,
    const H: usize,
    const G: usize,
>(
    board: &Board<N, C, H, G>,
    seat: &mut S,
    remembered: &mut [RememberedRow],
    totals: &mut [u64],
    opened: &[u64],
    found: &mut [u64],
    changed_totals: &mut ChangedItems,
) -> bool
    requires may { MayConfirm board.now (S.bundle seat.old) remembered.old opened.now }
    requires room { length found.old ≡ N }
    requires sums { (length totals.old ≡ width C H G) × AreTotals (width C H G) remembered.old totals.old }
    ensures table { table_of (S.bundle seat.new) ≡ table_of (S.bundle seat.old) }
    ensures ruled { IsRuled N C H G (S.bundle seat.new) }
    ensures wide { AreWide (width C H G) remembered.new }
    ensures totals { AreTotals (width C H G) remembered.new totals.new }
    ensures view { members_of (S.bundle seat.new) ≡ with_scan
        (ended N (width C H G) (settling opened.now found.new remembered.new (scan_in (S.bundle seat.old))))
        (members_of (S.bundle seat.old)) }
    ensures risen { (q : ℕ) → q < N → slice_index opened.now q ≤ slice_index found.new q }
    ensures held { (q : ℕ) (g : RememberedRow) → get_elem? remembered.new q ≡ some g
        → slice_index opened.now q ≡ slice_index found.new q → g.number ≡ slice_index opened.now q }
    ensures clean { IsTrue result ↔ (opened.now ≡ found.new) }
    ensures listed { ListsChanges (width C H G) totals.old totals.new changed_totals.old changed_totals.new }
{
    for place in 0..remembered.len() {
        let number = board.confirm(seat, place);
        remembered[place].settle(opened[place], number, totals, changed_totals);
        found[place] = number;
    }
    opened == found
}

/// The second collect of a try. It says whether each number was found again. `known` says that all rows are remembered. Where
/// the totals change is listed in `changed_totals`.
#[inline(always)]
pub(crate) fn confirm<
    S: ScanSeat<N, C, H, G>,
    const N: usize,
    const C: usize,
    const H: usize,
    const G: usize,
>(
    board: &Board<N, C, H, G>,
    seat: &mut S,
    remembered: &mut [RememberedRow],
    totals: &mut [u64],
    opened: &[u64],
    found: &mut [u64],
    changed_totals: &mut ChangedItems,
    known: bool,
) -> bool
    requires may { MayConfirm board.now (S.bundle seat.old) remembered.old opened.now }
    requires room { length found.old ≡ N }
    requires sums { (length totals.old ≡ width C H G) × AreTotals (width C H G) remembered.old totals.old }
    requires known { known ≡ true → AreKnown opened.now remembered.old }
    ensures table { table_of (S.bundle seat.new) ≡ table_of (S.bundle seat.old) }
    ensures ruled { IsRuled N C H G (S.bundle seat.new) }
    ensures wide { AreWide (width C H G) remembered.new }
    ensures totals { AreTotals (width C H G) remembered.new totals.new }
    ensures view { members_of (S.bundle seat.new) ≡ with_scan
        (ended N (width C H G) (settling opened.now (cond result opened.now found.new) remembered.new (scan_in (S.bundle
        seat.old))))
        (members_of (S.bundle seat.old)) }
    ensures risen { (q : ℕ) → q < N → slice_index opened.now q ≤ slice_index (cond result opened.now found.new) q }
    ensures held { (q : ℕ) (g : RememberedRow) → get_elem? remembered.new q ≡ some g
        → slice_index opened.now q ≡ slice_index (cond result opened.now found.new) q → g.number ≡ slice_index opened.now q }
    ensures moved { result ≡ false → opened.now ≢ found.new }
    ensures quiet { known ≡ true → (remembered.new ≡ remembered.old) × (totals.new ≡ totals.old) }
    ensures listed { ListsChanges (width C H G) totals.old totals.new changed_totals.old changed_totals.new }
{
    if known {
        return confirm_known(board, seat, remembered, opened, found);
    }
    confirm_and_settle(
        board,
        seat,
        remembered,
        totals,
        opened,
        found,
        changed_totals,
    )
}
