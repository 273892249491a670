//! Asking a worker for the view that it lends.
ghost use Rattle.std.specs.Prelude.{◌≡◌, ℕ, ◌+◌, ◌<◌, ◌≤◌, ◌∷◌, ◌++◌, ◌↔◌, IsTrue, true, false, length, List};
ghost use Rattle.std.specs.Prelude.{map};
ghost use mathlib.Core.Option.{some};
ghost use lib.ListN.{get_elem?};
ghost use Rattle.ledger_core.specs.Ops.{width};
ghost use Rattle.register_rule.specs.declared.view.Asked.{Asked};
ghost use Rattle.ledger_core.specs.Vectors.{is_above};
ghost use Rattle.register_rule.specs.ScanSteps.{answered, given_up_if_spent, lent_in};
ghost use Rattle.register_rule.specs.Seats.{table_of, members_of};
ghost use Rattle.snapshot_scan.specs.Shape.{scan_in, with_scan, IsRuled};
ghost use Rattle.snapshot_scan.specs.Asking.{DoesNotLend, Lends, asked_too, refused, due_from, refused_all, asked_worker};
ghost use Rattle.snapshot_scan.specs.Conditions.{MayAskOne, MayAskAll};

use crate::items::read_items;
use register_rule::{Board, ScanSeat};

/// Whether the vector is below the floor nowhere.
fn is_above(floor: &[u64], vector: &[u64]) -> bool
    requires { length floor.now ≡ length vector.now }
    ensures { result ≡ is_above floor.now vector.now }
{
    for k in 0..floor.len() {
        if vector[k] < floor[k] {
            return false;
        }
    }
    true
}

/// Asks the next worker that is to be asked, and says whether it lends. Its flag, vector and totals are read into `lent`.
fn ask<S: ScanSeat<N, C, H, G>, const N: usize, const C: usize, const H: usize, const G: usize>(
    board: &Board<N, C, H, G>,
    seat: &mut S,
    place: usize,
    row: usize,
    floor: &[u64],
    lent: &mut [u64],
) -> bool
    requires { MayAskOne board.now (S.bundle seat.old) place row floor.now lent.old }
    ensures table { table_of (S.bundle seat.new) ≡ table_of (S.bundle seat.old) }
    ensures ruled { IsRuled N C H G (S.bundle seat.new) }
    ensures lends { result ≡ true → (e : Asked) × (e.worker ≡ place) × (e.words ≡ lent.new) × Lends N (width C H G) floor.now e
        × (members_of (S.bundle seat.new) ≡ with_scan
        (answered (lent_in N (width C H G) lent.new) (asked_too e (scan_in (S.bundle seat.old))))
        (members_of (S.bundle seat.old))) }
    ensures refuses { result ≡ false → (e : Asked) × (e.worker ≡ place) × DoesNotLend N floor.now e
        × (members_of (S.bundle seat.new) ≡ with_scan (given_up_if_spent N (refused e (scan_in (S.bundle seat.old))))
        (members_of (S.bundle seat.old))) }
{
    let number = board.ask(seat, place);
    read_items(board, seat, place, number, row, lent);
    let again = board.end_ask(seat, place);
    if number != again {
        return false;
    }
    if lent[0] != 1 {
        return false;
    }
    is_above(floor, &lent[1..1 + floor.len()])
}

/// Whether a worker is to be asked.
fn is_due(base: u64, found: u64) -> bool
    ensures { IsTrue result ↔ (base + 2 ≤ found) }
{
    found >= 2 && base <= found - 2
}

/// Asks all workers that are to be asked after a try, until one lends, and says whether one did.
#[inline(never)]
pub(crate) fn ask_all<
    S: ScanSeat<N, C, H, G>,
    const N: usize,
    const C: usize,
    const H: usize,
    const G: usize,
>(
    board: &Board<N, C, H, G>,
    seat: &mut S,
    row: usize,
    floor: &[u64],
    base: &[u64],
    found: &[u64],
    lent: &mut [u64],
) -> bool
    requires { MayAskAll board.now (S.bundle seat.old) row floor.now base.now found.now lent.old }
    ensures table { table_of (S.bundle seat.new) ≡ table_of (S.bundle seat.old) }
    ensures ruled { IsRuled N C H G (S.bundle seat.new) }
    ensures lends { result ≡ true → (es : List Asked) × (e : Asked) × (more : List ℕ)
        × (map asked_worker es ++ asked_worker e ∷ more ≡ due_from 0 base.now found.now)
        × ((q : ℕ) (x : Asked) → get_elem? es q ≡ some x → DoesNotLend N floor.now x)
        × (e.words ≡ lent.new) × Lends N (width C H G) floor.now e
        × (members_of (S.bundle seat.new) ≡ with_scan
        (answered (lent_in N (width C H G) lent.new) (asked_too e (refused_all N es (scan_in (S.bundle seat.old)))))
        (members_of (S.bundle seat.old))) }
    ensures refuses { result ≡ false → (es : List Asked)
        × (map asked_worker es ≡ due_from 0 base.now found.now)
        × ((q : ℕ) (e : Asked) → get_elem? es q ≡ some e → DoesNotLend N floor.now e)
        × (members_of (S.bundle seat.new) ≡ with_scan (refused_all N es (scan_in (S.bundle seat.old)))
        (members_of (S.bundle seat.old))) }
{
    for place in 0..found.len() {
        let due = is_due(base[place], found[place]);
        if !due {
            continue;
        }
        let lends = ask(board, seat, place, row, floor, lent);
        if lends {
            return true;
        }
    }
    false
}
