//! The first collect of a try, four places in one turn. A buffer has at most 2,529
//! words: twice the 1,248 of a row, the flag and 32 numbers.
ghost use Rattle.std.specs.Prelude.{◌≡◌, ℕ, ◌+◌, ◌<◌, ◌≤◌, List, All, true, false, length, map, slice_index};
ghost use Rattle.ledger_core.specs.Ops.{width};
ghost use Rattle.segment_layout.specs.Layout.{depth};
ghost use Rattle.register_rule.specs.declared.view.Member.{Member};
ghost use Rattle.register_rule.specs.Seats.{table_of, members_of, HasMember, MayScan};
ghost use Rattle.snapshot_scan.specs.Shape.{scan_in, with_scan};
ghost use Rattle.snapshot_scan.specs.RememberedRows.{IsWide, AreWide, AreKnown, AreTotals, HasOther};
ghost use Rattle.snapshot_scan.specs.RememberedRows.{IsLoaded, version_of, opening};
ghost use Rattle.snapshot_scan.specs.Collecting.{HasOpened, MayConfirm};
ghost use Rattle.snapshot_scan.specs.Conditions.{MayTry};

use crate::remembered_row::RememberedRow;
use register_rule::{Board, ScanSeat};

/// How many places are opened in one turn.
const TURN: usize = 4;

/// Opens a place, where those before it are opened. In `known` it says whether all of them were, and this one's number is the
/// one that is remembered: it is written only where that is another number.
#[inline(always)]
fn open_one<
    S: ScanSeat<N, C, H, G>,
    const N: usize,
    const C: usize,
    const H: usize,
    const G: usize,
>(
    board: &Board<N, C, H, G>,
    seat: &mut S,
    remembered: &mut [RememberedRow],
    opened: &mut [u64],
    place: usize,
    known: &mut bool,
)
    requires of_board { MayScan board.now (S.bundle seat.old) }
    requires deep { depth N (width C H G) ≤ 2529 }
    requires inside { (place < N) × (length remembered.old ≡ N) × (length opened.old ≡ N) }
    requires wide { All (IsWide (width C H G)) remembered.old }
    ensures table { table_of (S.bundle seat.new) ≡ table_of (S.bundle seat.old) }
    ensures leads { HasMember (members_of (S.bundle seat.new)) }
    ensures wide { All (IsWide (width C H G)) remembered.new }
    ensures opened { (ms : List Member) (rows : List RememberedRow)
        → HasOpened (width C H G) place ms rows (members_of (S.bundle seat.old)) remembered.old opened.old known.old
        → HasOpened (width C H G) (place + 1) ms rows (members_of (S.bundle seat.new)) remembered.new opened.new known.new }
{
    opened[place] = remembered[place].open_or_read(board, seat, place, known);
}

/// Opens so many places, from `from` on, where those before are opened, as [`open_one`].
#[inline(always)]
fn open_places<
    S: ScanSeat<N, C, H, G>,
    const N: usize,
    const C: usize,
    const H: usize,
    const G: usize,
>(
    board: &Board<N, C, H, G>,
    seat: &mut S,
    remembered: &mut [RememberedRow],
    opened: &mut [u64],
    from: usize,
    count: usize,
    known: &mut bool,
)
    requires of_board { MayScan board.now (S.bundle seat.old) }
    requires deep { depth N (width C H G) ≤ 2529 }
    requires inside { (from + count ≤ N) × (length remembered.old ≡ N) × (length opened.old ≡ N) }
    requires wide { All (IsWide (width C H G)) remembered.old }
    ensures table { table_of (S.bundle seat.new) ≡ table_of (S.bundle seat.old) }
    ensures leads { HasMember (members_of (S.bundle seat.new)) }
    ensures wide { All (IsWide (width C H G)) remembered.new }
    ensures opened { (ms : List Member) (rows : List RememberedRow)
        → HasOpened (width C H G) from ms rows (members_of (S.bundle seat.old)) remembered.old opened.old known.old
        → HasOpened (width C H G) (from + count) ms rows (members_of (S.bundle seat.new)) remembered.new opened.new known.new }
{
    for k in 0..count {
        open_one(board, seat, remembered, opened, from + k, known);
    }
}

/// The first collect of a try. It says whether each number is the one that is remembered.
#[inline(always)]
pub(crate) fn collect<
    S: ScanSeat<N, C, H, G>,
    const N: usize,
    const C: usize,
    const H: usize,
    const G: usize,
>(
    board: &Board<N, C, H, G>,
    seat: &mut S,
    remembered: &mut [RememberedRow],
    opened: &mut [u64],
) -> bool
    requires { MayTry board.now (S.bundle seat.old) remembered.old opened.old }
    ensures table { table_of (S.bundle seat.new) ≡ table_of (S.bundle seat.old) }
    ensures wide { AreWide (width C H G) remembered.new }
    ensures same { map version_of remembered.new ≡ map version_of remembered.old }
    ensures view { members_of (S.bundle seat.new) ≡ with_scan (opening opened.new remembered.new (scan_in (S.bundle seat.old)))
        (members_of (S.bundle seat.old)) }
    ensures told { (q : ℕ) → q < N → IsLoaded q (scan_in (S.bundle seat.old)) (slice_index opened.new q) }
    ensures known { result ≡ true → AreKnown opened.new remembered.new }
    ensures unknown { result ≡ false → HasOther opened.new (map version_of remembered.old) }
    ensures may { MayConfirm board.now (S.bundle seat.new) remembered.new opened.new }
    ensures sums { (totals : List ℕ) → AreTotals (width C H G) remembered.old totals → AreTotals
        (width C H G) remembered.new totals }
{
    let turns = N / TURN;
    let mut known = true;
    for turn in 0..turns {
        open_places(
            board,
            seat,
            remembered,
            opened,
            TURN * turn,
            TURN,
            &mut known,
        );
    }
    open_places(
        board,
        seat,
        remembered,
        opened,
        TURN * turns,
        N % TURN,
        &mut known,
    );
    known
}
