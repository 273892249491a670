//! Reading the items of a buffer, one by one. A buffer has at most 2,529
//! words: twice the 1,248 of a row, the flag and 32 numbers.
ghost use Rattle.std.specs.Prelude.{◌≡◌, ℕ, ◌+◌, ◌<◌, ◌≤◌, length, slice_index};
ghost use Rattle.bucket_math.specs.Words.{greatest_word};
ghost use Rattle.ledger_core.specs.Ops.{width};
ghost use Rattle.segment_layout.specs.Layout.{depth};
ghost use Rattle.register_rule.specs.Members.{led, scan_changed};
ghost use Rattle.register_rule.specs.Seats.{table_of, members_of, MayScan};
ghost use Rattle.snapshot_scan.specs.Shape.{read_all};

use register_rule::{Board, ScanSeat};

/// Reads the items from `from` on of the buffer that the number `number` of a segment shows.
#[inline(never)]
pub(crate) fn read_items<
    S: ScanSeat<N, C, H, G>,
    const N: usize,
    const C: usize,
    const H: usize,
    const G: usize,
>(
    board: &Board<N, C, H, G>,
    seat: &mut S,
    place: usize,
    number: u64,
    from: usize,
    words: &mut [u64],
)
    requires of_board { MayScan board.now (S.bundle seat.old) }
    requires inside { (place < N) × (from + length words.old ≤ depth N (width C H G)) }
    requires deep { depth N (width C H G) ≤ 2529 }
    ensures table { table_of (S.bundle seat.new) ≡ table_of (S.bundle seat.old) }
    ensures member { members_of (S.bundle seat.new) ≡ led (scan_changed (read_all (width C H G) place number from words.new))
        (members_of (S.bundle seat.old)) }
    ensures bounded { (k : ℕ) → k < length words.new → from + k < width C H G → slice_index words.new k ≤ greatest_word }
{
    for k in 0..words.len() {
        words[k] = board.read_word(seat, place, number, from + k);
    }
}
