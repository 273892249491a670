//! The scans of a worker.
ghost use Rattle.std.specs.Prelude.{◌≡◌, Bool, true, false, slice_index, IfErr, OnOk, OnErr};
ghost use Rattle.ledger_core.specs.Ops.{width};
ghost use Rattle.ledger_core.specs.Legal.{IsLegal};
ghost use Rattle.register_rule.specs.Seats.{worker_of, IsWorkSeatOf};
ghost use Rattle.snapshot_scan.specs.declared.scan_end.ScanEnd.TheVariants as ScanEnd;
ghost use Rattle.snapshot_scan.specs.Scanned.{IsAnswered};
ghost use Rattle.snapshot_core.specs.declared.next.Next.TheVariants as Next;
ghost use Rattle.snapshot_scan.specs.Contention.{IsContended};
ghost use Rattle.snapshot_scan.specs.Core.{CameTo, AnswersBy};
ghost use Rattle.snapshot_scan.specs.Snapshots.{as_answer};
ghost use Rattle.snapshot_scan.specs.RememberedRows.{AreNumbers};
ghost use Rattle.snapshot_scan.specs.ScanMemories.{rows_of, totals_in, changed_totals_in, answer_of, HasView, IsReady};
ghost use Rattle.snapshot_scan.specs.ChangedItems.{Lists};
ghost use Rattle.snapshot_update.specs.Updated.{ScanCameTo, HasScanned};

use register_rule::{Board, WorkSeat};
use snapshot_scan::{Contended, ScanEnd, ScanMemory, Snapshot};

/// The scan of a worker for its update, as its clauses say it of the worker: its other parts stay as they were. It asks nobody to
/// rest.
#[inline(always)]
pub(crate) fn scan_for_update<const N: usize, const C: usize, const H: usize, const G: usize>(
    board: &Board<N, C, H, G>,
    seat: &mut WorkSeat,
    memory: &mut ScanMemory<N, C, H, G>,
) -> ScanEnd
    requires of_board { IsWorkSeatOf board.now seat.old }
    requires ready { IsReady (worker_of seat.old).scan memory.old }
    ensures scans { HasScanned board.now seat.old seat.new }
    ensures ready { IsReady (worker_of seat.new).scan memory.new }
    ensures view { HasView result → IsAnswered N (worker_of seat.old).scan (worker_of seat.new).scan
        (answer_of memory.new result) }
    ensures came_to { HasView result → ScanCameTo N (width C H G) (worker_of seat.old).scan (worker_of seat.new).scan true }
    ensures quiet { result ≡ ScanEnd.Direct true → (rows_of memory.new ≡ rows_of memory.old)
        × (totals_in memory.new ≡ totals_in memory.old) × AreNumbers (answer_of memory.new result).vector (rows_of memory.new) }
    ensures numbers { (q : Bool) → result ≡ ScanEnd.Direct q → AreNumbers (answer_of memory.new result).vector
        (rows_of memory.new) }
    ensures listed { Lists (width C H G) (totals_in memory.old) (totals_in memory.new) (changed_totals_in memory.new) }
    ensures gave_up { result ≡ ScanEnd.GaveUp → ScanCameTo N (width C H G) (worker_of seat.old).scan (worker_of seat.new).scan
        false }
{
    memory.scan(board, seat, false)
}

/// The scan of a worker whose answer goes to its caller, with what the rule says of the worker alone: what the worker wrote stays
/// as it was.
pub(crate) fn scan_for_caller<const N: usize, const C: usize, const H: usize, const G: usize>(
    board: &Board<N, C, H, G>,
    seat: &mut WorkSeat,
    memory: &mut ScanMemory<N, C, H, G>,
    out: &mut Snapshot<N, C, H, G>,
) -> Result<(), Contended>
    requires of_board { IsWorkSeatOf board.now seat.old }
    requires ready { IsReady (worker_of seat.old).scan memory.old }
    ensures scans { HasScanned board.now seat.old seat.new }
    ensures ready { IsReady (worker_of seat.new).scan memory.new }
    ensures answered { OnOk result (IsAnswered N (worker_of seat.old).scan (worker_of seat.new).scan (as_answer out.new)) }
    ensures answers { OnOk result (AnswersBy N (width C H G) (worker_of seat.old).scan (worker_of seat.new).scan
        (as_answer out.new)) }
    ensures legal { OnOk result (IsLegal C H (slice_index out.new.totals)) }
    ensures contended { IfErr result (IsContended N (worker_of seat.old).scan (worker_of seat.new).scan) }
    ensures came_up { IfErr result (λ e. CameTo N (width C H G) (worker_of seat.old).scan (worker_of seat.new).scan
        (Next.GaveUp e.worker e.first e.last)) }
    ensures unchanged { OnErr result (out.new ≡ out.old) }
{
    memory.scan_to(board, seat, out)
}
