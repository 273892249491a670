//! Exact totals.
ghost use Rattle.std.specs.Prelude.{◌≡◌, ℕ, ◌<◌, [], ◌∷◌, ◌++◌, All, IfErr, OnOk, OnErr};
ghost use Rattle.register_rule.specs.declared.view.Answer.{Answer};
ghost use Rattle.snapshot_scan.specs.Lent.{SeesMore};
ghost use Rattle.snapshot_scan.specs.Order.{HasRecorded, IsAlone};
ghost use Rattle.snapshot_scan.specs.Readers.{scan_by, index_of as reader_index, IsReaderOf};
ghost use Rattle.snapshot_scan.specs.Snapshots.{as_answer};
ghost use Rattle.snapshot_update.specs.Workers.{IsWorkerOf};
ghost use Rattle.chain_law.specs.Settled.{HasIndex, IsSettled, IsMissing, AreSame, AreMomentsOf};

use crate::gathering::{lend_all, missing, take_all};
use crate::not_all::NotAll;
use register_rule::Board;
use snapshot_scan::{Reader, Snapshot};
use snapshot_update::Worker;

/// Exact totals: a scan of all that these workers have published, to which all workers of the board are gathered. They are
/// lent to the reader, and taken back.
///
/// After Ok the vector of `out` is how often each worker has published, and each total is exactly the sum of all that they
/// published. The workers may stand in any order; none can be handed in twice, since each is one value. The scan is never
/// refused, so 14 does not come.
///
/// # Errors
///
/// 18 [`NotAll`], with the least worker that is not among them. Nothing has changed.
pub fn settle<const N: usize, const C: usize, const H: usize, const G: usize>(
    board: &Board<N, C, H, G>,
    reader: &mut Reader<N, C, H, G>,
    workers: &mut [Worker<N, C, H, G>],
    out: &mut Snapshot<N, C, H, G>,
) -> Result<(), NotAll>
    requires of_board { IsReaderOf board.now reader.old × All (IsWorkerOf board.now) workers.old }
    ensures of_board { IsReaderOf board.now reader.new × All (IsWorkerOf board.now) workers.new }
    ensures index { reader_index reader.new ≡ reader_index reader.old }
    ensures same { AreSame workers.old workers.new }
    ensures recorded { OnOk result ((scan_by reader.new).recorded ≡ (scan_by reader.old).recorded ++ as_answer out.new ∷ []) }
    ensures found { OnOk result (HasRecorded reader.new (as_answer out.new)) }
    ensures still { (a : Answer) → HasRecorded reader.old a → HasRecorded reader.new a }
    ensures quit { (scan_by reader.new).quit ≡ (scan_by reader.old).quit }
    ensures seen { OnOk result (SeesMore out.new.vector (scan_by reader.new).seen) }
    ensures settled { OnOk result (IsSettled workers.old out.new) }
    ensures moments { OnOk result (AreMomentsOf workers.old (scan_by reader.new).recorded) }
    ensures all { OnOk result ((i : ℕ) → i < N → HasIndex workers.old i) }
    ensures alone { OnOk result (IsAlone reader.new) }
    ensures missing { IfErr result (λ e. IsMissing workers.old e.missing) }
    ensures unchanged { OnErr result ((workers.new ≡ workers.old) × (reader.new ≡ reader.old) × (out.new ≡ out.old)) }
{
    if let Some(missing) = missing(workers) {
        return Err(NotAll { missing });
    }
    lend_all(board, reader, workers);
    let Ok(()) = reader.scan(board, out) else {
        unreachable!()
    };
    take_all(board, reader, workers);
    Ok(())
}
