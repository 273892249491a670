//! All workers are lent to one reader, and taken back.
ghost use Rattle.std.specs.Prelude.{◌≡◌, ℕ, ◌<◌, length, All, IfSome, IfNone, true, false};
ghost use mathlib.Core.Option.{some};
ghost use lib.ListN.{get_elem?};
ghost use Rattle.segment_layout.specs.Layout.{IsGeometry};
ghost use Rattle.snapshot_scan.specs.Readers.{members_with, scan_by, index_of as reader_index, IsReaderOf};
ghost use Rattle.snapshot_update.specs.Workers.{IsWorkerOf};
ghost use Rattle.chain_law.specs.Settled.{HasIndex, IsMissing};
ghost use Rattle.snapshot_scan.specs.Lent.{HasSeenMore};
ghost use Rattle.chain_law.specs.Lent.{AreLentFrom, AreLent, AreDistinct, AreBackFrom, HaveLeft};

use register_rule::Board;
use snapshot_scan::Reader;
use snapshot_update::Worker;

/// Which workers these are, by their places.
fn present<const N: usize, const C: usize, const H: usize, const G: usize>(
    workers: &[Worker<N, C, H, G>],
    marks: &mut [bool],
)
    requires all { length marks.old ≡ N }
    requires none { (i : ℕ) → i < N → get_elem? marks.old i ≡ some false }
    ensures marks { (i : ℕ) → i < N → (get_elem? marks.new i ≡ some true → HasIndex workers.now i)
        × (get_elem? marks.new i ≡ some false → ¬ (HasIndex workers.now i)) }
{
    for k in 0..workers.len() {
        marks[workers[k].index()] = true;
    }
}

/// The least worker that is none of these, if one is missing.
pub fn missing<const N: usize, const C: usize, const H: usize, const G: usize>(
    workers: &[Worker<N, C, H, G>],
) -> Option<usize>
    requires geometry { IsGeometry N C H G }
    ensures least { IfSome result (λ i. IsMissing workers.now i) }
    ensures none { IfNone result ((i : ℕ) → i < N → HasIndex workers.now i) }
{
    let mut marks = [false; N];
    present(workers, &mut marks);
    for i in 0..N {
        if !marks[i] {
            return Some(i);
        }
    }
    None
}

/// Lends these workers to the reader, one after the other.
pub(crate) fn lend_all<const N: usize, const C: usize, const H: usize, const G: usize>(
    board: &Board<N, C, H, G>,
    reader: &mut Reader<N, C, H, G>,
    workers: &mut [Worker<N, C, H, G>],
)
    requires of_board { IsReaderOf board.now reader.old × All (IsWorkerOf board.now) workers.old }
    ensures of_board { IsReaderOf board.now reader.new }
    ensures index { reader_index reader.new ≡ reader_index reader.old }
    ensures scan { HasSeenMore (scan_by reader.old) (scan_by reader.new) }
    ensures lent { AreLentFrom (length (members_with reader.old)) (length workers.old) workers.old workers.new reader.new }
{
    for k in 0..workers.len() {
        workers[k].lend_to(board, reader);
    }
}

/// Takes these workers back from the reader that they are lent to, one after the other.
pub(crate) fn take_all<const N: usize, const C: usize, const H: usize, const G: usize>(
    board: &Board<N, C, H, G>,
    reader: &mut Reader<N, C, H, G>,
    workers: &mut [Worker<N, C, H, G>],
)
    requires of_board { IsReaderOf board.now reader.old }
    requires lent { AreLent 0 workers.old reader.old }
    requires distinct { AreDistinct workers.old }
    ensures of_board { IsReaderOf board.now reader.new × All (IsWorkerOf board.now) workers.new }
    ensures index { reader_index reader.new ≡ reader_index reader.old }
    ensures scan { scan_by reader.new ≡ scan_by reader.old }
    ensures back { AreBackFrom (length workers.old) workers.old workers.new reader.old }
    ensures left { HaveLeft (length workers.old) workers.old reader.old reader.new }
{
    for k in 0..workers.len() {
        workers[k].take_back(board, reader);
    }
}
