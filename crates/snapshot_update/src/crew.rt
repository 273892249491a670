//! A board and all who work on it.
ghost use Rattle.std.specs.Prelude.{◌≡◌, [], map, length, replicate, IfOk, IfErr, All};
ghost use Rattle.std.specs.List.{range_with_len};
ghost use Rattle.ledger_core.specs.Ops.{width};
ghost use Rattle.segment_layout.specs.Layout.{depth, IsGeometry};
ghost use Rattle.register_rule.specs.Faults.{IsBoardSize, IsBoardFault};
ghost use Rattle.register_rule.specs.Members.{new_worker, new_reader, workers_from, readers_from, fresh_scan};
ghost use Rattle.register_rule.specs.Seats.{board_id, worker_of, reader_of, IsWorkSeatOf, IsReadSeatOf};
ghost use Rattle.snapshot_scan.specs.Order.{IsAlone};
ghost use Rattle.snapshot_scan.specs.Readers.{IsReaderOf, scan_by as scan_of_reader, index_of as reader_index};
ghost use Rattle.snapshot_update.specs.Workers.{index_of, lists_of, scan_by, IsWorkerOf, AreFresh};

use crate::Worker;
use register_rule::{Board, BoardFault, Parts, ReadSeat, WorkSeat};
use snapshot_scan::Reader;
use std::alloc::{AllocError, Global};

/// A new board with all who work on it: who takes it apart has the board, to be shared, and workers and readers, each to move to
/// a thread of its own.
#[derive(Drop)]
pub struct Crew<const N: usize, const C: usize, const H: usize, const G: usize> {
    /// What workers and readers share.
    pub board: Board<N, C, H, G>,
    /// The `N` workers, in order.
    pub workers: Vec<Worker<N, C, H, G>>,
    /// The readers.
    pub readers: Vec<Reader<N, C, H, G>>,
}

/// The worker of a seat. `board` and `index` serve the contract alone.
fn to_worker<const N: usize, const C: usize, const H: usize, const G: usize>(
    alloc: Global,
    board: &Board<N, C, H, G>,
    seat: WorkSeat,
    index: usize,
) -> Result<Worker<N, C, H, G>, AllocError>
    requires geometry { IsGeometry N C H G }
    requires of_board { IsWorkSeatOf board.now seat }
    requires fresh { worker_of seat ≡ new_worker N (width C H G) (depth N (width C H G)) index }
    ensures of_board { IfOk result (IsWorkerOf board.now) }
    ensures index { IfOk result (λ w. index_of w ≡ index) }
    ensures lists { IfOk result (λ w. lists_of w ≡ []) }
    ensures scan { IfOk result (λ w. scan_by w ≡ fresh_scan N (width C H G)) }
{
    match Worker::new(alloc, seat) {
        Ok(worker) => Ok(worker),
        Err(_) => Err(AllocError),
    }
}

/// The workers of these seats, in order.
fn to_workers<const N: usize, const C: usize, const H: usize, const G: usize>(
    alloc: Global,
    board: &Board<N, C, H, G>,
    seats: Vec<WorkSeat>,
) -> Result<Vec<Worker<N, C, H, G>>, AllocError>
    requires geometry { IsGeometry N C H G }
    requires of_board { All (IsWorkSeatOf board.now) seats.items }
    requires fresh { map worker_of seats.items ≡ workers_from N (width C H G) (depth N (width C H G)) 0 N }
    ensures of_board { IfOk result (λ v. All (IsWorkerOf board.now) v.items) }
    ensures all { IfOk result (λ v. map index_of v.items ≡ range_with_len 0 N) }
    ensures new { IfOk result (λ v. map lists_of v.items ≡ replicate N []) }
    ensures scans { IfOk result (λ v. map scan_by v.items ≡ replicate N (fresh_scan N (width C H G))) }
{
    let mut workers = Vec::new(alloc);
    let mut index = 0;
    for seat in seats {
        workers.push(to_worker(alloc, board, seat, index)?)?;
        index += 1;
    }
    Ok(workers)
}

/// The reader of a seat. `board` and `index` serve the contract alone.
fn to_reader<const N: usize, const C: usize, const H: usize, const G: usize>(
    alloc: Global,
    board: &Board<N, C, H, G>,
    seat: ReadSeat,
    index: usize,
) -> Result<Reader<N, C, H, G>, AllocError>
    requires geometry { IsGeometry N C H G }
    requires of_board { IsReadSeatOf board.now seat }
    requires fresh { reader_of seat ≡ new_reader N (width C H G) index }
    ensures of_board { IfOk result (IsReaderOf board.now) }
    ensures index { IfOk result (λ r. reader_index r ≡ index) }
    ensures alone { IfOk result IsAlone }
    ensures scan { IfOk result (λ r. scan_of_reader r ≡ fresh_scan N (width C H G)) }
{
    match Reader::new(alloc, seat) {
        Ok(reader) => Ok(reader),
        Err(_) => Err(AllocError),
    }
}

/// The readers of these seats, of which there are so many, in order.
fn to_readers<const N: usize, const C: usize, const H: usize, const G: usize>(
    alloc: Global,
    board: &Board<N, C, H, G>,
    seats: Vec<ReadSeat>,
    all: usize,
) -> Result<Vec<Reader<N, C, H, G>>, AllocError>
    requires geometry { IsGeometry N C H G }
    requires of_board { All (IsReadSeatOf board.now) seats.items }
    requires fresh { map reader_of seats.items ≡ readers_from N (width C H G) 0 all }
    ensures of_board { IfOk result (λ v. All (IsReaderOf board.now) v.items) }
    ensures alone { IfOk result (λ v. All IsAlone v.items) }
    ensures all { IfOk result (λ v. length v.items ≡ all) }
    ensures order { IfOk result (λ v. map reader_index v.items ≡ range_with_len 0 all) }
    ensures scans { IfOk result (λ v. map scan_of_reader v.items ≡ replicate all (fresh_scan N (width C H G))) }
{
    let mut readers = Vec::new(alloc);
    let mut index = 0;
    for seat in seats {
        readers.push(to_reader(alloc, board, seat, index)?)?;
        index += 1;
    }
    Ok(readers)
}

impl<const N: usize, const C: usize, const H: usize, const G: usize> Crew<N, C, H, G> {
    /// A new board of this id, on which nothing was counted, with its `N` workers and `readers` readers. All memory that counting
    /// and scanning need is taken here.
    ///
    /// # Errors
    ///
    /// 13 [`BoardFault::Geometry`], unless `N` is 1 to 32, `C` at most 256, `H` at most 32, `G` at most 64 and `readers` 1 to 4;
    /// then 6 [`BoardFault::NoMemory`].
    pub fn new(alloc: Global, id: u64, readers: usize) -> Result<Crew<N, C, H, G>, BoardFault>
        ensures board { IfOk result (λ c. (board_id c.board ≡ id) × IsBoardSize N C H G readers) }
        ensures of_board { IfOk result (λ c. All (IsWorkerOf c.board) c.workers.items
            × All (IsReaderOf c.board) c.readers.items) }
        ensures all { IfOk result (λ c. map index_of c.workers.items ≡ range_with_len 0 N) }
        ensures new { IfOk result (λ c. map lists_of c.workers.items ≡ replicate N []) }
        ensures alone { IfOk result (λ c. All IsAlone c.readers.items) }
        ensures count { IfOk result (λ c. length c.readers.items ≡ readers) }
        ensures fresh { IfOk result (λ c. AreFresh readers c.workers.items c.readers.items) }
        ensures fault { IfErr result (IsBoardFault N C H G readers) }
    {
        let Parts { board, work, read } = match Board::new(alloc, id, readers) {
            Ok(parts) => parts,
            Err(fault) => return Err(fault),
        };
        let Ok(workers) = to_workers(alloc, &board, work) else {
            return Err(BoardFault::NoMemory);
        };
        let Ok(readers) = to_readers(alloc, &board, read, readers) else {
            return Err(BoardFault::NoMemory);
        };
        Ok(Crew {
            board,
            workers,
            readers,
        })
    }
}
