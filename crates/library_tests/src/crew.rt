//! What tests do with the workers and readers of a board, each at its place among them.
ghost use Rattle.std.specs.Prelude.{◌≡◌, ◌<◌, IfOk, All};
ghost use Rattle.ledger_core.specs.Ops.{width};
ghost use Rattle.segment_layout.specs.Layout.{depth, IsGeometry};
ghost use Rattle.register_rule.specs.Members.{new_worker};
ghost use Rattle.register_rule.specs.Seats.{worker_of, IsWorkSeatOf};
ghost use Rattle.snapshot_scan.specs.Order.{IsAlone};
ghost use Rattle.snapshot_scan.specs.Readers.{IsReaderOf};
ghost use Rattle.snapshot_update.specs.Workers.{IsWorkerOf};

use crate::asserts::same;
use ledger_core::{Counter, Gauge};
use register_rule::{Board, WorkSeat};
use snapshot_scan::{Contended, Reader, Snapshot};
use snapshot_update::Worker;
use std::alloc::{AllocError, Global};
use std::process::Abort;

/// The id of the boards.
pub(crate) const ID: u64 = 7;

/// A counter of the boards.
pub(crate) fn counter(slot: usize) -> Counter {
    Counter { registry: ID, slot }
}

/// A gauge of the boards.
pub(crate) fn gauge(slot: usize) -> Gauge {
    Gauge { registry: ID, slot }
}

/// Takes the last reader.
pub(crate) fn last_reader<const N: usize, const C: usize, const H: usize, const G: usize>(
    rt: &impl Abort,
    board: &Board<N, C, H, G>,
    readers: &mut Vec<Reader<N, C, H, G>>,
) -> Reader<N, C, H, G>
    requires of_board { All (IsReaderOf board.now) readers.old.items }
    ensures of_board { IsReaderOf board.now result }
    ensures others { All (IsReaderOf board.now) readers.new.items }
{
    match readers.pop() {
        Some(reader) => reader,
        None => rt.panic("no reader"),
    }
}

/// Takes the last reader, to which nobody is lent.
pub(crate) fn last_alone<const N: usize, const C: usize, const H: usize, const G: usize>(
    rt: &impl Abort,
    board: &Board<N, C, H, G>,
    readers: &mut Vec<Reader<N, C, H, G>>,
) -> Reader<N, C, H, G>
    requires of_board { All (IsReaderOf board.now) readers.old.items }
    requires alone { All IsAlone readers.old.items }
    ensures of_board { IsReaderOf board.now result }
    ensures alone { IsAlone result }
    ensures others { All (IsReaderOf board.now) readers.new.items × All IsAlone readers.new.items }
{
    match readers.pop() {
        Some(reader) => reader,
        None => rt.panic("no reader"),
    }
}

/// Takes the last worker.
pub(crate) fn last_worker<const N: usize, const C: usize, const H: usize, const G: usize>(
    rt: &impl Abort,
    board: &Board<N, C, H, G>,
    workers: &mut Vec<Worker<N, C, H, G>>,
) -> Worker<N, C, H, G>
    requires of_board { All (IsWorkerOf board.now) workers.old.items }
    ensures of_board { IsWorkerOf board.now result }
    ensures others { All (IsWorkerOf board.now) workers.new.items }
{
    match workers.pop() {
        Some(worker) => worker,
        None => rt.panic("no worker"),
    }
}

/// A scan is not refused, and finds this vector.
pub(crate) fn finds<const N: usize, const C: usize, const H: usize, const G: usize>(
    rt: &impl Abort,
    scan: Result<(), Contended>,
    out: &Snapshot<N, C, H, G>,
    vector: &[u64],
) {
    same(rt, scan, Ok(()));
    same(rt, out.vector(), vector);
}

/// The worker of a seat that has made no step.
pub(crate) fn new_worker<const N: usize, const C: usize, const H: usize, const G: usize>(
    alloc: Global,
    board: &Board<N, C, H, G>,
    seat: WorkSeat,
    index: usize,
) -> Result<Worker<N, C, H, G>, AllocError>
    requires of_board { IsWorkSeatOf board.now seat }
    requires geometry { IsGeometry N C H G }
    requires fresh { worker_of seat ≡ new_worker N (width C H G) (depth N (width C H G)) index }
    ensures { IfOk result (λ w. IsWorkerOf board.now w) }
{
    match Worker::new(alloc, seat) {
        Ok(worker) => Ok(worker),
        Err(_) => Err(AllocError),
    }
}
