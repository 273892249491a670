//! What one thread of a pool does.
ghost use Rattle.std.specs.Prelude.{◌≡◌, ◌<◌, true, length, OnOk, IfErr};
ghost use Rattle.snapshot_update.specs.Workers.{IsWorkerOf};
ghost use Rattle.worker_pool.specs.Jobs.{jobs_at};
ghost use Rattle.worker_pool.specs.Works.{Did, HasStopped, IsWorkEnd};

use crate::fault::PoolFault;
use crate::job_lists::JobLists;
use crate::way::Way;
use register_rule::Board;
use snapshot_update::Worker;
use std::thread::yield_now;

/// How often a worker asks its gate before one job.
const MOST_ASKS: u32 = 10_000_000;

/// Whether the way opens for the worker at this place.
fn opens<W: Way>(way: &W, place: usize) -> bool
    ensures { W.ALWAYS_OPEN ≡ true → result ≡ true }
{
    for _ in 0..MOST_ASKS {
        if way.is_open(place) {
            return true;
        }
        yield_now();
    }
    false
}

/// Does the jobs of the worker at this place, in order, until one is refused or the gate stays shut: then nothing more.
fn work_on<Q: JobLists, W: Way, const N: usize, const C: usize, const H: usize, const G: usize>(
    board: &Board<N, C, H, G>,
    worker: &mut Worker<N, C, H, G>,
    place: usize,
    lists: &Q,
    way: &W,
) -> Result<(), PoolFault>
    requires of_board { IsWorkerOf board.now worker.old }
    requires place { place < length (Q.lists lists.now) }
    ensures done { OnOk result (Did board.now (jobs_at (Q.lists lists.now) place) worker.old worker.new) }
    ensures stopped { IfErr result (HasStopped W.ALWAYS_OPEN board.now place (jobs_at (Q.lists lists.now) place)
        worker.old worker.new) }
{
    for next in 0..lists.count(place) {
        let job = lists.job(place, next);
        if !opens(way, place) {
            return Err(PoolFault::GateShut { worker: place });
        }
        if let Err(fault) = job.run(board, worker) {
            return Err(PoolFault::Refused {
                line: job.line,
                number: fault.number(),
            });
        }
        way.tell(place);
    }
    Ok(())
}

/// Does the jobs of the worker at this place, and hands the worker back if all of them were done.
pub(crate) fn work<
    Q: JobLists,
    W: Way,
    const N: usize,
    const C: usize,
    const H: usize,
    const G: usize,
>(
    board: &Board<N, C, H, G>,
    mut worker: Worker<N, C, H, G>,
    place: usize,
    lists: &Q,
    way: &W,
) -> Result<Worker<N, C, H, G>, PoolFault>
    requires of_board { IsWorkerOf board.now worker }
    requires place { place < length (Q.lists lists.now) }
    ensures { IsWorkEnd W.ALWAYS_OPEN board.now place (jobs_at (Q.lists lists.now) place) worker.entry result }
{
    match work_on(board, &mut worker, place, lists, way) {
        Ok(()) => Ok(worker),
        Err(fault) => Err(fault),
    }
}
