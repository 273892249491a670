//! Starting the threads of a pool, and joining them.
ghost use Rattle.std.specs.Prelude.{◌≡◌, ◌≢◌, true, ◌<◌, ◌≤◌, List, length, map, Result, Ok, IfOk, IfErr};
ghost use Rattle.std.specs.Prelude.{vec_len, vec_capacity, All};
ghost use Rattle.snapshot_update.specs.declared.worker.Worker.{Worker};
ghost use Rattle.snapshot_update.specs.Workers.{IsWorkerOf};
ghost use Rattle.worker_pool.specs.declared.fault.PoolFault.{PoolFault};
ghost use Rattle.worker_pool.specs.declared.fault.PoolFault.TheVariants.{NoMemory};
ghost use Rattle.worker_pool.specs.Faults.{pool_fault_number, IsLeast};
ghost use Rattle.worker_pool.specs.Ends.{DidAll, IsPoolFault, Occurred};
ghost use Rattle.worker_pool.specs.Jobs.{jobs_at};
ghost use Rattle.worker_pool.specs.Works.{IsWorkEnd};
ghost use Rattle.worker_pool.specs.Pledges.{ArePledged, HaveKept};

use crate::fault::PoolFault;
use crate::job_lists::JobLists;
use crate::outcome::outcome;
use crate::promise::Does;
use crate::thread_work::work;
use crate::way::Way;
use register_rule::Board;
use snapshot_update::Worker;
use std::alloc::Global;
use std::snapshot::Snapshot;
use std::thread::{PromisedHandle, Scope, Threads};

/// A thread of a pool.
type Thread<'s, Q, const N: usize, const C: usize, const H: usize, const G: usize> = PromisedHandle<
    Result<Worker<N, C, H, G>, PoolFault>,
    Does<'s, Q, N, C, H, G>,
>;

/// Starts a thread for each worker. Where the system gives none, it starts no more.
fn start_all<
    's,
    E: 's,
    Q: JobLists + Sync,
    W: Way + Sync,
    const N: usize,
    const C: usize,
    const H: usize,
    const G: usize,
>(
    scope: &'s Scope<'s, E>,
    board: &'s Board<N, C, H, G>,
    workers: Vec<Worker<N, C, H, G>>,
    lists: &'s Q,
    way: &'s W,
    threads: &mut Vec<Thread<'s, Q, N, C, H, G>>,
)
    requires lists { length (Q.lists lists.now) ≡ vec_len workers }
    requires of_board { All (IsWorkerOf board.now) workers.items }
    requires room { (vec_len threads.old ≡ 0) × (vec_len workers ≤ vec_capacity threads.old) }
    ensures pledged { ArePledged Q.lists W.ALWAYS_OPEN board.now (Q.lists lists.now) workers.entry.items threads.new.items }
    ensures few { length threads.new.items ≤ length workers.entry.items }
{
    let mut place = 0;
    for worker in workers {
        let promise = Does {
            board,
            place,
            lists,
            always_open: W::always_open(),
            was: Snapshot::of(&worker),
        };
        let started = scope.spawn_with(
            promise,
            move || -> Result<Worker<N, C, H, G>, PoolFault>
                requires { IsWorkerOf board.now worker × (place < length (Q.lists lists.now)) }
                ensures { IsWorkEnd W.ALWAYS_OPEN board.entry.now place (jobs_at (Q.lists lists.entry.now) place) worker result }
            { work(board, worker, place, lists, way) },
        );
        let Ok(thread) = started else {
            return;
        };
        let Ok(()) = threads.push(thread) else {
            unreachable!()
        };
        place += 1;
    }
}

/// Joins all threads, and gives their results in the order of the threads.
fn join_all<
    's,
    R: Threads,
    Q: JobLists,
    const N: usize,
    const C: usize,
    const H: usize,
    const G: usize,
>(
    rt: &R,
    threads: Vec<Thread<'s, Q, N, C, H, G>>,
    mut ends: Vec<Result<Worker<N, C, H, G>, PoolFault>>,
) -> Vec<Result<Worker<N, C, H, G>, PoolFault>>
    requires room { (vec_len ends ≡ 0) × (vec_len threads ≤ vec_capacity ends) }
    ensures { HaveKept Q.lists threads.entry.items result.items }
{
    for thread in threads {
        let Ok(()) = ends.push(thread.join(rt)) else {
            unreachable!()
        };
    }
    ends
}

/// Joins all threads, those of the first of so many workers, and gives the workers back, or tells the fault that is told of all.
fn finish<
    's,
    R: Threads,
    Q: JobLists,
    const N: usize,
    const C: usize,
    const H: usize,
    const G: usize,
>(
    rt: &R,
    threads: Vec<Thread<'s, Q, N, C, H, G>>,
    ends: Vec<Result<Worker<N, C, H, G>, PoolFault>>,
    workers: usize,
    done: Vec<Worker<N, C, H, G>>,
) -> Result<Vec<Worker<N, C, H, G>>, PoolFault>
    requires ends { (vec_len ends ≡ 0) × (vec_len threads ≤ vec_capacity ends) }
    requires done { (vec_len done ≡ 0) × (vec_len threads ≤ vec_capacity done) }
    ensures all { IfOk result (λ v. HaveKept Q.lists threads.entry.items (map Ok v.items)
        × (workers ≤ length threads.entry.items)) }
    ensures told { IfErr result (λ f. (all : List (Result (Worker N C H G) PoolFault))
        × HaveKept Q.lists threads.entry.items all × IsLeast (Occurred workers all) f) }
{
    let ends = join_all(rt, threads, ends);
    outcome(ends, workers, done)
}

/// Starts a thread for each worker, joins them all, and gives the workers back. There is room for all, so it does not want
/// memory.
fn run_with_room<
    's,
    E: 's,
    R: Threads,
    Q: JobLists + Sync,
    W: Way + Sync,
    const N: usize,
    const C: usize,
    const H: usize,
    const G: usize,
>(
    rt: &R,
    scope: &'s Scope<'s, E>,
    board: &'s Board<N, C, H, G>,
    workers: Vec<Worker<N, C, H, G>>,
    lists: &'s Q,
    way: &'s W,
    mut threads: Vec<Thread<'s, Q, N, C, H, G>>,
    ends: Vec<Result<Worker<N, C, H, G>, PoolFault>>,
    done: Vec<Worker<N, C, H, G>>,
) -> Result<Vec<Worker<N, C, H, G>>, PoolFault>
    requires lists { length (Q.lists lists.now) ≡ vec_len workers }
    requires of_board { All (IsWorkerOf board.now) workers.items }
    requires some { 0 < vec_len workers }
    requires room { (vec_len threads ≡ 0) × (vec_len workers ≤ vec_capacity threads) × (vec_len ends ≡ 0)
        × (vec_len workers ≤ vec_capacity ends) × (vec_len done ≡ 0) × (vec_len workers ≤ vec_capacity done) }
    ensures did { IfOk result (λ v. DidAll board.now (Q.lists lists.now) workers.entry.items v.items) }
    ensures of_board { IfOk result (λ v. All (IsWorkerOf board.now) v.items) }
    ensures fault { IfErr result (IsPoolFault W.ALWAYS_OPEN board.now (Q.lists lists.now) workers.entry.items) }
    ensures opened { W.ALWAYS_OPEN ≡ true → IfErr result (λ f. pool_fault_number f ≢ 29) }
    ensures had_room { IfErr result (λ f. f ≢ NoMemory) }
{
    let many = workers.len();
    start_all(scope, board, workers, lists, way, &mut threads);
    finish(rt, threads, ends, many, done)
}

/// Takes room for the threads of all workers and what they hand back, and then runs them. That no thread is started where
/// memory is wanting lies in this order: no clause says it.
pub(crate) fn run_in<
    's,
    E: 's,
    R: Threads,
    Q: JobLists + Sync,
    W: Way + Sync,
    const N: usize,
    const C: usize,
    const H: usize,
    const G: usize,
>(
    rt: &R,
    scope: &'s Scope<'s, E>,
    alloc: Global,
    board: &'s Board<N, C, H, G>,
    workers: Vec<Worker<N, C, H, G>>,
    lists: &'s Q,
    way: &'s W,
) -> Result<Vec<Worker<N, C, H, G>>, PoolFault>
    requires lists { length (Q.lists lists.now) ≡ vec_len workers }
    requires of_board { All (IsWorkerOf board.now) workers.items }
    ensures did { IfOk result (λ v. DidAll board.now (Q.lists lists.now) workers.entry.items v.items) }
    ensures of_board { IfOk result (λ v. All (IsWorkerOf board.now) v.items) }
    ensures fault { IfErr result (IsPoolFault W.ALWAYS_OPEN board.now (Q.lists lists.now) workers.entry.items) }
    ensures opened { W.ALWAYS_OPEN ≡ true → IfErr result (λ f. pool_fault_number f ≢ 29) }
{
    if workers.is_empty() {
        return Ok(workers);
    }
    let many = workers.len();
    let Ok(threads) = Vec::with_capacity(alloc, many) else {
        return Err(PoolFault::NoMemory);
    };
    let Ok(ends) = Vec::with_capacity(alloc, many) else {
        return Err(PoolFault::NoMemory);
    };
    let Ok(done) = Vec::with_capacity(alloc, many) else {
        return Err(PoolFault::NoMemory);
    };
    run_with_room(rt, scope, board, workers, lists, way, threads, ends, done)
}
