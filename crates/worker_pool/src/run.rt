//! A pool of threads.
ghost use Rattle.std.specs.Prelude.{◌≡◌, ◌≢◌, true, false, length, IfOk, IfErr, vec_len, All};
ghost use Rattle.snapshot_update.specs.Workers.{IsWorkerOf};
ghost use Rattle.worker_pool.specs.Faults.{pool_fault_number};
ghost use Rattle.worker_pool.specs.Jobs.{lists_in};
ghost use Rattle.worker_pool.specs.Ends.{DidAll, IsPoolFault};

use crate::fault::PoolFault;
use crate::gate::Gate;
use crate::job::Job;
use crate::job_lists::JobLists;
use crate::starting::run_in;
use crate::way::{Free, Gated, Way};
use register_rule::Board;
use snapshot_update::Worker;
use std::alloc::Global;
use std::sync::Wait;
use std::thread;
use std::thread::Threads;

/// Runs one thread for each worker, which does the list of jobs at the worker's place, in order: each job is one version of the
/// worker's. It hands the workers back in their old order. All threads are joined before it answers.
///
/// Before each job the worker asks the gate, by its place, at most 10,000,000 times, and lets other threads run between two
/// askings. After each job it tells the gate. A worker that meets a fault stops there, and the others go on. Where the system
/// gives no thread for a worker, those after it are not begun either.
///
/// # Errors
///
/// The first that is there in this order, of one kind the one of the least line or worker, and of two refusals of one line that
/// of the lesser worker: the number of a worker's refusal (16, 15, 11, 12), [`PoolFault::Refused`]; 29 [`PoolFault::GateShut`];
/// 30 [`PoolFault::NoThread`]. 6 [`PoolFault::NoMemory`] comes before the first thread (tested), so that no job was done then.
/// The workers are gone.
pub fn run_pool<
    R: Threads + Wait,
    P: Gate + Sync,
    const N: usize,
    const C: usize,
    const H: usize,
    const G: usize,
>(
    rt: &R,
    alloc: Global,
    board: &Board<N, C, H, G>,
    workers: Vec<Worker<N, C, H, G>>,
    jobs: &[Vec<Job>],
    gate: &P,
) -> Result<Vec<Worker<N, C, H, G>>, PoolFault>
    requires lists { length jobs.now ≡ vec_len workers }
    requires of_board { All (IsWorkerOf board.now) workers.items }
    ensures did { IfOk result (λ v. DidAll board.now (lists_in jobs.now) workers.entry.items v.items) }
    ensures of_board { IfOk result (λ v. All (IsWorkerOf board.now) v.items) }
    ensures fault { IfErr result (IsPoolFault false board.now (lists_in jobs.now) workers.entry.items) }
{
    run_lists(rt, alloc, board, workers, &jobs, gate)
}

/// [`run_pool`], over lists of any kind, which give one job at a time.
///
/// # Errors
///
/// Those of [`run_pool`]: 16, 15, 11, 12 [`PoolFault::Refused`], 29 [`PoolFault::GateShut`], 30 [`PoolFault::NoThread`], 6
/// [`PoolFault::NoMemory`].
pub fn run_lists<
    R: Threads + Wait,
    Q: JobLists + Sync,
    P: Gate + Sync,
    const N: usize,
    const C: usize,
    const H: usize,
    const G: usize,
>(
    rt: &R,
    alloc: Global,
    board: &Board<N, C, H, G>,
    workers: Vec<Worker<N, C, H, G>>,
    lists: &Q,
    gate: &P,
) -> Result<Vec<Worker<N, C, H, G>>, PoolFault>
    requires lists { length (Q.lists lists.now) ≡ vec_len workers }
    requires of_board { All (IsWorkerOf board.now) workers.items }
    ensures did { IfOk result (λ v. DidAll board.now (Q.lists lists.now) workers.entry.items v.items) }
    ensures of_board { IfOk result (λ v. All (IsWorkerOf board.now) v.items) }
    ensures fault { IfErr result (IsPoolFault false board.now (Q.lists lists.now) workers.entry.items) }
{
    run_on_way(rt, alloc, board, workers, lists, &Gated { gate })
}

/// [`run_lists`] without a gate: no worker waits, and none is shut out.
///
/// # Errors
///
/// Those of [`run_pool`] but 29: 16, 15, 11, 12 [`PoolFault::Refused`], 30 [`PoolFault::NoThread`], 6 [`PoolFault::NoMemory`].
pub fn run_freely<
    R: Threads + Wait,
    Q: JobLists + Sync,
    const N: usize,
    const C: usize,
    const H: usize,
    const G: usize,
>(
    rt: &R,
    alloc: Global,
    board: &Board<N, C, H, G>,
    workers: Vec<Worker<N, C, H, G>>,
    lists: &Q,
) -> Result<Vec<Worker<N, C, H, G>>, PoolFault>
    requires lists { length (Q.lists lists.now) ≡ vec_len workers }
    requires of_board { All (IsWorkerOf board.now) workers.items }
    ensures did { IfOk result (λ v. DidAll board.now (Q.lists lists.now) workers.entry.items v.items) }
    ensures of_board { IfOk result (λ v. All (IsWorkerOf board.now) v.items) }
    ensures fault { IfErr result (IsPoolFault true board.now (Q.lists lists.now) workers.entry.items) }
    ensures never_shut { IfErr result (λ f. pool_fault_number f ≢ 29) }
{
    run_on_way(rt, alloc, board, workers, lists, &Free)
}

/// Runs the threads in a scope of their own.
fn run_on_way<
    R: Threads + Wait,
    Q: JobLists + Sync,
    W: Way + Sync,
    const N: usize,
    const C: usize,
    const H: usize,
    const G: usize,
>(
    rt: &R,
    alloc: Global,
    board: &Board<N, C, H, G>,
    workers: Vec<Worker<N, C, H, G>>,
    lists: &Q,
    way: &W,
) -> Result<Vec<Worker<N, C, H, G>>, PoolFault>
    requires lists { length (Q.lists lists.now) ≡ vec_len workers }
    requires of_board { All (IsWorkerOf board.now) workers.items }
    ensures did { IfOk result (λ v. DidAll board.now (Q.lists lists.now) workers.entry.items v.items) }
    ensures of_board { IfOk result (λ v. All (IsWorkerOf board.now) v.items) }
    ensures fault { IfErr result (IsPoolFault W.ALWAYS_OPEN board.now (Q.lists lists.now) workers.entry.items) }
    ensures opened { W.ALWAYS_OPEN ≡ true → IfErr result (λ f. pool_fault_number f ≢ 29) }
{
    thread::scope(
        thread::scope_env(),
        rt,
        |scope| -> Result<Vec<Worker<N, C, H, G>>, PoolFault>
            requires { (length (Q.lists lists.now) ≡ vec_len workers) × All (IsWorkerOf board.now) workers.items }
            ensures { IfOk result (λ v. DidAll board.entry.now (Q.lists lists.entry.now) workers.items v.items
                × All (IsWorkerOf board.entry.now) v.items)
                × IfErr result (IsPoolFault W.ALWAYS_OPEN board.entry.now (Q.lists lists.entry.now) workers.items)
                × (W.ALWAYS_OPEN ≡ true → IfErr result (λ f. pool_fault_number f ≢ 29)) }
        { run_in(rt, scope, alloc, board, workers, lists, way) },
    )
}
