//! Jobs of workers, and the pool that does them.
ghost use Rattle.std.specs.Prelude.{IfOk, All};
ghost use Rattle.segment_layout.specs.Layout.{IsGeometry};
ghost use Rattle.snapshot_scan.specs.Readers.{IsReaderOf};
ghost use Rattle.snapshot_update.specs.Workers.{IsWorkerOf};

use crate::asserts::need;
use crate::crew::{ID, counter, finds, last_reader};
use register_rule::Board;
use snapshot_scan::{Reader, Snapshot};
use snapshot_update::{Crew, Worker};
use std::alloc::Global;
use std::process::Abort;
use std::sync::Wait;
use std::thread::Threads;
use worker_pool::{Gate, Job, JobOp, PoolFault, run_pool};

/// A job of this line, which adds so much to a counter.
pub(crate) fn job(line: u64, slot: usize, by: u64) -> Job {
    Job {
        line,
        what: JobOp::Inc(counter(slot), by),
    }
}

/// A worker's list: this so many times.
fn repeated(rt: &impl Abort, alloc: Global, what: &JobOp, many: u64) -> Vec<Job> {
    let mut jobs = Vec::new(alloc);
    for line in 0..many {
        let what = *what;
        need(rt, jobs.push(Job { line, what }));
    }
    jobs
}

/// The lists of workers, each of which does one of these so many times.
pub(crate) fn lists(rt: &impl Abort, alloc: Global, whats: &[JobOp], many: u64) -> Vec<Vec<Job>> {
    let mut lists = Vec::new(alloc);
    for what in whats {
        need(rt, lists.push(repeated(rt, alloc, what, many)));
    }
    lists
}

/// These lists, a worker's each.
pub(crate) fn listed(rt: &impl Abort, alloc: Global, lists: &[&[Job]]) -> Vec<Vec<Job>> {
    let mut listed = Vec::new(alloc);
    for list in lists {
        need(rt, listed.push(need(rt, Vec::from_slice(alloc, list))));
    }
    listed
}

/// A board with its workers, a reader, and what its scans find.
#[derive(Drop)]
pub(crate) struct Team<const N: usize, const C: usize, const H: usize, const G: usize> {
    pub(crate) board: Board<N, C, H, G>,
    pub(crate) workers: Vec<Worker<N, C, H, G>>,
    pub(crate) reader: Reader<N, C, H, G>,
    pub(crate) out: Snapshot<N, C, H, G>,
}

/// Nobody has made a step.
pub(crate) fn make_team<const N: usize, const C: usize, const H: usize, const G: usize>(
    rt: &impl Abort,
    alloc: Global,
) -> Team<N, C, H, G>
    requires geometry { IsGeometry N C H G }
    ensures workers { All (IsWorkerOf result.board) result.workers.items }
    ensures reader { IsReaderOf result.board result.reader }
{
    let Crew {
        board,
        workers,
        mut readers,
    } = need(rt, Crew::<N, C, H, G>::new(alloc, ID, 1));
    let reader = last_reader(rt, &board, &mut readers);
    let out = need(rt, Snapshot::new(alloc));
    Team {
        board,
        workers,
        reader,
        out,
    }
}

/// A scan of the team's reader is not refused, and finds this vector.
pub(crate) fn team_finds<const N: usize, const C: usize, const H: usize, const G: usize>(
    rt: &impl Abort,
    team: &mut Team<N, C, H, G>,
    vector: &[u64],
)
    requires of_board { IsReaderOf team.old.board team.old.reader }
{
    let scan = team.reader.scan(&team.board, &mut team.out);
    finds(rt, scan, &team.out, vector);
}

/// What the pool answers, with the workers that it hands back.
pub(crate) fn runs<P: Gate + Sync, const N: usize, const C: usize, const H: usize, const G: usize>(
    rt: &(impl Threads + Wait + Abort),
    alloc: Global,
    board: &Board<N, C, H, G>,
    workers: Vec<Worker<N, C, H, G>>,
    jobs: &[Vec<Job>],
    gate: &P,
) -> Result<Vec<Worker<N, C, H, G>>, PoolFault>
    requires of_board { All (IsWorkerOf board.now) workers.items }
    ensures of_board { IfOk result (λ v. All (IsWorkerOf board.now) v.items) }
{
    if jobs.len() != workers.len() {
        rt.panic("a list for each worker");
    }
    run_pool(rt, alloc, board, workers, jobs, gate)
}

/// A team whose workers have done these jobs in a pool; or the fault that the pool tells, where the workers are gone.
pub(crate) fn team_after<
    P: Gate + Sync,
    const N: usize,
    const C: usize,
    const H: usize,
    const G: usize,
>(
    rt: &(impl Threads + Wait + Abort),
    alloc: Global,
    jobs: Vec<Vec<Job>>,
    gate: &P,
) -> (Team<N, C, H, G>, Option<PoolFault>)
    requires geometry { IsGeometry N C H G }
    ensures of_board { All (IsWorkerOf result.0.board) result.0.workers.items × IsReaderOf result.0.board result.0.reader }
{
    let Team {
        board,
        workers,
        reader,
        out,
    } = make_team(rt, alloc);
    let (workers, fault) = match runs(rt, alloc, &board, workers, jobs.as_slice(), gate) {
        Ok(workers) => (workers, None),
        Err(fault) => (Vec::new(alloc), Some(fault)),
    };
    let team = Team {
        board,
        workers,
        reader,
        out,
    };
    (team, fault)
}
