//! A pool counts, while scrapes are made of a registry.
ghost use Rattle.std.specs.Prelude.{◌≡◌, length, All};
ghost use Rattle.snapshot_scan.specs.Readers.{IsReaderOf};
ghost use Rattle.snapshot_update.specs.Workers.{IsWorkerOf};

use crate::asserts::{need, same};
use crate::locked::{made_counter, registry_of};
use expo_text::{Number, Scrape};
use ledger_core::Counter;
use register_rule::Board;
use registry_state::ScrapeFault;
use snapshot_scan::Reader;
use snapshot_update::{Crew, Worker};
use std::alloc::{AllocError, Global};
use std::process::Abort;
use std::sync::Wait;
use std::thread::{Threads, join};
use worker_pool::{Job, JobOp, Open, PoolFault, run_pool};

/// A board of four workers, whose row is one counter.
type Four = Board<4, 1, 0, 0>;

/// Its workers.
type Workers = Vec<Worker<4, 1, 0, 0>>;

/// A registry of it.
type Registry<'a> = metric_registry::Registry<'a, 4, 1, 0, 0>;

/// How often each worker counts 1.
const TIMES: u64 = 10_000;

/// A worker's list of jobs.
fn list(rt: &impl Abort, alloc: Global, counter: Counter) -> Vec<Job> {
    let mut jobs = Vec::new(alloc);
    for _ in 0..TIMES {
        need(
            rt,
            jobs.push(Job {
                line: 1,
                what: JobOp::Inc(counter, 1),
            }),
        );
    }
    jobs
}

/// Those of all workers.
fn lists(rt: &impl Abort, alloc: Global, counter: Counter) -> Vec<Vec<Job>> {
    let mut jobs = Vec::new(alloc);
    for _ in 0..4 {
        need(rt, jobs.push(list(rt, alloc, counter)));
    }
    jobs
}

/// What a scrape shows of the counter.
fn counted_in(scrape: &Scrape) -> Option<u64> {
    let family = scrape.families().first()?;
    match family.children.as_slice().first()?.number {
        Number::Counter(total) => Some(total),
        _ => None,
    }
}

/// No worker's number is below the one before it. The numbers are kept, and their sum is given.
fn rises(rt: &impl Abort, vector: &[u64], before: &mut [u64; 4]) -> u64 {
    assert_eq!(rt; vector.len(), 4);
    let mut sum = 0u64;
    for (worker, number) in before.iter_mut().enumerate() {
        let risen = (*number, vector[worker]);
        same(rt, (risen, risen.0 <= risen.1), (risen, true));
        *number = vector[worker];
        sum = sum.wrapping_add(*number);
    }
    sum
}

/// Scrapes until all is counted, at most 100,000 times. Each scrape is of one moment: since each version counts 1, its counter is
/// the sum of its vector. It tells how many scrapes there were, and whether all was seen.
fn scrape_often(rt: &(impl Wait + Abort), registry: &Registry<'_>) -> (u64, bool) {
    let mut before = [0u64; 4];
    let mut scrapes = 0u64;
    for _scrape in 0..100_000u32 {
        match registry.scrape(rt) {
            Ok(scrape) => {
                scrapes = scrapes.saturating_add(1);
                let sum = rises(rt, scrape.vector(), &mut before);
                same(rt, counted_in(&scrape), Some(sum));
                if sum == 4 * TIMES {
                    return (scrapes, true);
                }
            }
            Err(ScrapeFault::Contended(_)) => {}
            Err(fault) => need(rt, Err(fault)),
        }
    }
    (scrapes, false)
}

/// What the pool answered, and how many scrapes there were meanwhile.
type Ended = (Result<Workers, PoolFault>, (u64, bool));

/// The pool runs all jobs, while scrapes are made.
fn count_and_scrape(
    rt: &(impl Threads + Wait + Abort + Sync),
    alloc: Global,
    board: &Four,
    registry: &Registry<'_>,
    workers: Workers,
    jobs: &[Vec<Job>],
) -> Ended
    requires { (length jobs.now ≡ length workers.items) × All (IsWorkerOf board.now) workers.items }
{
    join(
        rt,
        || -> Result<Workers, PoolFault>
            requires { (length jobs.now ≡ length workers.items) × All (IsWorkerOf board.now) workers.items }
        { run_pool(rt, alloc, board, workers, jobs, &Open) },
        || -> (u64, bool) { scrape_often(rt, registry) },
    )
}

/// The pool has run all jobs, while some scrape was made, and then all was counted.
fn count_and_end(
    rt: &(impl Threads + Wait + Abort + Sync),
    alloc: Global,
    board: &Four,
    workers: Workers,
    readers: &mut Vec<Reader<4, 1, 0, 0>>,
)
    requires { All (IsReaderOf board.now) readers.old.items × All (IsWorkerOf board.now) workers.items }
{
    let registry = registry_of(rt, alloc, board, readers, 64);
    let (_, counter) = made_counter(rt, alloc, &registry, "a");
    let jobs = lists(rt, alloc, counter);
    assert_eq!(rt; jobs.len(), workers.len());
    let (counted, scraped) = count_and_scrape(rt, alloc, board, &registry, workers, &jobs);
    same(rt, (scraped, scraped.0 > 0), (scraped, true));
    let _workers = need(rt, counted);
    same(rt, scrape_often(rt, &registry), (1, true));
}

#[test]
fn scrapes_while_a_pool_counts(rt: HostRuntime) {
    let Crew {
        board,
        workers,
        mut readers,
    } = need(&rt, Crew::new(rt.alloc(), 1, 1));
    count_and_end(&rt, rt.alloc(), &board, workers, &mut readers);
}
