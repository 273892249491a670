//! Readers that scan while workers count.
ghost use Rattle.std.specs.Prelude.{IfOk, All};
ghost use Rattle.snapshot_scan.specs.Readers.{IsReaderOf};
ghost use Rattle.snapshot_update.specs.Workers.{IsWorkerOf};

use crate::asserts::{need, same, there};
use crate::crew::{ID, counter, finds, last_reader};
use crate::jobs::{lists, runs};
use bucket_math::Bounds;
use chain_law::{NotAll, history_of, settle};
use ledger_core::Histogram;
use register_rule::Board;
use snapshot_scan::{Reader, Snapshot};
use snapshot_update::{Crew, Worker};
use std::alloc::{AllocError, Global};
use std::process::Abort;
use std::sync::Wait;
use std::thread::{Threads, join};
use worker_pool::{Job, JobOp, Open, PoolFault};

/// A reader, what its scans gave it, and how many were given up, each with a number that rose.
#[derive(Drop)]
struct Watch {
    reader: Reader<4, 1, 1, 0>,
    taken: Vec<Snapshot<4, 1, 1, 0>>,
    given_up: usize,
}

/// Scans once more, and keeps what it is given, or counts that it was given up.
fn scan_once(alloc: Global, board: &Board<4, 1, 1, 0>, watch: &mut Watch) -> Result<(), AllocError>
    requires of_board { IsReaderOf board.now watch.old.reader }
    ensures of_board { IsReaderOf board.now watch.new.reader }
{
    let mut out = Snapshot::new(alloc)?;
    if let Err(contended) = watch.reader.scan(board, &mut out) {
        let rose = usize::from(contended.first < contended.last);
        watch.given_up = watch.given_up.wrapping_add(rose);
        return Ok(());
    }
    watch.taken.push(out)?;
    Ok(())
}

/// Scans 1,000 times, one scan after the other.
fn scan_often(
    alloc: Global,
    board: &Board<4, 1, 1, 0>,
    reader: Reader<4, 1, 1, 0>,
) -> Result<Watch, AllocError>
    requires of_board { IsReaderOf board.now reader }
    ensures of_board { IfOk result (λ w. IsReaderOf board.now w.reader) }
{
    let mut watch = Watch {
        reader,
        taken: Vec::new(alloc),
        given_up: 0,
    };
    for _k in 0..1_000u64 {
        scan_once(alloc, board, &mut watch)?;
    }
    Ok(watch)
}

/// What two readers were given.
type Watches = (Result<Watch, AllocError>, Result<Watch, AllocError>);

/// Two readers at once.
fn two_scan(
    rt: &(impl Threads + Abort + Sync),
    alloc: Global,
    board: &Board<4, 1, 1, 0>,
    left: Reader<4, 1, 1, 0>,
    right: Reader<4, 1, 1, 0>,
) -> Watches
    requires left { IsReaderOf board.now left }
    requires right { IsReaderOf board.now right }
    ensures left { IfOk result.0 (λ w. IsReaderOf board.now w.reader) }
    ensures right { IfOk result.1 (λ w. IsReaderOf board.now w.reader) }
{
    join(
        rt,
        || -> Result<Watch, AllocError>
            requires { IsReaderOf board.now left }
            ensures { IfOk result (λ w. IsReaderOf board.entry.now w.reader) }
        { scan_often(alloc, board, left) },
        || -> Result<Watch, AllocError>
            requires { IsReaderOf board.now right }
            ensures { IfOk result (λ w. IsReaderOf board.entry.now w.reader) }
        { scan_often(alloc, board, right) },
    )
}

/// The workers count by a pool while two readers scan.
fn all_at_once(
    rt: &(impl Threads + Wait + Abort + Sync),
    alloc: Global,
    board: &Board<4, 1, 1, 0>,
    workers: Vec<Worker<4, 1, 1, 0>>,
    jobs: &[Vec<Job>],
    left: Reader<4, 1, 1, 0>,
    right: Reader<4, 1, 1, 0>,
) -> (Result<Vec<Worker<4, 1, 1, 0>>, PoolFault>, Watches)
    requires workers { All (IsWorkerOf board.now) workers.items }
    requires left { IsReaderOf board.now left }
    requires right { IsReaderOf board.now right }
    ensures workers { IfOk result.0 (λ v. All (IsWorkerOf board.now) v.items) }
    ensures left { IfOk result.1.0 (λ w. IsReaderOf board.now w.reader) }
    ensures right { IfOk result.1.1 (λ w. IsReaderOf board.now w.reader) }
{
    join(
        rt,
        || -> Result<Vec<Worker<4, 1, 1, 0>>, PoolFault>
            requires { All (IsWorkerOf board.now) workers.items }
            ensures { IfOk result (λ v. All (IsWorkerOf board.entry.now) v.items) }
        { runs(rt, alloc, board, workers, jobs, &Open) },
        || -> Watches
            requires { IsReaderOf board.now left × IsReaderOf board.now right }
            ensures { IfOk result.0 (λ w. IsReaderOf board.entry.now w.reader)
                × IfOk result.1 (λ w. IsReaderOf board.entry.now w.reader) }
        { two_scan(rt, alloc, board, left, right) },
    )
}

/// What was counted: the counter, and the histogram's first and third bucket, its sum and its count.
type Counted = (u64, u64, u64, u64, u64);

/// What is counted in a snapshot.
fn found_in(out: &Snapshot<4, 1, 1, 0>) -> Counted {
    let totals = out.hist(0);
    let [first, _second, third, ..] = totals.buckets;
    (out.counter(0), first, third, totals.sum, totals.count)
}

/// The same, by how often each worker had published: two count 1 each time, the third one observes 3, and the fourth one 12.
fn told_by(out: &Snapshot<4, 1, 1, 0>) -> Counted {
    let numbers = out.vector();
    let (third, fourth) = (numbers[2], numbers[3]);
    let sum = third.wrapping_mul(3).wrapping_add(fourth.wrapping_mul(12));
    let counter = numbers[0].wrapping_add(numbers[1]);
    (counter, third, fourth, sum, third.wrapping_add(fourth))
}

/// What a reader was given is something, each of its scans is accounted for, all are of one moment each, and one history passes
/// through them.
fn are_accounted(rt: &impl Abort, alloc: Global, taken: &[Snapshot<4, 1, 1, 0>], given_up: usize) {
    same(rt, taken.is_empty(), false);
    same(rt, taken.len().wrapping_add(given_up), 1_000);
    for out in taken {
        same(rt, found_in(out), told_by(out));
    }
    let _history = need(rt, history_of(alloc, taken));
}

/// Whether one of two vectors is above the other at no place.
fn compare(rt: &impl Abort, one: &[u64], other: &[u64]) -> bool {
    let (mut below, mut above) = (true, true);
    for k in 0..one.len() {
        let (x, y) = (one[k], *there(rt, other.get(k)));
        below = below && x <= y;
        above = above && y <= x;
    }
    below || above
}

/// A vector and any of these snapshots compare,
fn compares_with_all(rt: &impl Abort, one: &[u64], others: &[Snapshot<4, 1, 1, 0>]) {
    for out in others {
        let other = out.vector();
        let found = compare(rt, one, other);
        same(rt, (one, other, found), (one, other, true));
    }
}

/// and so do any two snapshots of the readers.
fn all_compare(rt: &impl Abort, ones: &[Snapshot<4, 1, 1, 0>], others: &[Snapshot<4, 1, 1, 0>]) {
    for out in ones {
        compares_with_all(rt, out.vector(), others);
    }
}

/// The numbers of all workers in the end.
const ALL: [u64; 4] = [10_000, 10_000, 10_000, 10_000];

/// No worker settles with a reader, and then all do, and the other one scans: both find all that was counted.
fn settle_and_scan(
    rt: &impl Abort,
    alloc: Global,
    board: &Board<4, 1, 1, 0>,
    workers: &mut [Worker<4, 1, 1, 0>],
    one: &mut Reader<4, 1, 1, 0>,
    other: &mut Reader<4, 1, 1, 0>,
)
    requires of_board { IsReaderOf board.now one.old × IsReaderOf board.now other.old }
    requires workers { All (IsWorkerOf board.now) workers.old }
{
    let mut settled = need(rt, Snapshot::new(alloc));
    let mut scanned = need(rt, Snapshot::new(alloc));
    let none = settle(board, one, &mut [], &mut settled);
    same(rt, none, Err(NotAll { missing: 0 }));
    need(rt, settle(board, one, workers, &mut settled));
    finds(rt, other.scan(board, &mut scanned), &scanned, &ALL);
    same(rt, settled.vector(), ALL.as_slice());
    let all = (20_000, 10_000, 10_000, 150_000, 20_000);
    same(rt, (found_in(&settled), found_in(&scanned)), (all, all));
}

/// What two readers were given, and the end.
fn end_well(
    rt: &impl Abort,
    alloc: Global,
    board: &Board<4, 1, 1, 0>,
    workers: &mut [Worker<4, 1, 1, 0>],
    left: Watch,
    right: Watch,
)
    requires workers { All (IsWorkerOf board.now) workers.old }
    requires left { IsReaderOf board.now left.reader }
    requires right { IsReaderOf board.now right.reader }
{
    let Watch {
        reader: mut one,
        taken: ones,
        given_up: of_one,
    } = left;
    let Watch {
        reader: mut other,
        taken: others,
        given_up: of_other,
    } = right;
    are_accounted(rt, alloc, ones.as_slice(), of_one);
    are_accounted(rt, alloc, others.as_slice(), of_other);
    all_compare(rt, ones.as_slice(), others.as_slice());
    settle_and_scan(rt, alloc, board, workers, &mut one, &mut other);
}

/// The workers count while two readers scan, to the end.
fn count_and_end(
    rt: &(impl Threads + Wait + Abort + Sync),
    alloc: Global,
    board: &Board<4, 1, 1, 0>,
    workers: Vec<Worker<4, 1, 1, 0>>,
    jobs: &[Vec<Job>],
    left: Reader<4, 1, 1, 0>,
    right: Reader<4, 1, 1, 0>,
)
    requires workers { All (IsWorkerOf board.now) workers.items }
    requires left { IsReaderOf board.now left }
    requires right { IsReaderOf board.now right }
{
    let (workers, (left, right)) = all_at_once(rt, alloc, board, workers, jobs, left, right);
    let mut workers = need(rt, workers);
    end_well(
        rt,
        alloc,
        board,
        workers.as_mut_slice(),
        need(rt, left),
        need(rt, right),
    );
}

/// The histogram, of three bounds.
fn histogram(rt: &impl Abort) -> Histogram {
    let bounds = need(rt, Bounds::from_slice(&[5, 10, 15]));
    let (registry, slot) = (ID, 0);
    Histogram {
        registry,
        slot,
        bounds,
    }
}

/// The lists of four workers, of 10,000 jobs each: two increment the counter, one observes 3, and one 12.
fn four_lists(rt: &impl Abort, alloc: Global) -> Vec<Vec<Job>> {
    let whats = [
        JobOp::Inc(counter(0), 1),
        JobOp::Inc(counter(0), 1),
        JobOp::Observe(histogram(rt), 3),
        JobOp::Observe(histogram(rt), 12),
    ];
    lists(rt, alloc, &whats, 10_000)
}

#[test]
fn readers_scan_while_workers_count(rt: HostRuntime) {
    let rt = &rt;
    let Crew {
        board,
        workers,
        mut readers,
    } = need(rt, Crew::<4, 1, 1, 0>::new(rt.alloc(), ID, 2));
    let jobs = four_lists(rt, rt.alloc());
    let right = last_reader(rt, &board, &mut readers);
    let left = last_reader(rt, &board, &mut readers);
    count_and_end(rt, rt.alloc(), &board, workers, &jobs, left, right);
}
