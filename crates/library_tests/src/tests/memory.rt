//! Calls that take no memory: those of workers, readers and tallies. A test makes each of them once, another one a thousand
//! times, and `checks/no_memory.py` sees that both ask for memory equally often.
ghost use Rattle.snapshot_scan.specs.Order.{IsAlone};
ghost use Rattle.snapshot_scan.specs.Readers.{IsReaderOf};
ghost use Rattle.snapshot_update.specs.Workers.{IsWorkerOf};

use crate::asserts::{need, same};
use crate::crew::{ID, counter, gauge, last_alone, last_worker};
use bucket_math::Bounds;
use ledger_core::{Histogram, Op, Tally};
use register_rule::Board;
use snapshot_scan::{Reader, Snapshot, order};
use snapshot_update::{Crew, Worker};
use std::alloc::Global;
use std::cmp::Ordering;
use std::process::Abort;

/// The histogram of the board, with the bounds 10 and 20.
fn histogram(rt: &impl Abort) -> Histogram {
    Histogram {
        registry: ID,
        slot: 0,
        bounds: need(rt, Bounds::from_slice(&[10, 20])),
    }
}

/// A worker counts by each of its calls.
fn counts(
    rt: &impl Abort,
    board: &Board<2, 1, 1, 1>,
    worker: &mut Worker<2, 1, 1, 1>,
    hist: &Histogram,
)
    requires of_board { IsWorkerOf board.now worker.old }
    ensures of_board { IsWorkerOf board.now worker.new }
{
    need(rt, worker.inc(board, &counter(0), 1));
    need(rt, worker.observe(board, hist, 11));
    need(rt, worker.up(board, &gauge(0), 2));
    need(rt, worker.down(board, &gauge(0), 1));
    let ops = [Op::Inc { counter: 0, by: 1 }, Op::Up { gauge: 0, by: 1 }];
    need(rt, worker.apply(board, &ops));
}

/// A tally takes one of each kind, is published, and is empty then.
fn tallies(
    rt: &impl Abort,
    board: &Board<2, 1, 1, 1>,
    worker: &mut Worker<2, 1, 1, 1>,
    tally: &mut Tally<1, 1, 1, 8>,
    hist: &Histogram,
)
    requires of_board { IsWorkerOf board.now worker.old }
    ensures of_board { IsWorkerOf board.now worker.new }
{
    need(rt, tally.inc(&counter(0), 1));
    need(rt, tally.observe(hist, 11));
    need(rt, tally.up(&gauge(0), 1));
    need(rt, tally.down(&gauge(0), 1));
    need(rt, worker.apply(board, tally.ops()));
    tally.clear();
}

/// A worker meets a reader, which scans while the worker is lent to it.
fn meets(
    rt: &impl Abort,
    board: &Board<2, 1, 1, 1>,
    worker: &mut Worker<2, 1, 1, 1>,
    reader: &mut Reader<2, 1, 1, 1>,
    out: &mut Snapshot<2, 1, 1, 1>,
)
    requires worker { IsWorkerOf board.now worker.old }
    requires reader { IsReaderOf board.now reader.old }
    ensures worker { IsWorkerOf board.now worker.new }
    ensures reader { IsReaderOf board.now reader.new }
{
    worker.meet(board, reader);
    worker.lend_to(board, reader);
    need(rt, reader.scan(board, out));
    worker.take_back(board, reader);
}

/// Two readers scan, and find the same.
fn compares(
    rt: &impl Abort,
    board: &Board<2, 1, 1, 1>,
    one: &mut Reader<2, 1, 1, 1>,
    other: &mut Reader<2, 1, 1, 1>,
    ones: &mut Snapshot<2, 1, 1, 1>,
    others: &mut Snapshot<2, 1, 1, 1>,
)
    requires of_board { IsReaderOf board.now one.old × IsReaderOf board.now other.old }
    requires alone { IsAlone one.old × IsAlone other.old }
    ensures of_board { IsReaderOf board.now one.new × IsReaderOf board.now other.new }
    ensures alone { IsAlone one.new × IsAlone other.new }
{
    need(rt, one.scan(board, ones));
    need(rt, other.scan(board, others));
    let found = order(board, ones, one, others, other);
    same(rt, found, Ordering::Equal);
}

/// Who makes the calls, and what their scans find.
#[derive(Drop)]
struct Team {
    worker: Worker<2, 1, 1, 1>,
    reader: Reader<2, 1, 1, 1>,
    one: Reader<2, 1, 1, 1>,
    other: Reader<2, 1, 1, 1>,
    ones: Snapshot<2, 1, 1, 1>,
    others: Snapshot<2, 1, 1, 1>,
}

/// All these calls.
fn calls(
    rt: &impl Abort,
    board: &Board<2, 1, 1, 1>,
    it: &mut Team,
    tally: &mut Tally<1, 1, 1, 8>,
    hist: &Histogram,
)
    requires worker { IsWorkerOf board.now it.old.worker }
    requires reader { IsReaderOf board.now it.old.reader }
    requires of_board { IsReaderOf board.now it.old.one × IsReaderOf board.now it.old.other }
    requires alone { IsAlone it.old.one × IsAlone it.old.other }
    ensures worker { IsWorkerOf board.now it.new.worker }
    ensures reader { IsReaderOf board.now it.new.reader }
    ensures of_board { IsReaderOf board.now it.new.one × IsReaderOf board.now it.new.other }
    ensures alone { IsAlone it.new.one × IsAlone it.new.other }
{
    counts(rt, board, &mut it.worker, hist);
    tallies(rt, board, &mut it.worker, tally, hist);
    need(rt, it.worker.scan(board, &mut it.ones));
    meets(rt, board, &mut it.worker, &mut it.reader, &mut it.ones);
    compares(
        rt,
        board,
        &mut it.one,
        &mut it.other,
        &mut it.ones,
        &mut it.others,
    );
}

/// The same, so many times.
fn rounds(rt: &impl Abort, board: &Board<2, 1, 1, 1>, it: &mut Team, times: u64)
    requires worker { IsWorkerOf board.now it.old.worker }
    requires reader { IsReaderOf board.now it.old.reader }
    requires of_board { IsReaderOf board.now it.old.one × IsReaderOf board.now it.old.other }
    requires alone { IsAlone it.old.one × IsAlone it.old.other }
{
    let (hist, mut tally) = (histogram(rt), Tally::new(ID));
    for _time in 0..times {
        calls(rt, board, it, &mut tally, &hist);
    }
}

/// The same, on a new board.
fn rounds_on_new(rt: &impl Abort, alloc: Global, times: u64) {
    let mut crew = need(rt, Crew::<2, 1, 1, 1>::new(alloc, ID, 3));
    let mut it = Team {
        worker: last_worker(rt, &crew.board, &mut crew.workers),
        reader: last_alone(rt, &crew.board, &mut crew.readers),
        one: last_alone(rt, &crew.board, &mut crew.readers),
        other: last_alone(rt, &crew.board, &mut crew.readers),
        ones: need(rt, Snapshot::new(alloc)),
        others: need(rt, Snapshot::new(alloc)),
    };
    rounds(rt, &crew.board, &mut it, times);
}

#[test]
fn each_call_once(rt: HostRuntime) {
    rounds_on_new(&rt, rt.alloc(), 1);
}

#[test]
fn each_call_a_thousand_times(rt: HostRuntime) {
    rounds_on_new(&rt, rt.alloc(), 1_000);
}
