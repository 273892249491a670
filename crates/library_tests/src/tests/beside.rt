//! The seat of a reader, and a worker that publishes between its loads.
ghost use Rattle.std.specs.Prelude.{◌≡◌, IfOk};
ghost use Rattle.segment_layout.specs.Layout.{depth};
ghost use Rattle.register_rule.specs.ScanSteps.{after};
ghost use Rattle.register_rule.specs.Told.{IsLoad, LoadTells};
ghost use Rattle.register_rule.specs.Told.{ScanChangesBy};
ghost use Rattle.register_rule.specs.Members.{fresh_scan};
ghost use Rattle.register_rule.specs.Seats.{members_of, reader_of, MayScan, IsReadSeatOf};
ghost use Rattle.snapshot_scan.specs.Shape.{scan_in};
ghost use Rattle.snapshot_update.specs.Workers.{IsWorkerOf};
ghost use Rattle.library_tests.specs.Beside.{IsWorkerOf-prop};

use crate::asserts::{done, need, same};
use crate::crew::{ID, counter, new_worker};
use crate::tests::hushes::requests;
use register_rule::{Board, Load, Parts, ReadSeat, ScanSeat};
use snapshot_scan::{Contended, ScanMemory, Snapshot};
use snapshot_update::Worker;
use std::alloc::Global;
use std::process::Abort;
use std::test::Fail;

/// A board of two workers, whose rows are one counter, the second worker, and the seat of a reader.
fn with_reader(alloc: Global) -> Result<(Board<2, 1, 0, 0>, Worker<2, 1, 0, 0>, ReadSeat), Fail>
    ensures of_board { IfOk result (λ r. IsWorkerOf r.0 r.1 × IsReadSeatOf r.0 r.2) }
    ensures fresh { IfOk result (λ r. (reader_of r.2).scan ≡ fresh_scan 2 1) }
{
    let Parts {
        board,
        mut work,
        mut read,
    } = Board::new(alloc, ID, 1)?;
    match (work.pop(), read.pop()) {
        (Some(second), Some(reader)) => {
            let worker = new_worker(alloc, &board, second, 1)?;
            Ok((board, worker, reader))
        }
        _ => Err("no seats".into()),
    }
}

/// Before which loads of its number the second worker publishes.
#[derive(Clone, Copy)]
struct Plan {
    opens: bool,
    confirms: bool,
    asks: bool,
    ends: bool,
    /// How often it publishes at most.
    most: u64,
}

/// A seat that scans while the second worker publishes by plan, and adds 5 each time. The first load is left alone.
#[derive(Drop)]
struct Beside<'a, S> {
    board: &'a Board<2, 1, 0, 0>,
    worker: Worker<2, 1, 0, 0>,
    seat: S,
    plan: Plan,
    ghost of_board: { IsWorkerOf board.now worker } by { IsWorkerOf-prop board.now worker },
}

/// Whether the worker, which has published so often, publishes before this load.
fn is_planned(plan: Plan, number: u64, what: Load) -> bool {
    if number >= plan.most {
        return false;
    }
    match what {
        Load::Open { place } => place == 1 && plan.opens && number > 0,
        Load::Confirm { place } => place == 1 && plan.confirms,
        Load::Ask { place: _ } => plan.asks,
        Load::EndAsk { place: _ } => plan.ends,
        _ => false,
    }
}

impl<'a, S: ScanSeat<2, 1, 0, 0>> ScanSeat<2, 1, 0, 0> for Beside<'a, S> {
    ghost bundle = { λ s. S.bundle s.seat };

    fn load(&mut self, board: &Board<2, 1, 0, 0>, what: Load) -> u64
        requires of_board { MayScan board.now (S.bundle self.old.seat) }
        requires inside { IsLoad 2 (depth 2 1) what }
        ensures learns { ScanChangesBy 2 1 0 0 (after 2 1 what result) (S.bundle self.old.seat) (S.bundle self.new.seat) }
        ensures told { LoadTells 1 what (members_of (S.bundle self.old.seat)) result }
    {
        if is_planned(self.plan, self.worker.number(), what) {
            let _ = self.worker.inc(self.board, &counter(0), 5);
        }
        self.seat.load(board, what)
    }
}

/// What a scan of this seat answers while the second worker publishes by plan.
fn scan_beside<S: ScanSeat<2, 1, 0, 0> + Drop>(
    rt: &impl Abort,
    alloc: Global,
    board: &Board<2, 1, 0, 0>,
    worker: Worker<2, 1, 0, 0>,
    seat: S,
    plan: Plan,
    out: &mut Snapshot<2, 1, 0, 0>,
) -> Result<(), Contended>
    requires of_board { IsWorkerOf board.now worker × MayScan board.now (S.bundle seat) }
    requires fresh { scan_in (S.bundle seat) ≡ fresh_scan 2 1 }
{
    let mut memory = need(rt, ScanMemory::new(alloc));
    let mut beside = Beside {
        board,
        worker,
        seat,
        plan,
    };
    memory.scan_to(board, &mut beside, out)
}

/// A scan that is given up: a number rises in each of four tries, and while the worker is asked.
const CONTENDED: Contended = Contended {
    worker: 1,
    first: 4,
    last: 5,
};

/// Publishes before a try confirms its number, so many.
const CONFIRMS: Plan = Plan {
    opens: false,
    confirms: true,
    asks: false,
    ends: false,
    most: 0,
};

/// A plan, what the scan answers, the vector and the total of the output, and how often a rest was asked for.
type Case = (Plan, Result<(), Contended>, [u64; 2], u64, u64);

/// The first try is direct, or the second one, or the third one, and a rest was asked for once for each that failed. The worker
/// lends: the numbers read are 0, 1 in the first try, 2, 3 in the second, and then 4, where it is asked. The scan is given up,
/// and the output stays as it was.
static CASES: [Case; 5] = [
    (CONFIRMS, Ok(()), [0, 0], 0, 0),
    (
        Plan {
            most: 1,
            ..CONFIRMS
        },
        Ok(()),
        [0, 1],
        5,
        1,
    ),
    (
        Plan {
            most: 2,
            ..CONFIRMS
        },
        Ok(()),
        [0, 2],
        10,
        2,
    ),
    (
        Plan {
            opens: true,
            asks: true,
            most: u64::MAX,
            ..CONFIRMS
        },
        Ok(()),
        [0, 3],
        15,
        1,
    ),
    (
        Plan {
            ends: true,
            most: u64::MAX,
            ..CONFIRMS
        },
        Err(CONTENDED),
        [6, 7],
        8,
        4,
    ),
];

/// A scan by this plan comes to this, and asks for no rest any more.
fn comes_to(rt: &impl Abort, alloc: Global, case: &Case) {
    let &(plan, answer, vector, total, asked) = case;
    let (board, worker, seat) = done(rt, with_reader(alloc));
    let mut out = need(rt, Snapshot::new(alloc));
    out.set(&[6, 7], &[8]);
    let found = scan_beside(rt, alloc, &board, worker, seat, plan, &mut out);
    same(rt, found, answer);
    same(rt, out.vector(), vector.as_slice());
    same(rt, (out.counter(0), requests(&board)), (total, (0, asked)));
}

#[test]
fn a_worker_publishes_beside_a_scan(rt: HostRuntime) {
    for case in &CASES {
        comes_to(&rt, rt.alloc(), case);
    }
    same(&rt, CONTENDED.number(), 14);
}
