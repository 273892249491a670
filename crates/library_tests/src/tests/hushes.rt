//! The hush word: how often scans asked for a rest, and what a worker does that is asked. No clause speaks of it.
ghost use Rattle.snapshot_update.specs.Workers.{IsWorkerOf};

use crate::asserts::{need, same};
use crate::crew::{counter, last_worker};
use crate::jobs::{lists, make_team, team_after, team_finds};
use register_rule::Board;
use snapshot_update::Worker;
use std::io;
use std::process::Abort;
use std::thread::join;
use std::time::{Clock, Duration, Instant};
use worker_pool::{JobOp, Open};

/// The number of the last request, for which a new worker rests now; 0 where no scan asks.
fn asked<const N: usize, const C: usize, const H: usize, const G: usize>(
    board: &Board<N, C, H, G>,
) -> u64 {
    let mut rested = 0;
    board.rest_if_hushed(&mut rested);
    rested
}

/// The same, and how often a rest was asked for before, by this function, too.
pub(crate) fn requests<const N: usize, const C: usize, const H: usize, const G: usize>(
    board: &Board<N, C, H, G>,
) -> (u64, u64) {
    let now = asked(board);
    board.hush();
    let all = asked(board);
    board.end_hush();
    (now, all.wrapping_sub(1))
}

/// All seats of a board may ask at one time, 32 workers and 4 readers.
#[test]
fn all_seats_ask_at_once(rt: HostRuntime) {
    let board = make_team::<1, 1, 0, 0>(&rt, rt.alloc()).board;
    for number in 1..37u64 {
        board.hush();
        same(&rt, asked(&board), number);
    }
}

/// Two scans ask, of which one asks anew: the end of one does not end the hush of the other.
#[test]
fn a_hush_lasts_while_any_scan_asks(rt: HostRuntime) {
    let rt = &rt;
    let board = make_team::<1, 1, 0, 0>(rt, rt.alloc()).board;
    same(rt, requests(&board), (0, 0));
    board.hush();
    board.hush();
    board.hush_anew();
    board.end_hush();
    same(rt, requests(&board), (4, 4));
    board.end_hush();
    same(rt, requests(&board), (0, 5));
}

/// Asks, asks anew and ends it, again and again.
fn ask_often(board: &Board<1, 1, 0, 0>) {
    for _scan in 0..50_000u64 {
        board.hush();
        board.hush_anew();
        board.end_hush();
    }
}

/// Two threads ask at once: no request of theirs is lost, and none asks behind them.
#[test]
fn two_threads_ask(rt: HostRuntime) {
    let rt = &rt;
    let board = &make_team::<1, 1, 0, 0>(rt, rt.alloc()).board;
    join(rt, || ask_often(board), || ask_often(board));
    same(rt, requests(board), (0, 200_000));
}

/// How long an increment takes.
fn timed(
    rt: &(impl Clock + Abort),
    board: &Board<1, 1, 0, 0>,
    worker: &mut Worker<1, 1, 0, 0>,
) -> io::Result<Duration>
    requires of_board { IsWorkerOf board.now worker.old }
    ensures of_board { IsWorkerOf board.now worker.new }
{
    let start = Instant::now(rt)?;
    need(rt, worker.inc(board, &counter(0), 1));
    start.elapsed(rt)
}

/// The least time of an increment that finds a new request, and of the one behind it that finds the same, in five turns. The hush
/// lasts all the while.
fn least_times(
    rt: &(impl Clock + Abort),
    board: &Board<1, 1, 0, 0>,
    worker: &mut Worker<1, 1, 0, 0>,
) -> (Duration, Duration)
    requires of_board { IsWorkerOf board.now worker.old }
    ensures of_board { IsWorkerOf board.now worker.new }
{
    let (mut rested, mut next) = (Duration::MAX, Duration::MAX);
    for _turn in 0..5u64 {
        board.hush_anew();
        rested = rested.min(need(rt, timed(rt, board, worker)));
        next = next.min(need(rt, timed(rt, board, worker)));
    }
    (rested, next)
}

/// A scan asks, and never ends: each update is made, but rests first, once for each request. A rest is 100,000 loads long, and an
/// update of one worker makes some ten loads and stores.
#[test]
fn a_worker_rests_once_for_a_request(rt: HostRuntime) {
    let rt = &rt;
    let mut it = make_team::<1, 1, 0, 0>(rt, rt.alloc());
    let mut worker = last_worker(rt, &it.board, &mut it.workers);
    it.board.hush();
    let (rested, next) = least_times(rt, &it.board, &mut worker);
    let times = (rested.as_nanos(), next.as_nanos());
    same(rt, (times, times.0 / 8 > times.1), (times, true));
    team_finds(rt, &mut it, &[10]);
    same(rt, it.out.counter(0), 10);
}

/// Two workers update at once, and try their scans again where the other one moves: the scan of an update asks nobody to rest.
#[test]
fn updates_ask_for_no_rest(rt: HostRuntime) {
    let rt = &rt;
    let jobs = lists(rt, rt.alloc(), &[JobOp::Inc(counter(0), 1); 2], 50_000);
    let (it, fault) = team_after::<_, 2, 1, 0, 0>(rt, rt.alloc(), jobs, &Open);
    same(rt, (fault, requests(&it.board)), (None, (0, 0)));
}
