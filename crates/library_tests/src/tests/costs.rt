//! What an update costs.
ghost use Rattle.std.specs.Prelude.{◌<◌};
ghost use Rattle.segment_layout.specs.Layout.{IsGeometry};
ghost use Rattle.snapshot_update.specs.Workers.{IsWorkerOf};

use crate::asserts::{need, same};
use crate::crew::{counter, last_worker};
use crate::jobs::make_team;
use register_rule::Board;
use snapshot_update::Worker;
use std::alloc::Global;
use std::io;
use std::process::Abort;
use std::time::{Clock, Duration, Instant};

/// How long a hundred updates take, each of which adds to one word.
fn hundred<const N: usize, const C: usize, const H: usize, const G: usize>(
    clock: &impl Clock,
    board: &Board<N, C, H, G>,
    worker: &mut Worker<N, C, H, G>,
) -> io::Result<Duration>
    requires of_board { IsWorkerOf board.now worker.old }
    ensures of_board { IsWorkerOf board.now worker.new }
{
    let start = Instant::now(clock)?;
    for _k in 0..100u64 {
        let _ = worker.inc(board, &counter(0), 1);
    }
    start.elapsed(clock)
}

/// The least time of a hundred updates in 200 rounds, nobody else running.
fn least<const N: usize, const C: usize, const H: usize, const G: usize>(
    clock: &impl Clock,
    board: &Board<N, C, H, G>,
    worker: &mut Worker<N, C, H, G>,
) -> io::Result<Duration>
    requires of_board { IsWorkerOf board.now worker.old }
{
    let mut least = hundred(clock, board, worker)?;
    for _round in 0..200u64 {
        least = least.min(hundred(clock, board, worker)?);
    }
    Ok(least)
}

/// The least time, in nanoseconds, on a new board.
fn least_on_new<const N: usize, const C: usize, const H: usize, const G: usize>(
    rt: &(impl Clock + Abort),
    alloc: Global,
) -> u128
    requires geometry { IsGeometry N C H G }
{
    let mut it = make_team::<N, C, H, G>(rt, alloc);
    let mut worker = last_worker(rt, &it.board, &mut it.workers);
    need(rt, least(rt, &it.board, &mut worker)).as_nanos()
}

/// It compares and fills what changed, whatever else the row has: here a buffer of 4 words, and one of 2,498. To compare all of
/// these takes some thirty times as long.
#[test]
fn an_update_costs_no_more_on_a_large_board(rt: HostRuntime) {
    let rt = &rt;
    let small = least_on_new::<1, 1, 0, 0>(rt, rt.alloc());
    let large = least_on_new::<1, 256, 32, 64>(rt, rt.alloc());
    same(rt, (small, large, large / 6 < small), (small, large, true));
}
