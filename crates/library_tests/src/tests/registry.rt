//! A registry behind its lock by its calls, over a board of two workers.
ghost use Rattle.std.specs.Prelude.{All};
ghost use Rattle.snapshot_update.specs.Workers.{IsWorkerOf};

use crate::asserts::{done, need, same, there};
use crate::crew::{ID, last_worker};
use crate::helpers::{desc, values};
use crate::locked::{Two, TwoBoard, TwoCrew, TwoWorker, made, registry_of};
use expo_text::render;
use ledger_core::{Counter, Gauge, Histogram};
use metric_desc::Kind;
use registry_state::{BadWindow, ChildFault, Handle, RegisterFault};
use std::alloc::Global;
use std::process::Abort;
use std::sync::Wait;

/// Makes so many scrapes, whose text is this.
fn prints(rt: &(impl Wait + Abort), registry: &Two<'_>, times: usize, expected: &str) {
    for _ in 0..times {
        let text = need(rt, render(&need(rt, registry.scrape(rt))));
        same(rt, text.as_slice(), expected.as_bytes());
    }
}

/// Makes 70 scrapes, of which 64 are kept, then other windows, and a scrape in each. The window is the one that was asked for,
/// and a smaller one drops the oldest scrapes: four are kept in the end.
fn windows(rt: &(impl Wait + Abort), registry: &Two<'_>) {
    prints(rt, registry, 70, "");
    same(rt, registry.set_window(rt, 64), Ok(64));
    same(rt, registry.set_window(rt, 3), Ok(3));
    prints(rt, registry, 1, "");
    same(rt, registry.set_window(rt, 1_024), Ok(3));
    same(rt, registry.set_window(rt, 0), Err(BadWindow));
    same(rt, registry.set_window(rt, 1_025), Err(BadWindow));
    prints(rt, registry, 1, "");
}

/// The handles of a counter, a histogram and a gauge.
type Handles = (Counter, Histogram, Gauge);

/// Those of families `c`, `h` and `g`.
fn handles(rt: &(impl Wait + Abort), alloc: Global, registry: &Two<'_>) -> Handles {
    let (_, counter) = made(rt, alloc, registry, Kind::Counter, "c");
    let (_, hist) = made(rt, alloc, registry, Kind::Histogram, "h");
    let (_, gauge) = made(rt, alloc, registry, Kind::Gauge, "g");
    match (counter, hist, gauge) {
        (Handle::Counter(counter), Handle::Histogram(hist), Handle::Gauge(gauge)) => {
            (counter, hist, gauge)
        }
        _ => rt.panic("handles of other kinds"),
    }
}

/// The last two workers count by turns, by each of the handles.
fn count_by_turns(rt: &impl Abort, board: &TwoBoard, workers: &mut Vec<TwoWorker>, handles: Handles)
    requires of_board { All (IsWorkerOf board.now) workers.old.items }
{
    let (counter, hist, gauge) = handles;
    let mut second = last_worker(rt, board, workers);
    let mut first = last_worker(rt, board, workers);
    need(rt, first.inc(board, &counter, 5));
    need(rt, second.inc(board, &counter, 2));
    need(rt, first.observe(board, &hist, 11));
    need(rt, second.up(board, &gauge, 5));
    need(rt, first.down(board, &gauge, 7));
}

/// What a scrape shows then.
const COUNTED: &str = "# TYPE c counter\nc 7\n# TYPE g gauge\ng -2\n# TYPE h histogram\n\
     h_bucket{le=\"10\"} 0\nh_bucket{le=\"20\"} 1\nh_bucket{le=\"+Inf\"} 1\nh_sum 11\nh_count 1\n";

/// The answers are those of the registry behind the lock, of a further family `d` by a path, which has no slot, and of refusals.
/// The family `c` is found again with its child.
fn refuses(rt: &(impl Wait + Abort), alloc: Global, registry: &Two<'_>) {
    let clash = registry.register(rt, done(rt, desc(alloc, Kind::Counter, "h_sum", &[])));
    same(rt, clash, Err(RegisterFault::Clash { with: 1 }));
    same(rt, registry.family(rt, "e"), None);
    let by_path = done(rt, desc(alloc, Kind::Gauge, "d", &["path"]));
    let family = need(rt, registry.register(rt, by_path));
    same(rt, family.number(), 3);
    same(rt, registry.family(rt, "d"), Some(family));
    let (want, got, kind) = (1, 0, Kind::Gauge);
    let none = registry.child(rt, family, &[]);
    same(rt, none, Err(ChildFault::LabelCount { want, got }));
    let full = registry.child(rt, family, &done(rt, values(alloc, &["/"])));
    same(rt, full, Err(ChildFault::Full { kind, slots: 1 }));
    let family = there(rt, registry.family(rt, "c"));
    let again = need(rt, registry.child(rt, family, &[]));
    let (registry, slot) = (ID, 0);
    same(rt, again, Handle::Counter(Counter { registry, slot }));
}

/// In the end nothing stands there but what was answered with success: six kept scrapes, four families and three children.
#[test]
fn each_call(rt: HostRuntime) {
    let (rt, alloc) = (&rt, rt.alloc());
    let mut crew = need(rt, TwoCrew::new(alloc, ID, 1));
    let registry = registry_of(rt, alloc, &crew.board, &mut crew.readers, 64);
    windows(rt, &registry);
    let handles = handles(rt, alloc, &registry);
    count_by_turns(rt, &crew.board, &mut crew.workers, handles);
    prints(rt, &registry, 2, COUNTED);
    refuses(rt, alloc, &registry);
    let state = registry.into_state();
    same(rt, (state.kept().len(), state.journal().len()), (6, 13));
}
