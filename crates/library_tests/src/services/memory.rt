//! Calls that take no memory: those of a recorder, of a page's recorder and of a scanner. A test makes each of them once, another
//! one a thousand times, and `checks/no_memory.py` sees that both ask for memory equally often.
use super::{Counts, Team};
use crate::asserts::{need, there};
use crate::crew::ID;
use dirgwako::{
    Bounds, Counter, Gauge, Histogram, Op, PageCrew, PageRecorder, Snapshot, Source, inc, observe,
    up,
};
use std::process::Abort;

/// The handles of the first slots of a registry, of which the histogram has the bounds 10 and 20.
fn handles(rt: &impl Abort, registry: u64) -> (Counter, Histogram, Gauge) {
    let slot = 0;
    let bounds = need(rt, Bounds::from_slice(&[10, 20]));
    let hist = Histogram {
        registry,
        slot,
        bounds,
    };
    (Counter { registry, slot }, hist, Gauge { registry, slot })
}

/// A recorder counts by each of its calls.
fn counts(rt: &impl Abort, recorder: &mut Counts<'_>, handles: &(Counter, Histogram, Gauge)) {
    let (counter, hist, gauge) = handles;
    need(rt, recorder.inc(counter, 1));
    need(rt, recorder.inc_one(counter));
    need(rt, recorder.observe(hist, 11));
    need(rt, recorder.up(gauge, 2));
    need(rt, recorder.down(gauge, 1));
    let changes = [inc(counter, 1), observe(hist, 11), up(gauge, 1)];
    need(rt, recorder.publish(&changes));
    let mut tally = recorder.tally::<8>();
    need(rt, tally.inc(counter, 1));
    need(rt, recorder.flush(&mut tally));
}

/// A page's recorder counts by each of its calls.
fn counts_on_page(
    rt: &impl Abort,
    recorder: &mut PageRecorder<2, 4, 2, 2>,
    handles: &(Counter, Histogram, Gauge),
) {
    let (counter, hist, gauge) = handles;
    need(rt, recorder.inc(counter, 1));
    need(rt, recorder.inc_one(counter));
    need(rt, recorder.observe(hist, 11));
    need(rt, recorder.up(gauge, 2));
    need(rt, recorder.down(gauge, 1));
    let (counter_slot, by) = (counter.slot, 1);
    let op = Op::Inc {
        counter: counter_slot,
        by,
    };
    need(rt, recorder.apply(counter.registry, &[op]));
    let changes = [inc(counter, 1), observe(hist, 11), up(gauge, 1)];
    need(rt, recorder.publish(&changes));
    let mut tally = recorder.tally::<8>(counter.registry);
    need(rt, tally.inc(counter, 1));
    need(rt, recorder.flush(&mut tally));
    assert!(rt; recorder.join() == 2);
}

/// A page's recorder counts on both boards of a page, of which the second came after it had counted, so many times.
fn page_calls(rt: &(impl Abort + AllocGlobal), times: u64) {
    let (mut crew, mut recorders) = need(rt, PageCrew::<2, 4, 2, 2>::new(rt.alloc(), 1, 64));
    let mut recorder = there(rt, recorders.pop());
    let (first, second) = (handles(rt, 128), handles(rt, 129));
    need(rt, recorder.inc(&first.0, 1));
    need(rt, crew.add_board());
    for _ in 0..times {
        counts_on_page(rt, &mut recorder, &second);
        counts_on_page(rt, &mut recorder, &first);
    }
}

/// All these calls, so many times.
fn calls(rt: &(impl Abort + AllocGlobal), times: u64) {
    let mut team = need(rt, Team::new(rt.alloc(), ID, 2));
    let (_registry, mut recorders, mut scanners) = need(rt, team.open(64));
    let mut recorder = there(rt, recorders.pop());
    let mut scanner = there(rt, scanners.pop());
    let (handles, mut out) = (handles(rt, ID), need(rt, Snapshot::new(rt.alloc())));
    for _ in 0..times {
        counts(rt, &mut recorder, &handles);
        need(rt, scanner.scan(&mut out));
    }
    page_calls(rt, times);
}

#[test]
fn each_call_once(rt: HostRuntime) {
    calls(&rt, 1);
}

#[test]
fn each_call_a_thousand_times(rt: HostRuntime) {
    calls(&rt, 1_000);
}
