//! Scans beside a thread that publishes without rest.
use crate::asserts::{need, same, there};
use crate::crew::ID;
use dirgwako::{Counter, Crew, Recorder, Scanner, Snapshot, Source};
use std::process::Abort;
use std::sync::Wait;
use std::sync::atomic::{AtomicBool, Ordering};
use std::thread::{Threads, join, yield_now};

/// How many scans each of two threads makes.
const SCANS: u64 = 5_000;

/// Whether the thread has begun to publish, and whether it is to end.
#[derive(Drop)]
struct Flags {
    begun: AtomicBool,
    ended: AtomicBool,
}

/// A scanner, and memory for its scans.
#[derive(Drop)]
struct Scanning<'a> {
    scanner: Scanner<'a, 4, 64, 8, 0>,
    out: Snapshot<4, 64, 8, 0>,
}

/// Publishes until it is told to end. Whether nothing was refused.
fn publish(
    rt: &impl Wait,
    recorder: &mut Recorder<'_, 4, 64, 8, 0>,
    counter: &Counter,
    flags: &Flags,
) -> bool {
    for _ in rt.forever() {
        let counted = recorder.inc(counter, 1);
        flags.begun.store(true, Ordering::SeqCst);
        if flags.ended.load(Ordering::SeqCst) || counted.is_err() {
            return counted.is_ok();
        }
    }
    true
}

/// Waits until the thread publishes.
fn await_begun(rt: &impl Wait, flags: &Flags) {
    for _ in rt.forever() {
        if flags.begun.load(Ordering::SeqCst) {
            break;
        }
        yield_now();
    }
}

/// Scans again and again, and tells how many scans were given up.
fn given_up(scanning: &mut Scanning<'_>) -> u64 {
    let mut given_up = 0u64;
    for _scan in 0..SCANS {
        if scanning.scanner.scan(&mut scanning.out).is_err() {
            given_up = given_up.saturating_add(1);
        }
    }
    given_up
}

/// The same of two threads at once, beside the one that publishes. Then that is told to end.
fn two_scan(
    rt: &(impl Threads + Wait + Sync),
    one: &mut Scanning<'_>,
    other: &mut Scanning<'_>,
    flags: &Flags,
) -> (u64, u64) {
    await_begun(rt, flags);
    let found = join(rt, || given_up(one), || given_up(other));
    flags.ended.store(true, Ordering::SeqCst);
    found
}

/// Whether nothing was refused to the thread that publishes, and how many scans of two others were given up.
fn all_at_once(
    rt: &(impl Threads + Wait + Sync),
    recorder: &mut Recorder<'_, 4, 64, 8, 0>,
    one: &mut Scanning<'_>,
    other: &mut Scanning<'_>,
) -> (bool, (u64, u64)) {
    let counter = &Counter {
        registry: ID,
        slot: 0,
    };
    let flags = &Flags {
        begun: AtomicBool::new(false),
        ended: AtomicBool::new(false),
    };
    join(
        rt,
        || publish(rt, recorder, counter, flags),
        || two_scan(rt, one, other, flags),
    )
}

/// A scanner with memory for its scans.
fn with_memory<'a>(
    rt: &(impl Abort + AllocGlobal),
    scanner: Option<Scanner<'a, 4, 64, 8, 0>>,
) -> Scanning<'a> {
    let (scanner, out) = (there(rt, scanner), need(rt, Snapshot::new(rt.alloc())));
    Scanning { scanner, out }
}

/// One thread publishes without rest, and two others scan without rest: at most a hundredth of the scans of each is given up,
/// since a scan that failed once has the thread rest, and the end of one scan does not end the hush of another. Without that it
/// is a fifth to nearly all.
#[test]
fn scans_beside_a_thread_that_publishes(rt: HostRuntime) {
    let rt = &rt;
    let mut crew = need(rt, Crew::<4, 64, 8, 0>::new(rt.alloc(), ID, 3));
    let (_registry, mut recorders, mut scanners) = need(rt, crew.open(1));
    let recorder = there(rt, recorders.first_mut());
    let mut one = with_memory(rt, scanners.pop());
    let mut other = with_memory(rt, scanners.pop());
    let (counted, lost) = all_at_once(rt, recorder, &mut one, &mut other);
    let few = lost.0 <= SCANS / 100 && lost.1 <= SCANS / 100;
    same(rt, (counted, lost, few), (true, lost, true));
}
