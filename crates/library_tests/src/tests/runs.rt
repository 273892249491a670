//! Runs of the snapshot algorithm's core, over rows of one counter.
use crate::asserts::{need, same, there};
use ledger_core::Op;
use snapshot_core::{Answer, Event, Publish, RunFault, ScanEnd, Trace, is_outcome, run};
use std::alloc::Global;
use std::process::Abort;

/// A Begin of the actor, by `by`; a reader's, where that is 0.
fn begin(rt: &impl Abort, alloc: Global, actor: usize, by: u64) -> Event {
    let mut ops = Vec::new(alloc);
    if by > 0 {
        need(rt, ops.push(Op::Inc { counter: 0, by }));
    }
    Event::Begin { actor, ops }
}

/// The event of a letter: b begins the reader, B worker 0 and C worker 1 by `by`, s and t step and tear the reader, S and T
/// step worker 0 and 1.
fn event(rt: &impl Abort, alloc: Global, letter: u8, reader: usize, by: u64) -> Event {
    match letter {
        b'b' => begin(rt, alloc, reader, 0),
        b'B' => begin(rt, alloc, 0, by),
        b'C' => begin(rt, alloc, 1, by),
        b's' => Event::Step { actor: reader },
        b't' => Event::Torn { actor: reader },
        b'S' => Event::Step { actor: 0 },
        _ => Event::Step { actor: 1 },
    }
}

/// A list of events, a letter each. The reader is the first one.
pub(crate) fn events(
    rt: &impl Abort,
    alloc: Global,
    workers: usize,
    text: &str,
    by: u64,
) -> Vec<Event> {
    let mut list = Vec::new(alloc);
    for letter in text.bytes() {
        need(rt, list.push(event(rt, alloc, letter, workers, by)));
    }
    list
}

/// The turn of an answer: actor, begin, end and tries.
type Turn = (usize, usize, usize, usize);

/// An answer: its place, turn and end, its vector and the total.
pub(crate) type Expected<'a> = (usize, Turn, ScanEnd, &'a [u64], &'a [u64]);

/// An answer of the trace is this one.
fn answer_is(rt: &impl Abort, trace: &Trace, expected: &Expected<'_>) {
    let &(place, turn, how, vector, totals) = expected;
    let found = there(rt, trace.answers.get(place));
    let of_turn = (found.actor, found.begin, found.end, found.tries);
    same(rt, (of_turn, found.how), (turn, how));
    same(rt, found.vector.as_slice(), vector);
    same(rt, found.totals.as_slice(), totals);
}

/// The publishes of the trace, by event and worker, each by an increment by this.
pub(crate) fn publishes_are(rt: &impl Abort, trace: &Trace, by: u64, all: &[(usize, usize)]) {
    same(rt, trace.publishes.len(), all.len());
    let ops = [Op::Inc { counter: 0, by }];
    for (place, expected) in all.iter().enumerate() {
        let found = there(rt, trace.publishes.get(place));
        same(rt, (found.at, found.worker), *expected);
        same(rt, found.ops.as_slice(), ops.as_slice());
    }
}

/// These are among the trace's answers, which are so many.
pub(crate) fn answers_are(rt: &impl Abort, trace: &Trace, many: usize, all: &[Expected<'_>]) {
    same(rt, trace.answers.len(), many);
    for expected in all {
        answer_is(rt, trace, expected);
    }
}

/// Workers, events and what each update adds; the publishes; how many answers there are, and some of them.
type Run<'a> = (
    usize,
    &'a str,
    u64,
    &'a [(usize, usize)],
    usize,
    &'a [Expected<'a>],
);

/// A publish in the first try of a reader, which is direct in its second one.
const SECOND_TRY: &str = "bssBSSSSSssssss";

/// A direct scan in the second try; one that is lent to, where an only worker publishes between the two numbers of each try, and
/// its own scans find what it published before; one that is not, since the asked worker's read is torn; one where nobody is
/// asked; one that gives up; and reads that are torn in each place of a try.
static RUNS: [Run; 9] = [
    (
        2,
        SECOND_TRY,
        5,
        &[(8, 0)],
        2,
        &[
            (0, (0, 3, 7, 1), ScanEnd::Direct, &[0, 0], &[0]),
            (1, (2, 0, 14, 2), ScanEnd::Direct, &[1, 0], &[5]),
        ],
    ),
    (
        1,
        "bsBSSSsBSSSsBSSSsBSSSs",
        1,
        &[(5, 0), (10, 0), (15, 0), (20, 0)],
        5,
        &[
            (0, (0, 2, 4, 1), ScanEnd::Direct, &[0], &[0]),
            (1, (0, 7, 9, 1), ScanEnd::Direct, &[1], &[1]),
            (2, (0, 12, 14, 1), ScanEnd::Direct, &[2], &[2]),
            (3, (0, 17, 19, 1), ScanEnd::Direct, &[3], &[3]),
            (4, (1, 0, 21, 2), ScanEnd::Lent { from: 0 }, &[3], &[3]),
        ],
    ),
    (
        1,
        "bsBSSSsBSSSsBSSSsBSSStss",
        1,
        &[(5, 0), (10, 0), (15, 0), (20, 0)],
        5,
        &[(4, (1, 0, 23, 3), ScanEnd::Direct, &[4], &[4])],
    ),
    (
        2,
        "bssBSSSSSssssBSSSSSssssCTTTTTssssss",
        1,
        &[(8, 0), (18, 0), (28, 1)],
        4,
        &[(3, (2, 0, 34, 4), ScanEnd::Direct, &[2, 1], &[3])],
    ),
    (
        1,
        "btststs",
        1,
        &[],
        1,
        &[(0, (1, 0, 6, 3), ScanEnd::GaveUp, &[], &[])],
    ),
    (
        2,
        "btsssssss",
        1,
        &[],
        1,
        &[(0, (2, 0, 8, 2), ScanEnd::Direct, &[0, 0], &[0])],
    ),
    (
        2,
        "bstssssss",
        1,
        &[],
        1,
        &[(0, (2, 0, 8, 2), ScanEnd::Direct, &[0, 0], &[0])],
    ),
    (
        2,
        "bsstsssss",
        1,
        &[],
        1,
        &[(0, (2, 0, 4, 1), ScanEnd::Direct, &[0, 0], &[0])],
    ),
    (
        2,
        "bssstssss",
        1,
        &[],
        1,
        &[(0, (2, 0, 4, 1), ScanEnd::Direct, &[0, 0], &[0])],
    ),
];

#[test]
fn runs_by_hand(rt: HostRuntime) {
    let rt = &rt;
    for &(workers, text, by, publishes, many, answers) in &RUNS {
        let list = events(rt, rt.alloc(), workers, text, by);
        let trace = need(rt, run::<1, 0, 0>(rt.alloc(), workers, list.as_slice()));
        publishes_are(rt, &trace, by, publishes);
        answers_are(rt, &trace, many, answers);
    }
}

/// How many workers a run is of, and whether it is refused.
static WORKERS: [(usize, bool); 3] = [(0, true), (32, false), (33, true)];

#[test]
fn workers_out_of_range(rt: HostRuntime) {
    let rt = &rt;
    for &(workers, is_refused) in &WORKERS {
        let found = run::<1, 0, 0>(rt.alloc(), workers, &[]);
        let wanted = is_refused.then_some(RunFault::Geometry);
        same(rt, (workers, found.err()), (workers, wanted));
    }
    same(rt, RunFault::Geometry.number(), 13);
}

/// An answer of a scan of two workers in its first or second try.
fn direct(rt: &impl Abort, alloc: Global, turn: Turn, vector: [u64; 2], total: u64) -> Answer {
    let (actor, begin, end, tries) = turn;
    Answer {
        actor,
        begin,
        end,
        tries,
        how: ScanEnd::Direct,
        vector: need(rt, Vec::from_array(alloc, vector)),
        totals: need(rt, Vec::from_array(alloc, [total])),
    }
}

/// What is said of the run of a publish in the first try of a reader, and of a trace by hand, in which its answer ends so.
fn says(rt: &impl Abort, alloc: Global, end: usize, vector: [u64; 2], total: u64) -> bool {
    let list = events(rt, alloc, 2, SECOND_TRY, 5);
    let publish = Publish {
        at: 8,
        worker: 0,
        ops: need(rt, Vec::from_array(alloc, [Op::Inc { counter: 0, by: 5 }])),
    };
    let update = direct(rt, alloc, (0, 3, 7, 1), [0, 0], 0);
    let scan = direct(rt, alloc, (2, 0, end, 2), vector, total);
    let trace = Trace {
        publishes: need(rt, Vec::from_array(alloc, [publish])),
        answers: need(rt, Vec::from_array(alloc, [update, scan])),
    };
    need(rt, is_outcome::<1, 0, 0>(alloc, 2, list.as_slice(), &trace))
}

#[test]
fn traces_by_hand(rt: HostRuntime) {
    let rt = &rt;
    same(rt, says(rt, rt.alloc(), 14, [1, 0], 5), true);
    same(rt, says(rt, rt.alloc(), 10, [0, 0], 0), false);
    same(rt, says(rt, rt.alloc(), 14, [1, 0], 0), false);
    let none = Trace {
        publishes: Vec::new(rt.alloc()),
        answers: Vec::new(rt.alloc()),
    };
    let nothing = need(rt, is_outcome::<1, 0, 0>(rt.alloc(), 2, &[], &none));
    same(rt, nothing, true);
}
