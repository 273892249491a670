//! A registry of one thread, and one behind its lock: their calls that take memory. Each that is refused leaves all as it was.
ghost use Rattle.std.specs.Prelude.{All};
ghost use Rattle.snapshot_scan.specs.Readers.{IsReaderOf};
ghost use Rattle.snapshot_update.specs.Workers.{IsWorkerOf};

use crate::asserts::{once_more, same};
use crate::crew::{ID, last_reader, last_worker};
use crate::helpers::{OnePlain, Plain, desc};
use crate::seen::{Behind, Look, Looked, Moment, Seen};
use expo_text::render;
use ledger_core::{Counter, Gauge, GaugeTotals, HistTotals, Op};
use metric_desc::Kind;
use metric_names::NoMemory;
use metric_registry::Registry;
use register_rule::Board;
use registry_state::{ChildFault, FamilyId, Handle, NewFault, RegisterFault, ScrapeFault};
use snapshot_scan::Reader;
use snapshot_update::{Crew, Worker};
use std::alloc::Global;
use std::process::Abort;
use std::sync::Wait;
use std::test::Fail;

/// A registry that keeps two scrapes.
fn new_state(rt: &impl Abort, alloc: Global) -> Result<Plain, Fail> {
    match Plain::new(alloc, OnePlain::new(alloc)?, ID, 2) {
        Ok(registry) => Ok(registry),
        Err(none) => {
            same(rt, none.fault, NewFault::NoMemory);
            Ok(once_more(rt, Plain::new(alloc, none.source, ID, 2)))
        }
    }
}

/// A board whose row is a counter, a histogram and a gauge.
type OneBoard = Board<1, 1, 1, 1>;

/// The handle of the first counter,
const FIRST_COUNTER: Handle = Handle::Counter(Counter {
    registry: ID,
    slot: 0,
});

/// and of the first gauge.
const FIRST_GAUGE: Handle = Handle::Gauge(Gauge {
    registry: ID,
    slot: 0,
});

/// Registers a family by a label.
fn register<G: Looked>(
    rt: &impl Abort,
    alloc: Global,
    grown: &mut G,
    look: &mut Look,
    kind: Kind,
    name: &str,
) -> Result<FamilyId, Fail> {
    let before = look.at(grown);
    let answer = grown.register(desc(alloc, kind, name, &["l"])?);
    if answer != Err(RegisterFault::NoMemory) {
        return Ok(answer?);
    }
    same(rt, look.at(grown), before);
    let desc = desc(alloc, kind, name, &["l"])?;
    Ok(once_more(rt, grown.register(desc)))
}

/// Makes its child.
fn child<G: Looked>(
    rt: &impl Abort,
    grown: &mut G,
    look: &mut Look,
    family: FamilyId,
) -> Result<Handle, Fail> {
    let before = look.at(grown);
    let answer = grown.child(family, &look.values);
    if answer != Err(ChildFault::NoMemory) {
        return Ok(answer?);
    }
    same(rt, look.at(grown), before);
    Ok(once_more(rt, grown.child(family, &look.values)))
}

/// Makes a scrape, and its text, which is this.
fn scrape<G: Looked>(
    rt: &impl Abort,
    grown: &mut G,
    look: &mut Look,
    expected: &str,
) -> Result<(), Fail> {
    let before = look.at(grown);
    let scrape = match grown.scrape() {
        Ok(scrape) => scrape,
        Err(ScrapeFault::NoMemory) => {
            same(rt, look.at(grown), before);
            once_more(rt, grown.scrape())
        }
        Err(fault) => return Err(fault.into()),
    };
    let before = look.at(grown);
    let text = match render(&scrape) {
        Ok(text) => text,
        Err(NoMemory) => {
            same(rt, look.at(grown), before);
            once_more(rt, render(&scrape))
        }
    };
    same(rt, text.as_slice(), expected.as_bytes());
    Ok(())
}

/// What is counted when the first family has its child.
const FIRST: [Op; 2] = [
    Op::Inc { counter: 0, by: 5 },
    Op::Observe {
        hist: 0,
        place: 1,
        value: 11,
    },
];

/// What is counted when the second one has.
const SECOND: [Op; 2] = [
    Op::Down { gauge: 0, by: 2 },
    Op::Observe {
        hist: 0,
        place: 0,
        value: 3,
    },
];

/// A family of counters with a child, behind a scrape of nothing.
fn grow_counter<G: Looked>(
    rt: &impl Abort,
    alloc: Global,
    grown: &mut G,
    look: &mut Look,
) -> Result<(), Fail> {
    scrape(rt, grown, look, "")?;
    let family = register(rt, alloc, grown, look, Kind::Counter, "a")?;
    same(rt, child(rt, grown, look, family)?, FIRST_COUNTER);
    look.made = 1;
    Ok(())
}

/// A family of gauges with a child, behind a scrape of the counter.
fn grow_gauge<G: Looked>(
    rt: &impl Abort,
    alloc: Global,
    grown: &mut G,
    look: &mut Look,
) -> Result<(), Fail> {
    scrape(rt, grown, look, "# TYPE a counter\na{l=\"x\"} 5\n")?;
    let family = register(rt, alloc, grown, look, Kind::Gauge, "b")?;
    same(rt, child(rt, grown, look, family)?, FIRST_GAUGE);
    look.made = 2;
    Ok(())
}

/// What the last scrape shows.
const SHOWN: &str = "# TYPE a counter\na{l=\"x\"} 5\n# TYPE b gauge\nb{l=\"x\"} -2\n";

/// The histogram in the first scrape,
const NO_VALUE: HistTotals = HistTotals {
    buckets: [0; 25],
    sum: 0,
    count: 0,
};

/// in the second one,
const ONE_VALUE: HistTotals = HistTotals {
    buckets: [
        0, 1, 0, 0, 0, 0, 0, 0, 0, 0, 0, 0, 0, 0, 0, 0, 0, 0, 0, 0, 0, 0, 0, 0, 0,
    ],
    sum: 11,
    count: 1,
};

/// and in the last one.
const TWO_VALUES: HistTotals = HistTotals {
    buckets: [
        1, 1, 0, 0, 0, 0, 0, 0, 0, 0, 0, 0, 0, 0, 0, 0, 0, 0, 0, 0, 0, 0, 0, 0, 0,
    ],
    sum: 14,
    count: 2,
};

/// The first scrape,
const AT_FIRST: Moment = Moment {
    lists: 0,
    counter: 0,
    hist: NO_VALUE,
    gauge: GaugeTotals { up: 0, down: 0 },
};

/// the second one,
const BETWEEN: Moment = Moment {
    lists: 1,
    counter: 5,
    hist: ONE_VALUE,
    gauge: GaugeTotals { up: 0, down: 0 },
};

/// and the last one.
const AT_LAST: Moment = Moment {
    lists: 2,
    counter: 5,
    hist: TWO_VALUES,
    gauge: GaugeTotals { up: 0, down: 2 },
};

/// What is seen in the end, whatever was refused before: both families with their children, so many kept scrapes of three, the
/// first two of these, and four changes beside.
fn seen(kept: usize, scrapes: [Option<Moment>; 2]) -> Seen {
    Seen {
        families: [Some(0), Some(1)],
        children: [Some(FIRST_COUNTER), Some(FIRST_GAUGE)],
        entries: kept.wrapping_add(4),
        kept,
        scrapes,
    }
}

/// A registry of one thread grows, and counts.
fn grow_and_count(
    rt: &impl Abort,
    alloc: Global,
    registry: &mut Plain,
    look: &mut Look,
) -> Result<(), Fail> {
    grow_counter(rt, alloc, registry, look)?;
    registry.apply(&FIRST)?;
    grow_gauge(rt, alloc, registry, look)?;
    registry.apply(&SECOND)?;
    scrape(rt, registry, look, SHOWN)?;
    let expected = seen(2, [Some(BETWEEN), Some(AT_LAST)]);
    same(rt, look.at(registry), expected);
    Ok(())
}

/// One of one thread.
fn grow_alone(rt: &impl Abort, alloc: Global) -> Result<(), Fail> {
    let mut look = Look::new(alloc)?;
    let mut registry = new_state(rt, alloc)?;
    grow_and_count(rt, alloc, &mut registry, &mut look)
}

/// A registry behind its lock, that would keep four scrapes.
fn new_registry<'b>(
    rt: &impl Abort,
    alloc: Global,
    board: &'b OneBoard,
    reader: Reader<1, 1, 1, 1>,
) -> Result<Registry<'b, 1, 1, 1, 1>, Fail>
    requires { IsReaderOf board.now reader }
{
    match Registry::new(alloc, board, reader, 4) {
        Ok(registry) => Ok(registry),
        Err(none) => {
            same(rt, none.fault, NewFault::NoMemory);
            Ok(once_more(rt, Registry::new(alloc, board, none.reader, 4)))
        }
    }
}

/// It grows as one of one thread does, while a worker counts.
fn grow_behind(
    rt: &(impl Wait + Abort),
    alloc: Global,
    board: &OneBoard,
    worker: &mut Worker<1, 1, 1, 1>,
    registry: &Registry<'_, 1, 1, 1, 1>,
    look: &mut Look,
) -> Result<(), Fail>
    requires { IsWorkerOf board.now worker.old }
{
    let mut grown = Behind { rt, registry };
    grow_counter(rt, alloc, &mut grown, look)?;
    worker.apply(board, &FIRST)?;
    grow_gauge(rt, alloc, &mut grown, look)?;
    worker.apply(board, &SECOND)?;
    scrape(rt, &mut grown, look, SHOWN)
}

/// What stood behind the lock in the end is what one of one thread has, with all three scrapes: none was kept that was refused.
fn ends_so(rt: &impl Abort, registry: Registry<'_, 1, 1, 1, 1>, look: &mut Look) {
    let expected = seen(3, [Some(AT_FIRST), Some(BETWEEN)]);
    same(rt, look.at(&mut registry.into_state()), expected);
}

/// One of this board grows.
fn grow_over(
    rt: &(impl Wait + Abort),
    alloc: Global,
    board: &OneBoard,
    reader: Reader<1, 1, 1, 1>,
    worker: &mut Worker<1, 1, 1, 1>,
    look: &mut Look,
) -> Result<(), Fail>
    requires reader { IsReaderOf board.now reader }
    requires worker { IsWorkerOf board.now worker.old }
{
    let registry = new_registry(rt, alloc, board, reader)?;
    grow_behind(rt, alloc, board, worker, &registry, look)?;
    ends_so(rt, registry, look);
    Ok(())
}

/// One of this board grows, by the last reader, while the last worker counts.
fn grow_of(
    rt: &(impl Wait + Abort),
    alloc: Global,
    board: &OneBoard,
    readers: &mut Vec<Reader<1, 1, 1, 1>>,
    workers: &mut Vec<Worker<1, 1, 1, 1>>,
) -> Result<(), Fail>
    requires readers { All (IsReaderOf board.now) readers.old.items }
    requires workers { All (IsWorkerOf board.now) workers.old.items }
{
    let mut look = Look::new(alloc)?;
    let mut worker = last_worker(rt, board, workers);
    let reader = last_reader(rt, board, readers);
    grow_over(rt, alloc, board, reader, &mut worker, &mut look)
}

/// A registry behind its lock grows.
fn grow_shared(rt: &(impl Wait + Abort), alloc: Global) -> Result<(), Fail> {
    let mut crew = Crew::<1, 1, 1, 1>::new(alloc, ID, 1)?;
    grow_of(rt, alloc, &crew.board, &mut crew.readers, &mut crew.workers)
}

/// A registry of one thread. The window of two holds, and the least free slots are used, whatever was refused before.
#[test]
fn growth_state(rt: HostRuntime) -> Result<(), Fail> {
    grow_alone(&rt, rt.alloc())
}

/// A registry behind its lock.
#[test]
fn growth_registry(rt: HostRuntime) -> Result<(), Fail> {
    grow_shared(&rt, rt.alloc())
}
