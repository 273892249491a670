//! Each call that takes memory and that C does not reach, called again where it is refused.
use crate::asserts::{are_names, need, once_more, same};
use crate::jobs::{job, listed, team_after, team_finds};
use crate::made::{COUNTER, Family, desc};
use crate::tests::history::snapshots;
use crate::tests::runs::{Expected, answers_are, events, publishes_are};
use chain_law::{ChainFault, Turn, history_of};
use ledger_core::Op;
use metric_desc::Kind;
use metric_names::NoMemory;
use snapshot_core::{RunFault, ScanEnd, run};
use snapshot_scan::{PlainSource, Snapshot};
use std::alloc::{AllocError, Global};
use std::process::Abort;
use std::sync::Wait;
use std::test::Fail;
use std::thread::Threads;
use worker_pool::{Open, PoolFault};

/// An increment by 3.
static THREE: [Op; 1] = [Op::Inc { counter: 0, by: 3 }];

#[test]
fn growth_source(rt: HostRuntime) -> Result<(), Fail> {
    let rt = &rt;
    let mut source = match PlainSource::<1, 0, 0>::new(rt.alloc()) {
        Ok(source) => source,
        Err(AllocError) => once_more(rt, PlainSource::new(rt.alloc())),
    };
    let mut out = need(rt, Snapshot::new(rt.alloc()));
    same(rt, source.apply(&THREE), Ok(()));
    source.take(&mut out);
    same(rt, (out.vector()[0], out.counter(0)), (1, 3));
    Ok(())
}

/// The scan of an update, which finds nothing, and the reader's scan of all.
static ANSWERS: [Expected; 2] = [
    (0, (0, 0, 2, 1), ScanEnd::Direct, &[0], &[0]),
    (1, (1, 4, 6, 1), ScanEnd::Direct, &[1], &[1]),
];

#[test]
fn growth_run(rt: HostRuntime) -> Result<(), Fail> {
    let rt = &rt;
    let list = events(rt, rt.alloc(), 1, "BSSSbss", 1);
    let trace = match run::<1, 0, 0>(rt.alloc(), 1, list.as_slice()) {
        Err(RunFault::NoMemory) => once_more(rt, run::<1, 0, 0>(rt.alloc(), 1, list.as_slice())),
        first => need(rt, first),
    };
    publishes_are(rt, &trace, 1, &[(3, 0)]);
    answers_are(rt, &trace, 2, &ANSWERS);
    Ok(())
}

/// The turns between the snapshots.
static TURNS: [Turn; 3] = [
    Turn { worker: 0, by: 2 },
    Turn { worker: 1, by: 3 },
    Turn { worker: 0, by: 2 },
];

#[test]
fn growth_history(rt: HostRuntime) -> Result<(), Fail> {
    let rt = &rt;
    let taken = snapshots(rt, rt.alloc(), &[[2, 0], [2, 3], [4, 3]]);
    let found = match history_of(rt.alloc(), taken.as_slice()) {
        Err(ChainFault::NoMemory) => once_more(rt, history_of(rt.alloc(), taken.as_slice())),
        first => need(rt, first),
    };
    same(rt, found.as_slice(), TURNS.as_slice());
    Ok(())
}

/// Two workers, which have made no step, do a job each, or none where the pool wants memory.
fn pool_of_two(rt: &(impl Threads + Wait + Abort), alloc: Global) -> bool {
    let jobs = listed(rt, alloc, &[&[job(1, 0, 3)], &[job(2, 0, 4)]]);
    let (mut it, fault) = team_after::<_, 2, 1, 0, 0>(rt, alloc, jobs, &Open);
    let (number, total) = match fault {
        None => (1, 7),
        Some(fault) => {
            same(rt, fault, PoolFault::NoMemory);
            (0, 0)
        }
    };
    team_finds(rt, &mut it, &[number, number]);
    same(rt, it.out.counter(0), total);
    fault.is_none()
}

/// Where a pool wants memory, nothing was done, and the workers are gone. Another crew is handed in then.
#[test]
fn growth_pool(rt: HostRuntime) -> Result<(), Fail> {
    let rt = &rt;
    if !pool_of_two(rt, rt.alloc()) {
        same(rt, pool_of_two(rt, rt.alloc()), true);
    }
    Ok(())
}

/// A histogram.
static HISTOGRAM: Family = Family {
    kind: Kind::Histogram,
    ..COUNTER
};

/// The names of a descriptor's samples.
#[test]
fn growth_of_names(rt: HostRuntime) -> Result<(), Fail> {
    let rt = &rt;
    let it = desc(rt, rt.alloc(), &HISTOGRAM);
    let names = match it.names() {
        Ok(names) => names,
        Err(NoMemory) => once_more(rt, it.names()),
    };
    are_names(rt, &names, &["a", "a_bucket", "a_sum", "a_count"]);
    Ok(())
}
