//! Workers on threads of a pool, and gates at which they wait.
use crate::asserts::same;
use crate::jobs::{job, listed, team_after, team_finds};
use snapshot_update::{ApplyFault, CountFault};
use std::sync::atomic::{AtomicU64, Ordering};
use worker_pool::{Gate, Open, PoolFault};

/// A gate at which the workers at the places 0 and 1 wait for each other: who has come is noted.
#[derive(Drop)]
struct Meeting {
    first: AtomicU64,
    second: AtomicU64,
}

impl Meeting {
    fn of(&self, worker: usize) -> &AtomicU64 {
        if worker == 0 {
            &self.first
        } else {
            &self.second
        }
    }
}

impl Gate for Meeting {
    fn open(&self, worker: usize) -> bool {
        self.of(worker).store(1, Ordering::SeqCst);
        self.of(1 - worker % 2).load(Ordering::SeqCst) == 1
    }

    fn done(&self, _worker: usize) {}
}

/// Each is let through only while the other has come: one behind the other they would not get on.
#[test]
fn two_workers_at_once(rt: HostRuntime) {
    let rt = &rt;
    let gate = Meeting {
        first: AtomicU64::new(0),
        second: AtomicU64::new(0),
    };
    let jobs = listed(rt, rt.alloc(), &[&[job(1, 0, 3)], &[job(2, 0, 4)]]);
    let (mut it, fault) = team_after::<_, 2, 1, 0, 0>(rt, rt.alloc(), jobs, &gate);
    same(rt, (fault, it.workers.len()), (None, 2));
    team_finds(rt, &mut it, &[1, 1]);
    same(rt, it.out.counter(0), 7);
}

/// A gate that shuts for good when it is told of a job. It counts how often it is asked.
#[derive(Drop)]
struct ShutsBehind {
    asked: AtomicU64,
    told: AtomicU64,
}

impl Gate for ShutsBehind {
    fn open(&self, _worker: usize) -> bool {
        self.asked.fetch_add(1, Ordering::SeqCst);
        self.told.load(Ordering::SeqCst) == 0
    }

    fn done(&self, _worker: usize) {
        self.told.fetch_add(1, Ordering::SeqCst);
    }
}

/// A worker may ask 10,000,000 times before each job: here once before the first one, and then in vain.
#[test]
fn a_gate_shuts_behind_a_job(rt: HostRuntime) {
    let rt = &rt;
    let gate = ShutsBehind {
        asked: AtomicU64::new(0),
        told: AtomicU64::new(0),
    };
    let jobs = listed(rt, rt.alloc(), &[&[job(1, 0, 5), job(2, 0, 7)]]);
    let (mut it, fault) = team_after::<_, 1, 1, 0, 0>(rt, rt.alloc(), jobs, &gate);
    let shut = PoolFault::GateShut { worker: 0 };
    same(rt, (fault, shut.number()), (Some(shut), 29));
    same(rt, gate.asked.load(Ordering::SeqCst), 10_000_001);
    same(rt, gate.told.load(Ordering::SeqCst), 1);
    team_finds(rt, &mut it, &[1]);
    same(rt, it.out.counter(0), 5);
}

/// Both workers are refused a job, since there is no such counter, by the lines 9 and 5: each did the one before it, and none
/// after it.
#[test]
fn the_least_line_is_told(rt: HostRuntime) {
    let rt = &rt;
    let first = [job(1, 0, 1), job(9, 1, 1), job(13, 0, 100)];
    let second = [job(4, 0, 3), job(5, 1, 1), job(7, 0, 100)];
    let jobs = listed(rt, rt.alloc(), &[&first, &second]);
    let (mut it, fault) = team_after::<_, 2, 1, 0, 0>(rt, rt.alloc(), jobs, &Open);
    let refused = PoolFault::Refused {
        line: 5,
        number: 11,
    };
    same(rt, fault, Some(refused));
    team_finds(rt, &mut it, &[1, 1]);
    same(rt, it.out.counter(0), 4);
}

/// What takes 2^64 - 1 publishes, and a system that gives no thread, cannot be brought about here.
#[test]
fn numbers_of_what_no_test_can_reach(rt: HostRuntime) {
    let exhausted = CountFault::Apply(ApplyFault::Exhausted);
    same(&rt, exhausted.number(), 15);
    same(&rt, PoolFault::NoThread { worker: 0 }.number(), 30);
}
