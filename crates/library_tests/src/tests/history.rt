//! No history passes through snapshots that fall.
use crate::asserts::{need, same};
use chain_law::{ChainFault, history_of};
use snapshot_scan::Snapshot;
use std::alloc::Global;
use std::process::Abort;

/// A snapshot of two workers that have published so often, whose rows have no words.
fn snapshot(rt: &impl Abort, alloc: Global, numbers: [u64; 2]) -> Snapshot<2, 0, 0, 0> {
    let mut out = need(rt, Snapshot::new(alloc));
    out.set(&numbers, &[]);
    out
}

/// Snapshots with these vectors.
pub(crate) fn snapshots(
    rt: &impl Abort,
    alloc: Global,
    vectors: &[[u64; 2]],
) -> Vec<Snapshot<2, 0, 0, 0>> {
    let mut taken = Vec::new(alloc);
    for vector in vectors {
        need(rt, taken.push(snapshot(rt, alloc, *vector)));
    }
    taken
}

#[test]
fn what_falls_has_no_history(rt: HostRuntime) {
    let rt = &rt;
    let taken = snapshots(rt, rt.alloc(), &[[2, 0], [1, 3]]);
    let found = history_of(rt.alloc(), taken.as_slice());
    let fault = ChainFault::NotChain { a: 0, b: 1 };
    same(rt, found.err(), Some(fault));
    same(rt, fault.number(), 17);
}
