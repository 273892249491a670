//! Exact totals of all recorders.
use super::{Counts, new_team};
use crate::asserts::{need, same, there};
use crate::crew::ID;
use dirgwako::{NotAll, Snapshot, settle};
use std::process::Abort;

/// Of these recorders alone there are no exact totals, since that of this worker does not stand at its place. What there was is
/// as it was.
fn lacks(rt: &(impl Abort + AllocGlobal), recorders: Option<&[Counts<'_>]>, missing: usize) {
    let mut out = need(rt, Snapshot::new(rt.alloc()));
    let fault = NotAll { missing };
    same(rt, settle(there(rt, recorders), &mut out), Err(fault));
    same(
        rt,
        (out.vector()[0], out.vector()[1], fault.number()),
        (0, 0, 18),
    );
}

/// They are of all recorders, each at its place.
#[test]
fn exact_totals(rt: HostRuntime) {
    let rt = &rt;
    let mut team = new_team(rt, rt.alloc(), ID);
    let (_registry, recorders, _scanners) = need(rt, team.open(1));
    let mut out = need(rt, Snapshot::new(rt.alloc()));
    need(rt, settle(&recorders, &mut out));
    lacks(rt, recorders.get(..0), 0);
    lacks(rt, recorders.get(..1), 1);
    lacks(rt, recorders.get(1..), 0);
}
