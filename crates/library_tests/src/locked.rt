//! Boards with their crews, and registries of them behind a lock.
ghost use Rattle.std.specs.Prelude.{All};
ghost use Rattle.snapshot_scan.specs.Readers.{IsReaderOf};

use crate::asserts::{done, need};
use crate::crew::last_reader;
use crate::helpers::desc;
use ledger_core::Counter;
use metric_desc::Kind;
use metric_registry::Registry;
use register_rule::Board;
use registry_state::{FamilyId, Handle};
use snapshot_scan::Reader;
use snapshot_update::{Crew, Worker};
use std::alloc::Global;
use std::process::Abort;
use std::sync::Wait;
use std::test::Fail;

/// A board of two workers, of four counters, a histogram and a gauge.
pub(crate) type TwoBoard = Board<2, 4, 1, 1>;

/// One of its workers.
pub(crate) type TwoWorker = Worker<2, 4, 1, 1>;

/// One of its readers.
pub(crate) type TwoReader = Reader<2, 4, 1, 1>;

/// It with its workers and readers.
pub(crate) type TwoCrew = Crew<2, 4, 1, 1>;

/// A registry of it.
pub(crate) type Two<'a> = Registry<'a, 2, 4, 1, 1>;

/// A registry that keeps so many scrapes, by the last reader.
pub(crate) fn registry_of<'a, const N: usize, const C: usize, const H: usize, const G: usize>(
    rt: &impl Abort,
    alloc: Global,
    board: &'a Board<N, C, H, G>,
    readers: &mut Vec<Reader<N, C, H, G>>,
    window: usize,
) -> Registry<'a, N, C, H, G>
    requires of_board { All (IsReaderOf board.now) readers.old.items }
    ensures others { All (IsReaderOf board.now) readers.new.items }
{
    let reader = last_reader(rt, board, readers);
    match Registry::new(alloc, board, reader, window) {
        Ok(registry) => registry,
        Err(_) => rt.panic("no registry"),
    }
}

/// Registers a family of this kind and name, without labels, and makes its one child.
pub(crate) fn made<const N: usize, const C: usize, const H: usize, const G: usize>(
    rt: &(impl Abort + Wait),
    alloc: Global,
    registry: &Registry<'_, N, C, H, G>,
    kind: Kind,
    name: &str,
) -> (FamilyId, Handle) {
    let desc = done(rt, desc(alloc, kind, name, &[]));
    let family = need(rt, registry.register(rt, desc));
    (family, need(rt, registry.child(rt, family, &[])))
}

/// The same of a counter.
pub(crate) fn made_counter<const N: usize, const C: usize, const H: usize, const G: usize>(
    rt: &(impl Abort + Wait),
    alloc: Global,
    registry: &Registry<'_, N, C, H, G>,
    name: &str,
) -> (FamilyId, Counter) {
    match made(rt, alloc, registry, Kind::Counter, name) {
        (family, Handle::Counter(counter)) => (family, counter),
        _ => rt.panic("no counter"),
    }
}
