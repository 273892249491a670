//! What a registry has kept when it is settled: no clause says it of what stood behind a lock.
ghost use Rattle.std.specs.Prelude.{◌≡◌, All, IsSome};
ghost use Rattle.register_rule.specs.Seats.{board_id};
ghost use Rattle.snapshot_scan.specs.Readers.{IsReaderOf};
ghost use Rattle.snapshot_scan.specs.Scanners.{board_in};
ghost use Rattle.snapshot_update.specs.Workers.{IsWorkerOf};
ghost use Rattle.metric_registry.specs.Naming.{BeginsWith, IsNamed, IsOf};

use crate::asserts::{done, need, same};
use crate::crew::{ID, last_reader};
use crate::helpers::desc;
use crate::locked::{TwoBoard, TwoCrew, TwoReader, TwoWorker};
use metric_desc::Kind;
use metric_registry::{Named, RegistryOf};
use registry_state::RegistryState;
use snapshot_scan::{Scanner, Snapshot};
use std::alloc::Global;
use std::marker::Brand;
use std::process::Abort;
use std::sync::Wait;

/// A registry without a lock.
type State<'a> = RegistryState<Scanner<'a, 2, 4, 1, 1>, 2, 4, 1, 1>;

/// A new registry of this board, by its last reader.
fn new_state<'a>(
    rt: &impl Abort,
    alloc: Global,
    board: &'a TwoBoard,
    readers: &mut Vec<TwoReader>,
) -> State<'a>
    requires of_board { All (IsReaderOf board.now) readers.old.items }
    ensures scans { board_in result.source ≡ board.now }
    ensures id { result.id ≡ board_id board.now }
{
    let reader = last_reader(rt, board, readers);
    match RegistryState::new(alloc, Scanner::new(board, reader), board.id(), 64) {
        Ok(state) => state,
        Err(_) => rt.panic("no registry"),
    }
}

/// Behind a lock a family is registered and two scrapes are made. Settled, the journal has these three entries, and keeps both
/// scrapes.
fn settles<B: Named>(
    rt: &(impl Wait + Abort),
    alloc: Global,
    board: &TwoBoard,
    state: State<'_>,
    workers: &mut [TwoWorker],
)
    requires some { IsSome B.board }
    requires named { IsNamed B.board board.now }
    requires of { IsOf B.board state }
    requires begins { BeginsWith B.first state.journal }
    requires of_board { All (IsWorkerOf board.now) workers.old }
{
    let registry = RegistryOf::<B, 2, 4, 1, 1>::lock(state);
    let desc = done(rt, desc(alloc, Kind::Counter, "a", &[]));
    need(rt, registry.register(rt, desc));
    need(rt, registry.scrape(rt));
    need(rt, registry.scrape(rt));
    let mut out = need(rt, Snapshot::new(alloc));
    match registry.settle(board, workers, &mut out) {
        Ok(journal) => same(rt, (journal.len(), journal.kept().len()), (3, 2)),
        Err(_) => rt.panic("a worker is missing"),
    }
}

#[test]
fn settling_drops_nothing(rt: HostRuntime) {
    let (rt, alloc) = (&rt, rt.alloc());
    let mut crew = need(rt, TwoCrew::new(alloc, ID, 1));
    let state = new_state(rt, alloc, &crew.board, &mut crew.readers);
    settles::<Brand>(rt, alloc, &crew.board, state, &mut crew.workers);
}
