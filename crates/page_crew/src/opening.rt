//! A board is made, with its registry, a recorder for each of its workers, and a registry for each scraper.
ghost use Rattle.std.specs.Prelude.{◌≡◌, ◌+◌, ◌≤◌, length, map, All, IfErr, IfOk, OnOk};
ghost use Rattle.std.specs.Arc.{arc_value};
ghost use Rattle.register_rule.specs.Faults.{IsBoardSize};
ghost use Rattle.registry_state.specs.Faults.{IsWindow};
ghost use Rattle.snapshot_scan.specs.Readers.{IsReaderOf};
ghost use Rattle.snapshot_update.specs.Workers.{IsWorkerOf};
ghost use Rattle.page_crew.specs.Shared.{board_in, worker_in};
ghost use Rattle.page_crew.specs.News.{IsOver};
ghost use Rattle.page_crew.specs.Opened.{IsNewBoard, IsNotMade};

use crate::fault::NoBoard;
use crate::shared_recorder::SharedRecorder;
use crate::shared_scanner::SharedScanner;
use metric_names::NoMemory;
use register_rule::{Board, BoardFault};
use registry_state::RegistryState;
use snapshot_scan::Reader;
use snapshot_update::{Crew, Worker};
use std::alloc::{AllocError, Global};
use std::sync::Arc;

/// A registry over a board, a recorder for each worker of that, and a registry for each scraper.
pub(crate) struct NewBoard<const N: usize, const C: usize, const H: usize, const G: usize> {
    pub(crate) registry: RegistryState<SharedScanner<N, C, H, G>, N, C, H, G>,
    pub(crate) recorders: Vec<SharedRecorder<N, C, H, G>>,
    pub(crate) others: Vec<RegistryState<SharedScanner<N, C, H, G>, N, C, H, G>>,
}

/// The recorders of these workers of a board, in order.
fn recorders_on<const N: usize, const C: usize, const H: usize, const G: usize>(
    alloc: Global,
    board: &Arc<Board<N, C, H, G>>,
    workers: Vec<Worker<N, C, H, G>>,
) -> Result<Vec<SharedRecorder<N, C, H, G>>, AllocError>
    requires { All (IsWorkerOf (arc_value board.now)) workers.items }
    ensures boards { IfOk result (λ v. All (λ r. board_in r ≡ arc_value board.now) v.items) }
    ensures workers { IfOk result (λ v. map worker_in v.items ≡ workers.entry.items) }
{
    let mut recorders = Vec::with_capacity(alloc, workers.len())?;
    for worker in workers {
        recorders.push(SharedRecorder::new(Arc::try_clone(board)?, worker))?;
    }
    Ok(recorders)
}

/// A registry of this id over each of these readers of a board, which keeps one scrape.
///
/// Refusal 6 [`NoMemory`], and no other.
fn others_on<const N: usize, const C: usize, const H: usize, const G: usize>(
    alloc: Global,
    board: &Arc<Board<N, C, H, G>>,
    readers: Vec<Reader<N, C, H, G>>,
    id: u64,
) -> Result<Vec<RegistryState<SharedScanner<N, C, H, G>, N, C, H, G>>, NoMemory>
    requires { All (IsReaderOf (arc_value board.now)) readers.items }
    ensures many { IfOk result (λ others. length others.items ≡ length readers.entry.items) }
    ensures over { IfOk result (λ others. All (IsOver (arc_value board.now) id) others.items) }
{
    let mut others = Vec::with_capacity(alloc, readers.len())?;
    for reader in readers {
        let scanner = SharedScanner::new(Arc::try_clone(board)?, reader);
        match RegistryState::new(alloc, scanner, id, 1) {
            Ok(registry) => others.push(registry)?,
            Err(_) => return Err(NoMemory),
        }
    }
    Ok(others)
}

/// A new board of this id, its registry, which keeps `window` scrapes, a recorder for each worker, and a registry for each of so
/// many scrapers.
pub(crate) fn new_board<const N: usize, const C: usize, const H: usize, const G: usize>(
    alloc: Global,
    id: u64,
    window: usize,
    scrapers: usize,
) -> Result<NewBoard<N, C, H, G>, NoBoard>
    requires { IsWindow window × (scrapers ≤ 3) }
    ensures new { IfOk result (λ made. IsNewBoard id window made.registry made.recorders.items) }
    ensures others { IfOk result (λ made. (length made.others.items ≡ scrapers)
        × All (IsOver (arc_value made.registry.source.board) id) made.others.items) }
    ensures size { OnOk result (IsBoardSize N C H G (1 + scrapers)) }
    ensures fault { IfErr result (IsNotMade N C H G (1 + scrapers)) }
{
    let crew = match Crew::new(alloc, id, 1 + scrapers) {
        Ok(crew) => crew,
        Err(BoardFault::Geometry) => return Err(NoBoard::Geometry),
        Err(BoardFault::NoMemory) => return Err(NoBoard::NoMemory),
    };
    let Crew {
        board,
        workers,
        mut readers,
    } = crew;
    let Some(reader) = readers.pop() else {
        unreachable!()
    };
    let Ok(board) = Arc::new(alloc, board) else {
        return Err(NoBoard::NoMemory);
    };
    let Ok(theirs) = Arc::try_clone(&board) else {
        return Err(NoBoard::NoMemory);
    };
    let Ok(recorders) = recorders_on(alloc, &board, workers) else {
        return Err(NoBoard::NoMemory);
    };
    let Ok(others) = others_on(alloc, &board, readers, id) else {
        return Err(NoBoard::NoMemory);
    };
    let scanner = SharedScanner::new(theirs, reader);
    match RegistryState::new(alloc, scanner, id, window) {
        Ok(registry) => Ok(NewBoard {
            registry,
            recorders,
            others,
        }),
        Err(_) => Err(NoBoard::NoMemory),
    }
}
