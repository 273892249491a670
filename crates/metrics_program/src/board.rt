//! The board of the program, and who works on it.
ghost use Rattle.std.specs.Prelude.{◌≡◌, [], ◌∷◌, map, replicate, IfOk, All};
ghost use Rattle.register_rule.specs.Seats.{board_id};
ghost use Rattle.snapshot_scan.specs.Readers.{IsReaderOf};
ghost use Rattle.snapshot_update.specs.Workers.{index_of, lists_of, IsWorkerOf};

use metric_names::NoMemory;
use registry_state::RegistryState;
use snapshot_scan::Scanner;
use snapshot_update::Crew;
use std::alloc::Global;

/// The words that the workers and readers of the program share: of four workers, 64 counters, 8 histograms and 16 gauges.
pub type Board = register_rule::Board<4, 64, 8, 16>;

/// A worker of the program.
pub type Worker = snapshot_update::Worker<4, 64, 8, 16>;

/// A reader of the program.
pub type Reader = snapshot_scan::Reader<4, 64, 8, 16>;

/// What a reader of the program scans to.
pub type Snapshot = snapshot_scan::Snapshot<4, 64, 8, 16>;

/// The registry of the program, without a lock: that of a script, which is nobody else's, and that of a server before it is
/// locked.
pub type Registry<'a> = RegistryState<Scanner<'a, 4, 64, 8, 16>, 4, 64, 8, 16>;

/// The id of the board.
const ID: u64 = 1;

/// Who works on the board: its four workers in order, the reader that scrapes, and the reader that settles.
#[derive(Drop)]
pub struct Staff {
    pub workers: Vec<Worker>,
    pub scraper: Reader,
    pub settler: Reader,
}

/// A board on which nothing was counted, and who works on it.
pub fn new_board(alloc: Global) -> Result<(Board, Staff), NoMemory>
    ensures id { IfOk result (λ r. board_id r.0 ≡ 1) }
    ensures workers { IfOk result (λ r. All (IsWorkerOf r.0) r.1.workers.items) }
    ensures all { IfOk result (λ r. map index_of r.1.workers.items ≡ 0 ∷ 1 ∷ 2 ∷ 3 ∷ []) }
    ensures new { IfOk result (λ r. map lists_of r.1.workers.items ≡ replicate 4 []) }
    ensures readers { IfOk result (λ r. IsReaderOf r.0 r.1.scraper × IsReaderOf r.0 r.1.settler) }
{
    let Ok(
        Crew {
            board,
            workers,
            mut readers,
        },
    ) = Crew::<4, 64, 8, 16>::new(alloc, ID, 2)
    else {
        return Err(NoMemory);
    };
    let (Some(settler), Some(scraper)) = (readers.pop(), readers.pop()) else {
        unreachable!()
    };
    let staff = Staff {
        workers,
        scraper,
        settler,
    };
    Ok((board, staff))
}
