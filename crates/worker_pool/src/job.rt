//! Jobs: what a worker of a pool is to do.
ghost use Rattle.std.specs.Prelude.{◌≡◌, OnOk, OnErr, IfErr};
ghost use Rattle.register_rule.specs.Seats.{board_id};
ghost use Rattle.snapshot_update.specs.JobOps.{op_of, registry_of};
ghost use Rattle.snapshot_update.specs.Workers.{index_of, member_of, IsWorkerOf, IsCounted, IsCountFault};

use register_rule::Board;
use snapshot_update::{CountFault, JobOp, Worker};

/// A job: what is to be counted, and the line that asked for it, by which a refusal is told.
#[derive(Clone, Copy, Debug, PartialEq, Eq)]
pub struct Job {
    /// The line that asked for it.
    pub line: u64,
    /// What is counted.
    pub what: JobOp,
}

impl Job {
    /// Does this job: one version of the worker's.
    ///
    /// # Errors
    ///
    /// Those of the [`Worker`]: 16, 15, 11, 12.
    pub(crate) fn run<const N: usize, const C: usize, const H: usize, const G: usize>(
        &self,
        board: &Board<N, C, H, G>,
        worker: &mut Worker<N, C, H, G>,
    ) -> Result<(), CountFault>
        requires of_board { IsWorkerOf board.now worker.old }
        ensures of_board { IsWorkerOf board.now worker.new }
        ensures index { index_of worker.new ≡ index_of worker.old }
        ensures counted { OnOk result
            (IsCounted (board_id board.now) (registry_of self.now.what) (op_of self.now.what) worker.old worker.new) }
        ensures fault { IfErr result (IsCountFault C H G (board_id board.now) (registry_of self.now.what) (op_of self.now.what)
            (member_of worker.old)) }
        ensures unchanged { OnErr result (worker.new ≡ worker.old) }
    {
        self.what.run(board, worker)
    }
}
