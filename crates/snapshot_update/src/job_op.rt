//! What a worker is to count, told beforehand.
ghost use Rattle.std.specs.Prelude.{◌≡◌, OnOk, OnErr, IfErr};
ghost use Rattle.register_rule.specs.Seats.{board_id};
ghost use Rattle.snapshot_update.specs.JobOps.{op_of, registry_of};
ghost use Rattle.snapshot_update.specs.Workers.{index_of, member_of, IsWorkerOf, IsCounted, IsCountFault};

use crate::faults::CountFault;
use crate::worker::Worker;
use ledger_core::{Counter, Gauge, Histogram};
use register_rule::Board;

/// What a worker is to count.
#[derive(Clone, Copy, Debug, PartialEq, Eq)]
pub enum JobOp {
    /// Adds this to a counter.
    Inc(Counter, u64),
    /// Counts this value of a histogram.
    Observe(Histogram, u64),
    /// Raises a gauge by this.
    Up(Gauge, u64),
    /// Lowers a gauge by this.
    Down(Gauge, u64),
}

impl JobOp {
    /// Has this worker count it: one version of the worker's.
    ///
    /// # Errors
    ///
    /// Those of the [`Worker`]: 16, 15, 11, 12.
    pub fn run<const N: usize, const C: usize, const H: usize, const G: usize>(
        &self,
        board: &Board<N, C, H, G>,
        worker: &mut Worker<N, C, H, G>,
    ) -> Result<(), CountFault>
        requires of_board { IsWorkerOf board.now worker.old }
        ensures of_board { IsWorkerOf board.now worker.new }
        ensures index { index_of worker.new ≡ index_of worker.old }
        ensures counted { OnOk result (IsCounted (board_id board.now) (registry_of self.now) (op_of self.now) worker.old
            worker.new) }
        ensures fault { IfErr result (IsCountFault C H G (board_id board.now) (registry_of self.now) (op_of self.now) (member_of
            worker.old)) }
        ensures unchanged { OnErr result (worker.new ≡ worker.old) }
    {
        match self {
            JobOp::Inc(counter, by) => worker.inc(board, counter, *by),
            JobOp::Observe(hist, value) => worker.observe(board, hist, *value),
            JobOp::Up(gauge, by) => worker.up(board, gauge, *by),
            JobOp::Down(gauge, by) => worker.down(board, gauge, *by),
        }
    }
}
