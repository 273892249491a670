//! A share in a board and a worker of it: what a thread counts with.
ghost use Rattle.std.specs.Prelude.{◌≡◌, ℕ, ◌<◌, [], ◌∷◌, ◌++◌, length, slice_index, OnOk, OnErr, IfErr};
ghost use Rattle.std.specs.Arc.{arc_value};
ghost use Rattle.bucket_math.specs.Bounds.{place_of};
ghost use Rattle.ledger_core.specs.Ops.{width, sum_ops};
ghost use Rattle.ledger_core.specs.declared.op.Op.TheVariants.{Inc, Observe, Up, Down};
ghost use Rattle.ledger_core.specs.Row.{Accepts};
ghost use Rattle.register_rule.specs.Sums.{word_after};
ghost use Rattle.snapshot_update.specs.Updated.{IsUpdated};
ghost use Rattle.snapshot_update.specs.Workers.{index_of, member_of, lists_of, IsWorkerOf, IsApplyFault, IsCounted, IsCountFault};
ghost use Rattle.std.proofs.Props.{props};

use crate::count::Count;
use ledger_core::{Counter, Gauge, Histogram, Op, Row};
use register_rule::Board;
use snapshot_update::{ApplyFault, CountFault, Worker};
use std::sync::Arc;

/// What a thread counts with on one board of a page: a worker, and a share in its board. It may move to a thread of its own. Its
/// calls take no lock and no memory, and wait for nobody, as those of a [`PageRecorder`](crate::PageRecorder).
pub struct SharedRecorder<const N: usize, const C: usize, const H: usize, const G: usize> {
    board: Arc<Board<N, C, H, G>>,
    worker: Worker<N, C, H, G>,
    ghost of_board: { IsWorkerOf (arc_value board) worker } by { Prim.hlevel props },
}

impl<const N: usize, const C: usize, const H: usize, const G: usize> Drop
    for SharedRecorder<N, C, H, G> {
    fn drop(self) {
        let SharedRecorder {
            board: _,
            worker: _,
        } = self;
    }
}

impl<const N: usize, const C: usize, const H: usize, const G: usize> SharedRecorder<N, C, H, G> {
    ghost use Rattle.page_crew.specs.Shared.{board_in, worker_in, id_in};
    ghost use Rattle.page_crew.specs.Counting.{registry_of, op_of};

    /// That of this worker, on this board.
    pub fn new(
        board: Arc<Board<N, C, H, G>>,
        worker: Worker<N, C, H, G>,
    ) -> SharedRecorder<N, C, H, G>
        requires { IsWorkerOf (arc_value board) worker }
        ensures board { board_in result ≡ arc_value board.entry }
        ensures worker { worker_in result ≡ worker.entry }
    {
        SharedRecorder { board, worker }
    }

    /// The id of its board.
    pub fn id(&self) -> u64
        ensures { result ≡ id_in self.now }
    {
        self.board.id()
    }

    /// Which worker it is, from 0.
    pub fn index(&self) -> usize
        ensures index { result ≡ index_of (worker_in self.now) }
        ensures inside { result < N }
    {
        self.worker.index()
    }

    /// How often the worker has published.
    pub fn number(&self) -> u64
        ensures { result ≡ length (member_of (worker_in self.now)).work.made }
    {
        self.worker.number()
    }

    /// The sum of all that it has published.
    pub fn row(&self) -> &Row<C, H, G>
        ensures { (k : ℕ) → k < width C H G
            → slice_index result.now k ≡ word_after (sum_ops C H) (member_of (worker_in self.now)).work.made k }
    {
        self.worker.row()
    }

    /// Adds `by` to a counter: one version. [`Worker::inc`].
    ///
    /// # Errors
    ///
    /// 16, 15, 11 and 12. Nothing has changed then.
    pub fn inc(&mut self, counter: &Counter, by: u64) -> Result<(), CountFault>
        ensures board { board_in self.new ≡ board_in self.old }
        ensures index { index_of (worker_in self.new) ≡ index_of (worker_in self.old) }
        ensures counted { OnOk result (IsCounted (id_in self.old) counter.now.registry (Inc counter.now.slot by)
            (worker_in self.old) (worker_in self.new)) }
        ensures fault { IfErr result (IsCountFault C H G (id_in self.old) counter.now.registry (Inc counter.now.slot by)
            (member_of (worker_in self.old))) }
        ensures unchanged { OnErr result (member_of (worker_in self.new) ≡ member_of (worker_in self.old)) }
    {
        self.worker.inc(&self.board, counter, by)
    }

    /// Counts a value of a histogram: one version. [`Worker::observe`].
    ///
    /// # Errors
    ///
    /// 16, 15, 11 and 12. Nothing has changed then.
    pub fn observe(&mut self, hist: &Histogram, value: u64) -> Result<(), CountFault>
        ensures board { board_in self.new ≡ board_in self.old }
        ensures index { index_of (worker_in self.new) ≡ index_of (worker_in self.old) }
        ensures counted { OnOk result
            (IsCounted (id_in self.old) hist.now.registry (Observe hist.now.slot (place_of hist.now.bounds value) value)
            (worker_in self.old) (worker_in self.new)) }
        ensures fault { IfErr result
            (IsCountFault C H G (id_in self.old) hist.now.registry (Observe hist.now.slot (place_of hist.now.bounds value) value)
            (member_of (worker_in self.old))) }
        ensures unchanged { OnErr result (member_of (worker_in self.new) ≡ member_of (worker_in self.old)) }
    {
        self.worker.observe(&self.board, hist, value)
    }

    /// Raises a gauge by `by`: one version. [`Worker::up`].
    ///
    /// # Errors
    ///
    /// 16, 15, 11 and 12. Nothing has changed then.
    pub fn up(&mut self, gauge: &Gauge, by: u64) -> Result<(), CountFault>
        ensures board { board_in self.new ≡ board_in self.old }
        ensures index { index_of (worker_in self.new) ≡ index_of (worker_in self.old) }
        ensures counted { OnOk result (IsCounted (id_in self.old) gauge.now.registry (Up gauge.now.slot by)
            (worker_in self.old) (worker_in self.new)) }
        ensures fault { IfErr result (IsCountFault C H G (id_in self.old) gauge.now.registry (Up gauge.now.slot by)
            (member_of (worker_in self.old))) }
        ensures unchanged { OnErr result (member_of (worker_in self.new) ≡ member_of (worker_in self.old)) }
    {
        self.worker.up(&self.board, gauge, by)
    }

    /// Lowers a gauge by `by`: one version. [`Worker::down`].
    ///
    /// # Errors
    ///
    /// 16, 15, 11 and 12. Nothing has changed then.
    pub fn down(&mut self, gauge: &Gauge, by: u64) -> Result<(), CountFault>
        ensures board { board_in self.new ≡ board_in self.old }
        ensures index { index_of (worker_in self.new) ≡ index_of (worker_in self.old) }
        ensures counted { OnOk result (IsCounted (id_in self.old) gauge.now.registry (Down gauge.now.slot by)
            (worker_in self.old) (worker_in self.new)) }
        ensures fault { IfErr result (IsCountFault C H G (id_in self.old) gauge.now.registry (Down gauge.now.slot by)
            (member_of (worker_in self.old))) }
        ensures unchanged { OnErr result (member_of (worker_in self.new) ≡ member_of (worker_in self.old)) }
    {
        self.worker.down(&self.board, gauge, by)
    }

    // Counts this: one version.
    #[inline(always)]
    pub(crate) fn count(&mut self, what: Count) -> Result<(), CountFault>
        ensures board { board_in self.new ≡ board_in self.old }
        ensures index { index_of (worker_in self.new) ≡ index_of (worker_in self.old) }
        ensures counted { OnOk result (IsCounted (id_in self.old) (registry_of what.entry) (op_of what.entry) (worker_in self.old)
            (worker_in self.new)) }
        ensures fault { IfErr result (IsCountFault C H G (id_in self.old) (registry_of what.entry) (op_of what.entry)
            (member_of (worker_in self.old))) }
        ensures unchanged { OnErr result (member_of (worker_in self.new) ≡ member_of (worker_in self.old)) }
    {
        match what {
            Count::Inc(counter, by) => self.inc(counter, by),
            Count::Observe(hist, value) => self.observe(hist, value),
            Count::Up(gauge, by) => self.up(gauge, by),
            Count::Down(gauge, by) => self.down(gauge, by),
        }
    }

    /// Publishes these operations as one version, all of them or nothing. By whose handles they are is the caller's to know.
    /// [`Worker::apply`].
    ///
    /// # Errors
    ///
    /// 15, 11 and 12. Nothing has changed then.
    #[inline(always)]
    pub fn apply(&mut self, ops: &[Op]) -> Result<(), ApplyFault>
        ensures board { board_in self.new ≡ board_in self.old }
        ensures index { index_of (worker_in self.new) ≡ index_of (worker_in self.old) }
        ensures updated { OnOk result (IsUpdated N C H G (index_of (worker_in self.old)) ops.now (member_of (worker_in self.old))
            (member_of (worker_in self.new))) }
        ensures lists { OnOk result (lists_of (worker_in self.new) ≡ lists_of (worker_in self.old) ++ ops.now ∷ []) }
        ensures accepted { OnOk result (Accepts C H G (word_after (sum_ops C H) (member_of (worker_in self.old)).work.made)
            ops.now) }
        ensures room { OnOk result (length (member_of (worker_in self.old)).work.made < 18446744073709551615) }
        ensures fault { IfErr result (IsApplyFault C H G (member_of (worker_in self.old)) ops.now) }
        ensures unchanged { OnErr result (member_of (worker_in self.new) ≡ member_of (worker_in self.old)) }
    {
        self.worker.apply(&self.board, ops)
    }
}
