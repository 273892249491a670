//! A worker with its board: what a thread counts with.
ghost use Rattle.std.specs.Prelude.{◌≡◌, ℕ, ◌<◌, [], map, length, slice_index};
ghost use Rattle.std.specs.Prelude.{IfOk, IfErr, OnOk, OnErr, All};
ghost use Rattle.bucket_math.specs.Bounds.{place_of};
ghost use Rattle.ledger_core.specs.Ops.{width, sum_ops};
ghost use Rattle.ledger_core.specs.declared.op.Op.TheVariants.{Inc, Observe, Up, Down};
ghost use Rattle.register_rule.specs.Sums.{word_after};
ghost use Rattle.snapshot_update.specs.Workers.{index_of, member_of, IsWorkerOf, IsCounted, IsCountFault};
ghost use Rattle.std.proofs.Props.{props};

use ledger_core::{Counter, Gauge, Histogram, Row, Tally};
use page_crew::{Change, are_of, ops_of};
use register_rule::Board;
use snapshot_update::{CountFault, Worker};
use std::alloc::{AllocError, Global};

/// What a thread counts with: a worker of a board, and that board. It may move to a thread of its own. Its calls take no lock and
/// no memory, and wait for nobody: their steps are bounded whatever others do. Where a scrape has failed to read once, a call
/// that publishes may rest first, some tens of microseconds at most ([`Board::rest_if_hushed`]).
pub struct Recorder<'a, const N: usize, const C: usize, const H: usize, const G: usize> {
    board: &'a Board<N, C, H, G>,
    worker: Worker<N, C, H, G>,
    ghost of_board: { IsWorkerOf board.now worker } by { Prim.hlevel props },
}

impl<'a, const N: usize, const C: usize, const H: usize, const G: usize> Drop
    for Recorder<'a, N, C, H, G> {
    fn drop(self) {
        let Recorder {
            board: _,
            worker: _,
        } = self;
    }
}

impl<'a, const N: usize, const C: usize, const H: usize, const G: usize> Recorder<'a, N, C, H, G> {
    ghost use Rattle.dirgwako.specs.Recorders.{board_in, id_in, worker_in, IsOn, ArePublished, IsPublishFault, IsFlushed};
    ghost use Rattle.dirgwako.specs.Recorders.{IsFlushFault};

    /// The recorder of this worker of this board.
    pub(crate) fn new(
        board: &'a Board<N, C, H, G>,
        worker: Worker<N, C, H, G>,
    ) -> Recorder<'a, N, C, H, G>
        requires { IsWorkerOf board.now worker }
        ensures board { board_in result ≡ board.now }
        ensures worker { worker_in result ≡ worker.entry }
    {
        Recorder { board, worker }
    }

    /// The worker.
    pub fn into_worker(self) -> Worker<N, C, H, G>
        ensures worker { result ≡ worker_in self.entry }
        ensures of_board { IsWorkerOf (board_in self.entry) result }
    {
        let Recorder { board: _, worker } = self;
        worker
    }

    /// Its board and its worker: a service that has all workers of a board back may [`settle`](metric_registry::settle_state)
    /// with its registry, and workers may meet ([`Worker::meet`]).
    pub fn into_parts(self) -> (&'a Board<N, C, H, G>, Worker<N, C, H, G>)
        ensures board { result.0.now ≡ board_in self.entry }
        ensures worker { result.1 ≡ worker_in self.entry }
        ensures of_board { IsWorkerOf result.0.now result.1 }
    {
        let Recorder { board, worker } = self;
        (board, worker)
    }

    /// Adds `by` to a counter: one version. [`Worker::inc`].
    ///
    /// # Errors
    ///
    /// 16 [`CountFault::WrongRegistry`], the counter's id is not the board's; then [`CountFault::Apply`]: 15, the worker has
    /// published 2^64 - 1 times; 11, the slot is none of the board's; 12, the number would pass 2^48 - 1. Nothing has changed
    /// then.
    pub fn inc(&mut self, counter: &Counter, by: u64) -> Result<(), CountFault>
        ensures board { board_in self.new ≡ board_in self.old }
        ensures index { index_of (worker_in self.new) ≡ index_of (worker_in self.old) }
        ensures counted { OnOk result (IsCounted (id_in self.old) counter.now.registry (Inc counter.now.slot by)
            (worker_in self.old) (worker_in self.new)) }
        ensures fault { IfErr result (IsCountFault C H G (id_in self.old) counter.now.registry (Inc counter.now.slot by)
            (member_of (worker_in self.old))) }
        ensures unchanged { OnErr result (member_of (worker_in self.new) ≡ member_of (worker_in self.old)) }
    {
        self.worker.inc(self.board, counter, by)
    }

    /// Adds 1 to a counter: [`Recorder::inc`].
    ///
    /// # Errors
    ///
    /// As [`Recorder::inc`].
    pub fn inc_one(&mut self, counter: &Counter) -> Result<(), CountFault>
        ensures board { board_in self.new ≡ board_in self.old }
        ensures index { index_of (worker_in self.new) ≡ index_of (worker_in self.old) }
        ensures counted { OnOk result (IsCounted (id_in self.old) counter.now.registry (Inc counter.now.slot 1)
            (worker_in self.old) (worker_in self.new)) }
        ensures fault { IfErr result (IsCountFault C H G (id_in self.old) counter.now.registry (Inc counter.now.slot 1)
            (member_of (worker_in self.old))) }
        ensures unchanged { OnErr result (member_of (worker_in self.new) ≡ member_of (worker_in self.old)) }
    {
        self.inc(counter, 1)
    }

    /// Counts a value of a histogram: its bucket, the sum and the count rise in one version. [`Worker::observe`].
    ///
    /// # Errors
    ///
    /// As [`Recorder::inc`].
    pub fn observe(&mut self, hist: &Histogram, value: u64) -> Result<(), CountFault>
        ensures board { board_in self.new ≡ board_in self.old }
        ensures index { index_of (worker_in self.new) ≡ index_of (worker_in self.old) }
        ensures counted { OnOk result
            (IsCounted (id_in self.old) hist.now.registry (Observe hist.now.slot (place_of hist.now.bounds value) value)
            (worker_in self.old) (worker_in self.new)) }
        ensures fault { IfErr result
            (IsCountFault C H G (id_in self.old) hist.now.registry (Observe hist.now.slot (place_of hist.now.bounds value) value)
            (member_of (worker_in self.old))) }
        ensures unchanged { OnErr result (member_of (worker_in self.new) ≡ member_of (worker_in self.old)) }
    {
        self.worker.observe(self.board, hist, value)
    }

    /// Raises a gauge by `by`: one version. [`Worker::up`].
    ///
    /// # Errors
    ///
    /// As [`Recorder::inc`].
    pub fn up(&mut self, gauge: &Gauge, by: u64) -> Result<(), CountFault>
        ensures board { board_in self.new ≡ board_in self.old }
        ensures index { index_of (worker_in self.new) ≡ index_of (worker_in self.old) }
        ensures counted { OnOk result (IsCounted (id_in self.old) gauge.now.registry (Up gauge.now.slot by) (worker_in self.old)
            (worker_in self.new)) }
        ensures fault { IfErr result (IsCountFault C H G (id_in self.old) gauge.now.registry (Up gauge.now.slot by)
            (member_of (worker_in self.old))) }
        ensures unchanged { OnErr result (member_of (worker_in self.new) ≡ member_of (worker_in self.old)) }
    {
        self.worker.up(self.board, gauge, by)
    }

    /// Lowers a gauge by `by`: one version. [`Worker::down`].
    ///
    /// # Errors
    ///
    /// As [`Recorder::inc`].
    pub fn down(&mut self, gauge: &Gauge, by: u64) -> Result<(), CountFault>
        ensures board { board_in self.new ≡ board_in self.old }
        ensures index { index_of (worker_in self.new) ≡ index_of (worker_in self.old) }
        ensures counted { OnOk result (IsCounted (id_in self.old) gauge.now.registry (Down gauge.now.slot by) (worker_in self.old)
            (worker_in self.new)) }
        ensures fault { IfErr result (IsCountFault C H G (id_in self.old) gauge.now.registry (Down gauge.now.slot by)
            (member_of (worker_in self.old))) }
        ensures unchanged { OnErr result (member_of (worker_in self.new) ≡ member_of (worker_in self.old)) }
    {
        self.worker.down(self.board, gauge, by)
    }

    /// Publishes these changes as one version, all of them or nothing: no scrape sees some of them alone. [`Worker::apply`].
    ///
    /// # Errors
    ///
    /// 16 [`CountFault::WrongRegistry`], the id of one of them is not the board's; then [`CountFault::Apply`]: 15, or 11 or 12 of
    /// the first change that fails, with its place. Nothing has changed then.
    #[inline(always)]
    pub fn publish<const K: usize>(&mut self, changes: &[Change; K]) -> Result<(), CountFault>
        ensures board { board_in self.new ≡ board_in self.old }
        ensures index { index_of (worker_in self.new) ≡ index_of (worker_in self.old) }
        ensures published { OnOk result (ArePublished changes.now self.old self.new) }
        ensures fault { IfErr result (IsPublishFault changes.now self.old) }
        ensures unchanged { OnErr result (member_of (worker_in self.new) ≡ member_of (worker_in self.old)) }
    {
        if !are_of(self.board.id(), changes) {
            return Err(CountFault::WrongRegistry);
        }
        match self.worker.apply(self.board, &ops_of(changes)) {
            Ok(()) => Ok(()),
            Err(fault) => Err(CountFault::Apply(fault)),
        }
    }

    /// An empty tally for the handles of its board's registry, with room for `K` operations, and for 65,536 at most.
    pub fn tally<const K: usize>(&self) -> Tally<C, H, G, K>
        ensures registry { result.registry ≡ id_in self.now }
        ensures empty { result.ops ≡ [] }
    {
        Tally::new(self.board.id())
    }

    /// Publishes what a tally has counted as one version, all of it or nothing: no scrape sees some of it alone. The tally is
    /// empty then.
    ///
    /// # Errors
    ///
    /// 16 [`CountFault::WrongRegistry`], the tally is of another registry; then [`CountFault::Apply`]: 15, the worker has
    /// published 2^64 - 1 times; 12, a number would pass 2^48 - 1. Nothing has changed then, and the tally has what it had.
    pub fn flush<const K: usize>(&mut self, tally: &mut Tally<C, H, G, K>) -> Result<(), CountFault>
        ensures board { board_in self.new ≡ board_in self.old }
        ensures index { index_of (worker_in self.new) ≡ index_of (worker_in self.old) }
        ensures flushed { OnOk result (IsFlushed tally.old self.old self.new) }
        ensures emptied { OnOk result (tally.new.ops ≡ []) }
        ensures registry { tally.new.registry ≡ tally.old.registry }
        ensures fault { IfErr result (IsFlushFault tally.old self.old) }
        ensures kept { OnErr result (tally.new ≡ tally.old) }
        ensures unchanged { OnErr result (member_of (worker_in self.new) ≡ member_of (worker_in self.old)) }
    {
        if tally.registry() != self.board.id() {
            return Err(CountFault::WrongRegistry);
        }
        match self.worker.apply(self.board, tally.ops()) {
            Ok(()) => {
                tally.clear();
                Ok(())
            }
            Err(fault) => Err(CountFault::Apply(fault)),
        }
    }

    /// Which worker it is, from 0.
    pub fn index(&self) -> usize
        ensures index { result ≡ index_of (worker_in self.now) }
        ensures inside { result < N }
    {
        self.worker.index()
    }

    /// How often the worker has published.
    pub fn number(&self) -> u64
        ensures { result ≡ length (member_of (worker_in self.now)).work.made }
    {
        self.worker.number()
    }

    /// The sum of all that it has published.
    pub(crate) fn row(&self) -> &Row<C, H, G>
        ensures { (k : ℕ) → k < width C H G
            → slice_index result.now k ≡ word_after (sum_ops C H) (member_of (worker_in self.now)).work.made k }
    {
        self.worker.row()
    }

    /// The recorders of these workers of a board, in order.
    pub(crate) fn all(
        alloc: Global,
        board: &'a Board<N, C, H, G>,
        workers: Vec<Worker<N, C, H, G>>,
    ) -> Result<Vec<Recorder<'a, N, C, H, G>>, AllocError>
        requires { All (IsWorkerOf board.now) workers.items }
        ensures board { IfOk result (λ v. All (IsOn board.now) v.items) }
        ensures workers { IfOk result (λ v. map worker_in v.items ≡ workers.entry.items) }
    {
        let mut recorders = Vec::with_capacity(alloc, workers.len())?;
        for worker in workers {
            recorders.push(Recorder::new(board, worker))?;
        }
        Ok(recorders)
    }
}
