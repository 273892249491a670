//! A worker: what a thread counts with.
ghost use Rattle.std.specs.Prelude.{◌<◌, ◌≡◌, replicate, IfOk};
ghost use Rattle.std.specs.Option.{ForSome};
ghost use Rattle.segment_layout.specs.Layout.{IsGeometry, depth};
ghost use Rattle.register_rule.specs.Seats.{worker_of, index_of as seat_index};
ghost use Rattle.snapshot_update.specs.Fit.{IsFitOfSeat, HasSeenOwn};
ghost use Rattle.ledger_core.specs.Ops.{width};
ghost use Rattle.snapshot_scan.specs.ScanMemories.{rows_of};
ghost use Rattle.snapshot_update.specs.BufferImages.{AreBlank};

use crate::buffer_images::BufferImages;
use crate::faults::{ApplyFault, CountFault};
use crate::scanning::scan_for_caller;
use crate::update::update;
use ledger_core::{Counter, Gauge, Histogram, Op, Row};
use register_rule::{Board, WorkSeat};
use segment_layout::buffer_words;
use snapshot_scan::{Contended, NoMemoryForSeat, Reader, ScanMemory, Snapshot};
use std::alloc::{AllocError, Global};

/// What a thread counts with: a worker's seat, its row, what its scans remember, and what it knows of its buffers. While the
/// worker is lent to a reader, it has no seat.
pub struct Worker<const N: usize, const C: usize, const H: usize, const G: usize> {
    pub(crate) seat: Option<WorkSeat>,
    pub(crate) index: usize,
    pub(crate) number: u64,
    pub(crate) row: Box<Row<C, H, G>>,
    pub(crate) memory: ScanMemory<N, C, H, G>,
    pub(crate) images: BufferImages,
    // The last request to rest that the worker has rested for.
    pub(crate) rested: u64,
    ghost geometry: { IsGeometry N C H G },
    ghost inside: { index < N },
    ghost holds: { ForSome seat (λ s. IsFitOfSeat N C H G index number row.value memory images (seat_index s) (worker_of s)) },
    ghost seen: { ForSome seat (λ s. HasSeenOwn index (worker_of s)) },
}

impl<const N: usize, const C: usize, const H: usize, const G: usize> Drop for Worker<N, C, H, G> {
    fn drop(self) {
        let Worker {
            seat: _,
            index: _,
            number: _,
            row: _,
            memory: _,
            images: _,
            rested: _,
        } = self;
    }
}

impl<const N: usize, const C: usize, const H: usize, const G: usize> Worker<N, C, H, G> {
    ghost use Rattle.std.specs.Prelude.{◌≡◌, ◌+◌, ◌<◌, [], ◌∷◌, ◌++◌, Some, length, IsSome, IfOk, IfErr, OnOk, OnErr};
    ghost use Rattle.std.specs.Prelude.{slice_index, ◌≢◌, ℕ, ◌≤◌};
    ghost use Rattle.ledger_core.specs.Ops.{width, sum_ops};
    ghost use Rattle.ledger_core.specs.Row.{Accepts};
    ghost use Rattle.segment_layout.specs.Layout.{IsGeometry, depth};
    ghost use Rattle.register_rule.specs.Sums.{word_after};
    ghost use Rattle.register_rule.specs.Members.{new_worker, met, greatest, raised, picked, without};
    ghost use Rattle.register_rule.specs.Seats.{worker_of, index_of as seat_index, board_id};
    ghost use Rattle.snapshot_update.specs.Updated.{IsUpdated, IsRuledAlone};
    ghost use Rattle.snapshot_update.specs.Workers.{index_of, member_of, lists_of, IsWorkerOf, IsApplyFault, scan_by};
    ghost use Rattle.snapshot_update.specs.Workers.{after_scan, IsCounted, IsCountFault, IsLent, IsLentAs};
    ghost use Rattle.bucket_math.specs.Bounds.{place_of};
    ghost use Rattle.ledger_core.specs.Legal.{IsLegal};
    ghost use Rattle.ledger_core.specs.declared.op.Op.TheVariants.{Inc, Observe, Up, Down};
    ghost use Rattle.snapshot_core.specs.declared.next.Next.TheVariants as Next;
    ghost use Rattle.snapshot_scan.specs.Scanned.{IsAnswered};
    ghost use Rattle.snapshot_scan.specs.Contention.{IsContended};
    ghost use Rattle.snapshot_scan.specs.Core.{CameTo, AnswersBy};
    ghost use Rattle.snapshot_scan.specs.Snapshots.{as_answer};
    ghost use Rattle.register_rule.specs.declared.view.Member.{Member};
    ghost use Rattle.register_rule.specs.declared.view.Who.TheVariants as Who;
    ghost use Rattle.register_rule.specs.History.{Below};
    ghost use Rattle.register_rule.specs.Rule.{AreApart};
    ghost use Rattle.snapshot_scan.specs.Lent.{IsWorkerAmong, HasSeenMore};
    ghost use Rattle.snapshot_scan.specs.Order.{IsAlone};
    ghost use Rattle.snapshot_scan.specs.Readers.{members_with, scan_by as scan_of_reader, index_of as reader_index};
    ghost use Rattle.snapshot_scan.specs.Readers.{IsReaderOf};

    /// A worker of a seat that has made no step since its board was made. All memory that it needs is taken here.
    ///
    /// # Errors
    ///
    /// 6 [`NoMemoryForSeat`], with the seat.
    pub fn new(
        alloc: Global,
        seat: WorkSeat,
    ) -> Result<Worker<N, C, H, G>, NoMemoryForSeat<WorkSeat>>
        requires geometry { IsGeometry N C H G }
        requires inside { seat_index seat < N }
        requires fresh { worker_of seat ≡ new_worker N (width C H G) (depth N (width C H G)) (seat_index seat) }
        ensures index { IfOk result (λ w. index_of w ≡ seat_index seat) }
        ensures same { IfOk result (λ w. w.seat ≡ Some seat) }
        ensures back { IfErr result (λ e. e.seat ≡ seat) }
    {
        let Ok((row, memory, images)) = new_memory(alloc) else {
            return Err(NoMemoryForSeat { seat });
        };
        let index = seat.worker();
        Ok(Worker {
            seat: Some(seat),
            index,
            number: 0,
            row,
            memory,
            images,
            rested: 0,
        })
    }

    /// Publishes one version, which adds this list: all of it or nothing. An empty list is a version as well. It takes no memory
    /// and waits for nobody: its steps are bounded whatever others do. Where a scan's first try failed it may rest first, as
    /// [`Board::rest_if_hushed`] tells.
    ///
    /// # Errors
    ///
    /// [`ApplyFault::Exhausted`], 15; then [`ApplyFault::Refused`], 11 or 12, of the first operation that fails.
    #[inline(always)]
    pub fn apply(&mut self, board: &Board<N, C, H, G>, ops: &[Op]) -> Result<(), ApplyFault>
        requires of_board { IsWorkerOf board.now self.old }
        ensures of_board { IsWorkerOf board.now self.new }
        ensures index { index_of self.new ≡ index_of self.old }
        ensures updated { OnOk result (IsUpdated N C H G (index_of self.old) ops.now (member_of self.old) (member_of self.new)) }
        ensures lists { OnOk result (lists_of self.new ≡ lists_of self.old ++ ops.now ∷ []) }
        ensures accepted { OnOk result (Accepts C H G (word_after (sum_ops C H) (member_of self.old).work.made) ops.now) }
        ensures room { OnOk result (length (member_of self.old).work.made < 18446744073709551615) }
        ensures fault { IfErr result (IsApplyFault C H G (member_of self.old) ops.now) }
        ensures unchanged { OnErr result (self.new ≡ self.old) }
    {
        if self.number == u64::MAX {
            return Err(ApplyFault::Exhausted);
        }
        let Some(seat) = &mut self.seat else {
            unreachable!()
        };
        if let Err(fault) = update(
            board,
            seat,
            &mut self.row,
            &mut self.memory,
            &mut self.images,
            &mut self.rested,
            ops,
        ) {
            return Err(ApplyFault::Refused(fault));
        }
        self.number += 1;
        Ok(())
    }

    /// Which worker it is, from 0.
    pub fn index(&self) -> usize
        ensures index { result ≡ index_of self.now }
        ensures inside { result < N }
    {
        self.index
    }

    /// How often the worker has published. It is not asked while it is lent.
    pub fn number(&self) -> u64
        requires { IsSome self.now.seat }
        ensures { result ≡ length (member_of self.now).work.made }
    {
        self.number
    }

    /// The sum of all that the worker has published. It is not asked while it is lent.
    pub fn row(&self) -> &Row<C, H, G>
        requires { IsSome self.now.seat }
        ensures { (k : ℕ) → k < width C H G → slice_index result.now k ≡ word_after (sum_ops C H)
            (member_of self.now).work.made k }
    {
        &self.row
    }

    /// Adds `by` to a counter: one version.
    ///
    /// # Errors
    ///
    /// 16 [`CountFault::WrongRegistry`], the counter's id is not the board's; then those of [`Worker::apply`]: 15, 11, 12.
    pub fn inc(
        &mut self,
        board: &Board<N, C, H, G>,
        counter: &Counter,
        by: u64,
    ) -> Result<(), CountFault>
        requires of_board { IsWorkerOf board.now self.old }
        ensures of_board { IsWorkerOf board.now self.new }
        ensures index { index_of self.new ≡ index_of self.old }
        ensures counted { OnOk result
            (IsCounted (board_id board.now) counter.now.registry (Inc counter.now.slot by) self.old self.new) }
        ensures fault { IfErr result (IsCountFault C H G (board_id board.now) counter.now.registry (Inc counter.now.slot by)
            (member_of self.old)) }
        ensures unchanged { OnErr result (self.new ≡ self.old) }
    {
        if counter.registry != board.id() {
            return Err(CountFault::WrongRegistry);
        }
        match self.apply(
            board,
            &[Op::Inc {
                counter: counter.slot,
                by,
            }],
        ) {
            Ok(()) => Ok(()),
            Err(fault) => Err(CountFault::Apply(fault)),
        }
    }

    /// Counts a value of a histogram: its bucket, the sum and the count rise in one version.
    ///
    /// # Errors
    ///
    /// 16 [`CountFault::WrongRegistry`], the histogram's id is not the board's; then those of [`Worker::apply`]: 15, 11, 12.
    pub fn observe(
        &mut self,
        board: &Board<N, C, H, G>,
        hist: &Histogram,
        value: u64,
    ) -> Result<(), CountFault>
        requires of_board { IsWorkerOf board.now self.old }
        ensures of_board { IsWorkerOf board.now self.new }
        ensures index { index_of self.new ≡ index_of self.old }
        ensures counted { OnOk result
            (IsCounted (board_id board.now) hist.now.registry (Observe hist.now.slot (place_of hist.now.bounds value) value)
            self.old self.new) }
        ensures fault { IfErr result
            (IsCountFault C H G (board_id board.now) hist.now.registry
            (Observe hist.now.slot (place_of hist.now.bounds value) value) (member_of self.old)) }
        ensures unchanged { OnErr result (self.new ≡ self.old) }
    {
        let place = hist.bounds.place(value);
        if hist.registry != board.id() {
            return Err(CountFault::WrongRegistry);
        }
        match self.apply(
            board,
            &[Op::Observe {
                hist: hist.slot,
                place,
                value,
            }],
        ) {
            Ok(()) => Ok(()),
            Err(fault) => Err(CountFault::Apply(fault)),
        }
    }

    /// Raises a gauge: one version.
    ///
    /// # Errors
    ///
    /// 16 [`CountFault::WrongRegistry`], the gauge's id is not the board's; then those of [`Worker::apply`]: 15, 11, 12.
    pub fn up(
        &mut self,
        board: &Board<N, C, H, G>,
        gauge: &Gauge,
        by: u64,
    ) -> Result<(), CountFault>
        requires of_board { IsWorkerOf board.now self.old }
        ensures of_board { IsWorkerOf board.now self.new }
        ensures index { index_of self.new ≡ index_of self.old }
        ensures counted { OnOk result
            (IsCounted (board_id board.now) gauge.now.registry (Up gauge.now.slot by) self.old self.new) }
        ensures fault { IfErr result (IsCountFault C H G (board_id board.now) gauge.now.registry (Up gauge.now.slot by)
            (member_of self.old)) }
        ensures unchanged { OnErr result (self.new ≡ self.old) }
    {
        self.count(
            board,
            gauge.registry,
            Op::Up {
                gauge: gauge.slot,
                by,
            },
        )
    }

    /// Lowers a gauge: one version.
    ///
    /// # Errors
    ///
    /// 16 [`CountFault::WrongRegistry`], the gauge's id is not the board's; then those of [`Worker::apply`]: 15, 11, 12.
    pub fn down(
        &mut self,
        board: &Board<N, C, H, G>,
        gauge: &Gauge,
        by: u64,
    ) -> Result<(), CountFault>
        requires of_board { IsWorkerOf board.now self.old }
        ensures of_board { IsWorkerOf board.now self.new }
        ensures index { index_of self.new ≡ index_of self.old }
        ensures counted { OnOk result
            (IsCounted (board_id board.now) gauge.now.registry (Down gauge.now.slot by) self.old self.new) }
        ensures fault { IfErr result (IsCountFault C H G (board_id board.now) gauge.now.registry (Down gauge.now.slot by)
            (member_of self.old)) }
        ensures unchanged { OnErr result (self.new ≡ self.old) }
    {
        self.count(
            board,
            gauge.registry,
            Op::Down {
                gauge: gauge.slot,
                by,
            },
        )
    }

    /// A scan: all segments at one moment, written to `out`, with all that the worker itself has published. It takes no memory
    /// and waits for nobody. Where its first try failed, other workers are asked to rest ([`Board::hush`]).
    ///
    /// It promises what [`Reader::scan`](snapshot_scan::Reader::scan) does, with what the rule says of the worker alone. The
    /// worker's versions stay as they were.
    ///
    /// # Errors
    ///
    /// 14 [`Contended`]. `out` is unchanged.
    pub fn scan(
        &mut self,
        board: &Board<N, C, H, G>,
        out: &mut Snapshot<N, C, H, G>,
    ) -> Result<(), Contended>
        requires of_board { IsWorkerOf board.now self.old }
        ensures of_board { IsWorkerOf board.now self.new }
        ensures index { index_of self.new ≡ index_of self.old }
        ensures ruled { IsRuledAlone N C H G (member_of self.new) }
        ensures scanned { member_of self.new ≡ after_scan (scan_by self.new) (member_of self.old) }
        ensures answered { OnOk result (IsAnswered N (scan_by self.old) (scan_by self.new) (as_answer out.new)) }
        ensures answers { OnOk result (AnswersBy N (width C H G) (scan_by self.old) (scan_by self.new) (as_answer out.new)) }
        ensures legal { OnOk result (IsLegal C H (slice_index out.new.totals)) }
        ensures contended { IfErr result (IsContended N (scan_by self.old) (scan_by self.new)) }
        ensures came_up { IfErr result
            (λ e. CameTo N (width C H G) (scan_by self.old) (scan_by self.new) (Next.GaveUp e.worker e.first e.last)) }
        ensures unchanged { OnErr result (out.new ≡ out.old) }
    {
        let Some(seat) = &mut self.seat else {
            unreachable!()
        };
        let end = scan_for_caller(board, seat, &mut self.memory, out);
        // The scan may have remembered other rows, of which no list was kept: the next update compares all.
        self.images.late.note_all();
        self.images.row_known = false;
        self.images.joined = false;
        end
    }

    /// Lends the worker to a reader, by one load: it has then seen what the reader has seen, and the reader has seen all that
    /// it made. Until it is taken back it cannot publish, and each scan of the reader has its number.
    pub fn lend_to(&mut self, board: &Board<N, C, H, G>, reader: &mut Reader<N, C, H, G>)
        requires of_board { IsWorkerOf board.now self.old × IsReaderOf board.now reader.old }
        ensures of_board { IsReaderOf board.now reader.new }
        ensures index { (index_of self.new ≡ index_of self.old) × (reader_index reader.new ≡ reader_index reader.old) }
        ensures met { members_with reader.new ≡ met (members_with reader.old ++ member_of self.old ∷ []) }
        ensures scans { HasSeenMore (scan_of_reader reader.old) (scan_of_reader reader.new) }
        ensures seen { length (member_of self.old).work.made ≤ slice_index (scan_of_reader reader.new).seen (index_of self.old) }
        ensures lent { IsLentAs (raised (greatest (members_with reader.old ++ member_of self.old ∷ [])) (member_of self.old))
            self.new reader.new }
    {
        let Some(seat) = self.seat.take() else {
            unreachable!()
        };
        reader.admit(board, seat.into_bundle());
    }

    /// Takes the worker back from the reader that it is lent to, by two loads: the first one changes nothing, and is made for
    /// what the rule tells at it of the members, which the worker needs to go on: that it has seen its own number.
    pub fn take_back(&mut self, board: &Board<N, C, H, G>, reader: &mut Reader<N, C, H, G>)
        requires of_board { IsReaderOf board.now reader.old }
        requires lent { IsLent self.old reader.old }
        ensures of_board { IsWorkerOf board.now self.new × IsReaderOf board.now reader.new }
        ensures index { (index_of self.new ≡ index_of self.old) × (reader_index reader.new ≡ reader_index reader.old) }
        ensures member { picked (Who.Worker (index_of self.old)) (members_with reader.old) ≡ member_of self.new ∷ [] }
        ensures others { members_with reader.new ≡ without (Who.Worker (index_of self.old)) (members_with reader.old) }
        ensures scans { scan_of_reader reader.new ≡ scan_of_reader reader.old }
        ensures apart { AreApart (members_with reader.old) }
    {
        reader.tell(board);
        let bundle = reader.release(board, self.index);
        self.seat = Some(bundle.into_work(self.index, self.number));
    }

    /// The worker and the reader meet, by three loads: from now on each scan of the reader has all that the worker has made so
    /// far, and no scan of the worker is below what the reader has seen.
    pub fn meet(&mut self, board: &Board<N, C, H, G>, reader: &mut Reader<N, C, H, G>)
        requires of_board { IsWorkerOf board.now self.old × IsReaderOf board.now reader.old }
        ensures of_board { IsWorkerOf board.now self.new × IsReaderOf board.now reader.new }
        ensures index { (index_of self.new ≡ index_of self.old) × (reader_index reader.new ≡ reader_index reader.old) }
        ensures worker { member_of self.new ≡ raised (greatest (members_with reader.old ++ member_of self.old ∷ []))
            (member_of self.old) }
        ensures reader { members_with reader.new ≡ without (Who.Worker (index_of self.old))
            (met (members_with reader.old ++ member_of self.old ∷ [])) }
        ensures others { (i : ℕ) (m : Member) → IsWorkerAmong i m (members_with reader.old) → i ≢ index_of self.old }
        ensures scans { HasSeenMore (scan_of_reader reader.old) (scan_of_reader reader.new) }
        ensures alone { IsAlone reader.old → IsAlone reader.new }
        ensures reader_sees { length (member_of self.old).work.made ≤ slice_index (scan_of_reader reader.new).seen
            (index_of self.old) }
        ensures worker_sees { Below (scan_of_reader reader.old).seen (scan_by self.new).seen }
    {
        self.lend_to(board, reader);
        self.take_back(board, reader);
    }

    // One operation by a handle that has the id of this registry; 16 where that is not the board's. `inc` and `observe` do the
    // same each for itself, so that the compiler makes of each an update of its own operation alone.
    fn count(&mut self, board: &Board<N, C, H, G>, registry: u64, op: Op) -> Result<(), CountFault>
        requires of_board { IsWorkerOf board.now self.old }
        ensures of_board { IsWorkerOf board.now self.new }
        ensures index { index_of self.new ≡ index_of self.old }
        ensures counted { OnOk result (IsCounted (board_id board.now) registry op self.old self.new) }
        ensures fault { IfErr result (IsCountFault C H G (board_id board.now) registry op (member_of self.old)) }
        ensures unchanged { OnErr result (self.new ≡ self.old) }
    {
        if registry != board.id() {
            return Err(CountFault::WrongRegistry);
        }
        match self.apply(board, &[op]) {
            Ok(()) => Ok(()),
            Err(fault) => Err(CountFault::Apply(fault)),
        }
    }
}

// The memory of a worker, of zeros.
fn new_memory<const N: usize, const C: usize, const H: usize, const G: usize>(
    alloc: Global,
) -> Result<(Box<Row<C, H, G>>, ScanMemory<N, C, H, G>, BufferImages), AllocError>
    requires { IsGeometry N C H G }
    ensures row { IfOk result (λ r. r.0.value ≡ replicate (width C H G) 0) }
    ensures rows { IfOk result (λ r. rows_of r.1 ≡ replicate N (record { number = 0; row = replicate (width C H G) 0 })) }
    ensures images { IfOk result (λ r. AreBlank (depth N (width C H G)) r.2) }
{
    let row = Box::new(alloc, Row::new())?;
    let memory = ScanMemory::new(alloc)?;
    let images = BufferImages::new(alloc, buffer_words(N, C, H, G))?;
    Ok((row, memory, images))
}
