//! A reader: what a scraper scans with.
ghost use Rattle.std.specs.Prelude.{◌≡◌, ◌<◌, length};
ghost use Rattle.register_rule.specs.declared.view.Who.TheVariants.{Reader};
ghost use Rattle.register_rule.specs.Members.{first_of};
ghost use Rattle.register_rule.specs.Seats.{members_of};
ghost use Rattle.snapshot_scan.specs.Shape.{scan_in};
ghost use Rattle.snapshot_scan.specs.ScanMemories.{IsReady};
ghost use Rattle.snapshot_scan.specs.Moments.{AreMoments};
ghost use Rattle.snapshot_scan.specs.Lent.{NoneIsReader, behind, HasSeen};

use crate::contended::Contended;
use crate::no_memory_for_seat::NoMemoryForSeat;
use crate::scan_memory::ScanMemory;
use crate::snapshot::Snapshot;
use register_rule::{Board, Bundle, ReadSeat, Who};
use std::alloc::Global;

/// What a scraper scans with: a reader's seat, and what its scans remember. Workers that are lent to it are members of its
/// seat, behind the reader itself.
pub struct Reader<const N: usize, const C: usize, const H: usize, const G: usize> {
    pub(crate) bundle: Bundle,
    pub(crate) index: usize,
    pub(crate) memory: ScanMemory<N, C, H, G>,
    ghost leads: { 0 < length (members_of bundle) },
    ghost is: { (first_of (members_of bundle)).who ≡ Reader index },
    ghost ready: { IsReady (scan_in bundle) memory },
    ghost lent: { NoneIsReader (behind (members_of bundle)) },
    ghost seen: { HasSeen (members_of bundle) },
    pub ghost moments: { AreMoments N C H G (scan_in bundle).recorded },
}

impl<const N: usize, const C: usize, const H: usize, const G: usize> Drop for Reader<N, C, H, G> {
    fn drop(self) {
        let Reader {
            bundle: _,
            index: _,
            memory: _,
        } = self;
    }
}

impl<const N: usize, const C: usize, const H: usize, const G: usize> Reader<N, C, H, G> {
    ghost use Rattle.std.specs.Prelude.{◌≡◌, slice_index, IfOk, IfErr, OnOk, OnErr, IsOk, [], ◌∷◌, ◌++◌};
    ghost use Rattle.ledger_core.specs.Ops.{width};
    ghost use Rattle.ledger_core.specs.Legal.{IsLegal};
    ghost use Rattle.segment_layout.specs.Layout.{IsGeometry};
    ghost use Rattle.register_rule.specs.declared.view.Who.TheVariants as Who;
    ghost use Rattle.register_rule.specs.Members.{fresh_scan, met, picked, without};
    ghost use Rattle.register_rule.specs.Seats.{read_bundle, reader_of, members_of, IsSeatOf};
    ghost use Rattle.snapshot_core.specs.declared.next.Next.TheVariants as Next;
    ghost use Rattle.snapshot_scan.specs.Shape.{with_scan, IsRuled};
    ghost use Rattle.snapshot_scan.specs.Scanned.{IsAnswered};
    ghost use Rattle.snapshot_scan.specs.Contention.{IsContended};
    ghost use Rattle.snapshot_scan.specs.Core.{CameTo, AnswersBy};
    ghost use Rattle.snapshot_scan.specs.Snapshots.{as_answer};
    ghost use Rattle.snapshot_scan.specs.Lent.{AllWorkersAmong, HasNumbers, StayLent, IsWorkerAlone};
    ghost use Rattle.register_rule.specs.declared.view.Answer.{Answer};
    ghost use Rattle.snapshot_scan.specs.Order.{HasRecorded, IsAlone};
    ghost use Rattle.snapshot_scan.specs.Readers.{bundle_of, members_with, scan_by, index_of, IsReaderOf};
    ghost use Rattle.register_rule.specs.declared.view.Member.{Member};

    /// A reader of a seat that has made no step since its board was made. All memory that its scans need is taken here.
    ///
    /// # Errors
    ///
    /// 6 [`NoMemoryForSeat`], with the seat.
    pub fn new(
        alloc: Global,
        seat: ReadSeat,
    ) -> Result<Reader<N, C, H, G>, NoMemoryForSeat<ReadSeat>>
        requires geometry { IsGeometry N C H G }
        requires fresh { (reader_of seat).scan ≡ fresh_scan N (width C H G) }
        ensures same { IfOk result (λ r. bundle_of r ≡ read_bundle seat) }
        ensures index { IfOk result (λ r. (reader_of seat).who ≡ Who.Reader (index_of r)) }
        ensures alone { IfOk result IsAlone }
        ensures back { IfErr result (λ e. e.seat ≡ seat) }
    {
        let Ok(memory) = ScanMemory::new(alloc) else {
            return Err(NoMemoryForSeat { seat });
        };
        let index = seat.reader();
        Ok(Reader {
            bundle: seat.into_bundle(),
            index,
            memory,
        })
    }

    /// A scan: all segments at one moment, written to `out`. It takes no memory and waits for nobody. Where its first try failed,
    /// the workers are asked to rest ([`Board::hush`]).
    ///
    /// The vector of `out` is not below the first `N` numbers that the scan loads, nor below what the reader has seen before.
    /// After Ok `out` is the last entry of what the reader has recorded, and all segments at one moment. By the board's rule its
    /// vector is comparable with every one that any scan of this board records; this call tells so of the reader's own alone.
    ///
    /// A worker that is lent to the reader cannot publish: the vector has its number, and the totals all that it has counted; and
    /// it stays lent. A scan for which all workers are lent is always Ok.
    ///
    /// # Errors
    ///
    /// 14 [`Contended`]: in each of `N` + 2 tries some worker's number rose, and nobody lent a view that is new enough.
    /// `out` is unchanged.
    pub fn scan(
        &mut self,
        board: &Board<N, C, H, G>,
        out: &mut Snapshot<N, C, H, G>,
    ) -> Result<(), Contended>
        requires of_board { IsReaderOf board.now self.old }
        ensures of_board { IsReaderOf board.now self.new }
        ensures index { index_of self.new ≡ index_of self.old }
        ensures others { members_with self.new ≡ with_scan (scan_by self.new) (members_with self.old) }
        ensures ruled { IsRuled N C H G (bundle_of self.new) }
        ensures answered { OnOk result (IsAnswered N (scan_by self.old) (scan_by self.new) (as_answer out.new)) }
        ensures found { OnOk result (HasRecorded self.new (as_answer out.new)) }
        ensures still { (a : Answer) → HasRecorded self.old a → HasRecorded self.new a }
        ensures alone { IsAlone self.old → IsAlone self.new }
        ensures stay { StayLent (members_with self.old) (members_with self.new) }
        ensures lent { OnOk result (HasNumbers (members_with self.old) out.new.vector) }
        ensures gathered { AllWorkersAmong N (members_with self.old) → IsOk result }
        ensures answers { OnOk result (AnswersBy N (width C H G) (scan_by self.old) (scan_by self.new) (as_answer out.new)) }
        ensures legal { OnOk result (IsLegal C H (slice_index out.new.totals)) }
        ensures contended { IfErr result (IsContended N (scan_by self.old) (scan_by self.new)) }
        ensures came_up { IfErr result
            (λ e. CameTo N (width C H G) (scan_by self.old) (scan_by self.new) (Next.GaveUp e.worker e.first e.last)) }
        ensures unchanged { OnErr result (out.new ≡ out.old) }
    {
        self.memory.scan_to(board, &mut self.bundle, out)
    }

    /// Joins the seat of one worker into the reader's, behind those that are lent already, by one load: all of them have then
    /// seen what any of them has seen or made. A worker lends itself by its own call.
    pub fn admit(&mut self, board: &Board<N, C, H, G>, worker: Bundle)
        requires of_board { IsReaderOf board.now self.old × IsSeatOf board.now worker }
        requires alone { IsWorkerAlone (members_of worker) }
        ensures of_board { IsReaderOf board.now self.new }
        ensures index { index_of self.new ≡ index_of self.old }
        ensures met { members_with self.new ≡ met (members_with self.old ++ members_of worker) }
    {
        board.join(&mut self.bundle, worker);
    }

    /// Parts the seat of a worker that is lent to the reader from it, by one load.
    pub fn release(&mut self, board: &Board<N, C, H, G>, worker: usize) -> Bundle
        requires of_board { IsReaderOf board.now self.old }
        requires there { (m : Member) × (picked (Who.Worker worker) (members_with self.old) ≡ m ∷ []) }
        ensures of_board { IsReaderOf board.now self.new × IsSeatOf board.now result }
        ensures index { index_of self.new ≡ index_of self.old }
        ensures others { members_with self.new ≡ without (Who.Worker worker) (members_with self.old) }
        ensures one { members_of result ≡ picked (Who.Worker worker) (members_with self.old) }
    {
        board.part(&mut self.bundle, Who::Worker(worker))
    }

    /// One load that changes nothing, and tells all that the rule says of the reader and of the workers that are lent to it.
    pub fn tell(&mut self, board: &Board<N, C, H, G>)
        requires of_board { IsReaderOf board.now self.old }
        ensures of_board { IsReaderOf board.now self.new }
        ensures index { index_of self.new ≡ index_of self.old }
        ensures same { members_with self.new ≡ members_with self.old }
        ensures ruled { IsRuled N C H G (bundle_of self.new) }
    {
        let _number = board.tell(&mut self.bundle, 0);
    }
}
