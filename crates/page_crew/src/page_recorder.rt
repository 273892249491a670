//! What a thread counts with on all boards of a page.
ghost use Rattle.std.specs.Prelude.{◌≡◌, ◌≢◌, ◌+◌, ◌<◌, ◌≤◌, length, slice_get, vec_capacity, All, IfErr, IfOk, IsSomeAnd};
ghost use Rattle.std.specs.Prelude.{MatchOption, OnOk};
ghost use Rattle.bucket_math.specs.Bounds.{place_of};
ghost use Rattle.ledger_core.specs.declared.op.Op.TheVariants.{Inc, Observe, Up, Down};
ghost use Rattle.page_crew.specs.Shared.{id_in};
ghost use Rattle.rtrb.specs.Ring.{received};
ghost use Rattle.page_crew.specs.Counting.{AreInRow, AreTaken};
ghost use Rattle.std.proofs.Props.{props};

use crate::count::Count;
use crate::shared_recorder::SharedRecorder;
use ledger_core::{Counter, Gauge, Histogram, Op};
use rtrb::Consumer;
use snapshot_update::CountFault;
use std::alloc::{AllocError, Global};

/// The most boards of a page.
const MOST: usize = 96;

/// What a thread counts with on a page: its worker of each board. It may move to a thread of its own. Its calls take no lock and
/// no memory, and wait for nobody: their steps are bounded whatever others do. Where a scrape has failed to read once, a call
/// that publishes may rest first, some tens of microseconds at most ([`register_rule::Board::rest_if_hushed`]). A board that came
/// to the page after this was made is met at the first call by a handle of it.
pub struct PageRecorder<const N: usize, const C: usize, const H: usize, const G: usize> {
    first: u64,
    recorders: Vec<SharedRecorder<N, C, H, G>>,
    more: Consumer<SharedRecorder<N, C, H, G>>,
    ghost ids: { AreInRow first recorders.items },
    ghost low: { first + 96 < 18446744073709551616 },
    ghost few: { length recorders.items ≤ 96 },
    ghost room: { 96 ≤ vec_capacity recorders },
    ghost taken: { AreTaken (received more) recorders.items } by { Prim.hlevel props },
}

impl<const N: usize, const C: usize, const H: usize, const G: usize> Drop
    for PageRecorder<N, C, H, G> {
    fn drop(self) {
        let PageRecorder {
            first: _,
            recorders: _,
            more: _,
        } = self;
    }
}

impl<const N: usize, const C: usize, const H: usize, const G: usize> PageRecorder<N, C, H, G> {
    ghost use Rattle.std.specs.Prelude.{List, [], ◌∷◌, ◌++◌};
    ghost use Rattle.rtrb.specs.Ring.{SameConsumer};
    ghost use Rattle.page_crew.specs.Held.{recorders_of, first_of, feed_of, HasNone};
    ghost use Rattle.page_crew.specs.Counting.{IsPublishedOn, IsRefusedOn, registry_of, op_of};
    ghost use Rattle.page_crew.specs.Settling.{CountsWith};
    ghost use Rattle.page_crew.specs.declared.shared_recorder.SharedRecorder.{SharedRecorder};

    /// That of a page whose first board has this id. It gets its worker of each board by this ring, and its room is made here:
    /// for all boards that a page can have.
    ///
    /// Refusal 6 [`AllocError`], and no other.
    pub(crate) fn new(
        alloc: Global,
        first: u64,
        more: Consumer<SharedRecorder<N, C, H, G>>,
    ) -> Result<PageRecorder<N, C, H, G>, AllocError>
        requires low { first + 96 < 18446744073709551616 }
        requires fresh { received more ≡ [] }
        ensures none { IfOk result (HasNone first) }
        ensures feed { IfOk result (λ r. feed_of r ≡ more.entry) }
    {
        let recorders = Vec::with_capacity(alloc, MOST)?;
        Ok(PageRecorder {
            first,
            recorders,
            more,
        })
    }

    /// The id of the page's first board; those of the others follow it.
    pub fn first(&self) -> u64
        ensures { result ≡ first_of self.now }
    {
        self.first
    }

    /// Its recorder of each board that it knows, in the order of the boards' ids: of those that it had after its last call.
    pub fn recorders(&self) -> &[SharedRecorder<N, C, H, G>]
        ensures recorders { result.now ≡ recorders_of self.now }
        ensures ids { AreInRow (first_of self.now) result.now }
        ensures taken { AreTaken (received (feed_of self.now)) result.now }
    {
        &self.recorders
    }

    /// Takes the workers of boards that came since, and answers how many boards it has now.
    pub fn join(&mut self) -> usize
        ensures count { result ≡ length (recorders_of self.new) }
        ensures joined { (came : List (SharedRecorder N C H G)) × (recorders_of self.new ≡ recorders_of self.old ++ came) }
        ensures first { first_of self.new ≡ first_of self.old }
        ensures feed { SameConsumer (feed_of self.old) (feed_of self.new) }
    {
        for _more in self.recorders.len()..MOST {
            if self.more.is_empty() {
                break;
            }
            // A worker of another board stays in the ring.
            if self.more.peek_known().id() != self.first + self.recorders.len() as u64 {
                break;
            }
            self.recorders.push_reserved(self.more.pop_known());
        }
        self.recorders.len()
    }

    // The place of the board of this id, among those that it knows.
    fn known_place(&self, id: u64) -> Option<usize>
        ensures { MatchOption result (All (λ r. id_in r ≢ id) (recorders_of self.now))
            (λ place. IsSomeAnd (slice_get (recorders_of self.now) place) (λ r. id_in r ≡ id)) }
    {
        if id < self.first {
            return None;
        }
        let place = id - self.first;
        if place < self.recorders.len() as u64 {
            return Some(place as usize);
        }
        None
    }

    // Its recorder of the board of this id, if it knows the board.
    pub(crate) fn recorder_on(&self, board: u64) -> Option<&SharedRecorder<N, C, H, G>>
        ensures { MatchOption result (All (λ r. id_in r ≢ board) (recorders_of self.now)) (λ r. CountsWith board self.now r.now) }
    {
        match self.known_place(board) {
            Some(place) => Some(&self.recorders[place]),
            None => None,
        }
    }

    // The place of the board of this id, also where it came since.
    fn find(&mut self, id: u64) -> Option<usize>
        ensures joined { (came : List (SharedRecorder N C H G)) × (recorders_of self.new ≡ recorders_of self.old ++ came) }
        ensures place { MatchOption result (All (λ r. id_in r ≢ id) (recorders_of self.new))
            (λ place. IsSomeAnd (slice_get (recorders_of self.new) place) (λ r. id_in r ≡ id)) }
        ensures first { first_of self.new ≡ first_of self.old }
        ensures feed { SameConsumer (feed_of self.old) (feed_of self.new) }
    {
        if let Some(place) = self.known_place(id) {
            return Some(place);
        }
        let _boards = self.join();
        self.known_place(id)
    }

    /// Publishes these operations, which are by handles of the board of this id, as one version: all of them or nothing.
    /// [`snapshot_update::Worker::apply`].
    ///
    /// # Errors
    ///
    /// 16 [`CountFault::WrongRegistry`], no board that it knows has this id, also after it looked for boards that came; then
    /// [`CountFault::Apply`]: 15, the worker has published 2^64 - 1 times on this board; 11, a slot is none of the board's; 12, a
    /// number would pass 2^48 - 1. No number has changed then.
    #[inline(always)]
    pub fn apply(&mut self, id: u64, ops: &[Op]) -> Result<(), CountFault>
        ensures published { OnOk result (IsPublishedOn id ops.now (recorders_of self.old) (recorders_of self.new)) }
        ensures fault { IfErr result (IsRefusedOn id ops.now (recorders_of self.old) (recorders_of self.new)) }
        ensures first { first_of self.new ≡ first_of self.old }
        ensures feed { SameConsumer (feed_of self.old) (feed_of self.new) }
    {
        let Some(place) = self.find(id) else {
            return Err(CountFault::WrongRegistry);
        };
        match self.recorders[place].apply(ops) {
            Ok(()) => Ok(()),
            Err(fault) => Err(CountFault::Apply(fault)),
        }
    }

    // Counts this on the board of its handle.
    #[inline(always)]
    fn count(&mut self, id: u64, what: Count) -> Result<(), CountFault>
        requires of_it { id ≡ registry_of what }
        ensures counted { OnOk result (IsPublishedOn id (op_of what.entry ∷ []) (recorders_of self.old) (recorders_of self.new)) }
        ensures fault { IfErr result (IsRefusedOn id (op_of what.entry ∷ []) (recorders_of self.old) (recorders_of self.new)) }
        ensures first { first_of self.new ≡ first_of self.old }
        ensures feed { SameConsumer (feed_of self.old) (feed_of self.new) }
    {
        let Some(place) = self.find(id) else {
            return Err(CountFault::WrongRegistry);
        };
        match self.recorders[place].count(what) {
            Ok(()) => Ok(()),
            Err(fault) => Err(fault),
        }
    }

    /// Adds `by` to a counter: one version of its board.
    ///
    /// # Errors
    ///
    /// 16, the counter is of no board that it knows; 15, 11 and 12 as [`PageRecorder::apply`].
    pub fn inc(&mut self, counter: &Counter, by: u64) -> Result<(), CountFault>
        ensures counted { OnOk result (IsPublishedOn counter.now.registry (Inc counter.now.slot by ∷ []) (recorders_of self.old)
            (recorders_of self.new)) }
        ensures fault { IfErr result (IsRefusedOn counter.now.registry (Inc counter.now.slot by ∷ []) (recorders_of self.old)
            (recorders_of self.new)) }
        ensures first { first_of self.new ≡ first_of self.old }
        ensures feed { SameConsumer (feed_of self.old) (feed_of self.new) }
    {
        self.count(counter.registry, Count::Inc(counter, by))
    }

    /// Adds 1 to a counter: [`PageRecorder::inc`].
    ///
    /// # Errors
    ///
    /// As [`PageRecorder::inc`].
    pub fn inc_one(&mut self, counter: &Counter) -> Result<(), CountFault>
        ensures counted { OnOk result (IsPublishedOn counter.now.registry (Inc counter.now.slot 1 ∷ []) (recorders_of self.old)
            (recorders_of self.new)) }
        ensures fault { IfErr result (IsRefusedOn counter.now.registry (Inc counter.now.slot 1 ∷ []) (recorders_of self.old)
            (recorders_of self.new)) }
        ensures first { first_of self.new ≡ first_of self.old }
        ensures feed { SameConsumer (feed_of self.old) (feed_of self.new) }
    {
        self.inc(counter, 1)
    }

    /// Counts a value of a histogram: its bucket, the sum and the count rise in one version of its board.
    ///
    /// # Errors
    ///
    /// As [`PageRecorder::inc`].
    pub fn observe(&mut self, hist: &Histogram, value: u64) -> Result<(), CountFault>
        ensures counted { OnOk result (IsPublishedOn hist.now.registry
            (Observe hist.now.slot (place_of hist.now.bounds value) value ∷ []) (recorders_of self.old) (recorders_of self.new)) }
        ensures fault { IfErr result (IsRefusedOn hist.now.registry
            (Observe hist.now.slot (place_of hist.now.bounds value) value ∷ []) (recorders_of self.old) (recorders_of self.new)) }
        ensures first { first_of self.new ≡ first_of self.old }
        ensures feed { SameConsumer (feed_of self.old) (feed_of self.new) }
    {
        self.count(hist.registry, Count::Observe(hist, value))
    }

    /// Raises a gauge by `by`: one version of its board.
    ///
    /// # Errors
    ///
    /// As [`PageRecorder::inc`].
    pub fn up(&mut self, gauge: &Gauge, by: u64) -> Result<(), CountFault>
        ensures counted { OnOk result (IsPublishedOn gauge.now.registry (Up gauge.now.slot by ∷ []) (recorders_of self.old)
            (recorders_of self.new)) }
        ensures fault { IfErr result (IsRefusedOn gauge.now.registry (Up gauge.now.slot by ∷ []) (recorders_of self.old)
            (recorders_of self.new)) }
        ensures first { first_of self.new ≡ first_of self.old }
        ensures feed { SameConsumer (feed_of self.old) (feed_of self.new) }
    {
        self.count(gauge.registry, Count::Up(gauge, by))
    }

    /// Lowers a gauge by `by`: one version of its board.
    ///
    /// # Errors
    ///
    /// As [`PageRecorder::inc`].
    pub fn down(&mut self, gauge: &Gauge, by: u64) -> Result<(), CountFault>
        ensures counted { OnOk result (IsPublishedOn gauge.now.registry (Down gauge.now.slot by ∷ []) (recorders_of self.old)
            (recorders_of self.new)) }
        ensures fault { IfErr result (IsRefusedOn gauge.now.registry (Down gauge.now.slot by ∷ []) (recorders_of self.old)
            (recorders_of self.new)) }
        ensures first { first_of self.new ≡ first_of self.old }
        ensures feed { SameConsumer (feed_of self.old) (feed_of self.new) }
    {
        self.count(gauge.registry, Count::Down(gauge, by))
    }
}
