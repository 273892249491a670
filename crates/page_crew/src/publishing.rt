//! Several changes, and what a tally has, as one version of a board.
ghost use Rattle.std.specs.Prelude.{◌≡◌, [], IfErr, OnErr, OnOk};

use crate::change::Change;
use crate::fault::PublishFault;
use crate::listing::{are_of, ops_of};
use crate::page_recorder::PageRecorder;
use ledger_core::Tally;
use snapshot_update::CountFault;

impl<const N: usize, const C: usize, const H: usize, const G: usize> PageRecorder<N, C, H, G> {
    ghost use Rattle.rtrb.specs.Ring.{SameConsumer};
    ghost use Rattle.page_crew.specs.Held.{recorders_of, first_of, feed_of};
    ghost use Rattle.page_crew.specs.Publishing.{ArePublishedOn, IsPublishRefused, IsFlushedOn, IsFlushRefused};

    /// Publishes these changes, which are by handles of one board, as one version of it, all of them or nothing: no scrape sees
    /// some of them alone. Of no changes nothing is published.
    ///
    /// # Errors
    ///
    /// 47 [`PublishFault::TwoBoards`], they are by handles of two boards; then [`PublishFault::Count`]: 16, no board that it
    /// knows has their id, also after it looked for boards that came; 15, or 11 or 12 of the first change that fails, with its
    /// place. No number has changed then.
    #[inline(always)]
    pub fn publish<const K: usize>(&mut self, changes: &[Change; K]) -> Result<(), PublishFault>
        ensures published { OnOk result (ArePublishedOn changes.now (recorders_of self.old) (recorders_of self.new)) }
        ensures fault { IfErr result (IsPublishRefused changes.now (recorders_of self.old) (recorders_of self.new)) }
        ensures first { first_of self.new ≡ first_of self.old }
        ensures feed { SameConsumer (feed_of self.old) (feed_of self.new) }
    {
        if K == 0 {
            return Ok(());
        }
        let id = changes[0].registry;
        if !are_of(id, changes) {
            return Err(PublishFault::TwoBoards);
        }
        match self.apply(id, &ops_of(changes)) {
            Ok(()) => Ok(()),
            Err(fault) => Err(PublishFault::Count(fault)),
        }
    }

    /// An empty tally for handles of the board of this id, the id in a handle, with room for `K` operations, and for 65,536 at
    /// most. What it has is published as one version, so it is of one board; another board's handle it refuses (16).
    pub fn tally<const K: usize>(&self, board: u64) -> Tally<C, H, G, K>
        ensures registry { result.registry ≡ board }
        ensures empty { result.ops ≡ [] }
    {
        Tally::new(board)
    }

    /// Publishes what a tally has counted as one version of its board, all of it or nothing: no scrape sees some of it alone. The
    /// tally is empty then.
    ///
    /// # Errors
    ///
    /// 16 [`CountFault::WrongRegistry`], no board that it knows has the tally's id, also after it looked for boards that came;
    /// then [`CountFault::Apply`]: 15, the worker has published 2^64 - 1 times on this board; 12, a number would pass 2^48 - 1.
    /// No number has changed then, and the tally has what it had.
    pub fn flush<const K: usize>(&mut self, tally: &mut Tally<C, H, G, K>) -> Result<(), CountFault>
        ensures flushed { OnOk result (IsFlushedOn tally.old (recorders_of self.old) (recorders_of self.new)) }
        ensures emptied { OnOk result (tally.new.ops ≡ []) }
        ensures registry { tally.new.registry ≡ tally.old.registry }
        ensures fault { IfErr result (IsFlushRefused tally.old (recorders_of self.old) (recorders_of self.new)) }
        ensures kept { OnErr result (tally.new ≡ tally.old) }
        ensures first { first_of self.new ≡ first_of self.old }
        ensures feed { SameConsumer (feed_of self.old) (feed_of self.new) }
    {
        match self.apply(tally.registry(), tally.ops()) {
            Ok(()) => {
                tally.clear();
                Ok(())
            }
            Err(fault) => Err(fault),
        }
    }
}
