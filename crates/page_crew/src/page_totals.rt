//! Exact totals of all recorders of a page, on all of its boards.
ghost use Rattle.std.specs.Prelude.{◌≡◌, ◌<◌, ◌+◌, ℕ, length, IfErr, IfOk, IfNone, IfSome};
ghost use Rattle.std.specs.List.{AllZip};
ghost use Rattle.segment_layout.specs.Layout.{IsGeometry};
ghost use Rattle.page_crew.specs.Settling.{AreAll, HasJoined, IsExactOn};

use crate::fault::SettleFault;
use crate::owner::PageCrew;
use crate::page_recorder::PageRecorder;
use crate::settling::{join_all, misplaced, settle_on};
use snapshot_scan::Snapshot;
use std::alloc::Global;

/// Exact totals of a page: a snapshot of each of its boards.
#[derive(Drop)]
pub struct PageTotals<const N: usize, const C: usize, const H: usize, const G: usize> {
    first: u64,
    boards: Vec<Snapshot<N, C, H, G>>,
}

impl<const N: usize, const C: usize, const H: usize, const G: usize> PageTotals<N, C, H, G> {
    ghost use Rattle.page_crew.specs.Totals.{HasBoard, IsOn};

    /// Those of the board of this id, the `registry` of a handle; None exactly where there are none of such a board: it is none
    /// of the page's, or came since.
    pub fn on(&self, board: u64) -> Option<&Snapshot<N, C, H, G>>
        ensures some { IfSome result (λ totals. IsOn board self.now totals.now) }
        ensures none { IfNone result (¬ (HasBoard board self.now)) }
    {
        if board < self.first {
            return None;
        }
        let number = board - self.first;
        if number < self.boards.len() as u64 {
            return Some(&self.boards[number as usize]);
        }
        None
    }
}

/// What these have published on the board of this id, of which all are there; None for want of memory.
fn totals_on<const N: usize, const C: usize, const H: usize, const G: usize>(
    alloc: Global,
    recorders: &[PageRecorder<N, C, H, G>],
    board: u64,
) -> Option<Snapshot<N, C, H, G>>
    requires size { IsGeometry N C H G }
    requires all { AreAll board recorders.now }
    ensures { IfSome result (IsExactOn board recorders.now) }
{
    let Ok(mut out) = Snapshot::new(alloc) else {
        return None;
    };
    settle_on(recorders, board, &mut out);
    Some(out)
}

impl<const N: usize, const C: usize, const H: usize, const G: usize> PageCrew<N, C, H, G> {
    ghost use Rattle.page_crew.specs.Owned.{first_of, page_of};
    ghost use Rattle.page_crew.specs.Totals.{AreExact, IsSettleFault};

    // Why there are no totals of these, where on some board of the page they are not all.
    fn not_all(&self, recorders: &[PageRecorder<N, C, H, G>]) -> Option<SettleFault>
        ensures some { IfSome result (IsSettleFault (first_of self.now) (length (page_of self.now).boards) recorders.now) }
        ensures none { IfNone result ((k : ℕ) → k < length (page_of self.now).boards → AreAll (first_of self.now + k)
            recorders.now) }
    {
        for number in 0..self.page.boards().len() {
            let board = self.first + number as u64;
            if let Some(missing) = misplaced(recorders, board) {
                return Some(SettleFault::NotAll { board, missing });
            }
        }
        None
    }

    /// Exact totals of all boards, for the end of a run whose numbers are a bill: of all recorders of this page, in the order in
    /// which [`PageCrew::new`] has handed them out. Each takes its workers of boards that came since first. It does not check
    /// that they are of this page, but by the ids of their boards. It scans nothing: while it is called, none of them publishes.
    ///
    /// After Ok there is a snapshot of each board, as of [`settle_board`](crate::settle_board): its vector is how often each
    /// recorder has published there, and each total is exactly the sum of all that they published there. What a tally has that
    /// was not flushed is not in it.
    ///
    /// # Errors
    ///
    /// 18 [`SettleFault::NotAll`], with the first board at which they are not all, and the least place there at which not the
    /// recorder of that worker is, or `N` where there is one too many; 6 [`SettleFault::NoMemory`], only where all are there on
    /// each board.
    pub fn settle(
        &self,
        recorders: &mut [PageRecorder<N, C, H, G>],
    ) -> Result<PageTotals<N, C, H, G>, SettleFault>
        ensures exact { IfOk result (AreExact (first_of self.now) (length (page_of self.now).boards) recorders.new) }
        ensures fault { IfErr result (IsSettleFault (first_of self.now) (length (page_of self.now).boards) recorders.new) }
        ensures joined { AllZip HasJoined recorders.old recorders.new }
    {
        join_all(recorders);
        if let Some(fault) = self.not_all(recorders) {
            return Err(fault);
        }
        let many = self.page.boards().len();
        let Ok(mut boards) = Vec::with_capacity(self.alloc, many) else {
            return Err(SettleFault::NoMemory);
        };
        for number in 0..many {
            match totals_on(self.alloc, recorders, self.first + number as u64) {
                Some(totals) => boards.push_reserved(totals),
                None => return Err(SettleFault::NoMemory),
            }
        }
        Ok(PageTotals {
            first: self.first,
            boards,
        })
    }
}
