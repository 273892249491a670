//! The tries of a scan.

use crate::asks::ask_all;
use crate::first_collect::collect;
use crate::scan_end::ScanEnd;
use crate::scan_memory::ScanMemory;
use crate::second_collect::confirm;
use crate::try_end::TryEnd;
use register_rule::{Board, ScanSeat};

impl<const N: usize, const C: usize, const H: usize, const G: usize> ScanMemory<N, C, H, G> {
    ghost use Rattle.std.specs.Prelude.{◌≡◌, ℕ, ◌<◌, ◌++◌, Bool, true, false, List};
    ghost use Rattle.ledger_core.specs.Ops.{width};
    ghost use Rattle.register_rule.specs.declared.seats.Bundle.{Bundle};
    ghost use Rattle.register_rule.specs.Seats.{table_of, members_of, MayScan};
    ghost use Rattle.snapshot_core.specs.declared.next.Next.TheVariants as Next;
    ghost use Rattle.snapshot_scan.specs.declared.contended.Contended.{Contended};
    ghost use Rattle.snapshot_scan.specs.declared.remembered_row.RememberedRow.{RememberedRow};
    ghost use Rattle.snapshot_scan.specs.declared.scan_end.ScanEnd.TheVariants as ScanEnd;
    ghost use Rattle.snapshot_scan.specs.Shape.{scan_in, with_scan, IsRuled};
    ghost use Rattle.snapshot_scan.specs.RememberedRows.{AreNumbers, pairs};
    ghost use Rattle.snapshot_scan.specs.Contention.{IsFirstMoved};
    ghost use Rattle.snapshot_scan.specs.Scanned.{IsAnswered, HasMoved, IsGivenUp};
    ghost use Rattle.snapshot_scan.specs.Core.{CameTo, AnswersBy};
    ghost use Rattle.snapshot_scan.specs.ScanMemories.{rows_of, totals_in, opened_in, found_in, changed_totals_in, answer_of};
    ghost use Rattle.snapshot_scan.specs.ScanMemories.{HasView, IsReady};
    ghost use Rattle.snapshot_scan.specs.ChangedItems.{Lists};
    ghost use Rattle.snapshot_scan.specs.TryEnds.{found_by};
    ghost use Rattle.snapshot_scan.specs.Conditions.{MayTry, HasTried, HasFailedOnce, HasEnded};

    // A try of a scan. Where the totals change is listed in `changed_totals`, too. `found` is written where the try is not clean.
    #[inline(always)]
    fn one_try<S: ScanSeat<N, C, H, G>>(
        &mut self,
        board: &Board<N, C, H, G>,
        seat: &mut S,
    ) -> TryEnd
        requires may { MayTry board.now (S.bundle seat.old) self.old.remembered.items self.old.opened.items }
        ensures { HasTried N C H G (S.bundle seat.old) (S.bundle seat.new) self.old.remembered.items self.new.remembered.items
            self.old.totals.items self.new.totals.items self.new.opened.items
            (found_by result self.new.opened.items self.new.found.items) self.old.changed_totals self.new.changed_totals result }
    {
        let remembered = self.remembered.as_mut_slice();
        let opened = self.opened.as_mut_slice();
        let known = collect(board, seat, remembered, opened);
        let clean = confirm(
            board,
            seat,
            remembered,
            self.totals.as_mut_slice(),
            opened,
            self.found.as_mut_slice(),
            &mut self.changed_totals,
            known,
        );
        TryEnd::of(clean, known)
    }

    // The later tries of a scan, at most `N` + 1, after a first one that was not clean, whose numbers are the floor and the base
    // of the scan. After each that fails, workers are asked until one lends; where none does, a scan that `hushes` asks all anew
    // to rest. A function of its own, so that a quiet scan has no more code and memory than it needs.
    #[inline(never)]
    fn later_tries<S: ScanSeat<N, C, H, G>>(
        &mut self,
        board: &Board<N, C, H, G>,
        seat: &mut S,
        hushes: bool,
    ) -> ScanEnd
        requires failed { (s : Bundle) × (gs : List RememberedRow) × (sums : List ℕ) × HasFailedOnce board.now s
            (S.bundle seat.old) gs self.old.remembered.items sums self.old.totals.items self.old.opened.items
            self.old.found.items self.old.changed_totals }
        ensures { (s : Bundle) (gs : List RememberedRow) (sums : List ℕ)
            → HasFailedOnce board.now s (S.bundle seat.old) gs self.old.remembered.items sums self.old.totals.items
            self.old.opened.items self.old.found.items self.old.changed_totals
            → HasEnded N C H G s (S.bundle seat.new) gs self.new.remembered.items sums self.new.totals.items
            self.new.opened.items self.new.found.items self.new.lent.items self.new.changed_totals result }
    {
        let mut floor = [0; N];
        floor.copy_from_slice(self.opened.as_slice());
        let mut base = [0; N];
        base.copy_from_slice(self.found.as_slice());
        let row = self.totals.len();
        for _k in 0..N + 1 {
            let tried = self.one_try(board, seat);
            let clean = tried.is_clean();
            if clean {
                return ScanEnd::Direct { quiet: false };
            }
            let lent = self.lent.as_mut_slice();
            let lends = ask_all(board, seat, row, &floor, &base, self.found.as_slice(), lent);
            if lends {
                return ScanEnd::Lent;
            }
            hush_anew(board, hushes);
        }
        ScanEnd::GaveUp
    }

    /// A scan of at most `N` + 2 tries, which takes no memory and waits for nobody. Where it changes the sums of the remembered
    /// rows is listed ([`ScanMemory::changed_totals`]). One that `hushes` asks the workers to rest from its first failed try on
    /// to its end ([`Board::hush`]); the scan of an update asks for nothing.
    #[inline(always)]
    pub fn scan<S: ScanSeat<N, C, H, G>>(
        &mut self,
        board: &Board<N, C, H, G>,
        seat: &mut S,
        hushes: bool,
    ) -> ScanEnd
        requires of_board { MayScan board.now (S.bundle seat.old) }
        requires ready { IsReady (scan_in (S.bundle seat.old)) self.old }
        ensures table { table_of (S.bundle seat.new) ≡ table_of (S.bundle seat.old) }
        ensures ruled { IsRuled N C H G (S.bundle seat.new) }
        ensures others { members_of (S.bundle seat.new) ≡ with_scan (scan_in (S.bundle seat.new))
            (members_of (S.bundle seat.old)) }
        ensures ready { IsReady (scan_in (S.bundle seat.new)) self.new }
        ensures answered { HasView result → IsAnswered N (scan_in (S.bundle seat.old)) (scan_in (S.bundle seat.new))
            (answer_of self.new result) }
        ensures answers { HasView result → AnswersBy N (width C H G) (scan_in (S.bundle seat.old)) (scan_in (S.bundle seat.new))
            (answer_of self.new result) }
        ensures quiet { result ≡ ScanEnd.Direct true → (rows_of self.new ≡ rows_of self.old)
            × (totals_in self.new ≡ totals_in self.old) × AreNumbers (opened_in self.new) (rows_of self.new) }
        ensures once { result ≡ ScanEnd.Direct true → (scan_in (S.bundle seat.new)).opened ≡ (scan_in (S.bundle seat.old)).opened
            ++ pairs 0 (opened_in self.new) }
        ensures moved { result ≡ ScanEnd.Direct false → HasMoved N (rows_of self.old) (scan_in (S.bundle seat.old))
            (scan_in (S.bundle seat.new)) }
        ensures numbers { (q : Bool) → result ≡ ScanEnd.Direct q → AreNumbers (opened_in self.new) (rows_of self.new) }
        ensures listed { Lists (width C H G) (totals_in self.old) (totals_in self.new) (changed_totals_in self.new) }
        ensures gave_up { result ≡ ScanEnd.GaveUp → IsGivenUp N (scan_in (S.bundle seat.old)) (scan_in (S.bundle seat.new))
            (opened_in self.new) (found_in self.new) }
        ensures came_up { result ≡ ScanEnd.GaveUp → (e : Contended) → IsFirstMoved (opened_in self.new) (found_in self.new) e
            → CameTo N (width C H G) (scan_in (S.bundle seat.old)) (scan_in (S.bundle seat.new))
            (Next.GaveUp e.worker e.first e.last) }
    {
        self.changed_totals.clear();
        let tried = self.one_try(board, seat);
        let clean = tried.is_clean();
        if clean {
            return ScanEnd::Direct {
                quiet: tried.is_quiet(),
            };
        }
        hush(board, hushes);
        let ended = self.later_tries(board, seat, hushes);
        end_hush(board, hushes);
        ended
    }
}

// A scan that `hushes` asks the workers to rest. This and the next two are functions of their own, so that what is known of the
// try before is known behind them, too.
fn hush<const N: usize, const C: usize, const H: usize, const G: usize>(
    board: &Board<N, C, H, G>,
    hushes: bool,
) {
    if hushes {
        board.hush();
    }
}

// It asks anew.
fn hush_anew<const N: usize, const C: usize, const H: usize, const G: usize>(
    board: &Board<N, C, H, G>,
    hushes: bool,
) {
    if hushes {
        board.hush_anew();
    }
}

// It has ended.
fn end_hush<const N: usize, const C: usize, const H: usize, const G: usize>(
    board: &Board<N, C, H, G>,
    hushes: bool,
) {
    if hushes {
        board.end_hush();
    }
}
