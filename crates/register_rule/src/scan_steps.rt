//! The steps of a scan, which workers and readers make alike.
ghost use Rattle.std.specs.Prelude.{◌<◌, ◌≤◌};
ghost use Rattle.bucket_math.specs.Words.{greatest_word};
ghost use Rattle.ledger_core.specs.Ops.{width};
ghost use Rattle.segment_layout.specs.Layout.{depth};
ghost use Rattle.register_rule.specs.ScanSteps.{after, after_open, after_read, after_confirm, after_ask, after_end_ask};
ghost use Rattle.register_rule.specs.Told.{IsLoad, LoadTells, IsNumber};
ghost use Rattle.register_rule.specs.Seats.{members_of, MayScan};
ghost use Rattle.register_rule.specs.Told.{ScanChangesBy};

use crate::board::Board;
use crate::load::Load;
use crate::seats::{Bundle, ReadSeat, WorkSeat};

/// A seat that scans: that of a worker, of a reader, or of several members, where the first one scans.
pub trait ScanSeat<const N: usize, const C: usize, const H: usize, const G: usize>: Sized {
    ghost use Rattle.register_rule.specs.declared.seats.Bundle.{Bundle};

    ghost bundle: { Self → Bundle };

    /// One load of the scan, by the first member: the word that it found.
    fn load(&mut self, board: &Board<N, C, H, G>, what: Load) -> u64
        requires of_board { MayScan board.now (bundle self.old) }
        requires inside { IsLoad N (depth N (width C H G)) what }
        ensures learns { ScanChangesBy N C H G (after N (width C H G) what result) (bundle self.old) (bundle self.new) }
        ensures told { LoadTells (width C H G) what (members_of (bundle self.old)) result };
}

impl<const N: usize, const C: usize, const H: usize, const G: usize> ScanSeat<N, C, H, G>
    for Bundle {
    ghost bundle = { λ s. s };

    #[inline]
    fn load(&mut self, board: &Board<N, C, H, G>, what: Load) -> u64 {
        board.load(self, what)
    }
}

impl<const N: usize, const C: usize, const H: usize, const G: usize> ScanSeat<N, C, H, G>
    for WorkSeat {
    ghost bundle = { λ s. s.bundle };

    #[inline]
    fn load(&mut self, board: &Board<N, C, H, G>, what: Load) -> u64 {
        board.load(&mut self.bundle, what)
    }
}

impl<const N: usize, const C: usize, const H: usize, const G: usize> ScanSeat<N, C, H, G>
    for ReadSeat {
    ghost bundle = { λ s. s.bundle };

    #[inline]
    fn load(&mut self, board: &Board<N, C, H, G>, what: Load) -> u64 {
        board.load(&mut self.bundle, what)
    }
}

impl<const N: usize, const C: usize, const H: usize, const G: usize> Board<N, C, H, G> {
    /// The opening load of a place, that of a worker's segment, from 0: its number, which is at least each number found
    /// there before.
    ///
    /// Where it is the next place of a try in which nothing is confirmed yet, and nobody is still to be asked, the try has it
    /// then. Where the row that is remembered of this segment has this number, its words need not be read.
    #[inline]
    pub fn open<S: ScanSeat<N, C, H, G>>(&self, seat: &mut S, place: usize) -> u64
        requires of_board { MayScan self.now (S.bundle seat.old) }
        requires inside { place < N }
        ensures learns { ScanChangesBy N C H G (after_open place result) (S.bundle seat.old) (S.bundle seat.new) }
        ensures told { IsNumber place (members_of (S.bundle seat.old)) result }
    {
        seat.load(self, Load::Open { place })
    }

    /// Loads the item `item` of the buffer that the number `number` of a segment shows, counted as in
    /// [`Board::fill_word`]. A word of a row is at most 2^48 - 1. As long as the number is not confirmed it may be a word
    /// of a later version.
    #[inline]
    pub fn read_word<S: ScanSeat<N, C, H, G>>(
        &self,
        seat: &mut S,
        place: usize,
        number: u64,
        item: usize,
    ) -> u64
        requires of_board { MayScan self.now (S.bundle seat.old) }
        requires inside { (place < N) × (item < depth N (width C H G)) }
        ensures learns { ScanChangesBy N C H G (after_read (width C H G) place number item result) (S.bundle seat.old)
            (S.bundle seat.new) }
        ensures bounded { item < width C H G → result ≤ greatest_word }
    {
        seat.load(
            self,
            Load::Read {
                place,
                number,
                item,
            },
        )
    }

    /// The confirming load of a place: its number, which is at least the one that was opened. That of the last place
    /// ends the try: with an answer, where each row was read and each number found again, and else with the workers to be
    /// asked, the next try, or the end of the scan.
    #[inline]
    pub fn confirm<S: ScanSeat<N, C, H, G>>(&self, seat: &mut S, place: usize) -> u64
        requires of_board { MayScan self.now (S.bundle seat.old) }
        requires inside { place < N }
        ensures learns { ScanChangesBy N C H G (after_confirm N (width C H G) place result) (S.bundle seat.old)
            (S.bundle seat.new) }
        ensures told { IsNumber place (members_of (S.bundle seat.old)) result }
    {
        seat.load(self, Load::Confirm { place })
    }

    /// The opening load of a worker that is asked for the view that it lends: its number. Its flag, the numbers of its
    /// vector and its totals are then read by [`Board::read_word`], in this order.
    #[inline]
    pub fn ask<S: ScanSeat<N, C, H, G>>(&self, seat: &mut S, place: usize) -> u64
        requires of_board { MayScan self.now (S.bundle seat.old) }
        requires inside { place < N }
        ensures learns { ScanChangesBy N C H G (after_ask place result) (S.bundle seat.old) (S.bundle seat.new) }
        ensures told { IsNumber place (members_of (S.bundle seat.old)) result }
    {
        seat.load(self, Load::Ask { place })
    }

    /// The confirming load of the worker that is asked: its number. Where it lends, the scan ends with its view.
    #[inline]
    pub fn end_ask<S: ScanSeat<N, C, H, G>>(&self, seat: &mut S, place: usize) -> u64
        requires of_board { MayScan self.now (S.bundle seat.old) }
        requires inside { place < N }
        ensures learns { ScanChangesBy N C H G (after_end_ask N (width C H G) place result) (S.bundle seat.old)
            (S.bundle seat.new) }
        ensures told { IsNumber place (members_of (S.bundle seat.old)) result }
    {
        seat.load(self, Load::EndAsk { place })
    }
}
