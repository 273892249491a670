//! A board and a reader of it, as a source of snapshots.
ghost use Rattle.std.specs.Prelude.{◌≡◌, ◌+◌, ◌<◌, IfErr, OnOk, OnErr};
ghost use Rattle.segment_layout.specs.Layout.{IsGeometry};
ghost use Rattle.snapshot_scan.specs.Snapshots.{as_answer};
ghost use Rattle.snapshot_scan.specs.Sources.{Records};
ghost use Rattle.snapshot_scan.specs.Readers.{IsReaderOf, scan_by};
ghost use Rattle.snapshot_scan.specs.Answered.{HasAnswered, HasGivenUp};

use crate::contended::Contended;
use crate::reader::Reader;
use crate::snapshot::Snapshot;
use crate::source::Source;
use register_rule::Board;

/// A board and a reader of it: its scans are those of the reader.
pub struct Scanner<'a, const N: usize, const C: usize, const H: usize, const G: usize> {
    /// The board.
    pub board: &'a Board<N, C, H, G>,
    /// Its reader.
    pub reader: Reader<N, C, H, G>,
    ghost of_board: { IsReaderOf board.now reader },
}

impl<'a, const N: usize, const C: usize, const H: usize, const G: usize> Drop
    for Scanner<'a, N, C, H, G> {
    fn drop(self) {
        let Scanner {
            board: _,
            reader: _,
        } = self;
    }
}

impl<'a, const N: usize, const C: usize, const H: usize, const G: usize> Scanner<'a, N, C, H, G> {
    /// The scans of this reader of this board.
    pub fn new(board: &'a Board<N, C, H, G>, reader: Reader<N, C, H, G>) -> Scanner<'a, N, C, H, G>
        requires { IsReaderOf board.now reader }
        ensures geometry { IsGeometry N C H G }
        ensures board { result.board.now ≡ board.now }
        ensures reader { result.reader ≡ reader.entry }
    {
        Scanner { board, reader }
    }

    /// The reader.
    pub fn into_reader(self) -> Reader<N, C, H, G>
        ensures reader { result ≡ self.entry.reader }
        ensures of_board { IsReaderOf self.entry.board.now result }
    {
        let Scanner { board: _, reader } = self;
        reader
    }
}

impl<'a, const N: usize, const C: usize, const H: usize, const G: usize> Source<N, C, H, G>
    for Scanner<'a, N, C, H, G> {
    ghost recorded = { λ s. (scan_by s.reader).recorded };

    ghost quit = { λ s. (scan_by s.reader).quit };

    ghost gave = { λ s t a. (t.board.now ≡ s.board.now) × HasAnswered s.reader t.reader a };

    ghost gave_up = { λ s t e. (t.board.now ≡ s.board.now) × HasGivenUp s.reader t.reader e };

    /// The reader's scan.
    fn scan(&mut self, out: &mut Snapshot<N, C, H, G>) -> Result<(), Contended>
        ensures recorded { OnOk result (Records N C H G (scan_by self.old.reader).recorded (scan_by self.new.reader).recorded
            (as_answer out.new)) }
        ensures gave { OnOk result ((self.new.board.now ≡ self.old.board.now) × HasAnswered self.old.reader self.new.reader
            (as_answer out.new)) }
        ensures quit { OnOk result ((scan_by self.new.reader).quit ≡ (scan_by self.old.reader).quit) }
        ensures given_up { OnErr result (((scan_by self.new.reader).recorded ≡ (scan_by self.old.reader).recorded)
            × ((scan_by self.new.reader).quit ≡ (scan_by self.old.reader).quit + 1)) }
        ensures why { IfErr result (λ e. (self.new.board.now ≡ self.old.board.now)
            × HasGivenUp self.old.reader self.new.reader e) }
        ensures rose { IfErr result (λ e. (e.worker < N) × (e.first < e.last)) }
        ensures unchanged { OnErr result (out.new ≡ out.old) }
    {
        let answer = self.reader.scan(self.board, out);
        // A look into the snapshot tells the proof how many totals it has.
        let _ = &out.totals;
        answer
    }
}
