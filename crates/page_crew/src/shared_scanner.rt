//! A share in a board and a reader of it, as a source of snapshots.
ghost use Rattle.std.specs.Prelude.{◌≡◌, ◌+◌, ◌<◌, IfErr, OnOk, OnErr};
ghost use Rattle.std.specs.Arc.{arc_value};
ghost use Rattle.segment_layout.specs.Layout.{IsGeometry};
ghost use Rattle.snapshot_scan.specs.Snapshots.{as_answer};
ghost use Rattle.snapshot_scan.specs.Sources.{Records};
ghost use Rattle.snapshot_scan.specs.Readers.{IsReaderOf, scan_by};
ghost use Rattle.snapshot_scan.specs.Answered.{HasAnswered, HasGivenUp};

use register_rule::Board;
use snapshot_scan::{Contended, Reader, Snapshot, Source};
use std::sync::Arc;

/// A share in a board, and a reader of it: its scans are those of the reader.
pub struct SharedScanner<const N: usize, const C: usize, const H: usize, const G: usize> {
    board: Arc<Board<N, C, H, G>>,
    reader: Reader<N, C, H, G>,
    ghost of_board: { IsReaderOf (arc_value board) reader },
}

impl<const N: usize, const C: usize, const H: usize, const G: usize> Drop
    for SharedScanner<N, C, H, G> {
    fn drop(self) {
        let SharedScanner {
            board: _,
            reader: _,
        } = self;
    }
}

impl<const N: usize, const C: usize, const H: usize, const G: usize> SharedScanner<N, C, H, G> {
    /// The scans of this reader of this board.
    pub fn new(
        board: Arc<Board<N, C, H, G>>,
        reader: Reader<N, C, H, G>,
    ) -> SharedScanner<N, C, H, G>
        requires { IsReaderOf (arc_value board) reader }
        ensures geometry { IsGeometry N C H G }
        ensures board { arc_value result.board ≡ arc_value board.entry }
        ensures reader { result.reader ≡ reader.entry }
    {
        SharedScanner { board, reader }
    }
}

impl<const N: usize, const C: usize, const H: usize, const G: usize> Source<N, C, H, G>
    for SharedScanner<N, C, H, G> {
    ghost recorded = { λ s. (scan_by s.reader).recorded };

    ghost quit = { λ s. (scan_by s.reader).quit };

    ghost gave = { λ s t a. (arc_value t.board ≡ arc_value s.board) × HasAnswered s.reader t.reader a };

    ghost gave_up = { λ s t e. (arc_value t.board ≡ arc_value s.board) × HasGivenUp s.reader t.reader e };

    /// The reader's scan.
    fn scan(&mut self, out: &mut Snapshot<N, C, H, G>) -> Result<(), Contended>
        ensures recorded { OnOk result (Records N C H G (scan_by self.old.reader).recorded (scan_by self.new.reader).recorded
            (as_answer out.new)) }
        ensures gave { OnOk result ((arc_value self.new.board ≡ arc_value self.old.board) × HasAnswered self.old.reader
            self.new.reader
            (as_answer out.new)) }
        ensures quit { OnOk result ((scan_by self.new.reader).quit ≡ (scan_by self.old.reader).quit) }
        ensures given_up { OnErr result (((scan_by self.new.reader).recorded ≡ (scan_by self.old.reader).recorded)
            × ((scan_by self.new.reader).quit ≡ (scan_by self.old.reader).quit + 1)) }
        ensures why { IfErr result (λ e. (arc_value self.new.board ≡ arc_value self.old.board)
            × HasGivenUp self.old.reader self.new.reader e) }
        ensures rose { IfErr result (λ e. (e.worker < N) × (e.first < e.last)) }
        ensures unchanged { OnErr result (out.new ≡ out.old) }
    {
        let answer = self.reader.scan(&self.board, out);
        // A look into the snapshot tells the proof how many totals it has.
        let _totals = out.totals();
        answer
    }
}
