//! Filling the hidden buffer with the version that is published next, where the update does not repeat the one before it: by
//! lists where they are known to be enough, else whole (`fills.rt`). Where it then differs from the shown one is listed.
ghost use Rattle.std.specs.Prelude.{◌≡◌, ◌<◌, true, false};
ghost use Rattle.ledger_core.specs.Ops.{width};
ghost use Rattle.segment_layout.specs.Layout.{depth};
ghost use Rattle.snapshot_update.specs.BufferImages.{DifferAt, target_of};
ghost use Rattle.snapshot_update.specs.Fit.{AreInside, AreJoined};
ghost use Rattle.snapshot_update.specs.Conditions.{MayFill, HasFilled};

use crate::fills::{fill_all, fill_known};
use crate::listing::note_each;
use crate::next_version::NextVersion;
use register_rule::{Board, WorkSeat};
use snapshot_scan::ChangedItems;
use std::mem::swap;

/// Fills the hidden buffer with the version, and lists in `recent` where it differs from what the shown buffer holds. Where it
/// is `listed` that the version differs from that at no items but the late and the touched ones, no items but those of the
/// three lists are compared, and just the late and the touched ones are recent then. What `late` has then says nothing: it is
/// listed anew once the version is published.
#[inline(always)]
pub(crate) fn fill_next<const N: usize, const C: usize, const H: usize, const G: usize>(
    board: &Board<N, C, H, G>,
    seat: &mut WorkSeat,
    hidden: &mut [u64],
    shown: &[u64],
    recent: &mut ChangedItems,
    late: &mut ChangedItems,
    touched: &ChangedItems,
    version: &NextVersion<C, H, G>,
    listed: bool,
)
    requires may { MayFill board.now seat.old hidden.old shown.now recent.old late.old touched.now version.now listed }
    ensures fills { HasFilled board.now hidden.new seat.old seat.new }
    ensures hidden { hidden.new ≡ target_of version.now }
    ensures recent { DifferAt recent.new shown.now (target_of version.now) }
    ensures inside { AreInside (depth N (width C H G)) recent.new }
    ensures joined { listed ≡ true → recent.new.all ≡ false → AreJoined recent.new late.old touched.now }
{
    if listed {
        let start = board.hidden_start(seat);
        fill_known(board, seat, start, hidden, recent, late, touched, version);
        swap(recent, late);
        note_each(recent, touched, 0);
        return;
    }
    fill_all(board, seat, hidden, shown, recent, *version);
}
