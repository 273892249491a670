//! Where the next version is known to differ from what the shown buffer holds.
ghost use Rattle.std.specs.Prelude.{◌≡◌, ◌⊎◌, ◌+◌, ◌<◌, true, false, length};
ghost use Rattle.ledger_core.specs.Ops.{width};
ghost use Rattle.segment_layout.specs.Layout.{IsGeometry};
ghost use Rattle.register_rule.specs.Seats.{worker_of, index_of};
ghost use Rattle.snapshot_scan.specs.ScanMemories.{changed_totals_in};
ghost use Rattle.snapshot_scan.specs.declared.scan_end.ScanEnd.TheVariants as ScanEnd;
ghost use Rattle.snapshot_update.specs.Fit.{AreInside};
ghost use Rattle.snapshot_update.specs.Known.{IsStill, ListsChangedTotals, IsFollowed};
ghost use Rattle.snapshot_update.specs.Plans.{is_known, is_same, is_repeat, with_late};

use crate::buffer_images::BufferImages;
use crate::listing::{note_each, note_range};
use crate::plan::Plan;
use register_rule::WorkSeat;
use segment_layout::{Item, item_at};
use snapshot_scan::{ChangedItems, ScanEnd, ScanMemory};

/// What is known of the version that an update publishes, once its scan has `ended`. Where that is known to differ from what
/// the shown buffer holds at no items but the late and the touched ones, what the scan found anew is listed as late, too; else
/// all may be late. `again` says that the touched words are those of the update before.
#[inline(always)]
pub(crate) fn know_next<const N: usize, const C: usize, const H: usize, const G: usize>(
    seat: &WorkSeat,
    memory: &ScanMemory<N, C, H, G>,
    images: &mut BufferImages,
    ended: ScanEnd,
    again: bool,
) -> Plan
    requires geometry { IsGeometry N C H G }
    requires inside { index_of seat.now < N }
    requires words { AreInside (width C H G) (changed_totals_in memory.now) }
    ensures others { images.new ≡ with_late images.new.late images.old }
    ensures touched { is_known result ≡ true → images.old.touched.all ≡ false }
    ensures known { is_known result ≡ true → IsStill ended images.old.row_known images.old.late images.new.late
        ⊎ IsFollowed N C H G (index_of seat.now) (length (worker_of seat.now).work.made) memory.now ended images.old.late
        images.new.late }
    ensures unknown { is_known result ≡ false → (images.new.late.all ≡ true) × (images.new.late.items ≡ images.old.late.items) }
    ensures same { is_same result ≡ true → (again ≡ true) × (images.old.row_known ≡ true)
        × (images.new.late ≡ images.old.late) }
    ensures repeats { is_same result ≡ true → is_repeat result ≡ images.old.joined }
    ensures sees { ended ≡ ScanEnd.Direct true → images.old.touched.all ≡ false → images.old.row_known ≡ true
        → (is_known result ≡ true) × (is_same result ≡ again) × (images.new.late ≡ images.old.late) }
{
    if ended.is_quiet() && !images.touched.is_all() & images.row_known {
        return if again & images.joined {
            Plan::Repeats
        } else if again {
            Plan::Same
        } else {
            Plan::Known
        };
    }
    if follow(seat, memory, &mut images.late, &images.touched, ended) {
        return Plan::Known;
    }
    images.late.note_all();
    Plan::Whole
}

/// Where that is not seen at once, the scan being quiet: whether it ended direct, with the number of its own worker, and all
/// touched words are listed. What the scan found anew is listed as late then, and the row that it remembers under that number
/// is the worker's row.
#[inline(never)]
fn follow<const N: usize, const C: usize, const H: usize, const G: usize>(
    seat: &WorkSeat,
    memory: &ScanMemory<N, C, H, G>,
    late: &mut ChangedItems,
    touched: &ChangedItems,
    ended: ScanEnd,
) -> bool
    requires geometry { IsGeometry N C H G }
    requires inside { index_of seat.now < N }
    requires words { AreInside (width C H G) (changed_totals_in memory.now) }
    ensures touched { result ≡ true → touched.now.all ≡ false }
    ensures known { result ≡ true → IsFollowed N C H G (index_of seat.now) (length (worker_of seat.now).work.made) memory.now
        ended late.old late.new }
    ensures unknown { result ≡ false → late.new ≡ late.old }
{
    if !ended.is_direct() || touched.is_all() {
        return false;
    }
    let (vector, _) = memory.answer(ended);
    if vector[seat.worker()] != seat.number() {
        return false;
    }
    list_changed_totals::<N, C, H, G>(late, memory.changed_totals());
    true
}

/// Lists all numbers of the vector, and the totals of these words, behind what is listed.
#[inline]
fn list_changed_totals<const N: usize, const C: usize, const H: usize, const G: usize>(
    late: &mut ChangedItems,
    changed_totals: &ChangedItems,
)
    requires geometry { IsGeometry N C H G }
    requires words { AreInside (width C H G) changed_totals.now }
    ensures { ListsChangedTotals N (width C H G) changed_totals.now late.old late.new }
{
    let numbers = item_at(N, C, H, G, Item::Flag) + 1;
    note_range(late, numbers, N);
    note_each(late, changed_totals, numbers + N);
    if changed_totals.is_all() {
        late.note_all();
    }
}
