//! Publishing the next version by the plan that `know_next` made: the hidden buffer is filled, its number is stored, and what was
//! published is remembered.
//!
//! `publish_again` is for an update that repeats the one before it: it lists nothing. `publish_anew` is for all others, and a
//! function of its own, so that a repeated update has no more code than it needs.
ghost use Rattle.std.specs.Prelude.{◌≡◌, ℕ, ◌+◌, ◌<◌, Bool, true, false, cond, length, slice_index, slice_set, Contains};
ghost use Rattle.ledger_core.specs.Ops.{width};
ghost use Rattle.segment_layout.specs.Layout.{IsGeometry, depth};
ghost use mathlib.Core.Option.{some};
ghost use lib.ListN.{get_elem?};
ghost use Rattle.register_rule.specs.declared.view.Version.{Version as version};
ghost use Rattle.register_rule.specs.Seats.{worker_of, index_of};
ghost use Rattle.snapshot_scan.specs.declared.scan_end.ScanEnd.TheVariants as ScanEnd;
ghost use Rattle.snapshot_scan.specs.ScanMemories.{rows_of, totals_in, answer_of, HasView};
ghost use Rattle.snapshot_update.specs.BufferImages.{DifferAt, version_words};
ghost use Rattle.snapshot_update.specs.Fit.{AreInside, IsNoneOf, AreJoined, IsFit};
ghost use Rattle.snapshot_update.specs.Conditions.{MayStore, MayMakeVersion, MayLearn, HasFilled};
ghost use Rattle.snapshot_update.specs.Publishing.{MayPublish, IsPlanned, MayRepeat, HasPublished, AreTurned};
ghost use Rattle.snapshot_update.specs.OpWords.{AreOf};
ghost use Rattle.snapshot_update.specs.Plans.{is_known, is_same, is_repeat};

use crate::buffer_images::BufferImages;
use crate::fills::fill_again;
use crate::listing::list_late;
use crate::next_fill::fill_next;
use crate::next_version::NextVersion;
use crate::op_words::OpWords;
use crate::plan::Plan;
use ledger_core::{Op, Row};
use register_rule::{Board, WorkSeat};
use segment_layout::{Item, item_at};
use snapshot_scan::{ScanEnd, ScanMemory};
use std::mem::swap;

/// Fills the hidden buffer with the version of this row, with the answer of the scan that ended so, and says whether it lends
/// that. Whether just the late and the touched items are recent then is noted in the images. What is late is to be listed anew
/// then.
#[inline(always)]
fn fill_version<const N: usize, const C: usize, const H: usize, const G: usize>(
    board: &Board<N, C, H, G>,
    seat: &mut WorkSeat,
    row: &Row<C, H, G>,
    memory: &ScanMemory<N, C, H, G>,
    images: &mut BufferImages,
    ended: ScanEnd,
    plan: Plan,
) -> bool
    requires { MayMakeVersion board.now seat.old row.now memory.now images.old ended (is_known plan) }
    ensures fills { HasFilled board.now images.new.hidden.items seat.old seat.new }
    ensures hidden { images.new.hidden.items ≡ version_words row.now (cond result 1 0) (answer_of memory.now ended).vector
        (answer_of memory.now ended).totals }
    ensures others { (images.new.shown.items ≡ images.old.shown.items) × (images.new.touched ≡ images.old.touched) }
    ensures recent { DifferAt images.new.recent images.old.shown.items images.new.hidden.items }
    ensures inside { AreInside (depth N (width C H G)) images.new.recent }
    ensures joined { images.new.joined ≡ true → AreJoined images.new.recent images.old.late images.new.touched }
    ensures view { result ≡ true → HasView ended }
    ensures none { result ≡ false → ended ≡ ScanEnd.GaveUp }
{
    let (vector, totals) = memory.answer(ended);
    let lends = ended.has_view();
    let version = NextVersion::new(row, u64::from(lends), vector, totals);
    let listed = plan.is_known() & !images.recent.is_all() & !images.late.is_all();
    fill_next(
        board,
        seat,
        images.hidden.as_mut_slice(),
        images.shown.as_slice(),
        &mut images.recent,
        &mut images.late,
        &images.touched,
        &version,
        listed,
    );
    images.joined = listed & !images.recent.is_all();
    lends
}

/// After the publish the buffers have changed their roles: exchanges their images, and lists anew where the shown one differs
/// from what an update of nothing would publish now (`late`): anywhere, where that is not known. Where the two differ from each
/// other (`recent`) stays as it is.
#[inline(always)]
fn turn<const N: usize, const C: usize, const H: usize, const G: usize>(
    images: &mut BufferImages,
    index: usize,
    plan: Plan,
)
    requires geometry { IsGeometry N C H G }
    requires inside { index < N }
    requires touched { AreInside (width C H G) images.old.touched }
    ensures buffers { (images.new.hidden.items ≡ images.old.shown.items) × (images.new.shown.items ≡ images.old.hidden.items) }
    ensures others { (images.new.recent ≡ images.old.recent) × (images.new.touched ≡ images.old.touched) }
    ensures unknown { is_known plan ≡ false → images.new.late.all ≡ true }
    ensures number { images.new.late.all ≡ false → Contains images.new.late.items (width C H G + 1 + index) }
    ensures totals { images.new.late.all ≡ false → (k : ℕ) → Contains images.old.touched.items k
        → Contains images.new.late.items (width C H G + 1 + N + k) }
    ensures only { images.new.late.all ≡ false → (j : ℕ) → IsNoneOf N (width C H G) index images.old.touched.items j
        → ¬ (Contains images.new.late.items j) }
    ensures inside { AreInside (depth N (width C H G)) images.new.late }
    ensures joined { images.new.joined ≡ true → (images.old.joined ≡ true) × (is_same plan ≡ true)
        × (images.new.late.all ≡ false) }
{
    swap(&mut images.hidden, &mut images.shown);
    let number = item_at(N, C, H, G, Item::Vector { worker: index });
    let totals_at = item_at(N, C, H, G, Item::Flag) + 1 + N;
    list_late(
        &mut images.late,
        &images.touched,
        number,
        totals_at,
        plan.is_known(),
    );
    // Where `late` and `touched` were what they are, the same items are late now as before, so that just they and the touched
    // ones are recent.
    images.joined = images.joined & plan.is_same() & !images.late.is_all();
}

/// Remembers the worker's own new row. Where the plan is known it differs from the remembered one at the touched words alone.
#[inline(always)]
fn learn<const N: usize, const C: usize, const H: usize, const G: usize>(
    memory: &mut ScanMemory<N, C, H, G>,
    index: usize,
    number: u64,
    row: &Row<C, H, G>,
    images: &BufferImages,
    plan: Plan,
)
    requires { MayLearn memory.old index row.now images.now (is_known plan) }
    ensures rows { rows_of memory.new ≡ slice_set (rows_of memory.old) index (record { number = number; row = row.now }) }
    ensures sums { (v : version) → get_elem? (rows_of memory.old) index ≡ some v → (k : ℕ) → k < width C H G
        → slice_index (totals_in memory.new) k + slice_index v.row k ≡ slice_index
        (totals_in memory.old) k + slice_index row.now k }
{
    if plan.is_known() {
        memory.remember_at(index, number, row, images.touched.as_slice());
        return;
    }
    memory.remember(index, number, row);
}

/// Publishes the version of this row, with the answer of the scan, where the update does not repeat the one before it.
#[inline(never)]
fn publish_anew<const N: usize, const C: usize, const H: usize, const G: usize>(
    board: &Board<N, C, H, G>,
    seat: &mut WorkSeat,
    row: &Row<C, H, G>,
    memory: &mut ScanMemory<N, C, H, G>,
    images: &mut BufferImages,
    ended: ScanEnd,
    plan: Plan,
    ops: &[Op],
)
    requires may { MayPublish board.now seat.old row.now memory.old ended ops.now }
    requires planned { IsPlanned N C H G (index_of seat.old) ops.now row.now memory.old ended images.old (worker_of seat.old)
        plan }
    ensures published { (lends : Bool) × HasPublished board.now seat.old seat.new row.now memory.old memory.new
        images.old.shown.items images.new.hidden.items images.new.shown.items ended ops.now lends }
    ensures turned { AreTurned N (width C H G) (index_of seat.old) plan images.old images.new }
    ensures row_known { images.new.row_known ≡ true }
{
    let lends = fill_version(board, seat, row, memory, images, ended, plan);
    board.publish(seat, ops, lends);
    let index = seat.worker();
    turn::<N, C, H, G>(images, index, plan);
    let number = seat.number();
    learn(memory, index, number, row, images, plan);
    images.row_known = true;
}

/// Publishes the version of this row, with the answer of a scan that was quiet, where the update repeats the one before it: the
/// hidden buffer differs from that version at no items but the worker's own number, these words of the row and their totals.
#[inline(always)]
fn publish_again<const N: usize, const C: usize, const H: usize, const G: usize>(
    board: &Board<N, C, H, G>,
    seat: &mut WorkSeat,
    row: &Row<C, H, G>,
    memory: &mut ScanMemory<N, C, H, G>,
    hidden: &mut Vec<u64>,
    shown: &mut Vec<u64>,
    words: &[usize],
    ended: ScanEnd,
    ops: &[Op],
)
    requires { MayRepeat board.now seat.old row.now memory.old hidden.old.items words.now ended ops.now }
    ensures { HasPublished board.now seat.old seat.new row.now memory.old memory.new shown.old.items hidden.new.items
        shown.new.items ended ops.now true }
{
    let (vector, totals) = memory.answer(ended);
    let version = NextVersion::new(row, 1, vector, totals);
    fill_again(board, seat, hidden.as_mut_slice(), words, &version);
    board.publish(seat, ops, true);
    swap(hidden, shown);
    let (index, number) = (seat.worker(), seat.number());
    memory.remember_at(index, number, row, words);
}

/// As [`publish_again`], of the words of a list: a function of its own, so that an increment has no more code than it needs.
#[inline(never)]
fn publish_list_again<const N: usize, const C: usize, const H: usize, const G: usize>(
    board: &Board<N, C, H, G>,
    seat: &mut WorkSeat,
    row: &Row<C, H, G>,
    memory: &mut ScanMemory<N, C, H, G>,
    hidden: &mut Vec<u64>,
    shown: &mut Vec<u64>,
    words: &[usize],
    ended: ScanEnd,
    ops: &[Op],
)
    requires { MayRepeat board.now seat.old row.now memory.old hidden.old.items words.now ended ops.now }
    ensures { HasPublished board.now seat.old seat.new row.now memory.old memory.new shown.old.items hidden.new.items
        shown.new.items ended ops.now true }
{
    publish_again(board, seat, row, memory, hidden, shown, words, ended, ops);
}

/// As [`publish_list_again`], of the words of an observation, with no loop over them.
#[inline(never)]
fn publish_three_again<const N: usize, const C: usize, const H: usize, const G: usize>(
    board: &Board<N, C, H, G>,
    seat: &mut WorkSeat,
    row: &Row<C, H, G>,
    memory: &mut ScanMemory<N, C, H, G>,
    hidden: &mut Vec<u64>,
    shown: &mut Vec<u64>,
    words: [usize; 3],
    ended: ScanEnd,
    ops: &[Op],
)
    requires { MayRepeat board.now seat.old row.now memory.old hidden.old.items words ended ops.now }
    ensures { HasPublished board.now seat.old seat.new row.now memory.old memory.new shown.old.items hidden.new.items
        shown.new.items ended ops.now true }
{
    publish_again(board, seat, row, memory, hidden, shown, &words, ended, ops);
}

/// Publishes the version of this row, by this plan: with the answer of the scan that ended so, or without one where it was
/// given up. `words` are those of the operations.
#[inline(always)]
pub(crate) fn publish_next<const N: usize, const C: usize, const H: usize, const G: usize>(
    board: &Board<N, C, H, G>,
    seat: &mut WorkSeat,
    row: &Row<C, H, G>,
    memory: &mut ScanMemory<N, C, H, G>,
    images: &mut BufferImages,
    ended: ScanEnd,
    plan: Plan,
    ops: &[Op],
    words: OpWords,
)
    requires may { MayPublish board.now seat.old row.now memory.old ended ops.now }
    requires planned { IsPlanned N C H G (index_of seat.old) ops.now row.now memory.old ended images.old (worker_of seat.old)
        plan }
    requires words { AreOf C H ops.now words }
    ensures published { (lends : Bool) × HasPublished board.now seat.old seat.new row.now memory.old memory.new
        images.old.shown.items images.new.hidden.items images.new.shown.items ended ops.now lends }
    ensures fit { IsFit N C H G (index_of seat.new) (length (worker_of seat.new).work.made) row.now memory.new images.new
        (worker_of seat.new) }
    ensures row_known { images.new.row_known ≡ true }
{
    if !plan.is_repeat() {
        publish_anew(board, seat, row, memory, images, ended, plan, ops);
        return;
    }
    let (hidden, shown) = (&mut images.hidden, &mut images.shown);
    // The compiler knows how many words one operation has, so it makes what they need, and no loop.
    match words {
        OpWords::One(word) => {
            publish_again(board, seat, row, memory, hidden, shown, &[word], ended, ops);
        }
        OpWords::Three(words) => {
            publish_three_again(board, seat, row, memory, hidden, shown, words, ended, ops);
        }
        OpWords::Unknown => {
            let words = images.touched.as_slice();
            publish_list_again(board, seat, row, memory, hidden, shown, words, ended, ops);
        }
    }
}
