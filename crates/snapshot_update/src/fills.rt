//! Filling the hidden buffer with a version: only the words that change are stored.
//!
//! There are three ways: `fill_again`, where the update repeats the one before it; and else (`fill_next`, in `next_fill.rt`)
//! `fill_known`, where three lists hold all that may differ, or `fill_all`, which compares the whole buffer in ranges
//! (`fill_range`). Each word goes through `fill_item`, which stores it where it changes.
ghost use Rattle.std.specs.Prelude.{◌≡◌, ◌+◌, ◌<◌, ◌≤◌, ℕ, false, length, slice_index, slice_set, Contains};
ghost use Rattle.bucket_math.specs.Words.{greatest_word};
ghost use Rattle.ledger_core.specs.Ops.{width};
ghost use Rattle.segment_layout.specs.Layout.{IsGeometry, depth};
ghost use Rattle.register_rule.specs.Seats.{start_of, index_of};
ghost use Rattle.snapshot_update.specs.BufferImages.{DifferAt, target_of};
ghost use Rattle.snapshot_update.specs.Conditions.{MayStore, HasFilled};
ghost use Rattle.snapshot_update.specs.Fit.{AreInside, IsNoneOf};
ghost use Rattle.snapshot_update.specs.Noting.{SoFar};

use crate::next_version::NextVersion;
use register_rule::{Board, WorkSeat};
use segment_layout::{Item, item_at};
use snapshot_scan::ChangedItems;

/// Makes an item of the hidden buffer this word. `hidden` is what the buffer holds, and a word that it holds is not stored. The
/// buffer begins at `start` (`Board::hidden_start`).
#[inline(always)]
pub(crate) fn fill_item<const N: usize, const C: usize, const H: usize, const G: usize>(
    board: &Board<N, C, H, G>,
    seat: &mut WorkSeat,
    start: usize,
    hidden: &mut [u64],
    item: usize,
    word: u64,
)
    requires stores { MayStore board.now seat.old hidden.old }
    requires start { start ≡ start_of N (width C H G) seat.old }
    requires inside { (item < length hidden.old) × (length hidden.old ≡ depth N (width C H G)) }
    requires bounded { item < width C H G → word ≤ greatest_word }
    ensures fills { HasFilled board.now hidden.new seat.old seat.new }
    ensures hidden { hidden.new ≡ slice_set hidden.old item word }
{
    if hidden[item] != word {
        hidden[item] = word;
        board.fill_at(seat, start, item, word);
    }
}

/// Fills the items that are listed with the version's words. An item that had the version's word keeps it.
#[inline(always)]
fn fill_changes<const N: usize, const C: usize, const H: usize, const G: usize>(
    board: &Board<N, C, H, G>,
    seat: &mut WorkSeat,
    start: usize,
    hidden: &mut [u64],
    changes: &ChangedItems,
    version: &NextVersion<C, H, G>,
)
    requires stores { MayStore board.now seat.old hidden.old }
    requires start { start ≡ start_of N (width C H G) seat.old }
    requires lengths { (length hidden.old ≡ depth N (width C H G)) × (length (target_of version.now) ≡ depth N (width C H G)) }
    requires listed { changes.now.all ≡ false }
    requires inside { AreInside (depth N (width C H G)) changes.now }
    ensures fills { HasFilled board.now hidden.new seat.old seat.new }
    ensures filled { (j : ℕ) → Contains changes.now.items j → slice_index hidden.new j ≡ slice_index (target_of version.now) j }
    ensures kept { (j : ℕ) → slice_index hidden.old j ≡ slice_index (target_of version.now) j
        → slice_index hidden.new j ≡ slice_index (target_of version.now) j }
{
    let items = changes.as_slice();
    for &item in items {
        fill_item(board, seat, start, hidden, item, version.word(item));
    }
}

/// Fills the hidden buffer with the version, where it differs from it at no items but those of three lists: those at which the
/// two buffers differ, those at which the shown one differs from what an update of nothing would publish, and those that this
/// update touches.
#[inline(always)]
pub(crate) fn fill_known<const N: usize, const C: usize, const H: usize, const G: usize>(
    board: &Board<N, C, H, G>,
    seat: &mut WorkSeat,
    start: usize,
    hidden: &mut [u64],
    recent: &ChangedItems,
    late: &ChangedItems,
    touched: &ChangedItems,
    version: &NextVersion<C, H, G>,
)
    requires stores { MayStore board.now seat.old hidden.old }
    requires start { start ≡ start_of N (width C H G) seat.old }
    requires lengths { (length hidden.old ≡ depth N (width C H G)) × (length (target_of version.now) ≡ depth N (width C H G)) }
    requires listed { (recent.now.all ≡ false) × (late.now.all ≡ false) × (touched.now.all ≡ false) }
    requires inside { AreInside (depth N (width C H G)) recent.now × AreInside (depth N (width C H G)) late.now
        × AreInside (depth N (width C H G)) touched.now }
    requires known { (j : ℕ) → j < depth N (width C H G) → ¬ (Contains recent.now.items j) → ¬ (Contains late.now.items j)
        → ¬ (Contains touched.now.items j) → slice_index hidden.old j ≡ slice_index (target_of version.now) j }
    ensures fills { HasFilled board.now hidden.new seat.old seat.new }
    ensures hidden { hidden.new ≡ target_of version.now }
{
    fill_changes(board, seat, start, hidden, recent, version);
    fill_changes(board, seat, start, hidden, late, version);
    fill_changes(board, seat, start, hidden, touched, version);
}

/// Fills a word of the row, and its total, which stands `totals_at` further. An item that had the version's word keeps it.
#[inline(always)]
fn fill_pair<const N: usize, const C: usize, const H: usize, const G: usize>(
    board: &Board<N, C, H, G>,
    seat: &mut WorkSeat,
    start: usize,
    hidden: &mut [u64],
    word: usize,
    totals_at: usize,
    version: &NextVersion<C, H, G>,
)
    requires stores { MayStore board.now seat.old hidden.old }
    requires start { start ≡ start_of N (width C H G) seat.old }
    requires few { depth N (width C H G) ≤ 2529 }
    requires lengths { (length hidden.old ≡ depth N (width C H G)) × (length version.now.vector.now ≡ N)
        × (length version.now.totals.now ≡ width C H G) }
    requires inside { (word < width C H G) × (totals_at ≡ width C H G + 1 + N) }
    ensures fills { HasFilled board.now hidden.new seat.old seat.new }
    ensures row { slice_index hidden.new word ≡ slice_index (target_of version.now) word }
    ensures total { slice_index hidden.new (width C H G + 1 + N + word) ≡ slice_index (target_of version.now)
        (width C H G + 1 + N + word) }
    ensures kept { (j : ℕ) → slice_index hidden.old j ≡ slice_index (target_of version.now) j
        → slice_index hidden.new j ≡ slice_index (target_of version.now) j }
{
    let (value, total) = (version.row_word(word), version.total_of(word));
    fill_item(board, seat, start, hidden, word, value);
    fill_item(board, seat, start, hidden, totals_at + word, total);
}

/// Fills these words of the row, and their totals. An item that had the version's word keeps it.
#[inline(always)]
fn fill_touched<const N: usize, const C: usize, const H: usize, const G: usize>(
    board: &Board<N, C, H, G>,
    seat: &mut WorkSeat,
    start: usize,
    hidden: &mut [u64],
    words: &[usize],
    version: &NextVersion<C, H, G>,
)
    requires stores { MayStore board.now seat.old hidden.old }
    requires start { start ≡ start_of N (width C H G) seat.old }
    requires few { depth N (width C H G) ≤ 2529 }
    requires lengths { (length hidden.old ≡ depth N (width C H G)) × (length version.now.vector.now ≡ N)
        × (length version.now.totals.now ≡ width C H G) }
    requires inside { (k : ℕ) → Contains words.now k → k < width C H G }
    ensures fills { HasFilled board.now hidden.new seat.old seat.new }
    ensures rows { (k : ℕ) → Contains words.now k → slice_index hidden.new k ≡ slice_index (target_of version.now) k }
    ensures totals { (k : ℕ) → Contains words.now k → slice_index hidden.new (width C H G + 1 + N + k) ≡ slice_index
        (target_of version.now) (width C H G + 1 + N + k) }
    ensures kept { (j : ℕ) → slice_index hidden.old j ≡ slice_index (target_of version.now) j
        → slice_index hidden.new j ≡ slice_index (target_of version.now) j }
{
    let totals_at = item_at(N, C, H, G, Item::Flag) + 1 + N;
    for &word in words {
        fill_pair(board, seat, start, hidden, word, totals_at, version);
    }
}

/// Fills the hidden buffer with the version, where it differs from it at no items but the worker's own number, these words of the
/// row, and their totals.
#[inline(always)]
pub(crate) fn fill_again<const N: usize, const C: usize, const H: usize, const G: usize>(
    board: &Board<N, C, H, G>,
    seat: &mut WorkSeat,
    hidden: &mut [u64],
    words: &[usize],
    version: &NextVersion<C, H, G>,
)
    requires stores { MayStore board.now seat.old hidden.old }
    requires geometry { IsGeometry N C H G }
    requires lengths { (length hidden.old ≡ depth N (width C H G)) × (length version.now.vector.now ≡ N)
        × (length version.now.totals.now ≡ width C H G) }
    requires inside { (k : ℕ) → Contains words.now k → k < width C H G }
    requires known { (j : ℕ) → j < depth N (width C H G) → ¬ (Contains words.now j)
        → IsNoneOf N (width C H G) (index_of seat.old) words.now j
        → slice_index hidden.old j ≡ slice_index (target_of version.now) j }
    ensures fills { HasFilled board.now hidden.new seat.old seat.new }
    ensures hidden { hidden.new ≡ target_of version.now }
{
    let start = board.hidden_start(seat);
    let worker = seat.worker();
    let number_item = item_at(N, C, H, G, Item::Vector { worker });
    let number = version.number_of(worker);
    fill_item(board, seat, start, hidden, number_item, number);
    fill_touched(board, seat, start, hidden, words, version);
}

/// Fills the items from `from` on and before `to` of the hidden buffer with the version, where those before are filled, and
/// lists where the version differs from what the shown buffer holds.
#[inline(always)]
fn fill_range<const N: usize, const C: usize, const H: usize, const G: usize>(
    board: &Board<N, C, H, G>,
    seat: &mut WorkSeat,
    hidden: &mut [u64],
    shown: &[u64],
    recent: &mut ChangedItems,
    version: &NextVersion<C, H, G>,
    from: usize,
    to: usize,
)
    requires stores { MayStore board.now seat.old hidden.old }
    requires lengths { (length hidden.old ≡ depth N (width C H G)) × (length shown.now ≡ depth N (width C H G))
        × (length (target_of version.now) ≡ depth N (width C H G)) }
    requires inside { (from ≤ to) × (to ≤ depth N (width C H G)) }
    requires filled { (j : ℕ) → j < from → slice_index hidden.old j ≡ slice_index (target_of version.now) j }
    requires noted { SoFar from recent.old shown.now (target_of version.now) }
    ensures fills { HasFilled board.now hidden.new seat.old seat.new }
    ensures filled { (j : ℕ) → j < to → slice_index hidden.new j ≡ slice_index (target_of version.now) j }
    ensures noted { SoFar to recent.new shown.now (target_of version.now) }
{
    let start = board.hidden_start(seat);
    for item in from..to {
        let word = version.word(item);
        if shown[item] != word {
            recent.note(item);
        }
        fill_item(board, seat, start, hidden, item, word);
    }
}

/// Fills the whole hidden buffer with the version, and lists where the version differs from what the shown buffer holds.
#[inline(never)]
pub(crate) fn fill_all<const N: usize, const C: usize, const H: usize, const G: usize>(
    board: &Board<N, C, H, G>,
    seat: &mut WorkSeat,
    hidden: &mut [u64],
    shown: &[u64],
    recent: &mut ChangedItems,
    version: NextVersion<C, H, G>,
)
    requires stores { MayStore board.now seat.old hidden.old }
    requires lengths { (length hidden.old ≡ depth N (width C H G)) × (length shown.now ≡ depth N (width C H G))
        × (length (target_of version) ≡ depth N (width C H G)) }
    ensures fills { HasFilled board.now hidden.new seat.old seat.new }
    ensures hidden { hidden.new ≡ target_of version.entry }
    ensures differ { DifferAt recent.new shown.now (target_of version.entry) }
    ensures inside { AreInside (depth N (width C H G)) recent.new }
    ensures listed { (j : ℕ) → Contains recent.new.items j → ¬ (slice_index shown.now j ≡ slice_index (target_of version.entry) j) }
    ensures few { depth N (width C H G) ≤ 256 → recent.new.all ≡ false }
{
    recent.clear();
    let row = version.row.len();
    // The parts of a version one by one: the compiler then sees in each range which kind of word `version.word` takes, and among
    // the counters, which are the most, drops the question. One call for all asks it for each word.
    fill_range(board, seat, hidden, shown, recent, &version, 0, C);
    fill_range(board, seat, hidden, shown, recent, &version, C, row);
    let end = hidden.len();
    fill_range(board, seat, hidden, shown, recent, &version, row, end);
}
