//! Which words of a row operations change.
ghost use Rattle.std.specs.Prelude.{◌≡◌, ◌≢◌, ◌+◌, ◌*◌, ◌<◌, ◌≤◌, ℕ, true, false, length, All, Contains, ◌∷◌, []};
ghost use Rattle.ledger_core.specs.Ops.{width, only, part, sum_ops, IsWithin};
ghost use Rattle.ledger_core.specs.Limits.{AreSlots};
ghost use Rattle.snapshot_update.specs.Fit.{AreInside};
ghost use Rattle.snapshot_update.specs.Noting.{Touches, AreTouched, IsRun, words_of};
ghost use Rattle.snapshot_update.specs.OpWords.{IsOnly};
ghost use Rattle.ledger_core.specs.declared.op.Op.{Op as OpView};

use crate::run::Run;
use ledger_core::Op;
use snapshot_scan::ChangedItems;
use std::mem::swap;

/// How many words a histogram has.
pub(crate) const HIST: usize = 27;

/// The sum of a histogram comes after its 25 buckets.
pub(crate) const SUM: usize = 25;

/// The count of a histogram is its last word.
pub(crate) const COUNT: usize = 26;

/// Lists the words of a row that these operations add to, and no items that are not words of the row. The words of a histogram
/// that is observed many times one after the other are listed once. A list has room for 256 items, and an operation touches three
/// words at most: so 85 operations always fit.
#[inline(always)]
fn touch_all<const C: usize, const H: usize, const G: usize>(ops: &[Op], touched: &mut ChangedItems)
    requires within { All (IsWithin C H G) ops.now }
    requires slots { AreSlots C H G }
    ensures rises { touched.new.all ≡ false → (k : ℕ) → ¬ (Contains touched.new.items k) → sum_ops C H ops.now k ≡ 0 }
    ensures inside { AreInside (width C H G) touched.new }
    ensures few { length ops.now ≤ 85 → touched.new.all ≡ false }
{
    touched.clear();
    let mut run = Run { hist: H, seen: 0 };
    for op in ops {
        touch_one::<C, H, G>(op, touched, &mut run);
    }
}

/// As [`touch_all`]. Where it says yes, the list is as it was, and the operations add to the words that it has. `spare` is room
/// for a list, of which nothing is known. `only` is the operation of a list of one.
#[inline(always)]
pub(crate) fn touch<const C: usize, const H: usize, const G: usize>(
    ops: &[Op],
    only: Option<Op>,
    touched: &mut ChangedItems,
    spare: &mut ChangedItems,
) -> bool
    requires within { All (IsWithin C H G) ops.now }
    requires slots { AreSlots C H G }
    requires only { IsOnly ops.now only }
    ensures rises { touched.new.all ≡ false → (k : ℕ) → ¬ (Contains touched.new.items k) → sum_ops C H ops.now k ≡ 0 }
    ensures inside { AreInside (width C H G) touched.new }
    ensures few { length ops.now ≤ 85 → touched.new.all ≡ false }
    ensures again { result ≡ true → touched.new ≡ touched.old }
    ensures one { result ≡ true → (op : OpView) → ops.now ≡ op ∷ [] → touched.new.items ≡ words_of C H op }
{
    let Some(op) = only else {
        return touch_list::<C, H, G>(ops, touched, spare);
    };
    if is_again::<C, H, G>(&op, touched) {
        return true;
    }
    touch_all::<C, H, G>(ops, touched);
    false
}

/// As [`touch`], of a list of none, or of two or more. Where they are not seen at once to add to the listed words they are listed
/// in `spare`, and where that list is another, the two change places.
#[inline(never)]
fn touch_list<const C: usize, const H: usize, const G: usize>(
    ops: &[Op],
    touched: &mut ChangedItems,
    spare: &mut ChangedItems,
) -> bool
    requires within { All (IsWithin C H G) ops.now }
    requires slots { AreSlots C H G }
    ensures rises { touched.new.all ≡ false → (k : ℕ) → ¬ (Contains touched.new.items k) → sum_ops C H ops.now k ≡ 0 }
    ensures inside { AreInside (width C H G) touched.new }
    ensures few { length ops.now ≤ 85 → touched.new.all ≡ false }
    ensures again { result ≡ true → touched.new ≡ touched.old }
{
    let listed = !touched.is_all();
    if listed && are_single::<C, H, G>(ops, touched.as_slice()) {
        return true;
    }
    touch_all::<C, H, G>(ops, spare);
    if listed & !spare.is_all() && touched.as_slice() == spare.as_slice() {
        return true;
    }
    swap(touched, spare);
    false
}

/// Whether just the words that this operation adds to are listed.
#[inline(always)]
fn is_again<const C: usize, const H: usize, const G: usize>(op: &Op, touched: &ChangedItems) -> bool
    requires within { IsWithin C H G op.now }
    requires slots { AreSlots C H G }
    ensures touched { result ≡ true → AreTouched C H (width C H G) (op.now ∷ []) touched.now }
    ensures words { result ≡ true → touched.now.items ≡ words_of C H op.now }
{
    if touched.is_all() {
        return false;
    }
    is_one::<C, H, G>(op, touched.as_slice())
}

/// Whether each operation adds to one word, and these are the words, place by place.
#[inline(always)]
fn are_single<const C: usize, const H: usize, const G: usize>(ops: &[Op], words: &[usize]) -> bool
    requires within { All (IsWithin C H G) ops.now }
    requires slots { AreSlots C H G }
    ensures rises { result ≡ true → (k : ℕ) → ¬ (Contains words.now k) → sum_ops C H ops.now k ≡ 0 }
    ensures inside { result ≡ true → (j : ℕ) → Contains words.now j → j < width C H G }
{
    if ops.len() != words.len() {
        return false;
    }
    for at in 0..ops.len() {
        if !is_single::<C, H, G>(&ops[at], words[at]) {
            return false;
        }
    }
    true
}

/// Whether the operation adds to one word, and this is the word.
#[inline(always)]
fn is_single<const C: usize, const H: usize, const G: usize>(op: &Op, word: usize) -> bool
    requires within { IsWithin C H G op.now }
    requires slots { AreSlots C H G }
    ensures rises { result ≡ true → (k : ℕ) → k ≢ word → part C H op.now k ≡ 0 }
    ensures inside { result ≡ true → word < width C H G }
{
    match *op {
        Op::Inc { counter, .. } => counter == word,
        Op::Observe { .. } => false,
        Op::Up { gauge, .. } => C + HIST * H + 2 * gauge == word,
        Op::Down { gauge, .. } => C + HIST * H + 2 * gauge + 1 == word,
    }
}

/// Whether these are the words that the operation adds to.
#[inline(always)]
fn is_one<const C: usize, const H: usize, const G: usize>(op: &Op, words: &[usize]) -> bool
    requires within { IsWithin C H G op.now }
    requires slots { AreSlots C H G }
    ensures words { result ≡ true → words.now ≡ words_of C H op.now }
    ensures rises { result ≡ true → (k : ℕ) → ¬ (Contains words.now k) → part C H op.now k ≡ 0 }
    ensures inside { result ≡ true → (j : ℕ) → Contains words.now j → j < width C H G }
{
    match *op {
        Op::Inc { counter, .. } => is_word(words, counter),
        Op::Observe { hist, place, .. } => {
            let first = C + HIST * hist;
            words == [first + SUM, first + COUNT, first + place].as_slice()
        }
        Op::Up { gauge, .. } => is_word(words, C + HIST * H + 2 * gauge),
        Op::Down { gauge, .. } => is_word(words, C + HIST * H + 2 * gauge + 1),
    }
}

/// Whether this is a list of one word.
#[inline(always)]
fn is_word(words: &[usize], word: usize) -> bool
    ensures { result ≡ true → words.now ≡ word ∷ [] }
{
    words.len() == 1 && words[0] == word
}

// Lists the words of a row that an operation adds to, behind those that are listed.
#[inline(always)]
fn touch_one<const C: usize, const H: usize, const G: usize>(
    op: &Op,
    touched: &mut ChangedItems,
    run: &mut Run,
)
    requires within { IsWithin C H G op.now }
    requires slots { AreSlots C H G }
    requires run { IsRun C H run.old touched.old }
    ensures touches { Touches 3 (width C H G) (part C H op.now) touched.old touched.new }
    ensures run { IsRun C H run.new touched.new }
{
    match *op {
        Op::Inc { counter, .. } => touched.note(counter),
        Op::Observe { hist, place, .. } => {
            touch_hist::<C, H, G>(hist, touched, run);
            touch_bucket::<C, H, G>(place, touched, run);
        }
        Op::Up { gauge, .. } => touched.note(C + HIST * H + 2 * gauge),
        Op::Down { gauge, .. } => touched.note(C + HIST * H + 2 * gauge + 1),
    }
}

// Lists the sum and the count of a histogram, and begins its run. In its run they are listed already.
#[inline(always)]
fn touch_hist<const C: usize, const H: usize, const G: usize>(
    hist: usize,
    touched: &mut ChangedItems,
    run: &mut Run,
)
    requires within { hist < H }
    requires slots { AreSlots C H G }
    requires run { IsRun C H run.old touched.old }
    ensures touches { (by : ℕ) → Touches 2 (width C H G) (λ k. only (C + 27 * hist + 25) by k + only (C + 27 * hist + 26) 1 k)
        touched.old touched.new }
    ensures run { IsRun C H run.new touched.new }
    ensures hist { run.new.hist ≡ hist }
{
    if run.hist == hist {
        return;
    }
    let first = C + HIST * hist;
    touched.note(first + SUM);
    touched.note(first + COUNT);
    *run = Run { hist, seen: 0 };
}

// Lists a bucket of the run's histogram, where it is not listed in this run.
#[inline(always)]
fn touch_bucket<const C: usize, const H: usize, const G: usize>(
    place: usize,
    touched: &mut ChangedItems,
    run: &mut Run,
)
    requires within { (run.old.hist < H) × (place < 25) }
    requires slots { AreSlots C H G }
    requires run { IsRun C H run.old touched.old }
    ensures touches { Touches 1 (width C H G) (only (C + 27 * run.old.hist + place) 1) touched.old touched.new }
    ensures run { IsRun C H run.new touched.new }
{
    if run.has(place) {
        return;
    }
    touched.note(C + HIST * run.hist + place);
    run.add(place);
}
