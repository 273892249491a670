//! Reading a row over the words of the one that was read before.
ghost use Rattle.std.specs.Prelude.{◌≡◌, ℕ, ◌+◌, ◌<◌, ◌≤◌, List, length, slice_index, slice_set};
ghost use Rattle.bucket_math.specs.Words.{greatest_word};
ghost use Rattle.ledger_core.specs.Ops.{width};
ghost use Rattle.register_rule.specs.declared.view.Member.{Member};
ghost use Rattle.register_rule.specs.Members.{led, scan_changed};
ghost use Rattle.register_rule.specs.Seats.{table_of, members_of, HasMember, MayScan};
ghost use Rattle.snapshot_scan.specs.Shape.{read_all};
ghost use Rattle.snapshot_scan.specs.ChangedItems.{ChangedView, Notes, ListsChanges};
ghost use Rattle.snapshot_scan.specs.Reading.{IsReadTo};

use crate::changed_items::ChangedItems;
use register_rule::{Board, ScanSeat};

/// How many words are read in one turn.
const TURN: usize = 4;

/// Makes a word another one, and lists it.
#[cold]
#[inline(never)]
fn change_word(words: &mut [u64], changed: &mut ChangedItems, k: usize, word: u64)
    requires { k < length words.old }
    ensures words { words.new ≡ slice_set words.old k word }
    ensures notes { Notes k changed.old changed.new }
{
    words[k] = word;
    changed.note(k);
}

/// Makes a word this one, and lists it where it was another.
#[inline(always)]
fn put_word(words: &mut [u64], changed: &mut ChangedItems, k: usize, word: u64)
    requires { k < length words.old }
    ensures words { words.new ≡ slice_set words.old k word }
    ensures moves { ListsChanges (length words.old) words.old words.new changed.old changed.new }
{
    if words[k] != word {
        change_word(words, changed, k, word);
    }
}

/// Reads the word `k` of a row, where those before it are read.
#[inline(always)]
fn read_one<
    S: ScanSeat<N, C, H, G>,
    const N: usize,
    const C: usize,
    const H: usize,
    const G: usize,
>(
    board: &Board<N, C, H, G>,
    seat: &mut S,
    place: usize,
    number: u64,
    k: usize,
    words: &mut [u64],
    changed: &mut ChangedItems,
)
    requires of_board { MayScan board.now (S.bundle seat.old) }
    requires inside { (place < N) × (k < length words.old) × (length words.old ≡ width C H G) }
    ensures table { table_of (S.bundle seat.new) ≡ table_of (S.bundle seat.old) }
    ensures leads { HasMember (members_of (S.bundle seat.new)) }
    ensures read { (ms : List Member) (row : List ℕ) (listed : ChangedView)
        → IsReadTo (width C H G) place number k ms (members_of (S.bundle seat.old)) row words.old listed changed.old
        → IsReadTo (width C H G) place number (k + 1) ms (members_of (S.bundle seat.new)) row words.new listed changed.new }
{
    let word = board.read_word(seat, place, number, k);
    put_word(words, changed, k, word);
}

/// Reads so many words of a row, from the word `from` on, where those before it are read.
#[inline(always)]
fn read_words<
    S: ScanSeat<N, C, H, G>,
    const N: usize,
    const C: usize,
    const H: usize,
    const G: usize,
>(
    board: &Board<N, C, H, G>,
    seat: &mut S,
    place: usize,
    number: u64,
    from: usize,
    count: usize,
    words: &mut [u64],
    changed: &mut ChangedItems,
)
    requires of_board { MayScan board.now (S.bundle seat.old) }
    requires inside { (place < N) × (from + count ≤ length words.old) × (length words.old ≡ width C H G) }
    ensures table { table_of (S.bundle seat.new) ≡ table_of (S.bundle seat.old) }
    ensures leads { HasMember (members_of (S.bundle seat.new)) }
    ensures read { (ms : List Member) (row : List ℕ) (listed : ChangedView)
        → IsReadTo (width C H G) place number from ms (members_of (S.bundle seat.old)) row words.old listed changed.old
        → IsReadTo (width C H G) place number (from + count) ms (members_of (S.bundle seat.new)) row words.new listed changed.new }
{
    for k in 0..count {
        read_one(board, seat, place, number, from + k, words, changed);
    }
}

/// Reads the row that the number `number` of a segment shows over `words`. A word that is there already is not written, and each
/// word that changes is listed.
#[inline(never)]
pub(crate) fn read_row<
    S: ScanSeat<N, C, H, G>,
    const N: usize,
    const C: usize,
    const H: usize,
    const G: usize,
>(
    board: &Board<N, C, H, G>,
    seat: &mut S,
    place: usize,
    number: u64,
    words: &mut [u64],
    changed: &mut ChangedItems,
)
    requires of_board { MayScan board.now (S.bundle seat.old) }
    requires inside { (place < N) × (length words.old ≡ width C H G) }
    ensures table { table_of (S.bundle seat.new) ≡ table_of (S.bundle seat.old) }
    ensures member { members_of (S.bundle seat.new) ≡ led (scan_changed (read_all (width C H G) place number 0 words.new))
        (members_of (S.bundle seat.old)) }
    ensures bounded { (k : ℕ) → k < width C H G → slice_index words.new k ≤ greatest_word }
    ensures moves { ListsChanges (width C H G) words.old words.new changed.old changed.new }
{
    let turns = words.len() / TURN;
    let rest = words.len() % TURN;
    for turn in 0..turns {
        read_words(
            board,
            seat,
            place,
            number,
            TURN * turn,
            TURN,
            words,
            changed,
        );
    }
    read_words(
        board,
        seat,
        place,
        number,
        TURN * turns,
        rest,
        words,
        changed,
    );
}
