//! The steps: each makes one atomic load or store of one word of the board, and takes no memory.
ghost use Rattle.std.specs.Prelude.{◌^◌, ◌≡◌, ◌+◌, ◌*◌, ◌<◌, ◌≤◌, [], ◌∷◌, ◌++◌, length};
ghost use Rattle.bucket_math.specs.Words.{greatest_word};
ghost use Rattle.ledger_core.specs.Ops.{width, sum_ops};
ghost use Rattle.ledger_core.specs.Row.{Accepts};
ghost use Rattle.segment_layout.specs.Layout.{depth, span, words};
ghost use Rattle.register_rule.specs.declared.view.Member.{Member};
ghost use Rattle.register_rule.specs.Words.{version_item, IsPlaceOf};
ghost use Rattle.register_rule.specs.Sums.{word_after};
ghost use Rattle.register_rule.specs.ScanSteps.{after};
ghost use Rattle.register_rule.specs.Members.{filled, published, picked, without, met};
ghost use Rattle.register_rule.specs.Told.{IsLoad, word_of, LoadTells, IsNumber, AreRuledAt, HoldsNext};
ghost use Rattle.register_rule.specs.Told.{ScanChangesBy};
ghost use Rattle.register_rule.specs.Seats.{table_of, members_of, worker_of, index_of, board_id, start_of};
ghost use Rattle.register_rule.specs.Seats.{IsSeatOf, MayScan, IsWorkSeatOf};

use crate::board::{Board, Key, Law};
use crate::load::Load;
use crate::seats::{Bundle, WorkSeat};
use crate::table_steps::{Both, load_as, split_as, store_as};
use crate::view::{SeatView, Who};
use ledger_core::Op;
use segment_layout::{Part, buffer_words, next_buffer};
use std::marker::Brand;

impl<const N: usize, const C: usize, const H: usize, const G: usize> Board<N, C, H, G> {
    /// The id that the board was made with.
    pub fn id(&self) -> u64
        ensures { result ≡ board_id self.now }
    {
        self.id
    }

    // Where on the board the number of a segment stands.
    #[inline]
    fn word_of_number(&self, segment: usize) -> usize
        requires { segment < N }
        ensures { (result ≡ segment * span (depth N (width C H G)) + 0) × (result < self.now.table.shared.table_id.words) }
    {
        segment_layout::place_of(N, C, H, G, segment, Part::Number)
    }

    // Where on the board an item of a version stands. An item is counted along its buffer already, so that no part has to be told
    // from it, as `place_of` of segment_layout would.
    #[inline]
    fn word_of_item(&self, segment: usize, version: u64, item: usize) -> usize
        requires { (segment < N) × (item < depth N (width C H G)) }
        ensures place { (result ≡ segment * span (depth N (width C H G)) + version_item (depth N (width C H G)) version item)
            × (result < self.now.table.shared.table_id.words) }
        ensures part { IsPlaceOf N (width C H G) segment version item result }
    {
        self.word_of_number(segment) + 1 + (version % 2) as usize * buffer_words(N, C, H, G) + item
    }

    // Where on the board the word of a load stands.
    #[inline]
    fn word_of_load(&self, what: Load) -> usize
        requires { IsLoad N (depth N (width C H G)) what }
        ensures { (result ≡ word_of (depth N (width C H G)) what) × (result < self.now.table.shared.table_id.words) }
    {
        match what {
            Load::Open { place } => self.word_of_number(place),
            Load::Read {
                place,
                number,
                item,
            } => self.word_of_item(place, number, item),
            Load::Confirm { place } => self.word_of_number(place),
            Load::Ask { place } => self.word_of_number(place),
            Load::EndAsk { place } => self.word_of_number(place),
        }
    }

    /// One load of a scan by the first member of a bundle.
    #[inline]
    pub(crate) fn load(&self, bundle: &mut Bundle, what: Load) -> u64
        requires of_board { MayScan self.now bundle.old }
        requires inside { IsLoad N (depth N (width C H G)) what }
        ensures learns { ScanChangesBy N C H G (after N (width C H G) what result) bundle.old bundle.new }
        ensures told { LoadTells (width C H G) what (members_of bundle.old) result }
    {
        let at = self.word_of_load(what);
        load_as::<Load, Key, SeatView, Brand, Law<N, C, H, G>>(
            &self.table.shared,
            &mut bundle.seat,
            at,
            &what,
        )
    }

    /// Where on the board the worker's own hidden buffer begins, for [`Board::fill_at`]. It stays there until the worker
    /// publishes.
    #[inline]
    pub fn hidden_start(&self, seat: &WorkSeat) -> usize
        requires of_board { IsWorkSeatOf self.now seat.now }
        ensures { result ≡ start_of N (width C H G) seat.now }
    {
        self.word_of_item(seat.worker, next_buffer(seat.number) as u64, 0)
    }

    /// Stores a word into the worker's own hidden buffer, at the item `item` of it. `start` is what [`Board::hidden_start`]
    /// answers.
    ///
    /// An item is counted along the buffer: `item_at` of segment_layout says where the row's words, the flag, the vector
    /// and the lent totals stand. A word of the row is at most 2^48 - 1.
    #[inline]
    pub fn fill_at(&self, seat: &mut WorkSeat, start: usize, item: usize, word: u64)
        requires of_board { IsWorkSeatOf self.now seat.old }
        requires start { start ≡ start_of N (width C H G) seat.old }
        requires inside { item < depth N (width C H G) }
        requires bounded { item < width C H G → word ≤ greatest_word }
        ensures of_board { IsWorkSeatOf self.now seat.new }
        ensures index { index_of seat.new ≡ index_of seat.old }
        ensures member { worker_of seat.new ≡ filled item word (worker_of seat.old) }
    {
        store_as::<usize, Key, Brand, Law<N, C, H, G>>(
            &self.table.shared,
            &mut seat.bundle.seat,
            start + item,
            word,
            &item,
        );
    }

    /// As [`Board::fill_at`], where the buffer begins.
    #[inline]
    pub fn fill_word(&self, seat: &mut WorkSeat, item: usize, word: u64)
        requires of_board { IsWorkSeatOf self.now seat.old }
        requires inside { item < depth N (width C H G) }
        requires bounded { item < width C H G → word ≤ greatest_word }
        ensures of_board { IsWorkSeatOf self.now seat.new }
        ensures index { index_of seat.new ≡ index_of seat.old }
        ensures member { worker_of seat.new ≡ filled item word (worker_of seat.old) }
    {
        let start = self.hidden_start(seat);
        self.fill_at(seat, start, item, word);
    }

    /// Stores the worker's own number plus one, which makes the hidden buffer the shown one: the worker has then
    /// published these operations. With `lends` the version lends the last answer that the worker recorded, if there is
    /// one. A worker publishes at most 2^64 - 1 times.
    ///
    /// The hidden buffer has to hold the new row, the flag, and where an answer is lent its vector and its totals.
    #[inline]
    pub fn publish(&self, seat: &mut WorkSeat, ops: &[Op], lends: bool)
        requires of_board { IsWorkSeatOf self.now seat.old }
        requires room { length (worker_of seat.old).work.made + 1 < 2 ^ 64 }
        requires full { HoldsNext N (width C H G) (depth N (width C H G)) (sum_ops C H) ops.now lends (worker_of seat.old) }
        requires accepted { Accepts C H G (word_after (sum_ops C H) (worker_of seat.old).work.made) ops.now }
        ensures of_board { IsWorkSeatOf self.now seat.new }
        ensures index { index_of seat.new ≡ index_of seat.old }
        ensures member { worker_of seat.new ≡ published (width C H G) (index_of seat.old) ops.now lends (worker_of seat.old) }
    {
        let at = self.word_of_number(seat.worker);
        let number = seat.number + 1;
        store_as::<(usize, &[Op], bool), Key, Brand, Law<N, C, H, G>>(
            &self.table.shared,
            &mut seat.bundle.seat,
            at,
            number,
            &(seat.worker, ops, lends),
        );
        seat.number = number;
    }

    /// Loads the number of the segment of this place, and changes no view. It tells all that the rule says of the members
    /// at hand, alone and in pairs, at the moment of the load.
    #[inline]
    pub fn tell(&self, bundle: &mut Bundle, place: usize) -> u64
        requires of_board { IsSeatOf self.now bundle.old }
        requires inside { place < N }
        ensures table { table_of bundle.new ≡ table_of bundle.old }
        ensures same { members_of bundle.new ≡ members_of bundle.old }
        ensures number { IsNumber place (members_of bundle.old) result }
        ensures ruled { AreRuledAt N (width C H G) (sum_ops C H) (Accepts C H G) place (members_of bundle.old) result }
    {
        let at = self.word_of_number(place);
        load_as::<usize, Key, SeatView, Brand, Law<N, C, H, G>>(
            &self.table.shared,
            &mut bundle.seat,
            at,
            &place,
        )
    }

    /// Parts a member of a bundle from it, by one load: it gets a seat of its own.
    pub fn part(&self, bundle: &mut Bundle, who: Who) -> Bundle
        requires of_board { IsSeatOf self.now bundle.old }
        requires there { (m : Member) × (picked who (members_of bundle.old) ≡ m ∷ []) }
        ensures table { (table_of bundle.new ≡ table_of bundle.old) × (table_of result ≡ table_of bundle.old) }
        ensures others { members_of bundle.new ≡ without who (members_of bundle.old) }
        ensures one { members_of result ≡ picked who (members_of bundle.old) }
    {
        Bundle {
            seat: split_as::<Who, Key, Brand, Law<N, C, H, G>>(
                &self.table.shared,
                &mut bundle.seat,
                &who,
            ),
        }
    }

    /// Joins the members of another bundle into this one, behind its own, by one load: they meet, and each has then
    /// seen what any of them has seen or made.
    pub fn join(&self, bundle: &mut Bundle, other: Bundle)
        requires of_board { IsSeatOf self.now bundle.old × IsSeatOf self.now other }
        ensures table { table_of bundle.new ≡ table_of bundle.old }
        ensures all { members_of bundle.new ≡ met (members_of bundle.old ++ members_of other) }
    {
        let Bundle { seat } = other;
        self.table.shared.join_seat::<Both>(&mut bundle.seat, seat);
    }
}
