//! The board, and what it is made into.
ghost use Rattle.std.specs.Prelude.{◌≡◌, ◌<◌};
ghost use Rattle.ledger_core.specs.Ops.{width};
ghost use Rattle.segment_layout.specs.Layout.{IsGeometry, words};
ghost use Rattle.std.specs.Bool.{Decides};
ghost use Rattle.register_rule.specs.Faults.{IsBoardSize};

use crate::board_fault::BoardFault;
use crate::hush::HushWord;
use crate::seats::{Bundle, ReadSeat, WorkSeat};
use crate::view::{SeatView, Who};
use atomic_table::{Play, Split, Table, TableRule};
use ledger_core::{MAX_COUNTERS, MAX_GAUGES, MAX_HISTOGRAMS, MAX_WORKERS};
use segment_layout::words_needed;
use std::alloc::{AllocError, Global};
use std::marker::Brand;

/// What the table is told once: the board's id, and how many readers there are.
#[derive(Drop)]
pub struct Key {
    pub(crate) id: u64,
    pub(crate) readers: usize,
}

/// The rule of a board of this geometry.
pub struct Law<const N: usize, const C: usize, const H: usize, const G: usize>;

impl<const N: usize, const C: usize, const H: usize, const G: usize> TableRule<(), SeatView, Key>
    for Law<N, C, H, G> {
    ghost use Rattle.ledger_core.specs.Ops.{width, sum_ops};
    ghost use Rattle.ledger_core.specs.Row.{Accepts};
    ghost use Rattle.segment_layout.specs.Layout.{depth};
    ghost use Rattle.register_rule.specs.Told.{KeepsRule};
    ghost use Rattle.register_rule.specs.Members.{everyone};

    ghost holds = { λ _. KeepsRule N (width C H G) (depth N (width C H G)) (sum_ops C H) (Accepts C H G) };

    ghost first = { λ key. everyone N (width C H G) (depth N (width C H G)) key.readers };
}

// Placeholders, for which `Brand` of std serves since it stands for nothing here: what a call tells, and how it splits a view, it
// picks by itself in its proof (`table_steps.rt` tells how).
impl Play<(), SeatView> for Brand {
    ghost then = { λ _ _ _ _. Unit {0} };
}

impl Split<SeatView> for Brand {
    ghost left = { λ v. v };

    ghost right = { λ v. v };
}

/// The words that all workers and readers share: `N` segments, 1 to 32, of rows of `C` counters, at most 256, `H` histograms, at
/// most 32, and `G` gauges, at most 64. A row has `C + 27 * H + 2 * G` words of at most 2^48 - 1. Beside them is the hush word,
/// by which a scan asks the workers to rest ([`Board::hush`]).
pub struct Board<const N: usize, const C: usize, const H: usize, const G: usize> {
    pub(crate) table: Table<(), SeatView, Key, Law<N, C, H, G>, Global>,
    pub(crate) id: u64,
    pub(crate) hush: HushWord,
    ghost sized: { IsGeometry N C H G × (table.shared.table_id.words ≡ words N (width C H G)) },
    ghost named: { table.shared.key.id ≡ id },
}

impl<const N: usize, const C: usize, const H: usize, const G: usize> Drop for Board<N, C, H, G> {
    fn drop(self) {
        let Board {
            table: _,
            id: _,
            hush: _,
        } = self;
    }
}

/// A board, and a seat of its own for each worker and each reader, in their order.
#[derive(Drop)]
pub struct Parts<const N: usize, const C: usize, const H: usize, const G: usize> {
    /// The words.
    pub board: Board<N, C, H, G>,
    /// The seats of workers 0 to `N` - 1.
    pub work: Vec<WorkSeat>,
    /// The seats of the readers, from 0.
    pub read: Vec<ReadSeat>,
}

const MAX_READERS: usize = 4;

impl<const N: usize, const C: usize, const H: usize, const G: usize> Board<N, C, H, G> {
    ghost use Rattle.std.specs.Prelude.{◌≡◌, ◌+◌, ◌<◌, ◌++◌, map, IfOk, IfErr, OnOk, All};
    ghost use Rattle.ledger_core.specs.Ops.{width};
    ghost use Rattle.segment_layout.specs.Layout.{depth};
    ghost use Rattle.register_rule.specs.Members.{workers_from, readers_from};
    ghost use Rattle.register_rule.specs.Seats.{table_of, members_of, worker_of, reader_of, board_id, IsSeatOf, IsWorkSeatOf};
    ghost use Rattle.register_rule.specs.Seats.{IsReadSeatOf};
    ghost use Rattle.register_rule.specs.Faults.{IsBoardSize, IsBoardFault};

    /// A board of this id whose words are all zero, with a seat for each of its `N` workers and `readers` readers, in
    /// order: nobody has published, recorded or seen anything.
    ///
    /// # Errors
    ///
    /// [`BoardFault::Geometry`], 13, unless `N` is 1 to 32, `C` at most 256, `H` at most 32, `G` at most 64 and
    /// `readers` 1 to 4; then [`BoardFault::NoMemory`], 6.
    pub fn new(alloc: Global, id: u64, readers: usize) -> Result<Parts<N, C, H, G>, BoardFault>
        ensures id { IfOk result (λ p. board_id p.board ≡ id) }
        ensures work { IfOk result (λ p. All (IsWorkSeatOf p.board) p.work.items
            × (map worker_of p.work.items ≡ workers_from N (width C H G) (depth N (width C H G)) 0 N)) }
        ensures read { IfOk result (λ p. All (IsReadSeatOf p.board) p.read.items
            × (map reader_of p.read.items ≡ readers_from N (width C H G) 0 readers)) }
        ensures geometry { IfOk result (λ _. IsBoardSize N C H G readers) }
        ensures fault { IfErr result (IsBoardFault N C H G readers) }
    {
        if !is_board(N, C, H, G, readers) {
            return Err(BoardFault::Geometry);
        }
        let words = vec![in alloc; 0u64; words_needed(N, C, H, G)]?;
        let key = Key { id, readers };
        let (table, seat) = Table::of_words(alloc, words.as_slice(), &key)?;
        let hush = HushWord::new();
        let board = Board { table, id, hush };
        let mut rest = Bundle { seat };
        let work = board.part_workers(alloc, &mut rest, readers)?;
        let read = board.part_readers(alloc, &mut rest, readers)?;
        Ok(Parts { board, work, read })
    }

    fn part_workers(
        &self,
        alloc: Global,
        rest: &mut Bundle,
        readers: usize,
    ) -> Result<Vec<WorkSeat>, AllocError>
        requires of_board { IsSeatOf self.now rest.old }
        requires all { members_of rest.old ≡ workers_from N (width C H G) (depth N (width C H G)) 0 N ++ readers_from N
            (width C H G) 0 readers }
        ensures table { table_of rest.new ≡ table_of rest.old }
        ensures rest { OnOk result (members_of rest.new ≡ readers_from N (width C H G) 0 readers) }
        ensures work { IfOk result (λ v. All (IsWorkSeatOf self.now) v.items
            × (map worker_of v.items ≡ workers_from N (width C H G) (depth N (width C H G)) 0 N)) }
    {
        let mut work = Vec::new(alloc);
        for i in 0..N {
            let one = self.part(rest, Who::Worker(i));
            work.push(one.into_work(i, 0))?;
        }
        Ok(work)
    }

    fn part_readers(
        &self,
        alloc: Global,
        rest: &mut Bundle,
        readers: usize,
    ) -> Result<Vec<ReadSeat>, AllocError>
        requires of_board { IsSeatOf self.now rest.old }
        requires all { members_of rest.old ≡ readers_from N (width C H G) 0 readers }
        ensures table { table_of rest.new ≡ table_of rest.old }
        ensures read { IfOk result (λ v. All (IsReadSeatOf self.now) v.items
            × (map reader_of v.items ≡ readers_from N (width C H G) 0 readers)) }
    {
        let mut read = Vec::new(alloc);
        for i in 0..readers {
            let one = self.part(rest, Who::Reader(i));
            read.push(one.into_read(i))?;
        }
        Ok(read)
    }
}

fn is_board(n: usize, c: usize, h: usize, g: usize, readers: usize) -> bool
    ensures { Decides result (IsBoardSize n c h g readers) }
{
    1 <= n
        && n <= MAX_WORKERS
        && c <= MAX_COUNTERS
        && h <= MAX_HISTOGRAMS
        && g <= MAX_GAUGES
        && 1 <= readers
        && readers <= MAX_READERS
}
