//! What C calls to read the numbers of a scrape of a board.
ghost use Rattle.std.specs.Prelude.{◌≡◌, ◌≤◌, length, slice_get, Some, IsSome, IsTrue, IsFalse};
ghost use Rattle.snapshot_scan.specs.Snapshots.{as_answer};
ghost use Rattle.registry_state.specs.Journal.{scrapes};
ghost use Rattle.dirgwako_c.specs.Held.{Calls};
ghost use Rattle.dirgwako_c.specs.Numbers.{Reads, TellsKept, ReadsKept};

use crate::handles::RegistryHandle;
use crate::held::HeldRegistry;
use crate::numbers::hand_over_numbers;
use dirgwako::{NoScrape, RegistryState};
use page_crew::SharedScanner;
use snapshot_scan::Snapshot;
use std::alloc::Global;

/// The newest scrape of a board that is kept.
fn newest<const N: usize, const C: usize, const H: usize, const G: usize>(
    board: &RegistryState<SharedScanner<N, C, H, G>, N, C, H, G>,
    out: &mut Snapshot<N, C, H, G>,
)
    requires { IsSome board.now.state.last }
    ensures { board.now.state.last ≡ Some (as_answer out.new) }
{
    // A look into the journal tells the proof what is kept.
    let _journal = board.journal();
    let kept = board.kept();
    let Some(number) = kept.len().checked_sub(1) else {
        unreachable!()
    };
    kept.read(number, out);
}

/// The numbers of a new scrape of the board of this number, at the front of a buffer that has room for them.
fn read_to<const N: usize, const C: usize, const H: usize, const G: usize>(
    registry: &mut HeldRegistry<N, C, H, G>,
    number: usize,
    buffer: &mut [u64],
    len: &mut usize,
) -> u32
    ensures { Reads number result registry.old registry.new buffer.old buffer.new len.old len.new }
{
    if number >= registry.registrar.at.crew.page().boards().len() {
        return 42;
    }
    match registry.registrar.at.crew.keep_board(number) {
        Ok(()) => {
            let board = &registry.registrar.at.crew.page().boards()[number];
            newest(board, &mut registry.numbers);
            hand_over_numbers(board.id(), &registry.numbers, buffer, len)
        }
        Err(NoScrape::NoMemory) => 6,
        Err(NoScrape::Contended) => 14,
    }
}

/// Makes a scrape of the board of this number alone, which it keeps, and reads its numbers, all at one moment: the board's id,
/// how often each thread has published on it, and the totals. They stand at the front of the buffer, and `len` is how many they
/// are.
///
/// Answers 34, the handle is empty; 42, no board has this number; 14, four scans were given up, one after the other; 6, out of
/// memory; 37, the buffer is too short: `len` tells how many numbers there are. The scrape is kept then as well.
#[unsafe(no_mangle)]
pub extern "C" fn dirgwako_c_read(
    alloc: Global,
    registry: &mut RegistryHandle,
    board: usize,
    buffer: &mut [u64],
    len: &mut usize,
) -> u32
    ensures { Calls ((buffer.new ≡ buffer.old) × (len.new ≡ len.old)) (λ before after. Reads board result before after buffer.old
        buffer.new
        len.old len.new) result registry.old.value registry.new.value }
{
    let Some(mut held) = registry.take(alloc) else {
        return 34;
    };
    let answer = read_to(&mut held, board, buffer, len);
    registry.put(alloc, held);
    answer
}

/// How many scrapes the board of this number keeps.
fn kept_of<const N: usize, const C: usize, const H: usize, const G: usize>(
    registry: &HeldRegistry<N, C, H, G>,
    number: usize,
    kept: &mut usize,
) -> u32
    ensures { TellsKept number result registry.now registry.now kept.old kept.new }
{
    let boards = registry.registrar.at.crew.page().boards();
    if number >= boards.len() {
        return 42;
    }
    *kept = boards[number].kept().len();
    0
}

/// How many scrapes the board of this number keeps.
///
/// Answers 34, the handle is empty; 42, no board has this number.
#[unsafe(no_mangle)]
pub extern "C" fn dirgwako_c_kept(
    alloc: Global,
    registry: &mut RegistryHandle,
    board: usize,
    kept: &mut usize,
) -> u32
    ensures { Calls (kept.new ≡ kept.old) (λ before after. TellsKept board result before after kept.old kept.new) result
        registry.old.value registry.new.value }
{
    let Some(held) = registry.take(alloc) else {
        return 34;
    };
    let answer = kept_of(&held, board, kept);
    registry.put(alloc, held);
    answer
}

/// A scrape that a board keeps, if there are so many.
fn read_at<const N: usize, const C: usize, const H: usize, const G: usize>(
    board: &RegistryState<SharedScanner<N, C, H, G>, N, C, H, G>,
    place: usize,
    out: &mut Snapshot<N, C, H, G>,
) -> bool
    ensures there { IsTrue result → slice_get (scrapes board.now.journal) place ≡ Some (as_answer out.new) }
    ensures none { IsFalse result → length (scrapes board.now.journal) ≤ place }
{
    let kept = board.kept();
    if place >= kept.len() {
        return false;
    }
    kept.read(place, out);
    true
}

/// The numbers of a scrape that the board of this number keeps, at the front of a buffer that has room for them.
fn read_kept_to<const N: usize, const C: usize, const H: usize, const G: usize>(
    registry: &mut HeldRegistry<N, C, H, G>,
    number: usize,
    place: usize,
    buffer: &mut [u64],
    len: &mut usize,
) -> u32
    ensures { ReadsKept number place result registry.old registry.new buffer.old buffer.new len.old len.new }
{
    let boards = registry.registrar.at.crew.page().boards();
    if number >= boards.len() {
        return 42;
    }
    let board = &boards[number];
    if !read_at(board, place, &mut registry.numbers) {
        return 40;
    }
    hand_over_numbers(board.id(), &registry.numbers, buffer, len)
}

/// Reads the numbers of a scrape that the board of this number keeps, counted from the oldest, which is 0. Takes no memory.
///
/// Answers 34, the handle is empty; 42, no board has this number; 40, so many are not kept; 37, the buffer is too short: `len`
/// tells how many numbers there are.
#[unsafe(no_mangle)]
pub extern "C" fn dirgwako_c_read_kept(
    alloc: Global,
    registry: &mut RegistryHandle,
    board: usize,
    number: usize,
    buffer: &mut [u64],
    len: &mut usize,
) -> u32
    ensures { Calls ((buffer.new ≡ buffer.old) × (len.new ≡ len.old))
        (λ before after. ReadsKept board number result before after buffer.old buffer.new len.old len.new) result
        registry.old.value registry.new.value }
{
    let Some(mut held) = registry.take(alloc) else {
        return 34;
    };
    let answer = read_kept_to(&mut held, board, number, buffer, len);
    registry.put(alloc, held);
    answer
}
