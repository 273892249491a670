//! What C calls for exact totals, once all recorders are given back.
ghost use Rattle.std.specs.Prelude.{◌≡◌, ℕ, ◌<◌, ◌≤◌, length, All, IsTrue, IsFalse, IfErr, OnOk, OnErr, true, false};
ghost use mathlib.Core.Option.{some};
ghost use lib.ListN.{get_elem?};
ghost use Rattle.ledger_core.specs.Ops.{width};
ghost use Rattle.chain_law.specs.Settled.{HasIndex, IsSettled};
ghost use Rattle.snapshot_scan.specs.Snapshots.{as_answer};
ghost use Rattle.dirgwako_c.specs.Held.{Calls};
ghost use Rattle.dirgwako_c.specs.Registries.{recorders_in};
ghost use Rattle.dirgwako_c.specs.Settling.{seats_on, workers_of, published_in, Knows, AreOnce, IsTwice, IsApart};
ghost use Rattle.dirgwako_c.specs.Settling.{AreSettled, Settles};

use crate::handles::RegistryHandle;
use crate::held::HeldRegistry;
use crate::numbers::hand_over_numbers;
use crate::spare::Spare;
use snapshot_scan::Snapshot;
use std::alloc::Global;

/// Why recorders are not those of all workers, each once.
#[derive(Clone, Copy)]
pub enum Apart {
    /// The least worker whose recorder is not there.
    Missing(usize),
    /// Two are of one worker.
    Twice,
}

/// Marks the workers of these recorders, up to the first that is there twice; whether there is none.
fn mark<const N: usize, const C: usize, const H: usize, const G: usize>(
    spare: &Spare<N, C, H, G>,
    board: usize,
    marks: &mut [bool],
) -> bool
    requires known { All (Knows board) (recorders_in spare.now) }
    requires all { length marks.old ≡ N }
    requires none { (i : ℕ) → i < N → get_elem? marks.old i ≡ some false }
    ensures marks { IsTrue result → (i : ℕ) → i < N
        → (get_elem? marks.new i ≡ some true → HasIndex (workers_of (seats_on board (recorders_in spare.now))) i)
        × (get_elem? marks.new i ≡ some false → ¬ (HasIndex (workers_of (seats_on board (recorders_in spare.now))) i)) }
    ensures once { IsTrue result → AreOnce (workers_of (seats_on board (recorders_in spare.now))) }
    ensures twice { IsFalse result → IsTwice (workers_of (seats_on board (recorders_in spare.now))) }
{
    for place in 0..spare.len() {
        let worker = spare.seat(place, board).index();
        if marks[worker] {
            return false;
        }
        marks[worker] = true;
    }
    true
}

/// Whether these are recorders of all workers, each once.
fn gathered<const N: usize, const C: usize, const H: usize, const G: usize>(
    spare: &Spare<N, C, H, G>,
    board: usize,
) -> Result<(), Apart>
    requires { All (Knows board) (recorders_in spare.now) }
    ensures all { OnOk result ((i : ℕ) → i < N → HasIndex (workers_of (seats_on board (recorders_in spare.now))) i) }
    ensures once { OnOk result (AreOnce (workers_of (seats_on board (recorders_in spare.now)))) }
    ensures apart { IfErr result (IsApart (workers_of (seats_on board (recorders_in spare.now)))) }
{
    let mut marks = [false; N];
    if !mark(spare, board, &mut marks) {
        return Err(Apart::Twice);
    }
    for worker in 0..N {
        if !marks[worker] {
            return Err(Apart::Missing(worker));
        }
    }
    Ok(())
}

/// What all that these recorders have published adds to a word of a row.
fn total_at<const N: usize, const C: usize, const H: usize, const G: usize>(
    spare: &Spare<N, C, H, G>,
    board: usize,
    word: usize,
) -> u64
    requires known { All (Knows board) (recorders_in spare.now) }
    requires word { word < width C H G }
    requires few { length (recorders_in spare.now) ≤ 32 }
    ensures sum { result ≡ published_in (seats_on board (recorders_in spare.now)) word }
    ensures low { result < 9007199254740992 }
{
    let mut sum = 0;
    for place in 0..spare.len() {
        sum += spare.seat(place, board).row().word_at(word);
    }
    sum
}

/// Makes the vector that of these recorders.
fn set_numbers<const N: usize, const C: usize, const H: usize, const G: usize>(
    spare: &Spare<N, C, H, G>,
    board: usize,
    out: &mut Snapshot<N, C, H, G>,
)
    requires known { All (Knows board) (recorders_in spare.now) }
    requires once { AreOnce (workers_of (seats_on board (recorders_in spare.now))) }
    ensures { AreSettled (workers_of (seats_on board (recorders_in spare.now))) out.new.vector }
{
    // A look into the snapshot tells the proof how long its vector is.
    let _vector = out.vector();
    for place in 0..spare.len() {
        let recorder = spare.seat(place, board);
        out.set_number(recorder.index(), recorder.number());
    }
}

/// Makes the totals those of all that these recorders have published.
fn set_totals<const N: usize, const C: usize, const H: usize, const G: usize>(
    spare: &Spare<N, C, H, G>,
    board: usize,
    out: &mut Snapshot<N, C, H, G>,
)
    requires known { All (Knows board) (recorders_in spare.now) }
    requires few { length (recorders_in spare.now) ≤ 32 }
    ensures totals { (k : ℕ) → k < width C H G
        → get_elem? out.new.totals k ≡ some (published_in (seats_on board (recorders_in spare.now)) k) }
    ensures vector { out.new.vector ≡ out.old.vector }
{
    for word in 0..out.totals().len() {
        out.set_total(word, total_at(spare, board, word));
    }
}

/// Exact totals of all that these recorders have published.
fn settle<const N: usize, const C: usize, const H: usize, const G: usize>(
    spare: &Spare<N, C, H, G>,
    board: usize,
    out: &mut Snapshot<N, C, H, G>,
) -> Result<(), Apart>
    requires { All (Knows board) (recorders_in spare.now) }
    ensures settled { OnOk result (IsSettled (workers_of (seats_on board (recorders_in spare.now))) out.new) }
    ensures all { OnOk result ((i : ℕ) → i < N → HasIndex (workers_of (seats_on board (recorders_in spare.now))) i) }
    ensures long { OnOk result (length out.new.vector ≡ N) }
    ensures wide { OnOk result (length out.new.totals ≡ width C H G) }
    ensures apart { IfErr result (IsApart (workers_of (seats_on board (recorders_in spare.now)))) }
{
    match gathered(spare, board) {
        Ok(()) => {
            set_numbers(spare, board, out);
            set_totals(spare, board, out);
            // Looks into the snapshot tell the proof how long its lists are.
            let _vector = out.vector();
            let _totals = out.totals();
            Ok(())
        }
        Err(apart) => Err(apart),
    }
}

/// Exact totals of the recorders that nobody has, on the board of this number, at the front of a buffer that has room for them.
fn settle_to<const N: usize, const C: usize, const H: usize, const G: usize>(
    registry: &mut HeldRegistry<N, C, H, G>,
    number: usize,
    buffer: &mut [u64],
    len: &mut usize,
    missing: &mut usize,
) -> u32
    ensures { Settles number result registry.old registry.new buffer.old buffer.new len.old len.new missing.old missing.new }
{
    let boards = registry.registrar.at.crew.page().boards();
    if number >= boards.len() {
        return 42;
    }
    let id = boards[number].id();
    if !registry.spare.join(number) {
        return 16;
    }
    match settle(&registry.spare, number, &mut registry.numbers) {
        Ok(()) => hand_over_numbers(id, &registry.numbers, buffer, len),
        Err(Apart::Missing(worker)) => {
            *missing = worker;
            18
        }
        Err(Apart::Twice) => 16,
    }
}

/// Exact totals of a board, once all recorders are given back: each is exactly the sum of all that was counted on it, as
/// [`dirgwako::settle`] has it. They stand at the front of the buffer, as those of a scrape do, and `len` is how many they are.
/// Nothing is scanned, and nothing kept. Takes no memory.
///
/// Answers 34, the handle is empty; 42, no board has this number; 18, the recorder of worker `missing` was not given back; 16,
/// one was given back that is of another registry, of the same id; 37, the buffer is too short: `len` tells how many numbers
/// there are.
#[unsafe(no_mangle)]
pub extern "C" fn dirgwako_c_settle(
    alloc: Global,
    registry: &mut RegistryHandle,
    board: usize,
    buffer: &mut [u64],
    len: &mut usize,
    missing: &mut usize,
) -> u32
    ensures { Calls ((buffer.new ≡ buffer.old) × (len.new ≡ len.old) × (missing.new ≡ missing.old))
        (λ before after. Settles board result before after buffer.old buffer.new len.old len.new missing.old missing.new) result
        registry.old.value registry.new.value }
{
    let Some(mut held) = registry.take(alloc) else {
        return 34;
    };
    let answer = settle_to(&mut held, board, buffer, len, missing);
    registry.put(alloc, held);
    answer
}
