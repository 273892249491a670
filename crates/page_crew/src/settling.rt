//! Exact totals of all recorders of a page, on one of its boards.
ghost use Rattle.std.specs.Prelude.{◌≡◌, ◌↔◌, ℕ, ◌<◌, ◌≤◌, length, IsTrue, IfSome, IfNone, IfErr, OnOk, OnErr};
ghost use Rattle.std.specs.List.{AllZip};
ghost use mathlib.Core.Option.{some};
ghost use lib.ListN.{get_elem?};
ghost use Rattle.ledger_core.specs.Ops.{width};
ghost use Rattle.chain_law.specs.Settled.{IsSettled};
ghost use Rattle.page_crew.specs.Settling.{HasJoined, CountsAs, workers_on, published_on, AreAll, IsMisplaced, HasNumbers};

use crate::page_recorder::PageRecorder;
use chain_law::NotAll;
use snapshot_scan::Snapshot;

/// Each of these takes its workers of boards that came since.
pub(crate) fn join_all<const N: usize, const C: usize, const H: usize, const G: usize>(
    recorders: &mut [PageRecorder<N, C, H, G>],
)
    ensures { AllZip HasJoined recorders.old recorders.new }
{
    for place in 0..recorders.len() {
        let _boards = recorders[place].join();
    }
}

/// Whether a recorder counts as this worker on the board of this id.
fn counts_as<const N: usize, const C: usize, const H: usize, const G: usize>(
    recorder: &PageRecorder<N, C, H, G>,
    board: u64,
    worker: usize,
) -> bool
    ensures { IsTrue result ↔ CountsAs board worker recorder.now }
{
    match recorder.recorder_on(board) {
        Some(on) => on.index() == worker,
        None => false,
    }
}

/// The first place at which not the recorder stands that counts as that worker on the board of this id, if there is one.
pub(crate) fn misplaced<const N: usize, const C: usize, const H: usize, const G: usize>(
    recorders: &[PageRecorder<N, C, H, G>],
    board: u64,
) -> Option<usize>
    ensures some { IfSome result (IsMisplaced board recorders.now) }
    ensures none { IfNone result (AreAll board recorders.now) }
{
    for place in 0..recorders.len() {
        if !counts_as(&recorders[place], board, place) {
            return Some(place);
        }
    }
    if recorders.len() < N {
        return Some(recorders.len());
    }
    None
}

/// What all that these have published on the board of this id adds to a word of a row.
fn total_at<const N: usize, const C: usize, const H: usize, const G: usize>(
    recorders: &[PageRecorder<N, C, H, G>],
    board: u64,
    word: usize,
) -> u64
    requires word { word < width C H G }
    requires all { AreAll board recorders.now }
    ensures sum { result ≡ published_on board recorders.now word }
    ensures low { result < 9007199254740992 }
{
    let mut sum = 0;
    for place in 0..recorders.len() {
        let Some(on) = recorders[place].recorder_on(board) else {
            unreachable!()
        };
        sum += on.row().word_at(word);
    }
    sum
}

/// Makes the vector that of these recorders on the board of this id.
fn set_numbers<const N: usize, const C: usize, const H: usize, const G: usize>(
    recorders: &[PageRecorder<N, C, H, G>],
    board: u64,
    out: &mut Snapshot<N, C, H, G>,
)
    requires all { AreAll board recorders.now }
    ensures { HasNumbers board recorders.now out.new.vector }
{
    for place in 0..out.vector().len() {
        let Some(on) = recorders[place].recorder_on(board) else {
            unreachable!()
        };
        out.set_number(place, on.number());
    }
}

/// Makes the totals those of all that these recorders have published on the board of this id.
fn set_totals<const N: usize, const C: usize, const H: usize, const G: usize>(
    recorders: &[PageRecorder<N, C, H, G>],
    board: u64,
    out: &mut Snapshot<N, C, H, G>,
)
    requires all { AreAll board recorders.now }
    ensures totals { (k : ℕ) → k < width C H G → get_elem? out.new.totals k ≡ some (published_on board recorders.now k) }
    ensures vector { out.new.vector ≡ out.old.vector }
{
    for word in 0..out.totals().len() {
        out.set_total(word, total_at(recorders, board, word));
    }
}

/// Makes `out` exactly what these have published on the board of this id, where all are there.
pub(crate) fn settle_on<const N: usize, const C: usize, const H: usize, const G: usize>(
    recorders: &[PageRecorder<N, C, H, G>],
    board: u64,
    out: &mut Snapshot<N, C, H, G>,
)
    requires all { AreAll board recorders.now }
    ensures { IsSettled (workers_on board recorders.now) out.new }
{
    set_numbers(recorders, board, out);
    set_totals(recorders, board, out);
}

/// Exact totals of one board, for the end of a run whose numbers are a bill: of all recorders of a page, in the order in which
/// [`PageCrew::new`](crate::PageCrew::new) has handed them out. Each takes its workers of boards that came since first. It does
/// not check that they are of one page. It scans nothing: while it is called, none of them publishes.
/// [`PageCrew::settle`](crate::PageCrew::settle) has those of all boards.
///
/// After Ok the vector of `out` is how often each of them has published on the board of this id, and each total is exactly the
/// sum of all that they published there. What stands in a tally that was not flushed is not in it. It takes no memory and waits
/// for nobody.
///
/// # Errors
///
/// 18 [`NotAll`], with the least place at which not the recorder stands that counts as that worker on the board: it knows no
/// board of this id, counts as another worker, or is not there; `N` where there is one too many. `out` is as it was.
pub fn settle_board<const N: usize, const C: usize, const H: usize, const G: usize>(
    recorders: &mut [PageRecorder<N, C, H, G>],
    board: u64,
    out: &mut Snapshot<N, C, H, G>,
) -> Result<(), NotAll>
    ensures settled { OnOk result (IsSettled (workers_on board recorders.new) out.new) }
    ensures all { OnOk result (AreAll board recorders.new) }
    ensures missing { IfErr result (λ e. IsMisplaced board recorders.new e.missing) }
    ensures unchanged { OnErr result (out.new ≡ out.old) }
    ensures joined { AllZip HasJoined recorders.old recorders.new }
{
    join_all(recorders);
    if let Some(missing) = misplaced(recorders, board) {
        return Err(NotAll { missing });
    }
    settle_on(recorders, board, out);
    Ok(())
}
