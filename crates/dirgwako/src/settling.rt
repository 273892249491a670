//! Exact totals of all recorders of a board.
ghost use Rattle.std.specs.Prelude.{◌≡◌, ℕ, ◌<◌, ◌≤◌, length, slice_index, IfSome, IfNone, IfErr, OnOk, OnErr};
ghost use mathlib.Core.Option.{some};
ghost use lib.ListN.{get_elem?};
ghost use Rattle.ledger_core.specs.Ops.{width};
ghost use Rattle.chain_law.specs.Settled.{IsSettled};
ghost use Rattle.dirgwako.specs.Settling.{workers_in, published_in, AreAll, IsMisplaced, HasNumbers};

use crate::recorder::Recorder;
use chain_law::NotAll;
use snapshot_scan::Snapshot;

/// The first place at which not the recorder of that worker stands, if there is one.
fn misplaced<const N: usize, const C: usize, const H: usize, const G: usize>(
    recorders: &[Recorder<'_, N, C, H, G>],
) -> Option<usize>
    ensures some { IfSome result (IsMisplaced recorders.now) }
    ensures none { IfNone result (AreAll recorders.now) }
{
    for place in 0..recorders.len() {
        if recorders[place].index() != place {
            return Some(place);
        }
    }
    if recorders.len() < N {
        return Some(recorders.len());
    }
    None
}

/// What all that these have published adds to a word of a row.
fn total_at<const N: usize, const C: usize, const H: usize, const G: usize>(
    recorders: &[Recorder<'_, N, C, H, G>],
    word: usize,
) -> u64
    requires word { word < width C H G }
    requires few { length recorders.now ≤ 32 }
    ensures sum { result ≡ published_in recorders.now word }
    ensures low { result < 9007199254740992 }
{
    let mut sum = 0;
    for place in 0..recorders.len() {
        sum += recorders[place].row().word_at(word);
    }
    sum
}

/// Makes the vector that of these recorders.
fn set_numbers<const N: usize, const C: usize, const H: usize, const G: usize>(
    recorders: &[Recorder<'_, N, C, H, G>],
    out: &mut Snapshot<N, C, H, G>,
)
    requires all { AreAll recorders.now }
    ensures { HasNumbers recorders.now out.new.vector }
{
    for place in 0..out.vector().len() {
        out.set_number(place, recorders[place].number());
    }
}

/// Makes the totals those of all that these recorders have published.
fn set_totals<const N: usize, const C: usize, const H: usize, const G: usize>(
    recorders: &[Recorder<'_, N, C, H, G>],
    out: &mut Snapshot<N, C, H, G>,
)
    requires few { length recorders.now ≤ 32 }
    ensures totals { (k : ℕ) → k < width C H G → get_elem? out.new.totals k ≡ some (published_in recorders.now k) }
    ensures vector { out.new.vector ≡ out.old.vector }
{
    for word in 0..out.totals().len() {
        out.set_total(word, total_at(recorders, word));
    }
}

/// Exact totals, for the end of a run whose numbers are a bill: of all recorders of a crew, in the order in which
/// [`Crew::open`](crate::Crew::open) has handed them out. It does not check that they are of one board. It scans nothing: while
/// it is called, none of them publishes.
///
/// After Ok the vector of `out` is how often each of them has published, and each total is exactly the sum of all that they
/// published. What stands in a tally that was not flushed is not in it. It takes no memory and waits for nobody.
///
/// # Errors
///
/// 18 [`NotAll`], with the least place at which another recorder stands than that of this worker, or none; `N` where there is one
/// too many. `out` is as it was.
pub fn settle<const N: usize, const C: usize, const H: usize, const G: usize>(
    recorders: &[Recorder<'_, N, C, H, G>],
    out: &mut Snapshot<N, C, H, G>,
) -> Result<(), NotAll>
    ensures settled { OnOk result (IsSettled (workers_in recorders.now) out.new) }
    ensures all { OnOk result (AreAll recorders.now) }
    ensures missing { IfErr result (λ e. IsMisplaced recorders.now e.missing) }
    ensures unchanged { OnErr result (out.new ≡ out.old) }
{
    if let Some(missing) = misplaced(recorders) {
        return Err(NotAll { missing });
    }
    set_numbers(recorders, out);
    set_totals(recorders, out);
    Ok(())
}
