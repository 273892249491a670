//! What a thread calls that publishes several changes as one version.
ghost use Rattle.std.specs.Prelude.{◌≡◌, ◌+◌, ◌*◌};
ghost use Rattle.dirgwako_c.specs.declared.geometry.TheConstants.{COUNTERS, HISTOGRAMS, GAUGES};
ghost use Rattle.bucket_math.specs.Bounds.{place_of};
ghost use Rattle.dirgwako_c.specs.Held.{Calls};
ghost use Rattle.dirgwako_c.specs.Changes.{Publishes};

use crate::change::{Change, list_ops};
use crate::counting::answer;
use crate::handles::RecorderHandle;
use crate::held::HeldRecorder;
use ledger_core::Histogram;
use std::alloc::Global;

/// The place of a value's bucket among a histogram's bounds, for a change that counts it.
#[unsafe(no_mangle)]
pub extern "C" fn dirgwako_c_place(histogram: &Histogram, value: u64) -> usize
    ensures { result ≡ place_of histogram.now.bounds value }
{
    histogram.bounds.place(value)
}

/// Publishes these changes as one version of the board of their handles, if there are some, and not too many.
fn publish<const N: usize, const C: usize, const H: usize, const G: usize>(
    held: &mut HeldRecorder<N, C, H, G>,
    changes: &[Change],
) -> u32
    ensures { Publishes (C + H + 2 * G) changes.now result held.old.recorder held.new.recorder }
{
    if changes.is_empty() {
        return 0;
    }
    if changes.len() > held.list.len() {
        return 33;
    }
    let id = changes[0].registry;
    match list_ops(&mut held.list, id, changes) {
        Ok(()) => answer(held.recorder.apply(id, &held.list[..changes.len()])),
        Err(number) => number,
    }
}

/// Publishes these changes as one version of their board, all of them or nothing: no scrape sees some of them alone. Where there
/// is none, nothing is published.
///
/// Answers 34, the handle is empty; 33, there are more than counters, histograms and twice the gauges; 47, two changes are by
/// handles of two boards; 39, a change is of no kind; 16, their board is none of the recorder's page; 15, 11, 12 as
/// [`dirgwako::PageRecorder::apply`]. Nothing has changed then, but that the recorder may have met boards that came. Takes no
/// memory.
#[unsafe(no_mangle)]
pub extern "C" fn dirgwako_c_publish(
    alloc: Global,
    recorder: &mut RecorderHandle,
    changes: &[Change],
) -> u32
    ensures { Calls (Unit {0}) (λ before after. Publishes (COUNTERS + HISTOGRAMS + 2 * GAUGES) changes.now result before.recorder
        after.recorder) result
        recorder.old.value recorder.new.value }
{
    let Some(mut held) = recorder.take(alloc) else {
        return 34;
    };
    let answer = publish(&mut held, changes);
    recorder.put(alloc, held);
    answer
}
