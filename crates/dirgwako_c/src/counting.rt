//! What a thread calls that counts.
ghost use Rattle.std.specs.Prelude.{◌≡◌};
ghost use Rattle.bucket_math.specs.Bounds.{place_of};
ghost use Rattle.ledger_core.specs.declared.op.Op.TheVariants.{Inc, Observe, Up, Down};
ghost use Rattle.snapshot_update.specs.Faults.{count_fault_number};
ghost use Rattle.dirgwako_c.specs.Held.{answer_of, Calls};
ghost use Rattle.dirgwako_c.specs.Recorders.{Counts};

use crate::handles::RecorderHandle;
use ledger_core::{Counter, Gauge, Histogram};
use snapshot_update::CountFault;
use std::alloc::Global;

/// 0, or the number of a refusal.
pub(crate) fn answer(done: Result<(), CountFault>) -> u32
    ensures { result ≡ answer_of count_fault_number done }
{
    match done {
        Ok(()) => 0,
        Err(fault) => u32::from(fault.number()),
    }
}

/// Adds `by` to a counter: one version.
///
/// Answers 34, the handle is empty; 16, 15, 11, 12 as [`dirgwako::PageRecorder::inc`].
#[unsafe(no_mangle)]
pub extern "C" fn dirgwako_c_inc(
    alloc: Global,
    recorder: &mut RecorderHandle,
    counter: &Counter,
    by: u64,
) -> u32
    ensures { Calls (Unit {0}) (λ before after. Counts counter.now.registry (Inc counter.now.slot by) result
        before.recorder after.recorder) result recorder.old.value recorder.new.value }
{
    let Some(mut held) = recorder.take(alloc) else {
        return 34;
    };
    let done = held.recorder.inc(counter, by);
    recorder.put(alloc, held);
    answer(done)
}

/// Counts a value of a histogram: its bucket, the sum and the count rise in one version.
///
/// Answers 34, the handle is empty; 16, 15, 11, 12 as [`dirgwako::PageRecorder::observe`].
#[unsafe(no_mangle)]
pub extern "C" fn dirgwako_c_observe(
    alloc: Global,
    recorder: &mut RecorderHandle,
    histogram: &Histogram,
    value: u64,
) -> u32
    ensures { Calls (Unit {0}) (λ before after. Counts histogram.now.registry
        (Observe histogram.now.slot (place_of histogram.now.bounds value) value) result
        before.recorder after.recorder) result recorder.old.value recorder.new.value }
{
    let Some(mut held) = recorder.take(alloc) else {
        return 34;
    };
    let done = held.recorder.observe(histogram, value);
    recorder.put(alloc, held);
    answer(done)
}

/// Raises a gauge by `by`: one version.
///
/// Answers 34, the handle is empty; 16, 15, 11, 12 as [`dirgwako::PageRecorder::up`].
#[unsafe(no_mangle)]
pub extern "C" fn dirgwako_c_up(
    alloc: Global,
    recorder: &mut RecorderHandle,
    gauge: &Gauge,
    by: u64,
) -> u32
    ensures { Calls (Unit {0}) (λ before after. Counts gauge.now.registry (Up gauge.now.slot by) result
        before.recorder after.recorder) result recorder.old.value recorder.new.value }
{
    let Some(mut held) = recorder.take(alloc) else {
        return 34;
    };
    let done = held.recorder.up(gauge, by);
    recorder.put(alloc, held);
    answer(done)
}

/// Lowers a gauge by `by`: one version.
///
/// Answers 34, the handle is empty; 16, 15, 11, 12 as [`dirgwako::PageRecorder::down`].
#[unsafe(no_mangle)]
pub extern "C" fn dirgwako_c_down(
    alloc: Global,
    recorder: &mut RecorderHandle,
    gauge: &Gauge,
    by: u64,
) -> u32
    ensures { Calls (Unit {0}) (λ before after. Counts gauge.now.registry (Down gauge.now.slot by) result
        before.recorder after.recorder) result recorder.old.value recorder.new.value }
{
    let Some(mut held) = recorder.take(alloc) else {
        return 34;
    };
    let done = held.recorder.down(gauge, by);
    recorder.put(alloc, held);
    answer(done)
}
