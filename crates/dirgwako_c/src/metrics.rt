//! What C calls to register metrics without labels.
ghost use Rattle.std.specs.Prelude.{◌≡◌, []};
ghost use Rattle.dirgwako.specs.Registering.{family_of};
ghost use Rattle.metric_desc.specs.declared.kind.Kind.TheVariants as Kinds;
ghost use Rattle.registry_state.specs.declared.handle.Handle.TheVariants as Handles;
ghost use Rattle.dirgwako_c.specs.Held.{Calls};
ghost use Rattle.dirgwako_c.specs.Registries.{grouped_in, metric_answer, SparesStay, MakesNamed};

use crate::handles::RegistryHandle;
use crate::texts::text;
use dirgwako::{MetricRefusal, OnPage, Registrar};
use ledger_core::{Counter, Gauge, Histogram};
use std::alloc::Global;

/// What C is told where there is no metric without labels: 48 where its family stays.
fn answer_of(fault: &MetricRefusal) -> u32
    ensures { result ≡ metric_answer fault.now }
{
    match fault {
        MetricRefusal::Family(fault) => u32::from(fault.number()),
        MetricRefusal::Child { .. } => 48,
    }
}

/// A counter without labels of a registry.
fn counter_in<const N: usize, const C: usize, const H: usize, const G: usize>(
    registrar: &mut Registrar<OnPage<N, C, H, G>>,
    name: &[u8],
    help: &[u8],
    counter: &mut Counter,
) -> u32
    ensures { MakesNamed Handles.Counter result registrar.old.at registrar.new.at counter.old counter.new name.now help.now
        (family_of Kinds.Counter name.now help.now [] []) }
{
    let (Some(name), Some(help)) = (text(name), text(help)) else {
        return 36;
    };
    registrar.at.group = 0;
    match registrar.counter(name, help) {
        Ok(made) => {
            *counter = made;
            0
        }
        Err(refused) => answer_of(&refused.fault),
    }
}

/// A counter without labels: its family is registered in the group 0, and its one child made.
///
/// Answers 34, the handle is empty; 36, a text is not UTF-8; 1, 2, 3, 5 of the name or the help; 19, 23, 6 as
/// [`dirgwako::Registrar::counter`]; 48, its family is registered, and its child is not made, for want of a slot or of memory.
/// What C has is as it was then.
#[unsafe(no_mangle)]
pub extern "C" fn dirgwako_c_counter_new(
    alloc: Global,
    registry: &mut RegistryHandle,
    name: &[u8],
    help: &[u8],
    counter: &mut Counter,
) -> u32
    ensures { Calls (counter.new ≡ counter.old) (λ before after. SparesStay before after
        × MakesNamed Handles.Counter result (grouped_in before) (grouped_in after)
        counter.old counter.new name.now help.now (family_of Kinds.Counter name.now help.now [] [])) result
        registry.old.value registry.new.value }
{
    let Some(mut held) = registry.take(alloc) else {
        return 34;
    };
    let answer = counter_in(&mut held.registrar, name, help, counter);
    registry.put(alloc, held);
    answer
}

/// A gauge without labels of a registry.
fn gauge_in<const N: usize, const C: usize, const H: usize, const G: usize>(
    registrar: &mut Registrar<OnPage<N, C, H, G>>,
    name: &[u8],
    help: &[u8],
    gauge: &mut Gauge,
) -> u32
    ensures { MakesNamed Handles.Gauge result registrar.old.at registrar.new.at gauge.old gauge.new name.now help.now
        (family_of Kinds.Gauge name.now help.now [] []) }
{
    let (Some(name), Some(help)) = (text(name), text(help)) else {
        return 36;
    };
    registrar.at.group = 0;
    match registrar.gauge(name, help) {
        Ok(made) => {
            *gauge = made;
            0
        }
        Err(refused) => answer_of(&refused.fault),
    }
}

/// A gauge without labels: its family is registered in the group 0, and its one child made.
///
/// Answers 34, the handle is empty; 36, a text is not UTF-8; 1, 2, 3, 5 of the name or the help; 19, 23, 6 as
/// [`dirgwako::Registrar::gauge`]; 48 as [`dirgwako_c_counter_new`]. What C has is as it was then.
#[unsafe(no_mangle)]
pub extern "C" fn dirgwako_c_gauge_new(
    alloc: Global,
    registry: &mut RegistryHandle,
    name: &[u8],
    help: &[u8],
    gauge: &mut Gauge,
) -> u32
    ensures { Calls (gauge.new ≡ gauge.old) (λ before after. SparesStay before after
        × MakesNamed Handles.Gauge result (grouped_in before) (grouped_in after)
        gauge.old gauge.new name.now help.now (family_of Kinds.Gauge name.now help.now [] [])) result
        registry.old.value registry.new.value }
{
    let Some(mut held) = registry.take(alloc) else {
        return 34;
    };
    let answer = gauge_in(&mut held.registrar, name, help, gauge);
    registry.put(alloc, held);
    answer
}

/// A histogram without labels of a registry with these bounds: at most 24, rising, none over 2^48 - 1.
fn histogram_in<const N: usize, const C: usize, const H: usize, const G: usize>(
    registrar: &mut Registrar<OnPage<N, C, H, G>>,
    name: &[u8],
    help: &[u8],
    bounds: &[u64],
    histogram: &mut Histogram,
) -> u32
    ensures { MakesNamed Handles.Histogram result registrar.old.at registrar.new.at histogram.old histogram.new name.now help.now
        (family_of Kinds.Histogram name.now help.now [] bounds.now) }
{
    let (Some(name), Some(help)) = (text(name), text(help)) else {
        return 36;
    };
    registrar.at.group = 0;
    match registrar.histogram(name, help, bounds) {
        Ok(made) => {
            *histogram = made;
            0
        }
        Err(refused) => answer_of(&refused.fault),
    }
}

/// A histogram without labels with these bounds: at most 24, rising, none over 2^48 - 1: its family is registered in the
/// group 0, and its one child made.
///
/// Answers 34, the handle is empty; 36, a text is not UTF-8; 1, 2, 3, 5 of the name or the help; 10 of the bounds; 19, 23, 6 as
/// [`dirgwako::Registrar::histogram`]; 48 as [`dirgwako_c_counter_new`]. What C has is as it was then.
#[unsafe(no_mangle)]
pub extern "C" fn dirgwako_c_histogram_new(
    alloc: Global,
    registry: &mut RegistryHandle,
    name: &[u8],
    help: &[u8],
    bounds: &[u64],
    histogram: &mut Histogram,
) -> u32
    ensures { Calls (histogram.new ≡ histogram.old) (λ before after. SparesStay before after
        × MakesNamed Handles.Histogram result (grouped_in before) (grouped_in after)
        histogram.old histogram.new name.now help.now (family_of Kinds.Histogram name.now help.now [] bounds.now)) result
        registry.old.value registry.new.value }
{
    let Some(mut held) = registry.take(alloc) else {
        return 34;
    };
    let answer = histogram_in(&mut held.registrar, name, help, bounds, histogram);
    registry.put(alloc, held);
    answer
}
