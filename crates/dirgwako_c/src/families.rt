//! What C calls to register families with labels, and to have their children.
ghost use Rattle.std.specs.Prelude.{◌≡◌, [], Result, IfErr, IfOk};
ghost use Rattle.dirgwako.specs.Registering.{shifted_family_of};
ghost use Rattle.dirgwako.specs.Texts.{texts_of};
ghost use Rattle.metric_desc.specs.declared.kind.Kind.TheVariants as Kinds;
ghost use Rattle.page_crew.specs.Owned.{first_of};
ghost use Rattle.registry_state.specs.declared.handle.Handle.TheVariants as Handles;
ghost use Rattle.dirgwako_c.specs.Held.{Calls};
ghost use Rattle.dirgwako_c.specs.Registries.{grouped_in, said_of, AsksFamilyAt, SparesStay, MakesFamilyBy, MakesShifted};
ghost use Rattle.dirgwako_c.specs.Registries.{GivesChildBy};

use crate::family::{Asked, CounterFamily, Family, GaugeFamily, HistogramFamily};
use crate::handles::RegistryHandle;
use crate::texts::{text, texts};
use dirgwako::{FamilyRefusal, OnPage, Refused, Registrar};
use ledger_core::{Counter, Gauge, Histogram};
use std::alloc::Global;

/// Asks for a family by plain texts.
fn ask<const N: usize, const C: usize, const H: usize, const G: usize>(
    registrar: &mut Registrar<OnPage<N, C, H, G>>,
    asked: Asked<'_>,
    name: &str,
    help: &str,
    labels: &[&str],
    digits: u8,
) -> Result<Family, Refused<FamilyRefusal>>
    ensures made { IfOk result (λ family. AsksFamilyAt registrar.old.at registrar.new.at
        (said_of asked.entry name.now help.now labels.now digits) (Result.Ok family.id)) }
    ensures registry { IfOk result (λ family. family.registry ≡ first_of registrar.new.at.crew) }
    ensures fault { IfErr result (λ refused. AsksFamilyAt registrar.old.at registrar.new.at
        (said_of asked.entry name.now help.now labels.now digits) (Result.Err refused.fault)) }
{
    match asked {
        Asked::Counter => {
            let made = registrar.counter_family_shifted(name, help, labels, digits)?;
            Ok(Family {
                registry: made.registry,
                id: made.id,
            })
        }
        Asked::Gauge => {
            let made = registrar.gauge_family_shifted(name, help, labels, digits)?;
            Ok(Family {
                registry: made.registry,
                id: made.id,
            })
        }
        Asked::Histogram(bounds) => {
            let made = registrar.histogram_family_shifted(name, help, labels, bounds, digits)?;
            Ok(Family {
                registry: made.registry,
                id: made.id,
            })
        }
    }
}

/// A family of a registry.
fn family_in<const N: usize, const C: usize, const H: usize, const G: usize>(
    alloc: Global,
    registrar: &mut Registrar<OnPage<N, C, H, G>>,
    asked: Asked<'_>,
    name: &[u8],
    help: &[u8],
    labels: &[&[u8]],
    digits: u8,
    group: u64,
    family: &mut Family,
) -> u32
    ensures { MakesFamilyBy result registrar.old.at registrar.new.at family.old family.new group (λ family. family.id)
        (λ family. family.registry) name.now help.now (texts_of labels.now)
        (said_of asked.entry name.now help.now labels.now digits) }
{
    let (Some(name), Some(help)) = (text(name), text(help)) else {
        return 36;
    };
    let labels = match texts(alloc, labels) {
        Ok(labels) => labels,
        Err(answer) => return answer,
    };
    registrar.at.group = group;
    match ask(registrar, asked, name, help, &labels, digits) {
        Ok(made) => {
            *family = made;
            0
        }
        Err(refused) => u32::from(refused.number()),
    }
}

/// A family of the registry that a handle holds.
fn family_new(
    alloc: Global,
    registry: &mut RegistryHandle,
    asked: Asked<'_>,
    name: &[u8],
    help: &[u8],
    labels: &[&[u8]],
    digits: usize,
    group: usize,
    family: &mut Family,
) -> u32
    ensures { Calls (family.new ≡ family.old) (λ before after. SparesStay before after
        × MakesShifted result (grouped_in before) (grouped_in after) family.old family.new digits
        (MakesFamilyBy result (grouped_in before) (grouped_in after) family.old family.new group (λ family. family.id)
        (λ family. family.registry) name.now help.now (texts_of labels.now)
        (said_of asked.entry name.now help.now labels.now digits))) result registry.old.value registry.new.value }
{
    let Some(mut held) = registry.take(alloc) else {
        return 34;
    };
    let answer = if digits > 9 {
        43
    } else {
        family_in(
            alloc,
            &mut held.registrar,
            asked,
            name,
            help,
            labels,
            digits as u8,
            group as u64,
            family,
        )
    };
    registry.put(alloc, held);
    answer
}

/// A family of counters with labels.
///
/// Answers 34, the handle is empty; 43, `digits` is over 9; 36, a text is not UTF-8; 1 to 5, 9, 7 of the texts; 19,
/// 23, 6 as [`dirgwako::Registrar::counter_family`]. Nothing has changed then.
#[unsafe(no_mangle)]
pub extern "C" fn dirgwako_c_counter_family_new(
    alloc: Global,
    registry: &mut RegistryHandle,
    name: &[u8],
    help: &[u8],
    labels: &[&[u8]],
    digits: usize,
    group: usize,
    family: &mut CounterFamily,
) -> u32
    ensures { Calls (family.new ≡ family.old) (λ before after. SparesStay before after
        × MakesShifted result (grouped_in before) (grouped_in after) family.old family.new digits
        (MakesFamilyBy result (grouped_in before) (grouped_in after) family.old family.new group (λ family. family.id)
        (λ family. family.registry) name.now help.now (texts_of labels.now)
        (shifted_family_of Kinds.Counter name.now help.now labels.now [] digits))) result registry.old.value registry.new.value }
{
    family_new(
        alloc,
        registry,
        Asked::Counter,
        name,
        help,
        labels,
        digits,
        group,
        family,
    )
}

/// The counter of these label values, which is made where there is none.
fn counter_of_in<const N: usize, const C: usize, const H: usize, const G: usize>(
    alloc: Global,
    registrar: &mut Registrar<OnPage<N, C, H, G>>,
    family: &CounterFamily,
    values: &[&[u8]],
    counter: &mut Counter,
) -> u32
    ensures { GivesChildBy result registrar.old.at registrar.new.at counter.old counter.new Handles.Counter family.now.registry
        family.now.id
        (texts_of values.now) Kinds.Counter }
{
    let values = match texts(alloc, values) {
        Ok(values) => values,
        Err(answer) => return answer,
    };
    let family = dirgwako::CounterFamily::of(family.registry, family.id, "");
    match registrar.counter_of(&family, &values) {
        Ok(given) => {
            *counter = given;
            0
        }
        Err(refused) => u32::from(refused.number()),
    }
}

/// The counter of these label values, which is made where there is none.
///
/// Answers 34, the handle is empty; 36, a text is not UTF-8; 20, the family is of another registry; 3 of a value; 21, 46, 22, 6,
/// 28 as [`dirgwako::Registrar::counter_of`]. What C has is as it was then, and nothing else has changed, unless by 28, which two
/// registries of one id alone bring about, the child was made.
#[unsafe(no_mangle)]
pub extern "C" fn dirgwako_c_counter_of(
    alloc: Global,
    registry: &mut RegistryHandle,
    family: &CounterFamily,
    values: &[&[u8]],
    counter: &mut Counter,
) -> u32
    ensures { Calls (counter.new ≡ counter.old) (λ before after. SparesStay before after
        × GivesChildBy result (grouped_in before) (grouped_in after)
        counter.old counter.new Handles.Counter family.now.registry family.now.id (texts_of values.now) Kinds.Counter) result
        registry.old.value registry.new.value }
{
    let Some(mut held) = registry.take(alloc) else {
        return 34;
    };
    let answer = counter_of_in(alloc, &mut held.registrar, family, values, counter);
    registry.put(alloc, held);
    answer
}

/// A family of gauges with labels.
///
/// Answers 34, the handle is empty; 43, `digits` is over 9; 36, a text is not UTF-8; 1 to 5, 9, 7 of the texts; 19,
/// 23, 6 as [`dirgwako::Registrar::gauge_family`]. Nothing has changed then.
#[unsafe(no_mangle)]
pub extern "C" fn dirgwako_c_gauge_family_new(
    alloc: Global,
    registry: &mut RegistryHandle,
    name: &[u8],
    help: &[u8],
    labels: &[&[u8]],
    digits: usize,
    group: usize,
    family: &mut GaugeFamily,
) -> u32
    ensures { Calls (family.new ≡ family.old) (λ before after. SparesStay before after
        × MakesShifted result (grouped_in before) (grouped_in after) family.old family.new digits
        (MakesFamilyBy result (grouped_in before) (grouped_in after) family.old family.new group (λ family. family.id)
        (λ family. family.registry) name.now help.now (texts_of labels.now)
        (shifted_family_of Kinds.Gauge name.now help.now labels.now [] digits))) result registry.old.value registry.new.value }
{
    family_new(
        alloc,
        registry,
        Asked::Gauge,
        name,
        help,
        labels,
        digits,
        group,
        family,
    )
}

/// The gauge of these label values, which is made where there is none.
fn gauge_of_in<const N: usize, const C: usize, const H: usize, const G: usize>(
    alloc: Global,
    registrar: &mut Registrar<OnPage<N, C, H, G>>,
    family: &GaugeFamily,
    values: &[&[u8]],
    gauge: &mut Gauge,
) -> u32
    ensures { GivesChildBy result registrar.old.at registrar.new.at gauge.old gauge.new Handles.Gauge family.now.registry
        family.now.id
        (texts_of values.now) Kinds.Gauge }
{
    let values = match texts(alloc, values) {
        Ok(values) => values,
        Err(answer) => return answer,
    };
    let family = dirgwako::GaugeFamily::of(family.registry, family.id, "");
    match registrar.gauge_of(&family, &values) {
        Ok(given) => {
            *gauge = given;
            0
        }
        Err(refused) => u32::from(refused.number()),
    }
}

/// The gauge of these label values, which is made where there is none.
///
/// Answers 34, the handle is empty; 36, a text is not UTF-8; 20, the family is of another registry; 3 of a value; 21, 46, 22, 6,
/// 28 as [`dirgwako::Registrar::gauge_of`]. What C has is as it was then, and nothing else has changed, unless by 28, which two
/// registries of one id alone bring about, the child was made.
#[unsafe(no_mangle)]
pub extern "C" fn dirgwako_c_gauge_of(
    alloc: Global,
    registry: &mut RegistryHandle,
    family: &GaugeFamily,
    values: &[&[u8]],
    gauge: &mut Gauge,
) -> u32
    ensures { Calls (gauge.new ≡ gauge.old) (λ before after. SparesStay before after
        × GivesChildBy result (grouped_in before) (grouped_in after)
        gauge.old gauge.new Handles.Gauge family.now.registry family.now.id (texts_of values.now) Kinds.Gauge) result
        registry.old.value registry.new.value }
{
    let Some(mut held) = registry.take(alloc) else {
        return 34;
    };
    let answer = gauge_of_in(alloc, &mut held.registrar, family, values, gauge);
    registry.put(alloc, held);
    answer
}

/// A family of histograms with labels with these bounds: at most 24, rising, none over 2^48 - 1.
///
/// Answers 34, the handle is empty; 43, `digits` is over 9; 36, a text is not UTF-8; 1 to 5, 9, 7 of the texts; 8, 10 of the
/// bounds; 19, 23, 6 as [`dirgwako::Registrar::histogram_family`]. Nothing has changed then.
#[unsafe(no_mangle)]
pub extern "C" fn dirgwako_c_histogram_family_new(
    alloc: Global,
    registry: &mut RegistryHandle,
    name: &[u8],
    help: &[u8],
    labels: &[&[u8]],
    bounds: &[u64],
    digits: usize,
    group: usize,
    family: &mut HistogramFamily,
) -> u32
    ensures { Calls (family.new ≡ family.old) (λ before after. SparesStay before after
        × MakesShifted result (grouped_in before) (grouped_in after) family.old family.new digits
        (MakesFamilyBy result (grouped_in before) (grouped_in after) family.old family.new group (λ family. family.id)
        (λ family. family.registry) name.now help.now (texts_of labels.now)
        (shifted_family_of Kinds.Histogram name.now help.now labels.now bounds.now digits))) result registry.old.value
        registry.new.value }
{
    family_new(
        alloc,
        registry,
        Asked::Histogram(bounds),
        name,
        help,
        labels,
        digits,
        group,
        family,
    )
}

/// The histogram of these label values, which is made where there is none.
fn histogram_of_in<const N: usize, const C: usize, const H: usize, const G: usize>(
    alloc: Global,
    registrar: &mut Registrar<OnPage<N, C, H, G>>,
    family: &HistogramFamily,
    values: &[&[u8]],
    histogram: &mut Histogram,
) -> u32
    ensures { GivesChildBy result registrar.old.at registrar.new.at histogram.old histogram.new Handles.Histogram
        family.now.registry family.now.id
        (texts_of values.now) Kinds.Histogram }
{
    let values = match texts(alloc, values) {
        Ok(values) => values,
        Err(answer) => return answer,
    };
    let family = dirgwako::HistogramFamily::of(family.registry, family.id, "");
    match registrar.histogram_of(&family, &values) {
        Ok(given) => {
            *histogram = given;
            0
        }
        Err(refused) => u32::from(refused.number()),
    }
}

/// The histogram of these label values, which is made where there is none.
///
/// Answers 34, the handle is empty; 36, a text is not UTF-8; 20, the family is of another registry; 3 of a value; 21, 46, 22, 6,
/// 28 as [`dirgwako::Registrar::histogram_of`]. What C has is as it was then, and nothing else has changed, unless by 28, which
/// two registries of one id alone bring about, the child was made.
#[unsafe(no_mangle)]
pub extern "C" fn dirgwako_c_histogram_of(
    alloc: Global,
    registry: &mut RegistryHandle,
    family: &HistogramFamily,
    values: &[&[u8]],
    histogram: &mut Histogram,
) -> u32
    ensures { Calls (histogram.new ≡ histogram.old) (λ before after. SparesStay before after
        × GivesChildBy result (grouped_in before) (grouped_in after)
        histogram.old histogram.new Handles.Histogram family.now.registry family.now.id (texts_of values.now) Kinds.Histogram) result
        registry.old.value registry.new.value }
{
    let Some(mut held) = registry.take(alloc) else {
        return 34;
    };
    let answer = histogram_of_in(alloc, &mut held.registrar, family, values, histogram);
    registry.put(alloc, held);
    answer
}
