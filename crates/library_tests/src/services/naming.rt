//! What is registered, of whatever registers it. A call of the library by a type of its own takes some nine seconds to be proved,
//! at each place: these are generic, and calls of them take none.
use crate::asserts::need;
use dirgwako::{
    ChildRefusal, Counter, CounterFamily, Gauge, MetricRefusal, Refused, Registers, Registrar,
};
use std::process::Abort;

/// What comes of asking for a counter of this name.
pub(crate) fn ask_counter<S: Registers>(
    metrics: &mut Registrar<S>,
    name: &str,
) -> Result<Counter, Refused<MetricRefusal>> {
    metrics.counter(name, "")
}

/// What comes of asking for a counter of a family.
pub(crate) fn ask_child<S: Registers>(
    metrics: &mut Registrar<S>,
    family: &CounterFamily,
    values: &[&str],
) -> Result<Counter, ChildRefusal> {
    match metrics.counter_of(family, values) {
        Ok(counter) => Ok(counter),
        Err(refused) => Err(refused.fault),
    }
}

/// A counter of this name.
pub(crate) fn counter<S: Registers>(
    rt: &impl Abort,
    metrics: &mut Registrar<S>,
    name: &str,
) -> Counter {
    need(rt, ask_counter(metrics, name))
}

/// A gauge of this name.
pub(crate) fn gauge<S: Registers>(
    rt: &impl Abort,
    metrics: &mut Registrar<S>,
    name: &str,
) -> Gauge {
    need(rt, metrics.gauge(name, ""))
}

/// A family of counters, by these labels.
pub(crate) fn counters<S: Registers>(
    rt: &impl Abort,
    metrics: &mut Registrar<S>,
    name: &str,
    labels: &[&str],
) -> CounterFamily {
    need(rt, metrics.counter_family(name, "", labels))
}

/// A counter of a family.
pub(crate) fn child<S: Registers>(
    rt: &impl Abort,
    metrics: &mut Registrar<S>,
    family: &CounterFamily,
    values: &[&str],
) -> Counter {
    need(rt, ask_child(metrics, family, values))
}
