//! What a registry behind its lock refuses: of what it answers there no clause tells.
use super::naming::{ask_child, ask_counter, child, counters};
use super::{Counts, Names, prints};
use crate::asserts::{need, same};
use dirgwako::{
    ChildRefusal, CounterFamily, FamilyRefusal, Kind, MetricRefusal, PageChildFault, RegisterFault,
    Registers, Registrar,
};
use std::process::Abort;
use std::sync::Wait;

/// These label values are refused so, by this number.
fn refuses_values<S: Registers>(
    rt: &impl Abort,
    metrics: &mut Registrar<S>,
    family: &CounterFamily,
    values: &[&str],
    fault: ChildRefusal,
    number: u8,
) {
    same(rt, ask_child(metrics, family, values).err(), Some(fault));
    same(rt, fault.number(), number);
}

/// Every counter is used.
const FULL: ChildRefusal = ChildRefusal::Child(PageChildFault::Full {
    kind: Kind::Counter,
    slots: 4,
});

/// A value too few of a family of two labels, and one child more than there are slots. A child that is asked for again is the
/// same one.
fn refuses_children<S: Registers>(rt: &impl Abort, metrics: &mut Registrar<S>) {
    let family = &counters(rt, metrics, "c", &["a", "b"]);
    let (want, got) = (2, 1);
    let count = ChildRefusal::Child(PageChildFault::LabelCount { want, got });
    refuses_values(rt, metrics, family, &["x"], count, 21);
    for (value, slot) in [("1", 1), ("2", 2), ("3", 3), ("1", 1)] {
        same(rt, child(rt, metrics, family, &["x", value]).slot, slot);
    }
    refuses_values(rt, metrics, family, &["x", "5"], FULL, 22);
}

/// A metric without labels for which there is no slot: its family stands, and its name is taken.
fn refuses_a_metric<S: Registers>(rt: &impl Abort, metrics: &mut Registrar<S>) {
    let Err(refused) = ask_counter(metrics, "d") else {
        rt.panic("no refusal of a child")
    };
    let MetricRefusal::Child { family, fault } = refused.fault else {
        rt.panic("no family")
    };
    same(rt, (family.number(), fault), (4, FULL));
    same(rt, (refused.number(), refused.name.as_str()), (22, "d"));
    let clash = FamilyRefusal::Register(RegisterFault::Clash { with: 4 });
    let Err(again) = ask_counter(metrics, "d") else {
        rt.panic("no refusal of a family")
    };
    same(rt, again.fault, MetricRefusal::Family(clash));
    same(rt, (again.number(), again.name.as_str()), (19, "d"));
}

/// What a scrape shows in the end.
const CHILDREN: &str = r#"# TYPE a counter
a 3
# TYPE b gauge
b -2
# TYPE c counter
c{a="x",b="1"} 0
c{a="x",b="2"} 0
c{a="x",b="3"} 0
# TYPE g gauge
g 12
# TYPE h histogram
h_bucket{le="10"} 1
h_bucket{le="+Inf"} 1
h_sum 10
h_count 1
"#;

/// Children and metrics are refused, and a scrape shows those that are not: behind four counters, of which one is used, and two
/// gauges.
pub(super) fn shows_children(
    rt: &(impl Wait + Abort + AllocGlobal),
    registry: &Names<'_>,
    recorder: &mut Counts<'_>,
) {
    let mut metrics = Registrar::new(rt, registry);
    refuses_children(rt, &mut metrics);
    refuses_a_metric(rt, &mut metrics);
    let hist = need(rt, metrics.histogram("h", "", &[10]));
    need(rt, recorder.observe(&hist, 10));
    prints(rt, registry, CHILDREN);
}
