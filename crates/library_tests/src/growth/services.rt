//! The library for services: its calls that take memory. Each that is refused has changed nothing, and answers the same call
//! again as it would have answered the first one.
use crate::asserts::{again, same};
use crate::crew::ID;
use crate::services::why_shut;
use dirgwako::{
    BoardFault, Counter, CounterFamily, Crew, Gauge, GaugeFamily, MetricRefusal, NewFault,
    OpenFault, Refused, Registers, Registrar, Registry, scrape_text,
};
use std::alloc::Global;
use std::process::Abort;
use std::sync::Wait;
use std::test::Fail;

/// A crew of one worker, of two counters and a gauge.
type Team = Crew<1, 2, 0, 1>;

/// A new crew.
fn new_team(rt: &impl Abort, alloc: Global) -> Result<Team, Fail> {
    match Team::new(alloc, ID, 1) {
        Ok(team) => Ok(team),
        Err(fault) => {
            same(rt, fault, BoardFault::NoMemory);
            again(Team::new(alloc, ID, 1))
        }
    }
}

/// A family of counters by two labels, which is registered again where there was no memory: nothing stands of what was refused.
fn family<S: Registers>(
    rt: &impl Abort,
    metrics: &mut Registrar<S>,
) -> Result<CounterFamily, Fail> {
    match metrics.counter_family("c", "A help.", &["a", "b"]) {
        Ok(family) => Ok(family),
        Err(fault) => {
            same(rt, fault.number(), 6);
            again(metrics.counter_family("c", "A help.", &["a", "b"]))
        }
    }
}

/// The child of the family.
fn child<S: Registers>(
    rt: &impl Abort,
    metrics: &mut Registrar<S>,
    family: &CounterFamily,
) -> Result<Counter, Fail> {
    match metrics.counter_of(family, &["x", "y"]) {
        Ok(counter) => Ok(counter),
        Err(fault) => {
            same(rt, fault.number(), 6);
            again(metrics.counter_of(family, &["x", "y"]))
        }
    }
}

/// A gauge without labels. Where there was no memory for its child, the family stands, and gives the child then.
fn gauge<S: Registers>(rt: &impl Abort, metrics: &mut Registrar<S>) -> Result<Gauge, Fail> {
    match metrics.gauge("g", "") {
        Ok(gauge) => Ok(gauge),
        Err(
            Refused {
                fault: MetricRefusal::Family(fault),
                name: _,
            },
        ) => {
            same(rt, fault.number(), 6);
            again(metrics.gauge("g", ""))
        }
        Err(
            Refused {
                fault: MetricRefusal::Child { family, fault },
                name: _,
            },
        ) => {
            same(rt, fault.number(), 6);
            let family = GaugeFamily::of(ID, family, "g");
            again(metrics.gauge_of(&family, &[]))
        }
    }
}

/// What a scrape shows in the end.
const SHOWN: &str =
    "# HELP c A help.\n# TYPE c counter\nc{a=\"x\",b=\"y\"} 0\n# TYPE g gauge\ng 0\n";

/// The text of a scrape.
fn prints(rt: &(impl Abort + Wait), registry: &Registry<'_, 1, 2, 0, 1>) -> Result<(), Fail> {
    let text = match scrape_text(rt, registry) {
        Ok(text) => text,
        Err(fault) => {
            same(rt, fault.number(), 6);
            again(scrape_text(rt, registry))?
        }
    };
    same(rt, text.as_slice(), SHOWN.as_bytes());
    Ok(())
}

/// Registers, makes children, and scrapes.
fn use_registry(
    rt: &(impl Abort + Wait + AllocGlobal),
    registry: &Registry<'_, 1, 2, 0, 1>,
) -> Result<bool, Fail> {
    let mut metrics = Registrar::new(rt, registry);
    let family = family(rt, &mut metrics)?;
    let counter = child(rt, &mut metrics, &family)?;
    let gauge = gauge(rt, &mut metrics)?;
    same(rt, (counter.slot, gauge.slot), (0, 0));
    prints(rt, registry)?;
    Ok(true)
}

/// Opens a crew and uses its registry, and tells whether it was opened. One that was not is spent.
fn is_used(rt: &(impl Abort + Wait + AllocGlobal), team: &mut Team) -> Result<bool, Fail> {
    match team.open(2) {
        Ok((registry, _recorders, _scanners)) => use_registry(rt, &registry),
        Err(fault) => {
            same(rt, fault, OpenFault::Registry(NewFault::NoMemory));
            Ok(false)
        }
    }
}

/// Makes a crew, and tells whether its registry was used.
fn use_one(rt: &(impl Abort + Wait + AllocGlobal)) -> Result<bool, Fail> {
    let mut team = new_team(rt, rt.alloc())?;
    let used = is_used(rt, &mut team)?;
    if !used {
        same(rt, why_shut(&mut team, 2), Some(OpenFault::Opened));
    }
    Ok(used)
}

/// A crew, a family with a child, a metric without labels, and a scrape's text; and another crew where the first one is spent.
#[test]
fn growth_front(rt: HostRuntime) -> Result<(), Fail> {
    let rt = &rt;
    if !use_one(rt)? {
        same(rt, use_one(rt)?, true);
    }
    Ok(())
}
