//! Gauges that are set, on a board and on a page, timers, and bounds of sizes.
use super::naming::gauge;
use super::{Counts, Names, prints};
use crate::asserts::{need, same, there};
use crate::crew::ID;
use dirgwako::{
    Bounds, CountFault, Gauge, GaugeCell, PageCrew, Registrar, Timer, bytes_default, text_of,
};
use std::process::Abort;
use std::sync::Wait;
use std::thread::sleep;
use std::time::Duration;

/// A gauge is set to values in turn, and then within a list: a scrape shows the last one. It is refused a value that is too far
/// away (12), which leaves it, and another board's gauge is refused (16).
pub(super) fn sets(
    rt: &(impl Wait + Abort + AllocGlobal),
    registry: &Names<'_>,
    recorder: &mut Counts<'_>,
) {
    let gauge = gauge(rt, &mut Registrar::new(rt, registry), "g");
    let mut cell = GaugeCell::new(gauge);
    for value in [5, 5, -3, i64::MIN] {
        let _ = cell.set(recorder, value);
    }
    same(rt, (cell.value(), recorder.number()), (-3, 3));
    let change = cell.change_to(4);
    need(rt, recorder.publish(&[change, change]));
    cell.told(11);
    need(rt, cell.set(recorder, 12));
    prints(rt, registry, "# TYPE g gauge\ng 12\n");
    let (registry, slot) = (ID + 1, 0);
    let mut other = GaugeCell::new(Gauge { registry, slot });
    let refused = other.set(recorder, 1);
    same(rt, refused, Err(CountFault::WrongRegistry));
    same(rt, other.value(), 0);
}

/// The same on a page.
#[test]
fn a_gauge_of_a_page_is_set(rt: HostRuntime) {
    let (rt, alloc) = (&rt, rt.alloc());
    let (crew, mut recorders) = need(rt, PageCrew::<1, 0, 0, 1>::new(alloc, 3, 1));
    let mut metrics = Registrar::page(alloc, crew);
    let mut cell = GaugeCell::new(gauge(rt, &mut metrics, "g"));
    let mut recorder = there(rt, recorders.pop());
    need(rt, cell.set_on_page(&mut recorder, -7));
    same(rt, cell.value(), -7);
    match text_of(metrics.into_inner().crew) {
        Ok((text, _)) => same(rt, text.as_slice(), b"# TYPE g gauge\ng -7\n".as_slice()),
        Err(_) => rt.panic("no text"),
    }
}

/// A timer tells microseconds, and sizes have bounds.
#[test]
fn timers_and_sizes(rt: HostRuntime) {
    let timer = Timer::start(&rt);
    sleep(&rt, Duration::from_millis(20));
    let took = timer.micros(&rt);
    same(
        &rt,
        (took, (20_000..20_000_000).contains(&took)),
        (took, true),
    );
    let bounds = need(&rt, Bounds::from_slice(&bytes_default()));
    same(&rt, (bounds.place(0), bounds.place(1_025)), (0, 2));
}
