//! Crews at their limits, and those that are refused.
use super::naming::counter;
use super::{Team, why_shut};
use crate::asserts::{need, same};
use crate::crew::ID;
use dirgwako::{
    BoardFault, Counter, Crew, NewFault, NoBoard, OpenFault, PageCrew, PageCrewFault, Recorder,
    Registrar, Registry, Snapshot, Source, counter_total, scrape_text,
};
use std::alloc::Global;
use std::process::Abort;
use std::sync::Wait;

/// No crew of this geometry.
fn refused<const N: usize>(rt: &impl Abort, alloc: Global, readers: usize) {
    let made = Crew::<N, 1, 0, 0>::new(alloc, ID, readers);
    same(rt, made.err(), Some(BoardFault::Geometry));
}

#[test]
fn crews_that_are_refused(rt: HostRuntime) {
    let rt = &rt;
    let alloc = rt.alloc();
    refused::<33>(rt, alloc, 1);
    refused::<0>(rt, alloc, 1);
    refused::<1>(rt, alloc, 0);
    refused::<1>(rt, alloc, 5);
    same(rt, BoardFault::Geometry.number(), 13);
    let page = PageCrew::<33, 1, 0, 0>::new(alloc, 1, 1).err();
    same(rt, page, Some(PageCrewFault::Board(NoBoard::Geometry)));
}

/// The crew is opened with neither of these windows, for this reason, which has this number.
fn is_shut(rt: &impl Abort, team: &mut Team, windows: [usize; 2], fault: OpenFault, number: u8) {
    for window in windows {
        same(rt, why_shut(team, window), Some(fault));
    }
    same(rt, fault.number(), number);
}

/// A bad window leaves the crew as it is; with the longest one it is opened, but not again.
#[test]
fn opened_once(rt: HostRuntime) {
    let rt = &rt;
    let mut team = need(rt, Team::new(rt.alloc(), ID, 2));
    let window = OpenFault::Registry(NewFault::BadWindow);
    is_shut(rt, &mut team, [0, 1_025], window, 31);
    same(rt, why_shut(&mut team, 1_024), None);
    is_shut(rt, &mut team, [0, 1_024], OpenFault::Opened, 32);
}

/// Each recorder has its place, and counts 1 on the counter `a`.
fn count<const N: usize, const C: usize, const H: usize, const G: usize>(
    rt: &(impl Wait + Abort + AllocGlobal),
    registry: &Registry<'_, N, C, H, G>,
    recorders: &mut [Recorder<'_, N, C, H, G>],
) -> Counter {
    let counter = counter(rt, &mut Registrar::new(rt, registry), "a");
    for (at, recorder) in recorders.iter_mut().enumerate() {
        same(rt, recorder.index(), at);
        need(rt, recorder.inc(&counter, 1));
    }
    counter
}

#[test]
fn the_greatest_crew(rt: HostRuntime) {
    let rt = &rt;
    let mut crew = need(rt, Crew::<32, 256, 32, 64>::new(rt.alloc(), u64::MAX, 4));
    let (registry, mut recorders, mut scanners) = need(rt, crew.open(1));
    same(rt, (recorders.len(), scanners.len()), (32, 3));
    let counter = count(rt, &registry, &mut recorders);
    let mut out = need(rt, Snapshot::new(rt.alloc()));
    for scanner in scanners.iter_mut() {
        need(rt, scanner.scan(&mut out));
        same(rt, counter_total(&out, &counter), Some(32));
    }
}

/// It keeps the last two of its scrapes.
#[test]
fn the_least_crew(rt: HostRuntime) {
    let rt = &rt;
    let mut crew = need(rt, Crew::<1, 1, 0, 0>::new(rt.alloc(), 0, 1));
    let (registry, mut recorders, scanners) = need(rt, crew.open(2));
    same(rt, (recorders.len(), scanners.len()), (1, 0));
    count(rt, &registry, &mut recorders);
    let text = need(rt, scrape_text(rt, &registry));
    same(rt, text.as_slice(), b"# TYPE a counter\na 1\n".as_slice());
    need(rt, registry.scrape(rt));
    need(rt, registry.scrape(rt));
    same(rt, registry.into_state().kept().len(), 2);
}
