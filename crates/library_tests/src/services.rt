//! The library for services by its public calls, where C does not reach: crews of one board, registries and pages behind a lock,
//! servers. Its clauses hand on those of the calls below, so what is tried here is what none of them says: that each call
//! succeeds, at its limits too, what a scrape prints, and how a server goes on behind clients that are not as they should be.
mod behind;
mod busy;
mod clients;
mod limits;
mod memory;
mod naming;
mod next;
mod pages;
mod refused;
mod scrapers;
mod serving;
mod setting;
mod settled;
mod sharing;
mod tallies;
mod told;

use crate::asserts::{need, same, there};
use crate::crew::ID;
use dirgwako::{Crew, OpenFault, Recorder, Registry, scrape_text};
use std::alloc::Global;
use std::process::Abort;
use std::sync::Wait;

/// A crew of two workers, of four counters, two histograms and two gauges.
type Team = Crew<2, 4, 2, 2>;

/// A registry of it.
type Names<'a> = Registry<'a, 2, 4, 2, 2>;

/// What counts.
type Counts<'a> = Recorder<'a, 2, 4, 2, 2>;

/// A crew of a board of this id.
fn new_team(rt: &impl Abort, alloc: Global, id: u64) -> Team {
    need(rt, Team::new(alloc, id, 1))
}

/// The registry of a crew that is opened here.
fn opened<'a>(rt: &impl Abort, team: &'a mut Team, window: usize) -> Names<'a> {
    let (registry, _recorders, _scanners) = need(rt, team.open(window));
    registry
}

/// Why a crew is not opened, if it is not.
pub(crate) fn why_shut<const N: usize, const C: usize, const H: usize, const G: usize>(
    crew: &mut Crew<N, C, H, G>,
    window: usize,
) -> Option<OpenFault> {
    match crew.open(window) {
        Ok((_registry, _recorders, _scanners)) => None,
        Err(fault) => Some(fault),
    }
}

/// Makes a scrape, whose text is this.
fn prints(rt: &(impl Wait + Abort), registry: &Names<'_>, expected: &str) {
    let text = need(rt, scrape_text(rt, registry));
    same(rt, text.as_slice(), expected.as_bytes());
}

/// A gauge is set, tallies are published, and children and metrics are refused, of one crew. The recorder is its second worker.
#[test]
fn a_registry_and_a_recorder(rt: HostRuntime) {
    let rt = &rt;
    let mut team = new_team(rt, rt.alloc(), ID);
    let (registry, mut recorders, _scanners) = need(rt, team.open(64));
    let mut recorder = there(rt, recorders.pop());
    setting::sets(rt, &registry, &mut recorder);
    tallies::publishes(rt, &registry, &mut recorder);
    refused::shows_children(rt, &registry, &mut recorder);
    let worker = recorder.into_worker();
    same(rt, (worker.index(), worker.number()), (1, 7));
}
