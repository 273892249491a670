//! 300 routes, whose answers are counted by six codes and timed: ten areas of 30 routes, each a group, on a board of its own.
use anyhow::{Context, Result};
use dirgwako::{
    Counter, CounterFamily, Histogram, HistogramFamily, OnPage, PageCrew, PageRecorder, Registers,
    Registrar, ServiceRuntime, inc, observe, seconds_default, text_of,
};
use std::alloc::Global;
use std::thread::for_each_mut;

/// What registers: a page, of boards for two threads, 256 counters and 32 histograms.
type Metrics = Registrar<OnPage<2, 256, 32, 0>>;

/// What a thread counts with, whichever board a route is on.
type Recorder = PageRecorder<2, 256, 32, 0>;

/// The codes that are told apart.
const CODES: [&str; 6] = ["200", "201", "304", "400", "404", "500"];

/// Areas, and routes of each: a board has room for the 180 counters and the 30 histograms of one.
const AREAS: usize = 10;

const ROUTES: usize = 30;

/// What is counted of a route: its answers by code, and their times.
#[derive(Drop)]
struct Route {
    answers: Vec<Counter>,
    seconds: Histogram,
}

/// The counters of a route, one for each code. What only registers is generic in where: so it is proved sooner, and serves a
/// board as well.
fn counters_of(
    metrics: &mut Registrar<impl Registers>,
    alloc: Global,
    answers: &CounterFamily,
    route: &str,
) -> Result<Vec<Counter>> {
    let mut counters = Vec::with_capacity(alloc, CODES.len())?;
    for code in CODES {
        let counter = metrics.counter_of(answers, &[route, code])?;
        counters.push(counter)?;
    }
    Ok(counters)
}

/// The handles of a route. They are copied, and a thread that counts asks for none.
fn route_of(
    metrics: &mut Registrar<impl Registers>,
    alloc: Global,
    answers: &CounterFamily,
    seconds: &HistogramFamily,
    route: usize,
) -> Result<Route> {
    let name = format!(in alloc; "/{route}")?;
    let answers = counters_of(metrics, alloc, answers, name.as_str())?;
    let seconds = metrics.histogram_of(seconds, &[name.as_str()])?;
    Ok(Route { answers, seconds })
}

/// The two families of an area.
fn families_of(
    metrics: &mut Registrar<impl Registers>,
    alloc: Global,
    area: usize,
) -> Result<(CounterFamily, HistogramFamily)> {
    let name = format!(in alloc; "area{area}_answers_total")?;
    let answers = metrics.counter_family(name.as_str(), "Answers.", &["route", "code"])?;
    let name = format!(in alloc; "area{area}_answer_seconds")?;
    let bounds = seconds_default();
    let seconds = metrics.histogram_family_shifted(
        name.as_str(),
        "Times.",
        &["route"],
        &bounds,
        6,
    )?;
    Ok((answers, seconds))
}

/// The families of an area, in a group of their own, and their children. Each area but the first brings a board.
fn register_area(
    metrics: &mut Metrics,
    alloc: Global,
    area: usize,
    routes: &mut Vec<Route>,
) -> Result<()> {
    if area > 0 {
        metrics.at.crew.add_board()?;
    }
    metrics.at.group = area as u64;
    let (answers, seconds) = families_of(metrics, alloc, area)?;
    for route in 0..ROUTES {
        routes.push(route_of(metrics, alloc, &answers, &seconds, route)?)?;
    }
    Ok(())
}

/// An answer is counted by its code and its time, as one version: a scrape has both or neither.
fn answered(recorder: &mut Recorder, route: &Route, code: usize, micros: u64) -> Result<()> {
    let count = route.answers.get(code).context("no such code")?;
    Ok(recorder.publish(&[inc(count, 1), observe(&route.seconds, micros)])?)
}

/// The loop of a thread: each route answers once.
fn answer_all(recorder: &mut Recorder, routes: &[Route]) -> Result<()> {
    for (at, route) in routes.iter().enumerate() {
        answered(recorder, route, at % CODES.len(), at as u64)?;
    }
    Ok(())
}

pub fn run(rt: &impl ServiceRuntime) -> Result<()> {
    let (crew, mut recorders) = PageCrew::new(rt.alloc(), 6, 1)?;
    let mut metrics = Registrar::page(rt.alloc(), crew);
    let mut routes = Vec::new(rt.alloc());
    for area in 0..AREAS {
        register_area(&mut metrics, rt.alloc(), area, &mut routes)?;
    }
    let routes = routes.as_slice();
    let each = &|_thread: usize, recorder: &mut Recorder| {
        // Nothing is refused here: the handles are the page's own.
        let _ = answer_all(recorder, routes);
    };
    for_each_mut(rt, &mut recorders, 2, each);
    let (text, _page) = text_of(metrics.into_inner().crew).map_err(|refused| refused.0)?;
    let lines = text.iter().filter(|byte| **byte == b'\n').count();
    Ok(println!(rt; "{} routes, {lines} lines", routes.len())?)
}
