//! An example of a web service: four threads answer HTTP on one port and count it, while two others answer scrapes on another.
//! `example_web PORT METRICS REQUESTS` answers so many connections at these ports of 127.0.0.1, and then prints its metrics.
#![tactic(auto)]

mod request;

use anyhow::{Context, Result};
use dirgwako::{
    Counter, Crew, Gauge, Histogram, Registrar, ServiceRuntime, Timer, bytes_default, down, inc,
    listen_aloud, observe, print_last, seconds_default, serve_until,
};
use request::{Code, accept, answer};
use std::env;
use std::net::TcpListener;
use std::rt::Env;
use std::sync::atomic::{AtomicBool, AtomicU64, Ordering};
use std::thread::{for_each_mut, join};
use std::time::Duration;

/// What a thread counts with. There are 4 workers, 4 counters, 2 histograms and 1 gauge.
type Recorder<'a> = dirgwako::Recorder<'a, 4, 4, 2, 1>;

/// What is scraped, by two threads: it has a lock.
type Registry<'a> = dirgwako::Registry<'a, 4, 4, 2, 1>;

/// How many seconds a client may take.
const PATIENCE: u64 = 5;

/// The handles of what is counted.
#[derive(Clone, Copy)]
struct Web {
    ok: Counter,
    bad: Counter,
    missing: Counter,
    lost: Counter,
    time: Histogram,
    bytes: Histogram,
    open: Gauge,
}

/// Registers what is counted.
fn register(rt: &impl ServiceRuntime, registry: &Registry<'_>) -> Result<Web> {
    let mut metrics = Registrar::new(rt, registry);
    let codes = metrics.counter_family("http_requests_total", "Requests by code.", &["code"])?;
    Ok(Web {
        ok: metrics.counter_of(&codes, &["200"])?,
        bad: metrics.counter_of(&codes, &["400"])?,
        missing: metrics.counter_of(&codes, &["404"])?,
        lost: metrics.counter("http_lost_total", "Connections without a reply.")?,
        time: metrics.histogram_seconds("http_request_seconds", "Time.", &seconds_default())?,
        bytes: metrics.histogram("http_reply_bytes", "Bytes of each reply.", &bytes_default())?,
        open: metrics.gauge("http_requests_open", "Requests in flight.")?,
    })
}

/// Answers the next connection. What is known at its end is one version: a scrape sees all of it or nothing.
fn answer_one(
    rt: &impl ServiceRuntime,
    listener: &TcpListener,
    recorder: &mut Recorder<'_>,
    web: &Web,
) -> Result<()> {
    let stream = accept(rt, listener)?;
    recorder.up(&web.open, 1)?;
    let timer = Timer::start(rt);
    let reply = answer(&stream, Duration::from_secs(PATIENCE));
    let (time, end) = (observe(&web.time, timer.micros(rt)), down(&web.open, 1));
    match reply {
        Ok((code, sent)) => {
            let code = match code {
                Code::Success => &web.ok,
                Code::BadRequest => &web.bad,
                Code::NotFound => &web.missing,
            };
            recorder.publish(&[inc(code, 1), observe(&web.bytes, sent), time, end])?;
        }
        Err(_) => recorder.publish(&[inc(&web.lost, 1), time, end])?,
    }
    Ok(())
}

/// Answers by four threads, until so many connections were taken; then the flag is raised. None, if one had to give up.
fn answer_all(
    rt: &impl ServiceRuntime,
    listener: &TcpListener,
    recorders: &mut [Recorder<'_>],
    web: &Web,
    requests: u64,
    stop: &AtomicBool,
) -> Option<()> {
    let (taken, failed) = (AtomicU64::new(0), AtomicBool::new(false));
    let each = &|_thread: usize, recorder: &mut Recorder<'_>| {
        for _turn in rt.forever() {
            if taken.fetch_add(1, Ordering::SeqCst) >= requests {
                return;
            }
            if answer_one(rt, listener, recorder, web).is_err() {
                failed.store(true, Ordering::SeqCst);
                return;
            }
        }
    };
    for_each_mut(rt, recorders, 4, each);
    stop.store(true, Ordering::SeqCst);
    if failed.load(Ordering::SeqCst) {
        None
    } else {
        Some(())
    }
}

/// The two ports, and how many connections are answered.
fn asked(rt: &(impl Env + AllocGlobal)) -> Option<(u16, u16, u64)> {
    let mut words = env::args(rt).ok()?.skip(1);
    let (port, metrics, requests) = (words.next()?, words.next()?, words.next()?);
    let ports = (port.as_str().parse().ok()?, metrics.as_str().parse().ok()?);
    Some((ports.0, ports.1, requests.as_str().parse().ok()?))
}

fn main(rt: HostRuntime) -> Result<()> {
    let (port, metrics, requests) = asked(&rt).context("usage: example_web PORT METRICS REQUESTS")?;
    let (web_port, metrics_port) = (listen_aloud(&rt, port)?, listen_aloud(&rt, metrics)?);
    let mut crew = Crew::<4, 4, 2, 1>::new(rt.alloc(), 1, 1)?;
    let (registry, mut recorders, _) = crew.open(1)?;
    let web = register(&rt, &registry)?;
    let stop = AtomicBool::new(false);
    let (answered, served) = join(
        &rt,
        || answer_all(&rt, &web_port, &mut recorders, &web, requests, &stop),
        || serve_until(
            &rt,
            &metrics_port,
            &registry,
            Duration::from_secs(PATIENCE),
            2,
            &stop,
        ),
    );
    served?;
    print_last(&rt, registry)?;
    answered.context("connections could not be accepted")
}
