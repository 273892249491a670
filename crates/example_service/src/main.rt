//! An example of a service: two threads do pretended jobs and count them, while a third one answers scrapes of what they count.
//! `example_service PORT REPLIES` answers so many connections to 127.0.0.1, whose port it tells, and then prints how many jobs
//! were done, and its metrics.
#![tactic(auto)]

use anyhow::{Context, Result};
use dirgwako::{
    Counter, Crew, Gauge, Histogram, Registers, Registrar, RegistryState, Scanner, ServiceRuntime,
    Snapshot, down, histogram_totals, inc, listen_aloud, observe, seconds_default, serve_alone,
    settle, text_of,
};
use std::env;
use std::net::TcpListener;
use std::rt::Env;
use std::thread::join;
use std::time::Duration;

/// What a thread counts with. There are 2 workers, 8 counters, 2 histograms and 1 gauge.
type Recorder<'a> = dirgwako::Recorder<'a, 2, 8, 2, 1>;

/// What is scraped. All is registered before it is served, and one thread serves it: it needs no lock.
type Registry<'a> = RegistryState<Scanner<'a, 2, 8, 2, 1>, 2, 8, 2, 1>;

/// The handles of what is counted.
#[derive(Clone, Copy)]
struct Jobs {
    ok: Counter,
    bad: Counter,
    bytes: Histogram,
    time: Histogram,
    open: Gauge,
}

/// Registers what is counted.
fn register(metrics: &mut Registrar<impl Registers>) -> Result<Jobs> {
    let total = metrics.counter_family("jobs_total", "Jobs by their result.", &["result"])?;
    Ok(Jobs {
        ok: metrics.counter_of(&total, &["ok"])?,
        bad: metrics.counter_of(&total, &["failed"])?,
        bytes: metrics.histogram("job_bytes", "Bytes of each job.", &[100, 250, 500])?,
        time: metrics.histogram_seconds("job_seconds", "Time of each job.", &seconds_default())?,
        open: metrics.gauge("jobs_open", "Jobs that are being done.")?,
    })
}

/// Does 1,000 pretended jobs. What is known at a job's end is one version: a scrape sees all of it or nothing.
fn do_jobs(recorder: &mut Recorder<'_>, jobs: &Jobs) -> Result<()> {
    for bytes in 1..=1_000 {
        recorder.up(&jobs.open, 1)?;
        // Here a service does the job, of which each tenth fails, and takes its time in microseconds.
        let end = if bytes % 10 == 0 { &jobs.bad } else { &jobs.ok };
        recorder.publish(&[
            observe(&jobs.bytes, bytes),
            observe(&jobs.time, 20 * bytes),
            inc(end, 1),
            down(&jobs.open, 1),
        ])?;
    }
    Ok(())
}

/// Does the jobs of two threads.
fn do_all(rt: &impl ServiceRuntime, recorders: &mut [Recorder<'_>], jobs: &Jobs) -> Result<()> {
    let (first, rest) = recorders.split_first_mut().context("no recorder")?;
    let second = rest.first_mut().context("no second recorder")?;
    let (one, other) = join(rt, || do_jobs(first, jobs), || do_jobs(second, jobs));
    one.and(other)
}

/// Does all jobs and answers connections meanwhile, with a patience of five seconds each. It gives the registry back.
fn work<'a>(
    rt: &impl ServiceRuntime,
    listener: &TcpListener,
    replies: u64,
    registry: Registry<'a>,
    recorders: &mut [Recorder<'_>],
    jobs: &Jobs,
) -> Result<Registry<'a>> {
    let (done, (served, registry)) = join(
        rt,
        || do_all(rt, recorders, jobs),
        || serve_alone(rt, listener, registry, Duration::from_secs(5), replies),
    );
    done?;
    served?;
    Ok(registry)
}

/// Prints how many jobs were done in all, exactly, when nobody counts any more.
fn print_done(rt: &impl ServiceRuntime, recorders: &[Recorder<'_>], jobs: &Jobs) -> Result<()> {
    let mut totals = Snapshot::new(rt.alloc())?;
    settle(recorders, &mut totals)?;
    let done = histogram_totals(&totals, &jobs.bytes).context("no histogram")?;
    Ok(println!(rt; "# {} jobs were done.", done.count)?)
}

/// Prints a last scrape.
fn print_last(rt: &impl ServiceRuntime, registry: Registry<'_>) -> Result<()> {
    match text_of(registry) {
        Ok((text, _)) => Ok(rt.write_all(&text)?),
        Err((fault, _)) => Err(fault.into()),
    }
}

/// The port, and how many connections are answered.
fn asked(rt: &(impl Env + AllocGlobal)) -> Option<(u16, u64)> {
    let mut words = env::args(rt).ok()?.skip(1);
    let (port, replies) = (words.next()?, words.next()?);
    let asked = (port.as_str().parse().ok()?, replies.as_str().parse().ok()?);
    words.next().is_none().then_some(asked)
}

fn main(rt: HostRuntime) -> Result<()> {
    let (port, replies) = asked(&rt).context("usage: example_service PORT REPLIES")?;
    let listener = listen_aloud(&rt, port)?;
    let mut crew = Crew::<2, 8, 2, 1>::new(rt.alloc(), 1, 1)?;
    let (registry, mut recorders, _) = crew.open_state(64)?;
    let mut metrics = Registrar::of(rt.alloc(), registry);
    let jobs = register(&mut metrics)?;
    let registry = work(&rt, &listener, replies, metrics.at, &mut recorders, &jobs)?;
    print_done(&rt, &recorders, &jobs)?;
    print_last(&rt, registry)
}
