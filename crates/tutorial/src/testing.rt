//! A test of a service's metrics: it calls what counts, scans, and compares what the scan has found, and in the end the exact
//! totals.
use anyhow::{Context, Result, ensure};
use dirgwako::{
    Counter, Crew, Histogram, Recorder, Registrar, Registry, Scanner, ServiceRuntime, Snapshot,
    Source, counter_total, histogram_totals, inc, observe, settle,
};

/// What is counted: answers, and the bytes of each.
fn registered(
    rt: &impl ServiceRuntime,
    registry: &Registry<'_, 1, 1, 1, 0>,
) -> Result<(Counter, Histogram)> {
    let mut metrics = Registrar::new(rt, registry);
    let answers = metrics.counter("answers_total", "Answers so far.")?;
    let size = metrics.histogram("answer_bytes", "Bytes of each answer.", &[10, 20])?;
    Ok((answers, size))
}

/// What is tested: an answer is counted with its bytes.
fn answer(
    recorder: &mut Recorder<'_, 1, 1, 1, 0>,
    answers: &Counter,
    size: &Histogram,
    bytes: u64,
) -> Result<()> {
    Ok(recorder.publish(&[inc(answers, 1), observe(size, bytes)])?)
}

/// What a scan finds: how many answers there were, and their bytes.
fn found(
    rt: &impl ServiceRuntime,
    scanner: &mut Scanner<'_, 1, 1, 1, 0>,
    answers: &Counter,
    size: &Histogram,
) -> Result<(Option<u64>, Option<u64>)> {
    let mut snapshot = Snapshot::new(rt.alloc())?;
    scanner.scan(&mut snapshot)?;
    let bytes = histogram_totals(&snapshot, size).map(|totals| totals.sum);
    Ok((counter_total(&snapshot, answers), bytes))
}

/// How many answers there were, exactly: at the end, with all recorders at hand.
fn total(
    rt: &impl ServiceRuntime,
    recorders: &[Recorder<'_, 1, 1, 1, 0>],
    answers: &Counter,
) -> Result<Option<u64>> {
    let mut totals = Snapshot::new(rt.alloc())?;
    settle(recorders, &mut totals)?;
    Ok(counter_total(&totals, answers))
}

pub fn run(rt: &impl ServiceRuntime) -> Result<()> {
    // Of the two readers the last one is the registry's, and the other one is the scanner.
    let mut crew = Crew::<1, 1, 1, 0>::new(rt.alloc(), 5, 2)?;
    let (registry, mut recorders, mut scanners) = crew.open(1)?;
    let (answers, size) = registered(rt, &registry)?;
    let recorder = recorders.first_mut().context("no recorder")?;
    answer(recorder, &answers, &size, 15)?;
    let scanner = scanners.first_mut().context("no scanner")?;
    let seen = found(rt, scanner, &answers, &size)?;
    ensure!(
        seen == (Some(1), Some(15)),
        "an answer was not counted with its bytes"
    );
    let last = total(rt, &recorders, &answers)?;
    ensure!(last == Some(1), "an answer was lost");
    Ok(println!(rt; "an answer was counted with its bytes")?)
}
