//! A family of counters with a label, and a histogram. Each list is one version: no scrape sees an answer without its bytes.
use anyhow::{Context, Result};
use dirgwako::{Crew, Registrar, ServiceRuntime, inc, observe, print_last};

pub fn run(rt: &impl ServiceRuntime) -> Result<()> {
    let mut crew = Crew::<1, 2, 1, 0>::new(rt.alloc(), 2, 1)?;
    let (registry, mut recorders, _) = crew.open(1)?;
    let mut metrics = Registrar::new(rt, &registry);
    let answers = metrics.counter_family("answers_total", "Answers by code.", &["code"])?;
    let found = metrics.counter_of(&answers, &["200"])?;
    let missing = metrics.counter_of(&answers, &["404"])?;
    let size = metrics.histogram("answer_bytes", "Bytes of each answer.", &[10, 20, 30])?;
    let recorder = recorders.first_mut().context("no recorder")?;
    recorder.publish(&[inc(&found, 1), observe(&size, 25)])?;
    recorder.publish(&[inc(&missing, 1), observe(&size, 0)])?;
    Ok(print_last(rt, registry)?)
}
