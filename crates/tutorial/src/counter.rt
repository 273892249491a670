//! One counter, counted and printed.
use anyhow::{Context, Result};
use dirgwako::{Crew, Registrar, ServiceRuntime, print_last};

pub fn run(rt: &impl ServiceRuntime) -> Result<()> {
    // One thread counts; there is one counter. The board's id is 1, it has one reader, and one scrape is kept.
    let mut crew = Crew::<1, 1, 0, 0>::new(rt.alloc(), 1, 1)?;
    let (registry, mut recorders, _) = crew.open(1)?;
    let visits = Registrar::new(rt, &registry).counter("visits_total", "Visits so far.")?;
    let recorder = recorders.first_mut().context("no recorder")?;
    recorder.inc(&visits, 3)?;
    Ok(print_last(rt, registry)?)
}
