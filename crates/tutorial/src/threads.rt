//! Two threads count on one counter, each with a recorder of its own, without a lock.
use anyhow::Result;
use dirgwako::{Counter, Crew, Recorder, Registrar, ServiceRuntime, print_last};
use std::thread::for_each_mut;

/// The loop of a thread.
fn count(recorder: &mut Recorder<'_, 2, 1, 0, 0>, visits: &Counter) -> Result<()> {
    for _visit in 0..1_000 {
        recorder.inc(visits, 1)?;
    }
    Ok(())
}

pub fn run(rt: &impl ServiceRuntime) -> Result<()> {
    let mut crew = Crew::<2, 1, 0, 0>::new(rt.alloc(), 3, 1)?;
    let (registry, mut recorders, _) = crew.open(1)?;
    let visits = Registrar::new(rt, &registry).counter("visits_total", "Visits so far.")?;
    let each = &|_thread: usize, recorder: &mut Recorder<'_, 2, 1, 0, 0>| {
        // Nothing is refused here: the handle is the board's own.
        let _ = count(recorder, &visits);
    };
    for_each_mut(rt, &mut recorders, 2, each);
    Ok(print_last(rt, registry)?)
}
