//! An endpoint: scrapes over HTTP, on a port of 127.0.0.1 that the system chooses.
use anyhow::{Context, Result};
use dirgwako::{Crew, Registrar, ServiceRuntime, listen_aloud, serve};
use std::net::{Net, TcpListener, TcpStream};
use std::time::Duration;

pub fn run<R>(rt: &R, connections: u64) -> Result<()>
where
    R: ServiceRuntime + Net<Listener = TcpListener, Stream = TcpStream> + Eprint,
{
    let mut crew = Crew::<1, 1, 0, 0>::new(rt.alloc(), 4, 1)?;
    let (registry, mut recorders, _) = crew.open(64)?;
    let visits = Registrar::new(rt, &registry).counter("visits_total", "Visits so far.")?;
    let recorder = recorders.first_mut().context("no recorder")?;
    recorder.inc(&visits, 3)?;
    let listener = listen_aloud(rt, 0)?;
    let patience = Duration::from_secs(5);
    serve(rt, &listener, &registry, patience, connections)?;
    Ok(())
}
