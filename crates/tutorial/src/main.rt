//! A tutorial in six steps, each of which is a file: [`counter`], [`labels`], [`threads`], [`testing`], [`routes`] and
//! [`endpoint`]. The program runs them in order. The endpoint answers as many connections as the program is told: `tutorial 1`
//! one, `tutorial` none.
#![tactic(auto)]

mod counter;
mod endpoint;
mod labels;
mod routes;
mod testing;
mod threads;

use anyhow::Result;
use std::env;
use std::rt::Env;

/// How many connections are answered, if the program is told.
fn connections(rt: &(impl Env + AllocGlobal)) -> Option<u64> {
    env::args(rt).ok()?.nth(1)?.as_str().parse().ok()
}

fn main(rt: HostRuntime) -> Result<()> {
    counter::run(&rt)?;
    labels::run(&rt)?;
    threads::run(&rt)?;
    testing::run(&rt)?;
    routes::run(&rt)?;
    endpoint::run(&rt, connections(&rt).unwrap_or(0))
}
