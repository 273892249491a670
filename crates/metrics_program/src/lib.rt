//! What the program `metrics_run` does: [`run_script`] runs the lines of a script over a board of four workers, and [`serve_on`]
//! answers connections by four threads, each with a worker of its own, and counts the replies as metrics that it serves itself.
#![tactic(auto)]

// The board of both.
mod board;
mod sending;

// Scripts.
mod calls;
mod children;
mod jobs;
mod line_fault;
mod parts;
mod queue;
mod queued_job;
mod refused;
mod script;
mod state;

// The server.
mod answer;
mod metrics;
mod serve;
mod threads;

pub use board::{Board, Reader, Registry, Snapshot, Staff, Worker, new_board};
pub use script::{ScriptEnd, refuse_all, run_script};
pub use sending::{Broken, send};
pub use serve::{ServeEnd, serve_on};
