//! A pool of threads: one for each worker, which does its list of jobs in order and hands the worker back.
#![tactic(auto)]

mod fault;
mod gate;
mod job;
mod job_lists;
mod outcome;
mod promise;
mod run;
mod starting;
mod thread_work;
mod way;

pub use fault::PoolFault;
pub use gate::{Gate, Open};
pub use job::Job;
pub use job_lists::JobLists;
pub use run::{run_freely, run_lists, run_pool};
pub use snapshot_update::JobOp;
