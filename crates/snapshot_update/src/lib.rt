//! Updates: how a worker makes its hidden buffer the next version of its segment, and what it knows of both its buffers.
//!
//! [`Crew`] is a board with its workers and readers. A [`Worker`] counts: `apply` and its like go to `update` (`update.rt`),
//! whose steps are, in this order: the row takes the operations (`Row::try_apply`), and the words that they touch are listed
//! (`touch`); it rests where a scan asks for it (`Board::rest_if_hushed`), and scans (`scan_for_update`); what it knows then is
//! its `Plan` (`know_next`), by which it publishes (`publish_next`, in `publishing.rt`). An update that repeats the one before
//! it fills the words that it touches (`publish_again`, `fill_again`); another one goes by lists, or compares the whole buffer
//! (`publish_anew`: `fill_version`, `fill_next` and `fills.rt`). Either stores the number (`Board::publish`), and remembers
//! what it published (`turn`, `learn`).
//!
//! A worker knows the words of both its buffers, so it stores only those that change, and it compares only the items
//! that may have changed: the head of `update.rt` has a table of the lists that tell which.
#![tactic(auto)]

mod buffer_images;
mod crew;
mod faults;
mod fills;
mod job_op;
mod known;
mod listing;
mod next_fill;
mod next_version;
mod op_words;
mod plan;
mod publishing;
mod run;
mod scanning;
mod touched;
mod update;
mod worker;

pub use crew::Crew;
pub use faults::{ApplyFault, CountFault};
pub use job_op::JobOp;
pub use worker::Worker;
