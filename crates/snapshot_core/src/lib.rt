//! The snapshot algorithm as a pure core, over every list of events: the unbounded single-writer snapshot of Afek, Attiya,
//! Dolev, Gafni, Merritt and Shavit, "Atomic Snapshots of Shared Memory", J. ACM 40(4), 1993, section 3.
//!
//! [`ScanState`] is a scan as a machine without registers: it says which read comes next, and is told what that read met.
//! [`run`] runs a list of [`Event`]s of 1 to 32 workers and four readers over plain segments, and gives a [`Trace`]: its
//! publishes and its answers.
#![tactic(auto)]

mod actor;
mod event;
mod machine;
mod next;
mod outcome;
mod reading;
mod run_fault;
mod runs;
mod scan;
mod scan_state;
mod taking;
mod trace;
mod words;

pub use event::Event;
pub use next::Next;
pub use outcome::is_outcome;
pub use run_fault::RunFault;
pub use runs::run;
pub use scan_state::ScanState;
pub use trace::{Answer, Publish, ScanEnd, Trace};
