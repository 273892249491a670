//! A registry over any source of snapshots: its families and their children, its handles, its journal, and the scrapes that it
//! gives and keeps.
//!
//! A scrape has three forms. A scan of the source gives a `Snapshot` of snapshot_scan: how often each worker has published, and
//! the total of each word of a row. That is what the journal keeps: a *kept scrape* is seen by contracts as an `Answer` of
//! register_rule, a vector and totals, and read out as a `Snapshot` again. What `scrape` gives is a `Scrape` of expo_text: the
//! families, and each child with its number in that answer. It is not kept.
#![tactic(auto)]

mod family;
mod fault;
mod handle;
mod journal;
mod kept;
mod noted_change;
mod noted_child;
mod noted_family;
mod ordering;
mod plain;
mod registry;
mod shown;
mod used;

pub use fault::{BadWindow, ChildFault, NewFault, RegisterFault, ScrapeFault};
pub use handle::{FamilyId, Handle};
pub use journal::Journal;
pub use kept::Kept;
pub use registry::{NotMade, RegistryState, slots_of};
