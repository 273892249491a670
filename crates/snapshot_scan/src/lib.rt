//! Scans of running threads: all segments of a board at one moment, taken while workers publish.
//!
//! A [`Reader`] scans into a [`Snapshot`]: a vector of how often each worker has published, and the totals of all rows at that
//! vector. A scan makes at most `N` + 2 tries; it ends direct, where a try met the same numbers twice, with the view that a
//! worker lent, or with [`Contended`]. It takes no memory and waits for nobody; from its first failed try on it asks the workers
//! to rest, unless it is the scan of an update. [`ScanMemory`] is what the scans of one seat work with: the rows that were
//! confirmed last are remembered, so that a scan reads the words of those rows alone that moved.
//!
//! A [`Source`] is what snapshots are taken of: a [`Scanner`], which is a board and a reader of it, or a [`PlainSource`], a
//! row of one thread, to which lists of operations are applied or refused with a [`PlainFault`].
//!
//! The algorithm is the unbounded single-writer snapshot of Afek, Attiya, Dolev, Gafni, Merritt and Shavit, "Atomic
//! Snapshots of Shared Memory", J. ACM 40(4), 1993, section 3; a scan here is a scan of `snapshot_core`, by a clause.
#![tactic(auto)]

mod asks;
mod changed_items;
mod contended;
mod end_told;
mod exchange;
mod first_collect;
mod items;
mod no_memory_for_seat;
mod ordering;
mod plain;
mod plain_fault;
mod plain_table;
mod reader;
mod remembered_row;
mod rows;
mod scan_end;
mod scan_memory;
mod scanner;
mod second_collect;
mod snapshot;
mod source;
mod tries;
mod try_end;

pub use changed_items::ChangedItems;
pub use contended::Contended;
pub use no_memory_for_seat::NoMemoryForSeat;
pub use ordering::order;
pub use plain::{PlainSource, PlainSourceOf};
pub use plain_fault::PlainFault;
pub use reader::Reader;
pub use scan_end::ScanEnd;
pub use scan_memory::ScanMemory;
pub use scanner::Scanner;
pub use snapshot::Snapshot;
pub use source::Source;
