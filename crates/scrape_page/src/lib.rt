//! Several registries, each over a board of its own, as one page.
//!
//! A board has at most 256 counters, 32 histograms and 64 gauges. A [`Page`] is one to 96 registries without a lock; a family's
//! children may be on several of them, and one scrape shows all. The numbers of one board are of one moment; between two boards
//! none is claimed. Families that shall agree are registered in one group, and stay on its board as long as that has room.
#![tactic(auto)]

mod asking;
mod boards;
mod each;
mod family;
mod fault;
mod finding;
mod growing;
mod keeping;
mod making;
mod naming;
mod page;
mod registering;
mod rooms;
mod scraping;
mod seeking;
mod windows;

pub use family::{PageFamily, PageFamilyId, Part};
pub use fault::{BoardFault, PageChildFault, PageFamilyFault};
pub use page::{NotTaken, Page};
