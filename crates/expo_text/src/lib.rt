//! A scrape, and its text in the Prometheus text exposition format 0.0.4: in memory, counted, and sent to a writer. With the
//! definition of an exposition, by which the text is read back.
//!
//! Source: Prometheus documentation, "Exposition formats", "Text-based format".
#![tactic(auto)]

mod byte_count;
mod checked;
mod filling;
mod front;
mod labels;
mod number;
mod page;
mod piece;
mod samples;
mod scrape;
mod sending;
mod shifting;
mod sink;
mod writer;

pub use byte_count::text_len;
pub use number::Number;
pub use page::render;
pub use scrape::{ChildScrape, FamilyScrape, Scrape};
pub use sending::{WriteFailed, send, write_after, write_to};
pub use watched::Watched;
