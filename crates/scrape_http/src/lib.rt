//! The scrape endpoint: one request is read, and its reply written.
//!
//! [`serve_one`] is the whole of it: what is written is the reply to the bytes that were read and to what the source of scrapes
//! gave. It works over any reader and writer that are watched, and takes no memory of its own. A request is refused by a status,
//! which is a reply; a call by a [`WireFault`], which has a number.
//!
//! Source: RFC 9110 and RFC 9112, as far as a scrape needs them; status 431 is of RFC 6585, section 5; the body is the Prometheus
//! text exposition format 0.0.4.
#![tactic(auto)]

mod fault;
mod head;
mod reply;
mod request;
mod serve;
mod source;
mod status;
mod target;

pub use fault::WireFault;
pub use serve::{Served, serve_one};
pub use source::{NoScrape, ScrapeFrom};
pub use status::Status;
