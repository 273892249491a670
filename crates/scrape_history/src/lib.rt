//! Scrapes that are kept in little memory: the oldest whole, each later one as its increases over the one before.
#![tactic(auto)]

mod history;
mod increase;
mod later;

pub use history::History;
