//! Several scrapes as one, in memory that is taken before them.
#![tactic(auto)]

mod frames;
mod merging;
mod putting;
mod showing;

pub use frames::Frames;
pub use merging::merge;
