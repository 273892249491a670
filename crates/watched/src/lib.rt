//! Readers and writers that are watched: whether one has failed, ended or been flushed, as far as the traits `Read` and
//! `Write` speak.
#![tactic(auto)]

mod watched;

pub use watched::Watched;
