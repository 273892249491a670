//! The tests in Rattle: of the library for services, and of the crates that it is built of, where C does not reach. They stand
//! apart from what they test: a crate with tests is proved twice.
#![tactic(auto)]

#[cfg(test)]
mod asserts;
#[cfg(test)]
mod crew;
#[cfg(test)]
mod growth;
#[cfg(test)]
mod helpers;
#[cfg(test)]
mod jobs;
#[cfg(test)]
mod locked;
#[cfg(test)]
mod made;
#[cfg(test)]
mod seen;
#[cfg(test)]
mod services;
#[cfg(test)]
mod tests;
