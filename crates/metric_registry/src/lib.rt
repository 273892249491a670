//! A registry behind a lock, over a board on which workers count without one.
//!
//! Any thread registers families, makes children and scrapes; each call waits for the lock, makes one call on what stands
//! behind it, and hands its answer on. Workers never meet the lock.
#![tactic(auto)]

mod locked;
mod making;
mod naming;
mod registry;
mod settling;

pub use making::NotMade;
pub use naming::{AnyBoard, Named};
pub use registry::{Registry, RegistryOf};
pub use settling::{NotSettled, settle_state};
