//! What all workers of a board, and several snapshots, say together: exact totals once the workers are gathered, and one
//! history of publishes through snapshots that rise.
#![tactic(auto)]

mod gathering;
mod history;
mod not_all;
mod settling;
mod turns;

pub use gathering::missing;
pub use history::history_of;
pub use not_all::NotAll;
pub use settling::settle;
pub use turns::{ChainFault, Turn};
