//! What a server of scrapes needs beside [`scrape_http`]: registries as its sources, and connections that end in stages.
//!
//! [`FromRegistry`] is a registry behind its lock, which any number of threads may serve from. [`FromState`] is a registry that
//! is lent, by one thread at a time; [`serve_state`] says of it which scrape was sent. [`serve_stream`] serves one connection
//! whole.
#![tactic(auto)]

mod again;
mod fault;
mod registry;
mod state;
mod stream;

pub use again::{AskedAgain, scrape_again};
pub use registry::FromRegistry;
pub use state::{FromState, MakesScrapes, serve_state};
pub use stream::{close_behind, close_in_stages, has_input, serve_stream};
