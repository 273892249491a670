//! Calls that take memory. Each that answers want of memory has changed nothing, and answers the same call again as it would have
//! answered the first one.
mod parts;
mod registries;
mod scrapers;
mod servers;
mod services;
