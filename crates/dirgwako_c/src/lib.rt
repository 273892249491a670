//! Dirgwako for C: a page of boards of one geometry, which come when they are needed, and recorders that threads
//! count with on all of them.
//!
//! What C holds is a handle of two words, zeros where it holds nothing. A call that needs what an empty handle has not is
//! refused. Each call answers 0, or the number of a refusal (docs/REFUSALS.md); `dirgwako_c_place` alone a place.
#![tactic(auto)]

mod about;
mod boards;
mod buffers;
mod change;
mod counting;
mod families;
mod family;
mod geometry;
mod handle;
mod handles;
mod held;
mod joining;
mod loose;
mod metrics;
mod numbers;
mod opening;
mod page_boards;
mod publishing;
mod readings;
mod refusals;
mod replying;
mod scrapers;
mod scraping;
mod sends;
mod settling;
mod spaced;
mod spare;
mod texts;
mod windows;

pub use about::{ABI, Abi, dirgwako_c_abi, dirgwako_c_is_name};
pub use boards::{
    dirgwako_c_recorder_free, dirgwako_c_recorder_give_back, dirgwako_c_recorder_take,
    dirgwako_c_registry_free, dirgwako_c_registry_new, dirgwako_c_registry_new_with,
};
pub use change::Change;
pub use counting::{dirgwako_c_down, dirgwako_c_inc, dirgwako_c_observe, dirgwako_c_up};
pub use families::{
    dirgwako_c_counter_family_new, dirgwako_c_counter_of, dirgwako_c_gauge_family_new,
    dirgwako_c_gauge_of, dirgwako_c_histogram_family_new, dirgwako_c_histogram_of,
};
pub use family::{CounterFamily, GaugeFamily, HistogramFamily};
pub use handles::{RecorderHandle, RegistryHandle, ScraperHandle};
pub use metrics::{dirgwako_c_counter_new, dirgwako_c_gauge_new, dirgwako_c_histogram_new};
pub use numbers::{
    HistogramTotals, dirgwako_c_counter_total, dirgwako_c_gauge_value, dirgwako_c_histogram_totals,
};
pub use page_boards::{dirgwako_c_board_add, dirgwako_c_board_of, dirgwako_c_boards};
pub use publishing::{dirgwako_c_place, dirgwako_c_publish};
pub use readings::{dirgwako_c_kept, dirgwako_c_read, dirgwako_c_read_kept};
pub use refusals::dirgwako_c_refusal;
pub use replying::{dirgwako_c_reply, dirgwako_c_scraper_reply};
pub use scrapers::{dirgwako_c_scraper_free, dirgwako_c_scraper_take, dirgwako_c_scrapers};
pub use scraping::{dirgwako_c_scrape, dirgwako_c_scraper_scrape};
pub use sends::{recorder_sent, registry_sent, scraper_sent};
pub use settling::dirgwako_c_settle;
pub use spaced::{dirgwako_c_exponential, dirgwako_c_linear};
pub use windows::dirgwako_c_set_window;
