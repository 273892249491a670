//! All who work on the boards of a page: recorders that count on every board, and the page with boards that come when they are
//! needed.
#![tactic(auto)]

mod appointing;
mod calls;
mod change;
mod count;
mod doing;
mod fault;
mod growing;
mod listing;
mod news;
mod opening;
mod owner;
mod page_recorder;
mod page_registry;
mod page_scraper;
mod page_totals;
mod publishing;
mod rings;
mod scraping;
mod settling;
mod shared_recorder;
mod shared_scanner;

pub use change::{Change, down, inc, observe, up};
pub use fault::{NoBoard, PageCrewFault, PublishFault, SettleFault};
pub use listing::{are_of, ops_of};
pub use owner::PageCrew;
pub use page_recorder::PageRecorder;
pub use page_registry::{FromPage, PageRegistry};
pub use page_scraper::PageScraper;
pub use page_totals::PageTotals;
pub use settling::settle_board;
pub use shared_recorder::SharedRecorder;
pub use shared_scanner::SharedScanner;
