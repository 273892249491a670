//! What a worker counts: operations on counters, histograms and gauges, and the row of words that they add up to.
//!
//! A row of `C` counters, `H` histograms and `G` gauges has `C + 27 * H + 2 * G` words. Counter `k` is
//! word `k`. Histogram `h` has its 25 buckets from word `C + 27 * h` on, its sum at `C + 27 * h + 25` and its
//! count at `C + 27 * h + 26`. Gauge `g` has its ups at `C + 27 * H + 2 * g` and its downs at the word after.
//! No word ever falls, and none passes [`MAX_WORD`]. The buckets of a histogram always add up to its count.
#![tactic(auto)]

mod handles;
mod joining;
mod limits;
mod op;
mod op_fault;
mod op_list;
mod row;
mod signed;
mod tally;
mod tally_fault;
mod totals;
mod word;
mod words;

pub use handles::{Counter, Gauge, Histogram};
pub use limits::{MAX_COUNTERS, MAX_GAUGES, MAX_HISTOGRAMS, MAX_WORKERS};
pub use op::Op;
pub use op_fault::OpFault;
pub use row::{MAX_WORD, Row};
pub use tally::Tally;
pub use tally_fault::TallyFault;
pub use totals::{GaugeTotals, HistTotals};
