//! The language of scripts: which texts are which lines ([`read_line`]), what stands in a line ([`unescape`],
//! [`labels_of`], [`bounds_of`], [`values_of`]), and the lines of a reader ([`Lines`]).
#![tactic(auto)]

mod line;
mod lines;
mod list;
mod number;
mod word;
mod writing;

pub use line::{Counting, Line, MOST_TIMES, WORKERS, read_line};
pub use lines::{Broken, Lines, MAX_LINE_BYTES, Next};
pub use list::{bounds_of, labels_of, values_of};
pub use number::read_number;
pub use writing::unescape;
