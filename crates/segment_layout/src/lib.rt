//! Where each word of the board stands: the words that all workers share.
//!
//! A board is a list of 64-bit words, and a place is a count of words from its beginning. It has one segment for each
//! of its `n` workers, 1 to 32. A row has `w = c + 27 * h + 2 * g` words, for `c` counters, 0 to 256, `h` histograms,
//! 0 to 32, and `g` gauges, 0 to 64.
//!
//! A segment has its number, and then two buffers: version `s` uses buffer `s` mod 2. A buffer has `2 * w + 1 + n`
//! words: a row, a flag, for each worker the number of the view's vector, and the lent totals, another row.
//! The layout is this project's own.
#![tactic(auto)]

mod part;
mod place;

pub use part::{Item, Part};
pub use place::{buffer_words, item_at, next_buffer, place_of, segment_words, words_needed};
