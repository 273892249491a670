ghost use Rattle.std.specs.Prelude.{◌≡◌, ◌+◌, ◌%◌, ◌<◌, ◌≤◌};
ghost use Rattle.ledger_core.specs.Ops.{width};
ghost use Rattle.segment_layout.specs.Layout.{IsGeometry, IsPart, StandsAlone, depth, span, words, IsItem, item_at, in_buffer};
ghost use Rattle.segment_layout.specs.Layout.{in_segment, place};

use crate::part::{Item, Part};

/// The buffer that a worker writes while this version is shown: the versions take both in turn.
#[inline]
pub fn next_buffer(version: u64) -> usize
    ensures { result ≡ (version + 1) % 2 }
{
    // Only the parity counts, and so this sum never passes 2^64 - 1.
    ((version % 2 + 1) % 2) as usize
}

/// How many words a buffer has: `2 * w + 1 + n`, at most 2,529.
#[inline]
pub fn buffer_words(n: usize, c: usize, h: usize, g: usize) -> usize
    requires { IsGeometry n c h g }
    ensures { result ≡ depth n (width c h g) }
{
    2 * row_words(c, h, g) + 1 + n
}

/// How many words a segment has: its number and two buffers, at most 5,059.
#[inline]
pub fn segment_words(n: usize, c: usize, h: usize, g: usize) -> usize
    requires { IsGeometry n c h g }
    ensures { result ≡ span (depth n (width c h g)) }
{
    1 + 2 * buffer_words(n, c, h, g)
}

/// How many words a board has: a segment for each worker, at most 161,888.
#[inline]
pub fn words_needed(n: usize, c: usize, h: usize, g: usize) -> usize
    requires { IsGeometry n c h g }
    ensures { result ≡ words n (width c h g) }
{
    n * segment_words(n, c, h, g)
}

/// The place on the board of one part of a segment, in words from the board's beginning.
///
/// It is on the board, and no other part of any segment has the same place.
#[inline]
pub fn place_of(n: usize, c: usize, h: usize, g: usize, segment: usize, part: Part) -> usize
    requires geometry { IsGeometry n c h g }
    requires segment { segment < n }
    requires part { IsPart n (width c h g) part }
    ensures place { result ≡ place n (width c h g) segment part }
    ensures within { result < words n (width c h g) }
    ensures apart { StandsAlone n (width c h g) segment part result }
{
    segment * segment_words(n, c, h, g) + in_segment(n, c, h, g, part)
}

/// The place of an item in its buffer, in words from the buffer's beginning. It is below [`buffer_words`].
#[inline]
pub fn item_at(n: usize, c: usize, h: usize, g: usize, item: Item) -> usize
    requires geometry { IsGeometry n c h g }
    requires item { IsItem n (width c h g) item }
    ensures place { result ≡ item_at n (width c h g) item }
    ensures within { result < depth n (width c h g) }
{
    let flag = row_words(c, h, g);
    match item {
        Item::Row { word } => word,
        Item::Flag => flag,
        Item::Vector { worker } => flag + 1 + worker,
        Item::Lent { word } => flag + 1 + n + word,
    }
}

// How many words a row has.
#[inline]
fn row_words(c: usize, h: usize, g: usize) -> usize
    requires counters { c ≤ 256 }
    requires histograms { h ≤ 32 }
    requires gauges { g ≤ 64 }
    ensures { result ≡ width c h g }
{
    c + 27 * h + 2 * g
}

// The place of a part from its segment's beginning.
#[inline]
fn in_segment(n: usize, c: usize, h: usize, g: usize, part: Part) -> usize
    requires geometry { IsGeometry n c h g }
    requires part { IsPart n (width c h g) part }
    ensures place { result ≡ in_segment n (width c h g) part }
    ensures within { result < span (depth n (width c h g)) }
{
    match part {
        Part::Number => 0,
        Part::Row { buffer, word } => in_buffer(n, c, h, g, buffer, Item::Row { word }),
        Part::Flag { buffer } => in_buffer(n, c, h, g, buffer, Item::Flag),
        Part::Vector { buffer, worker } => in_buffer(n, c, h, g, buffer, Item::Vector { worker }),
        Part::Lent { buffer, word } => in_buffer(n, c, h, g, buffer, Item::Lent { word }),
    }
}

// The place of an item of a buffer from its segment's beginning.
#[inline]
fn in_buffer(n: usize, c: usize, h: usize, g: usize, buffer: usize, item: Item) -> usize
    requires geometry { IsGeometry n c h g }
    requires buffer { buffer < 2 }
    requires item { IsItem n (width c h g) item }
    ensures place { result ≡ in_buffer n (width c h g) buffer (item_at n (width c h g) item) }
    ensures within { result < span (depth n (width c h g)) }
{
    1 + buffer * buffer_words(n, c, h, g) + item_at(n, c, h, g, item)
}
