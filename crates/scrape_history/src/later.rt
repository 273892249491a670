//! Scrapes that are kept as increases.
ghost use Rattle.std.specs.Prelude.{◌≡◌, ◌≤◌, ◌<◌, ◌^◌, length, take};
ghost use Rattle.scrape_history.specs.History.{changed_in};

use std::collections::VecDeque;

/// A scrape that is kept as its increases over the one before.
#[derive(Clone, Copy, Drop)]
pub(crate) struct Later {
    /// How many changes were made before it.
    pub(crate) before: usize,
    /// How many of its numbers are not those of the scrape before it.
    pub(crate) changed: usize,
}

/// How many increases lead to the first `count` of these scrapes.
pub(crate) fn changed_to(later: &VecDeque<Later>, count: usize) -> usize
    requires within { count ≤ length later.now.items }
    requires low { changed_in later.now.items < 2 ^ 64 }
    ensures { result ≡ changed_in (take count later.now.items) }
{
    let mut changed = 0;
    for place in 0..count {
        changed += later[place].changed;
    }
    changed
}
