//! Increases from one scrape to the next.
ghost use Rattle.std.specs.Prelude.{◌≡◌, ◌+◌, ◌≤◌, ◌<◌, length, take, drop};
ghost use Rattle.std.specs.VecDeque.{deque_capacity};
ghost use Rattle.segment_layout.specs.Layout.{IsGeometry};
ghost use Rattle.ledger_core.specs.Ops.{width};
ghost use Rattle.scrape_history.specs.Increases.{raised, raised_by, IsFor, AreFor, Adds};

use snapshot_scan::Snapshot;
use std::collections::VecDeque;

/// By how much a number of a scrape is above the same number of the scrape before it, modulo 2^64.
#[derive(Clone, Copy, Drop)]
pub(crate) enum Increase {
    /// How often this worker had published.
    Number { worker: u32, by: u64 },
    /// The total of this word of a row.
    Total { word: u32, by: u64 },
}

impl Increase {
    /// Adds it.
    fn add_to<const N: usize, const C: usize, const H: usize, const G: usize>(
        self,
        snapshot: &mut Snapshot<N, C, H, G>,
    )
        requires { IsFor N (width C H G) snapshot.old self }
        ensures { snapshot.new ≡ raised snapshot.old self }
    {
        match self {
            Increase::Number { worker, by } => {
                let place = worker as usize;
                let number = snapshot.vector()[place].wrapping_add(by);
                snapshot.set_number(place, number);
            }
            Increase::Total { word, by } => {
                let place = word as usize;
                let total = snapshot.totals()[place].wrapping_add(by);
                snapshot.set_total(place, total);
            }
        }
    }
}

/// Adds the first `count` increases.
pub(crate) fn raise<const N: usize, const C: usize, const H: usize, const G: usize>(
    snapshot: &mut Snapshot<N, C, H, G>,
    increases: &VecDeque<Increase>,
    count: usize,
)
    requires within { count ≤ length increases.now.items }
    requires fit { AreFor N (width C H G) snapshot.old increases.now.items }
    ensures { snapshot.new ≡ raised_by snapshot.old (take count increases.now.items) }
{
    for place in 0..count {
        increases[place].add_to(snapshot);
    }
}

/// Drops the first `count` increases.
pub(crate) fn drop_first(increases: &mut VecDeque<Increase>, count: usize)
    ensures rest { increases.new.items ≡ drop count increases.old.items }
    ensures room { deque_capacity increases.new ≡ deque_capacity increases.old }
{
    for _ in 0..count {
        let _first = increases.pop_front();
    }
}

/// Notes the increases from one scrape to the next, for which there is room.
pub(crate) fn note_increases<const N: usize, const C: usize, const H: usize, const G: usize>(
    increases: &mut VecDeque<Increase>,
    before: &Snapshot<N, C, H, G>,
    after: &Snapshot<N, C, H, G>,
)
    requires geometry { IsGeometry N C H G }
    requires room { length increases.old.items + N + width C H G ≤ deque_capacity increases.old }
    ensures { Adds N (width C H G) before.now after.now increases.old.items increases.new.items }
{
    note_numbers(increases, before, after);
    note_totals(increases, before, after);
}

/// Notes those of the workers' numbers.
fn note_numbers<const N: usize, const C: usize, const H: usize, const G: usize>(
    increases: &mut VecDeque<Increase>,
    before: &Snapshot<N, C, H, G>,
    after: &Snapshot<N, C, H, G>,
)
    requires geometry { IsGeometry N C H G }
    requires room { length increases.old.items + N ≤ deque_capacity increases.old }
    ensures added { Adds N (width C H G) before.now (record before.now { vector = after.now.vector }) increases.old.items
        increases.new.items }
    ensures few { length increases.new.items ≤ length increases.old.items + N }
    ensures room { deque_capacity increases.new ≡ deque_capacity increases.old }
{
    let was = before.vector();
    let is = after.vector();
    for worker in 0..N {
        if is[worker] != was[worker] {
            increases.push_back_reserved(Increase::Number {
                worker: worker as u32,
                by: is[worker].wrapping_sub(was[worker]),
            });
        }
    }
}

/// Notes those of the totals.
fn note_totals<const N: usize, const C: usize, const H: usize, const G: usize>(
    increases: &mut VecDeque<Increase>,
    before: &Snapshot<N, C, H, G>,
    after: &Snapshot<N, C, H, G>,
)
    requires geometry { IsGeometry N C H G }
    requires room { length increases.old.items + width C H G ≤ deque_capacity increases.old }
    ensures { Adds N (width C H G) (record before.now { vector = after.now.vector }) after.now increases.old.items
        increases.new.items }
{
    let was = before.totals();
    let is = after.totals();
    for word in 0..was.len() {
        if is[word] != was[word] {
            increases.push_back_reserved(Increase::Total {
                word: word as u32,
                by: is[word].wrapping_sub(was[word]),
            });
        }
    }
}
