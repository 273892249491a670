//! The scrapes that a journal keeps.
ghost use Rattle.std.specs.Prelude.{◌≡◌, ◌<◌, Some, length, slice_get};
ghost use Rattle.snapshot_scan.specs.Snapshots.{as_answer};

use scrape_history::History;
use snapshot_scan::Snapshot;
use std::marker::Model;

/// The scrapes that are kept, from the oldest to the newest.
///
/// Contracts see it as their list.
#[derive(Drop)]
pub struct Kept<'a, const N: usize, const C: usize, const H: usize, const G: usize> {
    pub(crate) scrapes: &'a History<N, C, H, G>,
}

impl<'a, const N: usize, const C: usize, const H: usize, const G: usize> Model
    for Kept<'a, N, C, H, G> {
    ghost use Rattle.std.specs.Prelude.{List};
    ghost use Rattle.register_rule.specs.declared.view.Answer.{Answer};
    ghost use Rattle.scrape_history.specs.History.{answers_of};

    ghost Value = { List Answer };

    ghost view = { λ k. answers_of k.scrapes.now.scrapes };
}

impl<'a, const N: usize, const C: usize, const H: usize, const G: usize> Kept<'a, N, C, H, G> {
    /// How many scrapes are kept.
    pub fn len(&self) -> usize
        ensures { result ≡ length self.now }
    {
        self.scrapes.len()
    }

    /// Makes `out` the scrape of this number, counted from the oldest, which is 0; it asks that there are more. It takes no
    /// memory.
    pub fn read(&self, number: usize, out: &mut Snapshot<N, C, H, G>)
        requires { number < length self.now }
        ensures { slice_get self.now number ≡ Some (as_answer out.new) }
    {
        self.scrapes.read(number, out);
    }
}
