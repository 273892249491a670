ghost use Rattle.std.specs.Prelude.{◌≡◌, ℕ, ◌<◌, ◌≤◌, length, slice_index};
ghost use Rattle.snapshot_scan.specs.Contention.{IsFirstMoved};

use thiserror::Error;

/// Refusal 14: in each of `N` + 2 tries some worker's number rose, and no worker lent its view.
#[derive(Clone, Copy, Debug, PartialEq, Eq, Error)]
#[error("a scan was given up: the number of worker {worker} rose from {first} to {last}")]
pub struct Contended {
    /// The least worker whose number rose in the last try.
    pub worker: usize,
    /// Its number when the try opened.
    pub first: u64,
    /// Its number when the try confirmed, which is greater.
    pub last: u64,
}

impl Contended {
    /// The refusal's number: 14.
    pub fn number(&self) -> u8
        ensures { result ≡ 14 }
    {
        14
    }
}

/// The least place at which the second collect of a try found another number than the first.
pub(crate) fn first_moved(first: &[u64], last: &[u64]) -> Contended
    requires same { length first.now ≡ length last.now }
    requires risen { (q : ℕ) → q < length first.now → slice_index first.now q ≤ slice_index last.now q }
    requires rose { (q : ℕ) × (q < length first.now) × (slice_index first.now q < slice_index last.now q) }
    ensures { IsFirstMoved first.now last.now result }
{
    for worker in 0..first.len() {
        if first[worker] != last[worker] {
            return Contended {
                worker,
                first: first[worker],
                last: last[worker],
            };
        }
    }
    unreachable!()
}
