//! Which board a page takes, and on which a new family is.
ghost use Rattle.std.specs.Prelude.{◌≡◌, ◌≢◌, ◌<◌, ◌↔◌, length, All, IsTrue, MatchOption};
ghost use Rattle.std.specs.List.{Any};
ghost use Rattle.scrape_page.specs.Faults.{IsFresh};

use crate::family::PageFamily;
use registry_state::RegistryState;
use snapshot_scan::Source;

/// Whether none of the boards has this id.
fn is_new_id<S: Source<N, C, H, G>, const N: usize, const C: usize, const H: usize, const G: usize>(
    boards: &[RegistryState<S, N, C, H, G>],
    id: u64,
) -> bool
    ensures { IsTrue result ↔ All (λ board. board.id ≢ id) boards.now }
{
    for board in boards {
        if board.id() == id {
            return false;
        }
    }
    true
}

/// Whether a page with these boards takes this one.
pub(crate) fn is_fresh<
    S: Source<N, C, H, G>,
    const N: usize,
    const C: usize,
    const H: usize,
    const G: usize,
>(boards: &[RegistryState<S, N, C, H, G>], board: &RegistryState<S, N, C, H, G>) -> bool
    ensures { IsTrue result ↔ IsFresh boards.now board.now }
{
    board.family_count() == 0 && is_new_id(boards, board.id())
}

/// The board of a group, if a family is of it.
pub(crate) fn home_of_group(families: &[PageFamily], group: u64) -> Option<usize>
    ensures { MatchOption result (All (λ family. family.group ≢ group) families.now)
        (λ home. Any (λ family. (family.group ≡ group) × (family.home ≡ home)) families.now) }
{
    for family in families {
        if family.group == group {
            return Some(family.home);
        }
    }
    None
}
