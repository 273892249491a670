//! Which board has room.
ghost use Rattle.std.specs.Prelude.{◌≡◌, ◌<◌, ◌⊎◌, ◌↔◌, length, slice_get, IsSomeAnd, All, IsTrue, MatchOption};
ghost use Rattle.scrape_page.specs.Rooms.{IsRoomiest, AreFull, IsFirstWithRoom, IsFullPart};

use crate::family::Part;
use metric_desc::Kind;
use registry_state::RegistryState;
use snapshot_scan::Source;

/// A board, how many of its slots of a kind are free, and how many families it has.
#[derive(Clone, Copy)]
pub(crate) struct Room {
    pub(crate) board: usize,
    pub(crate) free: usize,
    pub(crate) families: usize,
}

impl Room {
    /// Whether it has more free slots than the other, or as many and fewer families.
    fn beats(self, other: Room) -> bool
        ensures { IsTrue result ↔ ((other.free < self.free) ⊎ ((self.free ≡ other.free) × (self.families < other.families))) }
    {
        self.free > other.free || (self.free == other.free && self.families < other.families)
    }
}

/// The board with most free slots of a kind, of several the one with fewest families, of several the first.
pub(crate) fn roomiest<
    S: Source<N, C, H, G>,
    const N: usize,
    const C: usize,
    const H: usize,
    const G: usize,
>(boards: &[RegistryState<S, N, C, H, G>], kind: Kind) -> Room
    requires { 0 < length boards.now }
    ensures roomiest { IsRoomiest C H G kind boards.now result.board result.free }
    ensures full { result.free ≡ 0 → AreFull C H G kind boards.now }
{
    let first = &boards[0];
    let mut best = Room {
        board: 0,
        free: first.free_slots(kind),
        families: first.family_count(),
    };
    for (board, other) in boards.iter().enumerate() {
        let room = Room {
            board,
            free: other.free_slots(kind),
            families: other.family_count(),
        };
        if room.beats(best) {
            best = room;
        }
    }
    best
}

/// The place of the first part whose board has a free slot of a kind.
pub(crate) fn first_with_room<
    S: Source<N, C, H, G>,
    const N: usize,
    const C: usize,
    const H: usize,
    const G: usize,
>(boards: &[RegistryState<S, N, C, H, G>], parts: &[Part], kind: Kind) -> Option<usize>
    requires { All (λ part. part.board < length boards.now) parts.now }
    ensures { MatchOption result (All (IsFullPart C H G kind boards.now) parts.now)
        (λ place. IsSomeAnd (slice_get parts.now place) (IsFirstWithRoom C H G kind boards.now parts.now place)) }
{
    for (place, part) in parts.iter().enumerate() {
        if boards[part.board].free_slots(kind) > 0 {
            return Some(place);
        }
    }
    None
}
