//! Recorders meet boards that came.
ghost use Rattle.std.specs.Prelude.{map, All, IsTrue, IsFalse};
ghost use Rattle.dirgwako_c.specs.Settling.{Knows, HasStranger, HaveMet};

use crate::held::HeldRecorder;

/// Each takes its workers of boards that came, up to the first that does not know the board of this number then; whether all do.
pub(crate) fn join_all<const N: usize, const C: usize, const H: usize, const G: usize>(
    recorders: &mut [Box<HeldRecorder<N, C, H, G>>],
    board: usize,
) -> bool
    ensures met { HaveMet (map (λ b. b.value) recorders.old) (map (λ b. b.value) recorders.new) }
    ensures all { IsTrue result → All (Knows board) (map (λ b. b.value) recorders.new) }
    ensures stranger { IsFalse result → HasStranger board (map (λ b. b.value) recorders.new) }
{
    for place in 0..recorders.len() {
        if recorders[place].recorder.join() <= board {
            return false;
        }
    }
    true
}
