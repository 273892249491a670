//! Children are found, whichever board they are on.
ghost use Rattle.std.specs.Prelude.{◌≡◌, ◌<◌, length, All, IfSome, MatchOption, ⊤};
ghost use Rattle.std.specs.List.{Any};
ghost use Rattle.registry_state.specs.Replay.{IsNew};
ghost use Rattle.registry_state.specs.Calls.{IsInside};
ghost use Rattle.scrape_page.specs.Places.{HasPart};
ghost use Rattle.scrape_page.specs.Calls.{IsFoundAt};

use crate::family::Part;
use metric_names::LabelValue;
use registry_state::{Handle, RegistryState};
use snapshot_scan::Source;

/// The handle of the child of these values of a family with these parts.
pub(crate) fn find_child<
    S: Source<N, C, H, G>,
    const N: usize,
    const C: usize,
    const H: usize,
    const G: usize,
>(boards: &[RegistryState<S, N, C, H, G>], parts: &[Part], values: &[LabelValue]) -> Option<Handle>
    requires { All (λ part. HasPart boards.now part (λ _ _. ⊤)) parts.now }
    ensures found { MatchOption result (All (λ part. HasPart boards.now part (λ _ family. IsNew family values.now)) parts.now)
        (λ handle. Any (IsFoundAt boards.now values.now handle) parts.now) }
    ensures inside { IfSome result (IsInside C H G) }
{
    for part in parts {
        if let Some(handle) = boards[part.board].find(part.family, values) {
            return Some(handle);
        }
    }
    None
}
