//! How many scrapes each board keeps.
ghost use Rattle.std.specs.Prelude.{◌≡◌, map};
ghost use Rattle.registry_state.specs.Faults.{IsWindow};
ghost use Rattle.scrape_page.specs.Windows.{with_window};

use registry_state::{BadWindow, RegistryState};
use snapshot_scan::Source;

/// Each of these keeps `window` scrapes from now on.
pub(crate) fn set_each<
    S: Source<N, C, H, G>,
    const N: usize,
    const C: usize,
    const H: usize,
    const G: usize,
>(boards: &mut [RegistryState<S, N, C, H, G>], window: usize)
    requires { IsWindow window }
    ensures { boards.new ≡ map (with_window window) boards.old }
{
    for at in 0..boards.len() {
        match boards[at].set_window(window) {
            Ok(_kept) => {}
            Err(BadWindow) => unreachable!(),
        }
    }
}
