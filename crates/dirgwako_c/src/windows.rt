//! What C calls to set how many scrapes are kept.
ghost use Rattle.std.specs.Prelude.{◌≡◌};
ghost use Rattle.dirgwako_c.specs.Held.{Calls};
ghost use Rattle.dirgwako_c.specs.Registries.{owner_in, SparesStay, SetsWindow};

use crate::handles::RegistryHandle;
use dirgwako::PageCrew;
use std::alloc::Global;

/// Keeps `window` scrapes of each board from now on.
fn set_window<const N: usize, const C: usize, const H: usize, const G: usize>(
    owner: &mut PageCrew<N, C, H, G>,
    window: usize,
) -> u32
    ensures { SetsWindow window result owner.old owner.new }
{
    match owner.set_window(window) {
        Ok(()) => 0,
        Err(_) => 31,
    }
}

/// Keeps `window` scrapes of each board from now on, also of those that come. Where more were kept, the oldest ones are dropped.
///
/// Answers 34, the handle is empty; 31, unless `window` is 1 to 1,024. Nothing has changed then.
#[unsafe(no_mangle)]
pub extern "C" fn dirgwako_c_set_window(
    alloc: Global,
    registry: &mut RegistryHandle,
    window: usize,
) -> u32
    ensures { Calls (Unit {0}) (λ before after. SparesStay before after
        × SetsWindow window result (owner_in before) (owner_in after)) result registry.old.value registry.new.value }
{
    let Some(mut held) = registry.take(alloc) else {
        return 34;
    };
    let answer = set_window(&mut held.registrar.at.crew, window);
    registry.put(alloc, held);
    answer
}
