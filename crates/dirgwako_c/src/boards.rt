//! What C calls to have a page of boards, and what its threads count with.
ghost use Rattle.std.specs.Prelude.{◌≡◌, ◌≢◌, ◌⊎◌, ◌≤◌, [], ◌∷◌, ◌++◌, length, IfErr, OnOk, OnErr};
ghost use Rattle.page_crew.specs.Held.{first_of as first_board_of};
ghost use Rattle.page_crew.specs.Owned.{first_of};
ghost use Rattle.dirgwako_c.specs.Held.{Calls, Frees};
ghost use Rattle.dirgwako_c.specs.Registries.{grouped_in, owner_in, recorder_in, scrapers_in, spare_in, Opens, HandsOut};
ghost use Rattle.dirgwako_c.specs.Registries.{TakesBack};

use crate::handles::{RecorderHandle, RegistryHandle};
use crate::held::{HeldRecorder, HeldRegistry};
use crate::opening::open;
use std::alloc::Global;

/// A new registry of this id, over a page of one board, which keeps `window` scrapes of each board, with so many scrapers, into a
/// registry's handle. What the handle held is freed. Registries of one program have different ids: `dirgwako_registry_new` of the
/// header gives each its own. Its boards have the ids from 128 times its id on.
///
/// Answers 31, unless `window` is 1 to 1,024; then 6, out of memory, and 13, there would be over 3 scrapers, or the library was
/// built for numbers out of range.
#[unsafe(no_mangle)]
pub extern "C" fn dirgwako_c_registry_new_with(
    alloc: Global,
    registry: &mut RegistryHandle,
    id: u32,
    window: usize,
    scrapers: usize,
) -> u32
    ensures { Opens id window scrapers result registry.old.value registry.new.value }
{
    match open(alloc, id, window, scrapers) {
        Ok(made) => match Box::new(alloc, made) {
            Ok(made) => {
                registry.put(alloc, made);
                0
            }
            Err(_) => 6,
        },
        Err(number) => number,
    }
}

/// [`dirgwako_c_registry_new_with`] no scraper.
#[unsafe(no_mangle)]
pub extern "C" fn dirgwako_c_registry_new(
    alloc: Global,
    registry: &mut RegistryHandle,
    id: u32,
    window: usize,
) -> u32
    ensures { Opens id window 0 result registry.old.value registry.new.value }
{
    dirgwako_c_registry_new_with(alloc, registry, id, window, 0)
}

/// Frees a registry, and the recorders and scrapers that nobody has. The boards are freed with the last recorder of them.
///
/// Answers 34, the handle is empty.
#[unsafe(no_mangle)]
pub extern "C" fn dirgwako_c_registry_free(alloc: Global, registry: &mut RegistryHandle) -> u32
    ensures { Frees result registry.old.value registry.new.value }
{
    match registry.take(alloc) {
        Some(_) => 0,
        None => 34,
    }
}

/// A recorder that nobody has, into a recorder's handle. What that held is freed: its worker counts no more. Takes no memory.
///
/// Answers 34, the registry's handle is empty; 35, no recorder is left.
#[unsafe(no_mangle)]
pub extern "C" fn dirgwako_c_recorder_take(
    alloc: Global,
    registry: &mut RegistryHandle,
    recorder: &mut RecorderHandle,
) -> u32
    ensures { Calls (recorder.new.value ≡ recorder.old.value)
        (λ before after. HandsOut result before after recorder.old.value recorder.new.value) result
        registry.old.value registry.new.value }
{
    let Some(mut held) = registry.take(alloc) else {
        return 34;
    };
    let taken = held.spare.take();
    registry.put(alloc, held);
    match taken {
        Some(made) => {
            recorder.put(alloc, made);
            0
        }
        None => 35,
    }
}

/// Takes a recorder back, or hands it back in its box.
fn take_back<const N: usize, const C: usize, const H: usize, const G: usize>(
    registry: &mut HeldRegistry<N, C, H, G>,
    given: Box<HeldRecorder<N, C, H, G>>,
) -> Result<(), Box<HeldRecorder<N, C, H, G>>>
    ensures page { grouped_in registry.new ≡ grouped_in registry.old }
    ensures scrapers { scrapers_in registry.new ≡ scrapers_in registry.old }
    ensures taken { OnOk result ((first_board_of (recorder_in given.entry.value) ≡ first_of (owner_in registry.old))
        × (spare_in registry.new ≡ spare_in registry.old ++ given.entry.value ∷ [])) }
    ensures back { IfErr result (λ back. back ≡ given.entry) }
    ensures refused { OnErr result ((spare_in registry.new ≡ spare_in registry.old)
        × ((first_board_of (recorder_in given.entry.value) ≢ first_of (owner_in registry.old)) ⊎ (N ≤ length (spare_in
        registry.old)))) }
{
    if given.recorder.first() != registry.registrar.at.crew.first() {
        return Err(given);
    }
    registry.spare.put(given)
}

/// Gives a recorder back to its registry, which may hand it out again, to whichever thread. Its handle is empty then. Takes no
/// memory.
///
/// Answers 34, one of the handles is empty; 16, the recorder is of another registry. Nothing has changed then.
#[unsafe(no_mangle)]
pub extern "C" fn dirgwako_c_recorder_give_back(
    alloc: Global,
    registry: &mut RegistryHandle,
    recorder: &mut RecorderHandle,
) -> u32
    ensures { Calls (recorder.new.value ≡ recorder.old.value)
        (λ before after. TakesBack result before after recorder.old.value recorder.new.value) result
        registry.old.value registry.new.value }
{
    let Some(mut held) = registry.take(alloc) else {
        return 34;
    };
    let answer = match recorder.take(alloc) {
        Some(given) => match take_back(&mut held, given) {
            Ok(()) => 0,
            Err(back) => {
                recorder.put(alloc, back);
                16
            }
        },
        None => 34,
    };
    registry.put(alloc, held);
    answer
}

/// Frees a recorder. All that it counted stays in every scrape, and its worker counts no more.
///
/// Answers 34, the handle is empty.
#[unsafe(no_mangle)]
pub extern "C" fn dirgwako_c_recorder_free(alloc: Global, recorder: &mut RecorderHandle) -> u32
    ensures { Frees result recorder.old.value recorder.new.value }
{
    match recorder.take(alloc) {
        Some(_) => 0,
        None => 34,
    }
}
