//! What C calls about the boards of a page.
ghost use Rattle.std.specs.Prelude.{◌≡◌, ◌≢◌, ◌⊎◌, length, slice_get, All, IsSomeAnd};
ghost use Rattle.page_crew.specs.Opened.{IsNoBoard, no_board_number};
ghost use Rattle.page_crew.specs.Owned.{page_of, IsGrown, IsUnchanged};
ghost use Rattle.page_crew.specs.Told.{HasToldBoard};
ghost use Rattle.page_crew.specs.declared.fault.NoBoard.{NoBoard};
ghost use Rattle.dirgwako_c.specs.Held.{Calls};
ghost use Rattle.dirgwako_c.specs.Registries.{TellsNobody};
ghost use Rattle.dirgwako_c.specs.Boards.{AddsBoard, TellsBoards, TellsBoard};

use crate::handles::RegistryHandle;
use dirgwako::PageCrew;
use std::alloc::Global;

/// Makes a further board of a page, and tells its number.
fn add<const N: usize, const C: usize, const H: usize, const G: usize>(
    owner: &mut PageCrew<N, C, H, G>,
    number: &mut usize,
) -> u32
    ensures { ((result ≡ 0) × IsGrown owner.old owner.new × HasToldBoard owner.old owner.new × (number.new ≡ length (page_of
        owner.old).boards))
        ⊎ ((why : NoBoard) × (result ≡ no_board_number why)
        × IsNoBoard N C H G (length (page_of owner.old).boards) why
        × IsUnchanged owner.old owner.new × TellsNobody owner.old owner.new × (number.new ≡ number.old)) }
{
    match owner.add_board() {
        Ok(made) => {
            *number = made;
            0
        }
        Err(why) => u32::from(why.number()),
    }
}

/// Makes a further board behind the others, so that later calls have its memory already, and tells its number. Each recorder
/// meets it at its next call by a handle of it.
///
/// Answers 34, the handle is empty; 44, 96 boards are there; 6, out of memory. Nothing has changed then.
#[unsafe(no_mangle)]
pub extern "C" fn dirgwako_c_board_add(
    alloc: Global,
    registry: &mut RegistryHandle,
    number: &mut usize,
) -> u32
    ensures { Calls (number.new ≡ number.old) (λ before after. AddsBoard result before after number.old number.new) result
        registry.old.value registry.new.value }
{
    let Some(mut held) = registry.take(alloc) else {
        return 34;
    };
    let answer = add(&mut held.registrar.at.crew, number);
    registry.put(alloc, held);
    answer
}

/// How many boards there are: 1 to 96.
///
/// Answers 34, the handle is empty.
#[unsafe(no_mangle)]
pub extern "C" fn dirgwako_c_boards(
    alloc: Global,
    registry: &mut RegistryHandle,
    count: &mut usize,
) -> u32
    ensures { Calls (count.new ≡ count.old) (λ before after. TellsBoards result before after count.new) result
        registry.old.value registry.new.value }
{
    let Some(held) = registry.take(alloc) else {
        return 34;
    };
    *count = held.registrar.at.crew.page().boards().len();
    registry.put(alloc, held);
    0
}

/// The number of the board of this id, if it is of the page.
fn find<const N: usize, const C: usize, const H: usize, const G: usize>(
    owner: &PageCrew<N, C, H, G>,
    id: u64,
    number: &mut usize,
) -> u32
    ensures { ((result ≡ 0) × IsSomeAnd (slice_get (page_of owner.now).boards number.new) (λ board. board.id ≡ id))
        ⊎ ((result ≡ 16) × All (λ board. board.id ≢ id) (page_of owner.now).boards × (number.new ≡ number.old)) }
{
    let boards = owner.page().boards();
    for place in 0..boards.len() {
        if boards[place].id() == id {
            *number = place;
            return 0;
        }
    }
    16
}

/// The number of the board of this id, which a handle of it has as its `registry`.
///
/// Answers 34, the handle is empty; 16, no board of the registry has this id.
#[unsafe(no_mangle)]
pub extern "C" fn dirgwako_c_board_of(
    alloc: Global,
    registry: &mut RegistryHandle,
    id: u64,
    number: &mut usize,
) -> u32
    ensures { Calls (number.new ≡ number.old) (λ before after. TellsBoard id result before after number.old number.new) result
        registry.old.value registry.new.value }
{
    let Some(held) = registry.take(alloc) else {
        return 34;
    };
    let answer = find(&held.registrar.at.crew, id, number);
    registry.put(alloc, held);
    answer
}
