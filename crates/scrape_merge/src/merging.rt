//! Scrapes are merged.
ghost use Rattle.std.specs.Prelude.{◌≡◌, ◌+◌, ◌≤◌, ◌++◌, length, flat_map, All, AllPairs};
ghost use Rattle.std.specs.Vec.{vec_capacity};
ghost use Rattle.std.specs.List.{AllZip};
ghost use Rattle.expo_text.specs.Scraped.{Scraped};
ghost use Rattle.expo_text.specs.Order.{IsFamily};
ghost use Rattle.scrape_merge.specs.Frames.{descs_of};
ghost use Rattle.scrape_merge.specs.Merged.{families_of, IsMergeable, IsMerged};
ghost use Rattle.scrape_merge.specs.Held.{IsNamedBefore, IsKnown, HasRoomFor, IsFed};

use crate::frames::{Frame, Frames};
use crate::putting::put_families;
use crate::showing::show_all;
use expo_text::Scrape;

/// Puts the vectors of these scrapes in a row behind a vector, and the children of each of their families behind those of the
/// family of its name. Takes no memory.
fn gather(vector: &mut Vec<u64>, frames: &mut [Frame], parts: Vec<Scrape>)
    requires numbers { length vector.old.items + length (flat_map (λ (part : Scraped). part.vector) parts.items)
        ≤ vec_capacity vector.old }
    requires ordered { AllPairs IsNamedBefore frames.old }
    requires known { All (IsKnown frames.old) (families_of parts.items) }
    requires room { All (HasRoomFor (families_of parts.items)) frames.old }
    ensures vector { vector.new.items ≡ vector.old.items ++ flat_map (λ (part : Scraped). part.vector) parts.items }
    ensures fed { AllZip (IsFed (families_of parts.items)) frames.old frames.new }
    ensures each { All IsFamily (families_of parts.items) }
{
    for part in parts {
        let (mut numbers, families) = part.into_parts();
        let Ok(()) = vector.append(&mut numbers) else {
            unreachable!();
        };
        put_families(frames, families);
    }
}

/// One scrape of what these show. Takes no memory.
///
/// The family of a name is found by binary search. Children are sorted anew only where those of one scrape do not all stand
/// before those of the next.
pub fn merge(frames: Frames, parts: Vec<Scrape>) -> Scrape
    requires { IsMergeable frames parts.items }
    ensures { IsMerged (descs_of frames.families) parts.items result }
{
    let Frames {
        mut vector,
        mut families,
        shown,
    } = frames;
    gather(&mut vector, &mut families, parts);
    Scrape::new(vector, show_all(families, shown))
}
