//! The families of a merge are shown.
ghost use Rattle.std.specs.Prelude.{◌≡◌, ◌≤◌, ◌≢◌, [], All, AllPairs};
ghost use Rattle.std.specs.Vec.{vec_len, vec_capacity};
ghost use Rattle.std.specs.List.{AllZip};
ghost use Rattle.std.specs.List.Sorted.{IsPermutation};
ghost use Rattle.expo_text.specs.Scraped.{Child};
ghost use Rattle.expo_text.specs.Order.{IsChildBefore};
ghost use Rattle.scrape_merge.specs.Held.{IsShowable, IsShown};

use crate::frames::Frame;
use crate::putting::compare;
use expo_text::{ChildScrape, FamilyScrape};

/// Sorts children, no two of which have the same values. Takes no memory.
fn sort(children: &mut Vec<ChildScrape>)
    requires { AllPairs (λ (a b : Child). a.values ≢ b.values) children.old.items }
    ensures same { IsPermutation children.old.items children.new.items }
    ensures ordered { AllPairs IsChildBefore children.new.items }
{
    children.sort_unstable_by(|a, b| compare(&a.values, &b.values));
}

/// A family as it is shown, its children in strict order. Takes no memory.
fn show(frame: Frame) -> FamilyScrape
    requires { IsShowable frame }
    ensures { IsShown frame result }
{
    let Frame {
        desc,
        mut children,
        single: _,
        ordered,
    } = frame;
    if !ordered {
        sort(&mut children);
    }
    FamilyScrape { desc, children }
}

/// Each family as it is shown, in memory for so many. Takes no more of it.
pub(crate) fn show_all(frames: Vec<Frame>, shown: Vec<FamilyScrape>) -> Vec<FamilyScrape>
    requires each { All IsShowable frames.items }
    requires none { shown.items ≡ [] }
    requires room { vec_len frames ≤ vec_capacity shown }
    ensures { AllZip IsShown frames.items result.items }
{
    let mut shown = shown;
    for frame in frames {
        let Ok(()) = shown.push(show(frame)) else {
            unreachable!();
        };
    }
    shown
}
