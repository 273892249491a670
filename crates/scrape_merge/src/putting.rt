//! Children are put into the families of a merge.
ghost use Rattle.std.specs.Prelude.{◌≡◌, ◌+◌, ◌<◌, ◌≤◌, ◌++◌, ◌∷◌, [], IsTrue, true, false, length, map, All, AllPairs, Contains};
ghost use Rattle.std.specs.Ordering.{nat_cmp};
ghost use Rattle.std.specs.Vec.{vec_capacity};
ghost use Rattle.std.specs.List.{HoldsAt, AllZip};
ghost use Rattle.std.specs.Cmp.Lexicographic.{slice_cmp};
ghost use Rattle.expo_text.specs.Order.{IsChildBefore, IsFamily};
ghost use Rattle.scrape_merge.specs.Held.{name_of, IsNamedBefore, IsKnown, HasRoomFor, IsGrown, IsFed};

use crate::frames::Frame;
use expo_text::{ChildScrape, FamilyScrape};
use metric_names::LabelValue;
use std::cmp::Ordering;

/// How two lists of values stand to each other: one by one, in byte order.
pub(crate) fn compare(a: &[LabelValue], b: &[LabelValue]) -> Ordering
    ensures { result ≡ slice_cmp (slice_cmp nat_cmp) a.now b.now }
{
    let Some((x, xs)) = a.split_first() else {
        return if b.is_empty() {
            Ordering::Equal
        } else {
            Ordering::Less
        };
    };
    let Some((y, ys)) = b.split_first() else {
        return Ordering::Greater;
    };
    match x.as_str().cmp(y.as_str()) {
        Ordering::Equal => compare(xs, ys),
        other => other,
    }
}

/// Whether children in strict order stand before others in strict order: there are none of either, or the last stands before the
/// first.
fn stand_before(front: &[ChildScrape], back: &[ChildScrape]) -> bool
    ensures { IsTrue result → AllPairs IsChildBefore front.now → AllPairs IsChildBefore back.now
        → AllPairs IsChildBefore (front.now ++ back.now) }
{
    let Some(last) = front.last() else {
        return true;
    };
    let Some(first) = back.first() else {
        return true;
    };
    compare(&last.values, &first.values).is_lt()
}

/// Puts children, which stand in strict order, behind those of a family. Takes no memory.
fn put_children(frame: &mut Frame, children: Vec<ChildScrape>)
    requires one { frame.old.single ≡ true → frame.old.children.items ≡ [] }
    requires many { frame.old.single ≡ false
        → length frame.old.children.items + length children.items ≤ vec_capacity frame.old.children }
    requires ordered { AllPairs IsChildBefore children.items }
    ensures { IsGrown children.items frame.old frame.new }
{
    if frame.single {
        frame.children = children;
        return;
    }
    frame.ordered = frame.ordered && stand_before(&frame.children, &children);
    let mut more = children;
    let Ok(()) = frame.children.append(&mut more) else {
        unreachable!();
    };
}

impl Frame {
    /// How the family's name stands to this one.
    fn stands(&self, name: &str) -> Ordering
        ensures { result ≡ slice_cmp nat_cmp (name_of self.now) name.now }
    {
        self.desc.name().as_str().cmp(name)
    }
}

/// The place of the family of this name.
fn place_of(frames: &[Frame], name: &str) -> usize
    requires ordered { AllPairs IsNamedBefore frames.now }
    requires known { Contains (map name_of frames.now) name.now }
    ensures within { result < length frames.now }
    ensures named { HoldsAt (λ held. name_of held ≡ name.now) frames.now result }
{
    let Ok(place) = frames.binary_search_by(|frame| frame.stands(name)) else {
        unreachable!();
    };
    place
}

/// Puts the children of a family behind those of the family of its name. Takes no memory.
fn put_family(frames: &mut [Frame], family: FamilyScrape)
    requires ordered { AllPairs IsNamedBefore frames.old }
    requires known { IsKnown frames.old family }
    requires room { All (HasRoomFor (family ∷ [])) frames.old }
    requires children { AllPairs IsChildBefore family.children }
    ensures { AllZip (IsFed (family ∷ [])) frames.old frames.new }
{
    let place = place_of(frames, family.desc.name().as_str());
    put_children(&mut frames[place], family.children);
}

/// Puts the children of each of these families behind those of the family of its name. Takes no memory.
pub(crate) fn put_families(frames: &mut [Frame], families: Vec<FamilyScrape>)
    requires ordered { AllPairs IsNamedBefore frames.old }
    requires known { All (IsKnown frames.old) families.items }
    requires room { All (HasRoomFor families.items) frames.old }
    requires each { All IsFamily families.items }
    ensures { AllZip (IsFed families.items) frames.old frames.new }
{
    for family in families {
        put_family(frames, family);
    }
}
