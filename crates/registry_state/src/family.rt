//! Families and their children: their types, which family may be registered, where a child stands, and one put there.
ghost use Rattle.std.specs.Prelude.{◌≡◌, ◌≢◌, ◌↔◌, ◌<◌, length, slice_get, All, AllPairs, IsSomeAnd, IsTrue, MatchOption, OnOk};
ghost use Rattle.std.specs.Prelude.{OnErr, IfErr, IfOk, IsOk};
ghost use Rattle.std.specs.Ordering.{nat_cmp};
ghost use Rattle.std.specs.List.{HoldsAt};
ghost use Rattle.std.specs.Vec.{vec_len, vec_capacity};
ghost use Rattle.std.specs.Cmp.Lexicographic.{slice_cmp};
ghost use Rattle.registry_state.specs.Replay.{IsApart, put};
ghost use Rattle.registry_state.specs.Held.{IsChildBefore, IsPlaceOfValues};
ghost use Rattle.registry_state.specs.Faults.{IsFirstClash, IsRegisterFault};

use crate::fault::RegisterFault;
use crate::handle::Handle;
use metric_desc::{Desc, clashes};
use metric_names::{LabelValue, NoMemory};
use std::cmp::Ordering;
use std::marker::Model;
use std::sync::Arc;

/// A child: the values of its labels, which are shared, and the slot that counts for it.
#[derive(Drop)]
pub(crate) struct Child {
    pub(crate) values: Arc<Vec<LabelValue>>,
    pub(crate) slot: usize,
}

impl Model for Child {
    ghost use Rattle.std.specs.Arc.{arc_value};
    ghost use Rattle.registry_state.specs.Replay.{Child as ChildModel};

    ghost Value = { ChildModel };

    ghost view = { λ c. record { values = (arc_value c.values).items; slot = c.slot } };
}

/// A family: its descriptor, which is shared, and its children in the order of their values.
#[derive(Drop)]
pub(crate) struct Family {
    pub(crate) desc: Arc<Desc>,
    pub(crate) children: Vec<Child>,
}

impl Model for Family {
    ghost use Rattle.std.specs.Arc.{arc_value};
    ghost use Rattle.registry_state.specs.Replay.{Family as FamilyModel};

    ghost Value = { FamilyModel };

    ghost view = { λ f. record { desc = arc_value f.desc; children = f.children.items } };
}

/// The most families of a registry (`IsAcceptedChange`, `AreFamilies`).
const MAX_FAMILIES: usize = 128;

/// The least number of a family that clashes with a descriptor.
pub(crate) fn first_clash(families: &[Family], desc: &Desc) -> Option<usize>
    ensures { MatchOption result (IsApart families.now desc.now) (IsFirstClash families.now desc.now) }
{
    for (number, family) in families.iter().enumerate() {
        if clashes(&family.desc, desc) {
            return Some(number);
        }
    }
    None
}

/// Whether a family has this name.
fn is_named(family: &Family, name: &str) -> bool
    ensures { IsTrue result ↔ (family.now.desc.name ≡ name.now) }
{
    family.desc.name().as_str() == name
}

/// The number of the family of this name.
pub(crate) fn number_named(families: &[Family], name: &str) -> Option<usize>
    ensures { MatchOption result (All (λ family. family.desc.name ≢ name.now) families.now)
        (λ number. IsSomeAnd (slice_get families.now number) (λ family. family.desc.name ≡ name.now)) }
{
    for (place, family) in families.iter().enumerate() {
        if is_named(family, name) {
            return Some(place);
        }
    }
    None
}

/// Whether a family of this descriptor may be registered.
///
/// Refusals, in the order in which they are tried: 19 `Clash`, 23 `TooManyFamilies`.
pub(crate) fn may_register(families: &[Family], desc: &Desc) -> Result<(), RegisterFault>
    ensures ok { OnOk result ((length families.now < 128) × IsApart families.now desc.now) }
    ensures fault { IfErr result (IsRegisterFault families.now desc.now) }
{
    if let Some(with) = first_clash(families, desc) {
        return Err(RegisterFault::Clash { with });
    }
    if families.len() >= MAX_FAMILIES {
        return Err(RegisterFault::TooManyFamilies);
    }
    Ok(())
}

/// How two lists of values stand to each other: one by one, in byte order.
pub(crate) fn compare(a: &[LabelValue], b: &[LabelValue]) -> Ordering
    ensures { result ≡ slice_cmp (slice_cmp nat_cmp) a.now b.now }
{
    let Some((x, xs)) = a.split_first() else {
        return if b.is_empty() {
            Ordering::Equal
        } else {
            Ordering::Less
        };
    };
    let Some((y, ys)) = b.split_first() else {
        return Ordering::Greater;
    };
    match x.as_str().cmp(y.as_str()) {
        Ordering::Equal => compare(xs, ys),
        other => other,
    }
}

impl Child {
    /// How the child's values stand to these.
    fn stands(&self, values: &[LabelValue]) -> Ordering
        ensures { result ≡ slice_cmp (slice_cmp nat_cmp) self.now.values values.now }
    {
        compare(&self.values, values)
    }
}

/// The place of the child of these values, or else the place at which it would stand.
pub(crate) fn place_of(children: &[Child], values: &[LabelValue]) -> Result<usize, usize>
    requires ordered { AllPairs IsChildBefore children.now }
    ensures found { IfOk result (λ place. (place < length children.now)
        × HoldsAt (λ child. child.values ≡ values.now) children.now place) }
    ensures place { IfErr result (IsPlaceOfValues children.now values.now) }
    ensures new { OnErr result (All (λ child. child.values ≢ values.now) children.now) }
{
    children.binary_search_by(|child| child.stands(values))
}

impl Family {
    ghost use Rattle.std.specs.Prelude.{ℕ, Contains};
    ghost use Rattle.registry_state.specs.Calls.{IsHandle};

    /// The handle, in the registry of this id, of the child of these values, or else the place at which the child would stand.
    pub(crate) fn handle_of(&self, registry: u64, values: &[LabelValue]) -> Result<Handle, usize>
        requires { AllPairs IsChildBefore self.now.children }
        ensures found { IfOk result (λ handle. (slot : ℕ)
            × Contains self.now.children (record { values = values.now; slot = slot })
            × IsHandle registry self.now.desc slot handle) }
        ensures place { IfErr result (IsPlaceOfValues self.now.children values.now) }
        ensures new { OnErr result (All (λ child. child.values ≢ values.now) self.now.children) }
    {
        match place_of(&self.children, values) {
            Ok(place) => Ok(Handle::of(registry, &self.desc, self.children[place].slot)),
            Err(place) => Err(place),
        }
    }
}

/// Puts a child at the place that was found for its values.
///
/// Refusal 6 [`NoMemory`], where there is no room for one more, and then nothing has changed.
pub(crate) fn put_child(
    children: &mut Vec<Child>,
    place: usize,
    child: Child,
) -> Result<(), NoMemory>
    requires place { IsPlaceOfValues children.old.items child.values place }
    ensures put { OnOk result (children.new.items ≡ put child children.old.items) }
    ensures unchanged { OnErr result (children.new.items ≡ children.old.items) }
    ensures room { vec_len children.old < vec_capacity children.old → IsOk result }
{
    children.insert(place, child)?;
    Ok(())
}
