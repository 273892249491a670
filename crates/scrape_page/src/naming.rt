//! Names of the families of a page.
ghost use Rattle.std.specs.Prelude.{◌≡◌, ◌≢◌, ◌↔◌, ◌<◌, length, map, slice_get, All, IfErr, IsSomeAnd, IsTrue, MatchOption, OnOk};
ghost use Rattle.std.specs.Ordering.{nat_cmp, is_lt};
ghost use Rattle.std.specs.Cmp.Lexicographic.{slice_cmp};
ghost use Rattle.registry_state.specs.Held.{family_at, IsOrder, IsPlaceOfName};
ghost use Rattle.scrape_page.specs.Families.{as_family};
ghost use Rattle.scrape_page.specs.Faults.{AreApart, IsFirstClash, IsPageFamilyFault};

use crate::family::PageFamily;
use crate::fault::PageFamilyFault;
use metric_desc::{Desc, clashes};

/// The most families of a page (`IsPage`).
const MAX_FAMILIES: usize = 128;

/// The least number of a family that clashes with a descriptor.
fn first_clash(families: &[PageFamily], desc: &Desc) -> Option<usize>
    ensures { MatchOption result (AreApart families.now desc.now) (IsFirstClash families.now desc.now) }
{
    for (number, family) in families.iter().enumerate() {
        if clashes(&family.desc, desc) {
            return Some(number);
        }
    }
    None
}

/// Whether a family of this descriptor may be registered.
///
/// Refusals, in the order in which they are tried: 19 `Clash`, 23 `TooManyFamilies`.
pub(crate) fn may_register(families: &[PageFamily], desc: &Desc) -> Result<(), PageFamilyFault>
    ensures ok { OnOk result (AreApart families.now desc.now × (length families.now < 128)) }
    ensures fault { IfErr result (IsPageFamilyFault families.now desc.now) }
{
    if let Some(with) = first_clash(families, desc) {
        return Err(PageFamilyFault::Clash { with });
    }
    if families.len() >= MAX_FAMILIES {
        return Err(PageFamilyFault::TooManyFamilies);
    }
    Ok(())
}

/// Whether a family has this name.
fn is_named(family: &PageFamily, name: &str) -> bool
    ensures { IsTrue result ↔ (family.now.desc.name ≡ name.now) }
{
    family.desc.name().as_str() == name
}

/// The number of the family of this name.
pub(crate) fn number_named(families: &[PageFamily], name: &str) -> Option<usize>
    ensures { MatchOption result (All (λ family. family.desc.name ≢ name.now) families.now)
        (λ number. IsSomeAnd (slice_get families.now number) (λ family. family.desc.name ≡ name.now)) }
{
    for (number, family) in families.iter().enumerate() {
        if is_named(family, name) {
            return Some(number);
        }
    }
    None
}

/// Whether the name of the family of this number is before this one in byte order.
fn is_before(families: &[PageFamily], number: usize, name: &str) -> bool
    requires { number < length families.now }
    ensures { result ≡ is_lt (slice_cmp nat_cmp (family_at (map as_family families.now) number).desc.name name.now) }
{
    let family = &families[number];
    family.desc.name().as_str().cmp(name).is_lt()
}

/// The place in the order of the families at which the number of a family of this name, which no family has, would stand.
pub(crate) fn place_of_name(families: &[PageFamily], order: &[usize], name: &str) -> usize
    requires order { IsOrder (map as_family families.now) order.now }
    requires new { All (λ family. family.desc.name ≢ name.now) families.now }
    ensures { IsPlaceOfName (map as_family families.now) order.now name.now result }
{
    for place in 0..order.len() {
        if !is_before(families, order[place], name) {
            return place;
        }
    }
    order.len()
}
