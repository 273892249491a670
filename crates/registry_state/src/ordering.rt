//! The order of the families by their names.
ghost use Rattle.std.specs.Prelude.{◌≡◌, ◌≢◌, ◌<◌, length, All};
ghost use Rattle.std.specs.Ordering.{nat_cmp, is_lt};
ghost use Rattle.std.specs.Cmp.Lexicographic.{slice_cmp};
ghost use Rattle.registry_state.specs.Held.{family_at, IsOrder, IsPlaceOfName};

use crate::family::Family;

/// Whether the name of the family of this number is before this one in byte order.
fn is_before(families: &[Family], number: usize, name: &str) -> bool
    requires { number < length families.now }
    ensures { result ≡ is_lt (slice_cmp nat_cmp (family_at families.now number).desc.name name.now) }
{
    let family = &families[number];
    family.desc.name().as_str().cmp(name).is_lt()
}

/// The place in the order of the families at which the number of a family of this name, which no family has, would stand.
pub(crate) fn place_of_name(families: &[Family], order: &[usize], name: &str) -> usize
    requires order { IsOrder families.now order.now }
    requires new { All (λ family. family.desc.name ≢ name.now) families.now }
    ensures { IsPlaceOfName families.now order.now name.now result }
{
    for place in 0..order.len() {
        if !is_before(families, order[place], name) {
            return place;
        }
    }
    order.len()
}
