//! Whether families are those of a scrape.
ghost use Rattle.std.specs.Prelude.{◌≡◌, ◌↔◌, ℕ, List, length, sum, All, AllPairs, IsTrue};
ghost use Rattle.std.specs.Ordering.{nat_cmp};
ghost use Rattle.std.specs.Cmp.Lexicographic.{slice_cmp};
ghost use Rattle.metric_desc.specs.Desc.{Clash};
ghost use Rattle.expo_text.specs.Scraped.{Child, Family};
ghost use Rattle.expo_text.specs.Order.{IsBefore, IsChildBefore, IsFamily, IsNumberOf, IsScrape};

use crate::{ChildScrape, FamilyScrape, Number};
use ledger_core::HistTotals;
use metric_desc::{Desc, Kind, clashes};
use metric_names::LabelValue;
use std::cmp::Ordering;

/// The most families of a scrape.
const FAMILIES: usize = 128;

/// The most children of a family.
const CHILDREN: usize = 256;

/// Whether a text stands before another.
fn is_before(a: &str, b: &str) -> bool
    ensures { IsTrue result ↔ IsBefore a.now b.now }
{
    a.cmp(b).is_lt()
}

/// How label values stand to others: one by one, a beginning before what it begins.
fn compare(a: &[LabelValue], b: &[LabelValue]) -> Ordering
    ensures { result ≡ slice_cmp (slice_cmp nat_cmp) a.now b.now }
{
    for at in 0..a.len().min(b.len()) {
        let order = a[at].as_str().cmp(b[at].as_str());
        if order.is_ne() {
            return order;
        }
    }
    a.len().cmp(&b.len())
}

/// Whether a child stands before another.
fn is_child_before(a: &ChildScrape, b: &ChildScrape) -> bool
    ensures { IsTrue result ↔ IsChildBefore a.now b.now }
{
    compare(&a.values, &b.values).is_lt()
}

/// Whether children stand in strict order.
fn are_children_ordered(children: &[ChildScrape]) -> bool
    ensures { IsTrue result ↔ AllPairs IsChildBefore children.now }
{
    for at in 1..children.len() {
        if !is_child_before(&children[at - 1], &children[at]) {
            return false;
        }
    }
    true
}

/// Whether each of the children has as many values as the family has labels.
fn have_all_values(desc: &Desc, children: &[ChildScrape]) -> bool
    ensures { IsTrue result ↔ All (λ (child : Child). length child.values ≡ length desc.now.labels) children.now }
{
    for child in children {
        if child.values.len() != desc.labels().len() {
            return false;
        }
    }
    true
}

/// Whether the count of a histogram is the sum of its buckets. It takes them from the count, one by one, so that no sum wraps.
fn is_counted(totals: &HistTotals) -> bool
    ensures { IsTrue result ↔ (totals.now.count ≡ sum totals.now.buckets) }
{
    let mut rest = totals.count;
    for bucket in &totals.buckets {
        match rest.checked_sub(*bucket) {
            Some(less) => rest = less,
            None => return false,
        }
    }
    rest == 0
}

/// Whether a number is one of a family of this kind.
fn is_number_of(kind: Kind, number: &Number) -> bool
    ensures { IsTrue result ↔ IsNumberOf kind number.now }
{
    match number {
        Number::Counter(_) => matches!(kind, Kind::Counter),
        Number::Histogram(totals) => matches!(kind, Kind::Histogram) && is_counted(totals),
        Number::Gauge(_) => matches!(kind, Kind::Gauge),
    }
}

/// Whether each of the children has a number of the family's kind.
fn have_its_numbers(desc: &Desc, children: &[ChildScrape]) -> bool
    ensures { IsTrue result ↔ All (λ (child : Child). IsNumberOf desc.now.kind child.number) children.now }
{
    for child in children {
        if !is_number_of(desc.kind(), &child.number) {
            return false;
        }
    }
    true
}

/// Whether this is a family of a scrape.
fn is_family(family: &FamilyScrape) -> bool
    ensures { IsTrue result ↔ IsFamily family.now }
{
    family.children.len() <= CHILDREN
        && have_all_values(&family.desc, &family.children)
        && have_its_numbers(&family.desc, &family.children)
        && are_children_ordered(&family.children)
}

/// Whether each of these is a family of a scrape.
fn are_families(families: &[FamilyScrape]) -> bool
    ensures { IsTrue result ↔ All IsFamily families.now }
{
    for family in families {
        if !is_family(family) {
            return false;
        }
    }
    true
}

/// Whether the name of a family stands before that of another.
fn is_name_before(a: &FamilyScrape, b: &FamilyScrape) -> bool
    ensures { IsTrue result ↔ IsBefore a.now.desc.name b.now.desc.name }
{
    is_before(a.desc.name().as_str(), b.desc.name().as_str())
}

/// Whether families stand in strict order of their names.
fn are_names_ordered(families: &[FamilyScrape]) -> bool
    ensures { IsTrue result ↔ AllPairs (λ (a b : Family). IsBefore a.desc.name b.desc.name) families.now }
{
    for at in 1..families.len() {
        if !is_name_before(&families[at - 1], &families[at]) {
            return false;
        }
    }
    true
}

/// Whether no family's lines take a name that the lines of this one take.
fn are_apart_from(families: &[FamilyScrape], last: &FamilyScrape) -> bool
    ensures { IsTrue result ↔ All (λ (family : Family). ¬ (Clash family.desc last.now.desc)) families.now }
{
    for family in families {
        if clashes(&family.desc, &last.desc) {
            return false;
        }
    }
    true
}

/// Whether the lines of no two of the families take one name. Compares each pair of them.
fn are_apart(families: &[FamilyScrape]) -> bool
    ensures { IsTrue result ↔ AllPairs (λ (a b : Family). ¬ (Clash a.desc b.desc)) families.now }
{
    for at in 0..families.len() {
        if !are_apart_from(&families[..at], &families[at]) {
            return false;
        }
    }
    true
}

/// Whether these are the families of a scrape, which no vector changes.
pub(crate) fn is_scrape(families: &[FamilyScrape]) -> bool
    ensures { (vector : List ℕ) → IsTrue result ↔ IsScrape (record { vector = vector; families = families.now }) }
{
    if families.len() > FAMILIES {
        return false;
    }
    if !are_families(families) {
        return false;
    }
    if !are_names_ordered(families) {
        return false;
    }
    are_apart(families)
}
