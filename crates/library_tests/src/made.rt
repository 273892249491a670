//! Scrapes, made of plain texts.
use crate::asserts::need;
use expo_text::{ChildScrape, FamilyScrape, Number, Scrape};
use metric_desc::{Desc, Kind};
use metric_names::{HelpText, LabelName, LabelValue, MetricName};
use std::alloc::Global;
use std::process::Abort;
use std::sync::Arc;

/// A family as a test writes it. Only a histogram's bounds count.
#[derive(Clone, Copy)]
pub struct Family<'a> {
    pub kind: Kind,
    pub name: &'a str,
    pub help: &'a str,
    pub labels: &'a [&'a str],
    pub bounds: &'a [u64],
    pub digits: u8,
    pub children: &'a [(&'a [&'a str], Number)],
}

/// A counter without help and labels.
pub const COUNTER: Family = Family {
    kind: Kind::Counter,
    name: "a",
    help: "",
    labels: &[],
    bounds: &[],
    digits: 0,
    children: &[(&[], Number::Counter(0))],
};

/// It alone.
pub static ALONE: [Family; 1] = [COUNTER];

/// These label names.
fn labels(rt: &impl Abort, alloc: Global, texts: &[&str]) -> Vec<LabelName> {
    let mut labels = Vec::new(alloc);
    for text in texts {
        let label = need(rt, LabelName::read(alloc, text));
        need(rt, labels.push(label));
    }
    labels
}

/// The descriptor of a family.
pub fn desc(rt: &impl Abort, alloc: Global, family: &Family<'_>) -> Desc {
    let labels = labels(rt, alloc, family.labels);
    let name = need(rt, MetricName::read(alloc, family.name));
    let help = need(rt, HelpText::read(alloc, family.help));
    let made = match family.kind {
        Kind::Counter => need(rt, Desc::counter(name, help, labels)),
        Kind::Gauge => need(rt, Desc::gauge(name, help, labels)),
        Kind::Histogram => need(rt, Desc::histogram(name, help, labels, family.bounds)),
    };
    need(rt, made.with_digits(family.digits))
}

/// These label values.
fn values(rt: &impl Abort, alloc: Global, texts: &[&str]) -> Arc<Vec<LabelValue>> {
    let mut values = Vec::new(alloc);
    for text in texts {
        let value = need(rt, LabelValue::read(alloc, text));
        need(rt, values.push(value));
    }
    need(rt, Arc::new(alloc, values))
}

/// These children.
fn children(rt: &impl Abort, alloc: Global, written: &[(&[&str], Number)]) -> Vec<ChildScrape> {
    let mut children = Vec::new(alloc);
    for (texts, number) in written {
        add_child(rt, alloc, &mut children, texts, *number);
    }
    children
}

/// Adds a child with these values.
pub fn add_child(
    rt: &impl Abort,
    alloc: Global,
    all: &mut Vec<ChildScrape>,
    texts: &[&str],
    number: Number,
) {
    let values = values(rt, alloc, texts);
    need(rt, all.push(ChildScrape { values, number }));
}

/// A family with these children.
pub fn family_of(
    rt: &impl Abort,
    alloc: Global,
    written: &Family<'_>,
    children: Vec<ChildScrape>,
) -> FamilyScrape {
    let desc = need(rt, Arc::new(alloc, desc(rt, alloc, written)));
    FamilyScrape { desc, children }
}

/// These families.
fn families(rt: &impl Abort, alloc: Global, written: &[Family<'_>]) -> Vec<FamilyScrape> {
    let mut families = Vec::new(alloc);
    for it in written {
        let children = children(rt, alloc, it.children);
        need(rt, families.push(family_of(rt, alloc, it, children)));
    }
    families
}

/// A scrape of these families, if they are those of a scrape. Two workers have published 3 times and never.
pub fn scrape(rt: &impl Abort, alloc: Global, written: &[Family<'_>]) -> Option<Scrape> {
    let vector = need(rt, Vec::from_array(alloc, [3, 0]));
    Scrape::checked(vector, families(rt, alloc, written))
}
