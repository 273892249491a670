//! The greatest scrape: 128 families of 256 children. And a family whose names, texts and bounds are as long and as many as they
//! may be.
use crate::asserts::{need, same, there};
use crate::made::{COUNTER, Family, add_child, family_of, scrape};
use expo_text::{ChildScrape, FamilyScrape, Number, Scrape, render, text_len};
use ledger_core::HistTotals;
use metric_desc::Kind;
use std::alloc::Global;
use std::process::Abort;

/// 256 children, whose values have three digits.
fn counted(rt: &impl Abort, alloc: Global) -> Vec<ChildScrape> {
    let mut all = Vec::new(alloc);
    for place in 0..256u64 {
        let value = need(rt, format!(in alloc; "{place:03}"));
        let number = Number::Counter(place);
        add_child(rt, alloc, &mut all, &[value.as_str()], number);
    }
    all
}

/// A counter with a label.
static LABELLED: Family = Family {
    labels: &["l"],
    ..COUNTER
};

/// It with these children, named by this number of three digits.
fn numbered(rt: &impl Abort, alloc: Global, number: u64) -> FamilyScrape {
    let name = need(rt, format!(in alloc; "f{number:03}"));
    let written = Family {
        name: name.as_str(),
        ..LABELLED
    };
    family_of(rt, alloc, &written, counted(rt, alloc))
}

/// A scrape of so many families of 256 children.
pub(crate) fn sized(rt: &impl Abort, alloc: Global, families: u64) -> Scrape {
    let mut all = Vec::new(alloc);
    for number in 0..families {
        need(rt, all.push(numbered(rt, alloc, number)));
    }
    there(rt, Scrape::checked(Vec::new(alloc), all))
}

/// Each family has a line of 20 bytes, and 256 of 15 bytes and a value: the values 0 to 255 have 658 digits.
#[test]
fn most_families_and_children(rt: HostRuntime) {
    let rt = &rt;
    let scrape = sized(rt, rt.alloc(), 128);
    let text = need(rt, render(&scrape));
    same(rt, text.len(), 128 * (20 + 256 * 15 + 658));
    same(rt, text_len(&scrape), text.len());
    let front = b"# TYPE f000 counter\nf000{l=\"000\"} 0\nf000{l=\"001\"} 1\n";
    same(rt, text.starts_with(front), true);
    let end = b"f127{l=\"254\"} 254\nf127{l=\"255\"} 255\n";
    same(rt, text.ends_with(end), true);
}

/// Names of 128 bytes, apart from each other by their last byte.
static LONGEST_LABELS: [&str; 8] = [
    "label_Z9label_Z9label_Z9label_Z9label_Z9label_Z9label_Z9label_Z9label_Z9label_Z9label_Z9label_Z9label_Z9label_Z9label_Z9_label_0",
    "label_Z9label_Z9label_Z9label_Z9label_Z9label_Z9label_Z9label_Z9label_Z9label_Z9label_Z9label_Z9label_Z9label_Z9label_Z9_label_1",
    "label_Z9label_Z9label_Z9label_Z9label_Z9label_Z9label_Z9label_Z9label_Z9label_Z9label_Z9label_Z9label_Z9label_Z9label_Z9_label_2",
    "label_Z9label_Z9label_Z9label_Z9label_Z9label_Z9label_Z9label_Z9label_Z9label_Z9label_Z9label_Z9label_Z9label_Z9label_Z9_label_3",
    "label_Z9label_Z9label_Z9label_Z9label_Z9label_Z9label_Z9label_Z9label_Z9label_Z9label_Z9label_Z9label_Z9label_Z9label_Z9_label_4",
    "label_Z9label_Z9label_Z9label_Z9label_Z9label_Z9label_Z9label_Z9label_Z9label_Z9label_Z9label_Z9label_Z9label_Z9label_Z9_label_5",
    "label_Z9label_Z9label_Z9label_Z9label_Z9label_Z9label_Z9label_Z9label_Z9label_Z9label_Z9label_Z9label_Z9label_Z9label_Z9_label_6",
    "label_Z9label_Z9label_Z9label_Z9label_Z9label_Z9label_Z9label_Z9label_Z9label_Z9label_Z9label_Z9label_Z9label_Z9label_Z9_label_7",
];

/// The greatest bounds that a histogram may have, of which the last is 2^48 - 1.
static GREATEST_BOUNDS: [u64; 24] = [
    281_474_976_710_632,
    281_474_976_710_633,
    281_474_976_710_634,
    281_474_976_710_635,
    281_474_976_710_636,
    281_474_976_710_637,
    281_474_976_710_638,
    281_474_976_710_639,
    281_474_976_710_640,
    281_474_976_710_641,
    281_474_976_710_642,
    281_474_976_710_643,
    281_474_976_710_644,
    281_474_976_710_645,
    281_474_976_710_646,
    281_474_976_710_647,
    281_474_976_710_648,
    281_474_976_710_649,
    281_474_976_710_650,
    281_474_976_710_651,
    281_474_976_710_652,
    281_474_976_710_653,
    281_474_976_710_654,
    281_474_976_710_655,
];

/// A histogram of 24 bounds, with a name of 128 bytes, a help of 1,024 bytes and 8 values of 256 bytes, of which each byte is
/// escaped, and 2^43 values in each bucket. The help and the type stand in 2,331 bytes. Each of the 27 lines after them has the
/// names and the values of 8 labels, in 5,151 bytes.
#[test]
fn longest_family(rt: HostRuntime) {
    let rt = &rt;
    let alloc = rt.alloc();
    let totals = HistTotals {
        buckets: [8_796_093_022_208; 25],
        sum: 281_474_976_710_655,
        count: 219_902_325_555_200,
    };
    let name = need(rt, "metric:_".repeat(alloc, 16));
    let help = need(rt, "\\\n".repeat(alloc, 512));
    let value = need(rt, "\"\n\\\n".repeat(alloc, 64));
    let family = Family {
        kind: Kind::Histogram,
        name: name.as_str(),
        help: help.as_str(),
        labels: &LONGEST_LABELS,
        bounds: &GREATEST_BOUNDS,
        children: &[(&[value.as_str(); 8], Number::Histogram(totals))],
        ..COUNTER
    };
    let scrape = there(rt, scrape(rt, alloc, &[family]));
    let text = need(rt, render(&scrape));
    same(rt, (text.len(), text_len(&scrape)), (146_064, 146_064));
    same(rt, text.ends_with(b"\"} 219902325555200\n"), true);
}
