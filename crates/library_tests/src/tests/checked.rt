//! Families that are not those of a scrape.
use crate::asserts::same;
use crate::made::{COUNTER, Family, scrape};
use expo_text::Number;
use ledger_core::HistTotals;
use metric_desc::Kind;

/// A family behind `a`.
const B: Family = Family {
    name: "b",
    ..COUNTER
};

/// A histogram without children,
const HISTOGRAM: Family = Family {
    kind: Kind::Histogram,
    name: "h",
    children: &[],
    ..COUNTER
};

/// a counter of the name of one of its samples,
const H_COUNT: Family = Family {
    name: "h_count",
    ..COUNTER
};

/// and what it counted, without a bucket.
const UNCOUNTED: HistTotals = HistTotals {
    buckets: [0; 25],
    sum: 0,
    count: 1,
};

/// The number of a child.
const ONE: Number = Number::Counter(1);

/// Families out of order, or whose lines take one name; children out of order, or with a value for no label; numbers of another
/// kind, or a histogram's whose count is not the sum of its buckets.
static REFUSED: [&[Family]; 6] = [
    &[B, COUNTER],
    &[HISTOGRAM, H_COUNT],
    &[Family {
        labels: &["l", "m"],
        children: &[(&["x", "z"], ONE), (&["x", "y"], ONE)],
        ..COUNTER
    }],
    &[Family {
        children: &[(&["x"], ONE)],
        ..COUNTER
    }],
    &[Family {
        kind: Kind::Gauge,
        children: &[(&[], ONE)],
        ..COUNTER
    }],
    &[Family {
        children: &[(&[], Number::Histogram(UNCOUNTED))],
        ..HISTOGRAM
    }],
];

#[test]
fn no_scrape(rt: HostRuntime) {
    for (place, families) in REFUSED.iter().enumerate() {
        let taken = scrape(&rt, rt.alloc(), families).is_some();
        same(&rt, (place, taken), (place, false));
    }
}
