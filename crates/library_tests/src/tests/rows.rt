//! A row: what a list of operations adds.
use crate::asserts::same;
use ledger_core::{GaugeTotals, HistTotals, Op, Row};
use std::process::Abort;

/// An increment by 1.
static ONE: [Op; 1] = [Op::Inc { counter: 0, by: 1 }];

/// Seven operations on a counter, a histogram and a gauge,
static SEVEN: [Op; 7] = [
    Op::Inc { counter: 0, by: 40 },
    Op::Observe {
        hist: 1,
        place: 0,
        value: 10,
    },
    Op::Observe {
        hist: 1,
        place: 1,
        value: 11,
    },
    Op::Observe {
        hist: 1,
        place: 2,
        value: 99,
    },
    Op::Up { gauge: 0, by: 5 },
    Op::Down { gauge: 0, by: 7 },
    Op::Inc { counter: 0, by: 2 },
];

/// and what the histogram has then.
static SEEN: HistTotals = HistTotals {
    buckets: [
        1, 1, 1, 0, 0, 0, 0, 0, 0, 0, 0, 0, 0, 0, 0, 0, 0, 0, 0, 0, 0, 0, 0, 0, 0,
    ],
    sum: 120,
    count: 3,
};

/// The words of a row of one counter, two histograms and a gauge, which has these.
fn has_words(rt: &impl Abort, row: &Row<1, 2, 1>) {
    let words = (row.word_at(0), row.word_at(28), row.word_at(31));
    same(rt, words, (42, 1, 0));
    same(rt, (row.word_at(53), row.word_at(54)), (120, 3));
    let words = (row.word_at(55), row.word_at(56), row.len());
    same(rt, words, (5, 7, 57));
}

/// What a list adds, by totals and word by word; and that a copy is apart.
#[test]
fn totals_and_words(rt: HostRuntime) {
    let rt = &rt;
    let mut row = Row::<1, 2, 1>::new();
    same(rt, row.try_apply(&SEVEN), Ok(()));
    let copy = row.copy();
    same(rt, row.try_apply(&ONE), Ok(()));
    same(rt, row.counter(0), 43);
    same(rt, copy.hist(1), SEEN);
    same(rt, copy.hist(0).count, 0);
    same(rt, copy.gauge(0), GaugeTotals { up: 5, down: 7 });
    has_words(rt, &copy);
}
