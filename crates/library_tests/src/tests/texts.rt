//! The text of the greatest numbers, which no threads have counted, byte for byte. They were divided by powers of ten by hand.
use crate::asserts::{need, same, there};
use crate::made::{COUNTER, Family, scrape};
use expo_text::{Number, render, text_len};
use ledger_core::GaugeTotals;
use metric_desc::Kind;
use std::alloc::Global;
use std::process::Abort;

/// The text of this family is this front and this value, in memory of its length.
fn prints(rt: &impl Abort, alloc: Global, family: &Family<'_>, front: &[u8], value: &[u8]) {
    let scrape = there(rt, scrape(rt, alloc, &[*family]));
    let mut expected = Vec::new(alloc);
    for piece in [front, value, b"\n"] {
        need(rt, expected.extend_from_slice(piece));
    }
    let text = need(rt, render(&scrape));
    same(rt, text.as_slice(), expected.as_slice());
    same(rt, text.capacity(), expected.len());
    same(rt, text_len(&scrape), expected.len());
    same(rt, scrape.vector(), [3, 0].as_slice());
}

/// Digits, a number, and how it is shown.
static GREATEST: [(u8, u64, &[u8]); 3] = [
    (0, u64::MAX, b"18446744073709551615"),
    (6, u64::MAX, b"18446744073709.551615"),
    (9, u64::MAX, b"18446744073.709551615"),
];

/// A counter of so many digits shows this total so,
fn counts(rt: &impl Abort, alloc: Global, digits: u8, total: u64, value: &[u8]) {
    let family = Family {
        digits,
        children: &[(&[], Number::Counter(total))],
        ..COUNTER
    };
    prints(rt, alloc, &family, b"# TYPE a counter\na ", value);
}

/// and a gauge that is so far below zero.
fn falls(rt: &impl Abort, alloc: Global, digits: u8, down: u64, value: &[u8]) {
    let family = Family {
        kind: Kind::Gauge,
        digits,
        children: &[(&[], Number::Gauge(GaugeTotals { up: 0, down }))],
        ..COUNTER
    };
    prints(rt, alloc, &family, b"# TYPE a gauge\na -", value);
}

#[test]
fn the_greatest_numbers(rt: HostRuntime) {
    for (digits, number, value) in &GREATEST {
        counts(&rt, rt.alloc(), *digits, *number, value);
        falls(&rt, rt.alloc(), *digits, *number, value);
    }
}
