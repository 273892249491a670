//! A tally: what joins, what is listed, and what is refused.
use crate::asserts::{need, same};
use crate::crew::ID;
use bucket_math::Bounds;
use ledger_core::{Counter, Gauge, Histogram, Op, Tally, TallyFault};
use std::process::Abort;

const MAX: u64 = 281_474_976_710_655;

/// A tally of three counters, a histogram and a gauge, with room for five operations.
type Five = Tally<3, 1, 1, 5>;

/// What a tally is told, of this slot.
#[derive(Clone, Copy)]
enum Told {
    Inc(usize, u64),
    Up(usize, u64),
    Down(usize, u64),
    Observe(usize, u64),
}

use Told::{Down, Inc, Observe, Up};

/// The registry of the handle, what it is told, and what it answers.
type Step = (u64, Told, Result<(), TallyFault>);

/// What it answers. The histogram has the bounds 10 and 20.
fn tell(rt: &impl Abort, tally: &mut Five, registry: u64, told: Told) -> Result<(), TallyFault> {
    let bounds = need(rt, Bounds::from_slice(&[10, 20]));
    match told {
        Inc(slot, by) => tally.inc(&Counter { registry, slot }, by),
        Up(slot, by) => tally.up(&Gauge { registry, slot }, by),
        Down(slot, by) => tally.down(&Gauge { registry, slot }, by),
        Observe(slot, value) => {
            let hist = Histogram {
                registry,
                slot,
                bounds,
            };
            tally.observe(&hist, value)
        }
    }
}

/// It is told all of these, one after the other.
fn tell_all(rt: &impl Abort, tally: &mut Five, steps: &[Step]) {
    for &(registry, told, answer) in steps {
        same(rt, tell(rt, tally, registry, told), answer);
    }
}

/// What fills it, what joins, and what is refused then: what would be one more, handles of another registry, slots outside the
/// row, and sums over 2^48 - 1, of a histogram's values too.
static TOLD: [Step; 17] = [
    (ID, Inc(1, 2), Ok(())),
    (ID, Inc(0, 3), Ok(())),
    (ID, Up(0, 1), Ok(())),
    (ID, Observe(0, 11), Ok(())),
    (ID, Inc(0, 4), Ok(())),
    (ID, Down(0, 5), Ok(())),
    (ID, Up(0, 1), Ok(())),
    (ID, Observe(0, 11), Err(TallyFault::Full)),
    (ID, Inc(2, 1), Err(TallyFault::Full)),
    (8, Observe(0, 11), Err(TallyFault::WrongRegistry)),
    (ID, Observe(1, 1), Err(TallyFault::Outside)),
    (ID, Inc(3, 1), Err(TallyFault::Outside)),
    (ID, Up(1, 1), Err(TallyFault::Outside)),
    (ID, Down(1, 1), Err(TallyFault::Outside)),
    (ID, Inc(0, MAX), Err(TallyFault::TooLarge)),
    (ID, Observe(0, MAX), Err(TallyFault::TooLarge)),
    (ID, Down(0, 2), Ok(())),
];

/// What is listed: one operation for each counter, for the raises of the gauge and for its falls, and for each value.
static LISTED: [Op; 5] = [
    Op::Inc { counter: 1, by: 2 },
    Op::Inc { counter: 0, by: 7 },
    Op::Up { gauge: 0, by: 2 },
    Op::Observe {
        hist: 0,
        place: 1,
        value: 11,
    },
    Op::Down { gauge: 0, by: 7 },
];

/// Emptied it takes all again, up to its limits.
static EMPTIED: [Step; 4] = [
    (ID, Inc(2, MAX), Ok(())),
    (ID, Observe(0, MAX), Ok(())),
    (ID, Inc(2, 1), Err(TallyFault::TooLarge)),
    (ID, Observe(0, 1), Err(TallyFault::TooLarge)),
];

#[test]
fn joins_and_refuses(rt: HostRuntime) {
    let rt = &rt;
    let mut tally = Five::new(ID);
    tell_all(rt, &mut tally, &TOLD);
    same(rt, tally.ops(), LISTED.as_slice());
    same(rt, tally.is_full(), true);
    tally.clear();
    tell_all(rt, &mut tally, &EMPTIED);
    same(rt, tally.ops().len(), 2);
    same(rt, TallyFault::Full.number(), 33);
}
