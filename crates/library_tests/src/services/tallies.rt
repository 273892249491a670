//! Tallies that recorders publish: no scrape sees what stands in one, and then all of it; and which are refused.
use super::naming::{counter, gauge};
use super::{Counts, Names, prints};
use crate::asserts::{need, same};
use crate::crew::ID;
use dirgwako::{ApplyFault, CountFault, OpFault, Registrar, Tally};
use std::process::Abort;
use std::sync::Wait;

/// The greatest number that a counter can hold.
const MOST: u64 = 281_474_976_710_655;

/// What a scrape prints before anything is published.
const NOTHING: &str = "# TYPE a counter\na 0\n# TYPE b gauge\nb 0\n# TYPE g gauge\ng 12\n";

/// What it prints behind three increments and a fall.
const THREE: &str = "# TYPE a counter\na 3\n# TYPE b gauge\nb -2\n# TYPE g gauge\ng 12\n";

/// A recorder publishes what a tally has in one version, and a scrape shows it from then on. A tally of another registry is not
/// published (16), nor what would be too large (12); it has then what it had.
pub(super) fn publishes(
    rt: &(impl Wait + Abort + AllocGlobal),
    registry: &Names<'_>,
    recorder: &mut Counts<'_>,
) {
    let mut metrics = Registrar::new(rt, registry);
    let (a, b) = (counter(rt, &mut metrics, "a"), gauge(rt, &mut metrics, "b"));
    let mut tally = recorder.tally::<8>();
    need(rt, tally.inc(&a, 1));
    need(rt, tally.inc(&a, 2));
    need(rt, tally.down(&b, 2));
    prints(rt, registry, NOTHING);
    same(rt, recorder.flush(&mut tally), Ok(()));
    same(rt, (recorder.number(), tally.ops().len()), (6, 0));
    prints(rt, registry, THREE);
    need(rt, tally.inc(&a, MOST));
    let large = CountFault::Apply(ApplyFault::Refused(OpFault::TooLarge { at: 0 }));
    same(rt, recorder.flush(&mut tally), Err(large));
    same(rt, (recorder.number(), tally.ops().len()), (6, 1));
    let mut other = Tally::<4, 2, 2, 8>::new(ID + 1);
    let refused = recorder.flush(&mut other);
    same(rt, refused, Err(CountFault::WrongRegistry));
}
