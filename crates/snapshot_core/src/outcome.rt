// Whether a trace is what a list of events comes to.
ghost use Rattle.std.specs.Prelude.{◌≡◌, ◌↔◌, map, IsTrue, IfOk, IfErr};
ghost use Rattle.ledger_core.specs.Limits.{AreWorkers};
ghost use Rattle.ledger_core.specs.Limits.{AreSlots};
ghost use Rattle.snapshot_core.specs.Runs.{IsRunFault};
ghost use Rattle.snapshot_core.specs.Turns.{answered_of, published_of};
ghost use Rattle.snapshot_core.specs.Faithful.{IsOutcome};

use crate::event::Event;
use crate::run_fault::RunFault;
use crate::runs::run;
use crate::trace::{Answer, Publish, ScanEnd, Trace};
use ledger_core::Op;
use std::alloc::Global;

/// Whether the trace is what the events come to, by the definitions that [`run`] meets: one trace is. `n`, `C`, `H`, `G` and
/// the events are as `run` takes them.
///
/// It tries a trace from elsewhere: one that was written by hand, or that another program made. It runs the events and
/// compares.
///
/// # Errors
///
/// [`RunFault::Geometry`], 13, unless `n` is 1 to 32; then [`RunFault::NoMemory`], 6.
///
/// Source: Afek and others, "Atomic Snapshots of Shared Memory", J. ACM 40(4), 1993, section 3.
pub fn is_outcome<const C: usize, const H: usize, const G: usize>(
    alloc: Global,
    n: usize,
    events: &[Event],
    trace: &Trace,
) -> Result<bool, RunFault>
    requires { AreSlots C H G }
    ensures fault { IfErr result (IsRunFault n) }
    ensures workers { IfOk result (λ _. AreWorkers n) }
    ensures decided { IfOk result (λ b. IsTrue b ↔ IsOutcome n C H G events.now (map published_of trace.now.publishes.items)
        (map answered_of trace.now.answers.items)) }
{
    let came = run::<C, H, G>(alloc, n, events)?;
    Ok(same_trace(trace, &came))
}

// Whether both have the same publishes and the same answers.
fn same_trace(one: &Trace, two: &Trace) -> bool
    ensures { IsTrue result ↔ ((map published_of one.now.publishes.items ≡ map published_of two.now.publishes.items)
        × (map answered_of one.now.answers.items ≡ map answered_of two.now.answers.items)) }
{
    same_publishes(one.publishes.as_slice(), two.publishes.as_slice())
        && same_answers(one.answers.as_slice(), two.answers.as_slice())
}

// Whether these are the same operations, in one order.
fn same_ops(one: &[Op], two: &[Op]) -> bool
    ensures { IsTrue result ↔ (one.now ≡ two.now) }
{
    one == two
}

// Whether these are the same publish.
fn same_publish(one: &Publish, two: &Publish) -> bool
    ensures { IsTrue result ↔ (published_of one.now ≡ published_of two.now) }
{
    one.at == two.at && one.worker == two.worker && same_ops(one.ops.as_slice(), two.ops.as_slice())
}

// Whether these are the same publishes, in one order.
fn same_publishes(one: &[Publish], two: &[Publish]) -> bool
    ensures { IsTrue result ↔ (map published_of one.now ≡ map published_of two.now) }
{
    if one.len() != two.len() {
        return false;
    }
    for k in 0..one.len() {
        if !same_publish(&one[k], &two[k]) {
            return false;
        }
    }
    true
}

// Whether both are of one turn, in as many tries, and ended in one way.
fn same_turn(one: &Answer, two: &Answer) -> bool
    ensures { IsTrue result ↔ ((one.now.actor ≡ two.now.actor) × (one.now.begin ≡ two.now.begin) × (one.now.end ≡ two.now.end)
        × (one.now.tries ≡ two.now.tries) × (one.now.how ≡ two.now.how)) }
{
    one.actor == two.actor
        && one.begin == two.begin
        && one.end == two.end
        && one.tries == two.tries
        && one.how == two.how
}

// Whether these are the same answer. Where both gave up, both vectors and both totals are empty.
fn same_answer(one: &Answer, two: &Answer) -> bool
    ensures { IsTrue result ↔ (answered_of one.now ≡ answered_of two.now) }
{
    same_turn(one, two)
        && one.vector.as_slice() == two.vector.as_slice()
        && one.totals.as_slice() == two.totals.as_slice()
}

// Whether these are the same answers, in one order.
fn same_answers(one: &[Answer], two: &[Answer]) -> bool
    ensures { IsTrue result ↔ (map answered_of one.now ≡ map answered_of two.now) }
{
    if one.len() != two.len() {
        return false;
    }
    for k in 0..one.len() {
        if !same_answer(&one[k], &two[k]) {
            return false;
        }
    }
    true
}
