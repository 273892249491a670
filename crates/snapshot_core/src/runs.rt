// Running a list of events.
ghost use Rattle.std.specs.Prelude.{map, IfOk, IfErr};
ghost use Rattle.ledger_core.specs.Limits.{AreWorkers};
ghost use Rattle.ledger_core.specs.Limits.{AreSlots};
ghost use Rattle.snapshot_core.specs.Runs.{IsRunFault};
ghost use Rattle.snapshot_core.specs.Turns.{answered_of, published_of};
ghost use Rattle.snapshot_core.specs.Faithful.{IsFaithful, AreOneStep, AreFew, UndisturbedIsDirect, WholeReadsAnswer};

use crate::event::Event;
use crate::machine::run_machine;
use crate::run_fault::RunFault;
use crate::trace::Trace;
use ledger_core::MAX_WORKERS;
use std::alloc::Global;

/// Runs the events on `n` workers and four readers over plain segments, whose rows have `C` counters, at most 256, `H`
/// histograms, at most 32, and `G` gauges, at most 64, and are zeros at first: the algorithm of Afek and others, J. ACM
/// 40(4), 1993, section 3.
///
/// The trace is faithful to the events. Each answer that is not given up is all segments at one event of its turn; a scan
/// makes at most n + 2 tries; one that makes 2n whole reads while nobody publishes is direct in its first try; and where
/// no event is torn, no scan is given up, and every update publishes a view. No other trace is all of this.
///
/// # Errors
///
/// [`RunFault::Geometry`], 13, unless `n` is 1 to 32; then [`RunFault::NoMemory`], 6.
pub fn run<const C: usize, const H: usize, const G: usize>(
    alloc: Global,
    n: usize,
    events: &[Event],
) -> Result<Trace, RunFault>
    requires { AreSlots C H G }
    ensures fault { IfErr result (IsRunFault n) }
    ensures workers { IfOk result (λ _. AreWorkers n) }
    ensures faithful { IfOk result
        (λ t. IsFaithful n C H G events.now (map published_of t.publishes.items) (map answered_of t.answers.items)) }
    ensures one_step { IfOk result
        (λ t. AreOneStep n C H G (map published_of t.publishes.items) (map answered_of t.answers.items)) }
    ensures few { IfOk result (λ t. AreFew n (map answered_of t.answers.items)) }
    ensures direct { IfOk result (λ t. UndisturbedIsDirect n C H G events.now (map published_of t.publishes.items)
        (map answered_of t.answers.items)) }
    ensures whole { IfOk result
        (λ t. WholeReadsAnswer events.now n (map published_of t.publishes.items) (map answered_of t.answers.items)) }
{
    if n < 1 || n > MAX_WORKERS {
        return Err(RunFault::Geometry);
    }
    let machine = run_machine::<C, H, G>(alloc, n, events)?;
    Ok(Trace {
        publishes: machine.publishes,
        answers: machine.answers,
    })
}
