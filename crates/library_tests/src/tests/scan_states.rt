//! A scan as a machine without registers: what it asks for next.
ghost use Rattle.std.specs.Prelude.{◌≡◌, length, MatchOption};
ghost use Rattle.snapshot_core.specs.Told.{workers_of};

use crate::asserts::same;
use snapshot_core::{Next, ScanState};

// Each tells a read that the scan wants, and no other.

fn first(state: &mut ScanState, number: u64)
    ensures { workers_of state.new ≡ workers_of state.old }
{
    if let Next::First(_) = state.next() {
        state.first(number, true);
    }
}

fn second(state: &mut ScanState, number: u64)
    ensures { workers_of state.new ≡ workers_of state.old }
{
    if let Next::Second(_) = state.next() {
        state.second(number);
    }
}

fn asked(state: &mut ScanState, vector: Option<&[u64]>)
    requires { MatchOption vector (Unit {0}) (λ v. length v.now ≡ workers_of state.old) }
    ensures { workers_of state.new ≡ workers_of state.old }
{
    if let Next::Ask(_) = state.next() {
        state.asked(vector);
    }
}

// One worker, who publishes twice in each of two tries.
fn one_worker() -> ScanState
    ensures { workers_of result ≡ 1 }
{
    let mut state = ScanState::new(1);
    first(&mut state, 1);
    second(&mut state, 2);
    first(&mut state, 3);
    second(&mut state, 4);
    state
}

/// An asked worker lends. A vector below the floor is not lent: the scan tries once more, and gives up where nothing is lent
/// then.
#[test]
fn lent_and_given_up(rt: HostRuntime) {
    let rt = &rt;
    let mut lends = one_worker();
    asked(&mut lends, Some(&[1]));
    same(rt, lends.next(), Next::Lent(0));
    let mut state = one_worker();
    same(rt, state.next(), Next::Ask(0));
    asked(&mut state, Some(&[0]));
    same(rt, state.next(), Next::First(0));
    first(&mut state, 5);
    second(&mut state, 6);
    asked(&mut state, None);
    let gave_up = Next::GaveUp {
        worker: 0,
        first: 5,
        last: 6,
    };
    same(rt, state.next(), gave_up);
}
