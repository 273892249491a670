//! Ways: a gate, or none.
ghost use Rattle.std.specs.Prelude.{◌≡◌, Bool, true, false};

use crate::gate::Gate;

/// What stands between a thread of a pool and its jobs.
pub(crate) trait Way {
    // Whether it is always open, as clauses name it.
    ghost ALWAYS_OPEN: { Bool };

    /// Whether it is always open, for each worker.
    fn always_open() -> bool
        ensures { result ≡ ALWAYS_OPEN };

    /// Whether the worker at this place may do its next job.
    fn is_open(&self, worker: usize) -> bool
        ensures { ALWAYS_OPEN ≡ true → result ≡ true };

    /// The worker at this place has done a job.
    fn tell(&self, worker: usize);
}

/// No gate.
#[derive(Drop)]
pub(crate) struct Free;

impl Way for Free {
    ghost ALWAYS_OPEN = { true };

    fn always_open() -> bool {
        true
    }

    fn is_open(&self, _worker: usize) -> bool {
        true
    }

    fn tell(&self, _worker: usize) {}
}

/// A gate, which may stay shut.
#[derive(Drop)]
pub(crate) struct Gated<'a, P> {
    pub(crate) gate: &'a P,
}

impl<P: Gate> Way for Gated<'_, P> {
    ghost ALWAYS_OPEN = { false };

    fn always_open() -> bool {
        false
    }

    fn is_open(&self, worker: usize) -> bool {
        self.gate.open(worker)
    }

    fn tell(&self, worker: usize) {
        self.gate.done(worker);
    }
}
