//! Gates: what the threads of a pool wait for before each job.
ghost use Rattle.std.specs.Prelude.{◌≡◌, true};

/// What the threads of a pool ask before each job, and tell after it. A worker is named by its place in the pool's list, from 0.
pub trait Gate {
    /// Whether the worker at this place may do its next job.
    fn open(&self, worker: usize) -> bool;

    /// The worker at this place has done a job.
    fn done(&self, worker: usize);
}

/// A gate that is always open.
#[derive(Clone, Copy, Debug)]
pub struct Open;

impl Gate for Open {
    /// It is.
    fn open(&self, _worker: usize) -> bool
        ensures { result ≡ true }
    {
        true
    }

    fn done(&self, _worker: usize) {}
}
