//! Lists of jobs, one for each worker of a pool.
ghost use Rattle.std.specs.Prelude.{◌≡◌, ◌<◌, List, length, Some, slice_get};
ghost use Rattle.worker_pool.specs.declared.job.Job.{Job};
ghost use Rattle.worker_pool.specs.Jobs.{jobs_at, lists_in};

use crate::job::Job;

/// A list of jobs for each worker of a pool, by the worker's place, from 0. It gives one job at a time, so it may keep less than
/// a [`Job`] of each, and make the job when a worker asks for it. The workers' threads ask it at the same time.
pub trait JobLists {
    // The lists, as clauses name them.
    ghost lists: { Self → List (List Job) };

    /// How many jobs the worker at this place has.
    fn count(&self, worker: usize) -> usize
        requires { worker < length (lists self.now) }
        ensures { result ≡ length (jobs_at (lists self.now) worker) };

    /// The job at this place of a worker's list.
    fn job(&self, worker: usize, place: usize) -> Job
        requires worker { worker < length (lists self.now) }
        requires place { place < length (jobs_at (lists self.now) worker) }
        ensures { slice_get (jobs_at (lists self.now) worker) place ≡ Some result };
}

impl JobLists for &[Vec<Job>] {
    ghost lists = { λ slice. lists_in slice.now };

    fn count(&self, worker: usize) -> usize {
        self[worker].len()
    }

    fn job(&self, worker: usize, place: usize) -> Job {
        self[worker][place]
    }
}
