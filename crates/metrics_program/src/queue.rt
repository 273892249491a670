//! What waits for `go`.
ghost use Rattle.std.specs.Prelude.{◌≡◌, [], length, All, IfOk};
ghost use Rattle.metrics_program.specs.QueuedJobs.{ListFits};

use crate::jobs::add_times;
use crate::queued_job::QueuedJob;
use metric_names::NoMemory;
use registry_state::Handle;
use std::alloc::Global;
use worker_pool::{Job, JobLists};

/// How many workers there are.
const WORKERS: usize = 4;

/// The handles of a script's children, by their numbers, and what waits for `go`: a list of entries for each worker, each of
/// which makes a job of its child's handle.
#[derive(Drop)]
pub(crate) struct Queue {
    pub(crate) children: Vec<Handle>,
    pub(crate) lists: Vec<Vec<QueuedJob>>,
    ghost fit: { All (ListFits children.items) lists.items },
}

/// An empty list for each worker.
fn no_lists(alloc: Global) -> Result<Vec<Vec<QueuedJob>>, NoMemory>
    ensures all { IfOk result (λ v. length v.items ≡ 4) }
    ensures none { IfOk result (λ v. All (λ list. list.items ≡ []) v.items) }
{
    let mut lists = Vec::with_capacity(alloc, WORKERS)?;
    for _worker in 0..WORKERS {
        lists.push(Vec::new(alloc))?;
    }
    Ok(lists)
}

/// Drops the entries of all lists, and keeps the lists' room.
fn drop_entries(lists: &mut [Vec<QueuedJob>])
    ensures all { length lists.new ≡ length lists.old }
    ensures none { All (λ list. list.items ≡ []) lists.new }
{
    for list in lists.iter_mut() {
        list.clear();
    }
}

impl Queue {
    ghost use Rattle.std.specs.Prelude.{◌<◌, ◌∷◌, ◌++◌, replicate, OnErr, OnOk, vec_capacity, vec_len};
    ghost use Rattle.worker_pool.specs.declared.job.Job.{Job};
    ghost use Rattle.metrics_program.specs.QueuedJobs.{job_of, Fits};
    ghost use Rattle.metrics_program.specs.Jobs.{with_jobs};
    ghost use Rattle.metrics_program.specs.Waiting.{lists_in};

    /// No children, and no jobs of any worker.
    pub(crate) fn new(alloc: Global) -> Result<Queue, NoMemory>
        ensures children { IfOk result (λ queue. queue.children.items ≡ []) }
        ensures lists { IfOk result (λ queue. lists_in queue ≡ replicate 4 []) }
    {
        let lists = no_lists(alloc)?;
        Ok(Queue {
            children: Vec::new(alloc),
            lists,
        })
    }

    /// Makes room for one more child.
    pub(crate) fn reserve_child(&mut self) -> Result<(), NoMemory>
        ensures room { OnOk result (vec_len self.new.children < vec_capacity self.new.children) }
        ensures children { self.new.children.items ≡ self.old.children.items }
        ensures lists { lists_in self.new ≡ lists_in self.old }
    {
        self.children.reserve(1)?;
        Ok(())
    }

    /// Gives a child the next number.
    pub(crate) fn add_child(&mut self, handle: Handle)
        requires room { vec_len self.old.children < vec_capacity self.old.children }
        ensures children { self.new.children.items ≡ self.old.children.items ++ handle ∷ [] }
        ensures lists { lists_in self.new ≡ lists_in self.old }
    {
        let Ok(()) = self.children.push(handle) else {
            unreachable!()
        };
    }

    /// Puts an entry behind a worker's list, so many times, or leaves all as it was.
    pub(crate) fn add(
        &mut self,
        worker: usize,
        entry: &QueuedJob,
        times: u64,
    ) -> Result<(), NoMemory>
        requires worker { worker < length (lists_in self.old) }
        requires fits { Fits self.old.children.items entry.now }
        ensures children { self.new.children.items ≡ self.old.children.items }
        ensures added { OnOk result ((job : Job) → job_of self.old.children.items entry.now ≡ Some job
            → lists_in self.new ≡ with_jobs worker job times (lists_in self.old)) }
        ensures unchanged { OnErr result (lists_in self.new ≡ lists_in self.old) }
    {
        match add_times(&mut self.lists[worker], entry, times) {
            Ok(()) => Ok(()),
            Err(NoMemory) => Err(NoMemory),
        }
    }

    /// Drops all jobs, and keeps the lists' room.
    pub(crate) fn clear(&mut self)
        ensures children { self.new.children.items ≡ self.old.children.items }
        ensures none { lists_in self.new ≡ replicate (length (lists_in self.old)) [] }
    {
        drop_entries(&mut self.lists);
    }
}

impl JobLists for Queue {
    ghost use Rattle.metrics_program.specs.Waiting.{lists_in};

    ghost lists = { lists_in };

    fn count(&self, worker: usize) -> usize {
        self.lists[worker].len()
    }

    fn job(&self, worker: usize, place: usize) -> Job {
        let Some(job) = self.lists[worker][place].job(&self.children) else {
            unreachable!()
        };
        job
    }
}
