//! Entries: what a queue keeps of the jobs that wait.
ghost use Rattle.std.specs.Prelude.{◌≡◌};
ghost use Rattle.metrics_program.specs.QueuedJobs.{job_of};

use crate::jobs::op_for;
use registry_state::Handle;
use script_lines::Counting;
use worker_pool::Job;

/// A job that waits: the line that asked for it, and what it counts, `by`, in the child of this number. It has no handle in it,
/// so that it takes 32 bytes, where a [`Job`] takes 240.
#[derive(Clone, Copy)]
pub(crate) struct QueuedJob {
    pub(crate) line: u64,
    pub(crate) child: usize,
    pub(crate) by: u64,
    pub(crate) what: Counting,
}

const _: () = prove!(size_of::<QueuedJob>() == 32);

impl QueuedJob {
    /// The job that it makes of its child's handle, if there is such a child, of the kind that it counts.
    pub(crate) fn job(&self, children: &[Handle]) -> Option<Job>
        ensures { result ≡ job_of children.now self.now }
    {
        let handle = children.get(self.child)?;
        let what = op_for(handle, self.what, self.by)?;
        Some(Job {
            line: self.line,
            what,
        })
    }
}
