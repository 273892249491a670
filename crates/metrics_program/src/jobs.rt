//! What the children's handles count, and lists that grow.
ghost use Rattle.std.specs.Prelude.{◌≡◌, ◌++◌, replicate, OnErr, OnOk};
ghost use Rattle.metrics_program.specs.Jobs.{job_for};

use metric_names::NoMemory;
use registry_state::Handle;
use script_lines::Counting;
use worker_pool::JobOp;

/// What counts `by` in a handle, if its kind is that.
pub(crate) fn op_for(handle: &Handle, what: Counting, by: u64) -> Option<JobOp>
    ensures { result ≡ job_for what by handle.now }
{
    match (what, handle) {
        (Counting::Inc, Handle::Counter(counter)) => Some(JobOp::Inc(*counter, by)),
        (Counting::Obs, Handle::Histogram(histogram)) => Some(JobOp::Observe(*histogram, by)),
        (Counting::Up, Handle::Gauge(gauge)) => Some(JobOp::Up(*gauge, by)),
        (Counting::Down, Handle::Gauge(gauge)) => Some(JobOp::Down(*gauge, by)),
        _ => None,
    }
}

/// Puts a value behind a list, so many times, or leaves the list as it was.
pub(crate) fn add_times<T: Copy>(list: &mut Vec<T>, value: &T, times: u64) -> Result<(), NoMemory>
    ensures added { OnOk result (list.new.items ≡ list.old.items ++ replicate times value.now) }
    ensures unchanged { OnErr result (list.new.items ≡ list.old.items) }
{
    let Ok(count) = usize::try_from(times) else {
        return Err(NoMemory);
    };
    list.reserve(count)?;
    for _turn in 0..count {
        // The room was made above.
        let _ = list.push(*value);
    }
    Ok(())
}
