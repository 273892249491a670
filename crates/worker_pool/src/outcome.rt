//! What the results of the threads of a pool come to.
ghost use Rattle.std.specs.Prelude.{◌≡◌, ◌≤◌, map, length, Ok, IfOk, IfErr, vec_len, vec_capacity};
ghost use Rattle.worker_pool.specs.Faults.{IsLeast, IsEarlier};
ghost use Rattle.worker_pool.specs.Ends.{Occurred};

use crate::fault::PoolFault;
use snapshot_update::Worker;

/// Which one is told: the fault that is known, if there is one, or another, of a worker after its own.
fn earlier(known: Option<PoolFault>, other: PoolFault) -> PoolFault
    ensures { IsEarlier known other result }
{
    match known {
        Some(known) => known.first(other),
        None => other,
    }
}

/// The workers in their order, if all of them had a thread and were handed back. Else the fault that is told, over the results of
/// those that had a thread, which are the first ones: a refused job before a shut gate, and that before want of a thread for the
/// next worker; of two of one kind that of the lesser line or worker, and of two refusals of one line that of the lesser worker.
pub(crate) fn outcome<const N: usize, const C: usize, const H: usize, const G: usize>(
    ends: Vec<Result<Worker<N, C, H, G>, PoolFault>>,
    workers: usize,
    mut done: Vec<Worker<N, C, H, G>>,
) -> Result<Vec<Worker<N, C, H, G>>, PoolFault>
    requires room { (vec_len done ≡ 0) × (vec_len ends ≤ vec_capacity done) }
    ensures all { IfOk result (λ v. (ends.entry.items ≡ map Ok v.items) × (workers ≤ length ends.entry.items)) }
    ensures told { IfErr result (IsLeast (Occurred workers ends.entry.items)) }
{
    let begun = ends.len();
    let mut told = None;
    for end in ends {
        match end {
            Ok(worker) => {
                let Ok(()) = done.push(worker) else {
                    unreachable!()
                };
            }
            Err(fault) => told = Some(earlier(told, fault)),
        }
    }
    if begun < workers {
        return Err(earlier(told, PoolFault::NoThread { worker: begun }));
    }
    match told {
        None => Ok(done),
        Some(fault) => Err(fault),
    }
}
