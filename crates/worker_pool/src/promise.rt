//! What a thread of a pool promises of its result.
ghost use Rattle.worker_pool.specs.Works.{IsWorkEnd};

use crate::fault::PoolFault;
use crate::job_lists::JobLists;
use register_rule::Board;
use snapshot_update::Worker;
use std::snapshot::Snapshot;
use std::thread::Promise;

/// That its result is how the work of this worker, at this place, on its list of these ended, behind a gate that is always open
/// or may shut.
#[derive(Drop)]
pub(crate) struct Does<'a, Q, const N: usize, const C: usize, const H: usize, const G: usize> {
    pub(crate) board: &'a Board<N, C, H, G>,
    pub(crate) place: usize,
    pub(crate) lists: &'a Q,
    pub(crate) always_open: bool,
    pub(crate) was: Snapshot<Worker<N, C, H, G>>,
}

impl<'a, Q: JobLists, const N: usize, const C: usize, const H: usize, const G: usize> Promise<
    Result<Worker<N, C, H, G>, PoolFault>,
> for Does<'a, Q, N, C, H, G> {
    ghost use Rattle.worker_pool.specs.Jobs.{jobs_at};
    ghost use Rattle.worker_pool.specs.Works.{IsWorkEnd};

    ghost kept_by = { λ p r. IsWorkEnd p.always_open p.board.now p.place (jobs_at (Q.lists p.lists.now) p.place) p.was.value r };
}
