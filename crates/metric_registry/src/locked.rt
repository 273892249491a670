//! What stands behind the lock.
ghost use Rattle.metric_registry.specs.Naming.{IsOf, BeginsWith};

use crate::naming::Named;
use registry_state::RegistryState;
use snapshot_scan::Scanner;
use std::marker::PhantomData;

/// What stands behind the lock: a registry of the board of this name, which began with what was registered first.
#[derive(Drop)]
pub(crate) struct Locked<
    'a,
    B: Named,
    const N: usize,
    const C: usize,
    const H: usize,
    const G: usize,
> {
    pub(crate) state: RegistryState<Scanner<'a, N, C, H, G>, N, C, H, G>,
    pub(crate) of: PhantomData<B>,
    ghost is_of: { IsOf B.board state },
    ghost begins: { BeginsWith B.first state.journal },
}
