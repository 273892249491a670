//! A registry at its end, with all workers.
ghost use Rattle.std.specs.Prelude.{◌≡◌, ℕ, ◌<◌, [], ◌∷◌, ◌++◌, All, IfErr, IfOk, IsSome, OnErr, OnOk};
ghost use Rattle.chain_law.specs.Settled.{AreMomentsOf, AreSame, HasIndex, IsMissing, IsSettled};
ghost use Rattle.snapshot_scan.specs.Readers.{IsReaderOf};
ghost use Rattle.snapshot_scan.specs.Scanners.{reader_in};
ghost use Rattle.snapshot_scan.specs.Snapshots.{as_answer};
ghost use Rattle.snapshot_update.specs.Workers.{IsWorkerOf};
ghost use Rattle.registry_state.specs.Journal.{scrapes};
ghost use Rattle.registry_state.specs.Replay.{Replays, State};
ghost use Rattle.metric_registry.specs.Naming.{IsNamed, BeginsWith};

use crate::naming::Named;
use crate::registry::RegistryOf;
use chain_law::{NotAll, missing, settle};
use register_rule::Board;
use registry_state::{Journal, RegistryState};
use snapshot_scan::{Scanner, Snapshot};
use snapshot_update::Worker;

/// There are no exact totals. The registry, or what stood behind its lock, is handed back.
#[derive(Drop)]
pub struct NotSettled<R> {
    /// What was to be settled, as it was.
    pub registry: R,
    /// Which worker is missing.
    pub fault: NotAll,
}

/// The journal of a registry without a lock, and exact totals of all that these workers have published, to which all workers of
/// the board are gathered: the registry scans this board, and these are workers of it.
///
/// After Ok all workers of the board are among these; the journal replays; its kept scrapes, and `out` after them, are moments of
/// the one history of what these workers published, in order; and each total of `out` is exactly the sum of all of it.
///
/// # Errors
///
/// 18 [`NotSettled`], with the least worker that is not among them. The registry is handed back, and nothing has changed.
pub fn settle_state<'a, const N: usize, const C: usize, const H: usize, const G: usize>(
    state: RegistryState<Scanner<'a, N, C, H, G>, N, C, H, G>,
    board: &Board<N, C, H, G>,
    workers: &mut [Worker<N, C, H, G>],
    out: &mut Snapshot<N, C, H, G>,
) -> Result<Journal<N, C, H, G>, NotSettled<RegistryState<Scanner<'a, N, C, H, G>, N, C, H, G>>>
    requires reader { IsReaderOf board.now (reader_in state.source) }
    requires of_board { All (IsWorkerOf board.now) workers.old }
    ensures of_board { All (IsWorkerOf board.now) workers.new }
    ensures same { AreSame workers.old workers.new }
    ensures journal { IfOk result (λ journal. journal ≡ state.entry.journal) }
    ensures replays { IfOk result (λ journal. (it : State) × Replays N C H G journal it) }
    ensures moments { IfOk result (λ journal. AreMomentsOf workers.old (scrapes journal ++ as_answer out.new ∷ [])) }
    ensures all { OnOk result ((i : ℕ) → i < N → HasIndex workers.old i) }
    ensures settled { OnOk result (IsSettled workers.old out.new) }
    ensures missing { IfErr result (λ e. IsMissing workers.old e.fault.missing) }
    ensures unchanged { OnErr result ((workers.new ≡ workers.old) × (out.new ≡ out.old)) }
    ensures back { IfErr result (λ e. e.registry ≡ state.entry) }
{
    if let Some(missing) = missing(workers) {
        return Err(NotSettled {
            registry: state,
            fault: NotAll { missing },
        });
    }
    let (source, journal) = state.into_parts();
    let mut reader = source.into_reader();
    let Ok(()) = settle(board, &mut reader, workers, out) else {
        unreachable!()
    };
    Ok(journal)
}

impl<'a, B: Named, const N: usize, const C: usize, const H: usize, const G: usize> RegistryOf<
    'a,
    B,
    N,
    C,
    H,
    G,
> {
    /// [`settle_state`] of what stands behind the lock, where `B` names this board.
    ///
    /// # Errors
    ///
    /// 18 [`NotSettled`], with the least worker that is not among them. The registry is handed back, and nothing has changed.
    pub fn settle(
        self,
        board: &Board<N, C, H, G>,
        workers: &mut [Worker<N, C, H, G>],
        out: &mut Snapshot<N, C, H, G>,
    ) -> Result<Journal<N, C, H, G>, NotSettled<RegistryOf<'a, B, N, C, H, G>>>
        requires some { IsSome B.board }
        requires named { IsNamed B.board board.now }
        requires of_board { All (IsWorkerOf board.now) workers.old }
        ensures of_board { All (IsWorkerOf board.now) workers.new }
        ensures same { AreSame workers.old workers.new }
        ensures replays { IfOk result (λ journal. (it : State) × Replays N C H G journal it) }
        ensures moments { IfOk result (λ journal. AreMomentsOf workers.old (scrapes journal ++ as_answer out.new ∷ [])) }
        ensures all { OnOk result ((i : ℕ) → i < N → HasIndex workers.old i) }
        ensures begins { IfOk result (λ journal. BeginsWith B.first journal) }
        ensures settled { OnOk result (IsSettled workers.old out.new) }
        ensures missing { IfErr result (λ e. IsMissing workers.old e.fault.missing) }
        ensures unchanged { OnErr result ((workers.new ≡ workers.old) × (out.new ≡ out.old)) }
        ensures back { IfErr result (λ e. e.registry ≡ self.entry) }
    {
        if let Some(least) = missing(workers) {
            return Err(NotSettled {
                registry: self,
                fault: NotAll { missing: least },
            });
        }
        let Ok(journal) = settle_state(self.into_state(), board, workers, out) else {
            unreachable!()
        };
        Ok(journal)
    }
}
