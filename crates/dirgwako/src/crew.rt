//! A board and all who work on it.
ghost use Rattle.std.specs.Prelude.{◌≡◌, [], ◌∷◌, ◌++◌, map, length, replicate, IfOk, IfErr, OnOk, OnErr, All};
ghost use Rattle.std.specs.List.{range_with_len};
ghost use Rattle.register_rule.specs.Faults.{IsBoardSize, IsBoardFault};
ghost use Rattle.register_rule.specs.Seats.{board_id};
ghost use Rattle.metric_registry.specs.Names.{id_of};
ghost use Rattle.registry_state.specs.Faults.{IsWindow};
ghost use Rattle.snapshot_scan.specs.Order.{IsAlone};
ghost use Rattle.snapshot_scan.specs.Readers.{IsReaderOf};
ghost use Rattle.snapshot_scan.specs.Scanners.{reader_in};
ghost use Rattle.dirgwako.specs.Scanning.{ScansOn, IsFront};
ghost use Rattle.snapshot_update.specs.Workers.{index_of, lists_of, IsWorkerOf, AreFresh};
ghost use Rattle.std.proofs.Props.{props};

use crate::opened::OpenFault;
use crate::opening::{Taken, hand_out};
use crate::recorder::Recorder;
use metric_registry::Registry;
use register_rule::{Board, BoardFault};
use registry_state::{NewFault, RegistryState};
use snapshot_scan::{Reader, Scanner};
use snapshot_update::Worker;
use std::alloc::Global;
use std::mem::replace;

/// A new board with all who work on it. [`Crew::open`] hands them out.
pub struct Crew<const N: usize, const C: usize, const H: usize, const G: usize> {
    alloc: Global,
    board: Board<N, C, H, G>,
    workers: Vec<Worker<N, C, H, G>>,
    readers: Vec<Reader<N, C, H, G>>,
    ghost workers_own: { All (IsWorkerOf board) workers.items } by { Prim.hlevel props },
    ghost readers_own: { All (IsReaderOf board) readers.items } by { Prim.hlevel props },
}

impl<const N: usize, const C: usize, const H: usize, const G: usize> Drop for Crew<N, C, H, G> {
    fn drop(self) {
        let Crew {
            alloc: _,
            board: _,
            workers: _,
            readers: _,
        } = self;
    }
}

impl<const N: usize, const C: usize, const H: usize, const G: usize> Crew<N, C, H, G> {
    ghost use Rattle.dirgwako.specs.Crews.{board_of, workers_of, readers_of, recorders_in, scanners_in, IsOpenFault};
    ghost use Rattle.dirgwako.specs.Opening.{IsTaken, IsKept, IsNewOn};
    ghost use Rattle.dirgwako.specs.Recorders.{worker_in, IsOn};

    /// A new board of this id, on which nothing was counted, with its `N` workers and `readers` readers. All memory that counting
    /// and scanning need is taken here. Boards of one program have different ids: by them a handle of another board is told.
    ///
    /// # Errors
    ///
    /// 13 [`BoardFault::Geometry`], unless `N` is 1 to 32, `C` at most 256, `H` at most 32, `G` at most 64 and `readers` 1 to 4;
    /// then 6 [`BoardFault::NoMemory`].
    pub fn new(alloc: Global, id: u64, readers: usize) -> Result<Crew<N, C, H, G>, BoardFault>
        ensures id { IfOk result (λ c. board_id (board_of c) ≡ id) }
        ensures geometry { IfOk result (λ _. IsBoardSize N C H G readers) }
        ensures all { IfOk result (λ c. map index_of (workers_of c) ≡ range_with_len 0 N) }
        ensures new { IfOk result (λ c. map lists_of (workers_of c) ≡ replicate N []) }
        ensures alone { IfOk result (λ c. All IsAlone (readers_of c)) }
        ensures readers { IfOk result (λ c. length (readers_of c) ≡ readers) }
        ensures fresh { IfOk result (λ c. AreFresh readers (workers_of c) (readers_of c)) }
        ensures fault { IfErr result (IsBoardFault N C H G readers) }
    {
        let made = snapshot_update::Crew::new(alloc, id, readers)?;
        Ok(Crew {
            alloc,
            board: made.board,
            workers: made.workers,
            readers: made.readers,
        })
    }

    /// Takes out the workers, the readers but the last, and the last. Where that is refused nothing is taken.
    fn take(&mut self, window: usize) -> Result<Taken<N, C, H, G>, OpenFault>
        ensures taken { IfOk result (IsTaken window self.old self.new) }
        ensures kept { OnErr result (IsKept self.old self.new) }
        ensures fault { IfErr result (IsOpenFault self.old window) }
    {
        if self.readers.is_empty() {
            return Err(OpenFault::Opened);
        }
        if !(1..=1_024).contains(&window) {
            return Err(OpenFault::Registry(NewFault::BadWindow));
        }
        let Some(last) = self.readers.pop() else {
            return Err(OpenFault::Opened);
        };
        Ok(Taken {
            workers: replace(&mut self.workers, Vec::new(self.alloc)),
            readers: replace(&mut self.readers, Vec::new(self.alloc)),
            last,
        })
    }

    /// [`Crew::open`] with the registry as it is behind the lock: for a thread that shares it with nobody, so that the clauses of
    /// its calls ([`RegistryState`]) say all that they do; and for one that registers before it shares
    /// ([`metric_registry::RegistryOf::lock`]).
    ///
    /// # Errors
    ///
    /// Those of [`Crew::open`]: 32 [`OpenFault::Opened`]; 31 and 6, [`OpenFault::Registry`].
    pub fn open_state<'a>(
        &'a mut self,
        window: usize,
    ) -> Result<
        (
            RegistryState<Scanner<'a, N, C, H, G>, N, C, H, G>,
            Vec<Recorder<'a, N, C, H, G>>,
            Vec<Scanner<'a, N, C, H, G>>,
        ),
        OpenFault,
    >
        ensures registry { IfOk result (λ o. IsNewOn (board_of self.old) window o.0) }
        ensures boards { IfOk result (λ o. All (IsOn (board_of self.old)) (recorders_in o)) }
        ensures workers { IfOk result (λ o. map worker_in (recorders_in o) ≡ workers_of self.old) }
        ensures scanners { IfOk result (λ o. All (ScansOn (board_of self.old)) (scanners_in o)) }
        ensures readers { IfOk result (λ o. readers_of self.old ≡ map reader_in (scanners_in o) ++ reader_in o.0.source ∷ []) }
        ensures window { OnOk result (IsWindow window) }
        ensures fault { IfErr result (IsOpenFault self.old window) }
    {
        match self.take(window) {
            Ok(taken) => hand_out(self.alloc, &self.board, taken, window),
            Err(fault) => Err(fault),
        }
    }

    /// Hands all out: `let (registry, mut recorders, scanners) = crew.open(64)?`. The registry keeps `window` scrapes, and
    /// scrapes by the last reader. There is a recorder for each of the `N` workers, in order, one for each thread that counts,
    /// and a scanner for each other reader, in order, which scans the board for itself.
    ///
    /// # Errors
    ///
    /// 32 [`OpenFault::Opened`]; then [`OpenFault::Registry`]: 31 unless `window` is 1 to 1,024, after which the crew may be
    /// opened still, and 6, after which it is spent.
    pub fn open<'a>(
        &'a mut self,
        window: usize,
    ) -> Result<
        (
            Registry<'a, N, C, H, G>,
            Vec<Recorder<'a, N, C, H, G>>,
            Vec<Scanner<'a, N, C, H, G>>,
        ),
        OpenFault,
    >
        ensures id { IfOk result (λ o. id_of o.0 ≡ board_id (board_of self.old)) }
        ensures boards { IfOk result (λ o. All (IsOn (board_of self.old)) (recorders_in o)) }
        ensures workers { IfOk result (λ o. map worker_in (recorders_in o) ≡ workers_of self.old) }
        ensures scanners { IfOk result (λ o. All (ScansOn (board_of self.old)) (scanners_in o)) }
        ensures readers { IfOk result (λ o. IsFront (map reader_in (scanners_in o)) (readers_of self.old)) }
        ensures window { OnOk result (IsWindow window) }
        ensures fault { IfErr result (IsOpenFault self.old window) }
    {
        match self.open_state(window) {
            Ok((state, recorders, scanners)) => Ok((Registry::lock(state), recorders, scanners)),
            Err(fault) => Err(fault),
        }
    }
}
