//! Registries are made.
ghost use Rattle.std.specs.Prelude.{◌≡◌, [], IfErr, IfOk, OnOk};
ghost use Rattle.register_rule.specs.Seats.{board_id};
ghost use Rattle.registry_state.specs.Faults.{IsWindow, IsNewFault};
ghost use Rattle.snapshot_scan.specs.Readers.{IsReaderOf};
ghost use Rattle.metric_registry.specs.Naming.{IsNamed, IsOf, BeginsWith};

use crate::locked::Locked;
use crate::naming::Named;
use crate::registry::RegistryOf;
use register_rule::Board;
use registry_state::{NewFault, RegistryState};
use snapshot_scan::{Reader, Scanner};
use std::alloc::Global;
use std::marker::PhantomData;
use std::sync::Mutex;

/// There is no registry. The reader is handed back.
#[derive(Drop)]
pub struct NotMade<const N: usize, const C: usize, const H: usize, const G: usize> {
    /// The reader, as it was.
    pub reader: Reader<N, C, H, G>,
    /// Why there is none.
    pub fault: NewFault,
}

impl<'a, B: Named, const N: usize, const C: usize, const H: usize, const G: usize> RegistryOf<
    'a,
    B,
    N,
    C,
    H,
    G,
> {
    ghost use Rattle.metric_registry.specs.Names.{id_of};

    /// A registry of this board, with an empty journal and without families, that scans with this reader, which has to be of this
    /// board, and keeps `window` scrapes. Its handles have the board's id. Where `B` names a board, it is this one.
    ///
    /// # Errors
    ///
    /// 31 [`NewFault::BadWindow`] unless `window` is 1 to 1,024; then 6 [`NewFault::NoMemory`]. The reader is handed back.
    pub fn new(
        alloc: Global,
        board: &'a Board<N, C, H, G>,
        reader: Reader<N, C, H, G>,
        window: usize,
    ) -> Result<RegistryOf<'a, B, N, C, H, G>, NotMade<N, C, H, G>>
        requires fresh { B.first ≡ [] }
        requires named { IsNamed B.board board.now }
        requires of_board { IsReaderOf board.now reader }
        ensures id { IfOk result (λ r. id_of r ≡ board_id board.now) }
        ensures window { OnOk result (IsWindow window) }
        ensures fault { IfErr result (λ e. IsNewFault window e.fault) }
        ensures back { IfErr result (λ e. e.reader ≡ reader.entry) }
    {
        match RegistryState::new(alloc, Scanner::new(board, reader), board.id(), window) {
            Ok(state) => Ok(RegistryOf {
                id: board.id(),
                state: Mutex::new(Locked {
                    state,
                    of: PhantomData,
                }),
            }),
            Err(not_made) => Err(NotMade {
                reader: not_made.source.into_reader(),
                fault: not_made.fault,
            }),
        }
    }

    /// A registry of what this state has, behind a lock. Where `B` names a board, the state is of that; and its journal begins
    /// with the changes that `B` names.
    pub fn lock(
        state: RegistryState<Scanner<'a, N, C, H, G>, N, C, H, G>,
    ) -> RegistryOf<'a, B, N, C, H, G>
        requires of { IsOf B.board state }
        requires begins { BeginsWith B.first state.journal }
        ensures id { id_of result ≡ state.entry.id }
    {
        RegistryOf {
            id: state.id(),
            state: Mutex::new(Locked {
                state,
                of: PhantomData,
            }),
        }
    }
}
