//! What is taken out of a crew, and what is handed out for it.
ghost use Rattle.std.specs.Prelude.{◌≡◌, map, IfOk, IfErr, All};
ghost use Rattle.snapshot_scan.specs.Readers.{IsReaderOf};
ghost use Rattle.snapshot_scan.specs.Scanners.{reader_in};
ghost use Rattle.dirgwako.specs.Opening.{AreOf, IsHandedOut, IsNotHandedOut};
ghost use Rattle.dirgwako.specs.Scanning.{ScansOn};

use crate::opened::OpenFault;
use crate::recorder::Recorder;
use register_rule::Board;
use registry_state::{NewFault, RegistryState};
use snapshot_scan::{Reader, Scanner};
use snapshot_update::Worker;
use std::alloc::{AllocError, Global};

/// What is taken out of a crew: its workers, its readers but the last, and the last.
pub(crate) struct Taken<const N: usize, const C: usize, const H: usize, const G: usize> {
    pub(crate) workers: Vec<Worker<N, C, H, G>>,
    pub(crate) readers: Vec<Reader<N, C, H, G>>,
    pub(crate) last: Reader<N, C, H, G>,
}

/// Hands out all that was taken of a crew of this board: the registry first, then the recorders, then the scanners.
pub(crate) fn hand_out<'a, const N: usize, const C: usize, const H: usize, const G: usize>(
    alloc: Global,
    board: &'a Board<N, C, H, G>,
    taken: Taken<N, C, H, G>,
    window: usize,
) -> Result<
    (
        RegistryState<Scanner<'a, N, C, H, G>, N, C, H, G>,
        Vec<Recorder<'a, N, C, H, G>>,
        Vec<Scanner<'a, N, C, H, G>>,
    ),
    OpenFault,
>
    requires { AreOf board.now taken }
    ensures made { IfOk result (IsHandedOut board.now taken.entry window) }
    ensures fault { IfErr result (IsNotHandedOut window) }
{
    let Taken {
        workers,
        readers,
        last,
    } = taken;
    let state = match RegistryState::new(alloc, Scanner::new(board, last), board.id(), window) {
        Ok(state) => state,
        Err(no) => return Err(OpenFault::Registry(no.fault)),
    };
    let Ok(recorders) = Recorder::all(alloc, board, workers) else {
        return Err(OpenFault::Registry(NewFault::NoMemory));
    };
    match all_scanners(alloc, board, readers) {
        Ok(scanners) => Ok((state, recorders, scanners)),
        Err(_) => Err(OpenFault::Registry(NewFault::NoMemory)),
    }
}

/// The scanners of these readers of a board, in order.
fn all_scanners<'a, const N: usize, const C: usize, const H: usize, const G: usize>(
    alloc: Global,
    board: &'a Board<N, C, H, G>,
    readers: Vec<Reader<N, C, H, G>>,
) -> Result<Vec<Scanner<'a, N, C, H, G>>, AllocError>
    requires { All (IsReaderOf board.now) readers.items }
    ensures boards { IfOk result (λ v. All (ScansOn board.now) v.items) }
    ensures readers { IfOk result (λ v. map reader_in v.items ≡ readers.entry.items) }
{
    let mut scanners = Vec::with_capacity(alloc, readers.len())?;
    for reader in readers {
        scanners.push(Scanner::new(board, reader))?;
    }
    Ok(scanners)
}
