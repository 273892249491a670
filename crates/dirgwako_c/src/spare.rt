//! The recorders of a page that nobody has.
ghost use Rattle.std.specs.Prelude.{◌≡◌, ◌<◌, ◌≤◌, [], ◌∷◌, ◌++◌, length, vec_capacity, All, IfOk, IfErr, IsTrue, IsFalse};
ghost use Rattle.std.specs.Prelude.{OnOk, OnErr, MatchOption};
ghost use mathlib.Core.Option.{some};
ghost use lib.ListN.{get_elem?};

use crate::held::{HeldRecorder, Limits};
use crate::joining::join_all;
use page_crew::SharedRecorder;
use std::alloc::{AllocError, Global};

/// Recorders that nobody has, each in the box that a handle owns, so that handing one out takes no memory. There is room for one
/// of each worker.
#[derive(Drop)]
pub struct Spare<const N: usize, const C: usize, const H: usize, const G: usize> {
    recorders: Vec<Box<HeldRecorder<N, C, H, G>>>,
    ghost room: { N ≤ vec_capacity recorders },
    ghost few: { length recorders.items ≤ N },
    ghost low: { N ≤ 32 },
}

impl<const N: usize, const C: usize, const H: usize, const G: usize> Spare<N, C, H, G> {
    ghost use Rattle.dirgwako_c.specs.Registries.{recorders_in};
    ghost use Rattle.dirgwako_c.specs.Settling.{seats_on, Knows, HasStranger, HaveMet};

    /// Room for all recorders of a page, and none there.
    pub fn new(alloc: Global, _limits: &Limits<N, C, H, G>) -> Result<Spare<N, C, H, G>, AllocError>
        ensures empty { IfOk result (λ spare. recorders_in spare ≡ []) }
    {
        Ok(Spare {
            recorders: Vec::with_capacity(alloc, N)?,
        })
    }

    /// How many there are.
    pub fn len(&self) -> usize
        ensures count { result ≡ length (recorders_in self.now) }
        ensures few { result ≤ N }
    {
        self.recorders.len()
    }

    /// The one at this place.
    pub fn at(&self, place: usize) -> &HeldRecorder<N, C, H, G>
        requires { place < length (recorders_in self.now) }
        ensures { get_elem? (recorders_in self.now) place ≡ some result.now }
    {
        &self.recorders[place]
    }

    /// What the one at this place counts with on the board of this number.
    pub fn seat(&self, place: usize, board: usize) -> &SharedRecorder<N, C, H, G>
        requires place { place < length (recorders_in self.now) }
        requires known { All (Knows board) (recorders_in self.now) }
        ensures { get_elem? (seats_on board (recorders_in self.now)) place ≡ some result.now }
    {
        &self.at(place).recorder.recorders()[board]
    }

    /// Each takes its workers of boards that came; whether all know the board of this number then.
    pub fn join(&mut self, board: usize) -> bool
        ensures met { HaveMet (recorders_in self.old) (recorders_in self.new) }
        ensures all { IsTrue result → All (Knows board) (recorders_in self.new) }
        ensures stranger { IsFalse result → HasStranger board (recorders_in self.new) }
    {
        join_all(&mut self.recorders, board)
    }

    /// Takes the last one.
    pub fn take(&mut self) -> Option<Box<HeldRecorder<N, C, H, G>>>
        ensures { MatchOption result ((recorders_in self.old ≡ []) × (recorders_in self.new ≡ []))
            (λ recorder. recorders_in self.old ≡ recorders_in self.new ++ recorder.value ∷ []) }
    {
        self.recorders.pop()
    }

    /// Puts one behind the others; or hands it back where one of each worker is there, so that it is of another page.
    pub fn put(
        &mut self,
        recorder: Box<HeldRecorder<N, C, H, G>>,
    ) -> Result<(), Box<HeldRecorder<N, C, H, G>>>
        ensures taken { OnOk result ((recorders_in self.new ≡ recorders_in self.old ++ recorder.entry.value ∷ [])
            × (length (recorders_in self.old) < N)) }
        ensures back { IfErr result (λ back. back ≡ recorder.entry) }
        ensures full { OnErr result (N ≤ length (recorders_in self.old)) }
        ensures unchanged { OnErr result (recorders_in self.new ≡ recorders_in self.old) }
    {
        if self.recorders.len() >= N {
            return Err(recorder);
        }
        let Ok(()) = self.recorders.push(recorder) else {
            unreachable!()
        };
        Ok(())
    }
}
