//! A page's recorders are given their workers of a board, each by a ring of its own.
ghost use Rattle.std.specs.Prelude.{◌≡◌, ◌+◌, ◌<◌, length, All, IfOk};
ghost use Rattle.rtrb.specs.Ring.{known_free};
ghost use Rattle.page_crew.specs.Rings.{AreGiven, AreOpen};

use crate::page_recorder::PageRecorder;
use crate::shared_recorder::SharedRecorder;
use rtrb::{Producer, RingBuffer};
use std::alloc::{AllocError, Global};

/// The most boards of a page.
const MOST: usize = 96;

/// A ring for each recorder, and the recorders.
pub(crate) struct Open<const N: usize, const C: usize, const H: usize, const G: usize> {
    pub(crate) rings: Vec<Producer<SharedRecorder<N, C, H, G>>>,
    pub(crate) recorders: Vec<PageRecorder<N, C, H, G>>,
}

/// `N` recorders of a page whose first board has this id, and a ring to each, with room for all boards that a page can have.
pub(crate) fn open_rings<const N: usize, const C: usize, const H: usize, const G: usize>(
    alloc: Global,
    first: u64,
) -> Result<Open<N, C, H, G>, AllocError>
    requires { first + 96 < 18446744073709551616 }
    ensures { IfOk result (λ made. AreOpen first made.rings.items made.recorders.items) }
{
    let mut rings = Vec::with_capacity(alloc, N)?;
    let mut recorders = Vec::with_capacity(alloc, N)?;
    for _seat in 0..N {
        let (ring, more) = RingBuffer::new(alloc, MOST)?;
        rings.push(ring)?;
        recorders.push(PageRecorder::new(alloc, first, more)?)?;
    }
    Ok(Open { rings, recorders })
}

/// Gives each ring the next of these.
pub(crate) fn give<T: Drop>(rings: &mut [Producer<T>], items: Vec<T>)
    requires many { length items.items ≡ length rings.old }
    requires room { All (λ p. 0 < known_free p) rings.old }
    ensures { AreGiven rings.old rings.new items.items }
{
    let mut place = 0;
    for it in items {
        rings[place].push_reserved(it);
        place += 1;
    }
}
