//! A handle that C holds, of what it holds.
ghost use Rattle.std.specs.Prelude.{◌≡◌, ◌≢◌, IsNone, IsSome, MatchOption, Some};
ghost use Rattle.std.specs.declared.option.Option.{Option};
ghost use Rattle.dirgwako_c.specs.Held.{holds};

use crate::loose::Loose;
use std::alloc::Global;
use std::marker::Model;

/// Two words: zeros, or the box that they own.
pub struct Handle<T> {
    pub(crate) at: *mut T,
    pub(crate) live: u64,
    pub ghost value: { Option T },
    ghost empty: { live ≡ 0 → IsNone value },
    ghost full: { live ≢ 0 → IsSome value },
}

impl<T> Model for Handle<T> {
    ghost also_owns = { λ h. holds T.row h.at h.value };
}

impl<T: Drop> Handle<T> {
    /// One that holds nothing.
    pub(crate) fn empty() -> Handle<T>
        ensures { IsNone result.value }
    {
        Handle {
            at: std::ptr::null_mut(),
            live: 0,
        }
    }

    fn of_loose(from: Loose<T, Global>) -> Handle<T>
        ensures { result.value ≡ Some from.value }
    {
        let Loose { at, alloc: _ } = from;
        Handle { at, live: 1 }
    }

    /// One that takes over a box.
    pub(crate) fn full(b: Box<T>) -> Handle<T>
        ensures { result.value ≡ Some b.value }
    {
        Handle::of_loose(Loose::of(b))
    }

    // Whether it is full, and the handle again.
    fn with_live(self) -> (u64, Handle<T>)
        ensures { (result.0 ≡ self.live) × (result.1 ≡ self) }
    {
        let Handle { at, live } = self;
        (live, Handle { at, live })
    }

    fn into_loose(self, alloc: Global) -> Loose<T, Global>
        requires { IsSome self.value }
        ensures { self.value ≡ Some result.value }
    {
        let Handle { at, live: _ } = self;
        Loose { at, alloc }
    }

    /// Gives the box back, if it holds one.
    pub(crate) fn into_option(self, alloc: Global) -> Option<Box<T>>
        ensures { MatchOption result (IsNone self.value) (λ b. self.value ≡ Some b.value) }
    {
        let (live, handle) = self.with_live();
        if live == 0 {
            let Handle { at: _, live: _ } = handle;
            return None;
        }
        Some(handle.into_loose(alloc).into_box())
    }
}
