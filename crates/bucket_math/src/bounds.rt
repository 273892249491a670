ghost use Rattle.std.specs.Prelude.{◌≡◌, ℕ, ◌≤◌, ◌<◌, ◌↔◌, length, slice_index, IfOk, IfErr, IsTrue, MatchOption};
ghost use Rattle.bucket_math.specs.Bounds.{AreBounds, FirstBadBound, IsBadBound, place_of};
ghost use Rattle.bucket_math.specs.Buckets.{CumulationLaw};

use std::marker::Model;
use thiserror::Error;

/// The most bounds of a histogram.
pub const MAX_BOUNDS: usize = 24;

/// The greatest bound: 2^48 - 1.
pub const MAX_BOUND: u64 = 281_474_976_710_655;

/// Refusal 10: the bound at the place `at`, from 0, is the first that is not above the one before,
/// or is over 2^48 - 1, or is the 25th.
#[derive(Clone, Copy, Debug, PartialEq, Eq, Error)]
#[error("the bound at {at} is not above the one before, is over 2^48 - 1 or is the 25th")]
pub struct BadBounds {
    pub at: usize,
}

impl BadBounds {
    /// The refusal's number.
    pub fn number(&self) -> u8
        ensures { result ≡ 10 }
    {
        10
    }
}

/// The bounds of a histogram: at most 24, each above the one before and at most 2^48 - 1. Plain data.
///
/// Contracts see it as the list of its bounds.
#[repr(C)]
#[derive(Clone, Copy, Debug, PartialEq, Eq)]
pub struct Bounds {
    bounds: [u64; 24],
    len: usize,
}

impl Model for Bounds {
    ghost use Rattle.std.specs.Prelude.{ℕ, List, take};

    ghost Value = { List ℕ };

    ghost use Rattle.bucket_math.specs.Inside.{IsInside, fields_of, fields_of-view};

    ghost view = { λ b. take b.len b.bounds };

    ghost invariant = { λ b. IsInside b.bounds b.len };

    ghost inverse = { fields_of };

    ghost inverse_ok = { fields_of-view };
}

impl Bounds {
    /// Takes the bounds of a slice. Takes no memory.
    ///
    /// Refusal 10 [`BadBounds`], and no other.
    pub fn from_slice(bounds: &[u64]) -> Result<Bounds, BadBounds>
        ensures bounds { IfOk result (λ made. made ≡ bounds.now) }
        ensures rising { IfOk result AreBounds }
        ensures fault { IfErr result (λ fault. FirstBadBound bounds.now fault.at) }
    {
        if let Some(at) = first_bad(bounds) {
            return Err(BadBounds { at });
        }
        let len = bounds.len();
        let mut places = [0; MAX_BOUNDS];
        places[..len].copy_from_slice(bounds);
        Ok(Bounds {
            bounds: places,
            len,
        })
    }

    /// The bounds, in rising order.
    pub fn as_slice(&self) -> &[u64]
        ensures bounds { result.now ≡ self.now }
        ensures rising { AreBounds self.now }
    {
        &self.bounds[..self.len]
    }

    /// The place of a value's bucket: how many bounds are below the value.
    pub fn place(&self, value: u64) -> usize
        ensures place { result ≡ place_of self.now value }
        ensures within { result ≤ length self.now }
        ensures inclusive { (k : ℕ) → k < length self.now → (result ≤ k) ↔ (value ≤ slice_index self.now k) }
        ensures law { CumulationLaw self.now }
    {
        let bounds = self.as_slice();
        for place in 0..bounds.len() {
            if value <= bounds[place] {
                return place;
            }
        }
        bounds.len()
    }
}

// The place of the first bad bound.
fn first_bad(bounds: &[u64]) -> Option<usize>
    ensures { MatchOption result (AreBounds bounds.now) (FirstBadBound bounds.now) }
{
    for at in 0..bounds.len() {
        if is_bad(bounds, at) {
            return Some(at);
        }
    }
    None
}

// Whether the bound at this place is the 25th, too large or not above the one before.
fn is_bad(bounds: &[u64], at: usize) -> bool
    requires { at < length bounds.now }
    ensures { IsTrue result ↔ IsBadBound bounds.now at }
{
    at == MAX_BOUNDS || bounds[at] > MAX_BOUND || at > 0 && bounds[at] <= bounds[at - 1]
}
