ghost use Rattle.std.specs.Prelude.{◌≡◌, ◌<◌, ◌≤◌, ◌++◌, [], true, false, length, take, decimal};

use crate::filling::{digits, fill, fill_number};
use std::marker::Model;

/// How many bytes go out together at most.
pub(crate) const PIECE: usize = 16_384;

/// Bytes that wait to go out together, at most 16,384. Plain data.
///
/// Contracts see it as the list of these bytes.
#[derive(Drop)]
pub(crate) struct Piece {
    places: [u8; PIECE],
    filled: usize,
}

impl Model for Piece {
    ghost use Rattle.std.specs.Prelude.{ℕ, ◌≤◌, List, take};

    ghost Value = { List ℕ };

    ghost view = { λ p. take p.filled p.places };

    ghost invariant = { λ p. p.filled ≤ 16384 };
}

impl Piece {
    /// No bytes.
    pub(crate) fn new() -> Piece
        ensures { result ≡ [] }
    {
        Piece {
            places: [0; PIECE],
            filled: 0,
        }
    }

    /// The bytes that wait.
    pub(crate) fn bytes(&self) -> &[u8]
        ensures { result.now ≡ self.now }
    {
        &self.places[..self.filled]
    }

    /// Whether there is no room left.
    pub(crate) fn is_full(&self) -> bool
        ensures { result ≡ false → length self.now < 16384 }
    {
        self.filled == PIECE
    }

    /// Forgets the bytes.
    pub(crate) fn clear(&mut self)
        ensures { self.new ≡ [] }
    {
        self.filled = 0;
    }

    /// Takes all of these bytes where there is room for them, and else none; answers whether there is.
    pub(crate) fn push(&mut self, bytes: &[u8]) -> bool
        ensures taken { result ≡ true → self.new ≡ self.old ++ bytes.now }
        ensures left { result ≡ false → self.new ≡ self.old }
    {
        if bytes.len() > PIECE - self.filled {
            return false;
        }
        self.filled = fill(&mut self.places, self.filled, bytes);
        true
    }

    /// Takes the decimal digits of a number, as [`Piece::push`] takes bytes.
    pub(crate) fn push_decimal(&mut self, number: u64) -> bool
        ensures taken { result ≡ true → self.new ≡ self.old ++ decimal number }
        ensures left { result ≡ false → self.new ≡ self.old }
    {
        if digits(number) > PIECE - self.filled {
            return false;
        }
        self.filled = fill_number(&mut self.places, self.filled, number);
        true
    }

    /// Takes the first of these bytes, as many as there is room for, and answers how many.
    pub(crate) fn take(&mut self, bytes: &[u8]) -> usize
        requires room { length self.old < 16384 }
        requires some { 0 < length bytes.now }
        ensures some { 0 < result }
        ensures within { result ≤ length bytes.now }
        ensures taken { self.new ≡ self.old ++ take result bytes.now }
    {
        let count = bytes.len().min(PIECE - self.filled);
        let end = self.filled + count;
        self.places[self.filled..end].copy_from_slice(&bytes[..count]);
        self.filled = end;
        count
    }
}
