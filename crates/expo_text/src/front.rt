//! What the lines of a child's buckets begin with.
ghost use Rattle.std.specs.Prelude.{◌≡◌, ◌≤◌, length, take};

use crate::filling::{fill, fill_number};
use crate::sink::Sink;

/// How many bytes a front has at most: a name of 128 bytes and `_bucket`, 8 labels of 643 bytes each with what parts them,
/// and `le="`.
const LONGEST: usize = 6144;

/// The bytes with which the lines of a child's buckets begin, spelled once for all of them. Plain data.
#[derive(Drop)]
pub(crate) struct Front {
    places: [u8; 6144],
    filled: usize,
    ghost within: { filled ≤ 6144 },
}

impl Front {
    /// No bytes.
    pub(crate) fn new() -> Front
        ensures { result.filled ≡ 0 }
    {
        Front {
            places: [0; LONGEST],
            filled: 0,
        }
    }

    /// Forgets the bytes.
    pub(crate) fn clear(&mut self)
        ensures none { self.new.filled ≡ 0 }
        ensures room { length self.new.places ≡ 6144 }
    {
        self.filled = 0;
    }

    /// The bytes.
    pub(crate) fn bytes(&self) -> &[u8]
        ensures { result.now ≡ take self.now.filled self.now.places }
    {
        &self.places[..self.filled]
    }
}

impl Sink for Front {
    ghost use Rattle.expo_text.specs.Fills.{Fills, fills-nothing, fills-chain};

    ghost took = { λ a b xs. Fills a.places b.places a.filled b.filled xs };

    fn put(&mut self, bytes: &[u8]) {
        self.filled = fill(&mut self.places, self.filled, bytes);
    }

    fn put_decimal(&mut self, number: u64) {
        self.filled = fill_number(&mut self.places, self.filled, number);
    }

    ghost nothing = { λ a. fills-nothing a.places a.filled };

    ghost chain = { λ a b c xs ys. fills-chain a.places b.places c.places a.filled b.filled c.filled xs ys };
}
