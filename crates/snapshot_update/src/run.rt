//! Observations of one histogram, one after the other.
ghost use Rattle.std.specs.Prelude.{◌≡◌, ◌≢◌, ◌<◌, ℕ, ◌↔◌, IsTrue};
ghost use Rattle.std.specs.Int.{bit_at};

/// Observations of one histogram, one after the other, and which of its buckets they touched.
#[derive(Drop)]
pub(crate) struct Run {
    /// The histogram, or the number of histograms where none has been observed.
    pub(crate) hist: usize,
    /// Bit `k` is 1 where the bucket `k` was touched.
    pub(crate) seen: u32,
}

impl Run {
    /// Whether this bucket was touched.
    #[inline(always)]
    pub(crate) fn has(&self, place: usize) -> bool
        requires { place < 25 }
        ensures { IsTrue result ↔ (bit_at self.now.seen place ≡ 1) }
    {
        self.seen >> place & 1 == 1
    }

    /// This bucket was touched, too.
    #[inline(always)]
    pub(crate) fn add(&mut self, place: usize)
        requires { place < 25 }
        ensures hist { self.new.hist ≡ self.old.hist }
        ensures set { bit_at self.new.seen place ≡ 1 }
        ensures others { (k : ℕ) → k ≢ place → bit_at self.new.seen k ≡ bit_at self.old.seen k }
    {
        self.seen |= 1 << place;
    }
}
