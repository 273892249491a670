ghost use Rattle.std.specs.Prelude.{◌≡◌, ◌<◌};
ghost use Rattle.ledger_core.specs.Ops.{width};
ghost use Rattle.ledger_core.specs.Word.{place_of, IsWord};

/// How many buckets a histogram has.
pub(crate) const BUCKETS: usize = 25;

/// The sum of a histogram comes after its buckets.
pub(crate) const SUM: usize = 25;

/// The count of a histogram is its last word.
pub(crate) const COUNT: usize = 26;

/// The first word of a gauge.
pub(crate) const UPS: usize = 0;

/// The second word of a gauge.
pub(crate) const DOWNS: usize = 1;

/// One word of a row, by what it counts.
#[derive(Clone, Copy)]
pub(crate) enum Word {
    Counter(usize),
    /// A bucket of a histogram, its sum (25) or its count (26).
    Hist { hist: usize, item: usize },
    /// The ups (0) or the downs (1) of a gauge.
    Gauge { gauge: usize, item: usize },
}

impl Word {
    /// What the word `k` of a row counts.
    #[inline]
    pub(crate) fn at<const C: usize, const H: usize, const G: usize>(k: usize) -> Word
        requires { k < width C H G }
        ensures known { IsWord C H G result }
        ensures place { place_of C H result ≡ k }
    {
        if k < C {
            return Word::Counter(k);
        }
        let rest = k - C;
        if rest / 27 < H {
            return Word::Hist {
                hist: rest / 27,
                item: rest % 27,
            };
        }
        Word::Gauge {
            gauge: (rest - 27 * H) / 2,
            item: (rest - 27 * H) % 2,
        }
    }
}
