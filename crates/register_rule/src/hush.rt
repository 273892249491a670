//! The hush word: by it a scan whose first try failed asks the workers to rest, while it tries again.
//!
//! It stands beside the board's table and is a hint outside the rule: no step of the board reads it, no clause speaks of it, and
//! the rule holds whatever it is. So that a scan asks, that a worker rests and for how long is in the code and in tests, and is
//! not proved.

use crate::board::Board;
use std::sync::atomic::{AtomicU64, Ordering};

/// The low bits of the word count the scans that ask at this moment. Each seat makes one scan at a time, so they are at most 36:
/// one of each of 32 workers and 4 readers. A count, since the end of one scan must not end the hush of another.
const SCANS: u64 = 255;

/// The other bits count all requests that there were: each adds so much.
const REQUEST: u64 = 256;

/// How often a worker looks at the word in one rest, at most.
///
/// So many looks are 40 to 70 microseconds on the machine that docs/MEASURING.md speaks of, where the greatest scan reads its 32
/// rows of 1,248 words in some 30: twice its `scan_moved_16`. Where a try takes longer than a rest, since the machine is slower
/// or the thread that scans was held up, the worker goes on, the try may fail, and the scan asks anew; what it confirmed it need
/// not read again. Plain loads, and no `PAUSE`, whose length differs from processor to processor.
const LOOKS: usize = 100_000;

/// The word, alone on its cache line whatever lies beside the board: it is written only where a scan's try fails.
#[derive(Drop)]
pub(crate) struct HushWord {
    before: [u64; 7],
    word: AtomicU64,
    behind: [u64; 7],
}

impl HushWord {
    /// Nobody has asked.
    pub(crate) fn new() -> HushWord {
        HushWord {
            before: [0; 7],
            word: AtomicU64::new(0),
            behind: [0; 7],
        }
    }

    /// Rests, unless the worker has `rested` for the last request: looks at the word until no scan asks, at most [`LOOKS`] times,
    /// and notes the last request that it saw. A function of its own, so that an update beside nobody who asks has no more code
    /// than its one look.
    #[cold]
    #[inline(never)]
    fn rest(&self, rested: &mut u64) {
        let mut word = self.word.load(Ordering::SeqCst);
        if word / REQUEST == *rested {
            return;
        }
        for _look in 0..LOOKS {
            if word & SCANS == 0 {
                break;
            }
            word = self.word.load(Ordering::SeqCst);
        }
        *rested = word / REQUEST;
    }
}

impl<const N: usize, const C: usize, const H: usize, const G: usize> Board<N, C, H, G> {
    /// A scan asks the workers to rest, until its [`Board::end_hush`]. It is a hint, and no clause speaks of it: an update that
    /// begins later finds it by its [`Board::rest_if_hushed`]. One atomic addition.
    pub fn hush(&self) {
        self.hush.word.fetch_add(REQUEST + 1, Ordering::SeqCst);
    }

    /// A scan that asks does so anew, also those workers that have rested for it. One atomic addition.
    pub fn hush_anew(&self) {
        self.hush.word.fetch_add(REQUEST, Ordering::SeqCst);
    }

    /// A scan that asked takes its asking back: workers that rest go on, unless another scan asks. One atomic subtraction.
    pub fn end_hush(&self) {
        self.hush.word.fetch_sub(1, Ordering::SeqCst);
    }

    /// Rests where a scan asks for it, by a request that is newer than the last one that was `rested` for: looks at the hush word
    /// until no scan asks, at most 100,000 times, which is some tens of microseconds, and notes the request. Where no scan asks
    /// it is one load of a word that nobody writes; where a scan asks that never ends, it is one rest a worker, and a compare
    /// from then on. `rested` is the worker's own, and 0 at first. No clause speaks of it.
    #[inline(always)]
    pub fn rest_if_hushed(&self, rested: &mut u64) {
        if self.hush.word.load(Ordering::SeqCst) & SCANS != 0 {
            self.hush.rest(rested);
        }
    }
}
