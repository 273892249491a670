//! What a seat knows, as plain data. But for [`Who`] no value of these types is ever made: they are the views that the
//! contracts of the steps speak of.
use ledger_core::Op;
use std::collections::LinkedList;

/// The name of a member of a view: of a worker, who writes one segment, or of a reader.
#[derive(Clone, Copy, Debug)]
pub enum Who {
    /// The worker that writes the segment of this number.
    Worker(usize),
    /// The reader of this number.
    Reader(usize),
}

/// A row that never changes any more: that of a version of a segment.
pub struct Version {
    /// The number of the version.
    pub number: u64,
    /// The words of its row.
    pub row: LinkedList<u64>,
}

/// What a scan found at one place.
pub struct Look {
    /// The worker whose segment it is.
    pub place: usize,
    /// The number that the opening load found.
    pub number: u64,
    /// The words of the buffer that this number shows, from the row's first word on in their order: as many as were read, or all
    /// of the row that is remembered under this number.
    pub words: LinkedList<u64>,
    /// Whether a confirming load found the number again.
    pub sure: bool,
    /// The number that the confirming load found, or 0 where there was none yet.
    pub found: u64,
}

/// The answer of a scan, as it is recorded: all segments at one moment.
pub struct Answer {
    /// The number of each segment, `N` of them.
    pub vector: LinkedList<u64>,
    /// The sums of the segments' rows, word by word: `C + 27 * H + 2 * G` of them.
    pub totals: LinkedList<u64>,
}

/// One publish of a worker.
pub struct PublishEntry {
    /// The operations that it added.
    pub ops: LinkedList<Op>,
    /// The answer that its version lends, if it lends one.
    pub lends: Option<Answer>,
}

/// A worker that was asked for the view that it lends.
pub struct Asked {
    /// The worker.
    pub worker: usize,
    /// The number that the opening load found.
    pub number: u64,
    /// The words of the buffer that this number shows, as many as were read, from the flag on: the flag, the vector, the
    /// totals.
    pub words: LinkedList<u64>,
    /// The number that the confirming load found, as `found` of a [`Look`].
    pub again: u64,
}

/// A scan in progress, at its present try.
pub struct ScanInProgress {
    /// How many tries of the scan have failed.
    pub failed: u64,
    /// The numbers that the first try opened, once it has failed.
    pub floor: LinkedList<u64>,
    /// The numbers that the first try's confirming loads found, once it has failed.
    pub base: LinkedList<u64>,
    /// The places of the try that are opened, in rising order.
    pub looks: LinkedList<Look>,
    /// The workers to be asked before the next try, in rising order.
    pub due: LinkedList<usize>,
    /// The worker that is being asked, if there is one. Its words are those from the flag on.
    pub asks: LinkedList<Look>,
}

/// What a member has loaded and learned by its scans.
pub struct ScanLog {
    /// All opening loads of collects: place and number.
    pub opened: LinkedList<(usize, u64)>,
    /// All confirming loads of collects: place and number.
    pub confirmed: LinkedList<(usize, u64)>,
    /// For each of these, how many of the opening loads were made before it.
    pub before: LinkedList<u64>,
    /// All workers asked.
    pub asked: LinkedList<Asked>,
    /// The answers of the scans that were not given up.
    pub recorded: LinkedList<Answer>,
    /// How many scans were given up.
    pub quit: u64,
    /// For each segment the greatest number that the answers, the worker's own publishes and the meetings have reached. A
    /// load alone does not raise it: its number stands in `opened`, `confirmed` or `asked`.
    pub seen: LinkedList<u64>,
    /// For each segment the row that is remembered: the one that was confirmed last, of a worker's own segment the one that it
    /// published last where that is later, and zeros at first.
    pub remembered: LinkedList<Version>,
    /// The scan in progress.
    pub trying: ScanInProgress,
}

/// What a worker has written.
pub struct Work {
    /// What it published.
    pub made: LinkedList<PublishEntry>,
    /// The words of its segment's buffer that is not shown.
    pub hidden: LinkedList<u64>,
    /// The words of its segment's buffer that is shown.
    pub shown: LinkedList<u64>,
}

/// A worker or a reader. A reader's `work` is empty.
pub struct Member {
    /// Which worker or reader it is.
    pub who: Who,
    /// What it has written.
    pub work: Work,
    /// What it has loaded and learned.
    pub scan: ScanLog,
}

/// What a seat knows: its members, of which the first one makes its steps.
pub struct SeatView {
    /// Each is in the view of one seat only.
    pub members: LinkedList<Member>,
}
