ghost use Rattle.std.specs.Prelude.{◌≡◌, []};
ghost use Rattle.snapshot_core.specs.declared.trace.ScanEnd.TheVariants.{GaveUp};

use ledger_core::Op;

/// How a scan ended.
#[derive(Clone, Copy, Debug, PartialEq, Eq)]
pub enum ScanEnd {
    /// Each number of a try was found again.
    Direct,
    /// An asked worker lent the view of its last scan.
    Lent { from: usize },
    /// Each of n + 2 tries failed.
    GaveUp,
}

/// A scan that is over. Those of updates are among them.
#[derive(Drop)]
pub struct Answer {
    /// The worker, 0 to n - 1, or the reader, n to n + 3, that scanned.
    pub actor: usize,
    /// The event of its Begin.
    pub begin: usize,
    /// The event of its last read.
    pub end: usize,
    /// How many tries it made, 1 to n + 2.
    pub tries: usize,
    /// How it ended.
    pub how: ScanEnd,
    /// The number of each worker; empty where the scan gave up.
    pub vector: Vec<u64>,
    /// The sums of all rows, word by word; empty where the scan gave up.
    pub totals: Vec<u64>,
    ghost none: { how ≡ GaveUp → (vector.items ≡ []) × (totals.items ≡ []) },
}

/// A publish of a worker.
#[derive(Drop)]
pub struct Publish {
    /// The event at which it stands.
    pub at: usize,
    /// The worker, 0 to n - 1.
    pub worker: usize,
    /// The operations that it added, in their order.
    pub ops: Vec<Op>,
}

/// What a list of events came to.
#[derive(Drop)]
pub struct Trace {
    /// In the order of their events.
    pub publishes: Vec<Publish>,
    /// In the order of their ends. A scan that is not over when the list ends is not among them.
    pub answers: Vec<Answer>,
}
