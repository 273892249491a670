//! What the machine of events holds of each segment and each actor.
use crate::scan_state::ScanState;
use crate::trace::{Answer, Publish};
use ledger_core::Row;

/// The view that a version lends.
#[derive(Drop)]
pub(crate) struct Lent {
    pub(crate) vector: Vec<u64>,
    pub(crate) totals: Vec<u64>,
}

/// The version of a worker that is shown.
#[derive(Drop)]
pub(crate) struct Segment<const C: usize, const H: usize, const G: usize> {
    pub(crate) number: u64,
    pub(crate) row: Row<C, H, G>,
    pub(crate) view: Option<Lent>,
}

/// Where an actor is.
#[derive(Clone, Copy)]
pub(crate) enum Phase {
    /// It has nothing begun.
    Rest,
    /// It scans.
    Scan,
    /// A worker whose scan is over publishes next.
    Ready,
}

/// An actor, with the event of its Begin, its scan, the sums of the rows that this try has read, and the view of its scan
/// once that is over.
#[derive(Drop)]
pub(crate) struct Actor {
    pub(crate) phase: Phase,
    pub(crate) begin: usize,
    pub(crate) scan: ScanState,
    pub(crate) totals: Vec<u64>,
    pub(crate) view: Option<Lent>,
}

/// All segments and actors of n workers and four readers, and what came to pass so far.
#[derive(Drop)]
pub(crate) struct Machine<const C: usize, const H: usize, const G: usize> {
    pub(crate) n: usize,
    pub(crate) segments: Vec<Segment<C, H, G>>,
    pub(crate) actors: Vec<Actor>,
    pub(crate) publishes: Vec<Publish>,
    pub(crate) answers: Vec<Answer>,
}
