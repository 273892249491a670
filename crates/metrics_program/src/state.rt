//! What a script has made so far.
use crate::board::{Board, Reader, Registry, Snapshot, Worker};
use crate::queue::Queue;
use script_lines::Counting;
use std::alloc::Global;

/// What a script has made so far: its registry, which nobody shares, and its children by their numbers, with the
/// jobs that wait for `go`. The workers are at home here between two lines.
#[derive(Drop)]
pub(crate) struct State<'a> {
    pub(crate) alloc: Global,
    pub(crate) board: &'a Board,
    pub(crate) registry: Registry<'a>,
    pub(crate) workers: Vec<Worker>,
    pub(crate) settler: Reader,
    pub(crate) settled: Snapshot,
    pub(crate) queue: Queue,
}

/// What a line counts: `by`, so many times, in the child of this number, by this worker.
#[derive(Clone, Copy)]
pub(crate) struct Count {
    pub(crate) what: Counting,
    pub(crate) worker: usize,
    pub(crate) child: u64,
    pub(crate) by: u64,
    pub(crate) times: u64,
}
