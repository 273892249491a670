//! One history of publishes through a list of snapshots.
ghost use Rattle.std.specs.Prelude.{◌≡◌, ◌-◌, ◌<◌, length, replicate, true, false, IfOk, IfErr, IfSome, IfNone};
ghost use Rattle.register_rule.specs.History.{Below};
ghost use Rattle.chain_law.specs.History.{vectors_of, Falls, AreRising, IsFirstFall, IsBefore, IsGrown, IsHistory, IsChainFault};

use crate::turns::{ChainFault, Turn};
use snapshot_scan::Snapshot;
use std::alloc::{AllocError, Global};

/// Whether no number of `to` is below that of `from`.
pub(crate) fn rises(from: &[u64], to: &[u64]) -> bool
    requires all { length to.now ≡ length from.now }
    ensures rises { result ≡ true → Below from.now to.now }
    ensures falls { result ≡ false → Falls from.now to.now }
{
    for i in 0..from.len() {
        if to[i] < from[i] {
            return false;
        }
    }
    true
}

/// The first snapshot that is below its neighbour at some place.
fn first_fall<const N: usize, const C: usize, const H: usize, const G: usize>(
    snapshots: &[Snapshot<N, C, H, G>],
) -> Option<usize>
    ensures some { IfSome result (λ b. IsFirstFall (vectors_of snapshots.now) (b - 1) b) }
    ensures none { IfNone result (AreRising (length snapshots.now) (vectors_of snapshots.now)) }
{
    for b in 1..snapshots.len() {
        if !rises(snapshots[b - 1].vector(), snapshots[b].vector()) {
            return Some(b);
        }
    }
    None
}

/// The vector before snapshot `k`: zeros before the first one.
fn vector_before<'a, const N: usize, const C: usize, const H: usize, const G: usize>(
    snapshots: &'a [Snapshot<N, C, H, G>],
    k: usize,
    zeros: &'a [u64],
) -> &'a [u64]
    requires inside { k < length snapshots.now }
    requires zeros { zeros.now ≡ replicate N 0 }
    ensures { IsBefore N (vectors_of snapshots.now) k result.now }
{
    if k == 0 {
        zeros
    } else {
        snapshots[k - 1].vector()
    }
}

/// Adds the turns from one vector to another: one for each worker whose number rose.
pub(crate) fn add_turns(from: &[u64], to: &[u64], turns: &mut Vec<Turn>) -> Result<(), AllocError>
    requires all { length to.now ≡ length from.now }
    requires rises { Below from.now to.now }
    ensures { IfOk result (λ _. IsGrown (length from.now) from.now to.now turns.old.items turns.new.items) }
{
    for worker in 0..from.len() {
        let by = to[worker] - from[worker];
        if 0 < by {
            turns.push(Turn { worker, by })?;
        }
    }
    Ok(())
}

/// The history of publishes that passes through these snapshots, in this order: for each of them a turn of each worker whose
/// number rose over the snapshot before, over zeros for the first one, workers in rising order. After the turns up to a snapshot
/// each worker has published as often as its vector says.
///
/// The snapshots that one reader's scans gave, in their order, have a history, and those of several readers have one in the order
/// that [`order`](snapshot_scan::order) tells.
///
/// # Errors
///
/// 17 [`NotChain`](ChainFault::NotChain), with the first snapshot that is below the one before it, and 6
/// [`NoMemory`](ChainFault::NoMemory) for want of memory.
pub fn history_of<const N: usize, const C: usize, const H: usize, const G: usize>(
    alloc: Global,
    snapshots: &[Snapshot<N, C, H, G>],
) -> Result<Vec<Turn>, ChainFault>
    ensures history { IfOk result (λ turns. IsHistory N (vectors_of snapshots.now) turns.items) }
    ensures fault { IfErr result (λ e. IsChainFault (vectors_of snapshots.now) e) }
{
    if let Some(b) = first_fall(snapshots) {
        return Err(ChainFault::NotChain { a: b - 1, b });
    }
    let zeros = [0; N];
    let mut turns = Vec::new(alloc);
    for k in 0..snapshots.len() {
        let to = snapshots[k].vector();
        let from = vector_before(snapshots, k, zeros.as_slice());
        add_turns(from, to, &mut turns)?;
    }
    Ok(turns)
}
