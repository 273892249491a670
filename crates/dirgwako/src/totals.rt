//! What a snapshot holds, by handles.
ghost use Rattle.std.specs.Prelude.{◌≡◌, ◌+◌, ◌*◌, ◌<◌, ◌≤◌, ◌-ℤ◌, ◌↔◌, pos, slice_index, take, drop, MatchOption, IsSome};

use ledger_core::{Counter, Gauge, HistTotals, Histogram};
use snapshot_scan::Snapshot;

/// The total of a counter; None exactly where the board has no such slot. That the handle is of the board that was scanned nobody
/// looks at: a snapshot has no id.
pub fn counter_total<const N: usize, const C: usize, const H: usize, const G: usize>(
    snapshot: &Snapshot<N, C, H, G>,
    counter: &Counter,
) -> Option<u64>
    ensures inside { IsSome result ↔ (counter.now.slot < C) }
    ensures total { MatchOption result (C ≤ counter.now.slot) (λ total. total ≡ slice_index snapshot.now.totals counter.now.slot) }
{
    if counter.slot >= C {
        return None;
    }
    Some(snapshot.counter(counter.slot))
}

/// The totals of a histogram, bucket by bucket, the sum and the count; None exactly where the board has no such slot.
pub fn histogram_totals<const N: usize, const C: usize, const H: usize, const G: usize>(
    snapshot: &Snapshot<N, C, H, G>,
    hist: &Histogram,
) -> Option<HistTotals>
    ensures inside { IsSome result ↔ (hist.now.slot < H) }
    ensures buckets { MatchOption result (H ≤ hist.now.slot)
        (λ totals. totals.buckets ≡ take 25 (drop (C + 27 * hist.now.slot) snapshot.now.totals)) }
    ensures sum { MatchOption result (H ≤ hist.now.slot)
        (λ totals. totals.sum ≡ slice_index snapshot.now.totals (C + 27 * hist.now.slot + 25)) }
    ensures count { MatchOption result (H ≤ hist.now.slot)
        (λ totals. totals.count ≡ slice_index snapshot.now.totals (C + 27 * hist.now.slot + 26)) }
{
    if hist.slot >= H {
        return None;
    }
    Some(snapshot.hist(hist.slot))
}

/// The value of a gauge; None exactly where the board has no such slot.
pub fn gauge_value<const N: usize, const C: usize, const H: usize, const G: usize>(
    snapshot: &Snapshot<N, C, H, G>,
    gauge: &Gauge,
) -> Option<i64>
    ensures inside { IsSome result ↔ (gauge.now.slot < G) }
    ensures value { MatchOption result (G ≤ gauge.now.slot)
        (λ value. value ≡ pos (slice_index snapshot.now.totals (C + 27 * H + 2 * gauge.now.slot)) -ℤ pos
        (slice_index snapshot.now.totals (C + 27 * H + 2 * gauge.now.slot + 1))) }
{
    if gauge.slot >= G {
        return None;
    }
    Some(snapshot.gauge(gauge.slot))
}
