//! Changes by handles, of which a recorder publishes several as one version.
ghost use Rattle.std.specs.Prelude.{◌≡◌};
ghost use Rattle.bucket_math.specs.Bounds.{place_of};
ghost use Rattle.ledger_core.specs.declared.op.Op.TheVariants.{Inc, Observe, Up, Down};

use ledger_core::{Counter, Gauge, Histogram, Op};

/// One change of a metric: an operation, and the id of the registry whose handle it was made with. [`inc`], [`observe`], [`up`]
/// and [`down`] make them, and a recorder publishes several of them as one version.
#[derive(Clone, Copy, Debug, PartialEq, Eq)]
pub struct Change {
    /// The id in the handle.
    pub registry: u64,
    /// What is added.
    pub op: Op,
}

/// Adds `by` to a counter.
pub fn inc(counter: &Counter, by: u64) -> Change
    ensures registry { result.registry ≡ counter.now.registry }
    ensures op { result.op ≡ Inc counter.now.slot by }
{
    Change {
        registry: counter.registry,
        op: Op::Inc {
            counter: counter.slot,
            by,
        },
    }
}

/// Counts a value of a histogram: its bucket, the sum and the count rise.
pub fn observe(hist: &Histogram, value: u64) -> Change
    ensures registry { result.registry ≡ hist.now.registry }
    ensures op { result.op ≡ Observe hist.now.slot (place_of hist.now.bounds value) value }
{
    Change {
        registry: hist.registry,
        op: Op::Observe {
            hist: hist.slot,
            place: hist.bounds.place(value),
            value,
        },
    }
}

/// Raises a gauge by `by`.
pub fn up(gauge: &Gauge, by: u64) -> Change
    ensures registry { result.registry ≡ gauge.now.registry }
    ensures op { result.op ≡ Up gauge.now.slot by }
{
    Change {
        registry: gauge.registry,
        op: Op::Up {
            gauge: gauge.slot,
            by,
        },
    }
}

/// Lowers a gauge by `by`.
pub fn down(gauge: &Gauge, by: u64) -> Change
    ensures registry { result.registry ≡ gauge.now.registry }
    ensures op { result.op ≡ Down gauge.now.slot by }
{
    Change {
        registry: gauge.registry,
        op: Op::Down {
            gauge: gauge.slot,
            by,
        },
    }
}
