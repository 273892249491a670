//! What snapshots are taken of.
ghost use Rattle.std.specs.Prelude.{◌≡◌, ℕ, ◌+◌, ◌<◌, List, IfErr, OnOk, OnErr};
ghost use Rattle.register_rule.specs.declared.view.Answer.{Answer};
ghost use Rattle.snapshot_scan.specs.declared.contended.Contended.{Contended};
ghost use Rattle.snapshot_scan.specs.Snapshots.{as_answer};
ghost use Rattle.snapshot_scan.specs.Sources.{Records};

use crate::contended::Contended;
use crate::snapshot::Snapshot;

/// What snapshots are taken of: `N` workers, and rows of `C` counters, `H` histograms and `G` gauges.
pub trait Source<const N: usize, const C: usize, const H: usize, const G: usize> {
    // What its scans recorded, in order.
    ghost recorded: { Self → List Answer };

    // How many of its scans were given up.
    ghost quit: { Self → ℕ };

    // What a scan that gave this answer says of the source before it and after it.
    ghost gave: { Self → Self → Answer → Type 0 };

    // What a scan that was given up says of them.
    ghost gave_up: { Self → Self → Contended → Type 0 };

    /// A scan: all segments at one moment, written to `out`. It takes no memory and waits for nobody. What the source
    /// recorded grows by this one answer, which is not below the one before it. What the answer has to do with the source is told
    /// by `gave`, which each source names: a [`PlainSource`](crate::PlainSource) gives the row that it has.
    ///
    /// # Errors
    ///
    /// 14 [`Contended`]: the scan was given up. `out` is unchanged, and nothing is recorded.
    fn scan(&mut self, out: &mut Snapshot<N, C, H, G>) -> Result<(), Contended>
        ensures recorded { OnOk result (Records N C H G (recorded self.old) (recorded self.new) (as_answer out.new)) }
        ensures gave { OnOk result (gave self.old self.new (as_answer out.new)) }
        ensures quit { OnOk result (quit self.new ≡ quit self.old) }
        ensures given_up { OnErr result ((recorded self.new ≡ recorded self.old) × (quit self.new ≡ quit self.old + 1)) }
        ensures why { IfErr result (gave_up self.old self.new) }
        ensures rose { IfErr result (λ e. (e.worker < N) × (e.first < e.last)) }
        ensures unchanged { OnErr result (out.new ≡ out.old) };
}
