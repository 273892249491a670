//! What a registry can do besides where its source is of one thread: apply operations to it.
ghost use Rattle.std.specs.Prelude.{◌≡◌, IfErr, OnErr, OnOk};
ghost use Rattle.snapshot_scan.specs.Plain.{row_of, count_of, recorded_by, IsApplied, IsPlainFault};

use crate::registry::RegistryState;
use ledger_core::Op;
use snapshot_scan::{PlainFault, PlainSourceOf};

impl<const N: usize, const C: usize, const H: usize, const G: usize> RegistryState<
    PlainSourceOf<N, C, H, G>,
    N,
    C,
    H,
    G,
> {
    /// Applies the whole list of operations to the source as one, or nothing. It takes no memory, and neither the journal nor
    /// what the source recorded changes.
    ///
    /// # Errors
    ///
    /// 15 [`PlainFault::Exhausted`] where 2^64 - 1 lists were applied; then 11 and 12 of the first operation that fails.
    pub fn apply(&mut self, ops: &[Op]) -> Result<(), PlainFault>
        ensures applied { OnOk result (IsApplied C H G (row_of self.old.source) (count_of self.old.source) ops.now
            (row_of self.new.source) (count_of self.new.source)) }
        ensures recorded { recorded_by self.new.source ≡ recorded_by self.old.source }
        ensures same { self.new ≡ record self.old { source = self.new.source } }
        ensures fault { IfErr result (IsPlainFault C H G (row_of self.old.source) (count_of self.old.source) ops.now) }
        ensures row_and_count { OnErr result ((row_of self.new.source ≡ row_of self.old.source)
            × (count_of self.new.source ≡ count_of self.old.source)) }
    {
        self.source.apply(ops)
    }
}
