//! Lists of changes.
ghost use Rattle.std.specs.Prelude.{◌≡◌, ◌↔◌, map, All, IsTrue};
ghost use Rattle.page_crew.specs.Changes.{op_in, IsOf};

use crate::change::Change;
use ledger_core::Op;

/// Whether all these changes are by handles of this registry.
pub fn are_of(registry: u64, changes: &[Change]) -> bool
    ensures { IsTrue result ↔ All (IsOf registry) changes.now }
{
    changes.iter().all(|change| change.registry == registry)
}

/// The operations of these changes, in order.
pub fn ops_of<const K: usize>(changes: &[Change; K]) -> [Op; K]
    ensures { result ≡ map op_in changes.now }
{
    let mut ops = [Op::Inc { counter: 0, by: 0 }; K];
    for (at, change) in changes.iter().enumerate() {
        ops[at] = change.op;
    }
    ops
}
