//! The words of a row that a list of one operation adds to.
ghost use Rattle.std.specs.Prelude.{IfSome};
ghost use Rattle.ledger_core.specs.Ops.{IsWithin};
ghost use Rattle.ledger_core.specs.Limits.{AreSlots};
ghost use Rattle.snapshot_update.specs.OpWords.{IsOnly, AreWordsOf};

use crate::touched::{COUNT, HIST, SUM};
use ledger_core::Op;

/// The words of a row that a list of operations adds to, where it is a list of one.
#[derive(Clone, Copy, Debug, PartialEq, Eq)]
pub(crate) enum OpWords {
    /// A counter, or a word of a gauge.
    One(usize),
    /// The sum and the count of a histogram, and a bucket.
    Three([usize; 3]),
    /// It is another list.
    Unknown,
}

/// The operation of a list of one.
#[inline(always)]
pub(crate) fn only_op(ops: &[Op]) -> Option<Op>
    ensures { IsOnly ops.now result }
{
    if ops.len() != 1 {
        return None;
    }
    Some(ops[0])
}

impl OpWords {
    /// The words of a list of one operation, which is `only`; none is that of another list.
    #[inline(always)]
    pub(crate) fn of<const C: usize, const H: usize, const G: usize>(only: Option<Op>) -> OpWords
        requires within { IfSome only (IsWithin C H G) }
        requires slots { AreSlots C H G }
        ensures { AreWordsOf C H only result }
    {
        let Some(op) = only else {
            return OpWords::Unknown;
        };
        match op {
            Op::Inc { counter, .. } => OpWords::One(counter),
            Op::Observe { hist, place, .. } => {
                let first = C + HIST * hist;
                OpWords::Three([first + SUM, first + COUNT, first + place])
            }
            Op::Up { gauge, .. } => OpWords::One(C + HIST * H + 2 * gauge),
            Op::Down { gauge, .. } => OpWords::One(C + HIST * H + 2 * gauge + 1),
        }
    }
}
