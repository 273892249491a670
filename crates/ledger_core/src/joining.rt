//! Two operations on one slot as one.
ghost use Rattle.std.specs.Prelude.{◌≡◌, ◌+◌, ◌<◌, ◌≤◌, MatchOption};
ghost use Rattle.bucket_math.specs.Words.{greatest_word};
ghost use Rattle.ledger_core.specs.Joining.{amount_of, IsJoined, IsSmall};

use crate::op::Op;
use crate::row::MAX_WORD;

/// What two operations are together.
#[derive(Clone, Copy)]
pub(crate) enum Joined {
    /// They add to one word, and this is what they add.
    One(u64),
    /// They add to one word, and together more than 2^48 - 1.
    TooLarge,
    /// They stay two.
    Apart,
}

/// Two operations as one, where they are increments of one counter, or raise one gauge, or lower one.
#[inline]
pub(crate) fn join_ops(first: &Op, second: &Op) -> Joined
    requires { IsSmall first.now }
    ensures { IsJoined first.now second.now result }
{
    match *second {
        Op::Inc { counter, by } => match *first {
            Op::Inc {
                counter: other,
                by: had,
            } if other == counter => match sum(had, by) {
                Some(sum) => Joined::One(sum),
                None => Joined::TooLarge,
            },
            _ => Joined::Apart,
        },
        Op::Up { gauge, by } => match *first {
            Op::Up {
                gauge: other,
                by: had,
            } if other == gauge => match sum(had, by) {
                Some(sum) => Joined::One(sum),
                None => Joined::TooLarge,
            },
            _ => Joined::Apart,
        },
        Op::Down { gauge, by } => match *first {
            Op::Down {
                gauge: other,
                by: had,
            } if other == gauge => match sum(had, by) {
                Some(sum) => Joined::One(sum),
                None => Joined::TooLarge,
            },
            _ => Joined::Apart,
        },
        Op::Observe { .. } => Joined::Apart,
    }
}

// The sum of two numbers, if it is at most 2^48 - 1.
#[inline]
fn sum(had: u64, by: u64) -> Option<u64>
    requires { had ≤ greatest_word }
    ensures { MatchOption result (greatest_word < had + by) (λ sum. (sum ≡ had + by) × (sum ≤ greatest_word)) }
{
    if by > MAX_WORD - had {
        return None;
    }
    Some(had + by)
}

/// What an operation adds to its word; of an observation the value.
#[inline]
pub(crate) fn amount(op: &Op) -> u64
    ensures { result ≡ amount_of op.now }
{
    match *op {
        Op::Inc { by, .. } => by,
        Op::Observe { value, .. } => value,
        Op::Up { by, .. } => by,
        Op::Down { by, .. } => by,
    }
}
