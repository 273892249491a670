//! The table of a plain source: one word, and one seat, whose view is what the source's scans recorded. Each scan loads the word.

use atomic_table::{Play, TableRule};
use register_rule::Answer;
use std::collections::LinkedList;
use std::marker::Brand;

/// What the seat of a plain source knows. No value of this type is ever made.
pub struct Recordings {
    /// The answers of its scans, in order.
    pub entries: LinkedList<Answer>,
}

/// The rule of the table of a plain source: there is none, since no other thread sees it.
pub struct NoLaw;

impl TableRule<(), Recordings, ()> for NoLaw {
    ghost use Rattle.std.specs.Prelude.{[]};

    ghost holds = { λ _ _. Unit {0} };

    ghost first = { λ _. record { entries = [] } };
}

// Each call picks what it tells.
impl Play<(), Recordings> for Brand {
    ghost then = { λ _ _ _ _. Unit {0} };
}
