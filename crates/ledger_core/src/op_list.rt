//! Operations in the order in which they came, kept in place.
ghost use Rattle.std.specs.Prelude.{◌≡◌, ◌+◌, ◌<◌, ◌≤◌, Some, [], ◌∷◌, ◌++◌, length, slice_get, slice_set, slice_index};
ghost use Rattle.std.specs.Prelude.{min, OnOk, OnErr, IfOk, IfErr, All};
ghost use Rattle.bucket_math.specs.Words.{greatest_word};
ghost use Rattle.ledger_core.specs.declared.op.Op.{Op};
ghost use Rattle.ledger_core.specs.Joining.{IsSmall, with_amount};
ghost use Rattle.ledger_core.specs.Takes.{Takes, IsPlaced, IsFollowed, IsListFault, IsJoinFault};

use crate::joining::{Joined, amount, join_ops};
use crate::op::Op;
use crate::row::MAX_WORD;
use crate::tally_fault::TallyFault;
use std::marker::Model;

/// The most operations that a list keeps.
pub(crate) const MOST: usize = 65_536;

/// At most `K` operations, and no more than [`MOST`], kept in place. Contracts see it as their list.
#[derive(Drop)]
pub(crate) struct OpList<const K: usize> {
    ops: [Op; K],
    count: usize,
}

impl<const K: usize> Model for OpList<K> {
    ghost use Rattle.std.specs.Prelude.{◌≡◌, ◌≤◌, List, length, take, All};
    ghost use Rattle.ledger_core.specs.declared.op.Op.{Op};
    ghost use Rattle.ledger_core.specs.Joining.{IsSmall};

    ghost Value = { List Op };

    ghost view = { λ l. take l.count l.ops };

    ghost invariant = { λ l. (l.count ≤ K) × (length l.ops ≡ K) × (l.count ≤ 65536) × All IsSmall (take l.count l.ops) };
}

impl<const K: usize> OpList<K> {
    /// None.
    pub(crate) fn new() -> OpList<K>
        ensures { result ≡ [] }
    {
        OpList {
            ops: [Op::Inc { counter: 0, by: 0 }; K],
            count: 0,
        }
    }

    /// How many there are.
    #[inline]
    pub(crate) fn len(&self) -> usize
        ensures len { result ≡ length self.now }
        ensures few { (result ≤ K) × (result ≤ 65536) }
    {
        // A look at the operations tells the proof how many there may be.
        let _ = &self.ops;
        self.count
    }

    /// The operations.
    #[inline]
    pub(crate) fn as_slice(&self) -> &[Op]
        ensures value { result.now ≡ self.now }
        ensures small { All IsSmall self.now }
    {
        &self.ops[..self.count]
    }

    /// The operation at a place.
    #[inline]
    pub(crate) fn get(&self, at: usize) -> Op
        requires { at < length self.now }
        ensures found { slice_get self.now at ≡ Some result }
        ensures small { IsSmall result }
    {
        // A look at the count tells the proof how many there may be.
        let _ = &self.count;
        self.ops[at]
    }

    /// Has the operation at a place add this much.
    #[inline]
    pub(crate) fn raise(&mut self, at: usize, amount: u64)
        requires inside { at < length self.old }
        requires small { amount ≤ greatest_word }
        ensures { (op : Op) → slice_get self.old at ≡ Some op → self.new ≡ slice_set self.old at (with_amount amount op) }
    {
        // A look at the count tells the proof how many there may be.
        let _ = &self.count;
        match &mut self.ops[at] {
            Op::Inc { by, .. } => *by = amount,
            Op::Observe { value, .. } => *value = amount,
            Op::Up { by, .. } => *by = amount,
            Op::Down { by, .. } => *by = amount,
        }
    }

    /// One more.
    #[inline]
    pub(crate) fn push(&mut self, op: Op)
        requires room { (length self.old < K) × (length self.old < 65536) }
        requires small { IsSmall op }
        ensures { self.new ≡ self.old ++ op ∷ [] }
    {
        self.ops[self.count] = op;
        self.count += 1;
    }

    /// None any more.
    #[inline]
    pub(crate) fn clear(&mut self)
        ensures { self.new ≡ [] }
    {
        // A look at the operations tells the proof how many there may be.
        let _ = &self.ops;
        self.count = 0;
    }

    /// Takes one operation of a slot whose place the table has: `join`, and the table has its place afterwards.
    #[inline]
    pub(crate) fn take<const M: usize>(
        &mut self,
        places: &mut [u16; M],
        slot: usize,
        op: Op,
    ) -> Result<(), TallyFault>
        requires { slot < M }
        ensures taken { OnOk result (Takes self.old op self.new) }
        ensures placed { OnOk result (IsFollowed slot self.old op self.new places.old places.new) }
        ensures fault { IfErr result (IsJoinFault (min K 65536) (slice_index places.old slot) self.old op) }
        ensures unchanged { OnErr result ((self.new ≡ self.old) × (places.new ≡ places.old)) }
    {
        let hint = places[slot] as usize;
        match self.join(hint, op) {
            Ok(at) => {
                if at != hint {
                    places[slot] = at as u16;
                }
                Ok(())
            }
            Err(fault) => Err(fault),
        }
    }

    /// Takes one operation: joined with the one at the place `hint`, if there is one and it is of the same slot, and else as one
    /// more. Says at which place it stands.
    #[inline]
    pub(crate) fn join(&mut self, hint: usize, op: Op) -> Result<usize, TallyFault>
        ensures taken { OnOk result (Takes self.old op self.new) }
        ensures placed { IfOk result (IsPlaced hint self.old op self.new) }
        ensures inside { IfOk result (λ place. (place < K) × (place < 65536)) }
        ensures fault { IfErr result (IsJoinFault (min K 65536) hint self.old op) }
        ensures unchanged { OnErr result (self.new ≡ self.old) }
    {
        if hint >= self.len() {
            return self.add(op);
        }
        match join_ops(&self.get(hint), &op) {
            Joined::One(sum) => {
                self.raise(hint, sum);
                Ok(hint)
            }
            Joined::TooLarge => Err(TallyFault::TooLarge),
            Joined::Apart => self.add(op),
        }
    }

    /// Takes one operation as one more, if there is room. Says at which place it stands.
    #[inline]
    pub(crate) fn add(&mut self, op: Op) -> Result<usize, TallyFault>
        ensures taken { OnOk result (Takes self.old op self.new) }
        ensures added { IfOk result (λ place. (place ≡ length self.old) × (self.new ≡ self.old ++ op ∷ [])) }
        ensures inside { IfOk result (λ place. (place < K) × (place < 65536)) }
        ensures fault { IfErr result (IsListFault (min K 65536) self.old op) }
        ensures unchanged { OnErr result (self.new ≡ self.old) }
    {
        if amount(&op) > MAX_WORD {
            return Err(TallyFault::TooLarge);
        }
        let at = self.len();
        if at >= K.min(MOST) {
            return Err(TallyFault::Full);
        }
        self.push(op);
        Ok(at)
    }
}
