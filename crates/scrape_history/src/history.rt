//! The scrapes that are kept, as increases.
ghost use Rattle.std.specs.Prelude.{◌≡◌, ◌+◌, ◌-◌, ◌<◌, ◌≤◌, [], ◌∷◌, ◌++◌, None, Some, drop, length, slice_get, IfOk};
ghost use Rattle.std.specs.Prelude.{MatchOption, OnOk};
ghost use Rattle.segment_layout.specs.Layout.{IsGeometry};
ghost use Rattle.ledger_core.specs.Ops.{width};
ghost use Rattle.snapshot_scan.specs.Snapshots.{as_answer};
ghost use Rattle.register_rule.specs.Members.{newest};
ghost use Rattle.scrape_history.specs.History.{answers_of};

use crate::increase::{Increase, drop_first, note_increases, raise};
use crate::later::{Later, changed_to};
use snapshot_scan::Snapshot;
use std::alloc::{AllocError, Global};
use std::collections::VecDeque;
use std::marker::Model;

/// The scrapes that are kept, in order: the oldest whole, and each later one as its increases over the one before, so that it
/// takes no more than what changed. The newest is kept whole too, to be shown, and to find the increases of the next.
///
/// Contracts see it as its scrapes, each with how many changes were made before it, and as the room that it has. A *history of
/// publishes*, of which other contracts speak, is something else: the order in which workers published, which nothing keeps.
#[derive(Drop)]
pub struct History<const N: usize, const C: usize, const H: usize, const G: usize> {
    pub(crate) first: Option<usize>,
    pub(crate) oldest: Snapshot<N, C, H, G>,
    pub(crate) later: VecDeque<Later>,
    pub(crate) increases: VecDeque<Increase>,
    newest: Snapshot<N, C, H, G>,
}

impl<const N: usize, const C: usize, const H: usize, const G: usize> Model for History<N, C, H, G> {
    ghost use Rattle.std.specs.Prelude.{◌+◌, ◌-◌, length};
    ghost use Rattle.std.specs.VecDeque.{deque_capacity};
    ghost use Rattle.scrape_history.specs.History.{Stored, held_of, IsHistory};

    ghost Value = { Stored };

    ghost view = { λ h. record {
      scrapes = held_of h.first h.oldest h.later.items h.increases.items;
      places = deque_capacity h.later + 1;
      room = deque_capacity h.increases - length h.increases.items;
    } };

    ghost invariant = { λ h. IsHistory N C H G h.first h.oldest h.newest h.later.items h.increases.items };
}

impl<const N: usize, const C: usize, const H: usize, const G: usize> History<N, C, H, G> {
    /// No scrapes.
    ///
    /// # Errors
    ///
    /// Refusal 6 for want of memory.
    pub fn new(alloc: Global, window: usize) -> Result<History<N, C, H, G>, AllocError>
        requires { IsGeometry N C H G }
        ensures { IfOk result (λ history. history.scrapes ≡ []) }
    {
        let oldest = Snapshot::new(alloc)?;
        let newest = Snapshot::new(alloc)?;
        let later = VecDeque::with_capacity(alloc, window)?;
        Ok(History {
            first: None,
            oldest,
            later,
            increases: VecDeque::new(alloc),
            newest,
        })
    }

    /// How many scrapes there are.
    pub fn len(&self) -> usize
        ensures count { result ≡ length self.now.scrapes }
        ensures fit { result ≤ self.now.places }
        ensures low { result ≤ 9223372036854775808 }
    {
        match self.first {
            Some(_before) => 1 + self.later.len(),
            None => 0,
        }
    }

    /// Makes room for one scrape more, unless there are `window` already, and for its increases.
    pub fn make_room(&mut self, window: usize) -> Result<(), AllocError>
        ensures same { self.new.scrapes ≡ self.old.scrapes }
        ensures places { OnOk result (length self.new.scrapes < window → length self.new.scrapes < self.new.places) }
        ensures room { OnOk result (N + width C H G ≤ self.new.room) }
    {
        if self.len() < window {
            self.later.reserve(1)?;
        }
        let words = self.newest.vector().len() + self.newest.totals().len();
        self.increases.reserve(words)?;
        Ok(())
    }

    /// Drops the oldest scrape, and makes the next one whole.
    fn drop_one(&mut self)
        ensures newest { self.new.scrapes ≡ drop 1 self.old.scrapes }
        ensures places { self.new.places ≡ self.old.places }
        ensures room { self.old.room ≤ self.new.room }
    {
        match self.later.pop_front() {
            Some(next) => {
                raise(&mut self.oldest, &self.increases, next.changed);
                drop_first(&mut self.increases, next.changed);
                self.first = Some(next.before);
            }
            None => self.first = None,
        }
    }

    /// Drops the oldest scrapes where they are more than `most`.
    pub fn drop_oldest(&mut self, most: usize)
        ensures newest { self.new.scrapes ≡ drop (length self.old.scrapes - most) self.old.scrapes }
        ensures fit { length self.old.scrapes ≤ self.old.places }
        ensures places { self.new.places ≡ self.old.places }
        ensures room { self.old.room ≤ self.new.room }
    {
        for _ in most..self.len() {
            self.drop_one();
        }
    }

    /// Adds a scrape, for which there is room.
    fn push(&mut self, scrape: &Snapshot<N, C, H, G>, before: usize)
        requires places { length self.old.scrapes < self.old.places }
        requires room { N + width C H G ≤ self.old.room }
        ensures { self.new.scrapes ≡ self.old.scrapes ++ (scrape.now, before) ∷ [] }
    {
        match self.first {
            Some(_before) => {
                let start = self.increases.len();
                note_increases(&mut self.increases, &self.newest, scrape);
                let changed = self.increases.len() - start;
                self.later.push_back_reserved(Later { before, changed });
            }
            None => {
                self.oldest.copy_from(scrape);
                self.first = Some(before);
            }
        }
        self.newest.copy_from(scrape);
    }

    /// Adds a scrape, for which there is room, and drops the oldest where they are more than `window`.
    pub fn keep(&mut self, scrape: &Snapshot<N, C, H, G>, before: usize, window: usize)
        requires window { 1 ≤ window }
        requires places { length self.old.scrapes < window → length self.old.scrapes < self.old.places }
        requires room { N + width C H G ≤ self.old.room }
        ensures { self.new.scrapes ≡ drop (length self.old.scrapes + 1 - window) (self.old.scrapes ++ (scrape.now, before) ∷ []) }
    {
        self.drop_oldest(window - 1);
        self.push(scrape, before);
    }

    /// The newest scrape.
    pub fn newest(&self) -> Option<&Snapshot<N, C, H, G>>
        ensures { MatchOption result (newest (answers_of self.now.scrapes) ≡ None)
            (λ snapshot. newest (answers_of self.now.scrapes) ≡ Some (as_answer snapshot.now)) }
    {
        match self.first {
            Some(_before) => Some(&self.newest),
            None => None,
        }
    }

    /// Makes `out` the scrape of this number, counted from the oldest, which is 0. It takes no memory.
    pub fn read(&self, number: usize, out: &mut Snapshot<N, C, H, G>)
        requires { number < length self.now.scrapes }
        ensures { slice_get (answers_of self.now.scrapes) number ≡ Some (as_answer out.new) }
    {
        let changed = changed_to(&self.later, number);
        out.copy_from(&self.oldest);
        raise(out, &self.increases, changed);
    }
}
