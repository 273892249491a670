// What an actor does with a read.
ghost use Rattle.std.specs.Prelude.{◌≡◌, ℕ, ◌==◌, ◌++◌, cond, take, map, option_map, Some, IfOk, OnOk};
ghost use Rattle.ledger_core.specs.Ops.{width};
ghost use Rattle.snapshot_core.specs.Told.{vector_of};
ghost use Rattle.snapshot_core.specs.Scan.{asked_by};
ghost use Rattle.ledger_core.specs.Limits.{AreWorkers};
ghost use Rattle.ledger_core.specs.Limits.{AreSlots};
ghost use Rattle.snapshot_core.specs.Turns.{view_of, answered_of};
ghost use Rattle.snapshot_core.specs.Machine.{act_of, seg_of, lent_of, idle_of, begun_of, added, not_torn, read_by, place_in};
ghost use Rattle.snapshot_core.specs.Machine.{end_by, ended_of, ended_by, told_by, or_blank};

use crate::actor::{Actor, Lent, Phase, Segment};
use crate::next::Next;
use crate::scan_state::ScanState;
use crate::trace::{Answer, ScanEnd};
use crate::words::{add, copied, write};
use ledger_core::Row;
use std::alloc::{AllocError, Global};

/// Which worker's segment is read next.
pub(crate) fn place_of(next: Next) -> Option<usize>
    ensures { result ≡ place_in next }
{
    match next {
        Next::First(place) => Some(place),
        Next::Second(place) => Some(place),
        Next::Ask(place) => Some(place),
        _ => None,
    }
}

impl Lent {
    pub(crate) fn copy(&self, alloc: Global) -> Result<Lent, AllocError>
        ensures { IfOk result (λ l. lent_of l ≡ lent_of self.now) }
    {
        Ok(Lent {
            vector: copied(alloc, self.vector.as_slice())?,
            totals: copied(alloc, self.totals.as_slice())?,
        })
    }
}

/// A copy of the view, if there is one.
fn copied_view(alloc: Global, view: &Option<Lent>) -> Result<Option<Lent>, AllocError>
    ensures { IfOk result (λ v. option_map lent_of v ≡ option_map lent_of view.now) }
{
    match view {
        Some(lent) => Ok(Some(lent.copy(alloc)?)),
        None => Ok(None),
    }
}

/// A copy of the view; an empty one, where there is none.
fn view_or_blank(alloc: Global, view: &Option<Lent>) -> Result<Lent, AllocError>
    ensures { IfOk result (λ l. lent_of l ≡ or_blank (option_map lent_of view.now)) }
{
    match view {
        Some(lent) => lent.copy(alloc),
        None => Ok(Lent {
            vector: Vec::new(alloc),
            totals: Vec::new(alloc),
        }),
    }
}

impl Actor {
    /// At rest, with nothing read.
    pub(crate) fn idle<const C: usize, const H: usize, const G: usize>(
        alloc: Global,
        n: usize,
    ) -> Result<Actor, AllocError>
        requires workers { AreWorkers n }
        requires geometry { AreSlots C H G }
        ensures { IfOk result (λ a. act_of a ≡ idle_of (width C H G) n) }
    {
        let mut totals = Vec::new(alloc);
        write(&mut totals, &Row::<C, H, G>::new())?;
        Ok(Actor {
            phase: Phase::Rest,
            begin: 0,
            scan: ScanState::fresh(n),
            totals,
            view: None,
        })
    }

    /// Begins a scan.
    pub(crate) fn start(&mut self, n: usize, at: usize)
        requires { AreWorkers n }
        ensures { act_of self.new ≡ begun_of n at (act_of self.old) }
    {
        self.phase = Phase::Scan;
        self.begin = at;
        self.scan = ScanState::fresh(n);
        self.view = None;
    }

    /// Makes its next read, of this segment, and answers where its scan ends with it.
    pub(crate) fn read_on<const C: usize, const H: usize, const G: usize>(
        &mut self,
        alloc: Global,
        segment: &Segment<C, H, G>,
        torn: bool,
        at: usize,
        who: usize,
        is_worker: bool,
        answers: &mut Vec<Answer>,
    ) -> Result<(), AllocError>
        requires { (place : ℕ) × (place_in self.old.scan.scan.next ≡ Some place) }
        ensures actor { OnOk result (act_of self.new ≡ ended_by is_worker (act_of self.old) (seg_of segment.now) torn) }
        ensures answers { OnOk result (map answered_of answers.new.items ≡ map answered_of answers.old.items ++ told_by at who
            (act_of self.old) (seg_of segment.now) torn) }
    {
        self.read(segment, torn)?;
        if let Some((how, view)) = self.end(alloc, segment)? {
            answers.push(self.answer(alloc, at, who, how, &view)?)?;
            self.phase = if is_worker { Phase::Ready } else { Phase::Rest };
            self.view = view;
        }
        Ok(())
    }

    // Makes its next read, of this segment.
    fn read<const C: usize, const H: usize, const G: usize>(
        &mut self,
        segment: &Segment<C, H, G>,
        torn: bool,
    ) -> Result<(), AllocError>
        ensures { OnOk result (act_of self.new ≡ read_by (seg_of segment.now) torn (act_of self.old) self.old.scan.scan.next) }
    {
        match self.scan.next() {
            Next::First(place) => {
                if !torn {
                    self.sum(&segment.row, place)?;
                }
                self.scan.take_first(segment.number, !torn);
            }
            Next::Second(_) => self.scan.take_second(segment.number),
            Next::Ask(_) => self.ask(segment, torn),
            _ => {}
        }
        Ok(())
    }

    // Begins the sums of this try with a row, or adds it to them.
    fn sum<const C: usize, const H: usize, const G: usize>(
        &mut self,
        row: &Row<C, H, G>,
        place: usize,
    ) -> Result<(), AllocError>
        ensures { OnOk result (act_of self.new ≡ record (act_of self.old)
            { totals = cond (place == 0) row.now (added self.old.totals.items row.now) }) }
    {
        if place == 0 {
            return write(&mut self.totals, row);
        }
        add(&mut self.totals, row);
        Ok(())
    }

    // Takes what this segment lends.
    fn ask<const C: usize, const H: usize, const G: usize>(
        &mut self,
        segment: &Segment<C, H, G>,
        torn: bool,
    )
        ensures { act_of self.new ≡ record (act_of self.old) {
          scan = asked_by (not_torn torn (vector_of (option_map lent_of segment.now.view))) self.old.scan.scan
              self.old.scan.scan.next;
        } }
    {
        if torn {
            self.scan.take_asked(None);
        } else {
            match &segment.view {
                Some(view) => self.scan.take_asked(Some(view.vector.as_slice())),
                None => self.scan.take_asked(None),
            }
        }
    }

    // How the scan ended, and its view, where it ended with the read of this segment.
    fn end<const C: usize, const H: usize, const G: usize>(
        &self,
        alloc: Global,
        segment: &Segment<C, H, G>,
    ) -> Result<Option<(ScanEnd, Option<Lent>)>, AllocError>
        ensures { IfOk result (λ e. option_map ended_of e ≡ end_by (seg_of segment.now)
            (act_of self.now) self.now.scan.scan.next) }
    {
        match self.scan.next() {
            Next::Direct => Ok(Some((ScanEnd::Direct, Some(self.direct(alloc)?)))),
            Next::Lent(from) => Ok(Some((
                ScanEnd::Lent { from },
                copied_view(alloc, &segment.view)?,
            ))),
            Next::GaveUp { .. } => Ok(Some((ScanEnd::GaveUp, None))),
            _ => Ok(None),
        }
    }

    // The view that this try has read.
    fn direct(&self, alloc: Global) -> Result<Lent, AllocError>
        ensures { IfOk result (λ l. lent_of l ≡ record {
          vector = take self.now.scan.scan.n self.now.scan.scan.opened;
          totals = self.now.totals.items;
        }) }
    {
        Ok(Lent {
            vector: copied(alloc, self.scan.opened())?,
            totals: copied(alloc, self.totals.as_slice())?,
        })
    }

    // The answer of a scan that ended so.
    fn answer(
        &self,
        alloc: Global,
        at: usize,
        who: usize,
        how: ScanEnd,
        view: &Option<Lent>,
    ) -> Result<Answer, AllocError>
        requires { view_of how (or_blank (option_map lent_of view.now)) ≡ option_map lent_of view.now }
        ensures { IfOk result (λ x. answered_of x ≡ record {
          actor = who;
          begin = self.now.begin;
          end = at;
          tries = self.now.scan.scan.tries;
          how = how;
          view = option_map lent_of view.now;
        }) }
    {
        let Lent { vector, totals } = view_or_blank(alloc, view)?;
        Ok(Answer {
            actor: who,
            begin: self.begin,
            end: at,
            tries: self.scan.tries(),
            how,
            vector,
            totals,
        })
    }
}
