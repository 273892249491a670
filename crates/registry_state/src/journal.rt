//! The journal of a registry.
ghost use Rattle.std.specs.Prelude.{◌≡◌, ◌+◌, ◌≤◌, [], ◌∷◌, ◌++◌, None, Some, length, IfErr, IfOk, MatchOption, OnErr, OnOk};
ghost use Rattle.register_rule.specs.declared.view.Answer.{Answer};
ghost use Rattle.segment_layout.specs.Layout.{IsGeometry};
ghost use Rattle.snapshot_scan.specs.Snapshots.{as_answer};
ghost use Rattle.snapshot_scan.specs.Sources.{Records};
ghost use Rattle.register_rule.specs.Members.{newest};
ghost use Rattle.registry_state.specs.Faults.{Leaves};
ghost use Rattle.registry_state.specs.Journal.{Changed, Scraped, scrapes, within};
ghost use Rattle.registry_state.specs.Merged.{change_of};

use crate::fault::ScrapeFault;
use crate::kept::Kept;
use crate::noted_change::NotedChange;
use metric_names::NoMemory;
use scrape_history::History;
use snapshot_scan::{Snapshot, Source};
use std::alloc::{AllocError, Global};
use std::marker::Model;

/// The journal: what was registered, what was made and what was scraped, in order. All changes are kept, and the newest
/// scrapes.
///
/// Contracts see it as the list of its entries.
#[derive(Drop)]
pub struct Journal<const N: usize, const C: usize, const H: usize, const G: usize> {
    // What was registered and made, each with how many scrapes came before it.
    notes: Vec<NotedChange>,
    // The scrapes that are kept.
    kept: History<N, C, H, G>,
    // Room for the source to scan into.
    scanned: Snapshot<N, C, H, G>,
}

impl<const N: usize, const C: usize, const H: usize, const G: usize> Model for Journal<N, C, H, G> {
    ghost use Rattle.std.specs.Prelude.{List, map, length};
    ghost use Rattle.segment_layout.specs.Layout.{IsGeometry};
    ghost use Rattle.registry_state.specs.Journal.{Entry};

    ghost Value = { List Entry };

    ghost use Rattle.registry_state.specs.Merged.{change_of};
    ghost use Rattle.registry_state.specs.Merged.{merged, AreInOrder};

    ghost view = { λ j. merged (map change_of j.notes.items) 0 j.kept.scrapes };

    ghost invariant = { λ j. IsGeometry N C H G × AreInOrder (length j.notes.items) 0 j.kept.scrapes };
}

impl<const N: usize, const C: usize, const H: usize, const G: usize> Journal<N, C, H, G> {
    /// An empty journal, with room for `window` scrapes.
    ///
    /// # Errors
    ///
    /// Refusal 6 for want of memory.
    pub(crate) fn new(alloc: Global, window: usize) -> Result<Journal<N, C, H, G>, AllocError>
        requires { IsGeometry N C H G }
        ensures { IfOk result (λ journal. journal ≡ []) }
    {
        let kept = History::new(alloc, window)?;
        let scanned = Snapshot::new(alloc)?;
        Ok(Journal {
            notes: Vec::new(alloc),
            kept,
            scanned,
        })
    }

    /// How many entries there are: changes and kept scrapes.
    pub fn len(&self) -> usize
        ensures { result ≡ length self.now }
    {
        self.notes.len() + self.kept.len()
    }

    /// Adds a change.
    ///
    /// # Errors
    ///
    /// 6 [`NoMemory`]: nothing has changed.
    pub(crate) fn note(&mut self, note: NotedChange) -> Result<(), NoMemory>
        ensures noted { OnOk result (self.new ≡ self.old ++ Changed (change_of note) ∷ []) }
        ensures unchanged { OnErr result (self.new ≡ self.old) }
    {
        self.notes.push(note)?;
        Ok(())
    }

    /// Scans the source and notes what it gave as a scrape: that is kept, and of those before it so many that they are `window`
    /// at most, the newest. It takes all its memory before it scans.
    ///
    /// # Errors
    ///
    /// 6 [`ScrapeFault::NoMemory`]: nothing was scanned. 14 [`ScrapeFault::Contended`]: the scan was given up. The
    /// journal is unchanged.
    pub(crate) fn note_scrape<S: Source<N, C, H, G>>(
        &mut self,
        source: &mut S,
        window: usize,
    ) -> Result<(), ScrapeFault>
        requires { 1 ≤ window }
        ensures scraped { OnOk result ((answer : Answer) × Records N C H G (S.recorded source.old) (S.recorded source.new) answer
            × S.gave source.old source.new answer × (self.new ≡ within window (self.old ++ Scraped answer ∷ []))) }
        ensures quit { OnOk result (S.quit source.new ≡ S.quit source.old) }
        ensures fault { IfErr result (Leaves N S.recorded S.quit S.gave_up source.old source.new) }
        ensures unchanged { OnErr result (self.new ≡ self.old) }
    {
        self.kept.make_room(window)?;
        if let Err(fault) = source.scan(&mut self.scanned) {
            return Err(ScrapeFault::Contended(fault));
        }
        let before = self.notes.len();
        self.kept.keep(&self.scanned, before, window);
        Ok(())
    }

    /// Drops the oldest scrapes where they are more than `window`.
    pub(crate) fn trim(&mut self, window: usize)
        ensures { self.new ≡ within window self.old }
    {
        self.kept.drop_oldest(window);
    }

    /// The newest scrape that is kept.
    pub(crate) fn newest(&self) -> Option<&Snapshot<N, C, H, G>>
        ensures { MatchOption result (newest (scrapes self.now) ≡ None)
            (λ snapshot. newest (scrapes self.now) ≡ Some (as_answer snapshot.now)) }
    {
        self.kept.newest()
    }

    /// The scrapes that are kept, from the oldest to the newest.
    pub fn kept(&self) -> Kept<'_, N, C, H, G>
        ensures { result ≡ scrapes self.now }
    {
        Kept {
            scrapes: &self.kept,
        }
    }
}
