//! The machine of events: n workers and four readers over plain segments, one event an atomic action.
ghost use Rattle.std.specs.Prelude.{◌≡◌, ◌<◌, ◌+◌, length, map, replicate, slice_get, OnOk, IfOk};
ghost use Rattle.ledger_core.specs.Ops.{width};
ghost use Rattle.ledger_core.specs.Limits.{AreWorkers};
ghost use Rattle.ledger_core.specs.Limits.{AreSlots};
ghost use Rattle.snapshot_core.specs.Turns.{ops_of};
ghost use Rattle.snapshot_core.specs.Machine.{act_of, seg_of, world_of, idle_of, blank_of, start, accepts, begins, reads};
ghost use Rattle.snapshot_core.specs.Machine.{publishes_by, steps, happens, world_at};

use crate::actor::{Actor, Machine, Phase, Segment};
use crate::event::Event;
use crate::reading::place_of;
use crate::trace::Publish;
use crate::words::{apply, copied};
use ledger_core::{Op, Row};
use std::alloc::{AllocError, Global};

/// The operations that the event `at` begins.
fn ops_at(events: &[Event], at: usize) -> &[Op]
    ensures { result.now ≡ ops_of (slice_get events.now at) }
{
    match events.get(at) {
        Some(Event::Begin { ops, .. }) => ops.as_slice(),
        _ => &[],
    }
}

fn new_segments<const C: usize, const H: usize, const G: usize>(
    alloc: Global,
    n: usize,
) -> Result<Vec<Segment<C, H, G>>, AllocError>
    requires { AreSlots C H G }
    ensures { IfOk result (λ v. map seg_of v.items ≡ replicate n (blank_of (width C H G))) }
{
    let mut segments = Vec::new(alloc);
    for _k in 0..n {
        segments.push(Segment {
            number: 0,
            row: Row::new(),
            view: None,
        })?;
    }
    Ok(segments)
}

fn new_actors<const C: usize, const H: usize, const G: usize>(
    alloc: Global,
    n: usize,
    count: usize,
) -> Result<Vec<Actor>, AllocError>
    requires workers { AreWorkers n }
    requires geometry { AreSlots C H G }
    ensures { IfOk result (λ v. map act_of v.items ≡ replicate count (idle_of (width C H G) n)) }
{
    let mut actors = Vec::new(alloc);
    for _k in 0..count {
        actors.push(Actor::idle::<C, H, G>(alloc, n)?)?;
    }
    Ok(actors)
}

impl<const C: usize, const H: usize, const G: usize> Machine<C, H, G> {
    /// Nothing has happened.
    fn new(alloc: Global, n: usize) -> Result<Machine<C, H, G>, AllocError>
        requires workers { AreWorkers n }
        requires geometry { AreSlots C H G }
        ensures same { IfOk result (λ m. m.n ≡ n) }
        ensures world { IfOk result (λ m. world_of m ≡ start n (width C H G)) }
    {
        Ok(Machine {
            n,
            segments: new_segments::<C, H, G>(alloc, n)?,
            actors: new_actors::<C, H, G>(alloc, n, n + 4)?,
            publishes: Vec::new(alloc),
            answers: Vec::new(alloc),
        })
    }

    /// The event `at` happens.
    fn happen(
        &mut self,
        alloc: Global,
        events: &[Event],
        at: usize,
        event: &Event,
    ) -> Result<(), AllocError>
        requires workers { AreWorkers self.old.n }
        requires geometry { AreSlots C H G }
        ensures same { self.new.n ≡ self.old.n }
        ensures world { OnOk result (world_of self.new ≡ happens C H G self.old.n events.now (world_of self.old) at event.now) }
    {
        match event {
            Event::Begin { actor, ops } => {
                self.begin(at, *actor, ops.as_slice());
                Ok(())
            }
            Event::Step { actor } => self.step(alloc, events, at, *actor, false),
            Event::Torn { actor } => self.step(alloc, events, at, *actor, true),
        }
    }

    // An actor at rest begins, where it may.
    fn begin(&mut self, at: usize, who: usize, ops: &[Op])
        requires workers { AreWorkers self.old.n }
        requires geometry { AreSlots C H G }
        ensures same { self.new.n ≡ self.old.n }
        ensures world { world_of self.new ≡ begins C H G self.old.n (world_of self.old) at who ops.now
            (slice_get (world_of self.old).actors who) }
    {
        if who < self.actors.len() {
            if let Phase::Rest = self.actors[who].phase {
                if self.accepts(who, ops) {
                    let n = self.n;
                    self.actors[who].start(n, at);
                }
            }
        }
    }

    // Whether a worker's row accepts the operations and its number is not the greatest, or a reader has none.
    fn accepts(&self, who: usize, ops: &[Op]) -> bool
        requires { AreSlots C H G }
        ensures { result ≡ accepts C H G self.now.n ops.now (slice_get (world_of self.now).segments who) }
    {
        if who < self.segments.len() {
            let segment = &self.segments[who];
            let mut row = segment.row.copy();
            segment.number < u64::MAX && apply(&mut row, ops)
        } else {
            ops.is_empty()
        }
    }

    // The actor's scan reads on, or a worker whose scan is over publishes.
    fn step(
        &mut self,
        alloc: Global,
        events: &[Event],
        at: usize,
        who: usize,
        torn: bool,
    ) -> Result<(), AllocError>
        requires { AreSlots C H G }
        ensures same { self.new.n ≡ self.old.n }
        ensures world { OnOk result (world_of self.new ≡ steps C H G self.old.n events.now (world_of self.old) at who torn
            (slice_get (world_of self.old).actors who)) }
    {
        if who >= self.actors.len() {
            return Ok(());
        }
        match self.actors[who].phase {
            Phase::Rest => Ok(()),
            Phase::Scan => self.read(alloc, at, who, torn),
            Phase::Ready => {
                if torn {
                    return Ok(());
                }
                let begin = self.actors[who].begin;
                self.publish(alloc, at, who, ops_at(events, begin))
            }
        }
    }

    // The next read of the actor's scan, and its end where it ends.
    fn read(&mut self, alloc: Global, at: usize, who: usize, torn: bool) -> Result<(), AllocError>
        requires known { who < length self.old.actors.items }
        requires geometry { AreSlots C H G }
        ensures same { self.new.n ≡ self.old.n }
        ensures world { OnOk result (world_of self.new ≡ reads C H G self.old.n (world_of self.old) at who torn
            (slice_get (world_of self.old).actors who)) }
    {
        let Some(place) = place_of(self.actors[who].scan.next()) else {
            return Ok(());
        };
        if place >= self.segments.len() {
            return Ok(());
        }
        let is_worker = who < self.segments.len();
        let actor = &mut self.actors[who];
        actor.read_on(
            alloc,
            &self.segments[place],
            torn,
            at,
            who,
            is_worker,
            &mut self.answers,
        )
    }

    // The worker publishes the operations and the view of its scan, where its row accepts them.
    fn publish(
        &mut self,
        alloc: Global,
        at: usize,
        who: usize,
        ops: &[Op],
    ) -> Result<(), AllocError>
        requires known { who < length self.old.actors.items }
        requires geometry { AreSlots C H G }
        ensures same { self.new.n ≡ self.old.n }
        ensures world { OnOk result (world_of self.new ≡ publishes_by C H G self.old.n (world_of self.old) at who ops.now
            (slice_get (world_of self.old).actors who)) }
    {
        if who >= self.segments.len() {
            return Ok(());
        }
        let segment = &self.segments[who];
        let number = segment.number;
        let mut row = segment.row.copy();
        if !apply(&mut row, ops) {
            return Ok(());
        }
        if number == u64::MAX {
            return Ok(());
        }
        let ops = copied(alloc, ops)?;
        self.publishes.push(Publish {
            at,
            worker: who,
            ops,
        })?;
        let actor = &mut self.actors[who];
        actor.phase = Phase::Rest;
        let view = actor.view.take();
        self.segments[who] = Segment {
            number: number + 1,
            row,
            view,
        };
        Ok(())
    }
}

/// Runs the events.
pub(crate) fn run_machine<const C: usize, const H: usize, const G: usize>(
    alloc: Global,
    n: usize,
    events: &[Event],
) -> Result<Machine<C, H, G>, AllocError>
    requires workers { AreWorkers n }
    requires geometry { AreSlots C H G }
    ensures { IfOk result (λ m. world_of m ≡ world_at C H G n events.now (length events.now)) }
{
    let mut machine = Machine::<C, H, G>::new(alloc, n)?;
    for (at, event) in events.iter().enumerate() {
        machine.happen(alloc, events, at, event)?;
    }
    Ok(machine)
}
