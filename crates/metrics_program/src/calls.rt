//! What the lines of a script do.
ghost use Rattle.std.specs.Prelude.{◌≡◌, ◌≢◌, true, ◌<◌, ℕ, List, [], ◌∷◌, map, All, IfErr, IfOk, OnErr, OnOk};
ghost use Rattle.snapshot_scan.specs.Readers.{IsReaderOf};
ghost use Rattle.snapshot_update.specs.Workers.{index_of, IsWorkerOf};
ghost use Rattle.worker_pool.specs.Ends.{IsPoolFault};
ghost use Rattle.script_lines.specs.Language.{AreValues};
ghost use Rattle.metrics_program.specs.LineFault.{number_of};
ghost use Rattle.metrics_program.specs.Waiting.{lists_in};
ghost use Rattle.metrics_program.specs.State.{IsReady, IsFresh, IsSame, IsRegistered, IsNumbered, IsQueued, IsGone, IsScraped};
ghost use Rattle.metrics_program.specs.State.{IsSettled, IsWindowed};
ghost use Rattle.metrics_program.specs.Refusals.{IsRegisterRefusal, IsChildRefusal, IsQueueRefusal, IsGoRefusal, IsLost};
ghost use Rattle.metrics_program.specs.Refusals.{IsScrapeRefusal, IsWindowRefusal};

use crate::board::{Board, Registry, Snapshot, Staff};
use crate::children::has_number;
use crate::line_fault::LineFault;
use crate::parts::read_values;
use crate::queue::Queue;
use crate::queued_job::QueuedJob;
use crate::refused::Refused;
use crate::state::{Count, State};
use chain_law::settle;
use expo_text::render;
use metric_desc::Desc;
use metric_names::NoMemory;
use registry_state::BadWindow;
use snapshot_scan::Scanner;
use std::alloc::Global;
use std::mem;
use std::sync::Wait;
use std::thread::Threads;
use worker_pool::{PoolFault, run_freely};

/// How many scrapes a script's registry keeps at first.
const WINDOW: usize = 64;

/// The line and the fault by which a `go` is refused: the line of the job that was refused, or its own.
fn told(line: u64, fault: PoolFault) -> Refused
    ensures { IsGoRefusal line fault result }
{
    let line = match fault {
        PoolFault::Refused { line, .. } => line,
        _ => line,
    };
    Refused {
        line,
        fault: LineFault::Pool(fault),
    }
}

impl<'a> State<'a> {
    /// Nothing yet.
    pub(crate) fn new(alloc: Global, board: &'a Board, staff: Staff) -> Result<State<'a>, NoMemory>
        requires workers { All (IsWorkerOf board.now) staff.workers.items }
        requires all { map index_of staff.workers.items ≡ 0 ∷ 1 ∷ 2 ∷ 3 ∷ [] }
        requires readers { IsReaderOf board.now staff.scraper × IsReaderOf board.now staff.settler }
        ensures ready { IfOk result IsReady }
        ensures fresh { IfOk result (IsFresh board.now staff.workers.items) }
    {
        let Staff {
            workers,
            scraper,
            settler,
        } = staff;
        let settled = Snapshot::new(alloc)?;
        let queue = Queue::new(alloc)?;
        match Registry::new(alloc, Scanner::new(board, scraper), board.id(), WINDOW) {
            Ok(registry) => Ok(State {
                alloc,
                board,
                registry,
                workers,
                settler,
                settled,
                queue,
            }),
            Err(_) => Err(NoMemory),
        }
    }

    /// Registers the family that a line says.
    pub(crate) fn register(&mut self, desc: Desc) -> Result<(), LineFault>
        ensures registered { OnOk result (IsRegistered desc self.old self.new) }
        ensures fault { IfErr result (IsRegisterRefusal self.old desc) }
        ensures unchanged { OnErr result (IsSame self.old self.new) }
    {
        match self.registry.register(desc) {
            Ok(_) => Ok(()),
            Err(fault) => Err(LineFault::Register(fault)),
        }
    }

    /// Makes a child, or finds it. A new one gets the next number.
    pub(crate) fn child(&mut self, name: &str, values: &str) -> Result<(), LineFault>
        requires { (words : List (List ℕ)) × AreValues values.now words }
        ensures numbered { OnOk result (IsNumbered name.now values.now self.old self.new) }
        ensures fault { IfErr result (IsChildRefusal self.old name.now values.now) }
        ensures unchanged { OnErr result (IsSame self.old self.new) }
    {
        let values = match read_values(self.alloc, values) {
            Ok(values) => values,
            Err(fault) => return Err(fault),
        };
        let Some(family) = self.registry.family(name) else {
            return Err(LineFault::NoSuchFamily);
        };
        if self.queue.reserve_child().is_err() {
            return Err(LineFault::NoMemory);
        }
        let handle = match self.registry.child(family, &values) {
            Ok(handle) => handle,
            Err(fault) => return Err(LineFault::Child(fault)),
        };
        if has_number(&self.queue.children, &handle) {
            return Ok(());
        }
        // The room was made above.
        self.queue.add_child(handle);
        Ok(())
    }

    /// Queues what a line counts, as often as it says.
    pub(crate) fn enqueue(&mut self, line: u64, count: Count) -> Result<(), LineFault>
        requires worker { count.worker < 4 }
        requires ready { IsReady self.old }
        ensures ready { IsReady self.new }
        ensures queued { OnOk result (IsQueued self.old line count self.new) }
        ensures fault { IfErr result (IsQueueRefusal self.old count) }
        ensures unchanged { OnErr result (IsSame self.old self.new) }
    {
        let Ok(child) = usize::try_from(count.child) else {
            return Err(LineFault::NoSuchChild);
        };
        let entry = QueuedJob {
            line,
            child,
            by: count.by,
            what: count.what,
        };
        if entry.job(&self.queue.children).is_none() {
            return Err(LineFault::NoSuchChild);
        }
        match self.queue.add(count.worker, &entry, count.times) {
            Ok(()) => Ok(()),
            Err(NoMemory) => Err(LineFault::NoMemory),
        }
    }

    /// Runs all jobs that wait, each worker's on a thread of its own, and drops them. `line` is that of the `go`.
    pub(crate) fn go<R: Threads + Wait>(&mut self, rt: &R, line: u64) -> Result<(), Refused>
        requires ready { IsReady self.old }
        ensures ready { OnOk result (IsReady self.new) }
        ensures gone { OnOk result (IsGone self.old self.new) }
        ensures fault { IfErr result (λ refused. (fault : PoolFault) × IsGoRefusal line fault refused
            × IsPoolFault true self.old.board.now (lists_in self.old.queue) self.old.workers.items fault) }
        ensures opened { IfErr result (λ refused. number_of refused.fault ≢ 29) }
        ensures lost { OnErr result (IsLost self.old self.new) }
    {
        let workers = mem::replace(&mut self.workers, Vec::new(self.alloc));
        match run_freely(rt, self.alloc, self.board, workers, &self.queue) {
            Ok(workers) => {
                self.workers = workers;
                self.queue.clear();
                Ok(())
            }
            Err(fault) => Err(told(line, fault)),
        }
    }

    /// Makes a scrape, and gives its text.
    pub(crate) fn scrape(&mut self) -> Result<Vec<u8>, LineFault>
        requires ready { IsReady self.old }
        ensures ready { OnOk result (IsReady self.new) }
        ensures scraped { IfOk result (λ bytes. IsScraped self.old bytes.items self.new) }
        ensures fault { IfErr result (λ fault. IsScrapeRefusal self.old fault self.new) }
    {
        let scrape = match self.registry.scrape() {
            Ok(scrape) => scrape,
            Err(fault) => return Err(LineFault::Scrape(fault)),
        };
        Ok(render(&scrape)?)
    }

    /// Looks how often each worker has counted, and keeps that in `settled`.
    pub(crate) fn settle(&mut self)
        requires ready { IsReady self.old }
        ensures ready { IsReady self.new }
        ensures settled { IsSettled self.old self.new }
    {
        let Ok(()) = settle(
            self.board,
            &mut self.settler,
            &mut self.workers,
            &mut self.settled,
        ) else {
            unreachable!()
        };
        // A look at the numbers tells the proof how many there are.
        let _numbers = self.settled.vector();
    }

    /// Keeps so many scrapes from now on, and tells how many are kept.
    pub(crate) fn set_window(&mut self, size: u64) -> Result<usize, LineFault>
        ensures windowed { IfOk result (λ kept. IsWindowed size kept self.old self.new) }
        ensures fault { IfErr result (IsWindowRefusal size) }
        ensures unchanged { OnErr result (IsSame self.old self.new) }
    {
        let Ok(window) = usize::try_from(size) else {
            return Err(LineFault::Window(BadWindow));
        };
        match self.registry.set_window(window) {
            Ok(kept) => Ok(kept),
            Err(fault) => Err(LineFault::Window(fault)),
        }
    }
}
