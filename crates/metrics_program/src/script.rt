//! Scripts are run.
ghost use Rattle.std.specs.Prelude.{◌≡◌, ℕ, List, [], ◌∷◌, ◌++◌, map, All, Err, IfErr, IfOk, OnErr, OnOk};
ghost use Rattle.std.specs.Io.KnownBytes.{Appends, IsAtEnd, Keeps};
ghost use Rattle.chain_law.specs.Settled.{AreMomentsOf, IsSettled};
ghost use Rattle.registry_state.specs.Journal.{scrapes};
ghost use Rattle.snapshot_scan.specs.Snapshots.{as_answer};
ghost use Rattle.metrics_program.specs.LineFault.{number_of};
ghost use Rattle.script_lines.specs.Language.{IsLine};
ghost use Rattle.script_lines.specs.Line.{saying_of};
ghost use Rattle.script_lines.specs.Lines.{unread};
ghost use Rattle.metrics_program.specs.Printed.{Begins};
ghost use Rattle.metrics_program.specs.ScriptLines.{settled_line, refused_line};
ghost use Rattle.metrics_program.specs.ScriptEnds.{status_of, IsEnd};
ghost use Rattle.snapshot_scan.specs.Readers.{IsReaderOf};
ghost use Rattle.snapshot_update.specs.Workers.{index_of, IsWorkerOf};
ghost use Rattle.metrics_program.specs.State.{IsReady, IsSame};
ghost use Rattle.metrics_program.specs.Refusals.{IsActRefusal};
ghost use Rattle.metrics_program.specs.Done.{IsDone};
ghost use Rattle.metrics_program.specs.Ran.{Known, IsLineStepped, StopsStep, HasRun, HasStopped};

use crate::board::{Board, Snapshot, Staff, new_board};
use crate::line_fault::LineFault;
use crate::parts::{Parts, counter_of, gauge_of, histogram_of};
use crate::refused::Refused;
use crate::sending::{Broken, send, tell_number};
use crate::state::{Count, State};
use metric_names::NoMemory;
use metric_registry::settle_state;
use registry_state::Journal;
use script_lines::{Line, Lines, Next, read_line};
use std::alloc::Global;
use std::io::{Read, Write};
use std::sync::Wait;
use std::thread::Threads;

/// The most lines of a script.
pub const MAX_LINES: u64 = 1_000_000;

/// How a script ended.
#[derive(Clone, Copy, PartialEq, Eq)]
pub enum ScriptEnd {
    /// After its last line.
    Done,
    /// At a line, from 1, that is refused with this number, which was written as `refused LINE NUMBER`.
    /// Line 0 is want of memory before the first line.
    Refused { line: u64, number: u8 },
    /// The reader or the writer failed.
    Broken,
}

impl ScriptEnd {
    /// The exit status of the program.
    pub fn status(self) -> u8
        ensures { result ≡ status_of self }
    {
        match self {
            ScriptEnd::Done => 0,
            ScriptEnd::Refused { .. } => 1,
            ScriptEnd::Broken => 3,
        }
    }
}

/// What ends a script before its last line.
#[derive(Clone, Copy)]
enum Stop {
    Refused(Refused),
    Broken,
}

impl From<Broken> for Stop {
    ghost use Rattle.std.specs.Prelude.{◌≡◌};
    ghost use Rattle.metrics_program.specs.declared.script.Stop.{Stop};

    ghost from_gives = { λ _ stop. stop ≡ Stop.Broken };

    fn from(_broken: Broken) -> Stop {
        Stop::Broken
    }
}

impl From<script_lines::Broken> for Stop {
    ghost use Rattle.std.specs.Prelude.{◌≡◌};
    ghost use Rattle.metrics_program.specs.declared.script.Stop.{Stop};

    ghost from_gives = { λ _ stop. stop ≡ Stop.Broken };

    fn from(_broken: script_lines::Broken) -> Stop {
        Stop::Broken
    }
}

fn stop_at(line: u64, fault: LineFault) -> Stop
    ensures { result ≡ Stop.Refused (record { line = line; fault = fault }) }
{
    Stop::Refused(Refused { line, fault })
}

/// Does what a line says that prints nothing and counts nothing. `number` is the line's own, from 1.
fn act(state: &mut State<'_>, number: u64, line: Line<'_>) -> Result<(), LineFault>
    requires line { (text : List ℕ) × IsLine text (saying_of line) }
    requires ready { IsReady state.old }
    ensures ready { OnOk result (IsReady state.new) }
    ensures done { OnOk result (IsDone state.old number (saying_of line.entry) state.new) }
    ensures refused { IfErr result (IsActRefusal state.old (saying_of line.entry)) }
    ensures unchanged { OnErr result (IsSame state.old state.new) }
{
    let alloc = state.alloc;
    match line {
        Line::Counter { name, labels, help } => {
            match counter_of(alloc, Parts { name, labels, help }) {
                Ok(desc) => state.register(desc),
                Err(fault) => Err(fault),
            }
        }
        Line::Gauge { name, labels, help } => match gauge_of(alloc, Parts { name, labels, help }) {
            Ok(desc) => state.register(desc),
            Err(fault) => Err(fault),
        },
        Line::Histogram {
            name,
            labels,
            bounds,
            help,
        } => match histogram_of(alloc, Parts { name, labels, help }, bounds) {
            Ok(desc) => state.register(desc),
            Err(fault) => Err(fault),
        },
        Line::Child { name, values } => state.child(name, values),
        Line::Count {
            what,
            worker,
            child,
            by,
            times,
        } => state.enqueue(
            number,
            Count {
                what,
                worker,
                child,
                by,
                times,
            },
        ),
        _ => Ok(()),
    }
}

/// Does what a line says, and writes what it prints. `number` is the line's own, from 1.
fn step<R: Threads + Wait, W: Write>(
    rt: &R,
    state: &mut State<'_>,
    writer: &mut W,
    number: u64,
    text: &str,
) -> Result<(), Stop>
    requires ready { IsReady state.old }
    ensures ready { OnOk result (IsReady state.new) }
    ensures stepped { OnOk result ((printed : List ℕ) × IsLineStepped state.old number text.now printed state.new
        × Appends (W.contents writer.old) (W.contents writer.new) printed) }
    ensures stopped { IfErr result
        (StopsStep state.old number text.now (W.contents writer.old) (W.contents writer.new) state.new) }
{
    let Some(line) = read_line(text) else {
        return Err(stop_at(number, LineFault::BadLine));
    };
    match line {
        Line::Go => match state.go(rt, number) {
            Ok(()) => Ok(()),
            Err(refused) => Err(Stop::Refused(refused)),
        },
        Line::Scrape => match state.scrape() {
            Ok(text) => Ok(send(writer, &text)?),
            Err(fault) => Err(stop_at(number, fault)),
        },
        Line::Settle => {
            state.settle();
            Ok(tell_settled(writer, state.settled.vector())?)
        }
        Line::Window { size } => match state.set_window(size) {
            Ok(kept) => Ok(tell_number(writer, b"kept ", kept as u64, b"\n")?),
            Err(fault) => Err(stop_at(number, fault)),
        },
        line => match act(state, number, line) {
            Ok(()) => Ok(()),
            Err(fault) => Err(stop_at(number, fault)),
        },
    }
}

/// Reads the lines and does what they say, up to the first that is refused.
fn run_lines<T: Threads + Wait, R: Read + Drop, W: Write>(
    rt: &T,
    state: &mut State<'_>,
    lines: &mut Lines<R>,
    writer: &mut W,
) -> Result<(), Stop>
    requires ready { IsReady state.old }
    ensures ready { OnOk result (IsReady state.new) }
    ensures ran { OnOk result ((texts : List (List ℕ)) × (left : Known) × HasRun state.old (unread R.remaining lines.old)
        (W.contents writer.old) texts state.new left (W.contents writer.new)
        × Keeps left (unread R.remaining lines.new)) }
    ensures ended { OnOk result (IsAtEnd (unread R.remaining lines.new)) }
    ensures stopped { IfErr result (HasStopped state.old (unread R.remaining lines.old) (W.contents writer.old) state.new
        (unread R.remaining lines.new) (W.contents writer.new)) }
{
    for done in 0..MAX_LINES {
        match lines.next()? {
            Next::End => return Ok(()),
            Next::TooLong => return Err(stop_at(done + 1, LineFault::BadLine)),
            Next::Line => match std::str::from_utf8(lines.bytes()) {
                Ok(text) => step(rt, state, writer, done + 1, text)?,
                Err(_) => return Err(stop_at(done + 1, LineFault::BadLine)),
            },
        }
    }
    match lines.next()? {
        Next::End => Ok(()),
        _ => Err(stop_at(MAX_LINES + 1, LineFault::BadLine)),
    }
}

fn tell_settled<W: Write>(writer: &mut W, vector: &[u64]) -> Result<(), Broken>
    ensures told { OnOk result (Appends (W.contents writer.old) (W.contents writer.new) (settled_line vector.now)) }
    ensures front { OnErr result (Begins (W.contents writer.old) (W.contents writer.new) (settled_line vector.now)) }
{
    send(writer, b"settled")?;
    for number in vector {
        tell_number(writer, b" ", *number, b"")?;
    }
    send(writer, b"\n")
}

fn tell_refused<W: Write>(writer: &mut W, refused: Refused) -> Result<ScriptEnd, Broken>
    ensures end { IfOk result (λ end. end ≡ ScriptEnd.Refused refused.line (number_of refused.fault)) }
    ensures told { OnOk result
        (Appends (W.contents writer.old) (W.contents writer.new) (refused_line refused.line (number_of refused.fault))) }
    ensures front { OnErr result
        (Begins (W.contents writer.old) (W.contents writer.new) (refused_line refused.line (number_of refused.fault))) }
{
    let line = refused.line;
    let number = refused.fault.number();
    tell_number(writer, b"refused ", line, b" ")?;
    tell_number(writer, b"", u64::from(number), b"\n")?;
    Ok(ScriptEnd::Refused { line, number })
}

/// Tells a refusal, and lets all that was written go.
fn ended<W: Write>(writer: &mut W, ran: Result<(), Stop>) -> ScriptEnd
    ensures { IsEnd ran (W.contents writer.old) (W.contents writer.new) result }
{
    let end = match ran {
        Ok(()) => Ok(ScriptEnd::Done),
        Err(Stop::Refused(refused)) => tell_refused(writer, refused),
        Err(Stop::Broken) => Err(Broken),
    };
    match (end, writer.flush()) {
        (Ok(end), Ok(())) => end,
        _ => ScriptEnd::Broken,
    }
}

/// Tells want of memory before the first line.
pub fn refuse_all<W: Write>(writer: &mut W) -> ScriptEnd
    ensures { IsEnd (Err (Stop.Refused (record { line = 0; fault = LineFault.NoMemory }))) (W.contents writer.old)
        (W.contents writer.new) result }
{
    ended(writer, Err(stop_at(0, LineFault::NoMemory)))
}

/// The end of a script that ran to its last line: what its registry notes, and exact totals of all that its workers have counted.
/// The scrapes that are kept, and these totals after them, are moments of the one history of what these workers published.
fn end(state: State<'_>) -> (Journal<4, 64, 8, 16>, Snapshot)
    requires { IsReady state }
    ensures journal { result.0 ≡ state.entry.registry.journal }
    ensures moments { AreMomentsOf state.entry.workers.items (scrapes result.0 ++ as_answer result.1 ∷ []) }
    ensures totals { IsSettled state.entry.workers.items result.1 }
{
    let State {
        board,
        registry,
        mut workers,
        mut settled,
        ..
    } = state;
    let Ok(journal) = settle_state(registry, board, &mut workers, &mut settled) else {
        unreachable!()
    };
    (journal, settled)
}

/// Runs a script over a board on which nothing was counted.
fn run_over<T: Threads + Wait, R: Read + Drop, W: Write>(
    rt: &T,
    alloc: Global,
    board: &Board,
    staff: Staff,
    reader: R,
    writer: &mut W,
) -> Result<(), Stop>
    requires workers { All (IsWorkerOf board.now) staff.workers.items }
    requires all { map index_of staff.workers.items ≡ 0 ∷ 1 ∷ 2 ∷ 3 ∷ [] }
    requires readers { IsReaderOf board.now staff.scraper × IsReaderOf board.now staff.settler }
{
    let Ok(mut lines) = Lines::new(alloc, reader) else {
        return Err(stop_at(0, LineFault::NoMemory));
    };
    let Ok(mut state) = State::new(alloc, board, staff) else {
        return Err(stop_at(0, LineFault::NoMemory));
    };
    run_lines(rt, &mut state, &mut lines, writer)?;
    let _settled = end(state);
    Ok(())
}

/// Runs a script: reads its lines, registers, counts, and writes the text of each scrape.
///
/// A line is at most 4,096 bytes of UTF-8 without its line feed, which the last may lack, and at most 1,000,000
/// lines are read. The lines are those of [`script_lines::Line`]. A refused line ends the script, after
/// `refused LINE NUMBER` was written.
pub fn run_script<T: Threads + Wait, R: Read + Drop, W: Write + Drop>(
    rt: &T,
    alloc: Global,
    reader: R,
    mut writer: W,
) -> ScriptEnd {
    let ran = match new_board(alloc) {
        Ok((board, staff)) => run_over(rt, alloc, &board, staff, reader, &mut writer),
        Err(NoMemory) => Err(stop_at(0, LineFault::NoMemory)),
    };
    ended(&mut writer, ran)
}
