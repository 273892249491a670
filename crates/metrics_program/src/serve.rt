//! The server.
ghost use Rattle.std.specs.Prelude.{◌≡◌, [], ◌∷◌, ◌++◌, codes, decimal, map, replicate, ◌<◌, All, OnErr, OnOk, IfOk, IfSome};
ghost use Rattle.std.specs.Prelude.{IsSome};
ghost use Rattle.std.specs.Io.KnownBytes.{Appends};
ghost use Rattle.register_rule.specs.Seats.{board_id};
ghost use Rattle.snapshot_scan.specs.Readers.{IsReaderOf};
ghost use Rattle.snapshot_update.specs.Workers.{index_of, lists_of, IsWorkerOf};
ghost use Rattle.registry_state.specs.Journal.{changes};
ghost use Rattle.metric_registry.specs.Naming.{BeginsWith, IsNamed, IsOf};
ghost use Rattle.metrics_program.specs.Counted.{AreNewWorkers, AreReplies};
ghost use Rattle.metrics_program.specs.Services.{IsService};
ghost use Rattle.metrics_program.specs.Printed.{Begins, Prints, listening_line, status_of};

use crate::board::{Board, Reader, Registry, Snapshot, Staff, Worker, new_board};
use crate::metrics::Metrics;
use crate::sending::{Broken, send, tell_number};
use crate::threads::{Four, Queues, Shared, serve_in_threads};
use metric_names::NoMemory;
use metric_registry::{Named, RegistryOf};
use registry_state::Journal;
use scrape_server::{AskedAgain, FromRegistry};
use snapshot_scan::Scanner;
use std::alloc::Global;
use std::io::Write;
use std::marker::Brand;
use std::net::TcpListener;
use std::sync::Wait;
use std::thread::Threads;

/// How many scrapes the registry of a server keeps.
const WINDOW: usize = 64;

/// How a server ended.
#[derive(Clone, Copy, Debug, PartialEq, Eq)]
pub enum ServeEnd {
    /// After its last connection.
    Done,
    /// The listener or the writer failed, or a thread could not be started.
    Broken,
    /// There was no memory before the first connection, which was written as `refused 0 6`.
    NoMemory,
}

impl ServeEnd {
    /// The exit status of the program.
    pub fn status(self) -> u8
        ensures { result ≡ status_of self }
    {
        match self {
            ServeEnd::Done => 0,
            ServeEnd::Broken => 3,
            ServeEnd::NoMemory => 1,
        }
    }
}

/// What a server needs beside its board and its workers. All its memory is taken before the first connection.
#[derive(Drop)]
struct Service<'b> {
    registry: Registry<'b>,
    metrics: Metrics,
    queues: Queues,
    settled: Snapshot,
}

impl<'b> Service<'b> {
    /// A registry with the server's metrics, and empty queues. There is none for want of memory alone.
    fn new(alloc: Global, board: &'b Board, scraper: Reader) -> Option<Service<'b>>
        requires { IsReaderOf board.now scraper }
        ensures { IfSome result (λ service. IsService board.now service.registry service.metrics) }
    {
        let source = Scanner::new(board, scraper);
        let Ok(mut registry) = Registry::new(alloc, source, board.id(), WINDOW) else {
            return None;
        };
        let Ok(metrics) = Metrics::new(alloc, &mut registry) else {
            return None;
        };
        // A look into the journal tells the proof that it replays.
        let _ = registry.journal();
        Some(Service {
            registry,
            metrics,
            queues: Queues::new(alloc)?,
            settled: Snapshot::new(alloc).ok()?,
        })
    }
}

/// Writes a word, a number and a line feed, and lets them go. Where that fails, a beginning of them is written, and nothing else.
fn tell<W: Write>(writer: &mut W, word: &[u8], number: u64) -> Result<(), Broken>
    ensures told { OnOk result
        (Appends (W.contents writer.old) (W.contents writer.new) (word.now ++ decimal number ++ codes "\n")) }
    ensures front { OnErr result
        (Begins (W.contents writer.old) (W.contents writer.new) (word.now ++ decimal number ++ codes "\n")) }
{
    tell_number(writer, word, number, b"\n")?;
    writer.flush().map_err(|_| Broken)
}

/// Writes that there was no memory, and lets it go.
fn tell_no_memory<W: Write>(writer: &mut W) -> ServeEnd
    ensures { Prints (W.contents writer.old) (W.contents writer.new) result }
{
    match (send(writer, b"refused 0 6\n"), writer.flush()) {
        (Ok(()), Ok(())) => ServeEnd::NoMemory,
        _ => ServeEnd::Broken,
    }
}

/// The four workers of a new board, in their order.
fn to_four(board: &Board, mut workers: Vec<Worker>) -> Four
    requires of_board { All (IsWorkerOf board.now) workers.items }
    requires all { map index_of workers.items ≡ 0 ∷ 1 ∷ 2 ∷ 3 ∷ [] }
    requires new { map lists_of workers.items ≡ replicate 4 [] }
    ensures { AreNewWorkers board.now result }
{
    let (Some(d), Some(c), Some(b), Some(a)) = (
        workers.pop(),
        workers.pop(),
        workers.pop(),
        workers.pop(),
    ) else {
        unreachable!()
    };
    Four { a, b, c, d }
}

/// Answers so many connections, and tells how many replies were counted, by all workers together, and the journal of the registry
/// that was served. None where a thread could not be started or the listener has failed.
#[tactic(auto, using(crate::proofs::Counting::all_own))]
fn serve_counting<B: Named + Send, T: Threads + Wait + Sync>(
    rt: &T,
    board: &Board,
    workers: Four,
    service: Service<'_>,
    listener: &TcpListener,
    count: u64,
) -> Option<(u64, Journal<4, 64, 8, 16>)>
    requires new { AreNewWorkers board.now workers }
    requires service { IsService board.now service.registry service.metrics }
    requires some { IsSome B.board }
    requires named { IsNamed B.board board.now }
    requires of { IsOf B.board service.registry }
    requires begins { BeginsWith B.first service.registry.journal }
    requires first { B.first ≡ changes service.registry.journal }
    ensures { IfSome result (λ r. AreReplies board.now service.entry.metrics service.entry.registry workers r.1 r.0) }
{
    let Service {
        registry,
        metrics,
        queues,
        mut settled,
    } = service;
    let registry = RegistryOf::<B, 4, 64, 8, 16>::lock(registry);
    let shared = Shared {
        rt,
        board,
        metrics: &metrics,
    };
    let source = FromRegistry {
        rt,
        registry: &registry,
    };
    let sources = (
        AskedAgain { source },
        AskedAgain { source },
        AskedAgain { source },
        AskedAgain { source },
    );
    let Some(four) = serve_in_threads(shared, sources, workers, queues, listener, count) else {
        return None;
    };
    let mut workers = [four.a, four.b, four.c, four.d];
    let Ok(journal) = registry.settle(board, &mut workers, &mut settled) else {
        unreachable!()
    };
    Some((metrics.replies(&settled), journal))
}

/// Writes the line that tells the port of the listener, and lets it go.
fn tell_port<W: Write>(listener: &TcpListener, writer: &mut W) -> Result<u16, Broken>
    ensures told { IfOk result (λ p. (p < 65536) × Appends (W.contents writer.old) (W.contents writer.new) (listening_line p)) }
    ensures front { OnErr result (Prints (W.contents writer.old) (W.contents writer.new) ServeEnd.Broken) }
{
    let port = listener.local_addr().map_err(|_| Broken)?.port();
    tell(writer, b"listening ", u64::from(port))?;
    Ok(port)
}

/// Serves on a new board by who works on it, and writes what is printed.
fn serve_by<T: Threads + Wait + Sync, W: Write>(
    rt: &T,
    alloc: Global,
    board: &Board,
    staff: Staff,
    listener: &TcpListener,
    count: u64,
    writer: &mut W,
) -> ServeEnd
    requires id { board_id board.now ≡ 1 }
    requires of_board { All (IsWorkerOf board.now) staff.workers.items }
    requires all { map index_of staff.workers.items ≡ 0 ∷ 1 ∷ 2 ∷ 3 ∷ [] }
    requires new { map lists_of staff.workers.items ≡ replicate 4 [] }
    requires reader { IsReaderOf board.now staff.scraper }
    ensures { Prints (W.contents writer.old) (W.contents writer.new) result }
{
    let Staff {
        workers,
        scraper,
        ..
    } = staff;
    let four = to_four(board, workers);
    let Some(service) = Service::new(alloc, board, scraper) else {
        return tell_no_memory(writer);
    };
    let Ok(_port) = tell_port(listener, writer) else {
        return ServeEnd::Broken;
    };
    match serve_counting::<Brand, T>(rt, board, four, service, listener, count) {
        Some((replies, _journal)) => match tell(writer, b"served ", replies) {
            Ok(()) => ServeEnd::Done,
            Err(Broken) => ServeEnd::Broken,
        },
        None => ServeEnd::Broken,
    }
}

/// Accepts so many connections, and answers each by `serve_one`: the k-th, from 0, by thread k mod 4. It first writes `listening
/// P` with the port of the listener, and after the last connection `served K`, where K is how many replies were counted.
///
/// The board is that of a script. The server counts its own replies: `scrape_requests_total`, by their `code`, and
/// `scrape_reply_bytes`. A request that ends in 24, 25 or 26 is not counted, and does not end the server. Up to 200 connections
/// wait for each thread; where a thread has as many, no more are accepted until it gets on. There are no timeouts: a client that
/// sends nothing, or does not read, keeps its thread.
///
/// # Errors
///
/// [`ServeEnd::NoMemory`] comes before the first connection, after `refused 0 6` was written; later want of memory is that of a
/// scrape, which is replied as 503. [`ServeEnd::Broken`] where the listener or the writer fails, or a thread cannot be started;
/// then all threads have ended.
pub fn serve_on<T: Threads + Wait + Sync, W: Write>(
    rt: &T,
    alloc: Global,
    listener: TcpListener,
    count: u64,
    writer: &mut W,
) -> ServeEnd
    ensures { Prints (W.contents writer.old) (W.contents writer.new) result }
{
    match new_board(alloc) {
        Ok((board, staff)) => serve_by(rt, alloc, &board, staff, &listener, count, writer),
        Err(NoMemory) => tell_no_memory(writer),
    }
}
