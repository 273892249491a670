//! The threads of the server: each answers the connections of its queue, in order.
ghost use Rattle.std.specs.Prelude.{◌≡◌, ℕ, IfSome};
ghost use Rattle.snapshot_update.specs.Workers.{IsWorkerOf};
ghost use Rattle.metrics_program.specs.Counted.{AreAnswered, AreNewWorkers, HasCounted, HaveCounted};

use crate::answer::{Answering, Answers};
use crate::board::{Board, Worker};
use crate::metrics::Metrics;
use crossbeam_channel::{Receiver, Sender, bounded};
use scrape_http::ScrapeFrom;
use scrape_server::AskedAgain;
use std::alloc::{AllocError, Global};
use std::net::{TcpListener, TcpStream};
use std::snapshot::Snapshot;
use std::sync::Wait;
use std::thread;
use std::thread::{Promise, PromisedHandle, Scope, Threads};

/// How many connections may wait for each thread.
const WAITING: usize = 200;

/// Where the connections of a thread are put.
type Sends = Sender<TcpStream, Global>;

/// Where a thread takes them.
type Connections = Receiver<TcpStream, Global>;

/// What all threads share.
pub(crate) struct Shared<'s, T: Wait> {
    pub(crate) rt: &'s T,
    pub(crate) board: &'s Board,
    pub(crate) metrics: &'s Metrics,
}

impl<T: Wait> Clone for Shared<'_, T> {
    fn clone(&self) -> Result<Self, AllocError> {
        Ok(*self)
    }
}

impl<T: Wait> Copy for Shared<'_, T> {}

/// The four workers, in their order.
#[derive(Drop)]
pub(crate) struct Four {
    pub(crate) a: Worker,
    pub(crate) b: Worker,
    pub(crate) c: Worker,
    pub(crate) d: Worker,
}

/// Four queues.
#[derive(Drop)]
pub(crate) struct Queues {
    sends: [Sends; 4],
    connections: (Connections, Connections, Connections, Connections),
}

impl Queues {
    /// Empty ones. All their memory is taken here.
    pub(crate) fn new(alloc: Global) -> Option<Queues> {
        let (to_a, of_a) = bounded(alloc, WAITING).ok()?;
        let (to_b, of_b) = bounded(alloc, WAITING).ok()?;
        let (to_c, of_c) = bounded(alloc, WAITING).ok()?;
        let (to_d, of_d) = bounded(alloc, WAITING).ok()?;
        Some(Queues {
            sends: [to_a, to_b, to_c, to_d],
            connections: (of_a, of_b, of_c, of_d),
        })
    }
}

/// That a thread hands its worker back, which has counted replies and nothing else.
#[derive(Drop)]
pub(crate) struct Counts<'a> {
    board: &'a Board,
    metrics: &'a Metrics,
    was: Snapshot<Worker>,
}

impl<'a> Promise<Worker> for Counts<'a> {
    ghost use Rattle.metrics_program.specs.Counted.{HasCounted};

    ghost kept_by = { λ p w. HasCounted p.board.now p.metrics.now p.was.value w };
}

/// Answers connections until no more come. Whoever it is that answers them, nothing else is done to it.
fn answer_all<T: Wait, A: Answers>(rt: &T, at: &mut A, connections: Connections)
    requires { A.ready at.old }
    ensures { (many : ℕ) × AreAnswered A.answered many at.old at.new }
{
    for stream in connections.iter(rt) {
        at.answer(&stream);
    }
}

/// Answers connections until no more come, and hands the worker back.
fn work<T: Wait, S: ScrapeFrom + Drop>(
    rt: &T,
    board: &Board,
    metrics: &Metrics,
    source: S,
    worker: Worker,
    connections: Connections,
) -> Worker
    requires of_board { IsWorkerOf board.now worker }
    ensures { HasCounted board.now metrics.now worker result }
{
    let mut at = Answering {
        board,
        metrics,
        source,
        worker,
    };
    answer_all(rt, &mut at, connections);
    let Answering { worker, .. } = at;
    worker
}

/// Starts a thread with this worker, if there is one.
fn start<'s, E: 's, T: Threads + Wait + Sync, S: ScrapeFrom + Send + Drop + 's>(
    scope: &'s Scope<'s, E>,
    shared: Shared<'s, T>,
    source: S,
    worker: Worker,
    connections: Connections,
) -> Option<PromisedHandle<Worker, Counts<'s>>>
    requires of_board { IsWorkerOf shared.board.now worker }
    ensures { IfSome result (λ h. (h.promise.board.now ≡ shared.entry.board.now)
        × (h.promise.metrics.now ≡ shared.entry.metrics.now) × (h.promise.was.value ≡ worker)) }
{
    let Shared { rt, board, metrics } = shared;
    let promise = Counts {
        board,
        metrics,
        was: Snapshot::of(&worker),
    };
    scope
        .spawn_with(
            promise,
            move || -> Worker
                requires { IsWorkerOf board.now worker }
                ensures { HasCounted board.entry.now metrics.entry.now worker result }
            { work(rt, board, metrics, source, worker, connections) },
        )
        .ok()
}

/// Accepts so many connections, and puts the k-th, from 0, into the queue k mod 4, where it waits for room. None where the
/// listener fails.
fn accept_all(
    rt: &impl Wait,
    listener: &TcpListener,
    count: u64,
    queues: [Sends; 4],
) -> Option<()> {
    for number in 0..count {
        let (stream, _peer) = listener.accept().ok()?;
        queues[(number % 4) as usize].send(rt, stream).ok()?;
    }
    Some(())
}

/// Starts a thread for each worker, has them answer so many connections, and joins them. None where a thread could not be started
/// or the listener has failed: what was answered by then is counted.
fn serve_all<'s, E: 's, T: Threads + Wait + Sync, S: ScrapeFrom + Send + Drop + 's>(
    scope: &'s Scope<'s, E>,
    shared: Shared<'s, T>,
    sources: (S, S, S, S),
    workers: Four,
    queues: Queues,
    listener: &TcpListener,
    count: u64,
) -> Option<Four>
    requires { AreNewWorkers shared.board.now workers }
    ensures { IfSome result (λ four. HaveCounted shared.entry.board.now shared.entry.metrics.now workers four) }
{
    let (from_a, from_b, from_c, from_d) = sources;
    let Four { a, b, c, d } = workers;
    let Queues { sends, connections } = queues;
    let (of_a, of_b, of_c, of_d) = connections;
    let rt = shared.rt;
    // Where a thread is missing, the queues end, and so do the other threads.
    let a = start(scope, shared, from_a, a, of_a)?;
    let b = start(scope, shared, from_b, b, of_b)?;
    let c = start(scope, shared, from_c, c, of_c)?;
    let d = start(scope, shared, from_d, d, of_d)?;
    let accepted = accept_all(rt, listener, count, sends);
    let four = Four {
        a: a.join(rt),
        b: b.join(rt),
        c: c.join(rt),
        d: d.join(rt),
    };
    accepted?;
    Some(four)
}

/// Has four threads answer so many connections, which end before it returns, each from a source that is asked again where a scan
/// was given up. None where a thread could not be started or the listener has failed: what was answered by then is counted.
pub(crate) fn serve_in_threads<T: Threads + Wait + Sync, S: ScrapeFrom + Send + Drop>(
    shared: Shared<'_, T>,
    sources: (AskedAgain<S>, AskedAgain<S>, AskedAgain<S>, AskedAgain<S>),
    workers: Four,
    queues: Queues,
    listener: &TcpListener,
    count: u64,
) -> Option<Four>
    requires { AreNewWorkers shared.board.now workers }
    ensures { IfSome result (λ four. HaveCounted shared.entry.board.now shared.entry.metrics.now workers four) }
{
    thread::scope(
        thread::scope_env(),
        shared.rt,
        |scope| -> Option<Four>
            requires { AreNewWorkers shared.board.now workers }
            ensures { IfSome result (λ four. HaveCounted shared.entry.board.now shared.entry.metrics.now workers four) }
        { serve_all(scope, shared, sources, workers, queues, listener, count) },
    )
}
