//! Ends that fail, heads that are cut, and a source that has no scrape.
use crate::asserts::{done, need, same, there};
use crate::crew::ID;
use crate::helpers::{OnePlain, Plain, desc};
use expo_text::Scrape;
use metric_desc::Kind;
use scrape_http::{NoScrape, ScrapeFrom, Served, Status, WireFault, serve_one};
use scrape_server::serve_state;
use std::alloc::{AllocError, Global};
use std::io::{self, Error, ErrorKind, Read, Write};
use std::process::Abort;
use watched::Watched;

/// More than any request here has.
const ALL: usize = 100_000;

/// Gives its bytes, at most so many a read, and then ends; after so many reads it fails.
#[derive(Drop)]
struct Pieces<'a> {
    bytes: &'a [u8],
    step: usize,
    reads: usize,
}

impl Read for Pieces<'_> {
    fn read(&mut self, buf: &mut [u8]) -> io::Result<usize> {
        if self.reads == 0 {
            return Err(Error::from(ErrorKind::ConnectionReset));
        }
        self.reads -= 1;
        let count = self.step.min(self.bytes.len()).min(buf.len());
        buf[..count].copy_from_slice(&self.bytes[..count]);
        self.bytes = &self.bytes[count..];
        Ok(count)
    }
}

/// Takes so many bytes, at most so many a write, and then fails or takes none.
#[derive(Drop)]
struct Narrow {
    taken: Vec<u8>,
    room: usize,
    step: usize,
    fails: bool,
    flushes: bool,
}

impl Write for Narrow {
    fn write(&mut self, buf: &[u8]) -> io::Result<usize> {
        let count = self.step.min(self.room).min(buf.len());
        if count == 0 && self.fails {
            return Err(Error::from(ErrorKind::BrokenPipe));
        }
        self.room -= count;
        self.taken.extend_from_slice(&buf[..count])?;
        Ok(count)
    }

    fn flush(&mut self) -> io::Result<()> {
        if self.flushes {
            Ok(())
        } else {
            Err(Error::from(ErrorKind::BrokenPipe))
        }
    }
}

/// A registry with a counter `a`, which is 0.
fn counting(rt: &impl Abort, alloc: Global) -> Plain {
    let Ok(mut registry) = Plain::new(alloc, need(rt, OnePlain::new(alloc)), ID, 8) else {
        rt.panic("no registry")
    };
    let desc = done(rt, desc(alloc, Kind::Counter, "a", &[]));
    let family = need(rt, registry.register(desc));
    need(rt, registry.child(family, &[]));
    registry
}

/// Serves a request from it, which comes to this status or fault, and to these bytes. A scrape is made for 200 alone, and once.
fn serves(
    rt: &impl Abort,
    alloc: Global,
    request: Pieces<'_>,
    writer: Narrow,
    wanted: Result<Status, WireFault>,
    reply: &[u8],
) {
    let mut registry = counting(rt, alloc);
    let mut reader = Watched::new(request);
    let mut writer = Watched::new(writer);
    let answer = serve_state(&mut reader, &mut writer, &mut registry);
    let sent = reply.len();
    let (wanted, kept, failed) = match wanted {
        Ok(Status::Success) => {
            let status = Status::Success;
            (Ok(Served { status, sent }), 1, false)
        }
        Ok(status) => (Ok(Served { status, sent }), 0, false),
        Err(fault) => (Err(fault), 0, fault.number() == 25),
    };
    same(rt, answer, wanted);
    same(rt, (registry.kept().len(), writer.failed()), (kept, failed));
    same(rt, writer.into_inner().taken.as_slice(), reply);
}

/// The same of a request that comes so many bytes a read, of which the `reads`th, from 0, fails. The writer takes one byte a
/// write.
fn asks(
    rt: &(impl Abort + AllocGlobal),
    bytes: &[u8],
    step: usize,
    reads: usize,
    wanted: Result<Status, WireFault>,
    reply: &[u8],
) {
    let alloc = rt.alloc();
    let writer = Narrow {
        taken: need(rt, Vec::with_capacity(alloc, 1024)),
        room: 1024,
        step: 1,
        fails: true,
        flushes: true,
    };
    let request = Pieces { bytes, step, reads };
    serves(rt, alloc, request, writer, wanted, reply);
}

/// The reply of the counter.
const OK_A: &[u8] =
    b"HTTP/1.1 200 OK\r\nContent-Type: text/plain; version=0.0.4; charset=utf-8\r\nContent-Length: 21\r\nConnection: close\r\n\r\n# TYPE a counter\na 0\n";

/// The replies of refusals.
const BAD: &[u8] =
    b"HTTP/1.1 400 Bad Request\r\nContent-Type: text/plain; charset=utf-8\r\nContent-Length: 12\r\nConnection: close\r\n\r\nBad Request\n";

const MISSING: &[u8] =
    b"HTTP/1.1 404 Not Found\r\nContent-Type: text/plain; charset=utf-8\r\nContent-Length: 10\r\nConnection: close\r\n\r\nNot Found\n";

/// What a Prometheus server sends.
const USUAL: &[u8] =
    b"GET /metrics HTTP/1.1\r\nHost: localhost:9090\r\nUser-Agent: Prometheus/2.53.0\r\nAccept: text/plain;version=0.0.4;q=1,*/*;q=0.1\r\nAccept-Encoding: gzip\r\nX-Prometheus-Scrape-Timeout-Seconds: 10\r\n\r\n";

/// The reply where there is no scrape.
const BUSY: &[u8] =
    b"HTTP/1.1 503 Service Unavailable\r\nContent-Type: text/plain; charset=utf-8\r\nContent-Length: 20\r\nConnection: close\r\n\r\nService Unavailable\n";

/// Each beginning of a request is a bad request, but for the empty one, which is none, whether it comes at once or byte by byte.
#[test]
fn cut_heads(rt: HostRuntime) {
    let rt = &rt;
    let none = WireFault::EndBeforeHead;
    same(rt, none.number(), 26);
    asks(rt, b"", ALL, ALL, Err(none), b"");
    for len in 1..USUAL.len() {
        asks(rt, &USUAL[..len], ALL, ALL, Ok(Status::BadRequest), BAD);
        asks(rt, &USUAL[..len], 1, ALL, Ok(Status::BadRequest), BAD);
    }
    asks(rt, USUAL, ALL, ALL, Ok(Status::Success), OK_A);
    asks(rt, USUAL, 1, ALL, Ok(Status::Success), OK_A);
}

/// A read that fails, up to the one that makes the head whole. No read is made after that one, nor after the end.
#[test]
fn failing_reads(rt: HostRuntime) {
    let rt = &rt;
    let failed = WireFault::ReadFailed;
    same(rt, failed.number(), 24);
    for reads in 0..USUAL.len() {
        asks(rt, USUAL, 1, reads, Err(failed), b"");
    }
    asks(rt, USUAL, 1, USUAL.len(), Ok(Status::Success), OK_A);
    asks(rt, b"GET /", ALL, 2, Ok(Status::BadRequest), BAD);
}

/// Writes that fail or take nothing after each byte of the 116, of one byte or all at once, and a flush that fails behind them.
#[test]
fn failing_writes(rt: HostRuntime) {
    let (rt, alloc) = (&rt, rt.alloc());
    for k in 0..4 * 117usize {
        let room = k / 4;
        let fault = WireFault::WriteFailed { sent: room };
        same(rt, fault.number(), 25);
        let request = Pieces {
            bytes: b"GET / HTTP/1.1\r\nHost: h\r\n\r\n",
            step: ALL,
            reads: ALL,
        };
        let writer = Narrow {
            taken: need(rt, Vec::with_capacity(alloc, 1024)),
            room,
            step: if k % 2 == 0 { 1 } else { ALL },
            fails: k % 4 < 2,
            flushes: room < 116,
        };
        let taken = there(rt, MISSING.get(..room));
        serves(rt, alloc, request, writer, Err(fault), taken);
    }
}

/// Has no scrape, and counts how often it was asked.
#[derive(Drop)]
struct Busy {
    why: NoScrape,
    asked: u64,
}

impl ScrapeFrom for Busy {
    ghost again = { 3 };

    ghost gave = { λ _ _ _. Unit {0} };

    fn scrape(&mut self) -> Result<Scrape, NoScrape> {
        self.asked = self.asked.saturating_add(1);
        Err(self.why)
    }

    fn again(&self) -> usize {
        3
    }
}

/// A request to a source that has no scrape is replied so, for each reason, and the source is asked once.
#[test]
fn no_scrape(rt: HostRuntime) {
    let (rt, alloc) = (&rt, rt.alloc());
    let head = b"HEAD /metrics HTTP/1.0\r\n\r\n".as_slice();
    same(rt, BUSY.len(), 136);
    for (why, request, reply) in [
        (NoScrape::Contended, USUAL, BUSY),
        (NoScrape::Contended, head, &BUSY[..116]),
        (NoScrape::NoMemory, USUAL, BUSY),
        (NoScrape::NoMemory, head, &BUSY[..116]),
    ] {
        let mut source = Busy { why, asked: 0 };
        let mut reader = Watched::new(request);
        let mut writer = Watched::new(Vec::<u8>::new(alloc));
        let answer = serve_one(&mut reader, &mut writer, &mut source);
        let (status, sent) = (Status::Unavailable, reply.len());
        same(rt, answer, Ok(Served { status, sent }));
        same(rt, writer.into_inner().as_slice(), reply);
        same(rt, source.asked, 1);
    }
}
