//! Clients over loopback.
use crate::asserts::{need, same, there};
use std::alloc::Global;
use std::io::{Read, Write};
use std::net::{Ipv4Addr, Net, TcpListener, TcpStream};
use std::process::Abort;

/// What clients do, one after the other.
#[derive(Clone, Copy)]
pub(super) enum Step {
    /// One opens a connection, says nothing and stays.
    Stay,
    /// The one that stays reads to the end: the next reply.
    Read,
    /// One sends bytes, reads to the end, which is the next reply, and closes.
    Ask(&'static [u8]),
    /// One sends bytes, and closes.
    Go(&'static [u8]),
    /// One sends bytes, reads 100 bytes, and closes. What is unread by then resets the connection.
    Reset(&'static [u8]),
}

/// Asks for a scrape.
pub(super) const GET: &[u8] = b"GET /metrics HTTP/1.1\r\nHost: h\r\n\r\n";

/// The reply of the counter `a`, which nobody has counted.
pub(super) const OK_A: &[u8] =
    b"HTTP/1.1 200 OK\r\nContent-Type: text/plain; version=0.0.4; charset=utf-8\r\nContent-Length: 21\r\nConnection: close\r\n\r\n# TYPE a counter\na 0\n";

/// The reply where nothing is.
pub(super) const MISSING: &[u8] =
    b"HTTP/1.1 404 Not Found\r\nContent-Type: text/plain; charset=utf-8\r\nContent-Length: 10\r\nConnection: close\r\n\r\nNot Found\n";

/// Connects to a port of this machine, and sends bytes.
pub(super) fn connect<T>(rt: &T, port: u16, bytes: &[u8]) -> TcpStream
where
    T: Abort + Net<Listener = TcpListener, Stream = TcpStream>,
{
    let stream = need(rt, TcpStream::connect(rt, (Ipv4Addr::LOCALHOST, port)));
    let mut end = &stream;
    need(rt, end.write_all(bytes));
    stream
}

/// All that a client reads until the end.
fn read_all(rt: &impl Abort, alloc: Global, mut stream: &TcpStream) -> Vec<u8> {
    let mut bytes = Vec::new(alloc);
    need(rt, stream.read_to_end(&mut bytes));
    bytes
}

/// Does a step, and gives the reply that was read, if one was.
fn take<T>(
    rt: &T,
    alloc: Global,
    port: u16,
    step: Step,
    silent: &mut Option<TcpStream>,
) -> Option<Vec<u8>>
where
    T: Abort + Net<Listener = TcpListener, Stream = TcpStream>,
{
    match step {
        Step::Stay => {
            *silent = Some(connect(rt, port, b""));
            None
        }
        Step::Read => Some(read_all(rt, alloc, there(rt, silent.as_ref()))),
        Step::Ask(bytes) => Some(read_all(rt, alloc, &connect(rt, port, bytes))),
        Step::Go(bytes) => {
            let _closed = connect(rt, port, bytes);
            None
        }
        Step::Reset(bytes) => {
            let stream = connect(rt, port, bytes);
            let mut end = &stream;
            let mut front = [0; 100];
            need(rt, end.read_exact(&mut front));
            None
        }
    }
}

/// Does all steps, and gives the replies in the order in which they were read.
pub(super) fn play<T>(rt: &T, alloc: Global, port: u16, steps: &[Step]) -> Vec<Vec<u8>>
where
    T: Abort + Net<Listener = TcpListener, Stream = TcpStream>,
{
    let (mut replies, mut silent) = (Vec::new(alloc), None);
    for step in steps {
        if let Some(reply) = take(rt, alloc, port, *step, &mut silent) {
            need(rt, replies.push(reply));
        }
    }
    replies
}

/// The replies are these, whole.
pub(super) fn are(rt: &impl Abort, replies: &[Vec<u8>], whole: &[&[u8]]) {
    same(rt, replies.len(), whole.len());
    for (number, bytes) in whole.iter().enumerate() {
        let reply = there(rt, replies.get(number));
        same(rt, reply.as_slice(), *bytes);
    }
}
