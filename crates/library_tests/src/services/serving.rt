//! Connections that a server answers, whoever comes between them.
use super::clients::{GET, MISSING, OK_A, Step, are, connect, play};
use super::naming::counter;
use super::{Names, new_team, opened};
use crate::asserts::{need, same};
use crate::crew::ID;
use dirgwako::{
    Answered, Registrar, listen, port_of, serve, serve_forever, serve_on_threads, serve_until,
};
use std::alloc::Global;
use std::io::{self, ErrorKind, Write};
use std::net::{Net, TcpListener, TcpStream};
use std::process::Abort;
use std::sync::Wait;
use std::sync::atomic::{AtomicBool, Ordering};
use std::thread::{Threads, join, sleep};
use std::time::{Clock, Duration, Instant};

/// One that says nothing and stays; one that sends half a head and is gone; one that asks, and goes away within its reply, which
/// resets the connection. Behind each of them comes a good one.
const STRANGE: [Step; 7] = [
    Step::Stay,
    Step::Ask(GET),
    Step::Read,
    Step::Go(b"GET /metrics HTTP/1.1\r\nHo"),
    Step::Ask(GET),
    Step::Reset(GET),
    Step::Ask(GET),
];

/// Good ones.
const GOOD: [Step; 3] = [
    Step::Ask(GET),
    Step::Ask(b"HEAD /metrics HTTP/1.0\r\n\r\n"),
    Step::Ask(b"GET / HTTP/1.0\r\n\r\n"),
];

/// Sends a head a byte each twentieth of a second, until that fails, which it has to within 20 seconds.
fn drip<T>(rt: &T, port: u16)
where
    T: Abort + Clock + Net<Listener = TcpListener, Stream = TcpStream>,
{
    let stream = connect(rt, port, b"GET /metrics HTTP/1.1\r\nX: ");
    let mut stream = &stream;
    for _byte in 0..400 {
        if stream.write_all(b"x").is_err() {
            return;
        }
        sleep(rt, Duration::from_millis(50));
    }
    rt.panic("it was not cut off")
}

/// Serves all of them, with a patience of a second. Only the ones that say nothing or not enough within it are not replied to.
fn serves<T>(rt: &T, alloc: Global, registry: &Names<'_>)
where
    T: Abort + Clock + Threads + Wait + Sync + Net<Listener = TcpListener, Stream = TcpStream>,
{
    let listener = need(rt, listen(rt, 0));
    let port = need(rt, port_of(&listener));
    let (answered, got) = join(
        rt,
        || serve(rt, &listener, registry, Duration::from_secs(1), 10),
        || {
            let first = play(rt, alloc, port, &STRANGE);
            drip(rt, port);
            (first, play(rt, alloc, port, &GOOD))
        },
    );
    let (first, last) = got;
    are(rt, &first, &[OK_A, b"", OK_A, OK_A]);
    are(rt, &last, &[OK_A, &OK_A[..114], MISSING]);
    let (replies, faults) = (8, 2);
    same(rt, need(rt, answered), Answered { replies, faults });
}

/// A server ends by an error of this kind.
fn ends_by<V: Drop>(rt: &impl Abort, end: io::Result<V>, kind: ErrorKind) {
    match end {
        Ok(_) => rt.panic("no error"),
        Err(error) => same(rt, error.kind(), kind),
    }
}

/// A listener that is not waited for fails at once where nobody has come.
fn listens_in_vain<T>(rt: &T, alloc: Global, registry: &Names<'_>)
where
    T: Abort + Clock + Threads + Wait + Sync + Net<Listener = TcpListener, Stream = TcpStream>,
{
    let listener = need(rt, listen(rt, 0));
    let port = need(rt, port_of(&listener));
    need(rt, listener.set_nonblocking(true));
    let (end, got) = join(
        rt,
        || serve_on_threads(rt, &listener, registry, Duration::from_secs(5), 2),
        || {
            sleep(rt, Duration::from_millis(250));
            play(rt, alloc, port, &GOOD[..1])
        },
    );
    are(rt, &got, &[OK_A]);
    ends_by(rt, end, ErrorKind::WouldBlock);
}

/// One that says nothing and stays, and good ones beside it.
const BESIDE: [Step; 4] = [
    Step::Stay,
    Step::Ask(GET),
    Step::Ask(GET),
    Step::Ask(b"GET / HTTP/1.0\r\n\r\n"),
];

/// Of two threads one waits for a client that says nothing, and the other one answers all others meanwhile. At the end a flag is
/// raised.
fn serves_beside<T>(rt: &T, alloc: Global, registry: &Names<'_>)
where
    T: Abort + Clock + Threads + Wait + Sync + Net<Listener = TcpListener, Stream = TcpStream>,
{
    let listener = need(rt, listen(rt, 0));
    let port = need(rt, port_of(&listener));
    let stop = AtomicBool::new(false);
    let patience = Duration::from_secs(30);
    let (answered, got) = join(
        rt,
        || serve_until(rt, &listener, registry, patience, 2, &stop),
        || {
            let start = need(rt, Instant::now(rt));
            let replies = play(rt, alloc, port, &BESIDE);
            stop.store(true, Ordering::SeqCst);
            (replies, need(rt, start.elapsed(rt)))
        },
    );
    are(rt, &got.0, &[OK_A, OK_A, MISSING]);
    same(rt, (got.1, got.1 < Duration::from_secs(20)), (got.1, true));
    let (replies, faults) = (3, 1);
    same(rt, need(rt, answered), Answered { replies, faults });
}

/// No patience at all is refused before a connection is accepted, of which there is none, and so are no threads and 33. Of 32
/// each sees that it is to stop.
fn has_no_patience<T>(rt: &T, registry: &Names<'_>)
where
    T: Abort + Clock + Threads + Wait + Sync + Net<Listener = TcpListener, Stream = TcpStream>,
{
    let listener = need(rt, listen(rt, 0));
    let none = Duration::from_secs(0);
    let invalid = ErrorKind::InvalidInput;
    ends_by(rt, serve(rt, &listener, registry, none, 1), invalid);
    ends_by(rt, serve_forever(rt, &listener, registry, none), invalid);
    let stop = AtomicBool::new(true);
    let end = serve_until(rt, &listener, registry, none, 1, &stop);
    ends_by(rt, end, invalid);
    for threads in [0, 33] {
        let some = Duration::from_secs(1);
        let end = serve_on_threads(rt, &listener, registry, some, threads);
        ends_by(rt, end, invalid);
        let end = serve_until(rt, &listener, registry, some, threads, &stop);
        ends_by(rt, end, invalid);
    }
    let end = serve_until(rt, &listener, registry, Duration::from_secs(1), 32, &stop);
    let (replies, faults) = (0, 0);
    same(rt, need(rt, end), Answered { replies, faults });
}

/// The server asks a listener again that does not wait, and after 64 failures in a row, some six seconds, it ends. A client that
/// says nothing is let go when the play ends: its thread is not waited for.
#[test]
fn whoever_comes(rt: HostRuntime) {
    let rt = &rt;
    let mut team = new_team(rt, rt.alloc(), ID);
    let registry = opened(rt, &mut team, 64);
    counter(rt, &mut Registrar::new(rt, &registry), "a");
    has_no_patience(rt, &registry);
    serves(rt, rt.alloc(), &registry);
    serves_beside(rt, rt.alloc(), &registry);
    listens_in_vain(rt, rt.alloc(), &registry);
}
