//! Connections that are answered one by one, and what a registry keeps of them.
use super::clients::{GET, MISSING, OK_A, Step, are, play};
use super::naming::counter;
use super::{Names, new_team, opened};
use crate::asserts::{need, same, there};
use crate::crew::ID;
use dirgwako::{
    FromRegistry, MakesScrapes, Registrar, Served, Status, WireFault, last_text, listen, port_of,
    serve_alone, serve_next, serve_stream,
};
use std::alloc::Global;
use std::io::ErrorKind;
use std::net::{Net, TcpListener, TcpStream};
use std::process::Abort;
use std::sync::Wait;
use std::thread::{Threads, join};
use std::time::{Clock, Duration};

/// A scrape, a client that says nothing, a scrape, and what is not there.
const STEPS: [Step; 4] = [
    Step::Ask(GET),
    Step::Go(b""),
    Step::Ask(GET),
    Step::Ask(b"GET / HTTP/1.0\r\n\r\n"),
];

/// The next reply.
fn next(
    rt: &(impl Abort + Wait + Clock),
    listener: &TcpListener,
    registry: &Names<'_>,
) -> Option<Served> {
    let patience = Duration::from_secs(5);
    need(rt, serve_next(rt, listener, registry, patience))
}

/// The next reply, by a stream.
fn served(
    rt: &(impl Abort + Wait),
    listener: &TcpListener,
    registry: &Names<'_>,
) -> Result<Served, WireFault> {
    let (stream, _peer) = need(rt, listener.accept());
    serve_stream(&stream, &mut FromRegistry { rt, registry })
}

/// Each reply is told, and that there was none to the one that says nothing.
fn tells<T>(rt: &T, alloc: Global, listener: &TcpListener, registry: &Names<'_>)
where
    T: Abort + Clock + Threads + Wait + Sync + Net<Listener = TcpListener, Stream = TcpStream>,
{
    let port = need(rt, port_of(listener));
    let ((first, streams), replies) = join(
        rt,
        || {
            let first = (next(rt, listener, registry), next(rt, listener, registry));
            let streams = (
                served(rt, listener, registry),
                served(rt, listener, registry),
            );
            (first, streams)
        },
        || play(rt, alloc, port, &STEPS),
    );
    let one = |status: Status, sent: usize| Served { status, sent };
    let (ok, missing) = (
        one(Status::Success, OK_A.len()),
        one(Status::NotFound, MISSING.len()),
    );
    same(rt, first, (Some(ok), None));
    same(rt, streams, (Ok(ok), Ok(missing)));
    are(rt, &replies, &[OK_A, OK_A, MISSING]);
    same(
        rt,
        serve_next(rt, listener, registry, Duration::ZERO).is_err(),
        true,
    );
}

/// Serves nobody where there is no patience.
fn refuses<T: Abort + Clock, X: MakesScrapes + Drop>(
    rt: &T,
    listener: &TcpListener,
    state: X,
) -> X {
    match serve_alone(rt, listener, state, Duration::ZERO, 0) {
        (Err(error), state) => {
            same(rt, error.kind(), ErrorKind::InvalidInput);
            state
        }
        (Ok(_), _) => rt.panic("no error"),
    }
}

/// The last scrape stands behind the two that were sent, and none of them is gone.
fn ends<T: Abort + Clock>(rt: &T, listener: &TcpListener, registry: Names<'_>) {
    match last_text(registry) {
        Ok((text, state)) => {
            same(rt, text.as_slice(), b"# TYPE a counter\na 0\n".as_slice());
            let state = refuses(rt, listener, state);
            same(rt, (state.kept().len(), state.journal().len()), (3, 5));
            same(rt, there(rt, state.family("a")).number(), 0);
        }
        Err(_) => rt.panic("no last text"),
    }
}

/// A service is told of each reply, and a scrape is kept of each 200.
#[test]
fn each_reply_is_told(rt: HostRuntime) {
    let rt = &rt;
    let mut team = new_team(rt, rt.alloc(), ID);
    let registry = opened(rt, &mut team, 4);
    counter(rt, &mut Registrar::new(rt, &registry), "a");
    let listener = need(rt, listen(rt, 0));
    tells(rt, rt.alloc(), &listener, &registry);
    ends(rt, &listener, registry);
}
