//! The server of the program, where its writer or its listener fails.
use crate::asserts::{need, same};
use metrics_program::{ServeEnd, serve_on};
use std::io::{self, Error, ErrorKind, Write};
use std::net::{Ipv4Addr, Net, TcpListener, TcpStream};
use std::process::Abort;

/// A listener at a free port, and the port.
fn listens<T>(rt: &T) -> (TcpListener, u16)
where
    T: Abort + Net<Listener = TcpListener, Stream = TcpStream>,
{
    let listener = need(rt, TcpListener::bind(rt, (Ipv4Addr::LOCALHOST, 0)));
    let port = need(rt, listener.local_addr()).port();
    (listener, port)
}

/// Takes all that is written, but at one call, where it fails or takes nothing.
#[derive(Drop)]
struct Fails {
    kept: Vec<u8>,
    calls: u64,
    takes_nothing: bool,
}

impl Fails {
    /// Whether this call is one that is done.
    fn goes(&mut self) -> bool {
        let goes = self.calls > 0;
        self.calls = self.calls.saturating_sub(1);
        goes
    }
}

impl Write for Fails {
    fn write(&mut self, buf: &[u8]) -> io::Result<usize> {
        if self.goes() {
            self.kept.extend_from_slice(buf)?;
            Ok(buf.len())
        } else if self.takes_nothing {
            Ok(0)
        } else {
            Err(Error::from(ErrorKind::Other))
        }
    }

    fn flush(&mut self) -> io::Result<()> {
        if self.goes() {
            Ok(())
        } else {
            Err(Error::from(ErrorKind::Other))
        }
    }
}

/// After so many calls of its writer a server ends, and what was written is a front of what is printed. Three writes and a flush
/// are for the port, and as many for the replies.
#[test]
fn a_writer_that_fails(rt: HostRuntime) {
    let (rt, alloc) = (&rt, rt.alloc());
    for calls in 0..9u64 {
        let (listener, port) = listens(rt);
        let printed = need(rt, format!(in alloc; "listening {port}\nserved 0\n"));
        let mut writer = Fails {
            kept: Vec::new(alloc),
            calls,
            takes_nothing: calls % 2 == 0,
        };
        let end = serve_on(rt, alloc, listener, 0, &mut writer);
        let status = if calls < 8 { 3 } else { 0 };
        same(rt, (calls, end.status()), (calls, status));
        let kept = writer.kept.as_slice();
        same(rt, printed.as_bytes().get(..kept.len()), Some(kept));
    }
}

#[test]
fn a_listener_that_fails(rt: HostRuntime) {
    let rt = &rt;
    let alloc = rt.alloc();
    let (listener, port) = listens(rt);
    need(rt, listener.set_nonblocking(true));
    let mut written = Vec::new(alloc);
    let end = serve_on(rt, alloc, listener, 1, &mut written);
    let told = need(rt, format!(in alloc; "listening {port}\n"));
    same(
        rt,
        (end, written.as_slice()),
        (ServeEnd::Broken, told.as_bytes()),
    );
}
