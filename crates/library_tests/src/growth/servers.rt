//! A server that wants memory before it listens to anybody.
use crate::asserts::same;
use metrics_program::{ServeEnd, serve_on};
use std::io::{self, Write};
use std::net::{Ipv4Addr, TcpListener};
use std::test::Fail;

/// Takes all that is written, and remembers whether it was flushed then.
#[derive(Drop)]
struct Flushes {
    is_flushed: bool,
}

impl Write for Flushes {
    fn write(&mut self, buf: &[u8]) -> io::Result<usize> {
        self.is_flushed = false;
        Ok(buf.len())
    }

    fn flush(&mut self) -> io::Result<()> {
        self.is_flushed = true;
        Ok(())
    }
}

/// However a server ends that listens to nobody, what it wrote was flushed.
#[test]
fn growth_server(rt: HostRuntime) -> Result<(), Fail> {
    let rt = &rt;
    let listener = TcpListener::bind(rt, (Ipv4Addr::LOCALHOST, 0))?;
    let mut writer = Flushes { is_flushed: false };
    let end = serve_on(rt, rt.alloc(), listener, 0, &mut writer);
    same(rt, writer.is_flushed, true);
    if end == ServeEnd::NoMemory {
        return Err("NoMemory".into());
    }
    same(rt, end, ServeEnd::Done);
    Ok(())
}
