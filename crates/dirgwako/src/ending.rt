//! A connection is ended behind its reply.
use crate::timed::Timed;
use scrape_http::Status;
use scrape_server::has_input;
use std::io::{Read, Result};
use std::net::Shutdown;
use std::time::{Clock, Duration, Instant};

/// How many milliseconds a client has at most to end its side.
const MOST: u64 = 1_000;

/// How many reads are made behind a reply, at most.
const READS: usize = 64;

/// How many bytes each of them takes, at most.
const TAKEN: usize = 4_096;

/// Reads what a client still sends, until it ends or fails, or its time is over.
fn drain<R: Clock>(mut rest: Timed<'_, R>) {
    let mut buffer = [0; TAKEN];
    for _read in 0..READS {
        match rest.read(&mut buffer) {
            Ok(0) | Err(_) => return,
            Ok(_) => {}
        }
    }
}

/// Ends a connection behind a reply of this status. The request of a scrape was read whole: where nothing waits behind it, the
/// socket may be closed. Else the client is told that no more is sent, and what it still sends is read, at most 262,144 bytes,
/// for what is left of the connection's time, a second at most: a socket that is closed while input waits resets the connection,
/// and then the client may lose its reply.
///
/// Source: RFC 9112, section 9.6.
pub(crate) fn end<R: Clock>(at: Timed<'_, R>, status: Status) -> Result<()> {
    match status {
        Status::Success | Status::Unavailable if !has_input(at.stream)? => Ok(()),
        _ => {
            at.stream.shutdown(Shutdown::Write)?;
            let patience = at.left()?.min(Duration::from_millis(MOST));
            let start = Instant::now(at.clock)?;
            drain(Timed {
                start,
                patience,
                ..at
            });
            Ok(())
        }
    }
}
