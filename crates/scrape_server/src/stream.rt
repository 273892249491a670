//! Connections.
ghost use Rattle.scrape_server.specs.Stream.{IsAskedOnce};

use scrape_http::{ScrapeFrom, Served, Status, WireFault, serve_one};
use std::io::{self, Read};
use std::net::{Shutdown, TcpStream};
use std::time::Duration;
use watched::Watched;

/// How many reads are made after a reply, at most.
const READS: usize = 64;

/// How many bytes each of them takes, at most.
const TAKEN: usize = 4_096;

/// How long each of them waits, in milliseconds.
const WAIT: u64 = 300;

/// Reads what a client still sends, until it ends, fails or is silent, at most [`READS`] times.
fn drain(mut stream: &TcpStream) {
    let mut buffer = [0; TAKEN];
    for _read in 0..READS {
        match stream.read(&mut buffer) {
            Ok(0) | Err(_) => return,
            Ok(_) => {}
        }
    }
}

/// Tells the client that no more is sent, and reads on: at most 64 times, each of at most 4,096 bytes, and at most 300
/// milliseconds long. A socket that is closed while input waits that nobody has read resets the connection, and then the client
/// may lose a reply that was sent whole: one to a head that was refused, or to a request with a body.
///
/// Source: RFC 9112, section 9.6.
///
/// # Errors
///
/// That of the socket, which the client has closed or reset by then: nothing is left to be done.
pub fn close_in_stages(stream: &TcpStream) -> io::Result<()> {
    stream.shutdown(Shutdown::Write)?;
    stream.set_read_timeout(Some(Duration::from_millis(WAIT)))?;
    drain(stream);
    Ok(())
}

/// Whether input waits that nobody has read; a byte of it is taken. It waits for nothing. Where there is none, reads of the
/// socket wait for nothing from then on.
///
/// # Errors
///
/// That of the socket.
pub fn has_input(mut stream: &TcpStream) -> io::Result<bool> {
    stream.set_nonblocking(true)?;
    match stream.read(&mut [0; 1]) {
        Ok(0) | Err(_) => Ok(false),
        Ok(_) => {
            stream.set_nonblocking(false)?;
            Ok(true)
        }
    }
}

/// Ends a connection behind a reply of this status. The request of a scrape was read whole: where nothing waits behind it,
/// nothing is left to be done, and the socket may be closed. Else it ends in stages: [`close_in_stages`].
///
/// Source: RFC 9112, section 9.6.
///
/// # Errors
///
/// That of the socket, which the client has closed or reset by then: nothing is left to be done.
pub fn close_behind(stream: &TcpStream, status: Status) -> io::Result<()> {
    match status {
        Status::Success | Status::Unavailable if !has_input(stream)? => Ok(()),
        _ => close_in_stages(stream),
    }
}

/// Serves one connection: reads a request, writes its reply by [`serve_one`], and ends the connection by [`close_behind`]. After
/// a fault of a read or a write there is nobody to wait for. That the client is served is tested, and in no clause: what a socket
/// gives and takes none can name.
///
/// # Errors
///
/// 24, 25 and 26 as [`serve_one`].
pub fn serve_stream<S: ScrapeFrom>(stream: &TcpStream, source: &mut S) -> Result<Served, WireFault>
    ensures { IsAskedOnce S.gave source.old source.new }
{
    let mut reader = Watched::new(stream);
    let mut writer = Watched::new(stream);
    let served = serve_one(&mut reader, &mut writer, source);
    if let Ok(reply) = served {
        // The reply is sent; that the client went away before the end is no fault of the service.
        let _ = close_behind(stream, reply.status);
    }
    served
}
