//! Listeners of this machine.

use std::io;
use std::net::{Ipv4Addr, Net, TcpListener, TcpStream};

/// A listener at this port of 127.0.0.1. With the port 0 the system chooses one: [`port_of`].
///
/// # Errors
///
/// The system's: the port is taken, or may not be had.
pub fn listen<R: Net<Listener = TcpListener, Stream = TcpStream>>(
    rt: &R,
    port: u16,
) -> io::Result<TcpListener> {
    TcpListener::bind(rt, (Ipv4Addr::LOCALHOST, port))
}

/// The port of a listener.
///
/// # Errors
///
/// The system's.
pub fn port_of(listener: &TcpListener) -> io::Result<u16> {
    Ok(listener.local_addr()?.port())
}

/// [`listen`], and `listening P` on standard error, where P is the port.
///
/// # Errors
///
/// The system's.
pub fn listen_aloud<R: Net<Listener = TcpListener, Stream = TcpStream> + Eprint>(
    rt: &R,
    port: u16,
) -> io::Result<TcpListener> {
    let listener = listen(rt, port)?;
    eprintln!(rt; "listening {}", port_of(&listener)?)?;
    Ok(listener)
}
