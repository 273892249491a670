//! A request is read and replied to.
use anyhow::{Result, bail};
use dirgwako::ServiceRuntime;
use httparse::Status;
use httparse::spans::{EMPTY_HEADER_SPAN, parse_request};
use std::io::{Read, Write};
use std::net::{TcpListener, TcpStream};
use std::thread::sleep;
use std::time::Duration;

/// What is replied: `/` is there, and no other path.
#[derive(Clone, Copy)]
pub enum Code {
    Success,
    BadRequest,
    NotFound,
}

impl Code {
    fn reply(self) -> &'static [u8] {
        match self {
            Code::Success => {
                b"HTTP/1.1 200 OK\r\ncontent-length: 6\r\nconnection: close\r\n\r\nhello\n"
            }
            Code::BadRequest => {
                b"HTTP/1.1 400 Bad Request\r\ncontent-length: 4\r\nconnection: close\r\n\r\nbad\n"
            }
            Code::NotFound => {
                b"HTTP/1.1 404 Not Found\r\ncontent-length: 5\r\nconnection: close\r\n\r\nnone\n"
            }
        }
    }
}

/// The code for a request that begins so, or None where more is wanted.
fn code_of(head: &[u8]) -> Option<Code> {
    let mut fields = [EMPTY_HEADER_SPAN; 64];
    match parse_request(head, &mut fields) {
        Ok(Status::Complete(it)) if it.path.of(head) == b"/".as_slice() => Some(Code::Success),
        Ok(Status::Complete(_)) => Some(Code::NotFound),
        Ok(Status::Partial) => None,
        Err(_) => Some(Code::BadRequest),
    }
}

/// Reads a request's head, of at most 2,048 bytes.
fn read_code(mut stream: &TcpStream) -> Result<Code> {
    let mut head = [0; 2_048];
    let mut filled = 0;
    for _read in 0..2_048 {
        if filled >= head.len() {
            break;
        }
        let more = stream.read(&mut head[filled..])?;
        if more == 0 {
            bail!("the client has ended");
        }
        filled += more;
        if let Some(code) = code_of(&head[..filled]) {
            return Ok(code);
        }
    }
    Ok(Code::BadRequest)
}

/// The next connection. One that fails, as where no descriptor is left, is asked for again a tenth of a second later, 64 times in
/// a row.
pub fn accept(rt: &impl ServiceRuntime, listener: &TcpListener) -> Result<TcpStream> {
    for _try in 1..64usize {
        if let Ok((stream, _peer)) = listener.accept() {
            return Ok(stream);
        }
        sleep(rt, Duration::from_millis(100));
    }
    Ok(listener.accept()?.0)
}

/// Answers a connection, whose reads and writes each take as long at most. It tells the code, and how many bytes were sent.
pub fn answer(mut stream: &TcpStream, patience: Duration) -> Result<(Code, u64)> {
    stream.set_read_timeout(Some(patience))?;
    stream.set_write_timeout(Some(patience))?;
    let code = read_code(stream)?;
    let reply = code.reply();
    stream.write_all(reply)?;
    Ok((code, reply.len() as u64))
}
