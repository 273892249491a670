//! The bytes of replies: of refusals all, and of a scrape's reply the head. They are made in place.
ghost use Rattle.std.specs.Prelude.{◌≡◌, ◌+◌, ◌≤◌, ◌++◌, [], length};
ghost use Rattle.scrape_http.specs.Reply.{head_of, allow_line, type_of, refusal_reply};

use crate::status::Status;
use itoa::Buffer;
use std::marker::Model;

/// How many bytes a short text has at most: so many that each head has room, and each refusal with its body.
const ROOM: usize = 256;

/// A text of at most 256 bytes, in place.
///
/// Contracts see it as the list of its bytes.
#[derive(Drop)]
pub(crate) struct ShortText {
    places: [u8; 256],
    filled: usize,
}

impl Model for ShortText {
    ghost use Rattle.std.specs.Prelude.{ℕ, ◌≤◌, List, take};

    ghost Value = { List ℕ };

    ghost view = { λ t. take t.filled t.places };

    ghost invariant = { λ t. t.filled ≤ 256 };
}

impl ShortText {
    ghost use Rattle.scrape_http.specs.Reply.{line, status_line};

    /// No bytes.
    fn new() -> ShortText
        ensures { result ≡ [] }
    {
        ShortText {
            places: [0; ROOM],
            filled: 0,
        }
    }

    /// The bytes.
    pub(crate) fn bytes(&self) -> &[u8]
        ensures { result.now ≡ self.now }
    {
        &self.places[..self.filled]
    }

    /// Adds bytes, for which there is room.
    fn put(&mut self, bytes: &[u8])
        requires { length self.old + length bytes.now ≤ 256 }
        ensures { self.new ≡ self.old ++ bytes.now }
    {
        let end = self.filled + bytes.len();
        self.places[self.filled..end].copy_from_slice(bytes);
        self.filled = end;
    }

    /// Adds a line of a field's name, to which its `: ` belongs here, and its value. There is room for them, and for the 2 bytes
    /// of the line's end: 254 is 256 less these.
    fn put_line(&mut self, name: &str, value: &[u8])
        requires { length self.old + length name.now + length value.now ≤ 254 }
        ensures { self.new ≡ self.old ++ line (name.now ++ value.now) }
    {
        self.put(name.as_bytes());
        self.put(value);
        self.put(b"\r\n");
    }

    /// Adds the line that has the status, behind at most 100 bytes. It has at most 64 bytes; that of 431, the longest, has 46.
    fn put_status(&mut self, status: Status)
        requires { length self.old ≤ 100 }
        ensures line { self.new ≡ self.old ++ status_line status }
        ensures short { length self.new ≤ length self.old + 64 }
    {
        self.put(b"HTTP/1.1 ");
        self.put(Buffer::new().format(status.code().as_u16()).as_bytes());
        self.put(b" ");
        self.put(status.phrase().as_bytes());
        self.put(b"\r\n");
    }
}

/// The type of the body.
fn type_of(status: Status) -> &'static str
    ensures { result.now ≡ type_of status }
{
    match status {
        Status::Success => "text/plain; version=0.0.4; charset=utf-8",
        _ => "text/plain; charset=utf-8",
    }
}

/// The line that tells which methods there are, after one that is not.
fn allow_line(status: Status) -> &'static str
    ensures { result.now ≡ allow_line status }
{
    match status {
        Status::MethodNotAllowed => "Allow: GET, HEAD\r\n",
        _ => "",
    }
}

/// The head of a reply whose body has `len` bytes. It has at most 210 bytes, so that the body of a refusal, at most 32, has room
/// behind it.
pub(crate) fn head_of(status: Status, len: usize) -> ShortText
    ensures head { result ≡ head_of status len }
    ensures short { length result ≤ 210 }
{
    let mut head = ShortText::new();
    head.put_status(status);
    head.put(allow_line(status).as_bytes());
    head.put_line("Content-Type: ", type_of(status).as_bytes());
    head.put_line("Content-Length: ", Buffer::new().format(len).as_bytes());
    head.put_line("Connection: ", b"close");
    head.put(b"\r\n");
    head
}

/// All bytes of a refusal, with its body or without.
pub(crate) fn refusal_text(status: Status, with_body: bool) -> ShortText
    ensures { result ≡ (refusal_reply status with_body).bytes }
{
    let phrase = status.phrase();
    let mut reply = head_of(status, phrase.len() + 1);
    if !with_body {
        return reply;
    }
    reply.put(phrase.as_bytes());
    reply.put(b"\n");
    reply
}
