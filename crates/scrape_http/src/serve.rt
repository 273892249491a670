//! Requests are served.
ghost use Rattle.std.specs.Prelude.{◌≡◌, ◌<◌, ◌≤◌, ◌^◌, ◌++◌, true, false, length, IfOk, IfErr, Some, Ok, IsOk};
ghost use Rattle.std.specs.Io.KnownBytes.{Keeps};
ghost use Rattle.expo_text.specs.Shown.{shown_text};
ghost use Rattle.scrape_http.specs.Reply.{outcome_reply, refusal_reply};
ghost use Rattle.scrape_http.specs.Serves.{Sends, IsWritten, IsServed, IsUnserved, is_read_failed, is_write_failed};

use crate::fault::WireFault;
use crate::reply::{head_of, refusal_text};
use crate::request::hear;
use crate::source::{NoScrape, ScrapeFrom};
use crate::status::Status;
use expo_text::{Scrape, WriteFailed, send, text_len, write_after};
use std::io::{Read, Write};
use watched::Watched;

/// A reply that was written whole.
#[derive(Clone, Copy, Debug, PartialEq, Eq)]
pub struct Served {
    /// Its status.
    pub status: Status,
    /// How many bytes it has, head and body.
    pub sent: usize,
}

/// Flushes the writer, which has taken all `sent` bytes of a reply.
fn finish<W: Write>(
    writer: &mut Watched<W>,
    status: Status,
    sent: usize,
) -> Result<Served, WireFault>
    requires { writer.old.failed ≡ false }
    ensures kept { Keeps (W.contents writer.old.inner) (W.contents writer.new.inner) }
    ensures ok { IfOk result (λ served. served ≡ record { status = status; sent = sent }) }
    ensures err { IfErr result (λ fault. fault ≡ WireFault.WriteFailed sent) }
    ensures written { IsWritten writer.new.failed writer.new.flushed result }
{
    match writer.flush() {
        Ok(()) => Ok(Served { status, sent }),
        Err(_) => Err(WireFault::WriteFailed { sent }),
    }
}

/// Sends a reply of these bytes.
fn send_bytes<W: Write>(
    writer: &mut Watched<W>,
    status: Status,
    bytes: &[u8],
) -> Result<Served, WireFault>
    requires { writer.old.failed ≡ false }
    ensures sends { Sends (W.contents writer.old.inner) (W.contents writer.new.inner)
        (Some (record { status = status; bytes = bytes.now })) result }
    ensures written { IsWritten writer.new.failed writer.new.flushed result }
{
    if let Err(WriteFailed { sent }) = send(bytes, writer) {
        return Err(WireFault::WriteFailed { sent });
    }
    finish(writer, status, bytes.len())
}

/// Sends a head and the text of a scrape, which has `len` bytes, in as few writes as pieces of 16,384 bytes allow. That `len` is
/// below 2^33 is what `text_len` says of each text, so that the bytes of both can be counted.
fn send_text<W: Write>(
    writer: &mut Watched<W>,
    head: &[u8],
    scrape: &Scrape,
    len: usize,
) -> Result<Served, WireFault>
    requires going { writer.old.failed ≡ false }
    requires short { length head.now ≤ 256 }
    requires len { len ≡ length (shown_text scrape.now) }
    requires bounded { len < 2 ^ 33 }
    ensures sends { Sends (W.contents writer.old.inner) (W.contents writer.new.inner)
        (Some (record { status = Status.Success; bytes = head.now ++ shown_text scrape.now })) result }
    ensures written { IsWritten writer.new.failed writer.new.flushed result }
{
    if let Err(WriteFailed { sent }) = write_after(head, scrape, writer) {
        return Err(WireFault::WriteFailed { sent });
    }
    finish(writer, Status::Success, head.len() + len)
}

/// Sends a refusal.
fn send_refusal<W: Write>(
    writer: &mut Watched<W>,
    status: Status,
    with_body: bool,
) -> Result<Served, WireFault>
    requires { writer.old.failed ≡ false }
    ensures sends { Sends (W.contents writer.old.inner) (W.contents writer.new.inner)
        (Some (refusal_reply status with_body)) result }
    ensures written { IsWritten writer.new.failed writer.new.flushed result }
{
    send_bytes(writer, status, refusal_text(status, with_body).bytes())
}

/// Sends the reply of a scrape.
fn send_scrape<W: Write>(
    writer: &mut Watched<W>,
    scrape: &Scrape,
    with_body: bool,
) -> Result<Served, WireFault>
    requires { writer.old.failed ≡ false }
    ensures sends { Sends (W.contents writer.old.inner) (W.contents writer.new.inner)
        (Some (outcome_reply (Ok scrape.now) with_body)) result }
    ensures written { IsWritten writer.new.failed writer.new.flushed result }
{
    let len = text_len(scrape);
    let head = head_of(Status::Success, len);
    if with_body {
        send_text(writer, head.bytes(), scrape, len)
    } else {
        send_bytes(writer, Status::Success, head.bytes())
    }
}

/// Sends the reply to what a source gave: a scrape, or why there is none.
fn send_outcome<W: Write>(
    writer: &mut Watched<W>,
    outcome: &Result<Scrape, NoScrape>,
    with_body: bool,
) -> Result<Served, WireFault>
    requires { writer.old.failed ≡ false }
    ensures sends { Sends (W.contents writer.old.inner) (W.contents writer.new.inner)
        (Some (outcome_reply outcome.now with_body)) result }
    ensures written { IsWritten writer.new.failed writer.new.flushed result }
{
    match outcome {
        Ok(scrape) => send_scrape(writer, scrape, with_body),
        Err(_) => send_refusal(writer, Status::Unavailable, with_body),
    }
}

/// Reads one request, and writes its reply, which is flushed. It takes no memory but that of the source's scrape.
///
/// At most 8,192 bytes are read, and no read is made once a whole head stands there or none can. Where no whole head of at most
/// 64 fields stands there, the reply is
///
/// - 431 where there are 8,192 bytes, or more than 64 fields behind a start line;
/// - 400 where no head can begin so, or the input ends within it;
/// - either of them where both causes hold.
///
/// Where one stands there, the reply is, by the first of these that holds:
///
/// 1. 400 where the head has several Host fields, or none in HTTP/1.1;
/// 2. 404 where the target's path is not `/metrics`;
/// 3. 405 where the method is neither GET nor HEAD;
/// 4. 200 with the text of a scrape, or 503 where the source has none.
///
/// What follows the head is not used. A HEAD gets the head that a GET would. The source is asked in the last case alone, and
/// once.
///
/// Source: RFC 9112, sections 2 to 4 and 9.6; RFC 9110, sections 8, 9, 10.2.1 and 15; RFC 6585, section 5.
///
/// # Errors
///
/// Refusal 24, [`WireFault::ReadFailed`], exactly where the reader has failed now: nothing is written. Refusal 26,
/// [`WireFault::EndBeforeHead`], where the input ended with no byte: nothing is written. Refusal 25, [`WireFault::WriteFailed`],
/// exactly where the writer has failed now: it has taken the first `sent` bytes of the reply, and no more. A scrape that was made
/// before that stays made.
pub fn serve_one<R: Read, W: Write, S: ScrapeFrom>(
    reader: &mut Watched<R>,
    writer: &mut Watched<W>,
    source: &mut S,
) -> Result<Served, WireFault>
    requires reader_going { reader.old.failed ≡ false }
    requires reader_unended { reader.old.ended ≡ false }
    requires writer_going { writer.old.failed ≡ false }
    ensures served { reader.new.failed ≡ false → IsServed S.gave source.old source.new
        (R.remaining reader.old.inner) (R.remaining reader.new.inner)
        (W.contents writer.old.inner) (W.contents writer.new.inner) reader.new.ended reader.new.latest result }
    ensures unserved { reader.new.failed ≡ true → IsUnserved source.old source.new
        (W.contents writer.old.inner) (W.contents writer.new.inner) }
    ensures flushed { IsOk result → writer.new.flushed ≡ true }
    ensures read_failed { reader.new.failed ≡ is_read_failed result }
    ensures write_failed { writer.new.failed ≡ is_write_failed result }
{
    let wanted = hear(reader)?;
    match wanted.refusal {
        Some(status) => send_refusal(writer, status, wanted.with_body),
        None => send_outcome(writer, &source.scrape(), wanted.with_body),
    }
}
