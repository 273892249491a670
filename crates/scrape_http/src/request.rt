//! Requests are read.
ghost use Rattle.std.specs.Prelude.{◌≡◌, ℕ, ◌+◌, ◌<◌, ◌≤◌, ◌++◌, List, true, false, length, take, drop, IfOk, IfErr, MatchOption};
ghost use Rattle.std.specs.Prelude.{Some};
ghost use Rattle.std.specs.Io.KnownBytes.{Consumes, IsAtEnd};
ghost use Rattle.scrape_http.specs.Asks.{Asks, IsOpen};
ghost use Rattle.scrape_http.specs.Serves.{Hears, is_read_failed};

use crate::fault::WireFault;
use crate::head::wanted_of;
use crate::status::Status;
use httparse::spans::{EMPTY_HEADER_SPAN, parse_request};
use std::io::Read;
use watched::Watched;

/// The most bytes of a request's head.
const MAX_HEAD: usize = 8192;

/// The most fields of a request's head.
const MAX_FIELDS: usize = 64;

/// What a request asks for.
#[derive(Clone, Copy)]
pub(crate) struct Wanted {
    /// Why it is refused; where it is not, it asks for a scrape.
    pub(crate) refusal: Option<Status>,
    /// Whether the body of the reply is to be sent.
    pub(crate) with_body: bool,
}

/// What bytes ask for that are no head: they are refused by this status.
fn refused_request(status: Status) -> Wanted
    ensures { result ≡ record { refusal = Some status; with_body = true } }
{
    Wanted {
        refusal: Some(status),
        with_body: true,
    }
}

/// What the bytes so far ask for, whatever comes after them; nothing where more are wanted.
fn judge(bytes: &[u8]) -> Option<Wanted>
    requires { length bytes.now ≤ 8192 }
    ensures { MatchOption result (IsOpen bytes.now)
        (λ wanted. (more : List ℕ) → Asks (bytes.now ++ more) false wanted) }
{
    let mut fields = [EMPTY_HEADER_SPAN; MAX_FIELDS];
    match parse_request(bytes, &mut fields) {
        Ok(httparse::Status::Complete(head)) => Some(wanted_of(bytes, &head, &fields)),
        Ok(httparse::Status::Partial) => None,
        Err(error) => match error {
            httparse::Error::TooManyHeaders => Some(refused_request(Status::TooLarge)),
            _ => Some(refused_request(Status::BadRequest)),
        },
    }
}

/// One read into the part of the buffer that is not filled, which has room: how many bytes came, and none at the end.
fn read_more<R: Read>(
    reader: &mut Watched<R>,
    buffer: &mut [u8],
    filled: usize,
) -> Result<usize, WireFault>
    requires going { reader.old.failed ≡ false }
    requires unended { reader.old.ended ≡ false }
    requires room { filled < length buffer.old }
    ensures kept { take filled buffer.new ≡ take filled buffer.old }
    ensures within { IfOk result (λ count. filled + count ≤ length buffer.new) }
    ensures bytes { IfOk result (λ count. Consumes (R.remaining reader.old.inner) (R.remaining reader.new.inner)
        (take count (drop filled buffer.new))) }
    ensures ended { IfOk result (λ count. (count ≡ 0 → reader.new.ended ≡ true) × (0 < count → reader.new.ended ≡ false)) }
    ensures at_end { IfOk result (λ count. count ≡ 0 → IsAtEnd (R.remaining reader.new.inner)) }
    ensures latest { IfOk result (λ count. reader.new.latest ≡ count) }
    ensures failed { IfOk result (λ _. reader.new.failed ≡ false) }
    ensures fault { IfErr result (λ fault. (fault ≡ WireFault.ReadFailed) × (reader.new.failed ≡ true)) }
{
    match reader.read(&mut buffer[filled..]) {
        Ok(count) => Ok(count),
        Err(_) => Err(WireFault::ReadFailed),
    }
}

/// Reads until the bytes say what they ask for, at most 8,192 of them, and no further.
pub(crate) fn hear<R: Read>(reader: &mut Watched<R>) -> Result<Wanted, WireFault>
    requires going { reader.old.failed ≡ false }
    requires unended { reader.old.ended ≡ false }
    ensures hears { Hears (R.remaining reader.old.inner) (R.remaining reader.new.inner) reader.new.ended reader.new.latest
        result }
    ensures failed { reader.new.failed ≡ is_read_failed result }
{
    let mut buffer = [0; MAX_HEAD];
    let mut filled = 0;
    while filled < MAX_HEAD {
        let count = read_more(reader, &mut buffer, filled)?;
        if count == 0 {
            if filled == 0 {
                return Err(WireFault::EndBeforeHead);
            }
            return Ok(refused_request(Status::BadRequest));
        }
        filled += count;
        if let Some(wanted) = judge(&buffer[..filled]) {
            return Ok(wanted);
        }
    }
    Ok(refused_request(Status::TooLarge))
}
