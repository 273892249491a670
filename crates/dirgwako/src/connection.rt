//! One connection is answered, within the time that it may take.
ghost use Rattle.std.specs.Prelude.{◌≡◌, ◌⊎◌, true, false, Ok, Err, IfSome, IsNone, IsSome};
ghost use Rattle.scrape_http.specs.declared.fault.WireFault.{WireFault};
ghost use Rattle.scrape_http.specs.Serves.{IsServed, IsUnserved};
ghost use Rattle.scrape_server.specs.Again.{AsksAgain};
ghost use Rattle.dirgwako.specs.Answering.{Answers};

use crate::ending::end;
use crate::timed::Timed;
use scrape_http::{ScrapeFrom, Served, serve_one};
use scrape_server::AskedAgain;
use std::io::{Read, Write};
use std::net::TcpStream;
use std::time::{Clock, Duration, Instant};
use watched::Watched;

/// Reads a request from one end and writes its reply to the other, of a source that is asked again where a scan was given up:
/// [`serve_one`]. It tells the reply, or None where a read or a write failed, or the input ended.
fn reply<I: Read, O: Write, S: ScrapeFrom>(
    reader: &mut Watched<I>,
    writer: &mut Watched<O>,
    source: &mut AskedAgain<S>,
) -> Option<Served>
    requires reader_going { reader.old.failed ≡ false }
    requires reader_unended { reader.old.ended ≡ false }
    requires writer_going { writer.old.failed ≡ false }
    ensures answers { Answers S.gave S.again source.old.source source.new.source result }
    ensures whole { IfSome result
        (λ served. IsServed (λ before after answer. AsksAgain S.gave S.again before.source after.source answer) source.old
        source.new
        (I.remaining reader.old.inner) (I.remaining reader.new.inner)
        (O.contents writer.old.inner) (O.contents writer.new.inner) reader.new.ended reader.new.latest (Ok served)) }
    ensures flushed { IsSome result → writer.new.flushed ≡ true }
    ensures none { IsNone result → (fault : WireFault) × (reader.new.failed ≡ false
        → IsServed (λ before after answer. AsksAgain S.gave S.again before.source after.source answer) source.old source.new
        (I.remaining reader.old.inner) (I.remaining reader.new.inner)
        (O.contents writer.old.inner) (O.contents writer.new.inner) reader.new.ended reader.new.latest (Err fault))
        × (reader.new.failed ≡ true → IsUnserved source.old source.new
        (O.contents writer.old.inner) (O.contents writer.new.inner)) }
    ensures fault { IsNone result → (reader.new.failed ≡ true) ⊎ ((writer.new.failed ≡ true) ⊎ (reader.new.ended ≡ true)) }
{
    match serve_one(reader, writer, source) {
        Ok(served) => Some(served),
        Err(_) => None,
    }
}

/// Answers one connection, and tells the reply, or None where there was none. It may take as long as `patience`, of which what is
/// left, a second at most, is for its end behind the reply.
pub(crate) fn answer<R: Clock, S: ScrapeFrom>(
    clock: &R,
    stream: &TcpStream,
    patience: Duration,
    source: &mut AskedAgain<S>,
) -> Option<Served>
    ensures { Answers S.gave S.again source.old.source source.new.source result }
{
    let Ok(start) = Instant::now(clock) else {
        return None;
    };
    let at = Timed {
        clock,
        stream,
        start,
        patience,
    };
    let mut reader = Watched::new(at);
    let mut writer = Watched::new(at);
    let served = reply(&mut reader, &mut writer, source)?;
    // The reply is sent; that the client went away before the end is no fault of the service.
    let _ = end(at, served.status);
    Some(served)
}
