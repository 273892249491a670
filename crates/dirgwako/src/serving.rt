//! Connections are accepted and answered, one after the other.
ghost use Rattle.std.specs.Prelude.{◌≡◌, ◌+◌, ◌<◌, ◌⊎◌, ℕ, Option, IfOk, OnErr, IsErr};
ghost use Rattle.std.specs.Duration.{as_nanos};
ghost use Rattle.scrape_http.specs.declared.serve.Served.{Served};
ghost use Rattle.dirgwako.specs.Answering.{Answers, AreAnswered, IsBroken};

use crate::closing::Owned;
use crate::connection::answer;
use crate::shared::{FromShared, Shared};
use scrape_http::{ScrapeFrom, Served};
use scrape_server::{AskedAgain, MakesScrapes};
use std::io::{self, ErrorKind};
use std::net::{TcpListener, TcpStream};
use std::sync::Wait;
use std::thread::sleep;
use std::time::{Clock, Duration};

/// How often in a row a listener may fail before its server gives up.
pub(crate) const TRIES: usize = 64;

/// How long a server waits after its listener has failed, in milliseconds.
pub(crate) const PAUSE: u64 = 100;

/// What became of connections.
#[derive(Clone, Copy, Debug, PartialEq, Eq)]
pub struct Answered {
    /// So many were replied to, whatever the status was.
    pub replies: u64,
    /// So many were not: the client went away, sent no byte, or took longer than the patience.
    pub faults: u64,
}

/// Where connections come from, each of which is answered. Each names, for contracts alone, what answering one does to it.
trait Connections {
    // What one connection says of what was there before it, what is there after it, and the reply, if there was one.
    ghost answered: { Self → Self → Option Served → Type 0 };

    // What is there where no connection came.
    ghost failed: { Self → Self → Type 0 };

    /// The next connection is answered.
    fn answer_next(&mut self) -> io::Result<Option<Served>>
        ensures answered { IfOk result (answered self.old self.new) }
        ensures failed { OnErr result (failed self.old self.new) };
}

/// A listener, with the source of the scrapes that its connections are answered with.
#[derive(Drop)]
struct Listening<'a, R, S> {
    clock: &'a R,
    listener: &'a TcpListener,
    source: AskedAgain<S>,
    patience: Duration,
}

impl<R: Clock, S: ScrapeFrom> Connections for Listening<'_, R, S> {
    ghost answered = { λ before after reply. Answers S.gave S.again before.source.source after.source.source reply };

    ghost failed = { λ before after. after.source ≡ before.source };

    fn answer_next(&mut self) -> io::Result<Option<Served>> {
        let stream = accept(self.clock, self.listener)?;
        Ok(answer(self.clock, &stream, self.patience, &mut self.source))
    }
}

/// The next connection. Where a client went away before it was accepted, or the system has no file left for a moment, the
/// listener tells that as a failure of its own, so one that fails is asked again a little later.
fn accept(clock: &impl Clock, listener: &TcpListener) -> io::Result<TcpStream> {
    for _try in 1..TRIES {
        if let Ok((stream, _peer)) = listener.accept() {
            return Ok(stream);
        }
        sleep(clock, Duration::from_millis(PAUSE));
    }
    let (stream, _peer) = listener.accept()?;
    Ok(stream)
}

/// Answers so many connections, and tells how many were replied to, and how many were not.
fn answer_all<T: Connections>(at: &mut T, connections: u64) -> io::Result<Answered>
    ensures replied { IfOk result (λ answered. AreAnswered T.answered connections answered.replies at.old at.new) }
    ensures all { IfOk result (λ answered. answered.replies + answered.faults ≡ connections) }
    ensures broken { OnErr result ((met : ℕ) × (met < connections) × IsBroken T.answered T.failed met at.old at.new) }
{
    let mut replies = 0;
    for _connection in 0..connections {
        if at.answer_next()?.is_some() {
            replies += 1;
        }
    }
    let faults = connections - replies;
    Ok(Answered { replies, faults })
}

/// Answers connections for ever, or until none comes.
fn answer_forever<R: Wait, T: Connections>(rt: &R, at: &mut T) -> io::Result<()>
    ensures ends { IsErr result }
    ensures broken { (met : ℕ) × IsBroken T.answered T.failed met at.old at.new }
{
    for _connection in rt.forever() {
        let _ = at.answer_next()?;
    }
    unreachable!()
}

// Nobody is answered in no time.
fn no_patience() -> io::Error {
    io::Error::new(ErrorKind::InvalidInput, "patience is 0")
}

/// Answers so many connections, one after the other, with scrapes of what is shared, a registry or a page behind its lock:
/// [`scrape_http::serve_one`]. What goes wrong with one of them does not end the others. Each may take as long as `patience`,
/// which is not 0: from when it is accepted until its request is read, its reply written and the connection ended, of which the
/// last takes a second at most: no client holds the server for longer. A scrape of a registry that was given up is asked for up
/// to three times more, and a page asks each board again by itself; then the reply is 503.
///
/// # Errors
///
/// `InvalidInput` where `patience` is 0. The listener's, where it has failed 64 times in a row, a tenth of a second apart.
pub fn serve<R: Wait + Clock, X: Shared>(
    rt: &R,
    listener: &TcpListener,
    registry: &X,
    patience: Duration,
    connections: u64,
) -> io::Result<Answered>
    ensures all { IfOk result (λ answered. answered.replies + answered.faults ≡ connections) }
    ensures patient { as_nanos patience ≡ 0 → IsErr result }
{
    if patience.is_zero() {
        return Err(no_patience());
    }
    let source = FromShared {
        rt,
        shared: registry,
    };
    answer_all(
        &mut Listening {
            clock: rt,
            listener,
            source: AskedAgain { source },
            patience,
        },
        connections,
    )
}

/// Answers the next connection as [`serve`], and tells its reply: None where the client went away, sent no byte, or took longer
/// than the patience. So a service counts its own replies by their status.
///
/// # Errors
///
/// As [`serve`].
pub fn serve_next<R: Wait + Clock, X: Shared>(
    rt: &R,
    listener: &TcpListener,
    registry: &X,
    patience: Duration,
) -> io::Result<Option<Served>>
    ensures { as_nanos patience ≡ 0 → IsErr result }
{
    if patience.is_zero() {
        return Err(no_patience());
    }
    let source = FromShared {
        rt,
        shared: registry,
    };
    let mut at = Listening {
        clock: rt,
        listener,
        source: AskedAgain { source },
        patience,
    };
    at.answer_next()
}

/// [`serve`] of a registry that nobody shares ([`RegistryState`](registry_state::RegistryState), as it is behind a lock; or what
/// else makes scrapes), which comes back after it. So its clauses say what each reply that it tells did to the registry: each 200
/// came of a scrape that this registry made and kept, and each other reply than 503 left it as it was. A scrape that was given up
/// is asked for up to [`MakesScrapes::again`] times more.
///
/// # Errors
///
/// As [`serve`]. What was answered until then is in the registry.
pub fn serve_alone<R: Clock, X: MakesScrapes + Drop>(
    clock: &R,
    listener: &TcpListener,
    state: X,
    patience: Duration,
    connections: u64,
) -> (io::Result<Answered>, X)
    ensures replied { IfOk result.0 (λ answered. AreAnswered (Answers X.made X.again) connections answered.replies state result.1) }
    ensures all { IfOk result.0 (λ answered. answered.replies + answered.faults ≡ connections) }
    ensures broken { OnErr result.0 (((as_nanos patience ≡ 0) × (result.1 ≡ state))
        ⊎ ((met : ℕ) × (met < connections) × IsBroken (Answers X.made X.again) (λ before after. after ≡ before) met state result.1)) }
    ensures patient { as_nanos patience ≡ 0 → IsErr result.0 }
{
    if patience.is_zero() {
        return (Err(no_patience()), state);
    }
    let mut at = Listening {
        clock,
        listener,
        source: AskedAgain {
            source: Owned { state },
        },
        patience,
    };
    let answered = answer_all(&mut at, connections);
    let Listening {
        clock: _,
        listener: _,
        source,
        patience: _,
    } = at;
    let AskedAgain { source } = source;
    let Owned { state } = source;
    (answered, state)
}

/// Answers connections for ever, as [`serve`].
///
/// # Errors
///
/// As [`serve`]: it ends with nothing else.
pub fn serve_forever<R: Wait + Clock, X: Shared>(
    rt: &R,
    listener: &TcpListener,
    registry: &X,
    patience: Duration,
) -> io::Result<()>
    ensures { IsErr result }
{
    if patience.is_zero() {
        return Err(no_patience());
    }
    let source = FromShared {
        rt,
        shared: registry,
    };
    answer_forever(
        rt,
        &mut Listening {
            clock: rt,
            listener,
            source: AskedAgain { source },
            patience,
        },
    )
}
