//! Connections are answered until a flag is raised.
ghost use Rattle.std.specs.Prelude.{◌≡◌, IsErr};
ghost use Rattle.std.specs.Duration.{as_nanos};
ghost use Rattle.std.specs.Thread.{IsSync};

use crate::connection::answer;
use crate::serving::{Answered, PAUSE, TRIES};
use crate::shared::{FromShared, Shared};
use crate::threads::MOST;
use scrape_server::AskedAgain;
use std::io::{self, ErrorKind};
use std::net::TcpListener;
use std::sync::Wait;
use std::sync::atomic::{AtomicBool, Ordering};
use std::thread::{Threads, join, sleep};
use std::time::{Clock, Duration};

/// How long a thread waits where no connection came, in milliseconds: a flag is seen that soon.
const LOOK: u64 = 10;

impl Answered {
    /// None.
    fn none() -> Answered {
        Answered {
            replies: 0,
            faults: 0,
        }
    }

    /// These and those.
    fn and(self, other: Answered) -> Answered {
        Answered {
            replies: self.replies.saturating_add(other.replies),
            faults: self.faults.saturating_add(other.faults),
        }
    }

    /// One more, which was replied to, or not.
    fn with(self, is_replied: bool) -> Answered {
        let replies = u64::from(is_replied);
        self.and(Answered {
            replies,
            faults: 1 - replies,
        })
    }
}

/// Answers connections of a listener that waits for none, until the flag is raised.
fn answer_until<R: Wait + Clock, X: Shared>(
    rt: &R,
    listener: &TcpListener,
    registry: &X,
    patience: Duration,
    stop: &AtomicBool,
) -> io::Result<Answered> {
    let shared = registry;
    let mut source = AskedAgain {
        source: FromShared { rt, shared },
    };
    let mut answered = Answered::none();
    let mut failed = 0usize;
    for _turn in rt.forever() {
        if stop.load(Ordering::SeqCst) {
            return Ok(answered);
        }
        match listener.accept() {
            Ok((stream, _peer)) => {
                let reply = answer(rt, &stream, patience, &mut source);
                answered = answered.with(reply.is_some());
                failed = 0;
            }
            Err(why) if why.kind() == ErrorKind::WouldBlock => {
                sleep(rt, Duration::from_millis(LOOK));
            }
            Err(why) => {
                failed = failed.saturating_add(1);
                if failed >= TRIES {
                    return Err(why);
                }
                sleep(rt, Duration::from_millis(PAUSE));
            }
        }
    }
    unreachable!()
}

/// The same by one thread and by so many others.
fn answer_by<R: Threads + Wait + Clock + Sync, X: Shared + Sync>(
    rt: &R,
    listener: &TcpListener,
    registry: &X,
    patience: Duration,
    others: u8,
    stop: &AtomicBool,
) -> io::Result<Answered> {
    if others == 0 {
        return answer_until(rt, listener, registry, patience, stop);
    }
    let fewer = others - 1;
    let (one, more) = join(
        rt,
        || -> io::Result<Answered>
            requires { IsSync R.row }
        { answer_until(rt, listener, registry, patience, stop) },
        || -> io::Result<Answered>
            requires { IsSync R.row }
        { answer_by(rt, listener, registry, patience, fewer, stop) },
    );
    Ok(one?.and(more?))
}

/// [`serve_on_threads`](crate::serve_on_threads) until `stop` is true, which each thread sees behind the connection that it
/// answers, or within a hundredth of a second (a tenth, where its listener fails). As long may a connection wait to be accepted.
/// It tells what became of all connections. The listener does not wait for connections meanwhile (`set_nonblocking`), and does
/// again at the end.
///
/// # Errors
///
/// `InvalidInput` where `patience` is 0, or `threads` is not 1 to 32. The listener's, where it has failed 64 times in a row, a
/// tenth of a second apart: the other threads go on until `stop` is true.
pub fn serve_until<R: Threads + Wait + Clock + Sync, X: Shared + Sync>(
    rt: &R,
    listener: &TcpListener,
    registry: &X,
    patience: Duration,
    threads: u8,
    stop: &AtomicBool,
) -> io::Result<Answered>
    ensures patient { as_nanos patience ≡ 0 → IsErr result }
    ensures some { threads ≡ 0 → IsErr result }
{
    if patience.is_zero() || threads == 0 || threads > MOST {
        let bad = "patience is 0, or threads are not 1 to 32";
        return Err(io::Error::new(ErrorKind::InvalidInput, bad));
    }
    listener.set_nonblocking(true)?;
    let answered = answer_by(rt, listener, registry, patience, threads - 1, stop);
    listener.set_nonblocking(false)?;
    answered
}
