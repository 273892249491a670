//! Connections are answered by several threads at once.
ghost use Rattle.std.specs.Prelude.{IsErr};
ghost use Rattle.std.specs.Thread.{IsSync};

use crate::serving::serve_forever;
use crate::shared::Shared;
use std::io::{self, ErrorKind};
use std::net::TcpListener;
use std::sync::Wait;
use std::thread::{Threads, join};
use std::time::{Clock, Duration};

/// How many threads serve, at most.
pub(crate) const MOST: u8 = 32;

/// Answers connections for ever, by one thread and by so many others.
fn serve_by<R: Threads + Wait + Clock + Sync, X: Shared + Sync>(
    rt: &R,
    listener: &TcpListener,
    registry: &X,
    patience: Duration,
    others: u8,
) -> io::Result<()>
    ensures { IsErr result }
{
    if others == 0 {
        return serve_forever(rt, listener, registry, patience);
    }
    let fewer = others - 1;
    let (one, more) = join(
        rt,
        || -> io::Result<()>
            requires { IsSync R.row }
            ensures { IsErr result }
        { serve_forever(rt, listener, registry, patience) },
        || -> io::Result<()>
            requires { IsSync R.row }
            ensures { IsErr result }
        { serve_by(rt, listener, registry, patience, fewer) },
    );
    more?;
    one
}

/// [`serve_forever`] by `threads` threads, 1 to 32, of which each accepts connections and answers them: a client that is slow
/// holds up the one that answers it, and none of the others.
///
/// # Errors
///
/// `InvalidInput` where `patience` is 0, or `threads` is not 1 to 32. The listener's, when all threads have ended by it, as
/// [`serve_forever`]: it ends with nothing else.
pub fn serve_on_threads<R: Threads + Wait + Clock + Sync, X: Shared + Sync>(
    rt: &R,
    listener: &TcpListener,
    registry: &X,
    patience: Duration,
    threads: u8,
) -> io::Result<()>
    ensures { IsErr result }
{
    if threads == 0 || threads > MOST {
        return Err(io::Error::new(ErrorKind::InvalidInput, "threads are not 1 to 32"));
    }
    serve_by(rt, listener, registry, patience, threads - 1)
}
