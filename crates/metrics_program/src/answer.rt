//! Connections are answered, and their replies are counted.
ghost use Rattle.snapshot_update.specs.Workers.{IsWorkerOf};
ghost use Rattle.scrape_server.specs.Stream.{IsAskedOnce};
ghost use Rattle.metrics_program.specs.Counted.{WasCounted};

use crate::board::{Board, Worker};
use crate::metrics::Metrics;
use scrape_http::{ScrapeFrom, Served, WireFault, serve_one};
use scrape_server::close_behind;
use std::net::TcpStream;
use watched::Watched;

/// Who answers connections, one after the other. Each names, for contracts alone, what answering one does to it.
pub(crate) trait Answers {
    // It can answer one.
    ghost ready: { Self → Type 0 };

    // What one connection says of who answered it, before and after it.
    ghost answered: { Self → Self → Type 0 };

    /// Answers one connection.
    fn answer(&mut self, stream: &TcpStream)
        requires { ready self.old }
        ensures ready { ready self.new }
        ensures answered { answered self.old self.new };
}

/// Answers one request, and counts the reply as one version, before the connection ends. A request that ends in a fault is not
/// counted.
fn answer<S: ScrapeFrom>(
    board: &Board,
    metrics: &Metrics,
    source: &mut S,
    worker: &mut Worker,
    stream: &TcpStream,
) -> Result<Served, WireFault>
    requires { IsWorkerOf board.now worker.old }
    ensures asked { IsAskedOnce S.gave source.old source.new }
    ensures counted { WasCounted board.now metrics.now worker.old worker.new result }
{
    let mut reader = Watched::new(stream);
    let mut writer = Watched::new(stream);
    match serve_one(&mut reader, &mut writer, source) {
        Ok(served) => {
            // Were a word of the row near its limit, the reply would not be counted.
            let _ = worker.apply(board, &metrics.list(served));
            let _ = close_behind(stream, served.status);
            Ok(served)
        }
        Err(fault) => Err(fault),
    }
}

/// A worker that counts the replies, which are of this source.
#[derive(Drop)]
pub(crate) struct Answering<'a, S> {
    pub(crate) board: &'a Board,
    pub(crate) metrics: &'a Metrics,
    pub(crate) source: S,
    pub(crate) worker: Worker,
}

impl<S: ScrapeFrom> Answers for Answering<'_, S> {
    ghost use Rattle.std.specs.Prelude.{◌≡◌, Result};
    ghost use Rattle.scrape_http.specs.declared.fault.WireFault.{WireFault};
    ghost use Rattle.scrape_http.specs.declared.serve.Served.{Served};

    ghost ready = { λ it. IsWorkerOf it.board.now it.worker };

    ghost answered = { λ before after. (after.board.now ≡ before.board.now) × (after.metrics.now ≡ before.metrics.now)
        × ((result : Result Served WireFault)
        × WasCounted before.board.now before.metrics.now before.worker after.worker result) };

    fn answer(&mut self, stream: &TcpStream) {
        let _ = answer(
            self.board,
            self.metrics,
            &mut self.source,
            &mut self.worker,
            stream,
        );
    }
}
