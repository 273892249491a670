//! Scrapes of a registry that is lent.
ghost use Rattle.std.specs.Prelude.{◌≡◌, ℕ, true, false, IsOk, Result};
ghost use Rattle.expo_text.specs.Scraped.{Scraped};
ghost use Rattle.scrape_http.specs.declared.source.NoScrape.{NoScrape};
ghost use Rattle.scrape_http.specs.Serves.{IsServed, IsUnserved, is_read_failed, is_write_failed};
ghost use Rattle.scrape_server.specs.Scrapes.{Scrapes};

use crate::fault::no_scrape;
use expo_text::Scrape;
use registry_state::RegistryState;
use scrape_http::{NoScrape, ScrapeFrom, Served, WireFault, serve_one};
use snapshot_scan::Source;
use std::io::{Read, Write};
use watched::Watched;

/// What makes scrapes by itself: a registry without a lock, of any source of snapshots. It names, for contracts alone, what one
/// scrape does to it (`made`).
pub trait MakesScrapes {
    // How many times more it may be asked where a scan was given up.
    ghost again: { ℕ };

    // What a scrape says of what made it, before and after it, and of its answer.
    ghost made: { Self → Self → Result Scraped NoScrape → Type 0 };

    /// Makes a scrape.
    ///
    /// # Errors
    ///
    /// [`NoScrape`], 6 and 14.
    fn scrape(&mut self) -> Result<Scrape, NoScrape>
        ensures { made self.old self.new result };

    /// How many times more, at most, whoever serves or prints its scrapes asks it where a scan was given up (14): the same number
    /// for all of a type.
    fn again(&self) -> usize
        ensures { result ≡ again };
}

impl<
    S: Source<N, C, H, G>,
    const N: usize,
    const C: usize,
    const H: usize,
    const G: usize,
> MakesScrapes for RegistryState<S, N, C, H, G> {
    ghost again = { 3 };

    ghost made = { Scrapes N C H G S.recorded S.quit S.gave S.gave_up };

    fn scrape(&mut self) -> Result<Scrape, NoScrape> {
        match RegistryState::scrape(self) {
            Ok(scrape) => Ok(scrape),
            Err(fault) => Err(no_scrape(fault)),
        }
    }

    fn again(&self) -> usize {
        3
    }
}

/// A registry that is lent, as a source of scrapes.
#[derive(Drop)]
pub struct FromState<'a, X: MakesScrapes> {
    /// The registry.
    pub state: &'a mut X,
}

impl<X: MakesScrapes> ScrapeFrom for FromState<'_, X> {
    ghost again = { X.again };

    ghost gave = { λ before after answer. (after.state.ghost_name ≡ before.state.ghost_name)
        × X.made before.state.now after.state.now answer };

    /// The registry's scrape.
    fn scrape(&mut self) -> Result<Scrape, NoScrape> {
        MakesScrapes::scrape(&mut *self.state)
    }

    fn again(&self) -> usize {
        self.state.again()
    }
}

/// Serves one request from a registry: [`serve_one`], of which a 200 is the text of the scrape that the registry has kept, its
/// newest. By every other reply the registry is as it was, but that a scan was given up by a 503.
///
/// # Errors
///
/// 24, 25 and 26 as [`serve_one`].
pub fn serve_state<
    R: Read,
    W: Write,
    S: Source<N, C, H, G>,
    const N: usize,
    const C: usize,
    const H: usize,
    const G: usize,
>(
    reader: &mut Watched<R>,
    writer: &mut Watched<W>,
    state: &mut RegistryState<S, N, C, H, G>,
) -> Result<Served, WireFault>
    requires reader_going { reader.old.failed ≡ false }
    requires reader_unended { reader.old.ended ≡ false }
    requires writer_going { writer.old.failed ≡ false }
    ensures served { reader.new.failed ≡ false → IsServed (Scrapes N C H G S.recorded S.quit S.gave S.gave_up) state.old state.new
        (R.remaining reader.old.inner) (R.remaining reader.new.inner)
        (W.contents writer.old.inner) (W.contents writer.new.inner) reader.new.ended reader.new.latest result }
    ensures unserved { reader.new.failed ≡ true → IsUnserved state.old state.new
        (W.contents writer.old.inner) (W.contents writer.new.inner) }
    ensures flushed { IsOk result → writer.new.flushed ≡ true }
    ensures read_failed { reader.new.failed ≡ is_read_failed result }
    ensures write_failed { writer.new.failed ≡ is_write_failed result }
{
    serve_one(reader, writer, &mut FromState { state })
}
