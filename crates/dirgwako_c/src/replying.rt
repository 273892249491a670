//! What C calls for the reply to a scraper.
ghost use Rattle.std.specs.Prelude.{◌≡◌};
ghost use Rattle.dirgwako_c.specs.Held.{Calls};
ghost use Rattle.dirgwako_c.specs.Registries.{scrapes_by, scrapes_alone, Replies};

use crate::buffers::hand_over;
use crate::handles::{RegistryHandle, ScraperHandle};
use dirgwako::serve_one;
use scrape_http::ScrapeFrom;
use std::alloc::Global;
use watched::Watched;

/// The reply to a request, at the front of a buffer that has room for it.
fn reply_to<S: ScrapeFrom>(
    alloc: Global,
    source: &mut S,
    request: &[u8],
    buffer: &mut [u8],
    len: &mut usize,
) -> u32
    ensures { Replies S.gave request.now result source.old source.new buffer.old buffer.new len.old len.new }
{
    let mut reader = Watched::new(request);
    let mut writer = Watched::new(Vec::new(alloc));
    let served = serve_one(&mut reader, &mut writer, source);
    let reply = writer.into_inner();
    match served {
        Ok(_) => hand_over(&reply, buffer, len),
        Err(fault) => u32::from(fault.number()),
    }
}

/// The reply to a request of HTTP, which C has read whole: head and body, as [`dirgwako::serve_one`] writes them; a 200 is the
/// text of a scrape. It stands at the front of the buffer, and `len` is how many bytes it has. The status is in its first line:
/// 200, 400, 404, 405, 431, or 503 where four scans of a board were given up, one after the other, or there was no memory for the
/// scrape.
///
/// Answers 34, the handle is empty; 26, the request has no byte; 25, there is no memory for the reply; 37, the buffer is too
/// short: `len` tells how many bytes this reply has, and a later one may have more. A scrape that was made is kept then as well.
#[unsafe(no_mangle)]
pub extern "C" fn dirgwako_c_reply(
    alloc: Global,
    registry: &mut RegistryHandle,
    request: &[u8],
    buffer: &mut [u8],
    len: &mut usize,
) -> u32
    ensures { Calls ((buffer.new ≡ buffer.old) × (len.new ≡ len.old)) (λ before after. Replies scrapes_by request.now result
        before after
        buffer.old buffer.new len.old len.new) result registry.old.value registry.new.value }
{
    let Some(mut held) = registry.take(alloc) else {
        return 34;
    };
    let answer = reply_to(alloc, &mut *held, request, buffer, len);
    registry.put(alloc, held);
    answer
}

/// The same by a scraper: [`dirgwako_c_reply`], beside the registry and other scrapers.
///
/// Answers 34, the handle is empty; 26, the request has no byte; 25, there is no memory for the reply; 37, the buffer is too
/// short: `len` tells how many bytes this reply has, and a later one may have more.
#[unsafe(no_mangle)]
pub extern "C" fn dirgwako_c_scraper_reply(
    alloc: Global,
    scraper: &mut ScraperHandle,
    request: &[u8],
    buffer: &mut [u8],
    len: &mut usize,
) -> u32
    ensures { Calls ((buffer.new ≡ buffer.old) × (len.new ≡ len.old)) (λ before after. Replies scrapes_alone request.now result
        before after
        buffer.old buffer.new len.old len.new) result scraper.old.value scraper.new.value }
{
    let Some(mut held) = scraper.take(alloc) else {
        return 34;
    };
    let answer = reply_to(alloc, &mut *held, request, buffer, len);
    scraper.put(alloc, held);
    answer
}
