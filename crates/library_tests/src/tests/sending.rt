//! Texts that are sent: in few calls, byte by byte, and to writers that fail.
ghost use Rattle.std.specs.Prelude.{◌≡◌, false};

use crate::asserts::{need, same, there};
use crate::made::{ALONE, scrape};
use crate::tests::limits::sized;
use expo_text::{WriteFailed, write_after, write_to};
use std::alloc::Global;
use std::io::{self, Error, ErrorKind, Write};
use std::process::Abort;
use watched::Watched;

// Takes so many bytes a call, and fails from a call on. What it takes fits into memory that was made before.
#[derive(Drop)]
struct Slow {
    taken: Vec<u8>,
    each: usize,
    calls: usize,
}

impl Write for Slow {
    fn write(&mut self, buf: &[u8]) -> io::Result<usize> {
        if self.calls == 0 {
            return Err(Error::from(ErrorKind::BrokenPipe));
        }
        self.calls -= 1;
        let count = self.each.min(buf.len());
        self.taken.extend_from_slice(&buf[..count])?;
        Ok(count)
    }

    // Nobody is to flush it.
    fn flush(&mut self) -> io::Result<()> {
        Err(Error::from(ErrorKind::BrokenPipe))
    }
}

fn make_slow(rt: &impl Abort, alloc: Global, each: usize, calls: usize) -> Watched<Slow>
    ensures { result.failed ≡ false }
{
    let taken = need(rt, Vec::with_capacity(alloc, 100_000));
    Watched::new(Slow { taken, each, calls })
}

/// A front and a text.
const BOTH: &[u8] = b"abc# TYPE a counter\na 0\n";

/// How many bytes a writer takes a call, how many calls it takes, what it is answered, and how many bytes it has then.
type Case = (usize, usize, Result<(), WriteFailed>, usize);

/// A front and a text go in one call, where the writer takes them, or byte by byte. Writers that fail within the front and within
/// the text, or that take none, have all before that.
static ENDS: [Case; 8] = [
    (100, 1, Ok(()), 24),
    (1, 24, Ok(()), 24),
    (1, 0, Err(WriteFailed { sent: 0 }), 0),
    (1, 2, Err(WriteFailed { sent: 2 }), 2),
    (1, 3, Err(WriteFailed { sent: 3 }), 3),
    (1, 23, Err(WriteFailed { sent: 23 }), 23),
    (0, 9, Err(WriteFailed { sent: 0 }), 0),
    (5, 2, Err(WriteFailed { sent: 10 }), 10),
];

#[test]
fn a_front_and_a_text(rt: HostRuntime) {
    let rt = &rt;
    let scrape = there(rt, scrape(rt, rt.alloc(), &ALONE));
    for &(each, calls, answer, sent) in &ENDS {
        let mut out = make_slow(rt, rt.alloc(), each, calls);
        same(rt, write_after(b"abc", &scrape, &mut out), answer);
        let taken = out.into_inner().taken;
        same(rt, Some(taken.as_slice()), BOTH.get(..sent));
    }
    same(rt, WriteFailed { sent: 0 }.number(), 25);
}

/// Four families of 4,518 bytes: a buffer of 16,384 bytes is sent twice.
#[test]
fn long_text_in_few_calls(rt: HostRuntime) {
    let rt = &rt;
    let scrape = sized(rt, rt.alloc(), 4);
    let mut out = make_slow(rt, rt.alloc(), 100_000, 2);
    same(rt, write_to(&scrape, &mut out), Ok(()));
    same(rt, out.into_inner().taken.len(), 18_072);
}
