//! Watched ends: each call is handed on once, with all that it was given, and is answered by the answer that it got.
ghost use Rattle.std.specs.Prelude.{◌≤◌, IfOk};

use crate::asserts::same;
use std::io::{self, Error, ErrorKind, Read, Write};
use std::process::Abort;
use watched::Watched;

// Counts its calls, notes how much the last one was given, and answers each with this number, or as one that was interrupted.
#[derive(Drop)]
struct Counting {
    calls: u64,
    given: usize,
    answer: Option<usize>,
}

impl Counting {
    fn new(answer: Option<usize>) -> Counting {
        Counting {
            calls: 0,
            given: 0,
            answer,
        }
    }

    fn turn(&mut self, len: usize) -> io::Result<usize>
        ensures { IfOk result (λ n. n ≤ len) }
    {
        self.calls = self.calls.saturating_add(1);
        self.given = len;
        match self.answer {
            Some(count) => Ok(count.min(len)),
            None => Err(Error::from(ErrorKind::Interrupted)),
        }
    }
}

impl Read for Counting {
    fn read(&mut self, buf: &mut [u8]) -> io::Result<usize> {
        self.turn(buf.len())
    }
}

impl Write for Counting {
    fn write(&mut self, buf: &[u8]) -> io::Result<usize> {
        self.turn(buf.len())
    }

    fn flush(&mut self) -> io::Result<()> {
        self.turn(0)?;
        Ok(())
    }
}

// One call was made, with so many bytes, and it was answered so.
fn expect_one(rt: &impl Abort, by: &Counting, given: usize, answer: io::Result<usize>) {
    same(rt, (by.calls, by.given), (1, given));
    same(rt, answer.ok(), by.answer);
}

// A reader: what it was answered, and whether that was noted as the end.
fn expect_read(rt: &impl Abort, buf: &mut [u8], answer: Option<usize>, ended: bool) {
    let mut from = Watched::new(Counting::new(answer));
    let got = from.read(buf);
    same(rt, (from.failed(), from.ended()), (answer.is_none(), ended));
    same(rt, from.latest(), answer.unwrap_or(0));
    expect_one(rt, &from.into_inner(), buf.len(), got);
}

// What a writer is given, its answer, and whether that is noted as a failure.
static WRITES: [(&[u8], Option<usize>, bool); 5] = [
    (b"ab", Some(2), false),
    (b"ab", Some(0), true),
    (b"", Some(0), false),
    (b"ab", None, true),
    (&[7; 10_000], Some(1), false),
];

#[test]
fn writes(rt: HostRuntime) {
    for &(bytes, answer, failed) in &WRITES {
        let mut to = Watched::new(Counting::new(answer));
        let got = to.write(bytes);
        same(&rt, (to.failed(), to.ended()), (failed, false));
        expect_one(&rt, &to.into_inner(), bytes.len(), got);
    }
}

#[test]
fn reads(rt: HostRuntime) {
    let rt = &rt;
    expect_read(rt, &mut [7; 2], Some(2), false);
    expect_read(rt, &mut [7; 2], Some(0), true);
    expect_read(rt, &mut [], Some(0), false);
    expect_read(rt, &mut [7; 2], None, false);
    expect_read(rt, &mut [7; 10_000], Some(1), false);
}

#[test]
fn flushes(rt: HostRuntime) {
    for answer in [Some(0), None] {
        let mut to = Watched::new(Counting::new(answer));
        let is_ok = to.flush().is_ok();
        let found = (is_ok, to.failed());
        same(&rt, found, (answer.is_some(), answer.is_none()));
        let by = to.into_inner();
        same(&rt, (by.calls, by.given), (1, 0));
    }
}
