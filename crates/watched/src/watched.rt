ghost use Rattle.std.specs.Prelude.{◌≡◌, ◌||◌, ◌&&◌, not, true, false, is_err, is_ok};
ghost use Rattle.std.specs.Io.{ReadsAtMost, WritesAtMost};
ghost use Rattle.std.specs.Io.KnownBytes.{Keeps, ReadConsumes, WriteAppends};
ghost use Rattle.watched.specs.Watched.{read_ends, write_fails, read_count, write_takes};

use std::io::{Read, Result, Write};
use std::marker::Model;

/// A reader or a writer: whether it has failed or ended so far, whether all that it took has been flushed, and how many
/// bytes its last read gave.
///
/// Contracts see the reader or the writer as `inner`, and the answers as `failed`, `ended`, `flushed` and `latest`.
/// Of what `read_exact` and `write_all` do to these answers they say nothing.
#[derive(Drop)]
pub struct Watched<T> {
    inner: T,
    failed: bool,
    ended: bool,
    flushed: bool,
    latest: usize,
}

impl<T> Model for Watched<T> {
    ghost use Rattle.watched.specs.Watched.{Watch, watch_code};

    ghost Value = { Watch T };

    ghost coded = { watch_code T.code };

    ghost view = { λ w. record { inner = w.inner; failed = w.failed; ended = w.ended; flushed = w.flushed; latest = w.latest } };
}

impl<T> Watched<T> {
    /// Neither failed nor ended; nothing waits to be flushed, and no byte was read. Takes no memory.
    pub fn new(inner: T) -> Watched<T>
        ensures inner { result.inner ≡ inner }
        ensures failed { result.failed ≡ false }
        ensures ended { result.ended ≡ false }
        ensures flushed { result.flushed ≡ true }
        ensures latest { result.latest ≡ 0 }
    {
        Watched {
            inner,
            failed: false,
            ended: false,
            flushed: true,
            latest: 0,
        }
    }

    /// Whether a read, a write or a flush answered an error, also one that a later try could mend,
    /// or a write of some bytes took none.
    pub fn failed(&self) -> bool
        ensures { result ≡ self.now.failed }
    {
        self.failed
    }

    /// Whether a read with room in its buffer found the end.
    pub fn ended(&self) -> bool
        ensures { result ≡ self.now.ended }
    {
        self.ended
    }

    /// Whether a flush answered Ok after the last write that took a byte, or no write did so far.
    pub fn flushed(&self) -> bool
        ensures { result ≡ self.now.flushed }
    {
        self.flushed
    }

    /// How many bytes the last read gave: 0 where it failed, and before the first one.
    pub fn latest(&self) -> usize
        ensures { result ≡ self.now.latest }
    {
        self.latest
    }

    /// Gives back the reader or the writer.
    pub fn into_inner(self) -> T
        ensures { result ≡ self.inner }
    {
        self.inner
    }
}

impl<R: Read> Read for Watched<R> {
    ghost remaining = { λ w. R.remaining w.inner };

    /// Reads from the reader inside, and notes an error or the end.
    fn read(&mut self, buf: &mut [u8]) -> Result<usize>
        ensures bound { ReadsAtMost result buf.new }
        ensures bytes { ReadConsumes (R.remaining self.old.inner) (R.remaining self.new.inner)
            result buf.new }
        ensures failed { self.new.failed ≡ (self.old.failed || is_err result) }
        ensures ended { self.new.ended ≡ (self.old.ended || read_ends result buf.old) }
        ensures flushed { self.new.flushed ≡ self.old.flushed }
        ensures latest { self.new.latest ≡ read_count result }
    {
        let result = self.inner.read(buf);
        self.latest = match &result {
            Ok(count) => *count,
            Err(_) => 0,
        };
        match &result {
            Ok(0) if !buf.is_empty() => self.ended = true,
            Ok(_) => {}
            Err(_) => self.failed = true,
        }
        result
    }
}

impl<W: Write> Write for Watched<W> {
    ghost contents = { λ w. W.contents w.inner };

    /// Writes to the writer inside, and notes an error, or that it took none of some bytes.
    fn write(&mut self, buf: &[u8]) -> Result<usize>
        ensures bound { WritesAtMost result buf.now }
        ensures bytes { WriteAppends (W.contents self.old.inner) (W.contents self.new.inner)
            result buf.now }
        ensures failed { self.new.failed ≡ (self.old.failed || write_fails result buf.now) }
        ensures ended { self.new.ended ≡ self.old.ended }
        ensures flushed { self.new.flushed ≡ (self.old.flushed && not (write_takes result)) }
        ensures latest { self.new.latest ≡ self.old.latest }
    {
        let result = self.inner.write(buf);
        match &result {
            Ok(n) if *n > 0 || buf.is_empty() => {}
            _ => self.failed = true,
        }
        if matches!(&result, Ok(n) if *n > 0) {
            self.flushed = false;
        }
        result
    }

    /// Flushes the writer inside, and notes an error, or that nothing waits any more.
    fn flush(&mut self) -> Result<()>
        ensures bytes { Keeps (W.contents self.old.inner) (W.contents self.new.inner) }
        ensures failed { self.new.failed ≡ (self.old.failed || is_err result) }
        ensures ended { self.new.ended ≡ self.old.ended }
        ensures flushed { self.new.flushed ≡ (self.old.flushed || is_ok result) }
        ensures latest { self.new.latest ≡ self.old.latest }
    {
        let result = self.inner.flush();
        self.failed |= result.is_err();
        self.flushed |= result.is_ok();
        result
    }
}
