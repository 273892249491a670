//! A connection that may take so long.
use std::alloc::AllocError;
use std::io::{ErrorKind, Read, Result, Write};
use std::net::TcpStream;
use std::time::{Clock, Duration, Instant};

/// A connection, of which all reads and writes together end with its time.
pub(crate) struct Timed<'a, R> {
    pub(crate) clock: &'a R,
    pub(crate) stream: &'a TcpStream,
    /// When it began.
    pub(crate) start: Instant,
    /// How long it may take.
    pub(crate) patience: Duration,
}

impl<R> Clone for Timed<'_, R> {
    fn clone(&self) -> std::result::Result<Self, AllocError> {
        Ok(*self)
    }
}

impl<R> Copy for Timed<'_, R> {}

impl<R: Clock> Timed<'_, R> {
    /// How long it may still take.
    pub(crate) fn left(&self) -> Result<Duration> {
        let left = self
            .patience
            .saturating_sub(self.start.elapsed(self.clock)?);
        if left.is_zero() {
            return Err(ErrorKind::TimedOut.into());
        }
        Ok(left)
    }
}

impl<R: Clock> Read for Timed<'_, R> {
    fn read(&mut self, buf: &mut [u8]) -> Result<usize> {
        self.stream.set_read_timeout(Some(self.left()?))?;
        let mut stream = self.stream;
        stream.read(buf)
    }
}

impl<R: Clock> Write for Timed<'_, R> {
    fn write(&mut self, buf: &[u8]) -> Result<usize> {
        self.stream.set_write_timeout(Some(self.left()?))?;
        let mut stream = self.stream;
        stream.write(buf)
    }

    fn flush(&mut self) -> Result<()> {
        Ok(())
    }
}
