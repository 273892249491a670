ghost use Rattle.std.specs.Prelude.{◌≡◌, ◌≤◌, ◌∷◌, [], length, Some, None, IfOk, OnErr, MatchOption, vec_len, vec_capacity};
ghost use Rattle.std.specs.Io.KnownBytes.{Keeps, Consumes, IsAtEnd};
ghost use Rattle.script_lines.specs.Language.{Lacks, feed};
ghost use Rattle.script_lines.specs.Cuts.{Cuts, TakesLine};
ghost use Rattle.script_lines.specs.declared.lines.TheConstants.{MAX_LINE_BYTES};

use metric_names::NoMemory;
use std::alloc::Global;
use std::io::{BufReader, Read};
use thiserror::Error;

/// The most bytes of a line, without its line feed.
pub const MAX_LINE_BYTES: usize = 4096;

/// What stands next in the input.
#[derive(Clone, Copy, Debug, PartialEq, Eq)]
pub enum Next {
    /// A line, which `bytes` now gives.
    Line,
    /// A line of more than 4,096 bytes: `bytes` now gives its first 4,096, and one more is taken.
    TooLong,
    /// No byte.
    End,
}

/// A reader failed, also where a later try could mend it.
#[derive(Clone, Copy, Debug, PartialEq, Eq, Error)]
#[error("the reader failed")]
pub struct Broken;

/// The reader's next byte, or none at its end.
fn read_byte<R: Read>(reader: &mut R) -> Result<Option<u8>, Broken>
    ensures byte { IfOk result
        (λ byte. MatchOption byte (Keeps (R.remaining reader.old) (R.remaining reader.new) × IsAtEnd (R.remaining reader.new))
        (λ b. Consumes (R.remaining reader.old) (R.remaining reader.new) (b ∷ []))) }
    ensures err { OnErr result (Keeps (R.remaining reader.old) (R.remaining reader.new)) }
{
    let mut byte = [0];
    match reader.read(&mut byte) {
        Ok(0) => Ok(None),
        Ok(_) => Ok(Some(byte[0])),
        Err(_) => Err(Broken),
    }
}

/// Takes the bytes of the reader's next line into `line`, which is empty and has room for them.
fn cut_line<R: Read>(reader: &mut R, line: &mut Vec<u8>) -> Result<Next, Broken>
    requires empty { line.old.items ≡ [] }
    requires room { MAX_LINE_BYTES ≤ vec_capacity line.old }
    ensures room { MAX_LINE_BYTES ≤ vec_capacity line.new }
    ensures short { vec_len line.new ≤ MAX_LINE_BYTES }
    ensures whole { Lacks feed line.new.items }
    ensures ok { IfOk result (λ next. Cuts (R.remaining reader.old) (R.remaining reader.new) line.new.items next) }
    ensures err { OnErr result (Consumes (R.remaining reader.old) (R.remaining reader.new) line.new.items) }
{
    while line.len() < MAX_LINE_BYTES {
        match read_byte(reader)? {
            Some(b'\n') => return Ok(Next::Line),
            Some(byte) => line.push_reserved(byte),
            None if line.is_empty() => return Ok(Next::End),
            None => return Ok(Next::Line),
        }
    }
    match read_byte(reader)? {
        Some(b'\n') | None => Ok(Next::Line),
        Some(_) => Ok(Next::TooLong),
    }
}

/// Cuts the bytes of a reader into lines, one at a time, in memory that is taken once.
#[derive(Drop)]
pub struct Lines<R> {
    reader: BufReader<R>,
    line: Vec<u8>,
    ghost reserved: { MAX_LINE_BYTES ≤ vec_capacity line },
    ghost short: { vec_len line ≤ MAX_LINE_BYTES },
    ghost whole: { Lacks feed line.items },
}

impl<R: Read + Drop> Lines<R> {
    ghost use Rattle.script_lines.specs.Lines.{line_bytes, unread};

    /// Before the first line. Takes all memory that the lines need.
    ///
    /// Refusal 6 [`NoMemory`], and no other.
    pub fn new(alloc: Global, reader: R) -> Result<Lines<R>, NoMemory>
        ensures unread { IfOk result (λ lines. Keeps (R.remaining reader) (unread R.remaining lines)) }
        ensures empty { IfOk result (λ lines. line_bytes lines ≡ []) }
    {
        let line = Vec::with_capacity(alloc, MAX_LINE_BYTES)?;
        let reader = BufReader::new(alloc, reader).map_err(|_| NoMemory)?;
        Ok(Lines { reader, line })
    }

    /// The bytes of the line, without its line feed: no byte of them is a line feed, and they are at most 4,096.
    pub fn bytes(&self) -> &[u8]
        ensures value { result.now ≡ line_bytes self.now }
        ensures short { length result.now ≤ MAX_LINE_BYTES }
        ensures whole { Lacks feed result.now }
    {
        &self.line
    }

    /// Goes to the next line. Each byte of the reader is given in one line, or is the line feed that ends it; the last line may
    /// lack it. Where the reader fails, `bytes` gives what was read of the line so far, which the next call lets go.
    /// Takes no memory.
    pub fn next(&mut self) -> Result<Next, Broken>
        ensures ok { IfOk result (λ next. Cuts (unread R.remaining self.old) (unread R.remaining self.new) (line_bytes self.new)
            next) }
        ensures line { IfOk result (λ next. TakesLine (unread R.remaining self.old) (unread R.remaining self.new)
            (line_bytes self.new) next) }
        ensures err { OnErr result (Consumes (unread R.remaining self.old) (unread R.remaining self.new) (line_bytes self.new)) }
    {
        self.line.clear();
        cut_line(&mut self.reader, &mut self.line)
    }
}
