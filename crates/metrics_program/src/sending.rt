//! Bytes that are sent whole.
ghost use Rattle.std.specs.Prelude.{ℕ, take, ◌++◌, decimal, OnErr, OnOk};
ghost use Rattle.std.specs.Io.KnownBytes.{Appends};
ghost use Rattle.metrics_program.specs.Printed.{Begins};

use std::io::Write;

/// A reader or a writer failed.
#[derive(Clone, Copy, Debug, PartialEq, Eq)]
pub struct Broken;

/// Writes all the bytes, or says that a write failed or took none. Then the first of the bytes are written, and nothing else.
pub fn send<W: Write>(writer: &mut W, bytes: &[u8]) -> Result<(), Broken>
    ensures sent { OnOk result (Appends (W.contents writer.old) (W.contents writer.new) bytes.now) }
    ensures front { OnErr result ((sent : ℕ) × Appends (W.contents writer.old) (W.contents writer.new) (take sent bytes.now)) }
{
    let mut sent = 0;
    while sent < bytes.len() {
        match writer.write(&bytes[sent..]) {
            Ok(0) | Err(_) => return Err(Broken),
            Ok(taken) => sent += taken,
        }
    }
    Ok(())
}

/// Writes a word, a number, and what follows it. Where that fails, a beginning of them is written, and nothing else.
pub(crate) fn tell_number<W: Write>(
    writer: &mut W,
    word: &[u8],
    number: u64,
    end: &[u8],
) -> Result<(), Broken>
    ensures told { OnOk result (Appends (W.contents writer.old) (W.contents writer.new) (word.now ++ decimal number ++ end.now)) }
    ensures front { OnErr result
        (Begins (W.contents writer.old) (W.contents writer.new) (word.now ++ decimal number ++ end.now)) }
{
    let mut digits = itoa::Buffer::new();
    send(writer, word)?;
    send(writer, digits.format(number).as_bytes())?;
    send(writer, end)
}
