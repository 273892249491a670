ghost use Rattle.std.specs.Prelude.{◌≡◌, ◌<◌, ◌≤◌, ◌++◌, [], true, false, length, take, IfErr, OnOk, is_err};
ghost use Rattle.std.specs.Io.KnownBytes.{Appends};
ghost use Rattle.expo_text.specs.Shown.{shown_text};

use crate::front::Front;
use crate::piece::Piece;
use crate::scrape::Scrape;
use crate::sink::Sink;
use crate::writer::put_groups;
use itoa::Buffer;
use std::io::Write;
use thiserror::Error;
use watched::Watched;

/// Refusal 25: the writer failed when it had taken `sent` bytes of the text, which are its first.
#[derive(Clone, Copy, Debug, PartialEq, Eq, Error)]
#[error("the writer failed after {sent} bytes of the text")]
pub struct WriteFailed {
    pub sent: usize,
}

impl WriteFailed {
    /// The refusal's number.
    pub fn number(&self) -> u8
        ensures { result ≡ 25 }
    {
        25
    }
}

/// One call of `write`: how many bytes the writer took, which is none where it fails.
fn write_once<W: Write>(out: &mut Watched<W>, bytes: &[u8]) -> usize
    requires going { out.old.failed ≡ false }
    requires some { 0 < length bytes.now }
    ensures within { result ≤ length bytes.now }
    ensures taken { Appends (W.contents out.old.inner) (W.contents out.new.inner) (take result bytes.now) }
    ensures went { out.new.failed ≡ false → 0 < result }
    ensures stopped { out.new.failed ≡ true → result ≡ 0 }
    ensures ended { out.new.ended ≡ out.old.ended }
{
    match out.write(bytes) {
        Ok(taken) => taken,
        Err(_) => 0,
    }
}

/// Writes a piece until the writer fails, and answers how many bytes the writer took; where it had failed, none.
fn send_piece<W: Write>(out: &mut Watched<W>, piece: &[u8]) -> usize
    ensures within { result ≤ length piece.now }
    ensures taken { Appends (W.contents out.old.inner) (W.contents out.new.inner) (take result piece.now) }
    ensures whole { out.new.failed ≡ false → (out.old.failed ≡ false) × (result ≡ length piece.now) }
    ensures stopped { out.new.failed ≡ true → out.old.failed ≡ false → result < length piece.now }
    ensures still { out.old.failed ≡ true → result ≡ 0 }
    ensures ended { out.new.ended ≡ out.old.ended }
{
    let mut done = 0;
    while done < piece.len() && !out.failed() {
        done += write_once(out, &piece[done..]);
    }
    done
}

/// Sends bytes to a writer. Takes no memory, and does not flush. The writer has not failed before.
///
/// Refusal 25 [`WriteFailed`] the first time that the writer has failed, and no other.
pub fn send<W: Write>(bytes: &[u8], out: &mut Watched<W>) -> Result<(), WriteFailed>
    requires not_failed { out.old.failed ≡ false }
    ensures sent { OnOk result (Appends (W.contents out.old.inner) (W.contents out.new.inner) bytes.now) }
    ensures part { IfErr result (λ fault. (fault.sent < length bytes.now)
        × Appends (W.contents out.old.inner) (W.contents out.new.inner) (take fault.sent bytes.now)) }
    ensures failed { out.new.failed ≡ is_err result }
    ensures ended { out.new.ended ≡ out.old.ended }
{
    let sent = send_piece(out, bytes);
    if out.failed() {
        return Err(WriteFailed { sent });
    }
    Ok(())
}

/// A text on its way to a writer: the bytes that wait to go out together, and how many the writer has taken.
#[derive(Drop)]
struct Sending<'a, W> {
    out: &'a mut Watched<W>,
    waiting: Piece,
    sent: usize,
}

impl<W: Write> Sending<'_, W> {
    ghost use Rattle.expo_text.specs.Sends.{Sends, sender_of};

    /// Sends the bytes that wait, until the writer fails; where it had failed, none.
    fn send(&mut self)
        ensures same { self.new.out.ghost_name ≡ self.old.out.ghost_name }
        ensures sent { Sends (sender_of W.contents self.old.out.now self.old.waiting self.old.sent)
            (sender_of W.contents self.new.out.now self.new.waiting self.new.sent) [] }
        ensures none { self.new.waiting ≡ [] }
    {
        let done = send_piece(self.out, self.waiting.bytes());
        self.sent = self.sent.wrapping_add(done);
        self.waiting.clear();
    }

    /// Sends the bytes that wait where there is no room for more.
    fn make_room(&mut self)
        ensures same { self.new.out.ghost_name ≡ self.old.out.ghost_name }
        ensures sent { Sends (sender_of W.contents self.old.out.now self.old.waiting self.old.sent)
            (sender_of W.contents self.new.out.now self.new.waiting self.new.sent) [] }
        ensures room { length self.new.waiting < 16384 }
    {
        if self.waiting.is_full() {
            self.send();
        }
    }

    /// Takes the first of these bytes, and answers how many.
    fn take(&mut self, bytes: &[u8]) -> usize
        requires { 0 < length bytes.now }
        ensures some { 0 < result }
        ensures within { result ≤ length bytes.now }
        ensures same { self.new.out.ghost_name ≡ self.old.out.ghost_name }
        ensures sent { Sends (sender_of W.contents self.old.out.now self.old.waiting self.old.sent)
            (sender_of W.contents self.new.out.now self.new.waiting self.new.sent) (take result bytes.now) }
    {
        self.make_room();
        self.waiting.take(bytes)
    }

    /// Takes these bytes part by part, until the writer fails.
    fn put_parts(&mut self, bytes: &[u8])
        ensures same { self.new.out.ghost_name ≡ self.old.out.ghost_name }
        ensures sent { Sends (sender_of W.contents self.old.out.now self.old.waiting self.old.sent)
            (sender_of W.contents self.new.out.now self.new.waiting self.new.sent) bytes.now }
    {
        let mut at = 0;
        while at < bytes.len() && !self.out.failed() {
            at += self.take(&bytes[at..]);
        }
    }
}

impl<W: Write> Sink for Sending<'_, W> {
    ghost use Rattle.expo_text.specs.Sends.{Sends, sender_of, sends-nothing, sends-chain};
    ghost use Rattle.std.proofs.Common.{refl, ◌∙◌};

    ghost took = { λ a b xs. (b.out.ghost_name ≡ a.out.ghost_name)
        × Sends (sender_of W.contents a.out.now a.waiting a.sent)
        (sender_of W.contents b.out.now b.waiting b.sent) xs };

    fn put(&mut self, bytes: &[u8]) {
        if !self.waiting.push(bytes) {
            self.put_parts(bytes);
        }
    }

    fn put_decimal(&mut self, number: u64) {
        if !self.waiting.push_decimal(number) {
            let mut buffer = Buffer::new();
            self.put_parts(buffer.format(number).as_bytes());
        }
    }

    ghost nothing = { λ a. (refl, sends-nothing _) };

    ghost chain = { λ a b c xs ys first second. (second.0 ∙ first.0, sends-chain _ _ _ xs ys first.1 second.1) };
}

/// Sends bytes, which are at most 16,384, and then the text of a scrape to a writer, in pieces of at most 16,384 bytes. Takes
/// no memory, and does not flush. The writer has not failed before.
///
/// Refusal 25 [`WriteFailed`] the first time that the writer has failed, and no other.
pub fn write_after<W: Write>(
    front: &[u8],
    scrape: &Scrape,
    out: &mut Watched<W>,
) -> Result<(), WriteFailed>
    requires not_failed { out.old.failed ≡ false }
    requires short { length front.now ≤ 16384 }
    ensures sent { OnOk result (Appends (W.contents out.old.inner) (W.contents out.new.inner) (front.now ++ shown_text
        scrape.now)) }
    ensures part { IfErr result (λ fault. (fault.sent < length (front.now ++ shown_text scrape.now))
        × Appends (W.contents out.old.inner) (W.contents out.new.inner) (take fault.sent (front.now ++ shown_text scrape.now))) }
    ensures failed { out.new.failed ≡ is_err result }
    ensures ended { out.new.ended ≡ out.old.ended }
{
    let mut sending = Sending {
        out,
        waiting: Piece::new(),
        sent: 0,
    };
    sending.put(front);
    put_groups(&mut sending, &mut Front::new(), scrape);
    sending.send();
    if sending.out.failed() {
        return Err(WriteFailed { sent: sending.sent });
    }
    Ok(())
}

/// Sends the text of a scrape to a writer, in pieces of at most 16,384 bytes. Takes no memory, and does not flush. The writer
/// has not failed before.
///
/// Refusal 25 [`WriteFailed`] the first time that the writer has failed, and no other. Source: Prometheus documentation,
/// "Exposition formats", "Text format details".
pub fn write_to<W: Write>(scrape: &Scrape, out: &mut Watched<W>) -> Result<(), WriteFailed>
    requires not_failed { out.old.failed ≡ false }
    ensures sent { OnOk result (Appends (W.contents out.old.inner) (W.contents out.new.inner) (shown_text scrape.now)) }
    ensures part { IfErr result (λ fault. (fault.sent < length (shown_text scrape.now))
        × Appends (W.contents out.old.inner) (W.contents out.new.inner) (take fault.sent (shown_text scrape.now))) }
    ensures failed { out.new.failed ≡ is_err result }
    ensures ended { out.new.ended ≡ out.old.ended }
{
    write_after(&[], scrape, out)
}
