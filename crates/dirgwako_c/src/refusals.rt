//! The refusals in words.
ghost use Rattle.std.specs.Prelude.{◌≡◌, map, slice_get, MatchOption, Some, None};
ghost use Rattle.dirgwako_c.specs.About.{TellsRefusal};
ghost use Rattle.dirgwako_c.specs.declared.refusals.TheConstants.{REFUSALS};

use crate::buffers::hand_over;

/// Each refusal, at the place of its number; at 0 what stands for none.
pub const REFUSALS: [&str; 50] = [
    "done",
    "a name has no byte",
    "a byte cannot stand there in a name",
    "a text is too long",
    "a label name begins with two underscores",
    "a help text begins or ends with a blank or a tab",
    "out of memory",
    "a label stands there twice",
    "a histogram has no label `le`",
    "a family has at most 8 labels",
    "a bound is not above the one before, is over 2^48 - 1 or is the 25th",
    "there is no such counter, histogram, gauge or bucket",
    "a number would pass 2^48 - 1",
    "not 1 to 32 workers, or over 256 counters, 32 histograms, 64 gauges or 3 scrapers",
    "the scan was given up",
    "the worker has published 2^64 - 1 times",
    "the handle is of another registry",
    "a snapshot is below another",
    "a worker's recorder was not given back",
    "a name is shared with the lines of another family",
    "there is no such family",
    "there are not as many label values as labels",
    "all slots of this kind are used",
    "128 families are there",
    "a read failed",
    "a write failed",
    "the connection ended without a byte",
    "a line is not in the language",
    "there is no such child, or it is of another kind",
    "a gate stayed shut",
    "the system gave no thread",
    "the window is not 1 to 1,024 scrapes",
    "the crew was opened before",
    "the list or the tally is full",
    "the handle holds nothing",
    "no recorder is left",
    "a text is not UTF-8",
    "the buffer is too short",
    "a pointer is null",
    "a change is of no kind",
    "there is nothing of this number",
    "these are no numbers that were read",
    "no board of the registry has this number",
    "a family's numbers are shifted by more than 9 digits",
    "96 boards are there",
    "a family is registered on the board, or a board of the page has its id",
    "the family has 256 children",
    "two changes are of two boards",
    "the family is registered, without its child",
    "no scraper is left",
];

/// The text at a place, if there is one.
fn text_at<'a>(texts: &[&'a str], number: usize) -> Option<&'a str>
    ensures { MatchOption result (slice_get (map (λ text. text.now) texts.now) number ≡ None)
        (λ text. slice_get (map (λ text. text.now) texts.now) number ≡ Some text.now) }
{
    if number >= texts.len() {
        return None;
    }
    Some(texts[number])
}

/// What a refusal says, in a few words of English, at the front of a buffer that has room for it; `len` is how many bytes they
/// are.
///
/// Answers 40, no refusal has this number; 37, the buffer is too short: `len` tells what is needed.
#[unsafe(no_mangle)]
pub extern "C" fn dirgwako_c_refusal(number: usize, buffer: &mut [u8], len: &mut usize) -> u32
    ensures { TellsRefusal (slice_get (map (λ says. says.now) REFUSALS) number) result buffer.old buffer.new len.old len.new }
{
    let Some(says) = text_at(&REFUSALS, number) else {
        return 40;
    };
    hand_over(says.as_bytes(), buffer, len)
}
