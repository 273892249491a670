ghost use Rattle.std.specs.Prelude.{◌≡◌, ◌<◌, ◌^◌, length};
ghost use Rattle.expo_text.specs.Shown.{shown_text};

use crate::filling::digits;
use crate::front::Front;
use crate::scrape::Scrape;
use crate::sink::Sink;
use crate::writer::put_groups;

/// Counts the bytes of a text.
#[derive(Drop)]
struct ByteCount {
    len: usize,
}

impl Sink for ByteCount {
    ghost use Rattle.expo_text.specs.Counts.{Counts, counts-none, counts-more};

    ghost took = { λ a b xs. Counts a.len b.len (length xs) };

    fn put(&mut self, bytes: &[u8]) {
        self.len = self.len.wrapping_add(bytes.len());
    }

    fn put_decimal(&mut self, number: u64) {
        self.len = self.len.wrapping_add(digits(number));
    }

    ghost nothing = { λ a. counts-none a.len };

    ghost chain = { λ a b c xs ys. counts-more a.len b.len c.len xs ys };
}

/// How many bytes the text of a scrape has, counted with this front.
pub(crate) fn count(front: &mut Front, scrape: &Scrape) -> usize
    ensures len { result ≡ length (shown_text scrape.now) }
    ensures bounded { result < 2 ^ 33 }
{
    let mut count = ByteCount { len: 0 };
    put_groups(&mut count, front, scrape);
    count.len
}

/// How many bytes the text of a scrape has. Takes no memory.
pub fn text_len(scrape: &Scrape) -> usize
    ensures len { result ≡ length (shown_text scrape.now) }
    ensures bounded { result < 2 ^ 33 }
{
    count(&mut Front::new(), scrape)
}
