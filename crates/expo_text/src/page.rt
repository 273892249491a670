ghost use Rattle.std.specs.Prelude.{◌≡◌, ◌↔◌, ◌<◌, ◌≤◌, ◌^◌, ℕ, List, length, IfOk, IsUtf8};
ghost use Rattle.expo_text.specs.Shifted.{IsShifted, shifted};
ghost use Rattle.expo_text.specs.Shown.{shown_text, ArePlain};
ghost use Rattle.expo_text.specs.Text.{text};
ghost use Rattle.expo_text.specs.Groups.{Group, groups_of};
ghost use Rattle.expo_text.specs.Reads.{Reads};
ghost use Rattle.expo_text.specs.ReadsTo.{ReadsTo, groups_to};

use crate::byte_count::count;
use crate::filling::{fill, fill_number};
use crate::front::Front;
use crate::scrape::Scrape;
use crate::sink::Sink;
use crate::writer::put_groups;
use metric_names::NoMemory;

/// Memory of a text's length, which is filled from the front on.
#[derive(Drop)]
struct Page {
    bytes: Vec<u8>,
    filled: usize,
    ghost within: { filled ≤ length bytes.items },
}

impl Sink for Page {
    ghost use Rattle.expo_text.specs.Fills.{Fills, fills-nothing, fills-chain};

    ghost took = { λ a b xs. Fills a.bytes.items b.bytes.items a.filled b.filled xs };

    fn put(&mut self, bytes: &[u8]) {
        self.filled = fill(&mut self.bytes, self.filled, bytes);
    }

    fn put_decimal(&mut self, number: u64) {
        self.filled = fill_number(&mut self.bytes, self.filled, number);
    }

    ghost nothing = { λ a. fills-nothing a.bytes.items a.filled };

    ghost chain = { λ a b c xs ys. fills-chain a.bytes.items b.bytes.items c.bytes.items a.filled b.filled c.filled xs ys };
}

/// The text of a scrape, in memory that the code takes once, at the text's length. It is UTF-8, and is read back as the groups
/// that the scrape prints, and as no others: of families whose numbers are shifted too, as exact decimals.
///
/// Refusal 6 [`NoMemory`], and no other. Source: Prometheus documentation, "Exposition formats",
/// "Text format details".
pub fn render(scrape: &Scrape) -> Result<Vec<u8>, NoMemory>
    ensures text { IfOk result (λ bytes. bytes.items ≡ shown_text scrape.now) }
    ensures utf8 { IfOk result (λ bytes. IsUtf8 bytes.items) }
    ensures reading { IfOk result (λ bytes. (groups : List Group) → ReadsTo 9 bytes.items groups ↔ (groups ≡ groups_to 9
        scrape.now)) }
    ensures plain { IfOk result (λ bytes. ArePlain scrape.now → bytes.items ≡ text scrape.now) }
    ensures plain_reading { IfOk result (λ bytes. ArePlain scrape.now
        → (groups : List Group) → Reads bytes.items groups ↔ (groups ≡ groups_of scrape.now)) }
    ensures to_no_place { (bytes : List ℕ) (groups : List Group) → ReadsTo 0 bytes groups ↔ Reads bytes groups }
    ensures one_text { (digits n : ℕ) (bytes : List ℕ) → n < 2 ^ 64 → IsShifted digits n bytes ↔ (bytes ≡ shifted digits n) }
    ensures one_number { (digits m n : ℕ) (bytes : List ℕ) → IsShifted digits m bytes → IsShifted digits n bytes → m ≡ n }
{
    let mut front = Front::new();
    let bytes = vec![in scrape.allocator(); 0; count(&mut front, scrape)]?;
    let mut page = Page { bytes, filled: 0 };
    put_groups(&mut page, &mut front, scrape);
    Ok(page.bytes)
}
