//! Places of bytes that are filled from the front on.
ghost use Rattle.std.specs.Prelude.{◌≡◌, ◌≤◌, length, decimal};
ghost use Rattle.expo_text.specs.Fills.{Fills};

use itoa::write_digits;

/// How many decimal digits a number has.
pub(crate) fn digits(number: u64) -> usize
    ensures { result ≡ length (decimal number) }
{
    if number == 0 {
        return 1;
    }
    number.ilog10() as usize + 1
}

/// Fills places with these bytes from `filled` on, and answers how many are filled then. Where there is no room for all of
/// them, it fills none.
pub(crate) fn fill(places: &mut [u8], filled: usize, bytes: &[u8]) -> usize
    requires within { filled ≤ length places.old }
    ensures within { result ≤ length places.new }
    ensures filled { Fills places.old places.new filled result bytes.now }
{
    if bytes.len() > places.len() - filled {
        return filled;
    }
    let end = filled + bytes.len();
    places[filled..end].copy_from_slice(bytes);
    end
}

/// Fills places with the decimal digits of a number, as [`fill`] does.
pub(crate) fn fill_number(places: &mut [u8], filled: usize, number: u64) -> usize
    requires within { filled ≤ length places.old }
    ensures within { result ≤ length places.new }
    ensures filled { Fills places.old places.new filled result (decimal number) }
{
    let count = digits(number);
    if count > places.len() - filled {
        return filled;
    }
    let end = filled + count;
    let _ = write_digits(number, places, end);
    end
}
