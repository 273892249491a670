ghost use Rattle.std.specs.Prelude.{◌≡◌};
ghost use Rattle.script_lines.specs.Reading.{number_written};

use itoa::Buffer;

/// Reads a number: decimal digits without a leading zero but `0` itself, at most the greatest `u64`.
pub fn read_number(text: &str) -> Option<u64>
    ensures { result ≡ number_written text.now }
{
    let Ok(number) = text.parse::<u64>() else {
        return None;
    };
    if Buffer::new().format(number) == text {
        Some(number)
    } else {
        None
    }
}
