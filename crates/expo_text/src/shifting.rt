//! Numbers, with a point before the last of their digits.
ghost use Rattle.std.specs.Prelude.{◌≡◌, ◌<◌, ◌≤◌, ◌^◌, length, take};
ghost use Rattle.expo_text.specs.Shifted.{pointed, fraction, shifted};

use crate::sink::Sink;

/// Fills places with the digits after the point of so many parts, of which `unit` are one, until nothing is left, and answers
/// how many there are.
fn fill_fraction(places: &mut [u8; 9], digits: u8, unit: u64, parts: u64) -> usize
    requires few { digits ≤ 9 }
    requires unit { unit ≡ 10 ^ digits }
    requires below { parts < unit }
    ensures within { result ≤ 9 }
    ensures filled { take result places.new ≡ fraction digits parts }
{
    let mut unit = unit;
    let mut rest = parts;
    for filled in 0..digits as usize {
        if rest == 0 {
            return filled;
        }
        unit /= 10;
        places[filled] = b'0' + (rest / unit) as u8;
        rest %= unit;
    }
    digits as usize
}

/// Writes a point and the digits after it of so many parts, of which `unit` are one; where there are none, nothing.
fn put_fraction<S: Sink>(sink: &mut S, digits: u8, unit: u64, parts: u64)
    requires few { digits ≤ 9 }
    requires unit { unit ≡ 10 ^ digits }
    requires below { parts < unit }
    ensures { S.took sink.old sink.new (pointed (fraction digits parts)) }
{
    let mut places = [0; 9];
    let count = fill_fraction(&mut places, digits, unit, parts);
    if count > 0 {
        sink.put(b".");
        sink.put(&places[..count]);
    }
}

/// Writes a number shifted by so many digits, which may be 0.
#[inline(never)]
fn put_pointed<S: Sink>(sink: &mut S, digits: u8, number: u64)
    requires { digits ≤ 9 }
    ensures { S.took sink.old sink.new (shifted digits number) }
{
    let unit = 10u64.pow(digits as u32);
    sink.put_decimal(number / unit);
    put_fraction(sink, digits, unit, number % unit);
}

/// Writes a number shifted by so many digits.
#[inline(always)]
pub(crate) fn put_shifted<S: Sink>(sink: &mut S, digits: u8, number: u64)
    requires { digits ≤ 9 }
    ensures { S.took sink.old sink.new (shifted digits number) }
{
    if digits == 0 {
        sink.put_decimal(number);
    } else {
        put_pointed(sink, digits, number);
    }
}
