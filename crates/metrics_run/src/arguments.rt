//! The numbers among the program's arguments.
ghost use Rattle.std.specs.Prelude.{◌≡◌, ◌≢◌, ℕ, ◌<◌, decimal, IfNone, IfSome};
ghost use Rattle.metrics_run.specs.Arguments.{AsksServe, IsCount, IsPort};

use script_lines::read_number;

/// What the arguments ask for.
#[derive(Clone, Copy)]
pub(crate) enum Command {
    /// `script`
    Script,
    /// `serve PORT COUNT`
    Serve { port: u16, count: u64 },
}

/// A port: 0 to 65535.
fn read_port(word: &str) -> Option<u16>
    ensures some { IfSome result (λ port. IsPort port × (word.now ≡ decimal port)) }
    ensures none { IfNone result ((port : ℕ) → IsPort port → word.now ≢ decimal port) }
{
    let Some(number) = read_number(word) else {
        return None;
    };
    if number > 65_535 {
        return None;
    }
    Some(number as u16)
}

/// How many connections are accepted: 1 to 1,000,000.
fn read_count(word: &str) -> Option<u64>
    ensures some { IfSome result (λ count. IsCount count × (word.now ≡ decimal count)) }
    ensures none { IfNone result ((count : ℕ) → IsCount count → word.now ≢ decimal count) }
{
    let Some(number) = read_number(word) else {
        return None;
    };
    if number == 0 {
        return None;
    }
    if number > 1_000_000 {
        return None;
    }
    Some(number)
}

/// The port and the count of a server, if the words are such. Numbers are decimal digits without a leading zero but `0` itself.
pub(crate) fn read_serve(port: &str, count: &str) -> Option<(u16, u64)>
    ensures some { IfSome result (λ r. AsksServe port.now count.now r.0 r.1) }
    ensures none { IfNone result ((p n : ℕ) → ¬ (AsksServe port.now count.now p n)) }
{
    let Some(port) = read_port(port) else {
        return None;
    };
    let Some(count) = read_count(count) else {
        return None;
    };
    Some((port, count))
}
