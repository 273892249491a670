ghost use Rattle.std.specs.Prelude.{◌≡◌, option_map, IfSome, IfNone};
ghost use Rattle.script_lines.specs.Language.{Saying, IsLine};
ghost use Rattle.script_lines.specs.Line.{saying_of};
ghost use Rattle.script_lines.specs.Reading.{numbered_of, repeated, amount_of, family_of, histogram_of, child_of};
ghost use Rattle.script_lines.specs.Reading.{count_of, after_word, alone_in, worded_of, line_of};

use crate::list::{are_bounds, are_values};
use crate::number::read_number;
use crate::word::{Word, cut, cut_helped, cut_token, read_word};

/// How many workers a script has.
pub const WORKERS: u64 = 4;

/// The most times that one line counts.
pub const MOST_TIMES: u64 = 100_000;

/// What a worker does to a child.
#[derive(Clone, Copy)]
pub enum Counting {
    /// `inc`: increments a counter.
    Inc,
    /// `obs`: a histogram observes a value.
    Obs,
    /// `up`: raises a gauge.
    Up,
    /// `down`: lowers a gauge.
    Down,
}

/// A line of a script.
#[derive(Clone, Copy)]
pub enum Line<'a> {
    /// An empty line, or one that begins with `#`.
    Nothing,
    /// `counter NAME LABELS` or `counter NAME LABELS HELP`. The labels are names joined by commas, or `-` for none
    /// ([`crate::labels_of`]); the help is as it is written ([`crate::unescape`]), and empty where there is none.
    Counter {
        name: &'a str,
        labels: &'a str,
        help: &'a str,
    },
    /// `gauge NAME LABELS` or `gauge NAME LABELS HELP`.
    Gauge {
        name: &'a str,
        labels: &'a str,
        help: &'a str,
    },
    /// `histogram NAME LABELS BOUNDS` or `histogram NAME LABELS BOUNDS HELP`. The bounds are numbers joined by commas, or
    /// `-` for none ([`crate::bounds_of`]).
    Histogram {
        name: &'a str,
        labels: &'a str,
        bounds: &'a str,
        help: &'a str,
    },
    /// `child NAME` or `child NAME VALUE ..`: the values as they are written, one blank between two
    /// ([`crate::values_of`]); empty where there are none.
    Child {
        name: &'a str,
        values: &'a str,
    },
    /// `inc WORKER CHILD BY` or `inc WORKER CHILD BY TIMES`; `obs`, `up` and `down` likewise. The worker is below 4, the
    /// times are 1 to 100,000, and 1 where they are not given.
    Count {
        what: Counting,
        worker: usize,
        child: u64,
        by: u64,
        times: u64,
    },
    /// `go`.
    Go,
    /// `scrape`.
    Scrape,
    /// `settle`.
    Settle,
    /// `window SIZE`.
    Window {
        size: u64,
    },
}

struct Family<'a> {
    name: &'a str,
    labels: &'a str,
    help: &'a str,
}

#[tactic(auto, unfolding(crate::specs::Reading::family_of))]
fn read_family(text: &str) -> Option<Family<'_>>
    ensures { option_map (λ f. (f.name.now, f.labels.now, f.help.now)) result ≡ family_of text.now }
{
    let (name, rest) = cut_token(text)?;
    let (labels, help) = cut_helped(rest)?;
    Some(Family { name, labels, help })
}

#[tactic(auto, unfolding(crate::specs::Reading::histogram_of))]
fn read_histogram(text: &str) -> Option<Line<'_>>
    ensures { option_map saying_of result ≡ histogram_of text.now }
{
    let (name, rest) = cut_token(text)?;
    let (labels, rest) = cut_token(rest)?;
    let (bounds, help) = cut_helped(rest)?;
    if are_bounds(bounds) {
        Some(Line::Histogram {
            name,
            labels,
            bounds,
            help,
        })
    } else {
        None
    }
}

#[tactic(auto, unfolding(crate::specs::Reading::child_of))]
fn read_child(text: &str) -> Option<Line<'_>>
    ensures { option_map saying_of result ≡ child_of text.now }
{
    let (name, values) = match cut(text) {
        Some((_, values)) if !are_values(values) => return None,
        Some((name, values)) => (name, values),
        None => (text, ""),
    };
    if name.is_empty() {
        None
    } else {
        Some(Line::Child { name, values })
    }
}

/// A number, and what follows the blank after it.
#[tactic(auto, unfolding(crate::specs::Reading::numbered_of))]
fn cut_number(text: &str) -> Option<(u64, &str)>
    ensures { option_map (λ c. (c.0, c.1.now)) result ≡ numbered_of text.now }
{
    let (number, rest) = cut(text)?;
    let number = read_number(number)?;
    Some((number, rest))
}

fn read_repeated(by: &str, times: &str) -> Option<(u64, u64)>
    ensures { result ≡ repeated by.now times.now }
{
    let by = read_number(by)?;
    let times = read_number(times)?;
    if 1 <= times && times <= MOST_TIMES {
        Some((by, times))
    } else {
        None
    }
}

/// By how much, and how many times.
#[tactic(auto, unfolding(crate::specs::Reading::amount_of))]
fn read_amount(text: &str) -> Option<(u64, u64)>
    ensures { result ≡ amount_of text.now }
{
    match cut(text) {
        Some((by, times)) => read_repeated(by, times),
        None => Some((read_number(text)?, 1)),
    }
}

#[tactic(auto, unfolding(crate::specs::Reading::count_of))]
fn read_count(what: Counting, text: &str) -> Option<Line<'_>>
    ensures { option_map saying_of result ≡ count_of what text.now }
{
    let (worker, rest) = cut_number(text)?;
    let (child, rest) = cut_number(rest)?;
    let (by, times) = read_amount(rest)?;
    if worker < WORKERS {
        Some(Line::Count {
            what,
            worker: worker as usize,
            child,
            by,
            times,
        })
    } else {
        None
    }
}

#[tactic(auto, unfolding(crate::specs::Reading::after_word))]
fn read_after(word: Word, text: &str) -> Option<Line<'_>>
    ensures { option_map saying_of result ≡ after_word word text.now }
{
    match word {
        Word::Counter => {
            let Family { name, labels, help } = read_family(text)?;
            Some(Line::Counter { name, labels, help })
        }
        Word::Gauge => {
            let Family { name, labels, help } = read_family(text)?;
            Some(Line::Gauge { name, labels, help })
        }
        Word::Histogram => read_histogram(text),
        Word::Child => read_child(text),
        Word::Count(what) => read_count(what, text),
        Word::Window => {
            let size = read_number(text)?;
            Some(Line::Window { size })
        }
    }
}

#[tactic(auto, unfolding(crate::specs::Reading::alone_in))]
fn read_alone(text: &str) -> Option<Line<'_>>
    ensures { option_map saying_of result ≡ alone_in text.now }
{
    if text == "go" {
        Some(Line::Go)
    } else if text == "scrape" {
        Some(Line::Scrape)
    } else if text == "settle" {
        Some(Line::Settle)
    } else {
        None
    }
}

fn read_worded<'a>(first: &'a str, text: &'a str) -> Option<Line<'a>>
    ensures { option_map saying_of result ≡ worded_of first.now text.now }
{
    let word = read_word(first)?;
    read_after(word, text)
}

#[tactic(auto, unfolding(crate::specs::Reading::line_of))]
fn read_text(text: &str) -> Option<Line<'_>>
    ensures { option_map saying_of result ≡ line_of text.now }
{
    if text.is_empty() || text.as_bytes()[0] == b'#' {
        return Some(Line::Nothing);
    }
    match cut(text) {
        Some((first, rest)) => read_worded(first, rest),
        None => read_alone(text),
    }
}

/// Reads a line, without its line feed, or says that the language of scripts has no such line. Takes no memory, and time
/// that grows with the text's length.
pub fn read_line(text: &str) -> Option<Line<'_>>
    ensures some { IfSome result (λ line. IsLine text.now (saying_of line)) }
    ensures only { IfSome result (λ line. (other : Saying) → IsLine text.now other → other ≡ saying_of line) }
    ensures none { IfNone result ((other : Saying) → ¬ (IsLine text.now other)) }
{
    read_text(text)
}
