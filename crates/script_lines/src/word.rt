ghost use Rattle.std.specs.Prelude.{◌≡◌, option_map};
ghost use Rattle.script_lines.specs.Reading.{cut_of, token_of, helped, helped_of, word_in};

use crate::line::Counting;
use crate::writing::is_writing;

/// The word that begins a line of several words.
#[derive(Clone, Copy)]
pub(crate) enum Word {
    Counter,
    Gauge,
    Histogram,
    Child,
    Window,
    Count(Counting),
}

/// What stands before the first blank and what stands after it, where there is one.
pub(crate) fn cut(text: &str) -> Option<(&str, &str)>
    ensures { option_map (λ c. (c.0.now, c.1.now)) result ≡ cut_of text.now }
{
    text.split_once(' ')
}

/// A token, and what follows the blank after it.
#[tactic(auto, unfolding(crate::specs::Reading::token_of))]
pub(crate) fn cut_token(text: &str) -> Option<(&str, &str)>
    ensures { option_map (λ c. (c.0.now, c.1.now)) result ≡ token_of text.now }
{
    let (token, rest) = cut(text)?;
    if token.is_empty() {
        None
    } else {
        Some((token, rest))
    }
}

fn with_help<'a>(token: &'a str, help: &'a str) -> Option<(&'a str, &'a str)>
    ensures { option_map (λ c. (c.0.now, c.1.now)) result ≡ helped token.now help.now }
{
    if token.is_empty() || !is_writing(help) {
        None
    } else {
        Some((token, help))
    }
}

/// A token, and the help after it: empty where there is none.
#[tactic(auto, unfolding(crate::specs::Reading::helped_of))]
pub(crate) fn cut_helped(text: &str) -> Option<(&str, &str)>
    ensures { option_map (λ c. (c.0.now, c.1.now)) result ≡ helped_of text.now }
{
    match cut(text) {
        Some((token, help)) => with_help(token, help),
        None => with_help(text, ""),
    }
}

/// The word that a line of several words begins with.
#[tactic(auto, unfolding(crate::specs::Reading::word_in))]
pub(crate) fn read_word(text: &str) -> Option<Word>
    ensures { result ≡ word_in text.now }
{
    if text == "counter" {
        Some(Word::Counter)
    } else if text == "gauge" {
        Some(Word::Gauge)
    } else if text == "histogram" {
        Some(Word::Histogram)
    } else if text == "child" {
        Some(Word::Child)
    } else if text == "inc" {
        Some(Word::Count(Counting::Inc))
    } else if text == "obs" {
        Some(Word::Count(Counting::Obs))
    } else if text == "up" {
        Some(Word::Count(Counting::Up))
    } else if text == "down" {
        Some(Word::Count(Counting::Down))
    } else if text == "window" {
        Some(Word::Window)
    } else {
        None
    }
}
