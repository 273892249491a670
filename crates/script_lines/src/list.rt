ghost use Rattle.std.specs.Prelude.{◌≡◌, ℕ, List, map, IfOk};
ghost use Rattle.script_lines.specs.Language.{AreLabels, AreBounds, AreValues};
ghost use Rattle.script_lines.specs.Reading as reading;

use crate::number::read_number;
use crate::writing::is_writing;
use metric_names::NoMemory;
use std::alloc::Global;

/// Whether the word is `-` or numbers joined by commas.
#[tactic(auto, unfolding(crate::specs::Reading::are_bounds))]
pub(crate) fn are_bounds(word: &str) -> bool
    ensures { result ≡ reading.are_bounds word.now }
{
    word == "-" || word.split(',').all(|part| read_number(part).is_some())
}

/// Whether the text is writings of label values, one blank between two.
#[tactic(auto, unfolding(crate::specs::Reading::are_values))]
pub(crate) fn are_values(text: &str) -> bool
    ensures { result ≡ reading.are_values text.now }
{
    text.split(' ')
        .all(|part| !part.is_empty() && is_writing(part))
}

/// The names of a line's labels, in their order: none for `-`. Whether they are good names is not asked.
///
/// Refusal 6 [`NoMemory`], and no other.
pub fn labels_of(alloc: Global, labels: &str) -> Result<Vec<&str>, NoMemory>
    ensures { IfOk result (λ names. AreLabels labels.now (map (λ name. name.now) names.items)) }
{
    if labels == "-" {
        return Ok(Vec::new(alloc));
    }
    let names = labels.split(',').collect(alloc)?;
    Ok(names)
}

/// The bounds of a line's histogram, in their order: none for `-`. Whether they rise is not asked.
///
/// Refusal 6 [`NoMemory`], and no other.
pub fn bounds_of(alloc: Global, bounds: &str) -> Result<Vec<u64>, NoMemory>
    requires { (numbers : List ℕ) × AreBounds bounds.now numbers }
    ensures { IfOk result (λ numbers. AreBounds bounds.now numbers.items) }
{
    let numbers = bounds
        .split(',')
        .filter_map(|part| read_number(part))
        .collect(alloc)?;
    Ok(numbers)
}

/// The label values of a line's child, in their order, each as it is written ([`crate::unescape`]): none for the empty text.
///
/// Refusal 6 [`NoMemory`], and no other.
pub fn values_of(alloc: Global, values: &str) -> Result<Vec<&str>, NoMemory>
    requires { (words : List (List ℕ)) × AreValues values.now words }
    ensures { IfOk result (λ words. AreValues values.now (map (λ word. word.now) words.items)) }
{
    if values.is_empty() {
        return Ok(Vec::new(alloc));
    }
    let words = values.split(' ').collect(alloc)?;
    Ok(words)
}
