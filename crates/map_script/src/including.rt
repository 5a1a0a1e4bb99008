//! Lines in whose place the lines of a file stand: `include FILE`.
ghost use Rattle.std.specs.Prelude.{◌≡◌, MatchOption, None, Some, option_copied};
ghost use Rattle.std.specs.List.{list_any};
ghost use Rattle.map_script.specs.Includes.{include_words, is_include, only_word};
ghost use Rattle.map_script.specs.Views.{seen};
ghost use Rattle.map_script.specs.Words.{text_words};

use crate::resolving::defined_name;
use crate::script::{ScriptLine, ScriptLines};
use crate::words::next_word;

/// The `FILE` of a line `include FILE`. A line that gives a name `include` by `=` is none.
pub fn include_words(line: &[u8]) -> Option<&[u8]>
    ensures { MatchOption result (include_words (text_words line.now) ≡ None)
        (λ rest. include_words (text_words line.now) ≡ Some (text_words rest.now)) }
{
    let (first, rest) = next_word(line)?;
    if first == b"include".as_slice() && defined_name(line).is_none() {
        Some(rest)
    } else {
        None
    }
}

/// The word of a text that has one alone.
pub fn only_word(words: &[u8]) -> Option<&[u8]>
    ensures { option_copied result ≡ only_word (text_words words.now) }
{
    let (word, rest) = next_word(words)?;
    match next_word(rest) {
        Some(_) => None,
        None => Some(word),
    }
}

// Whether a line includes a file.
fn is_include(line: &ScriptLine<'_>) -> bool
    ensures { result ≡ is_include (seen line.now) }
{
    match include_words(line.text) {
        Some(_) => true,
        None => false,
    }
}

/// Whether one of the lines includes a file.
pub fn includes_any(lines: &ScriptLines) -> bool
    ensures { result ≡ list_any is_include lines.now }
{
    for place in 0..lines.len() {
        if is_include(&lines.line(place)) {
            return true;
        }
    }
    false
}
