//! Lines that open and close the blocks of a script: `for NAME FROM TO`, and `end`.
ghost use Rattle.std.specs.Prelude.{◌≡◌, IfErr, IfOk, MatchOption, None, Ok, Some};
ghost use Rattle.map_script.specs.Known.{scope_of};
ghost use Rattle.map_script.specs.Lines.{TellsScriptFault};
ghost use Rattle.map_script.specs.Loops.{closes, loop_name, loop_range, loop_words, opens, range_in, range_of};
ghost use Rattle.map_script.specs.Words.{text_words};

use crate::at_lines::at_words;
use crate::defining::define_words;
use crate::error::DrawError;
use crate::names::Names;
use crate::own_words::is_own_word;
use crate::reckoning::number_of;
use crate::reference::is_name;
use crate::resolving::{defined_name, replaced};
use crate::words::next_word;
use map_tables::Map;
use std::alloc::Global;

/// The numbers from which and up to which a loop counts.
#[derive(Clone, Copy)]
pub struct Range {
    pub from: i64,
    pub to: i64,
}

/// The `NAME FROM TO` of a line `for NAME FROM TO`. A line that gives a name `for` by `=` is none.
pub fn loop_words(line: &[u8]) -> Option<&[u8]>
    ensures { MatchOption result (loop_words (text_words line.now) ≡ None)
        (λ rest. loop_words (text_words line.now) ≡ Some (text_words rest.now)) }
{
    let (first, rest) = next_word(line)?;
    if first == b"for".as_slice() && defined_name(line).is_none() {
        Some(rest)
    } else {
        None
    }
}

/// Whether a line opens a block.
pub fn opens(line: &[u8]) -> bool
    ensures { result ≡ opens line.now }
{
    loop_words(line).is_some() || at_words(line).is_some() || define_words(line).is_some()
}

/// Whether a cleaned line closes a block.
pub fn closes(line: &[u8]) -> bool
    ensures { result ≡ closes line.now }
{
    line == b"end".as_slice()
}

// Two numbers as those of a loop, or the error of the first.
fn range_of(from: Result<i64, DrawError>, to: Result<i64, DrawError>) -> Result<Range, DrawError>
    ensures { result ≡ range_of from to }
{
    match (from, to) {
        (Err(error), _) => Err(error),
        (Ok(_), Err(error)) => Err(error),
        (Ok(from), Ok(to)) => Ok(Range { from, to }),
    }
}

// The numbers that the two words of a text write.
fn range_in(text: &[u8]) -> Result<Range, DrawError>
    ensures { result ≡ range_in (text_words text.now) }
{
    let Some((from, behind)) = next_word(text) else {
        return Err(DrawError::NotALoop);
    };
    let Some((to, behind)) = next_word(behind) else {
        return Err(DrawError::NotALoop);
    };
    if next_word(behind).is_some() {
        return Err(DrawError::NotALoop);
    }
    range_of(number_of(from), number_of(to))
}

/// The numbers of a loop: `words` is the NAME FROM TO of its line. The words behind NAME are resolved first.
///
/// # Errors
///
/// `NotAName` if the name is none or a word of the language, the error of the leftmost word that stands for nothing,
/// `NotALoop` without a name and two words, the error of the first that is no number, or `OutOfMemory`.
pub fn loop_range(alloc: Global, names: &Names, map: &Map, words: &[u8]) -> Result<Range, DrawError>
    ensures ok { IfOk result (λ range.
        loop_range (scope_of names.now) map.now.tables (text_words words.now) ≡ Ok range) }
    ensures fault { IfErr result (λ e. TellsScriptFault e
        (loop_range (scope_of names.now) map.now.tables (text_words words.now))) }
{
    let Some((name, behind)) = next_word(words) else {
        return Err(DrawError::NotALoop);
    };
    if !is_name(name) || is_own_word(name) {
        return Err(DrawError::NotAName);
    }
    match replaced(alloc, names, map, behind) {
        Ok(text) => range_in(&text),
        Err(error) => Err(error),
    }
}

/// The name of a loop: `words` is the NAME FROM TO of its line.
pub fn loop_name(words: &[u8]) -> &[u8]
    ensures { result.now ≡ loop_name (text_words words.now) }
{
    match next_word(words) {
        Some((name, _)) => name,
        None => &[],
    }
}
