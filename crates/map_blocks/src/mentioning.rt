//! What the names that a line mentions hang on.
ghost use Rattle.std.specs.Prelude.{◌≡◌, ◌==◌, ◌&&◌, ◌||◌, [], false, ◌≤◌, drop, length, not, take, unwrap_or};
ghost use Rattle.std.specs.List.{list_any};
ghost use Rattle.map_script.specs.Defines.{define_words};
ghost use Rattle.map_script.specs.Lines.{let_words, name_in};
ghost use Rattle.map_script.specs.Loops.{loop_words};
ghost use Rattle.map_script.specs.Words.{text_words};
ghost use Rattle.map_blocks.specs.Naming.{are_sums_settled, first_of_words, front_name, gives_anew, gives_name, gives_one_of, is_bare_word, is_name_front, is_place_front, is_plain_line, is_plain_name, is_settled, may_give, mentions_given, mentions_unknown, one_gives, one_may_give, only_name};

use crate::naming::{
    front_name, gives_name, is_bare_word, is_name_front, is_place_front, may_give, next_dollar,
};
use crate::wording::next_word;
use map_script::{ScriptLines, define_words, defined_name, first_word, let_words, loop_words};

// ---- Lines that give names

// Whether one of so many first lines gives a name.
fn one_gives(lines: &ScriptLines, count: usize, name: &[u8]) -> bool
    requires { count ≤ length lines.now }
    ensures { result ≡ one_gives (take count lines.now) name.now }
{
    for place in 0..count {
        if gives_name(name, lines.line(place).text) {
            return true;
        }
    }
    false
}

// Whether one of some lines that were refused may be meant to give a name.
fn one_may_give(lines: &ScriptLines, name: &[u8]) -> bool
    ensures { result ≡ one_may_give lines.now name.now }
{
    for place in 0..lines.len() {
        if may_give(name, lines.line(place).text) {
            return true;
        }
    }
    false
}

// Whether a text has a `$`.
fn has_dollar(text: &[u8]) -> bool
    ensures { result ≡ list_any (λ b. b == 36) text.now }
{
    text.iter().any(|b| *b == b'$')
}

// Whether a line is a `let` or a `for` without a `$`.
fn is_plain_line(line: &[u8]) -> bool
    ensures { result ≡ is_plain_line line.now }
{
    (let_words(line).is_some() || loop_words(line).is_some()) && !has_dollar(line)
}

// Whether a line gives a name otherwise than by plain words.
fn gives_unplain(name: &[u8], line: &[u8]) -> bool
    ensures { result ≡ (gives_name name.now line.now && not (is_plain_line line.now)) }
{
    gives_name(name, line) && !is_plain_line(line)
}

// Whether each of some lines that gives a name gives it by plain words.
fn is_plain_name(lines: &ScriptLines, name: &[u8]) -> bool
    ensures { result ≡ is_plain_name lines.now name.now }
{
    for place in 0..lines.len() {
        if gives_unplain(name, lines.line(place).text) {
            return false;
        }
    }
    true
}

// ---- Names that a line mentions

// Whether a name stands behind a `$` that one of some lines may be meant to give.
fn is_given_front(given: &ScriptLines, text: &[u8]) -> bool
    ensures { result
        ≡ (is_name_front text.now && one_may_give given.now (front_name text.now)) }
{
    is_name_front(text) && one_may_give(given, front_name(text))
}

// Whether a name stands behind a `$` that none of so many first lines gives.
fn is_unknown_front(lines: &ScriptLines, count: usize, text: &[u8]) -> bool
    requires { count ≤ length lines.now }
    ensures { result ≡ (is_name_front text.now
        && not (one_gives (take count lines.now) (front_name text.now))) }
{
    is_name_front(text) && !one_gives(lines, count, front_name(text))
}

/// Whether a line mentions a name that one of some lines may be meant to give.
pub fn mentions_given(given: &ScriptLines, line: &[u8]) -> bool
    ensures { result ≡ mentions_given given.now line.now }
{
    let mut rest = line;
    while let Some(text) = next_dollar(rest) {
        if is_given_front(given, text) {
            return true;
        }
        rest = text;
    }
    false
}

/// Whether a line mentions a name that none of so many first lines of a script gives.
pub fn mentions_unknown(lines: &ScriptLines, count: usize, line: &[u8]) -> bool
    requires { count ≤ length lines.now }
    ensures { result ≡ mentions_unknown (take count lines.now) line.now }
{
    let mut rest = line;
    while let Some(text) = next_dollar(rest) {
        if is_unknown_front(lines, count, text) {
            return true;
        }
        rest = text;
    }
    false
}

// Whether a plain name stands behind a `$`, or a place that may stand there.
fn is_settled_front(places: bool, lines: &ScriptLines, text: &[u8]) -> bool
    ensures { result ≡ ((is_name_front text.now && is_plain_name lines.now (front_name text.now))
        || (places && is_place_front text.now)) }
{
    (is_name_front(text) && is_plain_name(lines, front_name(text)))
        || (places && is_place_front(text))
}

/// Whether each `$` of a line stands before a name that hangs on no map; or, if `places`, before a place of an item
/// other than a thing.
pub fn is_settled(places: bool, lines: &ScriptLines, line: &[u8]) -> bool
    ensures { result ≡ is_settled places lines.now line.now }
{
    let mut rest = line;
    while let Some(text) = next_dollar(rest) {
        if !is_settled_front(places, lines, text) {
            return false;
        }
        rest = text;
    }
    true
}

// Whether a word is no sum, or one that hangs on no map.
fn is_sum_settled(lines: &ScriptLines, word: &[u8]) -> bool
    ensures { result ≡ (is_bare_word word.now || is_settled false lines.now word.now) }
{
    is_bare_word(word) || is_settled(false, lines, word)
}

/// Whether each sum of a line hangs on no map.
pub fn are_sums_settled(lines: &ScriptLines, line: &[u8]) -> bool
    ensures { result ≡ are_sums_settled lines.now line.now }
{
    let mut rest = line;
    while let Some((word, behind)) = next_word(rest) {
        if !is_sum_settled(lines, word) {
            return false;
        }
        rest = behind;
    }
    true
}

// ---- Names that are given again

// Whether one of the words of a text is a name that a line which was refused may be meant to give.
fn one_may_be_given(words: &[u8], line: &[u8]) -> bool
    ensures { result ≡ list_any (λ name. may_give name line.now) (text_words words.now) }
{
    let mut rest = words;
    while let Some((word, behind)) = next_word(rest) {
        if may_give(word, line) {
            return true;
        }
        rest = behind;
    }
    false
}

// Whether a line gives a name by `=` that another one, which was refused, may be meant to give.
fn names_one_of(line: &[u8], other: &[u8]) -> bool
    ensures { result ≡ list_any (λ name. may_give name other.now)
        (only_name (name_in (text_words line.now))) }
{
    match defined_name(line) {
        Some(name) => may_give(name, other),
        None => false,
    }
}

// The same of a `let`.
fn lets_one_of(line: &[u8], other: &[u8]) -> bool
    ensures { result ≡ list_any (λ name. may_give name other.now)
        (first_of_words (let_words (text_words line.now))) }
{
    match let_words(line) {
        Some(words) => may_give(first_word(words).0, other),
        None => false,
    }
}

// The same of a `for`.
fn counts_one_of(line: &[u8], other: &[u8]) -> bool
    ensures { result ≡ list_any (λ name. may_give name other.now)
        (first_of_words (loop_words (text_words line.now))) }
{
    match loop_words(line) {
        Some(words) => may_give(first_word(words).0, other),
        None => false,
    }
}

// The same of the parameters of a shape.
fn defines_one_of(line: &[u8], other: &[u8]) -> bool
    ensures { result ≡ list_any (λ name. may_give name other.now)
        (drop 1 (unwrap_or (define_words (text_words line.now)) [])) }
{
    match define_words(line) {
        Some(words) => one_may_be_given(first_word(words).1, other),
        None => false,
    }
}

// Whether a line gives a name that another one, which was refused, may be meant to give.
fn gives_one_of(line: &[u8], other: &[u8]) -> bool
    ensures { result ≡ gives_one_of line.now other.now }
{
    names_one_of(line, other)
        || lets_one_of(line, other)
        || counts_one_of(line, other)
        || defines_one_of(line, other)
}

/// Whether one of some lines gives a name that another one, which was refused, may be meant to give.
pub fn gives_anew(lines: &ScriptLines, other: &[u8]) -> bool
    ensures { result ≡ gives_anew lines.now other.now }
{
    for place in 0..lines.len() {
        if gives_one_of(lines.line(place).text, other) {
            return true;
        }
    }
    false
}
