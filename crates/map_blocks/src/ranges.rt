//! The forms of queries, the ranges of the numbers in commands, and lines with a number that is out of its range.
ghost use Rattle.std.specs.Prelude.{◌≡◌, ◌+◌, ◌==◌, ◌&&◌, ◌||◌, bytes_eq, drop};
ghost use Rattle.std.specs.List.{before_first, list_any};
ghost use Rattle.map_script.specs.Lines.{command_words};
ghost use Rattle.map_script.specs.Words.{first_word, text_words};
ghost use Rattle.map_blocks.specs.Ranges.{field_name, has_outside, is_field_outside, is_form_of, is_number_outside, is_out_of_range, one_outside};

use crate::wording::{are_as_many, next_word};
use map_commands::{CommandError, FORMS, number_in};
use map_script::{command_of, first_word};

/// The form of each query: its first word, then a name for each further word.
pub const QUERY_FORMS: &[&[u8]] = &[b"check", b"count", b"maps", b"build", b"hex LUMP"];

/// The least and the greatest number for each name in a form, or in `NAME=VALUE`, that stands for a number.
pub const RANGES: &[(&[u8], i16, i16)] = &[
    (b"X", -16384, 16383),
    (b"Y", -16384, 16383),
    (b"X1", -16384, 16383),
    (b"Y1", -16384, 16383),
    (b"X2", -16384, 16383),
    (b"Y2", -16384, 16383),
    (b"F", -32768, 32767),
    (b"C", -32768, 32767),
    (b"XO", -32768, 32767),
    (b"YO", -32768, 32767),
    (b"FLAGS", 0, 32767),
    (b"SPECIAL", 0, 32767),
    (b"TAG", 0, 32767),
    (b"TYPE", 0, 32767),
    (b"OPTIONS", 0, 32767),
    (b"LIGHT", 0, 255),
    (b"ANGLE", 0, 359),
    (b"SECTOR", 0, 4095),
    (b"SIDE", 0, 32766),
    (b"LINE", 0, 32766),
    (b"THING", 0, 32766),
    (b"VERTEX", 0, 32766),
    (b"V1", 0, 32766),
    (b"V2", 0, 32766),
    (b"RIGHT", 0, 32766),
    (b"LEFT", 0, 32766),
    (b"NUMBER", 0, 32766),
];

// ---- One word

// Whether a word is a number, and out of a range.
fn is_number_outside(low: i16, high: i16, word: &[u8]) -> bool
    ensures { result ≡ is_number_outside low high word.now }
{
    match number_in(word, low, high) {
        Err(CommandError::OutOfRange) => true,
        _ => false,
    }
}

// Whether a word is a number, and out of the range that one of these gives a name.
fn is_outside_among(ranges: &[(&[u8], i16, i16)], name: &[u8], word: &[u8]) -> bool
    ensures { result ≡ list_any (λ r. bytes_eq r.0.now name.now
        && is_number_outside r.1 r.2 word.now) ranges.now }
{
    ranges
        .iter()
        .any(|r| r.0 == name && is_number_outside(r.1, r.2, word))
}

// Whether a word is a number, and out of the range of a name.
#[tactic(auto, unfolding(crate::specs::Ranges::is_out_of_range))]
fn is_out_of_range(name: &[u8], word: &[u8]) -> bool
    ensures { result ≡ is_out_of_range name.now word.now }
{
    is_outside_among(RANGES, name, word)
}

// What stands in front of the first `=` of a word.
#[tactic(auto, using(crate::proofs::Worded::field_at, crate::proofs::Worded::field_all))]
fn field_name(word: &[u8]) -> &[u8]
    ensures { result.now ≡ field_name word.now }
{
    for (i, b) in word.iter().enumerate() {
        if *b == b'=' {
            return &word[..i];
        }
    }
    word
}

// What stands behind so many bytes of a text, and one more.
fn behind(text: &[u8], count: usize) -> &[u8]
    ensures { result.now ≡ drop (count + 1) text.now }
{
    if count < text.len() {
        &text[count + 1..]
    } else {
        &[]
    }
}

// Whether a word NAME=VALUE has a number as its VALUE that is out of the range of NAME.
fn is_field_outside(word: &[u8]) -> bool
    ensures { result ≡ is_field_outside word.now }
{
    let name = field_name(word);
    is_out_of_range(name, behind(word, name.len()))
}

// ---- A line

// Whether one of some words is a number, and out of the range of the name that stands at its place.
fn one_outside(names: &[u8], words: &[u8]) -> bool
    ensures { result ≡ one_outside (text_words names.now) (text_words words.now) }
{
    let mut places = names;
    let mut rest = words;
    while let Some((name, more)) = next_word(places) {
        let (word, behind) = first_word(rest);
        if is_out_of_range(name, word) {
            return true;
        }
        places = more;
        rest = behind;
    }
    false
}

// Whether a command is of a form: its first word is the same, and it has as many.
fn is_form_of(form: &[u8], command: &[u8]) -> bool
    ensures { result ≡ is_form_of (text_words form.now) (text_words command.now) }
{
    first_word(form).0 == first_word(command).0 && are_as_many(form, command)
}

// Whether a command is of one of these forms, and has a number that is out of its range.
fn is_outside_in(forms: &[&[u8]], command: &[u8]) -> bool
    ensures { result ≡ list_any (λ f. is_form_of (text_words f.now) (text_words command.now)
        && one_outside (text_words f.now) (text_words command.now)) forms.now }
{
    forms
        .iter()
        .any(|f| is_form_of(f, command) && one_outside(f, command))
}

// Whether one of some words NAME=VALUE has a number that is out of its range.
fn one_field_outside(words: &[u8]) -> bool
    ensures { result ≡ list_any is_field_outside (text_words words.now) }
{
    let mut rest = words;
    while let Some((word, behind)) = next_word(rest) {
        if is_field_outside(word) {
            return true;
        }
        rest = behind;
    }
    false
}

/// Whether a line has a number that is out of its range, whatever else stands in it.
#[tactic(auto, unfolding(crate::specs::Ranges::has_outside))]
pub fn has_outside(line: &[u8]) -> bool
    ensures { result ≡ has_outside line.now }
{
    let command = command_of(line);
    if first_word(command).0 == b"change".as_slice() {
        one_field_outside(command)
    } else {
        is_outside_in(FORMS, command) || is_outside_in(QUERY_FORMS, command)
    }
}
