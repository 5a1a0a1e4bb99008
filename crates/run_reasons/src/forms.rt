//! The forms of commands and queries, and the ranges of their numbers, as they are shown to people.
use map_blocks::{QUERY_FORMS, RANGES, are_near};
use map_commands::FORMS;
use std::str;

/// The first word of a text.
pub fn first_word(text: &str) -> &str {
    match text.split_once(' ') {
        Some((first, _)) => first,
        None => text,
    }
}

/// How many words a text has; one space separates two words.
pub fn count_words(text: &str) -> usize {
    text.split(' ').count()
}

/// A form as a text.
pub fn text_of(form: &'static [u8]) -> &'static str {
    str::from_utf8(form).unwrap_or("")
}

// The one of some forms that begins with this first word.
fn form_among(forms: &[&'static [u8]], first: &str) -> Option<&'static str> {
    for form in forms {
        let form = text_of(form);
        if first_word(form) == first {
            return Some(form);
        }
    }
    None
}

/// The form that begins with this first word.
pub fn form_of(first: &str) -> Option<&'static str> {
    form_among(FORMS, first).or(form_among(QUERY_FORMS, first))
}

/// Whether a word is probably meant as the first word of a form: one letter is wrong, missing or too many, or two
/// stand in the other order.
pub fn is_near(word: &str, form: &str) -> bool {
    are_near(first_word(form).as_bytes(), word.as_bytes())
}

// The one of some forms that is probably meant by a first word.
fn near_among(forms: &[&'static [u8]], first: &str) -> Option<&'static str> {
    for form in forms {
        let form = text_of(form);
        if is_near(first, form) {
            return Some(form);
        }
    }
    None
}

/// The form of the command or query that is probably meant by a first word.
pub fn form_near(first: &str) -> Option<&'static str> {
    near_among(FORMS, first).or(near_among(QUERY_FORMS, first))
}

/// The least and the greatest number for the word of this name in a form, if it is a number.
pub fn range_at(place: &str) -> Option<(i32, i32)> {
    for &(name, low, high) in RANGES {
        if name == place.as_bytes() {
            return Some((i32::from(low), i32::from(high)));
        }
    }
    None
}
