//! Words of a command that haven't the form of their places, and words of other tools for what begins a command here.
use crate::forms::{form_of, range_at};
use map_commands::kind_in;
use std::alloc::{AllocError, Global};

// Words of the format's lumps and of other editors, each with the first word of the command that is meant.
const MEANT: &[(&str, &str)] = &[
    ("linedef", "line"),
    ("linedefs", "line"),
    ("lines", "line"),
    ("wall", "line"),
    ("sidedef", "side"),
    ("sidedefs", "side"),
    ("sides", "side"),
    ("vertexes", "vertex"),
    ("vertices", "vertex"),
    ("point", "vertex"),
    ("sectors", "sector"),
    ("things", "thing"),
    ("object", "thing"),
    ("monster", "thing"),
    ("player", "thing"),
    ("start", "thing"),
    ("delete", "drop"),
    ("remove", "drop"),
    ("erase", "drop"),
    ("move", "move-vertex"),
    ("rectangle", "room"),
    ("rect", "room"),
    ("box", "room"),
    ("cut", "split"),
    ("divide", "split"),
    ("select", "map"),
    ("level", "map"),
    ("rename", "name"),
    ("list", "count"),
    ("show", "count"),
    ("lint", "check"),
    ("verify", "check"),
];

/// The form of the command or query that a first word stands for in other tools.
pub fn form_meant(first: &str) -> Option<&'static str> {
    for &(word, ours) in MEANT {
        if word == first {
            return form_of(ours);
        }
    }
    None
}

// Whether a word is a whole number as a command has it: no leading zero, no `-0`, no `+`.
fn is_numeral(word: &str) -> bool {
    let digits = word.strip_prefix('-').unwrap_or(word);
    let are_digits = digits.bytes().all(|byte| byte.is_ascii_digit());
    word == "0" || (!digits.is_empty() && are_digits && !digits.starts_with('0'))
}

// Says what a word at this place of a form must be, if it hasn't the form of that.
fn unfit_at(alloc: Global, place: &str, word: &str) -> Result<Option<String>, AllocError> {
    if place == "KIND" && kind_in(word.as_bytes()).is_none() {
        return Ok(Some(format!(in alloc;
            "{word} stands for KIND: vertex, sector, side, line or thing"
        )?));
    }
    match range_at(place) {
        Some((low, high)) => {
            if is_numeral(word) || (place == "LEFT" && word == "-") {
                return Ok(None);
            }
            Ok(Some(format!(in alloc;
                "{word} stands for {place}, a whole number from {low} to {high}"
            )?))
        }
        None => Ok(None),
    }
}

/// Says of the first word that hasn't the form of its place what it must be.
pub fn unfit(alloc: Global, text: &str, form: &str) -> Result<Option<String>, AllocError> {
    for (place, word) in form.split(' ').zip(text.split(' ')) {
        if let Some(told) = unfit_at(alloc, place, word)? {
            return Ok(Some(told));
        }
    }
    Ok(None)
}
