//! Says what was wrong with a refused line.
ghost use Rattle.std.specs.Prelude.{◌<◌, length};

use crate::block_reasons::{reason_of_at, reason_of_define, reason_of_let, reason_of_loop};
use crate::call_reasons::{called_at, reason_of_call};
use crate::calling::says;
use crate::forms::{count_words, first_word, form_near, form_of, range_at};
use crate::kind_reasons::{nothing_added, other_kind};
use crate::particulars::{in_use, map_names, taken, too_long};
use crate::shape_reasons::{decide, meant_shape, places_of, shape_near};
use crate::unfit::{form_meant, unfit};
use lump_records::{is_marker, is_name};
use map_blocks::Stop;
use map_script::{
    DrawError, Names, ScriptLine, ScriptLines, at_words, define_words, let_words, loop_words,
    resolve,
};
use map_shapes::{ShapeError, ShapeHead, shape_head_in};
use map_tables::{Kind, Map, Maps};
use run_edit::read_query;
use std::alloc::{AllocError, Global};
use std::str;

// What is probably meant by a line that is neither a command nor a query.
fn meant(alloc: Global, text: &str) -> Result<String, AllocError> {
    if text.len() > 256 {
        return format!(in alloc; "a line has 256 bytes at most");
    }
    if read_query(text.as_bytes()).is_some() {
        return format!(in alloc; "a query answers no number that a name could keep");
    }
    let first = first_word(text);
    if let Some(head) = shape_head_in(first.as_bytes()) {
        return meant_shape(alloc, text, head);
    }
    let count = count_words(text);
    match form_of(first) {
        Some(form) => {
            let wanted = count_words(form);
            if wanted == count {
                match unfit(alloc, text, form)? {
                    Some(told) => Ok(told),
                    None => format!(in alloc; "a word hasn't the form of its place in: {form}"),
                }
            } else {
                format!(in alloc; "it has {count} words in place of {wanted}: {form}")
            }
        }
        None => match form_meant(first).or(form_near(first)).or(shape_near(first)) {
            Some(form) => format!(in alloc; "perhaps this is meant: {form}"),
            None => format!(in alloc;
                "no command, no query and no shape known here begins with {first}"
            ),
        },
    }
}

// Whether a word other than `-` is no number within the range.
fn is_outside(word: &str, low: i32, high: i32) -> bool {
    if word == "-" {
        return false;
    }
    match word.parse::<i32>() {
        Ok(number) => number < low || high < number,
        Err(_) => true,
    }
}

// Says which number of a line is out of its range, and what the range is.
fn out_of_range(alloc: Global, text: &str, form: &str) -> Result<String, AllocError> {
    for (place, word) in form.split(' ').zip(text.split(' ')) {
        if let Some((low, high)) = range_at(place) {
            if is_outside(word, low, high) {
                return format!(in alloc;
                    "{word} stands for {place}, a number from {low} to {high}"
                );
            }
        }
    }
    match first_word(form) {
        "room" => format!(in alloc; "X1 is to be less than X2, and Y1 less than Y2"),
        _ => format!(in alloc; "the number of a sector is 4095 at most"),
    }
}

// Whether a name must stand at this place of a form, and the word isn't one.
fn is_bad_name(place: &str, word: &str) -> bool {
    if place == "MARKER" {
        return !is_marker(word.as_bytes());
    }
    // The first word of a form is in small letters, so it is no name and never counts as a place for one.
    is_name(place.as_bytes()) && range_at(place).is_none() && !is_name(word.as_bytes())
}

// Says what a name at this place of a form must be.
fn wanted_name(alloc: Global, place: &str, word: &str) -> Result<String, AllocError> {
    if place == "MARKER" {
        return format!(in alloc; "{word} stands for a map's name: MAP01 to MAP99, or E1M1 to E9M9");
    }
    format!(in alloc;
        "{word} stands for {place}, a name of one to eight of A-Z, 0-9, _, -, [, ] and \\"
    )
}

// Says which word of a line is no name, and what it must be.
fn bad_name(alloc: Global, text: &str, form: &str) -> Result<String, AllocError> {
    for (place, word) in form.split(' ').zip(text.split(' ')) {
        if is_bad_name(place, word) {
            return wanted_name(alloc, place, word);
        }
    }
    says(alloc, 15)
}

// What stands before the first of this sign.
fn first_part(text: &str, sign: char) -> &str {
    match text.split_once(sign) {
        Some((front, _)) => front,
        None => text,
    }
}

// What a refusal of a shape says.
fn says_shape(alloc: Global, error: &ShapeError) -> Result<String, AllocError> {
    format!(in alloc; "{error}")
}

// Says how many items of a kind the map has.
fn counted(alloc: Global, map: &Map, kind: Kind, items: &str) -> Result<String, AllocError> {
    let count = map.count(kind);
    format!(in alloc; "{items} of the map: {count}, numbered from 0")
}

// Says what was wrong with a line whose names are resolved.
fn reason_of_text(alloc: Global, maps: &Maps, text: &str, code: u16) -> Result<String, AllocError> {
    let map = maps.current();
    let form = form_of(first_word(text)).unwrap_or("");
    match code {
        1 => meant(alloc, text),
        2 => out_of_range(alloc, text, form),
        3 => counted(alloc, map, Kind::Vertex, "vertices"),
        4 => counted(alloc, map, Kind::Sector, "sectors"),
        5 => counted(alloc, map, Kind::Side, "sides"),
        6 => counted(alloc, map, Kind::Line, "lines"),
        7 => counted(alloc, map, Kind::Thing, "things"),
        8 => in_use(alloc, map, text),
        10 => taken(alloc, map, text),
        13 => too_long(alloc, map, text),
        15 => bad_name(alloc, text, form),
        18 => map_names(alloc, maps),
        _ => says(alloc, code),
    }
}

// Says what was wrong with a line of a shape whose names are resolved.
fn reason_of_shape(
    alloc: Global,
    maps: &Maps,
    text: &str,
    head: ShapeHead,
    code: u16,
) -> Result<String, AllocError> {
    if code == 2 || code == 15 {
        let places = places_of(alloc, text, head)?;
        return match code {
            2 => out_of_range(alloc, &places.text, &places.form),
            _ => bad_name(alloc, &places.text, &places.form),
        };
    }
    match (decide(alloc, maps.current(), text.as_bytes()), head) {
        (Err(error), _) if code > 24 => says_shape(alloc, &error),
        (Ok(Some(line)), ShapeHead::Change) => match str::from_utf8(&line) {
            Ok(text) => reason_of_text(alloc, maps, text, code),
            Err(_) => says(alloc, code),
        },
        _ => reason_of_text(alloc, maps, text, code),
    }
}

/// The word of a line that is refused with this error.
pub fn bad_word<'a>(
    alloc: Global,
    map: &Map,
    names: &Names,
    line: &'a str,
    error: DrawError,
) -> Option<&'a str> {
    for word in line.split(' ') {
        if let Err(found) = resolve(alloc, names, map, word.as_bytes()) {
            if found == error {
                return Some(word);
            }
        }
    }
    None
}

// Says of which kind no item is at which place, or which word it is if that has more than one place.
fn nothing_there(
    alloc: Global,
    map: &Map,
    names: &Names,
    line: &str,
) -> Result<String, AllocError> {
    let Some(word) = bad_word(alloc, map, names, line, DrawError::NothingThere) else {
        return says(alloc, 45);
    };
    let (kind, behind) = match word.split_once('(') {
        Some((kind, behind)) => (kind, behind),
        None => (word, ""),
    };
    let place = first_part(behind, ')');
    let is_alone = place.len() < behind.len() && behind.len() - place.len() == 1;
    match kind {
        "$vertex" if is_alone => format!(in alloc; "no vertex stands at ({place})"),
        "$thing" if is_alone => format!(in alloc; "no thing stands at ({place})"),
        "$line" if is_alone => format!(in alloc; "no line runs through ({place})"),
        "$sector" if is_alone => format!(in alloc; "no sector is at ({place})"),
        _ => format!(in alloc; "{word}: nothing is at a place in it"),
    }
}

// Says which sum of a line has no value, and why.
fn bad_sum(
    alloc: Global,
    map: &Map,
    names: &Names,
    line: &str,
    error: DrawError,
) -> Result<String, AllocError> {
    match bad_word(alloc, map, names, line, error) {
        Some(word) => format!(in alloc; "{word}: {error}"),
        None => format!(in alloc; "{error}"),
    }
}

// Says what was wrong with a line whose references stand for nothing.
pub fn reason_of_reference(
    alloc: Global,
    map: &Map,
    names: &Names,
    line: &[u8],
    error: DrawError,
) -> Result<String, AllocError> {
    let Ok(line) = str::from_utf8(line) else {
        return says(alloc, error.code());
    };
    match error {
        DrawError::NothingThere => nothing_there(alloc, map, names, line),
        DrawError::NotANumber | DrawError::NotWhole | DrawError::TooGreat | DrawError::TooDeep => {
            bad_sum(alloc, map, names, line, error)
        }
        DrawError::NotAReference if line.contains("$(") => format!(in alloc;
            "in a sum the $ stands before the name, as in ($NAME+2)"
        ),
        DrawError::NotAReference if line.contains('(') => format!(in alloc;
            "a place is $vertex(X,Y), $line(X,Y), $sector(X,Y) or $thing(X,Y), with or without +N"
        ),
        DrawError::OtherKind => other_kind(alloc, map, names, line),
        DrawError::NothingAdded => nothing_added(alloc, map, names, line),
        _ => says(alloc, error.code()),
    }
}

/// Says what was wrong with the line of a script at which it stopped, given the maps as they are and the names of the
/// earlier lines.
pub fn reason_of(
    alloc: Global,
    maps: &Maps,
    names: &Names,
    lines: &ScriptLines,
    stop: &Stop,
) -> Result<String, AllocError>
    requires { stop.now.place < length lines.now }
{
    let line = lines.line(stop.place);
    match called_at(alloc, lines, stop.place)? {
        Some(form) => reason_of_call(alloc, maps.current(), names, &form, line.text, stop.code),
        None => reason_of_line(alloc, maps, names, &line, stop.code),
    }
}

// Says what was wrong with a line that draws no shape of the script.
fn reason_of_line(
    alloc: Global,
    maps: &Maps,
    names: &Names,
    line: &ScriptLine<'_>,
    code: u16,
) -> Result<String, AllocError> {
    if code == DrawError::OpenBlock.code() || code == DrawError::TooManyLines.code() {
        return says(alloc, code);
    }
    if let Some(words) = let_words(line.text) {
        return reason_of_let(alloc, maps.current(), names, words, code);
    }
    if let Some(words) = loop_words(line.text) {
        return reason_of_loop(alloc, maps.current(), names, words, code);
    }
    if let Some(words) = at_words(line.text) {
        return reason_of_at(alloc, maps.current(), names, words, code);
    }
    if define_words(line.text).is_some() {
        return reason_of_define(alloc, code);
    }
    let text = match resolve(alloc, names, maps.current(), line.text) {
        Ok(text) => text,
        Err(error) => return reason_of_reference(alloc, maps.current(), names, line.text, error),
    };
    match str::from_utf8(&text) {
        Ok(text) => match shape_head_in(first_word(text).as_bytes()) {
            Some(head) => reason_of_shape(alloc, maps, text, head, code),
            None => reason_of_text(alloc, maps, text, code),
        },
        Err(_) => format!(in alloc; "a word has a byte that is no letter, digit or sign"),
    }
}
