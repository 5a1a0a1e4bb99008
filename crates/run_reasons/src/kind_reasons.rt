//! Says which word of a line is the number of another kind of item than is wanted, or names a wall of what has none.
use crate::calling::says;
use crate::reasons::bad_word;
use map_script::{DrawError, Misfit, Names, misfit_in};
use map_tables::{Kind, Map};
use std::alloc::{AllocError, Global};
use std::str;

// The words for an item of a kind.
fn an_item(kind: Kind) -> &'static str {
    match kind {
        Kind::Vertex => "a vertex",
        Kind::Sector => "a sector",
        Kind::Side => "a side",
        Kind::Line => "a line",
        Kind::Thing => "a thing",
    }
}

// The word for a kind.
fn word_of(kind: Kind) -> &'static str {
    match kind {
        Kind::Vertex => "vertex",
        Kind::Sector => "sector",
        Kind::Side => "side",
        Kind::Line => "line",
        Kind::Thing => "thing",
    }
}

// Whether a word is a name whose line added an item of the kind.
fn has_first(names: &Names, word: &str, kind: Kind) -> bool {
    match word.strip_prefix('$') {
        Some(name) => match names.find(name.as_bytes()) {
            Some(meaning) => meaning.firsts.of(kind).is_some(),
            None => false,
        },
        None => false,
    }
}

// The VALUE of NAME=VALUE, or the whole word.
fn value_of(word: &str) -> &str {
    match word.split_once('=') {
        Some((_, value)) => value,
        None => word,
    }
}

// Says of which kind a word is, and of which it is to be.
fn misfit_text(alloc: Global, names: &Names, misfit: &Misfit<'_>) -> Result<String, AllocError> {
    let word = value_of(str::from_utf8(misfit.word).unwrap_or(""));
    let found = an_item(misfit.found);
    let wanted = an_item(misfit.wanted);
    if has_first(names, word, misfit.wanted) {
        let kind = word_of(misfit.wanted);
        return format!(in alloc;
            "{word} is {found}, and {wanted} stands here; {word}.{kind} is its first {kind}"
        );
    }
    format!(in alloc; "{word} is {found}, and {wanted} stands here")
}

/// Says which word of a line is of another kind than its place wants.
pub fn other_kind(
    alloc: Global,
    map: &Map,
    names: &Names,
    line: &str,
) -> Result<String, AllocError> {
    match misfit_in(alloc, names, map, line.as_bytes()) {
        Some(misfit) => misfit_text(alloc, names, &misfit),
        None => says(alloc, DrawError::OtherKind.code()),
    }
}

// Whether a word has the name of a wall behind a dot.
fn names_wall(word: &str) -> bool {
    match word.split_once('.') {
        Some((_, part)) => {
            part.starts_with("north")
                || part.starts_with("east")
                || part.starts_with("south")
                || part.starts_with("west")
        }
        None => false,
    }
}

/// Says of which name the command added no such item.
pub fn nothing_added(
    alloc: Global,
    map: &Map,
    names: &Names,
    line: &str,
) -> Result<String, AllocError> {
    match bad_word(alloc, map, names, line, DrawError::NothingAdded) {
        Some(word) if names_wall(word) => format!(in alloc;
            "{word}: north, east, south and west are walls of what a line NAME = room .. names"
        ),
        _ => says(alloc, DrawError::NothingAdded.code()),
    }
}
