//! The kinds of the items of which the words of a line are the numbers, and the kinds that their places want.
ghost use Rattle.std.specs.Prelude.{◌≡◌, ◌==◌, ◌||◌, drop, length, MatchOption, None, Some, bytes_eq, option_copied};
ghost use Rattle.map_script.specs.Cuts.{behind_byte};
ghost use Rattle.map_script.specs.Kinds.{field_kind, field_parts, first_misfit, first_wanted, is_same_kind, kept_kind, kind_of_part, misfit_at, misfit_told, only_kind, places_after, reference_kind, sum_kind, wanted_at, word_kind};
ghost use Rattle.map_script.specs.Known.{scope_of};
ghost use Rattle.map_script.specs.Meant.{meant_by};
ghost use Rattle.map_script.specs.Scopes.{visible};
ghost use Rattle.map_script.specs.Words.{text_words};

use crate::cutting::{cut_place, inside};
use crate::names::Names;
use crate::reference::{cut, is_name, place_of};
use crate::referent::wall_place;
use crate::sums::reference_in;
use crate::words::next_word;
use map_commands::kind_in;
use map_tables::Kind;

// One more than how deep signs and parentheses of a sum may nest.
const DEPTH: u32 = 65;

/// A word that is the number of another kind of item than its place wants.
#[derive(Clone, Copy)]
pub struct Misfit<'a> {
    pub word: &'a [u8],
    pub wanted: Kind,
    pub found: Kind,
}

/// `NAME=` and VALUE of a word, or nothing and the whole word.
pub fn field_parts(word: &[u8]) -> (&[u8], &[u8])
    ensures { (result.0.now, result.1.now) ≡ field_parts word.now }
{
    match place_of(word, b'=') {
        Some(i) if is_name(&word[..i]) => (&word[..i + 1], &word[i + 1..]),
        _ => (&[], word),
    }
}

// The kind of what stands behind the dot of a reference.
fn kind_of_part(part: &[u8]) -> Option<Kind>
    ensures { result ≡ kind_of_part part.now }
{
    if wall_place(part).is_some() {
        Some(Kind::Line)
    } else {
        kind_in(part)
    }
}

// The kind of the item of which a reference is the number, given without its `$`.
fn reference_kind(names: &Names, reference: &[u8]) -> Option<Kind>
    ensures { result ≡ reference_kind (scope_of names.now) reference.now }
{
    if let Some(meaning) = names.find(reference) {
        return meaning.referent.kind();
    }
    match (cut(reference, b'('), cut(reference, b'.')) {
        ((kind, Some(_)), _) => kind_in(kind),
        ((_, None), (_, Some(part))) => kind_of_part(part),
        ((_, None), (_, None)) => None,
    }
}

// The kind of a sum or a difference of two parts: that of the one that has a kind, if it isn't subtracted.
fn kept_kind(sign: u8, left: Option<Kind>, right: Option<Kind>) -> Option<Kind>
    ensures { result ≡ kept_kind sign left right }
{
    match (left, right) {
        (Some(kind), None) if sign == b'+' || sign == b'-' => Some(kind),
        (None, Some(kind)) if sign == b'+' => Some(kind),
        _ => None,
    }
}

// The kind of the item of which a sum is the number.
fn sum_kind(depth: u32, names: &Names, text: &[u8]) -> Option<Kind>
    ensures { result ≡ sum_kind depth (scope_of names.now) text.now }
{
    if depth == 0 {
        return None;
    }
    if let Some(i) = cut_place(text) {
        let left = sum_kind(depth - 1, names, &text[..i]);
        let right = sum_kind(depth - 1, names, &text[i + 1..]);
        return kept_kind(text[i], left, right);
    }
    if let Some(inner) = inside(text) {
        return sum_kind(depth - 1, names, inner);
    }
    match reference_in(text) {
        Some(reference) => reference_kind(names, reference),
        None => None,
    }
}

// The kind of the item of which a word is the number; NAME=VALUE is none.
fn word_kind(names: &Names, word: &[u8]) -> Option<Kind>
    ensures { result ≡ word_kind (scope_of names.now) (field_parts word.now).0 word.now }
{
    match field_parts(word).0 {
        [] => sum_kind(DEPTH, names, word),
        [_, ..] => None,
    }
}

/// The kind of the item of which the only word of a text is the number.
pub fn only_kind(names: &Names, text: &[u8]) -> Option<Kind>
    ensures { result ≡ only_kind (scope_of names.now) (text_words text.now) }
{
    let (word, behind) = next_word(text)?;
    match next_word(behind) {
        Some(_) => None,
        None => word_kind(names, word),
    }
}

// Whether two kinds are the same.
fn is_same_kind(one: Kind, other: Kind) -> bool
    ensures { result ≡ is_same_kind one other }
{
    match (one, other) {
        (Kind::Vertex, Kind::Vertex)
        | (Kind::Sector, Kind::Sector)
        | (Kind::Side, Kind::Side)
        | (Kind::Line, Kind::Line)
        | (Kind::Thing, Kind::Thing) => true,
        _ => false,
    }
}

// The kind of the item whose number is the VALUE of `NAME=`.
fn field_kind(field: &[u8]) -> Option<Kind>
    ensures { result ≡ field_kind field.now }
{
    if field == b"V1=".as_slice() || field == b"V2=".as_slice() {
        Some(Kind::Vertex)
    } else if field == b"RIGHT=".as_slice() || field == b"LEFT=".as_slice() {
        Some(Kind::Side)
    } else if field == b"SECTOR=".as_slice() {
        Some(Kind::Sector)
    } else {
        None
    }
}

// The kind that the first place wants.
fn first_wanted(places: &[Option<Kind>]) -> Option<Kind>
    ensures { result ≡ first_wanted places.now }
{
    match places {
        [first, ..] => *first,
        [] => None,
    }
}

// The kind that is wanted of a word at the first place, or of the VALUE of `NAME=`.
fn wanted_at(places: &[Option<Kind>], field: &[u8]) -> Option<Kind>
    ensures { result ≡ wanted_at places.now field.now }
{
    match field {
        [] => first_wanted(places),
        [_, ..] => field_kind(field),
    }
}

// The kind that the place of a word wants, and the other one of which the word is a number.
fn misfit_at(names: &Names, places: &[Option<Kind>], word: &[u8]) -> Option<(Kind, Kind)>
    ensures { result ≡ misfit_at (scope_of names.now) places.now word.now }
{
    let (field, value) = field_parts(word);
    let wanted = wanted_at(places, field)?;
    let found = sum_kind(DEPTH, names, value)?;
    if is_same_kind(wanted, found) {
        None
    } else {
        Some((wanted, found))
    }
}

// The places behind the first one.
fn behind_first(places: &[Option<Kind>]) -> &[Option<Kind>]
    ensures { result.now ≡ drop 1 places.now }
{
    match places {
        [_, behind @ ..] => behind,
        [] => &[],
    }
}

// The places without one for each word of a text.
fn places_behind<'a>(places: &'a [Option<Kind>], words: &[u8]) -> &'a [Option<Kind>]
    ensures { result.now ≡ drop (length (text_words words.now)) places.now }
{
    let mut places = places;
    let mut rest = words;
    while let Some((_, behind)) = next_word(rest) {
        places = behind_first(places);
        rest = behind;
    }
    places
}

// The places that are left behind a word: what it stands for may be several words.
fn places_after<'a>(names: &Names, places: &'a [Option<Kind>], word: &[u8]) -> &'a [Option<Kind>]
    ensures { result.now ≡ places_after (scope_of names.now) places.now word.now }
{
    let (_, value) = field_parts(word);
    match reference_in(value) {
        Some(reference) => match names.find(reference) {
            Some(meaning) => places_behind(places, &meaning.words),
            None => behind_first(places),
        },
        None => behind_first(places),
    }
}

/// The first of a command's words, as they stand in a script, that is the number of another kind of item than its place
/// wants.
pub fn first_misfit<'a>(
    names: &Names,
    places: &[Option<Kind>],
    command: &'a [u8],
) -> Option<Misfit<'a>>
    ensures { let found = first_misfit (scope_of names.now) places.now (text_words command.now) in
        MatchOption result (found ≡ None) (λ m. found ≡ Some (misfit_told m)) }
{
    let mut places = places;
    let mut rest = command;
    while let Some((word, behind)) = next_word(rest) {
        if let Some((wanted, found)) = misfit_at(names, places, word) {
            return Some(Misfit {
                word,
                wanted,
                found,
            });
        }
        places = places_after(names, places, word);
        rest = behind;
    }
    None
}
