//! The numbers that references stand for: `$NAME`, `$NAME.KIND`, `$NAME.WALL` or `$KIND(X,Y)`, with or without `+N`.
ghost use Rattle.std.specs.Prelude.{◌≡◌, ◌≤◌, ◌<◌, ◌+◌, ◌-◌, ◌*◌, ◌==◌, min, nat_le, if◌then◌else◌, ◌^◌, length, position, IfSome, option_copied};
ghost use Rattle.std.specs.List.{list_all};
ghost use Rattle.map_commands.specs.Spelling.{kind_of};
ghost use Rattle.map_words.specs.Words.{is_numeral};
ghost use Rattle.map_script.specs.Known.{scope_of};
ghost use Rattle.map_script.specs.Meant.{meant, meant_by, meant_in};
ghost use Rattle.lump_records.specs.Names.{is_digit};
ghost use Rattle.map_script.specs.Names.{added_by, cut, item_named, is_kind_part, is_natural_word, is_letter, is_no_reference, is_script_name, is_script_name_byte, is_sum_part, has_places, number_at_place, number_behind_bracket, number_by, number_by_place, number_for, number_in, number_placed, number_there, sum_of, sum_there, value_of, wall_line, words_and};

use crate::error::DrawError;
use crate::meaning::Meaning;
use crate::names::Names;
use crate::placing::{Placing, placed_vertex};
use crate::referent::{Referent, wall_place};
use lump_records::{GREATEST_COORDINATE, LEAST_COORDINATE, Vertex};
use map_commands::{CommandError, kind_in, number_in as number_in_range};
use map_plane::{line_at, sector_at, thing_at, vertex_at};
use map_tables::{Kind, Map};

// The greatest number that a command may have.
const GREATEST: u64 = 32767;

fn is_digit(b: u8) -> bool
    ensures { result ≡ is_digit b }
{
    b'0' <= b && b <= b'9'
}

fn is_letter(b: u8) -> bool
    ensures { result ≡ is_letter b }
{
    (b'A' <= b && b <= b'Z') || (b'a' <= b && b <= b'z')
}

fn is_name_byte(b: u8) -> bool
    ensures { result ≡ is_script_name_byte b }
{
    is_letter(b) || is_digit(b) || b == b'_'
}

// Whether a name may contain each of the bytes.
fn are_name_bytes(text: &[u8]) -> bool
    ensures { result ≡ list_all is_script_name_byte text.now }
{
    text.iter().all(|b| is_name_byte(*b))
}

/// Whether the word is a name.
pub fn is_name(word: &[u8]) -> bool
    ensures { result ≡ is_script_name word.now }
{
    match word {
        [] => false,
        [first, rest @ ..] => is_letter(*first) && are_name_bytes(rest),
    }
}

// Whether each byte is a digit.
fn are_digits(text: &[u8]) -> bool
    ensures { result ≡ list_all is_digit text.now }
{
    text.iter().all(|b| is_digit(*b))
}

/// The index of the first byte `c`.
pub fn place_of(text: &[u8], c: u8) -> Option<usize>
    ensures place { result ≡ position (λ b. b == c) text.now }
    ensures within { IfSome result (λ i. i < length text.now) }
{
    text.iter().position(|b| *b == c)
}

/// Cuts the text at the first byte `c`: what is before it, and what is after it if there is one.
pub fn cut(text: &[u8], c: u8) -> (&[u8], Option<&[u8]>)
    ensures { (result.0.now, option_copied result.1) ≡ cut c text.now }
{
    match place_of(text, c) {
        Some(i) => (&text[..i], Some(&text[i + 1..])),
        None => (text, None),
    }
}

// Whether there is no such part, or it is the word of a table or of a wall.
fn is_kind_part(part: Option<&[u8]>) -> bool
    ensures { result ≡ is_kind_part (option_copied part.entry) }
{
    match part {
        Some(word) => kind_in(word).is_some() || wall_place(word).is_some(),
        None => true,
    }
}

/// Whether the word is a number, however great.
pub fn is_whole(word: &[u8]) -> bool
    ensures { result ≡ is_numeral word.now }
{
    match number_in_range(word, LEAST_COORDINATE, GREATEST_COORDINATE) {
        Err(CommandError::NotACommand) => false,
        _ => true,
    }
}

// Whether the word is a number without a sign.
fn is_natural(word: &[u8]) -> bool
    ensures { result ≡ is_natural_word word.now }
{
    is_whole(word) && are_digits(word)
}

// Whether there is no such part, or it is a number without a sign.
fn is_sum_part(part: Option<&[u8]>) -> bool
    ensures { result ≡ is_sum_part (option_copied part.entry) }
{
    match part {
        Some(word) => is_natural(word),
        None => true,
    }
}

// The number with one more digit, or the greatest one if it is greater than that.
fn with_digit(value: u64, digit: u8) -> u64
    ensures { result ≡ min (2 ^ 64 - 1) (value * 10 + (digit - 48)) }
{
    let more = u64::from(digit.saturating_sub(b'0'));
    value.saturating_mul(10).saturating_add(more)
}

/// The number that digits stand for, or the greatest one if it is greater than that.
pub fn value_of(digits: &[u8]) -> u64
    ensures { result ≡ min (2 ^ 64 - 1) (value_of digits.now) }
{
    let mut value: u64 = 0;
    for b in digits {
        value = with_digit(value, *b);
    }
    value
}

// The number that is added, or the greatest one if it is greater than that.
fn added_by(part: Option<&[u8]>) -> u64
    ensures { result ≡ min (2 ^ 64 - 1) (added_by (option_copied part.entry)) }
{
    match part {
        Some(digits) => value_of(digits),
        None => 0,
    }
}

// The number of a line, by the first of some and its place among them.
fn wall_number(first: u32, place: u8) -> u64
    ensures { result ≡ first + place }
{
    u64::from(first) + u64::from(place)
}

// The line of a room's wall, by its place among the four.
fn wall_line(meaning: &Meaning, place: Option<u8>) -> Option<u64>
    ensures { result ≡ wall_line (meant meaning.now) place }
{
    match (meaning.referent, meaning.firsts.line, place) {
        (Referent::Room, Some(first), Some(place)) => Some(wall_number(first, place)),
        _ => None,
    }
}

// The first item of a table, or the line of a wall.
fn item_named(meaning: &Meaning, word: &[u8]) -> Option<u64>
    ensures { result ≡ item_named (meant meaning.now) word.now (kind_of word.now) }
{
    match kind_in(word) {
        Some(kind) => match meaning.firsts.of(kind) {
            Some(number) => Some(u64::from(number)),
            None => None,
        },
        None => wall_line(meaning, wall_place(word)),
    }
}

// The sum of two numbers, if a command may have it.
fn sum_within(base: u64, more: u64) -> Option<u32>
    ensures { result ≡ (if nat_le (base + more) 32767 then Some (base + more) else None) }
{
    if base <= GREATEST && more <= GREATEST && base + more <= GREATEST {
        Some((base + more) as u32)
    } else {
        None
    }
}

// The sum of a base and the number that is added.
fn sum_of(base: Option<u64>, more: Option<&[u8]>) -> Result<u32, DrawError>
    ensures { result ≡ sum_of base (added_by (option_copied more.entry)) }
{
    let Some(base) = base else {
        return Err(DrawError::NothingAdded);
    };
    match sum_within(base, added_by(more)) {
        Some(sum) => Ok(sum),
        None => Err(DrawError::NumberTooLarge),
    }
}

// The number that words and what is added stand for, if the words are a number without a sign.
fn words_and(words: &[u8], more: Option<&[u8]>) -> Result<u32, DrawError>
    ensures { result ≡ words_and words.now (added_by (option_copied more.entry)) }
{
    if !is_natural(words) {
        return Err(DrawError::NotAReference);
    }
    match sum_within(value_of(words), added_by(more)) {
        Some(sum) => Ok(sum),
        None => Err(DrawError::NumberTooLarge),
    }
}

// The number that a name, its kind and its sum stand for.
fn number_in(
    meaning: Option<&Meaning>,
    kind: Option<&[u8]>,
    more: Option<&[u8]>,
) -> Result<u32, DrawError>
    ensures { result ≡ number_in (meant_in (option_copied meaning.entry))
        (option_copied kind.entry) (option_copied more.entry) }
{
    match (meaning, kind) {
        (Some(meaning), Some(kind)) => sum_of(item_named(meaning, kind), more),
        (Some(meaning), None) => words_and(&meaning.words, more),
        (None, _) => Err(DrawError::UnknownName),
    }
}

// The number that these parts of a reference to a name stand for.
fn number_by(
    names: &Names,
    name: &[u8],
    kind: Option<&[u8]>,
    more: Option<&[u8]>,
) -> Result<u32, DrawError>
    ensures { result ≡ number_by (scope_of names.now) name.now (option_copied kind.entry)
        (option_copied more.entry) }
{
    if is_name(name) && is_kind_part(kind) && is_sum_part(more) {
        number_in(names.find(name), kind, more)
    } else {
        Err(DrawError::NotAReference)
    }
}

// The number of the item that is at a place.
fn number_at_place(map: &Map, kind: Kind, place: Vertex) -> Option<u16>
    ensures { result ≡ number_at_place map.now.tables kind place }
{
    match kind {
        Kind::Vertex => vertex_at(map, place),
        Kind::Sector => sector_at(map, place),
        Kind::Side => None,
        Kind::Line => line_at(map, place),
        Kind::Thing => thing_at(map, place),
    }
}

/// Whether items of the kind are at places.
pub fn has_places(kind: Kind) -> bool
    ensures { result ≡ has_places kind }
{
    match kind {
        Kind::Side => false,
        _ => true,
    }
}

/// The number of the item at a place, if it is one.
pub fn number_placed(map: &Map, kind: Kind, place: Option<Vertex>) -> Option<u16>
    ensures { result ≡ number_placed map.now.tables kind place }
{
    match place {
        Some(place) => number_at_place(map, kind, place),
        None => None,
    }
}

// The number of the item where the place that two numbers write is placed.
fn number_there(placing: Placing, map: &Map, kind: Kind, x: &[u8], y: &[u8]) -> Option<u16>
    ensures { result ≡ number_there placing map.now.tables kind x.now y.now }
{
    let x = number_in_range(x, LEAST_COORDINATE, GREATEST_COORDINATE);
    let y = number_in_range(y, LEAST_COORDINATE, GREATEST_COORDINATE);
    match (x, y) {
        (Ok(x), Ok(y)) => number_placed(map, kind, placed_vertex(placing, Vertex { x, y })),
        _ => None,
    }
}

// The number of an item at a place and what is added.
fn sum_there(there: Option<u16>, more: Option<&[u8]>) -> Result<u32, DrawError>
    ensures { result ≡ sum_there there (added_by (option_copied more.entry)) }
{
    match there {
        Some(number) => sum_of(Some(u64::from(number)), more),
        None => Err(DrawError::NothingThere),
    }
}

// The number that a kind and a place stand for.
fn number_by_place(
    placing: Placing,
    map: &Map,
    kind: Option<Kind>,
    x: &[u8],
    y: Option<&[u8]>,
    more: Option<&[u8]>,
) -> Result<u32, DrawError>
    ensures { result ≡ number_by_place placing map.now.tables kind x.now (option_copied y.entry)
        (option_copied more.entry) }
{
    let (Some(kind), Some(y)) = (kind, y) else {
        return Err(DrawError::NotAReference);
    };
    if has_places(kind) && is_whole(x) && is_whole(y) && is_sum_part(more) {
        sum_there(number_there(placing, map, kind, x, y), more)
    } else {
        Err(DrawError::NotAReference)
    }
}

// The number that a kind and what stands behind its bracket stand for.
fn number_behind_bracket(
    placing: Placing,
    map: &Map,
    kind: Option<Kind>,
    rest: &[u8],
    more: Option<&[u8]>,
) -> Result<u32, DrawError>
    ensures { result ≡ number_behind_bracket placing map.now.tables kind (cut 41 rest.now)
        (option_copied more.entry) }
{
    match cut(rest, b')') {
        (place, Some([])) => {
            let (x, y) = cut(place, b',');
            number_by_place(placing, map, kind, x, y, more)
        }
        _ => Err(DrawError::NotAReference),
    }
}

/// The number that a reference stands for over the current map; `text` is the reference without its `$`.
pub fn number_for(names: &Names, map: &Map, text: &[u8]) -> Result<u32, DrawError>
    ensures { result ≡ number_for (scope_of names.now) map.now.tables text.now }
{
    let (base, more) = cut(text, b'+');
    match cut(base, b'(') {
        (kind, Some(rest)) => number_behind_bracket(
            names.placing(),
            map,
            kind_in(kind),
            rest,
            more,
        ),
        (_, None) => {
            let (name, kind) = cut(base, b'.');
            number_by(names, name, kind, more)
        }
    }
}

/// Whether a text is no reference at all, by the number that it should stand for.
pub fn is_no_reference(number: Result<u32, DrawError>) -> bool
    ensures { result ≡ is_no_reference number }
{
    match number {
        Err(DrawError::NotAReference) => true,
        _ => false,
    }
}
