//! Lines that place the lines of their block: `at X Y [ANGLE]`.
ghost use Rattle.std.specs.Prelude.{◌≡◌, IfErr, IfOk, MatchOption, None, Ok, Some};
ghost use Rattle.map_script.specs.Ats.{at_placing, at_words, facing_by, placing_in, placing_of, placing_to, placing_within};
ghost use Rattle.map_script.specs.Known.{scope_of};
ghost use Rattle.map_script.specs.Lines.{TellsScriptFault};
ghost use Rattle.map_script.specs.Placings.{IsPlacedWithin, coordinate_of, vertex_of};
ghost use Rattle.map_script.specs.Words.{text_words};

use crate::error::DrawError;
use crate::names::Names;
use crate::placing::{Facing, Placing, coordinate, faced, placed_vertex};
use crate::reckoning::number_of;
use crate::resolving::{defined_name, replaced};
use crate::words::next_word;
use lump_records::Vertex;
use map_tables::Map;
use std::alloc::Global;

/// The `X Y [ANGLE]` of a line `at X Y [ANGLE]`. A line that gives a name `at` by `=` is none.
pub fn at_words(line: &[u8]) -> Option<&[u8]>
    ensures { MatchOption result (at_words (text_words line.now) ≡ None)
        (λ rest. at_words (text_words line.now) ≡ Some (text_words rest.now)) }
{
    let (first, rest) = next_word(line)?;
    if first == b"at".as_slice() && defined_name(line).is_none() {
        Some(rest)
    } else {
        None
    }
}

// The turn of so many degrees, if it is none or by quarters.
fn facing_by(angle: i64) -> Option<Facing>
    ensures { result ≡ facing_by angle }
{
    if angle == 0 {
        Some(Facing::East)
    } else if angle == 90 {
        Some(Facing::North)
    } else if angle == 180 {
        Some(Facing::West)
    } else if angle == 270 {
        Some(Facing::South)
    } else {
        None
    }
}

// The place of two numbers, if it is one.
fn place_of(x: i64, y: i64) -> Option<Vertex>
    ensures { result ≡ vertex_of (coordinate_of x) (coordinate_of y) }
{
    match (coordinate(x), coordinate(y)) {
        (Some(x), Some(y)) => Some(Vertex { x, y }),
        _ => None,
    }
}

// The placing of a place and a turn, if they are such.
fn placing_to(at: Option<Vertex>, facing: Option<Facing>) -> Result<Placing, DrawError>
    ensures { result ≡ placing_to at facing }
{
    match (at, facing) {
        (None, _) => Err(DrawError::OutsideMap),
        (Some(_), None) => Err(DrawError::NotAQuarter),
        (Some(at), Some(facing)) => Ok(Placing { at, facing }),
    }
}

// The placing of three numbers, or the error of the first that is none.
fn placing_of(
    x: Result<i64, DrawError>,
    y: Result<i64, DrawError>,
    angle: Result<i64, DrawError>,
) -> Result<Placing, DrawError>
    ensures { result ≡ placing_of x y angle }
{
    match (x, y, angle) {
        (Err(error), _, _) => Err(error),
        (Ok(_), Err(error), _) => Err(error),
        (Ok(_), Ok(_), Err(error)) => Err(error),
        (Ok(x), Ok(y), Ok(angle)) => placing_to(place_of(x, y), facing_by(angle)),
    }
}

// The placing that the two or three words of a text write.
fn placing_in(text: &[u8]) -> Result<Placing, DrawError>
    ensures { result ≡ placing_in (text_words text.now) }
{
    let Some((x, behind)) = next_word(text) else {
        return Err(DrawError::NotAnAt);
    };
    let Some((y, behind)) = next_word(behind) else {
        return Err(DrawError::NotAnAt);
    };
    let Some((angle, behind)) = next_word(behind) else {
        return placing_of(number_of(x), number_of(y), Ok(0));
    };
    if next_word(behind).is_some() {
        return Err(DrawError::NotAnAt);
    }
    placing_of(number_of(x), number_of(y), number_of(angle))
}

// The placing of a block within a block that is placed so.
fn placing_within(outer: Placing, inner: Result<Placing, DrawError>) -> Result<Placing, DrawError>
    ensures value { result ≡ placing_within outer inner }
    ensures adds { IfOk result (λ both. IfOk inner (λ p. IsPlacedWithin outer p both)) }
{
    match inner {
        Ok(inner) => placing_to(
            placed_vertex(outer, inner.at),
            Some(faced(outer.facing, inner.facing)),
        ),
        Err(error) => Err(error),
    }
}

/// How the block of an `at` places its lines: `words` is the X Y [ANGLE] of its line, resolved first.
///
/// # Errors
///
/// The error of the leftmost word that stands for nothing, `NotAnAt` without two or three words, the error of the first
/// that is no number, `OutsideMap` if X Y is no place or is placed at none, `NotAQuarter` for another angle than 0, 90,
/// 180 or 270, or `OutOfMemory`.
pub fn at_placing(
    alloc: Global,
    names: &Names,
    map: &Map,
    words: &[u8],
) -> Result<Placing, DrawError>
    ensures ok { IfOk result (λ placing.
        at_placing (scope_of names.now) map.now.tables (text_words words.now) ≡ Ok placing) }
    ensures fault { IfErr result (λ e. TellsScriptFault e
        (at_placing (scope_of names.now) map.now.tables (text_words words.now))) }
{
    match replaced(alloc, names, map, words) {
        Ok(text) => placing_within(names.placing(), placing_in(&text)),
        Err(error) => Err(error),
    }
}
