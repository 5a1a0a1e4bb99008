//! The request to draw a map as a picture.
ghost use Rattle.std.specs.Prelude.{◌≡◌, IfErr, IfOk, IfNone, IfSome, Some, ℤ, codes};
ghost use Rattle.clap.specs.Words.{Text, first_of, found_of, rows_of};
ghost use Rattle.cli_words.specs.Boxes.{HasFirstNumber, IsCropAsked, RefusesCrop, WritesNumber, WritesBox, box_between};
ghost use Rattle.cli_words.specs.Request.{AsksFor, RefusesValues};

use crate::asked::{Request, RequestError};
use crate::command_line::{is_given, last_text, owned, text};
use clap::ArgMatches;
use lump_records::{Bounds, Vertex};
use std::alloc::Global;

// The coordinate that the text writes.
fn coordinate(text: &str) -> Option<i16>
    ensures some { IfSome result (WritesNumber text.now) }
    ensures none { IfNone result ((n : ℤ) → ¬ WritesNumber text.now n) }
{
    match text.parse::<i16>() {
        Ok(n) => Some(n),
        Err(_) => None,
    }
}

// The coordinate before the first comma, and the text behind it.
fn first_coordinate<'a>(text: &'a str) -> Option<(i16, &'a str)>
    ensures some { IfSome result (λ p. HasFirstNumber text.now p.0 p.1.now) }
    ensures none { IfNone result ((n : ℤ) (rest : Text) → ¬ HasFirstNumber text.now n rest) }
{
    let Some((first, rest)) = text.split_once(',') else {
        return None;
    };
    match coordinate(first) {
        Some(n) => Some((n, rest)),
        None => None,
    }
}

// The box with these two corners.
fn box_between(a: Vertex, b: Vertex) -> Bounds
    ensures { result ≡ box_between a b }
{
    Bounds {
        top: a.y.max(b.y),
        bottom: a.y.min(b.y),
        left: a.x.min(b.x),
        right: a.x.max(b.x),
    }
}

// The box that the text writes.
fn box_in(text: &str) -> Option<Bounds>
    ensures some { IfSome result (WritesBox text.now) }
    ensures none { IfNone result ((b : Bounds) → ¬ WritesBox text.now b) }
{
    let Some((x1, behind_x1)) = first_coordinate(text) else {
        return None;
    };
    let Some((y1, behind_y1)) = first_coordinate(behind_x1) else {
        return None;
    };
    let Some((x2, behind_x2)) = first_coordinate(behind_y1) else {
        return None;
    };
    let Some(y2) = coordinate(behind_x2) else {
        return None;
    };
    if x1 == x2 || y1 == y2 {
        return None;
    }
    Some(box_between(Vertex { x: x1, y: y1 }, Vertex { x: x2, y: y2 }))
}

// The box of `--crop`, if it is given.
fn asked_crop(alloc: Global, found: &ArgMatches<'_>) -> Result<Option<Bounds>, RequestError>
    ensures given { IfOk result (IsCropAsked (first_of (codes "crop")
        (rows_of (found_of found.now)))) }
    ensures refused { IfErr result (RefusesCrop (first_of (codes "crop")
        (rows_of (found_of found.now)))) }
{
    let Some(text) = found.get_str("crop") else {
        return Ok(None);
    };
    match box_in(text) {
        Some(bounds) => Ok(Some(bounds)),
        None => match owned(alloc, text) {
            Ok(text) => Err(RequestError::NotABox(text)),
            Err(error) => Err(error),
        },
    }
}

/// The request to draw a map as a picture.
pub(crate) fn asked_picture(alloc: Global, found: &ArgMatches<'_>) -> Result<Request, RequestError>
    ensures asked { IfOk result (λ r. AsksFor r (codes "picture", rows_of (found_of found.now))) }
    ensures refused { IfErr result (RefusesValues (codes "picture", rows_of (found_of found.now))) }
{
    let file = match text(alloc, found, "file") {
        Ok(file) => file,
        Err(error) => return Err(error),
    };
    let map = match last_text(alloc, found, "map") {
        Ok(map) => map,
        Err(error) => return Err(error),
    };
    let crop = match asked_crop(alloc, found) {
        Ok(crop) => crop,
        Err(error) => return Err(error),
    };
    match last_text(alloc, found, "out") {
        Ok(out) => Ok(Request::Picture {
            file,
            map,
            out,
            numbers: is_given(found, "numbers"),
            nodes: is_given(found, "nodes"),
            lint: is_given(found, "lint"),
            heights: is_given(found, "heights"),
            grid: is_given(found, "grid"),
            crop,
        }),
        Err(error) => Err(error),
    }
}
