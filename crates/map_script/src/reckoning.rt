//! The numbers of a sum.
ghost use Rattle.std.specs.Prelude.{◌≡◌, ◌+ℤ◌, ◌-ℤ◌, ◌*ℤ◌, neg_ℤ, pos};
ghost use Rattle.map_script.specs.Names.{value_of};
ghost use Rattle.map_script.specs.Placings.{coordinate_of};
ghost use Rattle.map_script.specs.Reckoned.{fitted, item_of_place, item_there, negated, number_in_text, quotient, reckoned, reckoned_of};

use crate::error::DrawError;
use crate::placing::{Placing, coordinate, placed_vertex};
use crate::reference::{is_whole, number_placed, value_of};
use lump_records::Vertex;
use map_tables::{Kind, Map};

// The greatest number of 64 bits with a sign.
const GREATEST: u64 = 9_223_372_036_854_775_807;

fn added(x: i64, y: i64) -> Result<i64, DrawError>
    ensures { result ≡ fitted (x +ℤ y) }
{
    match x.checked_add(y) {
        Some(n) => Ok(n),
        None => Err(DrawError::TooGreat),
    }
}

fn subtracted(x: i64, y: i64) -> Result<i64, DrawError>
    ensures { result ≡ fitted (x -ℤ y) }
{
    match x.checked_sub(y) {
        Some(n) => Ok(n),
        None => Err(DrawError::TooGreat),
    }
}

fn multiplied(x: i64, y: i64) -> Result<i64, DrawError>
    ensures { result ≡ fitted (x *ℤ y) }
{
    match x.checked_mul(y) {
        Some(n) => Ok(n),
        None => Err(DrawError::TooGreat),
    }
}

fn negative(x: i64) -> Result<i64, DrawError>
    ensures { result ≡ fitted (neg_ℤ x) }
{
    match x.checked_neg() {
        Some(n) => Ok(n),
        None => Err(DrawError::TooGreat),
    }
}

// The whole number that a division gives.
fn quotient(x: i64, y: i64) -> Result<i64, DrawError>
    ensures { result ≡ quotient x y }
{
    if y == 0 {
        return Err(DrawError::NotWhole);
    }
    match (x.checked_div(y), x.checked_rem(y)) {
        (Some(n), Some(0)) => Ok(n),
        (Some(_), _) => Err(DrawError::NotWhole),
        (None, _) => Err(DrawError::TooGreat),
    }
}

// What a sign makes of two numbers.
fn reckoned(sign: u8, x: i64, y: i64) -> Result<i64, DrawError>
    ensures { result ≡ reckoned sign x y }
{
    if sign == b'+' {
        added(x, y)
    } else if sign == b'-' {
        subtracted(x, y)
    } else if sign == b'*' {
        multiplied(x, y)
    } else {
        quotient(x, y)
    }
}

/// What a sign makes of two parts, or the error of the leftmost.
pub fn reckoned_of(
    sign: u8,
    x: Result<i64, DrawError>,
    y: Result<i64, DrawError>,
) -> Result<i64, DrawError>
    ensures { result ≡ reckoned_of sign x y }
{
    match (x, y) {
        (Err(error), _) => Err(error),
        (Ok(_), Err(error)) => Err(error),
        (Ok(x), Ok(y)) => reckoned(sign, x, y),
    }
}

/// A part with the other sign.
pub fn negated(x: Result<i64, DrawError>) -> Result<i64, DrawError>
    ensures { result ≡ negated x }
{
    match x {
        Ok(x) => negative(x),
        Err(error) => Err(error),
    }
}

// The number that digits write.
#[tactic(auto, using(crate::proofs::SumNumbers::natural_fits, crate::proofs::SumNumbers::natural_misfits))]
fn natural(digits: &[u8]) -> Result<i64, DrawError>
    ensures { result ≡ fitted (pos (value_of digits.now)) }
{
    let n = value_of(digits);
    if n <= GREATEST {
        Ok(n as i64)
    } else {
        Err(DrawError::TooGreat)
    }
}

/// The number that a text is, if it is a numeral.
pub fn number_of(text: &[u8]) -> Result<i64, DrawError>
    ensures { result ≡ number_in_text text.now }
{
    if !is_whole(text) {
        return Err(DrawError::NotANumber);
    }
    match text {
        [b'-', digits @ ..] => negated(natural(digits)),
        _ => natural(text),
    }
}

// The number of the item where a place is placed.
fn item_there(placing: Placing, map: &Map, kind: Kind, x: i64, y: i64) -> Result<i64, DrawError>
    ensures { result
        ≡ item_there placing map.now.tables kind (coordinate_of x) (coordinate_of y) }
{
    let (Some(x), Some(y)) = (coordinate(x), coordinate(y)) else {
        return Err(DrawError::NothingThere);
    };
    match number_placed(map, kind, placed_vertex(placing, Vertex { x, y })) {
        Some(number) => Ok(i64::from(number)),
        None => Err(DrawError::NothingThere),
    }
}

/// The number of the item where the place with these coordinates is placed, or the error of the leftmost.
pub fn item_at(
    placing: Placing,
    map: &Map,
    kind: Kind,
    x: Result<i64, DrawError>,
    y: Result<i64, DrawError>,
) -> Result<i64, DrawError>
    ensures { result ≡ item_of_place placing map.now.tables kind x y }
{
    match (x, y) {
        (Err(error), _) => Err(error),
        (Ok(_), Err(error)) => Err(error),
        (Ok(x), Ok(y)) => item_there(placing, map, kind, x, y),
    }
}
