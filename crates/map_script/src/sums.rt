//! Sums: numbers, references and words of names, with `+ - * /` and parentheses.
ghost use Rattle.std.specs.Prelude.{◌≡◌, MatchOption, None, Some, option_copied};
ghost use Rattle.map_script.specs.Cuts.{behind_byte};
ghost use Rattle.map_script.specs.Known.{scope_of};
ghost use Rattle.map_script.specs.Meant.{meant_by};
ghost use Rattle.map_script.specs.Names.{number_for};
ghost use Rattle.map_script.specs.Scopes.{visible};
ghost use Rattle.map_script.specs.Sums.{place_of_sums, reference_value, sum_value};

use crate::cutting::{cut_place, inside, place_parts};
use crate::error::DrawError;
use crate::names::Names;
use crate::reckoning::{item_at, negated, number_of, reckoned_of};
use crate::reference::{is_no_reference, number_for};
use map_tables::{Kind, Map};

/// What stands behind a `$` at the beginning of a text.
pub fn reference_in(text: &[u8]) -> Option<&[u8]>
    ensures { option_copied result ≡ behind_byte 36 text.now }
{
    match text {
        [b'$', reference @ ..] => Some(reference),
        _ => None,
    }
}

// What stands behind a `-` at the beginning of a text.
fn operand_in(text: &[u8]) -> Option<&[u8]>
    ensures { option_copied result ≡ behind_byte 45 text.now }
{
    match text {
        [b'-', operand @ ..] => Some(operand),
        _ => None,
    }
}

// The number of a reference, given without its `$`.
fn reference_value(names: &Names, map: &Map, reference: &[u8]) -> Result<i64, DrawError>
    ensures { result ≡ reference_value (meant_by (visible (scope_of names.now)) reference.now)
        (number_for (scope_of names.now) map.now.tables reference.now) }
{
    match names.find(reference) {
        Some(meaning) => number_of(&meaning.words),
        None => match number_for(names, map, reference) {
            Ok(number) => Ok(i64::from(number)),
            Err(error) => Err(error),
        },
    }
}

// The kind, X and Y of a place that isn't written by two numbers.
fn place_in<'a>(names: &Names, map: &Map, reference: &'a [u8]) -> Option<(Kind, &'a [u8], &'a [u8])>
    ensures { let number = number_for (scope_of names.now) map.now.tables reference.now in
        MatchOption result (place_of_sums number reference.now ≡ None)
        (λ p. place_of_sums number reference.now ≡ Some (p.0, p.1.now, p.2.now)) }
{
    if is_no_reference(number_for(names, map, reference)) {
        place_parts(reference)
    } else {
        None
    }
}

/// The value of a sum over the current map, if its parts nest less than so deep.
///
/// # Errors
///
/// That of the leftmost reference that stands for no number; or `NotANumber`, `NotWhole`, `TooGreat` or `TooDeep`.
pub fn sum_value(depth: u32, names: &Names, map: &Map, text: &[u8]) -> Result<i64, DrawError>
    ensures { result ≡ sum_value depth (scope_of names.now) map.now.tables text.now }
{
    if depth == 0 {
        return Err(DrawError::TooDeep);
    }
    if let Some(i) = cut_place(text) {
        let left = sum_value(depth - 1, names, map, &text[..i]);
        let right = sum_value(depth - 1, names, map, &text[i + 1..]);
        return reckoned_of(text[i], left, right);
    }
    if let Some(inner) = inside(text) {
        return sum_value(depth - 1, names, map, inner);
    }
    match reference_in(text) {
        Some(reference) => match place_in(names, map, reference) {
            Some((kind, x, y)) => {
                let x = sum_value(depth - 1, names, map, x);
                let y = sum_value(depth - 1, names, map, y);
                item_at(names.placing(), map, kind, x, y)
            }
            None => reference_value(names, map, reference),
        },
        None => match operand_in(text) {
            Some(operand) => negated(sum_value(depth - 1, names, map, operand)),
            None => number_of(text),
        },
    }
}
