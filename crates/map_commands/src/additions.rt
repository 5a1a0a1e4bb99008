//! The words of the items that lines add, read in one pass: most lines of a journal add one. The grammar reads every
//! other line, and says what is wrong with one.
ghost use Rattle.std.specs.Prelude.{◌≡◌, [], ◌∷◌, ◌≤◌, ◌||◌, ◌==◌, nat_le, IfSome, IsTrue, codes, decimal, option_copied, true};
ghost use Rattle.std.specs.Fmt.{signed_decimal};
ghost use Rattle.lump_records.specs.Names.{IsNamed, is_name, is_name_byte, name_text};
ghost use Rattle.lump_records.specs.Sides.{no_side};
ghost use Rattle.map_tables.specs.Ranges.{IsLine, IsSector, IsShort, IsSide, IsThing, IsVertex};
ghost use Rattle.map_commands.specs.Spelling.{left_word, line_words, sector_words, side_words, thing_words, vertex_words};
ghost use Rattle.map_words.specs.Words.{parts, parts_behind};

use crate::forms::{GREATEST_ANGLE, GREATEST_FLAGS, GREATEST_LIGHT};
use crate::kinds::{LAST_ITEM, LAST_SECTOR};
use crate::names::NO_TEXTURE;
use lump_records::{
    GREATEST_COORDINATE, LEAST_COORDINATE, Line, NO_SIDE, Name8, Sector, Side, Thing, Vertex,
};
use map_words::{number_before, short_natural};

// The number from 0 up to the last one in front of a text, and what stands behind the space after it, if there is one.
#[inline(always)]
fn natural_before(text: &[u8], last: u16) -> Option<(u16, Option<&[u8]>)>
    ensures word { IfSome result
        (λ found. parts text.now ≡ decimal found.0 ∷ parts_behind (option_copied found.1)) }
    ensures range { IfSome result (λ found. found.0 ≤ last) }
{
    let (n, behind) = short_natural(text)?;
    if n > u32::from(last) {
        return None;
    }
    Some((n as u16, behind))
}

// What stands behind a `0` and a space, if a text begins so.
#[inline(always)]
fn behind_zero(text: &[u8]) -> Option<&[u8]>
    ensures { IfSome result (λ rest. parts text.now ≡ codes "0" ∷ parts rest.now) }
{
    match text.strip_prefix(b"0 ") {
        Some(rest) => Some(rest),
        None => None,
    }
}

// A number that may be any of sixteen bits, in front of a text, and what stands behind the space after it, if there is
// one. Most such numbers are 0.
#[inline(always)]
fn offset_before(text: &[u8]) -> Option<(i16, Option<&[u8]>)>
    ensures word { IfSome result
        (λ found. parts text.now ≡ signed_decimal found.0 ∷ parts_behind (option_copied found.1)) }
    ensures range { IfSome result (λ found. IsShort found.0) }
{
    if let Some(rest) = behind_zero(text) {
        return Some((0, Some(rest)));
    }
    number_before(text, i16::MIN, i16::MAX)
}

// The special or tag of a line, in front of a text, and what stands behind the space after it, if there is one. Most
// are 0.
#[inline(always)]
fn code_before(text: &[u8]) -> Option<(u16, Option<&[u8]>)>
    ensures word { IfSome result
        (λ found. parts text.now ≡ decimal found.0 ∷ parts_behind (option_copied found.1)) }
    ensures range { IfSome result (λ found. found.0 ≤ 32767) }
{
    if let Some(rest) = behind_zero(text) {
        return Some((0, Some(rest)));
    }
    natural_before(text, GREATEST_FLAGS)
}

// Whether a name may contain the byte.
fn is_name_byte(byte: u8) -> bool
    ensures { result ≡ is_name_byte byte }
{
    if b'A' <= byte && byte <= b']' {
        return true;
    }
    matches!(byte, b'0'..=b'9' | b'_' | b'-')
}

// The text of the name in front of a text, and what stands behind the space after it. The loop ends at the ninth byte,
// where no name goes on.
#[inline(always)]
fn name_text_before(text: &[u8]) -> Option<(&[u8], &[u8])>
    ensures parts { IfSome result (λ found. parts text.now ≡ found.0.now ∷ parts found.1.now) }
    ensures name { IfSome result (λ found. is_name found.0.now ≡ true) }
{
    for len in 0..9 {
        if text.len() <= len {
            return None;
        }
        let byte = text[len];
        if !is_name_byte(byte) {
            if byte == b' ' && 0 < len {
                return Some((&text[..len], &text[len + 1..]));
            }
            return None;
        }
    }
    None
}

// The name in front of a text, and what stands behind the space after it. Most names are `-`.
#[inline(always)]
fn name_before(text: &[u8]) -> Option<(Name8, &[u8])>
    ensures word { IfSome result (λ found. parts text.now ≡ name_text found.0 ∷ parts found.1.now) }
    ensures range { IfSome result (λ found. IsNamed is_name found.0) }
{
    if let Some(rest) = text.strip_prefix(b"- ") {
        return Some((NO_TEXTURE, rest));
    }
    let (name, behind) = name_text_before(text)?;
    Some((Name8::from_text(name), behind))
}

// Reads the number of a left side, or `-`, which must end the line.
#[inline(always)]
fn left_in(text: &[u8]) -> Option<u16>
    ensures word { IfSome result (λ n. parts text.now ≡ left_word n ∷ []) }
    ensures range { IfSome result (λ n. IsTrue (nat_le n 32766 || (n == no_side))) }
{
    if text == b"-".as_slice() {
        return Some(NO_SIDE);
    }
    match natural_before(text, LAST_ITEM)? {
        (n, None) => Some(n),
        (_, Some(_)) => None,
    }
}

/// Reads `X Y`.
#[inline(always)]
pub fn vertex_in(text: &[u8]) -> Option<Vertex>
    ensures { IfSome result (λ v. (parts text.now ≡ vertex_words v) × IsVertex v) }
{
    let (x, behind) = number_before(text, LEAST_COORDINATE, GREATEST_COORDINATE)?;
    match number_before(behind?, LEAST_COORDINATE, GREATEST_COORDINATE)? {
        (y, None) => Some(Vertex { x, y }),
        (_, Some(_)) => None,
    }
}

/// Reads `XO YO UP LOW MID SECTOR`.
#[inline(always)]
pub fn side_in(text: &[u8]) -> Option<Side>
    ensures { IfSome result (λ s. (parts text.now ≡ side_words s) × IsSide s) }
{
    let (x_offset, behind) = offset_before(text)?;
    let (y_offset, behind) = offset_before(behind?)?;
    let (upper, behind) = name_before(behind?)?;
    let (lower, behind) = name_before(behind)?;
    let (middle, behind) = name_before(behind)?;
    match natural_before(behind, LAST_SECTOR)? {
        (sector, None) => Some(Side {
            x_offset,
            y_offset,
            upper,
            lower,
            middle,
            sector,
        }),
        (_, Some(_)) => None,
    }
}

/// Reads `V1 V2 FLAGS SPECIAL TAG RIGHT LEFT`.
#[inline(always)]
pub fn line_in(text: &[u8]) -> Option<Line>
    ensures { IfSome result (λ l. (parts text.now ≡ line_words l) × IsLine l) }
{
    let (v1, behind) = natural_before(text, LAST_ITEM)?;
    let (v2, behind) = natural_before(behind?, LAST_ITEM)?;
    let (flags, behind) = natural_before(behind?, GREATEST_FLAGS)?;
    let (special, behind) = code_before(behind?)?;
    let (tag, behind) = code_before(behind?)?;
    let (right, behind) = natural_before(behind?, LAST_ITEM)?;
    let left = left_in(behind?)?;
    Some(Line {
        v1,
        v2,
        flags,
        special,
        tag,
        right,
        left,
    })
}

/// Reads `F C FN CN LIGHT SPECIAL TAG`.
#[inline(always)]
pub fn sector_in(text: &[u8]) -> Option<Sector>
    ensures { IfSome result (λ s. (parts text.now ≡ sector_words s) × IsSector s) }
{
    let (floor, behind) = number_before(text, i16::MIN, i16::MAX)?;
    let (ceiling, behind) = number_before(behind?, i16::MIN, i16::MAX)?;
    let (floor_name, behind) = name_before(behind?)?;
    let (ceiling_name, behind) = name_before(behind)?;
    let (light, behind) = number_before(behind, 0, GREATEST_LIGHT)?;
    let (special, behind) = number_before(behind?, 0, i16::MAX)?;
    match number_before(behind?, 0, i16::MAX)? {
        (tag, None) => Some(Sector {
            floor,
            ceiling,
            floor_name,
            ceiling_name,
            light,
            special,
            tag,
        }),
        (_, Some(_)) => None,
    }
}

/// Reads `X Y ANGLE TYPE OPTIONS`.
#[inline(always)]
pub fn thing_in(text: &[u8]) -> Option<Thing>
    ensures { IfSome result (λ t. (parts text.now ≡ thing_words t) × IsThing t) }
{
    let (x, behind) = number_before(text, LEAST_COORDINATE, GREATEST_COORDINATE)?;
    let (y, behind) = number_before(behind?, LEAST_COORDINATE, GREATEST_COORDINATE)?;
    let (angle, behind) = number_before(behind?, 0, GREATEST_ANGLE)?;
    let (kind, behind) = number_before(behind?, 0, i16::MAX)?;
    match number_before(behind?, 0, i16::MAX)? {
        (options, None) => Some(Thing {
            x,
            y,
            angle,
            kind,
            options,
        }),
        (_, Some(_)) => None,
    }
}
