//! Where a sum is cut, and where a place is.
ghost use Rattle.std.specs.Prelude.{◌≡◌, ◌+◌, ◌<◌, ◌^◌, ◌==◌, ◌&&◌, ◌||◌, if◌then◌else◌, length, IfSome, MatchOption, None, Some, option_copied};
ghost use Rattle.map_script.specs.Cuts.{before_end, cut_place, inside, is_sign, last_cut, place_parts};

use crate::reference::{cut, has_places};
use map_commands::kind_in;
use map_tables::Kind;

fn is_sign(b: u8) -> bool
    ensures { result ≡ is_sign b }
{
    b == b'+' || b == b'-' || b == b'*' || b == b'/'
}

// The count, and one more if the byte is the sign.
fn with_one(count: usize, b: u8, sign: u8) -> usize
    requires { count < 2 ^ 63 }
    ensures { result ≡ count + (if b == sign then 1 else 0) }
{
    if b == sign { count + 1 } else { count }
}

// Whether a sum is cut at a byte, one of two signs: behind an operand, and with as many parentheses closed as opened.
fn is_cut(b: u8, one: u8, other: u8, has_operand: bool, opened: usize, closed: usize) -> bool
    ensures { result ≡ ((b == one) || (b == other)) && (has_operand && (opened == closed)) }
{
    (b == one || b == other) && has_operand && opened == closed
}

// The later place if there is a cut, else the one that was found before.
fn newest(found: Option<usize>, i: usize, is_cut: bool) -> Option<usize>
    ensures { result ≡ (if is_cut then Some i else found) }
{
    if is_cut { Some(i) } else { found }
}

// The last place of one of two signs, between operands and outside of parentheses.
fn last_cut(text: &[u8], one: u8, other: u8) -> Option<usize>
    ensures place { result ≡ last_cut one other text.now (length text.now) }
    ensures within { IfSome result (λ i. i < length text.now) }
{
    let mut found = None;
    let mut has_operand = false;
    let mut opened: usize = 0;
    let mut closed: usize = 0;
    for (i, b) in text.iter().enumerate() {
        let here = is_cut(*b, one, other, has_operand, opened, closed);
        found = newest(found, i, here);
        has_operand = !is_sign(*b);
        opened = with_one(opened, *b, b'(');
        closed = with_one(closed, *b, b')');
    }
    found
}

/// The place of the sign that is reckoned last.
pub fn cut_place(text: &[u8]) -> Option<usize>
    ensures place { result ≡ cut_place text.now }
    ensures within { IfSome result (λ i. i < length text.now) }
{
    match last_cut(text, b'+', b'-') {
        Some(i) => Some(i),
        None => last_cut(text, b'*', b'/'),
    }
}

/// What stands between the parentheses, if they enclose the text.
pub fn inside(text: &[u8]) -> Option<&[u8]>
    ensures { option_copied result ≡ inside text.now }
{
    let len = text.len();
    if len >= 2 && text[0] == b'(' && text[len - 1] == b')' {
        Some(&text[1..len - 1])
    } else {
        None
    }
}

// What stands in front of a `)` at the end of a text.
fn before_end(text: &[u8]) -> Option<&[u8]>
    ensures { option_copied result ≡ before_end text.now }
{
    let len = text.len();
    if len >= 1 && text[len - 1] == b')' {
        Some(&text[..len - 1])
    } else {
        None
    }
}

/// The kind, X and Y of KIND(X,Y).
pub fn place_parts(text: &[u8]) -> Option<(Kind, &[u8], &[u8])>
    ensures { MatchOption result (place_parts text.now ≡ None)
        (λ p. place_parts text.now ≡ Some (p.0, p.1.now, p.2.now)) }
{
    let (word, Some(rest)) = cut(text, b'(') else {
        return None;
    };
    let (Some(kind), Some(places)) = (kind_in(word), before_end(rest)) else {
        return None;
    };
    match last_cut(places, b',', b',') {
        Some(i) if has_places(kind) => Some((kind, &places[..i], &places[i + 1..])),
        _ => None,
    }
}
