//! The places of a command line, placed as its block wants them.
ghost use Rattle.std.specs.Prelude.{◌≡◌, ◌∷◌, [], drop, take, IfOk, IsOkUnless};
ghost use Rattle.std.specs.Fmt.{signed_decimal};
ghost use Rattle.std.specs.List.{join_with_byte};
ghost use Rattle.map_script.specs.Placed.{angle_word, faces_east, is_unplaced, layout_of, placed_behind, placed_by, placed_corners, placed_looking, placed_pair, placed_text, placed_walls, placed_words, shape_layout, wall_words};
ghost use Rattle.map_script.specs.Texts.{with_each_word};
ghost use Rattle.map_script.specs.Words.{text_words};
ghost use Rattle.map_script.specs.declared.error.DrawError.TheVariants.{OutOfMemory};

use crate::error::DrawError;
use crate::placing::{Facing, Placing, placed_to, turned_angle};
use crate::text::{copied, put_word, without_first};
use crate::words::next_word;
use lump_records::{GREATEST_COORDINATE, LEAST_COORDINATE, Vertex};
use map_commands::{Layout, head_in, head_layout, number_in as number_in_range};
use std::alloc::Global;

// A place as two words.
#[derive(Drop)]
pub struct PlaceWords {
    pub x: Vec<u8>,
    pub y: Vec<u8>,
}

// A number as a word.
fn number_word(alloc: Global, number: i32) -> Result<Vec<u8>, DrawError>
    ensures ok { IfOk result (λ word. word.items ≡ signed_decimal number) }
    ensures memory { IsOkUnless result OutOfMemory }
{
    let digits = format!(in alloc; "{number}")?;
    Ok(digits.as_bytes().to_vec(alloc)?)
}

// X Y as words, placed; as they are if no place has them.
fn placed_pair(alloc: Global, placing: Placing, x: &[u8], y: &[u8]) -> Result<PlaceWords, DrawError>
    ensures ok { IfOk result
        (λ pair. (pair.x.items, pair.y.items) ≡ placed_pair placing x.now y.now) }
    ensures memory { IsOkUnless result OutOfMemory }
{
    let east = number_in_range(x, LEAST_COORDINATE, GREATEST_COORDINATE);
    let north = number_in_range(y, LEAST_COORDINATE, GREATEST_COORDINATE);
    match (east, north) {
        (Ok(east), Ok(north)) => {
            let (east, north) = placed_to(placing, Vertex { x: east, y: north });
            let x = number_word(alloc, east)?;
            let y = number_word(alloc, north)?;
            Ok(PlaceWords { x, y })
        }
        _ => {
            let x = copied(alloc, x)?;
            let y = copied(alloc, y)?;
            Ok(PlaceWords { x, y })
        }
    }
}

// ANGLE, turned; as it is if it is none.
fn angle_word(alloc: Global, facing: Facing, word: &[u8]) -> Result<Vec<u8>, DrawError>
    ensures ok { IfOk result (λ turned. turned.items ≡ angle_word facing word.now) }
    ensures memory { IsOkUnless result OutOfMemory }
{
    match number_in_range(word, 0, 359) {
        Ok(angle) => number_word(alloc, turned_angle(facing, angle)),
        Err(_) => copied(alloc, word),
    }
}

// Appends the words of a text.
#[tactic(auto, using(crate::proofs::PlacedWords::each_more))]
fn put_words(text: &mut Vec<u8>, words: &[u8]) -> Result<(), DrawError>
    ensures ok { IfOk result
        (λ _. text.new.items ≡ with_each_word text.old.items (text_words words.now)) }
    ensures memory { IsOkUnless result OutOfMemory }
{
    let mut rest = words;
    while let Some((word, behind)) = next_word(rest) {
        match put_word(text, word) {
            Ok(()) => rest = behind,
            Err(error) => return Err(error),
        }
    }
    Ok(())
}

// Appends so many words of a text, and returns the rest of the text.
fn put_some<'a>(text: &mut Vec<u8>, count: usize, words: &'a [u8]) -> Result<&'a [u8], DrawError>
    ensures ok { IfOk result
        (λ _. text.new.items ≡ with_each_word text.old.items (take count (text_words words.now))) }
    ensures rest { IfOk result (λ rest. text_words rest.now ≡ drop count (text_words words.now)) }
    ensures memory { IsOkUnless result OutOfMemory }
{
    if count == 0 {
        return Ok(words);
    }
    match next_word(words) {
        Some((word, behind)) => {
            put_word(text, word)?;
            put_some(text, count - 1, behind)
        }
        None => Ok(words),
    }
}

// Appends the words of corners, placed.
#[tactic(auto, using(crate::proofs::PlacedWords::corner_half, crate::proofs::PlacedWords::corner_more))]
fn put_corners(
    alloc: Global,
    text: &mut Vec<u8>,
    placing: Placing,
    words: &[u8],
) -> Result<(), DrawError>
    ensures ok { IfOk result (λ _. text.new.items
        ≡ with_each_word text.old.items (placed_corners placing (text_words words.now))) }
    ensures memory { IsOkUnless result OutOfMemory }
{
    let mut rest = words;
    while let Some((x, behind)) = next_word(rest) {
        let Some((y, behind)) = next_word(behind) else {
            return put_word(text, x);
        };
        match put_pair(alloc, text, placing, x, y) {
            Ok(()) => rest = behind,
            Err(error) => return Err(error),
        }
    }
    Ok(())
}

// Appends a place, placed.
fn put_pair(
    alloc: Global,
    text: &mut Vec<u8>,
    placing: Placing,
    x: &[u8],
    y: &[u8],
) -> Result<(), DrawError>
    ensures ok { IfOk result (λ _. let pair = placed_pair placing x.now y.now in
        text.new.items ≡ with_each_word text.old.items (pair.0 ∷ pair.1 ∷ [])) }
    ensures memory { IsOkUnless result OutOfMemory }
{
    let pair = placed_pair(alloc, placing, x, y)?;
    put_word(text, &pair.x)?;
    put_word(text, &pair.y)
}

// Appends X Y ANGLE and what stands behind, placed.
fn put_looking(
    alloc: Global,
    text: &mut Vec<u8>,
    placing: Placing,
    words: &[u8],
) -> Result<(), DrawError>
    ensures ok { IfOk result (λ _. text.new.items
        ≡ with_each_word text.old.items (placed_looking placing (text_words words.now))) }
    ensures memory { IsOkUnless result OutOfMemory }
{
    let Some((x, behind)) = next_word(words) else {
        return put_words(text, words);
    };
    let Some((y, behind)) = next_word(behind) else {
        return put_words(text, words);
    };
    let Some((angle, behind)) = next_word(behind) else {
        return put_words(text, words);
    };
    put_pair(alloc, text, placing, x, y)?;
    let angle = angle_word(alloc, placing.facing, angle)?;
    put_word(text, &angle)?;
    put_words(text, behind)
}

// Appends the lower left and the upper right corner of walls, of which these were so before a turn.
fn put_walls_at(
    text: &mut Vec<u8>,
    facing: Facing,
    a: &PlaceWords,
    b: &PlaceWords,
) -> Result<(), DrawError>
    ensures ok { IfOk result (λ _. text.new.items ≡ with_each_word text.old.items
        (wall_words facing (a.now.x.items, a.now.y.items) (b.now.x.items, b.now.y.items))) }
    ensures memory { IsOkUnless result OutOfMemory }
{
    let (west, south, east, north) = match facing {
        Facing::East => (&a.x, &a.y, &b.x, &b.y),
        Facing::North => (&b.x, &a.y, &a.x, &b.y),
        Facing::West => (&b.x, &b.y, &a.x, &a.y),
        Facing::South => (&a.x, &b.y, &b.x, &a.y),
    };
    put_word(text, west)?;
    put_word(text, south)?;
    put_word(text, east)?;
    put_word(text, north)
}

// Appends X1 Y1 X2 Y2 and what stands behind, placed.
#[tactic(auto, using(crate::proofs::PlacedWords::each_append))]
fn put_walls(
    alloc: Global,
    text: &mut Vec<u8>,
    placing: Placing,
    words: &[u8],
) -> Result<(), DrawError>
    ensures ok { IfOk result (λ _. text.new.items
        ≡ with_each_word text.old.items (placed_walls placing (text_words words.now))) }
    ensures memory { IsOkUnless result OutOfMemory }
{
    let Some((a, behind)) = next_word(words) else {
        return put_words(text, words);
    };
    let Some((b, behind)) = next_word(behind) else {
        return put_words(text, words);
    };
    let Some((c, behind)) = next_word(behind) else {
        return put_words(text, words);
    };
    let Some((d, behind)) = next_word(behind) else {
        return put_words(text, words);
    };
    let one = placed_pair(alloc, placing, a, b)?;
    let other = placed_pair(alloc, placing, c, d)?;
    put_walls_at(text, placing.facing, &one, &other)?;
    put_words(text, behind)
}

// How many words of a shape stand in front of its places, and how these stand.
fn shape_layout(word: &[u8]) -> Option<(usize, Layout)>
    ensures { result ≡ shape_layout word.now }
{
    if word == b"pillar".as_slice() {
        Some((1, Layout::Corners))
    } else if word == b"area".as_slice() {
        Some((6, Layout::Corners))
    } else {
        None
    }
}

// How many words of a line stand in front of its places, and how these stand.
fn layout_of(word: &[u8]) -> Option<(usize, Layout)>
    ensures { result ≡ layout_of word.now }
{
    match head_in(word) {
        Some(head) => head_layout(head),
        None => shape_layout(word),
    }
}

// Appends words that begin with places, placed.
fn put_placed(
    alloc: Global,
    text: &mut Vec<u8>,
    layout: Layout,
    placing: Placing,
    words: &[u8],
) -> Result<(), DrawError>
    ensures ok { IfOk result (λ _. text.new.items
        ≡ with_each_word text.old.items (placed_by layout placing (text_words words.now))) }
    ensures memory { IsOkUnless result OutOfMemory }
{
    match layout {
        Layout::Corners => put_corners(alloc, text, placing, words),
        Layout::Looking => put_looking(alloc, text, placing, words),
        Layout::Walls => put_walls(alloc, text, placing, words),
    }
}

// Appends the words behind a first word, placed.
#[tactic(auto, using(crate::proofs::PlacedWords::each_append))]
fn put_behind(
    alloc: Global,
    text: &mut Vec<u8>,
    placing: Placing,
    head: &[u8],
    words: &[u8],
) -> Result<(), DrawError>
    ensures ok { IfOk result (λ _. text.new.items ≡ with_each_word text.old.items
        (placed_behind placing (layout_of head.now) (text_words words.now))) }
    ensures memory { IsOkUnless result OutOfMemory }
{
    match layout_of(head) {
        Some((skipped, layout)) => {
            let rest = put_some(text, skipped, words)?;
            put_placed(alloc, text, layout, placing, rest)
        }
        None => put_words(text, words),
    }
}

// Whether nothing is turned.
fn faces_east(facing: Facing) -> bool
    ensures { result ≡ faces_east facing }
{
    match facing {
        Facing::East => true,
        _ => false,
    }
}

// Whether nothing is turned or moved.
fn is_unplaced(placing: Placing) -> bool
    ensures { result ≡ is_unplaced placing }
{
    faces_east(placing.facing) && placing.at.x == 0 && placing.at.y == 0
}

// A line that has a word, placed.
fn placed_words(alloc: Global, placing: Placing, line: &[u8]) -> Result<Vec<u8>, DrawError>
    ensures ok { IfOk result
        (λ text. text.items ≡ join_with_byte 32 (placed_words placing (text_words line.now))) }
    ensures memory { IsOkUnless result OutOfMemory }
{
    let mut text = Vec::new(alloc);
    let Some((head, behind)) = next_word(line) else {
        return Ok(text);
    };
    put_word(&mut text, head)?;
    put_behind(alloc, &mut text, placing, head, behind)?;
    Ok(without_first(text))
}

/// A command line with its places placed.
pub fn placed_text(alloc: Global, placing: Placing, line: Vec<u8>) -> Result<Vec<u8>, DrawError>
    ensures ok { IfOk result (λ text. text.items ≡ placed_text placing line.items) }
    ensures memory { IsOkUnless result OutOfMemory }
{
    if is_unplaced(placing) {
        Ok(line)
    } else {
        placed_words(alloc, placing, &line)
    }
}
