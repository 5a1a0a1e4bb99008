//! The shapes that a script defines, and which of them a line draws.
ghost use Rattle.std.specs.Prelude.{◌≡◌, ◌<◌, ◌+◌, ◌&&◌, ℕ, List, IfOk, IfSome, IsOkUnless, bytes_eq, length, nat_lt, option_copied};
ghost use Rattle.std.specs.Option.{option_map};
ghost use Rattle.map_script.specs.Words.{text_words};
ghost use Rattle.map_script.specs.declared.error.DrawError.TheVariants.{OutOfMemory};
ghost use Rattle.map_blocks.specs.Blocks.{lines_between, with_places};
ghost use Rattle.map_blocks.specs.Defined.{shape_at, shape_called, shape_known, shapes_in};
ghost use Rattle.map_blocks.specs.ShapePlaces.{AreShapesWithin, IsShapeWithin, shape_among, shapes_among};

use crate::blocks::block_len;
use map_script::{DrawError, ScriptLines, command_of, define_words, first_word};
use std::alloc::Global;

/// A shape that a script defines.
#[derive(Drop)]
pub struct Shape {
    /// Its name.
    pub name: Vec<u8>,
    /// Its parameters, separated by blanks.
    pub parameters: Vec<u8>,
    /// Where its first line stands.
    pub from: usize,
    /// Where its `end` stands.
    pub end: usize,
}

// The shape that the line at a place defines; `words` is its NAME PARAM ..
fn shape_at(
    alloc: Global,
    lines: &ScriptLines,
    place: usize,
    words: &[u8],
) -> Result<Shape, DrawError>
    requires { place < length lines.now }
    ensures ok { let all = with_places lines.now in
        IfOk result (λ shape. shape_among all shape
        ≡ shape_at place (lines_between all (place + 1) (length lines.now))
        (text_words words.now)) }
    ensures within { IfOk result (IsShapeWithin (length lines.now)) }
    ensures memory { IsOkUnless result OutOfMemory }
{
    let (name, parameters) = first_word(words);
    let name = name.to_vec(alloc)?;
    let parameters = parameters.to_vec(alloc)?;
    let until = lines.len();
    let from = place + 1;
    let end = from + block_len(lines, from, until);
    Ok(Shape {
        name,
        parameters,
        from,
        end,
    })
}

/// The shapes that the lines of a script define, in their order.
///
/// # Errors
///
/// Only `OutOfMemory`.
pub fn shapes_in(alloc: Global, lines: &ScriptLines) -> Result<Vec<Shape>, DrawError>
    ensures ok { let all = with_places lines.now in
        IfOk result (λ shapes. shapes_among all shapes.items ≡ shapes_in all) }
    ensures within { IfOk result (λ shapes. AreShapesWithin (length lines.now) shapes.items) }
    ensures memory { IsOkUnless result OutOfMemory }
{
    let mut shapes = Vec::new(alloc);
    for place in 0..lines.len() {
        let Some(words) = define_words(lines.line(place).text) else {
            continue;
        };
        let shape = match shape_at(alloc, lines, place, words) {
            Ok(shape) => shape,
            Err(error) => return Err(error),
        };
        shapes.push(shape)?;
    }
    Ok(shapes)
}

// Whether a shape has a name and is known at a place.
fn is_known(shape: &Shape, place: usize, name: &[u8]) -> bool
    ensures { result ≡ nat_lt shape.now.end place && bytes_eq shape.now.name.items name.now }
{
    shape.end < place && shape.name.as_slice() == name
}

// The shape of a name that is known at a place.
fn shape_known<'a>(shapes: &'a [Shape], place: usize, name: &[u8]) -> Option<&'a Shape>
    ensures known { (all : List (ℕ × (ℕ × List ℕ)))
        → option_map (shape_among all) (option_copied result)
        ≡ shape_known (shapes_among all shapes.now) place name.now }
    ensures within { (count : ℕ) → AreShapesWithin count shapes.now
        → IfSome result (λ shape. IsShapeWithin count shape.now) }
{
    let mut found = None;
    for shape in shapes {
        if is_known(shape, place, name) {
            found = Some(shape);
        }
    }
    found
}

/// The shape that a line at a place draws, if the first word of its command is the name of one.
pub fn shape_called<'a>(shapes: &'a [Shape], place: usize, line: &[u8]) -> Option<&'a Shape>
    ensures called { (all : List (ℕ × (ℕ × List ℕ)))
        → option_map (shape_among all) (option_copied result)
        ≡ shape_called (shapes_among all shapes.now) place (text_words line.now) }
    ensures within { (count : ℕ) → AreShapesWithin count shapes.now
        → IfSome result (λ shape. IsShapeWithin count shape.now) }
{
    shape_known(shapes, place, first_word(command_of(line)).0)
}
