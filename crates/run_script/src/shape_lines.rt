//! The lines that define shapes, `define NAME PARAM ..`, and those that draw them, `NAME WORD ..`.
ghost use Rattle.std.specs.Prelude.{◌≡◌, ◌+◌, ◌<◌, ◌^◌, IfNone, IfOk, IfSome, IsOkUnless, length, option_copied};
ghost use Rattle.map_script.specs.Defines.{call_words, define_fault};
ghost use Rattle.map_script.specs.Known.{scope_of};
ghost use Rattle.map_script.specs.Lines.{name_in};
ghost use Rattle.map_script.specs.Words.{text_words};
ghost use Rattle.map_script.specs.declared.error.DrawError.TheVariants.{OutOfMemory};
ghost use Rattle.map_tables.specs.Projects.{current_map};
ghost use Rattle.map_blocks.specs.Blocks.{lines_between, with_places};
ghost use Rattle.run_script.specs.Places.{IsToldBehind, IsWithinLines, naming_in, position_of, turns_of};
ghost use Rattle.map_blocks.specs.ShapePlaces.{IsShapeWithin, shape_among};
ghost use Rattle.run_script.specs.Turns.{OpensBlock, after_drawing, after_define, in_shape, line_naming, turn_of_shape};

use crate::reading::{Block, Naming, Reading, enter};
use map_blocks::{Shape, block_len};
use map_script::{
    DrawError, Names, ScriptLines, call_words, counts_of, define_fault, defined_name,
    give_parameters,
};
use map_tables::Map;
use run_canvas::Canvas;
use std::alloc::Global;

// How many blocks may be open, those of shapes among them.
const DEEPEST: usize = 64;

/// Meets the line of a `define`, the next one: goes behind its block. `words` is the line's NAME PARAM .. Returns the
/// code of a refusal.
pub fn pass_define(
    names: &Names,
    lines: &ScriptLines,
    reading: &mut Reading,
    words: &[u8],
) -> Option<u16>
    requires within { IsWithinLines (length lines.now) reading.old }
    requires some { reading.old.place < reading.old.until }
    ensures opened { let all = with_places lines.now in
        OpensBlock (after_define (scope_of names.now)
        (lines_between all (reading.old.place + 1) reading.old.until)
        (turns_of all reading.old.blocks.items) (define_fault (text_words words.now)))
        (scope_of names.now) result (position_of all (scope_of names.now) reading.new) }
    ensures within { IfNone result (IsWithinLines (length lines.now) reading.new) }
    ensures told { IfSome result (λ code.
        IsToldBehind code reading.old.told.items reading.new) }
{
    if let Some(error) = define_fault(words) {
        return Some(error.code());
    }
    let from = reading.place + 1;
    reading.place = from + block_len(lines, from, reading.until) + 1;
    None
}

// What names what a line draws over a map by a shape, if the line gives a name.
fn line_naming(alloc: Global, map: &Map, name: Option<&[u8]>) -> Result<Option<Naming>, DrawError>
    ensures ok { IfOk result (λ naming.
        naming_in naming ≡ line_naming map.now.tables (option_copied name.entry)) }
    ensures memory { IsOkUnless result OutOfMemory }
{
    match name {
        Some(name) => {
            let name = name.to_vec(alloc)?;
            let before = counts_of(map);
            Ok(Some(Naming { name, before }))
        }
        None => Ok(None),
    }
}

// Enters a shape, whose parameters stand for these words.
fn enter_shape(
    alloc: Global,
    names: &mut Names,
    lines: &ScriptLines,
    reading: &mut Reading,
    shape: &Shape,
    naming: Option<Naming>,
    words: &[u8],
) -> Result<(), DrawError>
    requires within { IsWithinLines (length lines.now) reading.old }
    requires some { reading.old.place < reading.old.until }
    requires shape { IsShapeWithin (length lines.now) shape.now }
    ensures ok { let all = with_places lines.now in
        let r = reading.old in
        let left = lines_between all (r.place + 1) r.until in
        IfOk result (λ _. position_of all (scope_of names.new) reading.new
        ≡ in_shape (scope_of names.old) (turns_of all r.blocks.items)
        (turn_of_shape (scope_of names.old) r.place left (naming_in naming)
        (shape_among all shape.now))
        (text_words shape.now.parameters.items) (text_words words.now)) }
    ensures within { IfOk result (λ _. IsWithinLines (length lines.now) reading.new) }
    ensures memory { IsOkUnless result OutOfMemory }
{
    let block = Block {
        place: reading.place,
        from: shape.from,
        end: shape.end,
        next: reading.place + 1,
        until: reading.until,
        before: names.mark(),
        count: None,
        naming,
    };
    let placing = names.placing();
    match names.enter_shape(alloc) {
        Ok(()) => {}
        Err(error) => return Err(error),
    }
    match enter(alloc, names, reading, block, placing) {
        Ok(()) => {}
        Err(error) => return Err(error),
    }
    give_parameters(alloc, names, &shape.parameters, words)
}

/// Meets a line that draws a shape, the next one: enters the shape. `line` is the line. Returns the code of a refusal.
pub fn open_shape<C: Canvas>(
    alloc: Global,
    canvas: &C,
    names: &mut Names,
    lines: &ScriptLines,
    reading: &mut Reading,
    shape: &Shape,
    line: &[u8],
) -> Option<u16>
    requires within { IsWithinLines (length lines.now) reading.old }
    requires some { reading.old.place < reading.old.until }
    requires shape { IsShapeWithin (length lines.now) shape.now }
    ensures opened { let all = with_places lines.now in
        OpensBlock (after_drawing (scope_of names.old) reading.old.place
        (lines_between all (reading.old.place + 1) reading.old.until)
        (turns_of all reading.old.blocks.items)
        (line_naming (current_map (C.Canvas.maps_in canvas.now)) (name_in (text_words line.now)))
        (shape_among all shape.now)
        (call_words (scope_of names.old) (current_map (C.Canvas.maps_in canvas.now))
        (text_words shape.now.parameters.items) (text_words line.now)))
        (scope_of names.old) result (position_of all (scope_of names.new) reading.new) }
    ensures within { IfNone result (IsWithinLines (length lines.now) reading.new) }
    ensures told { IfSome result (λ code.
        IsToldBehind code reading.old.told.items reading.new) }
{
    let map = canvas.maps().current();
    let text = match call_words(alloc, names, map, &shape.parameters, line) {
        Ok(text) => text,
        Err(error) => return Some(error.code()),
    };
    if reading.blocks.len() >= DEEPEST {
        return Some(DrawError::OpenBlock.code());
    }
    let naming = match line_naming(alloc, map, defined_name(line)) {
        Ok(naming) => naming,
        Err(error) => return Some(error.code()),
    };
    match enter_shape(alloc, names, lines, reading, shape, naming, &text) {
        Ok(()) => None,
        Err(error) => Some(error.code()),
    }
}
