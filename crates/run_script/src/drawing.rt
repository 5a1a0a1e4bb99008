//! Draws a script line by line, up to the first refused line.
ghost use Rattle.std.specs.Prelude.{◌≡◌, ◌⊎◌, ◌<◌, ◌^◌, ◌==◌, ◌||◌, ℕ, if◌then◌else◌, List, [], length, vec_len, IfNone, IfOk, IfSome, MatchOption};
ghost use Rattle.map_script.specs.Known.{scope_of};
ghost use Rattle.map_script.specs.Scopes.{first_scope};
ghost use Rattle.map_blocks.specs.Blocks.{with_places};
ghost use Rattle.run_canvas.specs.Canvases.{NothingWaits};
ghost use Rattle.map_blocks.specs.Defined.{shapes_in};
ghost use Rattle.run_script.specs.Drawn.{EndsFrom, IsScriptDrawn, PutsAtEnd, at_first, is_spent, line_limit};
ghost use Rattle.run_script.specs.Places.{AdvancesTo, IsFirstReading, IsToldBehind, IsWithinLines, progress_of, told_around};
ghost use Rattle.map_blocks.specs.Stops.{IsStop, IsStopWithin};
ghost use Rattle.map_blocks.specs.ShapePlaces.{AreShapesWithin, shapes_among};

use crate::ending::end_turn;
use crate::line::draw_line;
use crate::opening::{open_at, open_loop};
use crate::reading::{Reading, place_at_hand};
use crate::shape_lines::{open_shape, pass_define};
use map_blocks::{OpenBlock, Shape, Stop, order_fault, shape_called, shapes_in};
use map_script::{DrawError, Names, ScriptLines, at_words, define_words, loop_words};
use run_canvas::{Canvas, ScriptError};
use std::alloc::Global;
use std::io::Write;
use store_project::ProjectError;

// How many lines more than it has a script may draw, each end of a block's turn counted as one.
const MORE_LINES: usize = 1_000_000;

// How far a script has been read before its first line.
fn first_reading(alloc: Global, lines: &ScriptLines) -> Reading
    ensures first { IsFirstReading (length lines.now) result }
    ensures few { length lines.now < 2 ^ 63 }
{
    Reading {
        place: 0,
        until: lines.len(),
        blocks: Vec::new(alloc),
        told: Vec::new(alloc),
    }
}

// Draws the next line, and returns the code of its refusal.
fn draw_next<C: Canvas, W: Write>(
    alloc: Global,
    canvas: &mut C,
    names: &mut Names,
    lines: &ScriptLines,
    shapes: &[Shape],
    reading: &mut Reading,
    is_verbose: bool,
    writer: &mut W,
) -> Result<Option<u16>, ScriptError>
    requires within { IsWithinLines (length lines.now) reading.old }
    requires shapes { AreShapesWithin (length lines.now) shapes.now }
    requires some { reading.old.place < reading.old.until }
    ensures advanced { let all = with_places lines.now in
        AdvancesTo C.Canvas is_verbose (shapes_among all shapes.now)
        (progress_of all canvas.old (scope_of names.old) (W.contents writer.old) reading.old)
        result
        (progress_of all canvas.new (scope_of names.new) (W.contents writer.new) reading.new) }
    ensures within { IfOk result (λ refusal.
        IfNone refusal (IsWithinLines (length lines.now) reading.new)) }
    ensures told { IfOk result (λ refusal. IfSome refusal (λ code.
        IsToldBehind code reading.old.told.items reading.new)) }
{
    let line = lines.line(reading.place);
    if let Some(words) = loop_words(line.text) {
        return Ok(open_loop(alloc, canvas, names, lines, reading, words));
    }
    if let Some(words) = at_words(line.text) {
        return Ok(open_at(alloc, canvas, names, lines, reading, words));
    }
    if let Some(words) = define_words(line.text) {
        return Ok(pass_define(names, lines, reading, words));
    }
    if let Some(shape) = shape_called(shapes, reading.place, line.text) {
        return Ok(open_shape(alloc, canvas, names, lines, reading, shape, line.text));
    }
    reading.place += 1;
    draw_line(alloc, canvas, names, &line, is_verbose, writer)
}

// Draws the next line, or ends the innermost turn, and returns the code of a refusal.
fn advance<C: Canvas, W: Write>(
    alloc: Global,
    canvas: &mut C,
    names: &mut Names,
    lines: &ScriptLines,
    shapes: &[Shape],
    reading: &mut Reading,
    is_verbose: bool,
    writer: &mut W,
) -> Result<Option<u16>, ScriptError>
    requires within { IsWithinLines (length lines.now) reading.old }
    requires shapes { AreShapesWithin (length lines.now) shapes.now }
    requires some { (reading.old.place < reading.old.until) ⊎ (0 < vec_len reading.old.blocks) }
    ensures advanced { let all = with_places lines.now in
        AdvancesTo C.Canvas is_verbose (shapes_among all shapes.now)
        (progress_of all canvas.old (scope_of names.old) (W.contents writer.old) reading.old)
        result
        (progress_of all canvas.new (scope_of names.new) (W.contents writer.new) reading.new) }
    ensures within { IfOk result (λ refusal.
        IfNone refusal (IsWithinLines (length lines.now) reading.new)) }
    ensures told { IfOk result (λ refusal. IfSome refusal (λ code.
        IsToldBehind code (told_around (with_places lines.now) reading.old) reading.new)) }
{
    if reading.place < reading.until {
        draw_next(
            alloc, canvas, names, lines, shapes, reading, is_verbose, writer,
        )
    } else {
        Ok(end_turn(alloc, canvas, names, lines, reading))
    }
}

// Where the first line stands whose commands wait, behind a line at `place`.
fn first_place(first: usize, place: usize, holds_earlier: bool) -> usize
    ensures { result ≡ if holds_earlier then first else place }
{
    if holds_earlier { first } else { place }
}

// What is told of a line in no block.
fn stop_alone(alloc: Global, place: usize, code: u16) -> Stop
    ensures { IsStop place code [] result }
{
    Stop {
        place,
        code,
        open: Vec::new(alloc),
    }
}

// What is told where commands were lost that waited from the line at `first` on.
fn lost_from(alloc: Global, first: usize) -> Stop
    ensures { IsStop first 30 [] result }
{
    stop_alone(alloc, first, ProjectError::Device.code())
}

// Whether no block is told with a code: the disk failed, and an earlier line may be told, or memory ran out.
fn is_told_alone(code: u16) -> bool
    ensures { result ≡ (code == 30) || (code == 31) }
{
    code == ProjectError::Device.code() || code == DrawError::OutOfMemory.code()
}

// What is told of a line that was refused, if these blocks are open behind it.
fn stop_at(alloc: Global, place: usize, code: u16, told: Vec<OpenBlock>) -> Stop
    ensures { IsStop place code (if (code == 30) || (code == 31) then [] else told.items)
        result }
{
    if is_told_alone(code) {
        return stop_alone(alloc, place, code);
    }
    Stop {
        place,
        code,
        open: told,
    }
}

// What is told of the blocks around what comes next: the end of a block isn't within it.
fn told_around(read: Reading) -> Vec<OpenBlock>
    ensures { (lines : List (ℕ × List ℕ)) → IsWithinLines (length lines) read
        → result.items ≡ told_around (with_places lines) read }
{
    let mut told = read.told;
    if read.place < read.until {
        return told;
    }
    let _ = told.pop();
    told
}

// What is told where a script draws more lines than it may.
fn too_many_at(reading: Reading, place: usize) -> Stop
    ensures { (lines : List (ℕ × List ℕ)) → IsWithinLines (length lines) reading
        → IsStop place 48 (told_around (with_places lines) reading) result }
{
    Stop {
        place,
        code: DrawError::TooManyLines.code(),
        open: told_around(reading),
    }
}

// Whether a drawing ended because memory ran out.
fn is_spent(ended: &Option<Stop>) -> bool
    ensures { result ≡ is_spent ended.now }
{
    match ended {
        Some(stop) => stop.code == 31,
        None => false,
    }
}

// Puts what waits from the line at `first` on, and returns how the drawing ended. Where memory ran out, a part of a
// shape's commands may wait, so nothing is put.
fn finish<C: Canvas>(
    alloc: Global,
    canvas: &mut C,
    ended: Option<Stop>,
    first: usize,
) -> Option<Stop>
    ensures { (PutsAtEnd C.Canvas ended canvas.old canvas.new × (result ≡ ended))
        ⊎ (C.Canvas.loses canvas.old canvas.new × MatchOption result ⊥ (IsStop first 30 [])) }
{
    if is_spent(&ended) {
        return ended;
    }
    if canvas.settle() {
        ended
    } else {
        Some(lost_from(alloc, first))
    }
}

// Puts what waits where memory ran out or the writer failed.
fn cut_off<C: Canvas>(canvas: &mut C)
    ensures { C.Canvas.settles canvas.old canvas.new ⊎ C.Canvas.loses canvas.old canvas.new }
{
    let _ = canvas.settle();
}

// Draws the lines of a script whose blocks are in order and which defines these shapes.
fn draw_all<C: Canvas, W: Write>(
    alloc: Global,
    canvas: &mut C,
    names: &mut Names,
    lines: &ScriptLines,
    shapes: &[Shape],
    is_verbose: bool,
    writer: &mut W,
) -> Result<Option<Stop>, ScriptError>
    requires first { scope_of names.old ≡ first_scope }
    requires shapes { AreShapesWithin (length lines.now) shapes.now }
    requires settled { NothingWaits C.Canvas canvas.old }
    ensures drawn { EndsFrom C.Canvas is_verbose
        (shapes_among (with_places lines.now) shapes.now)
        (at_first canvas.old (W.contents writer.old) lines.now)
        (line_limit lines.now) result canvas.new (W.contents writer.new) }
    ensures within { IfOk result (λ stop. IfSome stop (IsStopWithin (length lines.now))) }
{
    let mut reading = first_reading(alloc, lines);
    let mut first = 0;
    for _count in 0..MORE_LINES + lines.len() {
        let Some(place) = place_at_hand(lines, &reading) else {
            return Ok(finish(alloc, canvas, None, first));
        };
        if !canvas.begin_line(place, is_verbose) {
            return Ok(Some(lost_from(alloc, first)));
        }
        let refusal = match advance(
            alloc,
            canvas,
            names,
            lines,
            shapes,
            &mut reading,
            is_verbose,
            writer,
        ) {
            Ok(refusal) => refusal,
            Err(error) => {
                cut_off(canvas);
                return Err(error);
            }
        };
        let before = first;
        first = first_place(before, place, canvas.holds_earlier());
        if let Some(code) = refusal {
            if canvas.has_lost() {
                return Ok(Some(lost_from(alloc, before)));
            }
            let stop = stop_at(alloc, place, code, reading.told);
            return Ok(finish(alloc, canvas, Some(stop), first));
        }
    }
    match place_at_hand(lines, &reading) {
        None => Ok(finish(alloc, canvas, None, first)),
        Some(place) => Ok(finish(alloc, canvas, Some(too_many_at(reading, place)), first)),
    }
}

// Draws the lines of a script whose blocks are in order.
fn draw_shaped<C: Canvas, W: Write>(
    alloc: Global,
    canvas: &mut C,
    names: &mut Names,
    lines: &ScriptLines,
    is_verbose: bool,
    writer: &mut W,
) -> Result<Option<Stop>, ScriptError>
    requires first { scope_of names.old ≡ first_scope }
    requires settled { NothingWaits C.Canvas canvas.old }
    ensures drawn { let all = with_places lines.now in
        EndsFrom C.Canvas is_verbose (shapes_in all)
        (at_first canvas.old (W.contents writer.old) lines.now)
        (line_limit lines.now) result canvas.new (W.contents writer.new) }
    ensures within { IfOk result (λ stop. IfSome stop (IsStopWithin (length lines.now))) }
{
    match shapes_in(alloc, lines) {
        Ok(shapes) => draw_all(alloc, canvas, names, lines, &shapes, is_verbose, writer),
        Err(_) => {
            cut_off(canvas);
            Err(ScriptError::OutOfMemory)
        }
    }
}

/// Draws the lines of a script in order onto a project, or onto maps in memory: resolves the names in each line, and
/// draws it, up to the first refused line. The lines of a loop's block are drawn once for each of its numbers, those of
/// an `at` with their places placed, those of a shape where a line draws it.
///
/// Answers to queries are written; for commands `NUMBER: ok N` is written if `is_verbose`. In a project the commands
/// before a query are on the disk before it is answered, and so is a command whose answer is written. All others may
/// wait, and go to the disk together; if that fails, the first line of those that were to go is refused (30), and none
/// of them is drawn. If a line is refused because memory ran out (31), those that wait then are never put.
///
/// `names` must be empty at first; after the call it has the names that the drawn lines gave. If the blocks are out of
/// order, the script is refused (47), and nothing is drawn.
///
/// # Errors
///
/// `OutOfMemory` and `WriterFailed`; what earlier lines drew stays.
pub fn draw<C: Canvas, W: Write>(
    alloc: Global,
    canvas: &mut C,
    names: &mut Names,
    lines: &ScriptLines,
    is_verbose: bool,
    writer: &mut W,
) -> Result<Option<Stop>, ScriptError>
    requires first { scope_of names.old ≡ first_scope }
    requires settled { NothingWaits C.Canvas canvas.old }
    ensures drawn { IsScriptDrawn C.Canvas is_verbose lines.now result
        canvas.old (W.contents writer.old) canvas.new (W.contents writer.new) }
    ensures within { IfOk result (λ stop. IfSome stop (IsStopWithin (length lines.now))) }
{
    match order_fault(lines) {
        Some(place) => {
            let code = DrawError::OpenBlock.code();
            Ok(Some(stop_alone(alloc, place, code)))
        }
        None => draw_shaped(alloc, canvas, names, lines, is_verbose, writer),
    }
}
