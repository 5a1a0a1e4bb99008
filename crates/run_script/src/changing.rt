//! Applies the commands of a script, keeps their numbers under names, and prints their answers if asked to.
ghost use Rattle.std.specs.Prelude.{◌≡◌, ◌⊎◌, None, Ok, Err, IfErr, IfOk, MatchResult};
ghost use Rattle.std.specs.Option.{option_copied};
ghost use Rattle.std.specs.Io.KnownBytes.{Appends};
ghost use Rattle.map_tables.specs.Projects.{project_of};
ghost use Rattle.map_script.specs.Known.{scope_of};
ghost use Rattle.map_script.specs.Views.{seen};
ghost use Rattle.run_canvas.specs.declared.error.ScriptError.TheVariants.{OutOfMemory, WriterFailed};
ghost use Rattle.run_script.specs.Lines.{Added, Does, IsTried, Sketch, sketch_of};
ghost use Rattle.run_script.specs.Given.{AddsFirst, noted_text, with_given_name};

use crate::shaping::draw_shape;
use map_commands::parse;
use map_script::{
    Answer, Firsts, Names, Numbers, Referent, ScriptLine, defined_name, firsts_of, referent_of,
};
use map_shapes::is_shape_line;
use map_tables::Maps;
use run_canvas::{Canvas, ScriptError};
use std::alloc::Global;
use std::io::Write;

// No item is added.
const NONE: Firsts = Firsts {
    vertex: None,
    sector: None,
    side: None,
    line: None,
    thing: None,
};

// The first items that a line is about to add to the current map.
fn added_by(maps: &Maps, text: &[u8]) -> Firsts
    ensures { AddsFirst text.now (project_of maps.now) result }
{
    match parse(text) {
        Ok(command) => firsts_of(&command, maps.current()),
        Err(_) => NONE,
    }
}

// Keeps the answer of a command, the number of `referent`, and its numbers under the name that its line gives, if it
// gives one.
fn keep_name(
    alloc: Global,
    names: &mut Names,
    name: Option<&[u8]>,
    numbers: Numbers,
    referent: Referent,
) -> Result<(), ScriptError>
    ensures ok { IfOk result (λ _. scope_of names.new
        ≡ with_given_name (option_copied name.entry) numbers referent (scope_of names.old)) }
    ensures refused { IfErr result (λ e. e ≡ OutOfMemory) }
{
    let kind = referent.kind();
    names.put_answer(Answer {
        number: numbers.answer,
        kind,
    });
    match name {
        Some(name) => match names.define(alloc, name, numbers, referent) {
            Ok(()) => Ok(()),
            Err(_) => Err(ScriptError::OutOfMemory),
        },
        None => Ok(()),
    }
}

// Writes the answer to the command of a line, if `is_verbose`.
fn note<W: Write>(
    is_verbose: bool,
    number: usize,
    answer: u32,
    writer: &mut W,
) -> Result<(), ScriptError>
    ensures { MatchResult result
        (λ _. Appends (W.contents writer.old) (W.contents writer.new)
        (noted_text is_verbose number answer))
        (λ e. e ≡ WriterFailed) }
{
    if !is_verbose {
        return Ok(());
    }
    match write!(writer, "{number}: ok {answer}\n") {
        Ok(()) => Ok(()),
        Err(_) => Err(ScriptError::WriterFailed),
    }
}

// Does a command, and returns its numbers, or the code of its refusal.
fn do_command<C: Canvas>(canvas: &mut C, text: &[u8]) -> Result<Numbers, u16>
    ensures { MatchResult result
        (λ n. C.Canvas.changes canvas.old text.now (Ok n.answer) canvas.new
        × AddsFirst text.now (C.Canvas.maps_in canvas.old) n.firsts)
        (λ code. C.Canvas.changes canvas.old text.now (Err code) canvas.new) }
{
    let firsts = added_by(canvas.maps(), text);
    match canvas.change(text) {
        Ok(answer) => Ok(Numbers { answer, firsts }),
        Err(code) => Err(code),
    }
}

// Does what a line says, a command or a shape, and returns its numbers, or the code of its refusal.
fn do_line<C: Canvas>(alloc: Global, canvas: &mut C, text: &[u8]) -> Result<Numbers, u16>
    ensures { MatchResult result
        (λ n. Does C.Canvas text.now canvas.old (Ok n.answer) canvas.new
        × Added text.now (C.Canvas.maps_in canvas.old) (C.Canvas.maps_in canvas.new) n.firsts)
        (λ code. Does C.Canvas text.now canvas.old (Err code) canvas.new) }
{
    if is_shape_line(text) {
        draw_shape(alloc, canvas, text)
    } else {
        do_command(canvas, text)
    }
}

/// Tries the command of a line; `text` is the line with its names replaced by numbers. If it is accepted, its numbers
/// are kept under the line's name, and its answer is written if `is_verbose`. Returns the code of a refusal.
///
/// # Errors
///
/// `OutOfMemory` and `WriterFailed`; the command was then done.
pub fn try_command<C: Canvas, W: Write>(
    alloc: Global,
    canvas: &mut C,
    names: &mut Names,
    line: &ScriptLine<'_>,
    text: &[u8],
    is_verbose: bool,
    writer: &mut W,
) -> Result<Option<u16>, ScriptError>
    ensures { MatchResult result
        (λ refusal. IsTried C.Canvas is_verbose (seen line.now) text.now
        (sketch_of canvas.old (scope_of names.old) (W.contents writer.old))
        refusal
        (sketch_of canvas.new (scope_of names.new) (W.contents writer.new)))
        (λ e. ((e ≡ OutOfMemory) ⊎ (e ≡ WriterFailed))
        × ((new : Sketch C) × IsTried C.Canvas is_verbose (seen line.now) text.now
        (sketch_of canvas.old (scope_of names.old) (W.contents writer.old))
        None new × (canvas.new ≡ new.canvas))) }
{
    let numbers = match do_line(alloc, canvas, text) {
        Ok(numbers) => numbers,
        Err(code) => return Ok(Some(code)),
    };
    let referent = referent_of(text);
    match keep_name(alloc, names, defined_name(line.text), numbers, referent) {
        Ok(()) => {}
        Err(error) => return Err(error),
    }
    match note(is_verbose, line.number, numbers.answer, writer) {
        Ok(()) => Ok(None),
        Err(error) => Err(error),
    }
}
