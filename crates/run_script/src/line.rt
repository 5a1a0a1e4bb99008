//! Draws one line of a script, a command or a query.
ghost use Rattle.std.specs.Prelude.{◌≡◌, ◌⊎◌, None, MatchResult};
ghost use Rattle.map_script.specs.Known.{scope_of};
ghost use Rattle.map_script.specs.Views.{seen};
ghost use Rattle.map_script.specs.Words.{text_words};
ghost use Rattle.run_canvas.specs.declared.error.ScriptError.TheVariants.{OutOfMemory, WriterFailed};
ghost use Rattle.run_script.specs.Lines.{DrawsLine, DrawsOther, Sketch, asks, sketch_of};
ghost use Rattle.run_script.specs.Given.{GivesWords};

use crate::changing::try_command;
use map_script::{Names, ScriptLine, defined_name, give_words, let_words, resolve};
use run_canvas::{Canvas, ScriptError};
use std::alloc::Global;
use std::io::Write;

// Whether a line of a script is a query; `text` is the line with its names resolved. A line that gives a name never is.
fn asks<C: Canvas>(line: &[u8], text: &[u8]) -> bool
    ensures { result ≡ asks C.Canvas line.now text.now }
{
    match defined_name(line) {
        Some(_) => false,
        None => C::is_query(text),
    }
}

// Draws a line that gives no words a name, or returns the code of its refusal.
fn draw_other<C: Canvas, W: Write>(
    alloc: Global,
    canvas: &mut C,
    names: &mut Names,
    line: &ScriptLine<'_>,
    is_verbose: bool,
    writer: &mut W,
) -> Result<Option<u16>, ScriptError>
    ensures { let old = sketch_of canvas.old (scope_of names.old) (W.contents writer.old) in
        MatchResult result
        (λ refusal. DrawsOther C.Canvas is_verbose (seen line.now) old refusal
        (sketch_of canvas.new (scope_of names.new) (W.contents writer.new)))
        (λ e. ((e ≡ OutOfMemory) ⊎ (e ≡ WriterFailed))
        × (C.Canvas.settles canvas.old canvas.new ⊎ ((new : Sketch C)
        × DrawsOther C.Canvas is_verbose (seen line.now) old None new
        × (canvas.new ≡ new.canvas)))) }
{
    let text = match resolve(alloc, names, canvas.maps().current(), line.text) {
        Ok(text) => text,
        Err(error) => return Ok(Some(error.code())),
    };
    if asks::<C>(line.text, &text) {
        canvas.tell(alloc, &text, writer)
    } else {
        try_command(alloc, canvas, names, line, &text, is_verbose, writer)
    }
}

// Gives words a name, or returns the code of the refusal.
fn draw_let<C: Canvas>(alloc: Global, canvas: &C, names: &mut Names, words: &[u8]) -> Option<u16>
    ensures { GivesWords C.Canvas (text_words words.now) canvas.now (scope_of names.old) result
        (scope_of names.new) }
{
    match give_words(alloc, names, canvas.maps().current(), words) {
        Ok(()) => None,
        Err(error) => Some(error.code()),
    }
}

/// Draws a line of a script, or returns the code of its refusal.
///
/// # Errors
///
/// `OutOfMemory` and `WriterFailed`; a command was then done, or nothing was drawn.
pub fn draw_line<C: Canvas, W: Write>(
    alloc: Global,
    canvas: &mut C,
    names: &mut Names,
    line: &ScriptLine<'_>,
    is_verbose: bool,
    writer: &mut W,
) -> Result<Option<u16>, ScriptError>
    ensures { let old = sketch_of canvas.old (scope_of names.old) (W.contents writer.old) in
        MatchResult result
        (λ refusal. DrawsLine C.Canvas is_verbose (seen line.now) old refusal
        (sketch_of canvas.new (scope_of names.new) (W.contents writer.new)))
        (λ e. ((e ≡ OutOfMemory) ⊎ (e ≡ WriterFailed))
        × (C.Canvas.settles canvas.old canvas.new ⊎ ((new : Sketch C)
        × DrawsLine C.Canvas is_verbose (seen line.now) old None new
        × (canvas.new ≡ new.canvas)))) }
{
    match let_words(line.text) {
        Some(words) => Ok(draw_let(alloc, canvas, names, words)),
        None => draw_other(alloc, canvas, names, line, is_verbose, writer),
    }
}
