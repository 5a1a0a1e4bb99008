//! Writes the lines that say which line of a script was refused, what was wrong with it, and in which blocks it stands.
ghost use Rattle.std.specs.Prelude.{◌≡◌, ◌++◌, ℕ, List, MatchResult, Some, length, slice_get};
ghost use Rattle.std.specs.Io.KnownBytes.{Appends};
ghost use Rattle.lump_text.specs.Shown.{shown_text};
ghost use Rattle.map_script.specs.Views.{seen};
ghost use Rattle.run_reasons.specs.Refused.{TellsStop, blocks_text, line_place, refusal_text, line_refusal};
ghost use Rattle.map_blocks.specs.Stops.{IsStopWithin};
ghost use Rattle.run_canvas.specs.declared.error.ScriptError.TheVariants.{WriterFailed};

use crate::calling::stop_name;
use crate::open_blocks::write_blocks;
use crate::reasons::reason_of;
use lump_text::write_shown;
use map_blocks::Stop;
use map_script::{Names, ScriptFiles, ScriptLine, ScriptLines};
use map_tables::Maps;
use run_canvas::ScriptError;
use std::alloc::Global;
use std::io::Write;

// Writes the file's name and the line's number.
fn write_place<W: Write>(file: &str, number: usize, writer: &mut W) -> Result<(), ScriptError>
    ensures { MatchResult result
        (λ _. Appends (W.contents writer.old) (W.contents writer.new)
        (line_place file.now number))
        (λ e. e ≡ WriterFailed) }
{
    match write!(writer, "{file}:{number}: ") {
        Ok(()) => Ok(()),
        Err(_) => Err(ScriptError::WriterFailed),
    }
}

/// Writes a text as it is.
///
/// # Errors
///
/// Only `WriterFailed`.
pub fn write_text<W: Write>(text: &[u8], writer: &mut W) -> Result<(), ScriptError>
    ensures { MatchResult result
        (λ _. Appends (W.contents writer.old) (W.contents writer.new) text.now)
        (λ e. e ≡ WriterFailed) }
{
    match writer.write_all(text) {
        Ok(()) => Ok(()),
        Err(_) => Err(ScriptError::WriterFailed),
    }
}

// Writes the text of a line as it is shown: of more than 120 bytes the first 60, ` .. ` and the last 60.
fn write_echo<W: Write>(text: &[u8], writer: &mut W) -> Result<(), ScriptError>
    ensures { MatchResult result
        (λ _. Appends (W.contents writer.old) (W.contents writer.new) (shown_text text.now))
        (λ e. e ≡ WriterFailed) }
{
    match write_shown(text, writer) {
        Ok(()) => Ok(()),
        Err(_) => Err(ScriptError::WriterFailed),
    }
}

// Writes the refusal's code and name, and the reason in a line of its own.
fn write_reason<W: Write>(
    code: u16,
    name: &str,
    reason: &str,
    writer: &mut W,
) -> Result<(), ScriptError>
    ensures { MatchResult result
        (λ _. Appends (W.contents writer.old) (W.contents writer.new)
        (refusal_text code name.now reason.now))
        (λ e. e ≡ WriterFailed) }
{
    match write!(writer, ": {code} {name}\n  {reason}\n") {
        Ok(()) => Ok(()),
        Err(_) => Err(ScriptError::WriterFailed),
    }
}

// Writes both lines.
fn write_both<W: Write>(
    file: &str,
    line: &ScriptLine<'_>,
    code: u16,
    name: &str,
    reason: &str,
    writer: &mut W,
) -> Result<(), ScriptError>
    ensures { MatchResult result
        (λ _. Appends (W.contents writer.old) (W.contents writer.new)
        (line_place file.now (seen line.now).0
        ++ (shown_text (seen line.now).1 ++ refusal_text code name.now reason.now)))
        (λ e. e ≡ WriterFailed) }
{
    match write_place(file, line.number, writer) {
        Ok(()) => {}
        Err(error) => return Err(error),
    }
    match write_echo(line.text, writer) {
        Ok(()) => {}
        Err(error) => return Err(error),
    }
    write_reason(code, name, reason, writer)
}

/// Writes which line of a file was refused, `FILE:NUMBER: TEXT: CODE NAME`, and the reason in a second line. TEXT is as
/// `write_shown` of lump_text shows it: of more than 120 bytes the first 60, ` .. ` and the last 60. `file` is
/// the file's name.
///
/// # Errors
///
/// Only `WriterFailed`.
pub fn write_refused_line<W: Write>(
    file: &str,
    line: &ScriptLine<'_>,
    code: u16,
    reason: &str,
    writer: &mut W,
) -> Result<(), ScriptError>
    ensures { MatchResult result
        (λ _. Appends (W.contents writer.old) (W.contents writer.new)
        (line_refusal file.now (seen line.now) code reason.now))
        (λ e. e ≡ WriterFailed) }
{
    let name = stop_name(code);
    write_both(file, line, code, name, reason, writer)
}

/// Writes which of the lines of a script was refused, `FILE:NUMBER: TEXT: CODE NAME`, in a second line what was wrong,
/// given the maps as they are and the names of the earlier lines, and then a line about each open block, the innermost
/// first: `  in NAME, FILE:NUMBER` about a shape, `  NAME = TURN, FILE:NUMBER` about a loop, none about an `at`.
/// `files` has the name of each line's file.
///
/// # Errors
///
/// `OutOfMemory`, with nothing written, or `WriterFailed`.
pub fn write_refused<W: Write>(
    alloc: Global,
    maps: &Maps,
    names: &Names,
    lines: &ScriptLines,
    files: &ScriptFiles,
    stop: &Stop,
    writer: &mut W,
) -> Result<(), ScriptError>
    requires within { IsStopWithin (length lines.now) stop.now }
    requires files { length files.now ≡ length lines.now }
    ensures { (line : ℕ × List ℕ) (file : List ℕ)
        → slice_get lines.now stop.now.place ≡ Some line
        → slice_get files.now stop.now.place ≡ Some file
        → TellsStop result file line stop.now.code
        (blocks_text lines.now files.now stop.now.open.items)
        (W.contents writer.old) (W.contents writer.new) }
{
    let line = lines.line(stop.place);
    let file = files.file(stop.place);
    let Ok(reason) = reason_of(alloc, maps, names, lines, stop) else {
        return Err(ScriptError::OutOfMemory);
    };
    match write_refused_line(file, &line, stop.code, reason.as_str(), writer) {
        Ok(()) => {}
        Err(error) => return Err(error),
    }
    write_blocks(lines, files, &stop.open, writer)
}
