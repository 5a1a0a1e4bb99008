//! Writes the lines about the blocks that were open where a script stopped.
ghost use Rattle.std.specs.Prelude.{◌≡◌, ◌<◌, All, MatchResult, length};
ghost use Rattle.std.specs.Io.KnownBytes.{Appends};
ghost use Rattle.std.specs.Option.{is_some};
ghost use Rattle.map_script.specs.Ats.{at_words};
ghost use Rattle.map_script.specs.Views.{seen};
ghost use Rattle.map_script.specs.Words.{text_words};
ghost use Rattle.run_reasons.specs.Refused.{block_among, block_end, block_text, blocks_text, in_shape_text, turn_end, turn_text};
ghost use Rattle.map_blocks.specs.declared.stop.OpenBlock.{OpenBlock};
ghost use Rattle.run_canvas.specs.declared.error.ScriptError.TheVariants.{WriterFailed};

use crate::refused::write_text;
use map_blocks::OpenBlock;
use map_script::{
    ScriptFiles, ScriptLine, ScriptLines, at_words, command_of, first_word, loop_name,
};
use run_canvas::ScriptError;
use std::io::Write;

// Writes where a line stands, behind the name of its shape.
fn write_block_end<W: Write>(file: &str, number: usize, writer: &mut W) -> Result<(), ScriptError>
    ensures { MatchResult result
        (λ _. Appends (W.contents writer.old) (W.contents writer.new)
        (block_end file.now number))
        (λ e. e ≡ WriterFailed) }
{
    match write!(writer, ", {file}:{number}\n") {
        Ok(()) => Ok(()),
        Err(_) => Err(ScriptError::WriterFailed),
    }
}

// Writes the number of a turn, and where the loop's line stands.
fn write_turn_end<W: Write>(
    turn: i64,
    file: &str,
    number: usize,
    writer: &mut W,
) -> Result<(), ScriptError>
    ensures { MatchResult result
        (λ _. Appends (W.contents writer.old) (W.contents writer.new)
        (turn_end turn file.now number))
        (λ e. e ≡ WriterFailed) }
{
    match write!(writer, " = {turn}, {file}:{number}\n") {
        Ok(()) => Ok(()),
        Err(_) => Err(ScriptError::WriterFailed),
    }
}

// Writes about a turn of a loop with this line.
fn write_turn<W: Write>(
    file: &str,
    line: &ScriptLine<'_>,
    turn: i64,
    writer: &mut W,
) -> Result<(), ScriptError>
    ensures { MatchResult result
        (λ _. Appends (W.contents writer.old) (W.contents writer.new)
        (turn_text file.now (seen line.now) turn))
        (λ e. e ≡ WriterFailed) }
{
    match write_text(b"  ", writer) {
        Ok(()) => {}
        Err(error) => return Err(error),
    }
    match write_text(loop_name(first_word(line.text).1), writer) {
        Ok(()) => {}
        Err(error) => return Err(error),
    }
    write_turn_end(turn, file, line.number, writer)
}

// Writes about a shape that is drawn by this line.
fn write_shape<W: Write>(
    file: &str,
    line: &ScriptLine<'_>,
    writer: &mut W,
) -> Result<(), ScriptError>
    ensures { MatchResult result
        (λ _. Appends (W.contents writer.old) (W.contents writer.new)
        (in_shape_text file.now (seen line.now)))
        (λ e. e ≡ WriterFailed) }
{
    match write_text(b"  in ", writer) {
        Ok(()) => {}
        Err(error) => return Err(error),
    }
    match write_text(first_word(command_of(line.text)).0, writer) {
        Ok(()) => {}
        Err(error) => return Err(error),
    }
    write_block_end(file, line.number, writer)
}

// Whether a line is an `at`.
fn is_at(line: &[u8]) -> bool
    ensures { result ≡ is_some (at_words (text_words line.now)) }
{
    at_words(line).is_some()
}

// Writes about a block that this line opened, in this turn if it is a loop's; nothing about an `at`.
fn write_block<W: Write>(
    file: &str,
    line: &ScriptLine<'_>,
    turn: Option<i64>,
    writer: &mut W,
) -> Result<(), ScriptError>
    ensures { MatchResult result
        (λ _. Appends (W.contents writer.old) (W.contents writer.new)
        (block_text file.now (seen line.now) turn))
        (λ e. e ≡ WriterFailed) }
{
    match turn {
        Some(turn) => write_turn(file, line, turn, writer),
        None => {
            if is_at(line.text) {
                return Ok(());
            }
            write_shape(file, line, writer)
        }
    }
}

// Writes about a block of these lines, which stand in these files.
fn write_block_among<W: Write>(
    lines: &ScriptLines,
    files: &ScriptFiles,
    block: OpenBlock,
    writer: &mut W,
) -> Result<(), ScriptError>
    requires place { block.place < length lines.now }
    requires files { length files.now ≡ length lines.now }
    ensures { MatchResult result
        (λ _. Appends (W.contents writer.old) (W.contents writer.new)
        (block_among lines.now files.now block))
        (λ e. e ≡ WriterFailed) }
{
    let line = lines.line(block.place);
    let file = files.file(block.place);
    write_block(file, &line, block.number, writer)
}

/// Writes about blocks of these lines, which stand in these files, the innermost first.
///
/// # Errors
///
/// Only `WriterFailed`.
pub fn write_blocks<W: Write>(
    lines: &ScriptLines,
    files: &ScriptFiles,
    blocks: &[OpenBlock],
    writer: &mut W,
) -> Result<(), ScriptError>
    requires blocks { All (λ (b : OpenBlock). b.place < length lines.now) blocks.now }
    requires files { length files.now ≡ length lines.now }
    ensures { MatchResult result
        (λ _. Appends (W.contents writer.old) (W.contents writer.new)
        (blocks_text lines.now files.now blocks.now))
        (λ e. e ≡ WriterFailed) }
{
    let count = blocks.len();
    for i in 0..count {
        match write_block_among(lines, files, blocks[count - 1 - i], writer) {
            Ok(()) => {}
            Err(error) => return Err(error),
        }
    }
    Ok(())
}
