//! What the request `rebuild` tells: what became of each level, and how long the WAD is.
ghost use Rattle.std.specs.Prelude.{◌≡◌, ◌≤◌, ◌⊎◌, IfOk, MatchResult};
ghost use Rattle.std.specs.Io.KnownBytes.{Appends, Keeps};
ghost use Rattle.run_edit.specs.declared.error.EditorError.TheVariants.{WriterFailed};
ghost use Rattle.cli_rebuild.specs.Rebuilding.{IsToldOf, fate_text, fate_texts, items_text, kept_notes, left_as_text, made_text, rebuilt_text, status_rebuilt};
ghost use Rattle.cli_refusals.specs.declared.refusal.Refusal.{Refusal};

use crate::notes::{left_count, made_count, write_notes};
use cli_print::write_shown;
use cli_refusals::{Refusal, status_told};
use run_edit::EditorError;
use std::io::Write;
use wad_rebuild::{Fate, MadeLumps, RebuiltLevel};

// Writes that a level is built anew, with these counts of its records.
fn write_items<W: Write>(
    vertices: usize,
    segs: usize,
    subs: usize,
    nodes: usize,
    writer: &mut W,
) -> Result<(), EditorError>
    ensures { MatchResult result
        (λ _. Appends (W.contents writer.old) (W.contents writer.new)
        (items_text vertices segs subs nodes))
        (λ e. e ≡ WriterFailed) }
{
    let written = write!(
        writer,
        " rebuilt vertices {vertices} segs {segs} subsectors {subs} nodes {nodes}\n"
    );
    match written {
        Ok(()) => Ok(()),
        Err(_) => Err(EditorError::WriterFailed),
    }
}

// Writes that a level is built anew, with the counts of its records.
fn write_made<W: Write>(made: &MadeLumps, writer: &mut W) -> Result<(), EditorError>
    ensures { MatchResult result
        (λ _. Appends (W.contents writer.old) (W.contents writer.new) (made_text made.now))
        (λ e. e ≡ WriterFailed) }
{
    let vertices = made.vertices.len() / 4;
    let segs = made.segs.len() / 12;
    let subs = made.subs.len() / 4;
    let nodes = made.nodes.len() / 28;
    write_items(vertices, segs, subs, nodes, writer)
}

// Writes why a level is left as it was.
fn write_left<W: Write>(cause: &wad_rebuild::Cause, writer: &mut W) -> Result<(), EditorError>
    ensures { MatchResult result
        (λ _. Appends (W.contents writer.old) (W.contents writer.new) (left_as_text cause.now))
        (λ e. e ≡ WriterFailed) }
{
    match write!(writer, " left: {cause}\n") {
        Ok(()) => Ok(()),
        Err(_) => Err(EditorError::WriterFailed),
    }
}

// Writes what became of a level, if it was asked for.
fn write_level<W: Write>(level: &RebuiltLevel, writer: &mut W) -> Result<(), EditorError>
    ensures { MatchResult result
        (λ _. Appends (W.contents writer.old) (W.contents writer.new)
        (fate_text level.now.name level.now.fate))
        (λ e. e ≡ WriterFailed) }
{
    if let Fate::NotAsked = &level.fate {
        return Ok(());
    }
    match write_shown(level.name.text(), writer) {
        Ok(()) => {}
        Err(error) => return Err(error),
    }
    match &level.fate {
        Fate::NotAsked => Ok(()),
        Fate::Made(made) => match write_made(made, writer) {
            Ok(()) => Ok(()),
            Err(error) => Err(error),
        },
        Fate::Left(cause) => match write_left(cause, writer) {
            Ok(()) => Ok(()),
            Err(error) => Err(error),
        },
    }
}

// Writes what became of each level.
fn write_levels<W: Write>(levels: &[RebuiltLevel], writer: &mut W) -> Result<(), EditorError>
    ensures { MatchResult result
        (λ _. Appends (W.contents writer.old) (W.contents writer.new) (fate_texts levels.now))
        (λ e. e ≡ WriterFailed) }
{
    for level in levels {
        match write_level(level, writer) {
            Ok(()) => {}
            Err(error) => return Err(error),
        }
    }
    Ok(())
}

// Writes how many levels were built anew, of how many that were asked for, and how long the WAD is.
fn write_end<W: Write>(
    made: usize,
    asked: usize,
    bytes: u64,
    writer: &mut W,
) -> Result<(), EditorError>
    ensures { MatchResult result
        (λ _. Appends (W.contents writer.old) (W.contents writer.new)
        (rebuilt_text made asked bytes))
        (λ e. e ≡ WriterFailed) }
{
    match write!(writer, "rebuilt {made} of {asked} levels, {bytes} bytes\n") {
        Ok(()) => Ok(()),
        Err(_) => Err(EditorError::WriterFailed),
    }
}

/// Writes what became of the levels, flushes the writer, reports the faults that stay, and returns the status.
pub fn tell_rebuilt<W: Write, F: Write>(
    levels: &[RebuiltLevel],
    size: u64,
    writer: &mut W,
    errors: &mut F,
) -> Result<u8, Refusal>
    ensures small { IfOk result (λ s. s ≤ 3) }
    ensures told { MatchResult result
        (λ status. (status ≡ status_rebuilt levels.now)
        × IsToldOf levels.now size (W.contents writer.old) (W.contents writer.new)
        × Appends (F.contents errors.old) (F.contents errors.new) (kept_notes levels.now))
        (λ refusal. (refusal ≡ Refusal.Lines WriterFailed)
        × (IsToldOf levels.now size (W.contents writer.old) (W.contents writer.new)
        ⊎ Keeps (F.contents errors.old) (F.contents errors.new))) }
{
    let made = made_count(levels);
    let left = left_count(levels);
    write_levels(levels, writer)?;
    write_end(made, made + left, size, writer)?;
    match writer.flush() {
        Ok(()) => {}
        Err(_) => return Err(Refusal::Lines(EditorError::WriterFailed)),
    }
    write_notes(levels, errors)?;
    Ok(status_told(left == 0))
}
