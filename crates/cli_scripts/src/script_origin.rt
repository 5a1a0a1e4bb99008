//! Where the items of a script's maps come from: the line that added each.
ghost use Rattle.std.specs.Prelude.{◌≡◌, ◌<◌, Some, MatchResult, length, option_copied, slice_get};
ghost use Rattle.std.specs.List.{position_or_len};
ghost use Rattle.std.specs.Io.KnownBytes.{Appends};
ghost use Rattle.map_script.specs.Views.{seen};
ghost use Rattle.map_tables.specs.Projects.{project_of};
ghost use Rattle.map_tables.specs.Tables.{Tables};
ghost use Rattle.run_edit.specs.declared.error.EditorError.TheVariants.{WriterFailed};
ghost use Rattle.cli_print.specs.Called.{is_called};
ghost use Rattle.cli_scripts.specs.ScriptOrigins.{given_text, line_origin, origin_text, standing_text};

use crate::including::WholeScript;
use cli_print::Origin;
use lump_records::Name8;
use map_script::{ScriptLine, defined_name};
use map_tables::{Kind, Maps};
use run_canvas::{Canvas, OriginDraft};
use run_edit::EditorError;
use std::io::Write;
use std::marker::Model;

/// A script that was drawn whole, and the maps that it drew.
#[derive(Drop)]
pub struct ScriptOrigin<'a> {
    script: &'a WholeScript,
    draft: &'a OriginDraft,
}

impl<'a> Model for ScriptOrigin<'a> {
    ghost use Rattle.cli_scripts.specs.ScriptOrigins.{DrawnScript, HasEachFile, drawn_script};

    ghost Value = { DrawnScript };

    ghost view = { drawn_script };

    ghost invariant = { HasEachFile };
}

impl<'a> ScriptOrigin<'a> {
    ghost use Rattle.std.specs.Prelude.{◌≡◌, length};

    /// The script and its maps.
    pub fn new(script: &'a WholeScript, draft: &'a OriginDraft) -> ScriptOrigin<'a>
        requires { length script.now.files ≡ length script.now.lines }
        ensures { result ≡ record {
          lines = script.now.lines;
          files = script.now.files;
          last = draft.now;
        } }
    {
        ScriptOrigin { script, draft }
    }
}

// Whether the map with the number has the name.
fn is_nth_called(maps: &Maps, n: u32, name: &[u8]) -> bool
    ensures { (m : Tables) → slice_get (project_of maps.now).maps n ≡ Some m
        → result ≡ is_called name.now m }
{
    match maps.at(n) {
        Some(map) => {
            let own = map.name();
            own.text() == name
        }
        None => false,
    }
}

// The number of the first map with the name, or how many maps there are if none has it.
fn first_called(maps: &Maps, name: &[u8]) -> u32
    ensures { result ≡ position_or_len (is_called name.now) (project_of maps.now).maps }
{
    let len = maps.len();
    for n in 0..len {
        if is_nth_called(maps, n, name) {
            return n;
        }
    }
    len
}

// Writes where a line stands, behind a blank.
fn write_place<W: Write>(file: &str, number: usize, writer: &mut W) -> Result<(), EditorError>
    ensures { MatchResult result
        (λ _. Appends (W.contents writer.old) (W.contents writer.new)
        (standing_text file.now number))
        (λ e. e ≡ WriterFailed) }
{
    match write!(writer, " {file}:{number}") {
        Ok(()) => Ok(()),
        Err(_) => Err(EditorError::WriterFailed),
    }
}

// Writes a text as it is.
fn write_text<W: Write>(text: &[u8], writer: &mut W) -> Result<(), EditorError>
    ensures { MatchResult result
        (λ _. Appends (W.contents writer.old) (W.contents writer.new) text.now)
        (λ e. e ≡ WriterFailed) }
{
    match writer.write_all(text) {
        Ok(()) => Ok(()),
        Err(_) => Err(EditorError::WriterFailed),
    }
}

// Writes the name that a line gives, behind a blank, if it gives one.
fn write_given<W: Write>(name: Option<&[u8]>, writer: &mut W) -> Result<(), EditorError>
    ensures { MatchResult result
        (λ _. Appends (W.contents writer.old) (W.contents writer.new)
        (given_text (option_copied name.entry)))
        (λ e. e ≡ WriterFailed) }
{
    let Some(name) = name else {
        return Ok(());
    };
    match write_text(b" ", writer) {
        Ok(()) => write_text(name, writer),
        Err(error) => Err(error),
    }
}

// Writes where a line of a file stands, and the name that it gives, if it gives one.
fn write_line<W: Write>(
    file: &str,
    line: &ScriptLine<'_>,
    writer: &mut W,
) -> Result<(), EditorError>
    ensures { MatchResult result
        (λ _. Appends (W.contents writer.old) (W.contents writer.new)
        (line_origin file.now (seen line.now)))
        (λ e. e ≡ WriterFailed) }
{
    match write_place(file, line.number, writer) {
        Ok(()) => write_given(defined_name(line.text), writer),
        Err(error) => Err(error),
    }
}

// Writes the same of the line at a place of a script, if there is one.
fn write_nth<W: Write>(
    script: &WholeScript,
    place: usize,
    writer: &mut W,
) -> Result<(), EditorError>
    requires { length script.now.files ≡ length script.now.lines }
    ensures { MatchResult result
        (λ _. Appends (W.contents writer.old) (W.contents writer.new)
        (origin_text script.now.lines script.now.files (Some place)))
        (λ e. e ≡ WriterFailed) }
{
    if place >= script.lines.len() {
        return Ok(());
    }
    write_line(script.files.file(place), &script.lines.line(place), writer)
}

// Writes the same of the line that added an item of the map with the name, if there is one.
fn write_adding<W: Write>(
    script: &WholeScript,
    place: Option<usize>,
    writer: &mut W,
) -> Result<(), EditorError>
    requires { length script.now.files ≡ length script.now.lines }
    ensures { MatchResult result
        (λ _. Appends (W.contents writer.old) (W.contents writer.new)
        (origin_text script.now.lines script.now.files place))
        (λ e. e ≡ WriterFailed) }
{
    match place {
        Some(place) => write_nth(script, place, writer),
        None => Ok(()),
    }
}

impl<'a> Origin for ScriptOrigin<'a> {
    ghost use Rattle.cli_scripts.specs.ScriptOrigins.{script_origin};

    ghost origin = { λ s. script_origin s.lines s.files s.last };

    fn write_origin<W: Write>(
        &self,
        map: &Name8,
        kind: Kind,
        n: u32,
        writer: &mut W,
    ) -> Result<(), EditorError> {
        let number = first_called(self.draft.maps(), map.text());
        write_adding(self.script, self.draft.origin(number, kind, n), writer)
    }
}
