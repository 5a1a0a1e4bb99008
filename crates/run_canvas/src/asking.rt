//! Answers the queries of a script as `edit` answers them.
ghost use Rattle.std.specs.Prelude.{◌≡◌, MatchResult};
ghost use Rattle.map_tables.specs.Projects.{project_of};
ghost use Rattle.run_canvas.specs.Canvases.{TellsOfMaps, TellsQuery, is_query_line};
ghost use Rattle.run_canvas.specs.declared.error.ScriptError.TheVariants.{WriterFailed};

use crate::error::ScriptError;
use map_commands::CommandError;
use map_tables::Maps;
use run_edit::{EditorError, Query, read_query, write_answer};
use std::alloc::Global;
use std::io::Write;

/// Whether a line is a query.
pub fn is_query_line(line: &[u8]) -> bool
    ensures { result ≡ is_query_line line.now }
{
    read_query(line).is_some()
}

// Writes the answer to a query about the maps, or returns the code of its refusal.
fn tell_query<W: Write>(
    alloc: Global,
    maps: &Maps,
    query: Query,
    writer: &mut W,
) -> Result<Option<u16>, ScriptError>
    ensures { MatchResult result
        (λ refusal. TellsQuery (project_of maps.now) query refusal (W.contents writer.old)
        (W.contents writer.new))
        (λ e. e ≡ WriterFailed) }
{
    match write_answer(alloc, maps, query, writer) {
        Ok(()) => Ok(None),
        Err(EditorError::OutOfMemory) => Ok(Some(CommandError::OutOfMemory.code())),
        Err(_) => Err(ScriptError::WriterFailed),
    }
}

/// Writes the answer to a query about the maps, or returns the code of its refusal. A line that is no query is refused.
///
/// # Errors
///
/// Only `WriterFailed`.
pub fn tell_of<W: Write>(
    alloc: Global,
    maps: &Maps,
    line: &[u8],
    writer: &mut W,
) -> Result<Option<u16>, ScriptError>
    ensures { MatchResult result
        (λ refusal. TellsOfMaps (project_of maps.now) line.now refusal (W.contents writer.old)
        (W.contents writer.new))
        (λ e. e ≡ WriterFailed) }
{
    match read_query(line) {
        Some(query) => tell_query(alloc, maps, query, writer),
        None => Ok(Some(CommandError::NotACommand.code())),
    }
}
