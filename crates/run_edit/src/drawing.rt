//! A run over maps in memory: the session of `scratch`.
ghost use Rattle.std.specs.Prelude.{◌≡◌, ◌≤◌, ℕ, List, [], refl, take};
ghost use Rattle.map_tables.specs.Projects.{ProjectMaps, body_len, empty_project, project_of};
ghost use Rattle.run_edit.specs.declared.limits.TheConstants.{LONGEST_BODY};
ghost use Rattle.run_edit.specs.Answers.{ChangesBy, RepliesInMemory, outcome_of};
ghost use Rattle.run_edit.specs.Queries.{WritesAnswer};
ghost use Rattle.run_edit.specs.Composing.{IsTrace-append};
ghost use Rattle.run_edit.specs.Runs.{AnswersLine, Exchange, IsTrace, Ran};

use crate::answers::write_answer;
use crate::error::EditorError;
use crate::limits::LONGEST_BODY;
use crate::outcome::write_outcome;
use crate::query::{Query, read_query};
use crate::reading::run_lines;
use crate::session::Session;
use map_commands::{CommandError, apply, parse};
use map_tables::Maps;
use std::alloc::Global;
use std::io::{Read, Write};
use std::marker::Model;

// The outcome of a command: its number, or the refusal's code.
fn outcome_of(ended: Result<u32, CommandError>) -> Result<u32, u16>
    ensures { result ≡ outcome_of ended }
{
    match ended {
        Ok(number) => Ok(number),
        Err(error) => Err(error.code()),
    }
}

/// The maps of a project in memory, which queries read and commands change.
#[derive(Drop)]
pub struct Drawing {
    maps: Maps,
}

impl Model for Drawing {
    ghost Value = { ProjectMaps };

    ghost view = { λ d. project_of d.maps };

    ghost invariant = { λ d. body_len (project_of d.maps) ≤ 2007002 };
}

impl Drawing {
    /// The empty map MAP01 alone.
    pub fn new(alloc: Global) -> Self
        ensures { result ≡ empty_project }
    {
        Drawing {
            maps: Maps::new(alloc),
        }
    }

    /// The maps as they are.
    pub fn maps(&self) -> &Maps
        ensures { project_of result.now ≡ self.now }
    {
        &self.maps
    }

    /// Applies a line that is no query, and returns its number or the refusal's code.
    pub fn change(&mut self, line: &[u8]) -> Result<u32, u16>
        ensures { ChangesBy LONGEST_BODY self.old line.now result self.new }
    {
        let command = match parse(line) {
            Ok(command) => command,
            Err(error) => return Err(error.code()),
        };
        outcome_of(apply(&mut self.maps, &command, LONGEST_BODY))
    }

    // Writes the answer to a query.
    fn answer_query<W: Write>(
        &self,
        alloc: Global,
        query: Query,
        writer: &mut W,
    ) -> Result<(), EditorError>
        ensures { WritesAnswer result self.now query (W.contents writer.old)
            (W.contents writer.new) }
    {
        write_answer(alloc, &self.maps, query, writer)
    }
}

/// Answers a line. `line` is at most its first 257 bytes.
pub fn answer_line<W: Write>(
    alloc: Global,
    drawing: &mut Drawing,
    line: &[u8],
    writer: &mut W,
) -> Result<(), EditorError>
    ensures { (whole : List ℕ) → line.now ≡ take 257 whole
        → AnswersLine (RepliesInMemory 2007002) result drawing.old drawing.new whole
        (W.contents writer.old) (W.contents writer.new) }
{
    let Some(query) = read_query(line) else {
        let outcome = drawing.change(line);
        return write_outcome(outcome, writer);
    };
    match drawing.answer_query(alloc, query, writer) {
        Ok(()) => Ok(()),
        Err(EditorError::OutOfMemory) => {
            write_outcome(Err(CommandError::OutOfMemory.code()), writer)
        }
        Err(_) => Err(EditorError::WriterFailed),
    }
}

// Each line is answered at once.
impl Session for Drawing {
    type Waiting = ();

    ghost goes = { IsTrace (RepliesInMemory 2007002) };

    ghost waits = { λ _ _ lines. lines ≡ [] };

    fn none_waiting() {}

    fn take<W: Write>(
        &mut self,
        alloc: Global,
        _waiting: &mut (),
        line: &[u8],
        _may_wait: bool,
        writer: &mut W,
    ) -> Result<(), EditorError> {
        answer_line(alloc, self, line, writer)
    }

    fn settle<W: Write>(&mut self, _waiting: &mut (), _writer: &mut W) -> Result<(), EditorError> {
        Ok(())
    }

    ghost none = { λ _. refl };

    ghost then_more = { IsTrace-append (RepliesInMemory 2007002) };
}

/// Answers the lines of the reader over the maps of a project in memory, at first the empty map MAP01 alone, and
/// returns how many lines it answered. It makes at most `turns` reads of at most 4,096 bytes each, and flushes the
/// writer after each of these turns.
///
/// # Errors
///
/// - `InputTooLong` if that many reads don't reach the end of the input, and `ReaderFailed`: every line that was read
///   whole has been answered, and the rest is dropped.
/// - `WriterFailed`: no further line was answered.
///
/// The run itself allocates nothing. A line for which there is no memory is answered `no 31`.
pub fn run_in_memory<R: Read, W: Write>(
    alloc: Global,
    reader: &mut R,
    writer: &mut W,
    turns: u32,
) -> Result<u64, EditorError>
    ensures { (last : ProjectMaps) × (trace : List Exchange)
        × Ran (IsTrace (RepliesInMemory LONGEST_BODY)) empty_project last trace turns result
        (R.remaining reader.old) (R.remaining reader.new)
        (W.contents writer.old) (W.contents writer.new) }
{
    let mut drawing = Drawing::new(alloc);
    run_lines(alloc, &mut drawing, reader, writer, turns)
}
