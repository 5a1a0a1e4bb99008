//! The answer to one line over a project: a command is on the disk before it is answered.
ghost use Rattle.std.specs.Prelude.{◌≡◌, ℕ, List, true, false, Result, MatchResult, take};
ghost use Rattle.std.specs.Io.KnownBytes.{Appends};
ghost use Rattle.store_disk.specs.Moments.{LeavesOnly};
ghost use Rattle.store_disk.specs.Stops.{Each};
ghost use Rattle.map_tables.specs.Projects.{project_of};
ghost use Rattle.store_project.specs.Calls.{Applies};
ghost use Rattle.store_project.specs.Stands.{IsOutcome};
ghost use Rattle.store_project.specs.States.{IsProjectKept};
ghost use Rattle.store_project.specs.declared.error.ProjectError.{ProjectError};
ghost use Rattle.run_edit.specs.Editing.{RepliesInProject, RepliesToQuery, outcome_in, told_of};
ghost use Rattle.run_edit.specs.Runs.{AnswersLine};
ghost use Rattle.run_edit.specs.declared.error.EditorError.TheVariants.{WriterFailed};

use crate::answers::write_answer;
use crate::error::EditorError;
use crate::outcome::write_outcome;
use crate::query::{Query, read_query};
use std::alloc::Global;
use std::io::Write;
use store_disk::Disk;
use store_project::{Project, ProjectError};

/// The outcome of a line: its number, or the refusal's code.
pub fn outcome_in(ended: Result<u32, ProjectError>) -> Result<u32, u16>
    ensures { result ≡ outcome_in ended }
{
    match ended {
        Ok(number) => Ok(number),
        Err(error) => Err(error.code()),
    }
}

/// Applies a line that is no query, and returns its number or the refusal's code.
pub fn change<D: Disk>(project: &mut Project<D>, line: &[u8]) -> Result<u32, u16>
    ensures { (answer : Result ℕ ProjectError)
        × Applies D.Disk project.old line.now answer project.new
        × (result ≡ outcome_in answer) }
{
    outcome_in(project.apply(line))
}

// The first 257 bytes of a line, which decide what it is.
fn front(line: &[u8]) -> &[u8]
    ensures { result.now ≡ take 257 line.now }
{
    if line.len() <= 257 {
        line
    } else {
        &line[..257]
    }
}

// Writes the answer to a query.
fn answer_query<D: Disk, W: Write>(
    alloc: Global,
    project: &Project<D>,
    query: Query,
    writer: &mut W,
) -> Result<(), EditorError>
    ensures { (text : List ℕ) × RepliesToQuery (told_of project.now) query text
        × MatchResult result (λ _. Appends (W.contents writer.old) (W.contents writer.new) text)
        (λ e. e ≡ WriterFailed) }
{
    if project.must_reopen() {
        return write_outcome(Err(ProjectError::Reopen.code()), writer);
    }
    match write_answer(alloc, project.maps(), query, writer) {
        Ok(()) => Ok(()),
        Err(EditorError::OutOfMemory) => {
            write_outcome(Err(ProjectError::OutOfMemory.code()), writer)
        }
        Err(_) => Err(EditorError::WriterFailed),
    }
}

/// Answers a line at once. `line` is at most its first 257 bytes.
pub fn answer_line<D: Disk, W: Write>(
    alloc: Global,
    project: &mut Project<D>,
    line: &[u8],
    writer: &mut W,
) -> Result<(), EditorError>
    ensures { (whole : List ℕ) → line.now ≡ take 257 whole
        → AnswersLine (RepliesInProject D.Disk) result project.old project.new whole
        (W.contents writer.old) (W.contents writer.new) }
{
    let Some(query) = read_query(line) else {
        let outcome = change(project, line);
        return write_outcome(outcome, writer);
    };
    answer_query(alloc, project, query, writer)
}

/// Answers a line over a project. A command is on the disk before its number is answered.
///
/// # Errors
///
/// Only `WriterFailed`; the line's command may then be on the disk.
pub fn answer<D: Disk, W: Write>(
    alloc: Global,
    project: &mut Project<D>,
    line: &[u8],
    writer: &mut W,
) -> Result<(), EditorError>
    ensures answered { AnswersLine (RepliesInProject D.Disk) result
        project.old project.new line.now (W.contents writer.old) (W.contents writer.new) }

    // A stop at any moment of the call leaves the maps as they were, or as the line changes them.
    ensures any_moment { project.old.must_reopen ≡ false
        → LeavesOnly D.Disk project.old.disk project.new.disk
        (IsOutcome project.old.cap (project_of project.old.maps) line.now) }

    // Each image now stands for the maps; if the project must be reopened, for these maps or these maps after the line.
    ensures kept { IsProjectKept D.Disk project.new }
    ensures in_doubt { project.old.must_reopen ≡ false → project.new.must_reopen ≡ true
        → Each (D.may_leave project.new.disk)
        (IsOutcome project.new.cap (project_of project.new.maps) line.now) }
{
    // Only for its contract: it says what each image stands for as the call begins.
    let _ = project.must_reopen();
    answer_line(alloc, project, front(line), writer)
}
