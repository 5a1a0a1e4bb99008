//! A run over a project file: the session of `edit`. The commands of a turn go to the disk together.
ghost use Rattle.std.specs.Prelude.{◌≡◌, ◌≤◌, ℕ, List, [], IfOk, IfSome, OnOk, is_ok, length, take};
ghost use Rattle.std.specs.List.{list_any};
ghost use Rattle.store_project.specs.Groups.{IsGroupFor};
ghost use Rattle.run_edit.specs.Editing.{RepliesInProject, told_of};
ghost use Rattle.run_edit.specs.Groups.{IsEmptyFor, IsWaiting, Waits, exchanges, as_answered};
ghost use Rattle.run_edit.specs.Runs.{AnswersLine, Exchange, IsTrace, Ran, TakesLines, none_waits};
ghost use Rattle.run_edit.specs.Sessions.{GoesOver, RunsOver};
ghost use Rattle.run_edit.specs.Told.{RepliesTold};
ghost use Rattle.run_edit.specs.Composing.{goes_none, goes_behind};

use crate::batch::{Batch, hold, is_full};
use crate::editing::answer_line;
use crate::error::EditorError;
use crate::fate::{Fate, write_settled};
use crate::query::read_query;
use crate::reading::run_lines;
use crate::session::Session;
use std::alloc::Global;
use std::io::{Read, Write};
use store_disk::Disk;
use store_project::{Project, ProjectGroup};

// Whether a line was accepted.
fn any_accepted(outcomes: &[Result<u32, u16>]) -> bool
    ensures { result ≡ list_any is_ok outcomes.now }
{
    outcomes.iter().any(|outcome| outcome.is_ok())
}

// Puts the group of lines with these outcomes on the disk, if any of them was accepted. An empty group is left behind
// them, if there is memory for it.
fn put<D: Disk>(
    project: &mut Project<D>,
    group: ProjectGroup,
    outcomes: &[Result<u32, u16>],
) -> (Fate, Option<ProjectGroup>)
    requires { IsGroupFor project.old group }
    ensures goes { (batch : Batch) (lines : List (List ℕ)) → batch.group ≡ group
        → batch.outcomes ≡ outcomes.now → (waits : IsWaiting project.old batch lines)
        → GoesOver D.Disk project.old (exchanges (as_answered result.0 waits.decided)) project.new }
    ensures left { (batch : Batch) (lines : List (List ℕ)) → batch.group ≡ group
        → batch.outcomes ≡ outcomes.now → IsWaiting project.old batch lines
        → IfSome result.1 (IsEmptyFor project.new) }
{
    if !any_accepted(outcomes) {
        return (Fate::Kept, Some(group));
    }
    match project.put_and_begin(group) {
        Ok(left) => (Fate::Kept, left),
        Err(_) => (Fate::Lost, None),
    }
}

// Puts the lines of a batch on the disk, writes their answers, and may return a batch in which none waits.
fn settle_batch<D: Disk, W: Write>(
    project: &mut Project<D>,
    batch: Batch,
    writer: &mut W,
) -> Result<Option<Batch>, EditorError>
    requires { IsGroupFor project.old batch.group }
    ensures taken { (lines : List (List ℕ)) → IsWaiting project.old batch lines
        → TakesLines (GoesOver D.Disk) none_waits result project.old project.new lines
        (W.contents writer.old) (W.contents writer.new) }
    ensures left { (lines : List (List ℕ)) → IsWaiting project.old batch lines
        → IfOk result (λ waiting. Waits project.new waiting []) }
{
    let Batch { group, outcomes } = batch;
    let decided = outcomes.as_slice();
    let (fate, left) = put(project, group, decided);
    match write_settled(fate, decided, writer) {
        Ok(()) => {}
        Err(error) => return Err(error),
    }
    match left {
        Some(group) => Ok(Some(Batch::over(group))),
        None => Ok(None),
    }
}

// Puts and answers the lines that wait. It stands apart since a batch is large: where none waits, nothing is moved.
#[inline(never)]
fn settle_waiting<D: Disk, W: Write>(
    project: &mut Project<D>,
    waiting: &mut Option<Batch>,
    writer: &mut W,
) -> Result<(), EditorError>
    requires { (lines : List (List ℕ)) × Waits project.old waiting.old lines }
    ensures taken { (lines : List (List ℕ)) → Waits project.old waiting.old lines
        → TakesLines (GoesOver D.Disk) none_waits result project.old project.new lines
        (W.contents writer.old) (W.contents writer.new) }
    ensures left { OnOk result (Waits project.new waiting.new []) }
{
    match waiting.take() {
        Some(batch) => match settle_batch(project, batch, writer) {
            Ok(left) => {
                *waiting = left;
                Ok(())
            }
            Err(error) => Err(error),
        },
        None => Ok(()),
    }
}

// Answers a line at once. An empty group is kept only behind a query, which leaves the project as it is.
fn answer_alone<D: Disk, W: Write>(
    alloc: Global,
    project: &mut Project<D>,
    waiting: &mut Option<Batch>,
    line: &[u8],
    writer: &mut W,
) -> Result<(), EditorError>
    requires none { Waits project.old waiting.old [] }
    requires short { length line.now ≤ 257 }
    ensures answered { (whole : List ℕ) → line.now ≡ take 257 whole
        → AnswersLine (RepliesInProject D.Disk) result project.old project.new whole
        (W.contents writer.old) (W.contents writer.new) }
    ensures left { Waits project.new waiting.new [] }
{
    if waiting.is_none() {
        return answer_line(alloc, project, line, writer);
    }
    if read_query(line).is_some() {
        return answer_line(alloc, project, line, writer);
    }
    *waiting = None;
    answer_line(alloc, project, line, writer)
}

impl<D: Disk> Session for Project<D> {
    type Waiting = Option<Batch>;

    ghost goes = { GoesOver D.Disk };

    ghost waits = { Waits };

    fn none_waiting() -> Option<Batch> {
        None
    }

    fn take<W: Write>(
        &mut self,
        alloc: Global,
        waiting: &mut Option<Batch>,
        line: &[u8],
        may_wait: bool,
        writer: &mut W,
    ) -> Result<(), EditorError> {
        if hold(self, waiting, line, may_wait) {
            if is_full(waiting) {
                self.settle(waiting, writer)
            } else {
                Ok(())
            }
        } else {
            match self.settle(waiting, writer) {
                Ok(()) => answer_alone(alloc, self, waiting, line, writer),
                Err(error) => Err(error),
            }
        }
    }

    fn settle<W: Write>(
        &mut self,
        waiting: &mut Option<Batch>,
        writer: &mut W,
    ) -> Result<(), EditorError> {
        match waiting {
            Some(_) => settle_waiting(self, waiting, writer),
            None => Ok(()),
        }
    }

    ghost none = { λ session. goes_none _ session };

    ghost then_more = { λ old mid new xs ys. goes_behind _ old mid new xs ys };
}

/// Answers the lines of the reader over a project, and returns how many lines it answered. It makes at most `turns`
/// reads of at most 4,096 bytes each, and flushes the writer after each of these turns.
///
/// After a line that was answered `no 30`, every line is answered `no 32`, queries too, until the file is reopened.
///
/// # Errors
///
/// - `InputTooLong` if that many reads don't reach the end of the input, and `ReaderFailed`: every line that was read
///   whole has been answered, and the rest is dropped.
/// - `WriterFailed`: no further line was answered.
pub fn run<D: Disk, R: Read, W: Write>(
    alloc: Global,
    project: &mut Project<D>,
    reader: &mut R,
    writer: &mut W,
    turns: u32,
) -> Result<u64, EditorError>
    ensures { (trace : List Exchange)
        × Ran (IsTrace RepliesTold) (told_of project.old) (told_of project.new) trace turns result
        (R.remaining reader.old) (R.remaining reader.new)
        (W.contents writer.old) (W.contents writer.new)
        × RunsOver D.Disk project.old project.new trace }
{
    // Only for its contract: it says what each image stands for as the run begins.
    let _ = project.must_reopen();
    run_lines(alloc, project, reader, writer, turns)
}
