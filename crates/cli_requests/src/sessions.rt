//! The requests `scratch` and `edit` where a person types the lines and sees the answers.
ghost use Rattle.std.specs.Prelude.{◌≡◌, ◌≤◌, IfOk, List};
ghost use Rattle.run_edit.specs.Editing.{RepliesInProject};
ghost use Rattle.run_edit.specs.Runs.{Exchange};
ghost use Rattle.run_edit.specs.Sessions.{RunsOver};
ghost use Rattle.cli_requests.specs.Typing.{IsTypedInMemory, IsTypedOver, Typed, but_help, typed_end};

use crate::typing::run_typed;
use cli_refusals::{DONE, Refusal};
use cli_sources::{HandedBack, not_opened, open_project};
use run_edit::{Drawing, EditorError};
use std::alloc::Global;
use std::io::{Read, Write};
use store_disk::Disk;
use store_project::Project;

// The status after a session.
fn typed_end(session: Result<(), EditorError>) -> Result<u8, Refusal>
    ensures ended { result ≡ typed_end session }
    ensures small { IfOk result (λ s. s ≤ 3) }
{
    match session {
        Ok(()) => Ok(DONE),
        Err(error) => Err(Refusal::Lines(error)),
    }
}

/// Answers the lines of a person over maps in memory.
#[inline(never)]
pub fn scratch_typed<R: Read, W: Write, F: Write>(
    alloc: Global,
    reader: &mut R,
    writer: &mut W,
    faults: &mut F,
) -> Result<u8, Refusal>
    ensures small { IfOk result (λ s. s ≤ 3) }
    ensures typed { IsTypedInMemory result (R.remaining reader.old) (R.remaining reader.new)
        (W.contents writer.old) (W.contents writer.new) }
{
    let mut drawing = Drawing::new(alloc);
    typed_end(run_typed(alloc, &mut drawing, reader, writer, faults))
}

// Answers the lines of a person over a project.
fn run_over<D: Disk, R: Read, W: Write, F: Write>(
    alloc: Global,
    project: &mut Project<D>,
    reader: &mut R,
    writer: &mut W,
    faults: &mut F,
) -> Result<(), EditorError>
    ensures { (trace : List Exchange)
        × Typed (RepliesInProject D.Disk) project.old project.new trace result
        (R.remaining reader.old) (R.remaining reader.new)
        (W.contents writer.old) (W.contents writer.new)
        × RunsOver D.Disk project.old project.new (but_help trace) }
{
    // Only for its contract: it says what each image stands for as the session begins.
    let _ = project.must_reopen();
    run_typed(alloc, project, reader, writer, faults)
}

/// Answers the lines of a person over the project that a disk's bytes stand for.
#[inline(never)]
pub fn edit_typed<D: Disk, R: Read, W: Write, F: Write>(
    alloc: Global,
    disk: D,
    reader: &mut R,
    writer: &mut W,
    faults: &mut F,
) -> HandedBack<D>
    ensures small { IfOk result.how (λ s. s ≤ 3) }
    ensures typed { IsTypedOver D.Disk disk result.disk result.how
        (R.remaining reader.old) (R.remaining reader.new)
        (W.contents writer.old) (W.contents writer.new) }
{
    let mut project = match open_project(alloc, disk) {
        Ok(project) => project,
        Err(refused) => return not_opened(refused),
    };
    let how = typed_end(run_over(alloc, &mut project, reader, writer, faults));
    HandedBack {
        how,
        disk: project.into_disk(),
    }
}
