//! `perform_typed`: does what `scratch` and `edit` ask for where a person types the lines and sees the answers.
ghost use Rattle.std.specs.Prelude.{◌≡◌, ◌≤◌, ℕ, true, IfOk, Result};
ghost use Rattle.cli_program.specs.Typed.{IsTyped, IsTypedInto, takes_lines};
ghost use Rattle.cli_refusals.specs.Statuses.{status_in};
ghost use Rattle.cli_refusals.specs.declared.refusal.Refusal.{Refusal};

use crate::over_file::{ended_over, file_at};
use cli_files::{Hold, NotedFile};
use cli_refusals::{Causes, Refusal, report, report_causes, status_in};
use cli_requests::{edit_typed, scratch_typed};
use cli_words::Request;
use std::io::{Read, Write};
use std::os::unix::fs::FileExt;
use std::rt::Files;
use store_disk::{Disk, FileDisk};

// Answers the lines of a person over the project in the file at the path.
fn edit_file_typed<E, R, W, F>(
    rt: &E,
    path: &str,
    reader: &mut R,
    writer: &mut W,
    faults: &mut F,
    why: &mut Causes,
) -> Result<u8, Refusal>
where
    E: AllocGlobal + Files,
    E::File: FileExt + Hold,
    R: Read,
    W: Write,
    F: Write,
    ensures small { IfOk result (λ s. s ≤ 3) }
    ensures typed { IsTypedInto ⟦<FileDisk<&'static NotedFile<E::File>> as Disk>⟧ result
        (R.remaining reader.old) (R.remaining reader.new)
        (W.contents writer.old) (W.contents writer.new) }
{
    let file = file_at(rt, path, why)?;
    let disk = FileDisk::new(&file, true);
    let how = edit_typed(rt.alloc(), disk, reader, writer, faults).how;
    ended_over(&file, how, why)
}

/// Whether a person may type lines to a request.
pub fn takes_lines(request: &Request) -> bool
    ensures { result ≡ takes_lines request.now }
{
    match request {
        Request::Scratch | Request::Edit { .. } => true,
        _ => false,
    }
}

// Does what a request asks for to which a person types lines, and returns the status if it isn't refused.
fn done_typed<E, R, W, F>(
    rt: &E,
    request: &Request,
    reader: &mut R,
    writer: &mut W,
    faults: &mut F,
    why: &mut Causes,
) -> Result<u8, Refusal>
where
    E: AllocGlobal + Files,
    E::File: FileExt + Hold,
    R: Read,
    W: Write,
    F: Write,
    requires { takes_lines request.now ≡ true }
    ensures typed { IsTyped ⟦<FileDisk<&'static NotedFile<E::File>> as Disk>⟧ request.now result
        (R.remaining reader.old) (R.remaining reader.new)
        (W.contents writer.old) (W.contents writer.new) }
    ensures small { IfOk result (λ s. s ≤ 3) }
{
    match request {
        Request::Scratch => scratch_typed(rt.alloc(), reader, writer, faults),
        Request::Edit { file } => edit_file_typed(rt, file.as_str(), reader, writer, faults, why),
        _ => unreachable!(),
    }
}

/// Does what `scratch` or `edit` asks for where a person types the lines of `reader` and sees `writer` and `faults`,
/// and returns the status: 0 if the session was left, and 1 if the request was refused, with the reason on `faults` as
/// `perform` reports it. Each line gets its answer, or the help that it asks for, before more is read; a line on
/// `faults` says what was wrong with a refused command. `quit` and `exit` end the session.
pub fn perform_typed<E, R, W, F>(
    rt: &E,
    request: &Request,
    reader: &mut R,
    writer: &mut W,
    faults: &mut F,
) -> u8
where
    E: AllocGlobal + Files,
    E::File: FileExt + Hold,
    R: Read,
    W: Write,
    F: Write,
    requires { takes_lines request.now ≡ true }
    ensures status { result ≤ 3 }
    ensures typed { (how : Result ℕ Refusal) × (result ≡ status_in how)
        × IsTyped ⟦<FileDisk<&'static NotedFile<E::File>> as Disk>⟧
        request.now how (R.remaining reader.old) (R.remaining reader.new)
        (W.contents writer.old) (W.contents writer.new) }
{
    let mut why = Causes {
        file: None,
        out: None,
        beside: None,
    };
    let how = done_typed(rt, request, reader, writer, faults, &mut why);
    if let Err(refusal) = &how {
        let _ = report(refusal, faults);
        report_causes(rt.alloc(), request, &why, faults);
    }
    status_in(&how)
}
