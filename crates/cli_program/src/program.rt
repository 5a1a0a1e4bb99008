//! `perform`: does what a request asks for, and returns the program's status.
ghost use Rattle.std.specs.Prelude.{◌≡◌, ◌≤◌, ℕ, false, true, IfOk, List, Option, Result};
ghost use Rattle.std.specs.Io.KnownBytes.{Keeps};
ghost use Rattle.cli_program.specs.Deeds.{IsPerformed, IsScratched};
ghost use Rattle.cli_program.specs.Kinds.{IsQuiet, is_over_source, is_over_wad, tells_beside};
ghost use Rattle.cli_program.specs.Notes.{HasToldNotes, TellsNotes};
ghost use Rattle.cli_program.specs.SourceDeeds.{IsDoneWith};
ghost use Rattle.cli_refusals.specs.Statuses.{status_in};
ghost use Rattle.cli_refusals.specs.declared.refusal.Refusal.{Refusal};

use crate::names_beside::tell_names;
use crate::over_file::{create_file, draw_file, edit_file, salvage_file, try_onto};
use crate::over_input::{build_source, check_source, dump_source, lint_source, picture_source};
use cli_files::{Hold, NotedFile};
use cli_pictures::{Wanted, layers_of};
use cli_print::{Choice, TURNS};
use cli_rebuild::rebuild;
use cli_refusals::{Causes, Refusal, ended, report, report_causes, status_in};
use cli_requests::{examine, list_levels};
use cli_scripts::{script_path, try_file};
use cli_words::Request;
use run_edit::{InspectError, run_in_memory};
use std::alloc::Global;
use std::io::{Read, Write};
use std::os::unix::fs::FileExt;
use std::rt::Files;
use store_disk::{Disk, FileDisk};
use wad_levels::ReadError;

// Whether a request is refused since its file has no map or no level of the name.
fn lacks_name(refusal: &Refusal) -> bool {
    matches!(
        refusal,
        Refusal::NoSuchMap | Refusal::Level(InspectError::Level(ReadError::NoSuchLevel))
    )
}

// Answers the lines of the input over maps in memory.
#[inline(never)]
fn scratch<R: Read, W: Write>(alloc: Global, reader: &mut R, writer: &mut W) -> Result<u8, Refusal>
    ensures small { IfOk result (λ s. s ≤ 3) }
    ensures answered { IsScratched result (R.remaining reader.old) (R.remaining reader.new)
        (W.contents writer.old) (W.contents writer.new) }
{
    ended(run_in_memory(alloc, reader, writer, TURNS))
}

// Does what is asked for by a request that only reads a WAD.
fn done_with_wad<E, W>(
    rt: &E,
    request: &Request,
    writer: &mut W,
    why: &mut Causes,
) -> Result<u8, Refusal>
where
    E: AllocGlobal + Files,
    E::File: FileExt + Hold,
    W: Write,
    requires { is_over_wad request.now ≡ true }
    ensures performed { (reader : Option (List ℕ))
        → IsPerformed ⟦<FileDisk<&'static NotedFile<E::File>> as Disk>⟧ request.now result
        reader reader (W.contents writer.old) (W.contents writer.new) }
    ensures small { IfOk result (λ s. s ≤ 3) }
{
    match request {
        Request::Inspect { wad, name } => {
            examine(rt, wad.as_str(), name.as_str(), writer, &mut why.file)
        }
        Request::Levels { wad } => list_levels(rt, wad.as_str(), writer, &mut why.file),
        _ => unreachable!(),
    }
}

// Does what is asked for by a request that writes nothing but a refusal on standard error, and returns the status.
fn done_quietly<E, R, W>(
    rt: &E,
    request: &Request,
    reader: &mut R,
    writer: &mut W,
    why: &mut Causes,
) -> Result<u8, Refusal>
where
    E: AllocGlobal + Files,
    E::File: FileExt + Hold,
    R: Read,
    W: Write,
    requires { tells_beside request.now ≡ false }
    ensures performed { IsPerformed ⟦<FileDisk<&'static NotedFile<E::File>> as Disk>⟧
        request.now result (R.remaining reader.old) (R.remaining reader.new)
        (W.contents writer.old) (W.contents writer.new) }
    ensures small { IfOk result (λ s. s ≤ 3) }
{
    match request {
        Request::Scratch => scratch(rt.alloc(), reader, writer),
        Request::Create {
            file,
            slot,
            journal,
        } => create_file(rt, file.as_str(), *slot, *journal, writer, why),
        Request::Edit { file } => edit_file(rt, file.as_str(), reader, writer, why),
        Request::Check { .. }
        | Request::Lint { .. }
        | Request::Draw { .. }
        | Request::TryScript { .. }
        | Request::Dump { .. }
        | Request::Salvage { .. }
        | Request::Picture { .. }
        | Request::Build { .. }
        | Request::Rebuild { .. } => unreachable!(),
        _ => done_with_wad(rt, request, writer, why),
    }
}

// Whether a request is over a file that may be a project, a WAD or a script, and only reads it.
fn is_over_source(request: &Request) -> bool
    ensures { result ≡ is_over_source request.now }
{
    match request {
        Request::Check { .. }
        | Request::Lint { .. }
        | Request::Dump { .. }
        | Request::Picture { .. }
        | Request::Build { .. } => true,
        _ => false,
    }
}

// Does what is asked for by a request over a file that may be a project, a WAD or a script.
fn done_with_source<E, R, W, F>(
    rt: &E,
    request: &Request,
    input: &mut R,
    writer: &mut W,
    faults: &mut F,
    why: &mut Causes,
) -> Result<u8, Refusal>
where
    E: AllocGlobal + Files,
    E::File: FileExt + Hold,
    R: Read,
    W: Write,
    F: Write,
    requires { is_over_source request.now ≡ true }
    ensures done { IsDoneWith request.now result (R.remaining input.old) (R.remaining input.new)
        (W.contents writer.old) (W.contents writer.new)
        (F.contents faults.old) (F.contents faults.new) }
    ensures small { IfOk result (λ s. s ≤ 3) }
{
    match request {
        Request::Check { file, map } => {
            let map = map.as_deref();
            check_source(rt, file.as_str(), map, input, writer, faults, why)
        }
        Request::Lint {
            file,
            map,
            iwad,
            only,
            except,
        } => {
            let (path, map, iwad) = (file.as_str(), map.as_deref(), iwad.as_deref());
            let choice = Choice { only, except };
            lint_source(rt, path, map, iwad, choice, input, writer, faults, why)
        }
        Request::Dump { file, names, exact } => {
            dump_source(rt, file.as_str(), names, *exact, input, writer, faults, why)
        }
        Request::Picture {
            file,
            map,
            out,
            numbers,
            nodes,
            lint,
            heights,
            grid,
            crop,
        } => {
            let layers = layers_of(*numbers, *heights, *grid, *crop, *nodes, *lint);
            let (map, out) = (map.as_deref(), out.as_deref());
            let wanted = Wanted { map, layers, out };
            picture_source(rt, file.as_str(), wanted, input, writer, faults, why)
        }
        Request::Build { file, out } => {
            build_source(rt, file.as_str(), out.as_str(), input, writer, faults, why)
        }
        _ => unreachable!(),
    }
}

// Does what a request asks for, and returns the status if it isn't refused.
fn done<E, R, W, F>(
    rt: &E,
    request: &Request,
    reader: &mut R,
    writer: &mut W,
    faults: &mut F,
    why: &mut Causes,
) -> Result<u8, Refusal>
where
    E: AllocGlobal + Files,
    E::File: FileExt + Hold,
    R: Read,
    W: Write,
    F: Write,
    ensures performed { IsPerformed ⟦<FileDisk<&'static NotedFile<E::File>> as Disk>⟧
        request.now result (R.remaining reader.old) (R.remaining reader.new)
        (W.contents writer.old) (W.contents writer.new) }
    ensures small { IfOk result (λ s. s ≤ 3) }
    ensures quiet { IsQuiet request.now (status_in result)
        → Keeps (F.contents faults.old) (F.contents faults.new) }
    ensures told { TellsNotes request.now result
        (W.contents writer.old) (W.contents writer.new)
        (F.contents faults.old) (F.contents faults.new) }
{
    match request {
        Request::Draw {
            file,
            script,
            verbose,
        } => {
            let (path, script) = (file.as_str(), script_path(script));
            draw_file(rt, path, script, *verbose, reader, writer, faults, why)
        }
        Request::TryScript {
            script,
            over,
            verbose,
        } => {
            let path = script.as_str();
            match over {
                Some(over) => {
                    let file = over.as_str();
                    try_onto(rt, file, path, *verbose, reader, writer, faults, why)
                }
                None => try_file(rt, path, *verbose, reader, writer, faults, &mut why.file),
            }
        }
        Request::Salvage { file } => salvage_file(rt, file.as_str(), writer, faults, why),
        Request::Rebuild { wad, out, maps } => {
            rebuild(rt, wad.as_str(), out.as_str(), maps, writer, faults, why)
        }
        _ if is_over_source(request) => {
            done_with_source(rt, request, reader, writer, faults, why)
        }
        _ => done_quietly(rt, request, reader, writer, why),
    }
}

/// Does what a request asks for, with standard input, output and error passed in, and returns the status: 0 if it was
/// done; 3 if maps have findings, a level has a fault or was left, or a line of a script was refused; 1 if the request
/// was refused, with the reason in a line on `faults`, and one more if a file can't be opened, made, read, written or
/// synced, or has no map or level of the name. `dump` and `rebuild` also report on `faults` about the levels of a WAD.
/// The writer is flushed after each turn of reading.
pub fn perform<E, R, W, F>(
    rt: &E,
    request: &Request,
    reader: &mut R,
    writer: &mut W,
    faults: &mut F,
) -> u8
where
    E: AllocGlobal + Files,
    E::File: FileExt + Hold,
    R: Read,
    W: Write,
    F: Write,
    ensures status { result ≤ 3 }
    ensures performed { (how : Result ℕ Refusal) × (result ≡ status_in how)
        × IsPerformed ⟦<FileDisk<&'static NotedFile<E::File>> as Disk>⟧
        request.now how (R.remaining reader.old) (R.remaining reader.new)
        (W.contents writer.old) (W.contents writer.new) }
    ensures quiet { IsQuiet request.now result
        → Keeps (F.contents faults.old) (F.contents faults.new) }
    ensures told { HasToldNotes request.now result
        (W.contents writer.old) (W.contents writer.new)
        (F.contents faults.old) (F.contents faults.new) }
{
    let mut why = Causes {
        file: None,
        out: None,
        beside: None,
    };
    let how = done(rt, request, reader, writer, faults, &mut why);
    if let Err(refusal) = &how {
        let _ = report(refusal, faults);
        report_causes(rt.alloc(), request, &why, faults);
        if lacks_name(refusal) {
            tell_names(rt, request, faults);
        }
    }
    status_in(&how)
}
