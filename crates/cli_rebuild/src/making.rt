//! The file of a WAD whose levels are built anew.
ghost use Rattle.std.specs.Prelude.{◌≡◌, ◌<◌, IfOk, MatchResult, map, string_bytes, true};
ghost use Rattle.cli_files.specs.NewFile.{file_of};
ghost use Rattle.wad_file.specs.Directory.{is_kind};
ghost use Rattle.wad_file.specs.Placed.{IsListWritten, placed_size};
ghost use Rattle.wad_rebuild.specs.Held.{IsGiven, directory_of};
ghost use Rattle.wad_rebuild.specs.Whole.{AreReady};
ghost use Rattle.cli_rebuild.specs.Given.{IsMadeOver, IsPutInto, MakesNoneOver, PutsNone};
ghost use Rattle.cli_rebuild.specs.Rebuilding.{refusal_for};

use cli_files::{Cause, Form, Hold, NewFile, Noted, open_new_of};
use cli_refusals::Refusal;
use run_edit::{EditorError, InspectError};
use std::fs::{Files, OpenFile};
use std::io::Write;
use wad_file::{CopyFailed, LumpList, Source};
use wad_levels::ReadError;
use wad_rebuild::{AcceptedWad, Held, RebuildError, RebuiltLevel, list_lumps, rebuild_levels};

// The refusal of the request if the whole WAD is refused.
fn refusal_of(error: RebuildError) -> Refusal
    ensures { result ≡ refusal_for error }
{
    let error = match error {
        RebuildError::TooLong => return Refusal::Lines(EditorError::InputTooLong),
        RebuildError::NotAWad => ReadError::NotAWad,
        RebuildError::DirectoryOutside => ReadError::DirectoryOutside,
        RebuildError::NoSuchLevel => ReadError::NoSuchLevel,
        RebuildError::LumpOutside => ReadError::LumpOutside,
        RebuildError::OutOfMemory => ReadError::OutOfMemory,
    };
    Refusal::Level(InspectError::Level(error))
}

/// What is built anew: a WAD in memory, which of its lumps stand there, how many bytes its file has, and the refusal if
/// that can't be read.
#[derive(Clone, Copy)]
pub struct Given<'a> {
    pub bytes: &'a [u8],
    pub held: Held<'a>,
    pub len: u64,
    pub unread: EditorError,
}

// Writes the WAD of these lumps into a new file, which replaces the one at its path once it is whole, and returns that
// file; or notes why it doesn't.
fn put_wad<E: Files, S: Source, F: Write + OpenFile + Drop>(
    rt: &E,
    kind: &[u8],
    lumps: &LumpList<'_>,
    source: &mut S,
    mut new: NewFile<F>,
    why: &mut Option<Cause>,
) -> Result<F, CopyFailed>
    requires kind { is_kind kind.now ≡ true }
    requires fits { placed_size lumps.now < 4294967296 }
    ensures { IfOk result (λ file. IsListWritten (S.known_bytes source.old) kind.now lumps.now
        (F.contents (file_of new)) (F.contents file)) }
{
    match lumps.write_to(kind, source, &mut new) {
        Ok(()) => match new.put(rt) {
            Ok(file) => Ok(file),
            Err(cause) => {
                *why = Some(cause);
                Err(CopyFailed::Writer)
            }
        },
        Err(failed) => {
            *why = new.fault();
            new.take_away(rt);
            Err(failed)
        }
    }
}

/// The paths of a WAD and of the file that is made of it, and what stood at the latter before the WAD was read.
#[derive(Clone, Copy)]
pub struct Paths<'a> {
    pub wad: &'a str,
    pub out: &'a str,
    pub noted: Noted,
}

// A file that holds a WAD, and how many bytes that has.
#[derive(Drop)]
struct Put<F> {
    size: u64,
    file: F,
}

// Writes an accepted WAD with its levels built anew into its new file, lump by lump; or notes why that can't be made.
fn put_rebuilt<E: AllocGlobal + Files, S: Source>(
    rt: &E,
    paths: Paths<'_>,
    given: &Given<'_>,
    from: &AcceptedWad<'_>,
    source: &mut S,
    why: &mut Option<Cause>,
) -> Result<Put<E::File>, Refusal>
where
    E::File: Hold,
    requires given { IsGiven from.now.wad (directory_of given.now.held) given.now.len }
    requires ready { AreReady from.now.wad from.now.levels.items }
    ensures { MatchResult result
        (λ put. IsPutInto E.File.contents from.now.wad (directory_of given.now.held) given.now.len
        from.now.levels.items put.size put.file)
        (PutsNone from.now.wad (directory_of given.now.held) given.now.len from.now.levels.items
        given.now.unread) }
{
    let lumps = match list_lumps(rt.alloc(), &from.wad, &given.held, given.len, &from.levels) {
        Ok(lumps) => lumps,
        Err(error) => return Err(refusal_of(error)),
    };
    let size = lumps.size();
    let form = Form::Pwad;
    let new = match open_new_of(rt.alloc(), rt, paths.wad, paths.out, form, paths.noted) {
        Ok(new) => new,
        Err(cause) => {
            *why = Some(cause);
            return Err(Refusal::Lines(EditorError::WriterFailed));
        }
    };
    match put_wad(rt, from.wad.kind(), &lumps, source, new, why) {
        Ok(file) => Ok(Put { size, file }),
        Err(CopyFailed::Source) => Err(Refusal::Lines(given.unread)),
        Err(CopyFailed::Writer) => Err(Refusal::Lines(EditorError::WriterFailed)),
    }
}

/// What became of the levels of a WAD, and the file that holds it with its levels built anew, of so many bytes.
#[derive(Drop)]
pub struct Made<F> {
    pub levels: Vec<RebuiltLevel>,
    pub size: u64,
    pub file: F,
}

/// Builds the levels of the WAD anew that is given, into its new file; or notes why that can't be made.
pub fn make<E: AllocGlobal + Files, S: Source>(
    rt: &E,
    paths: Paths<'_>,
    given: &Given<'_>,
    source: &mut S,
    names: &[String],
    why: &mut Option<Cause>,
) -> Result<Made<E::File>, Refusal>
where
    E::File: Hold,
    requires { IsGiven given.now.bytes.now (directory_of given.now.held) given.now.len }
    ensures { MatchResult result
        (λ made. IsMadeOver E.File.contents given.now.bytes.now (directory_of given.now.held)
        given.now.len (map string_bytes names.now) made.levels.items made.size made.file)
        (MakesNoneOver given.now.bytes.now (directory_of given.now.held) given.now.len
        (map string_bytes names.now) given.now.unread) }
{
    let from = match rebuild_levels(rt.alloc(), given.bytes, names) {
        Ok(from) => from,
        Err(error) => return Err(refusal_of(error)),
    };
    let put = match put_rebuilt(rt, paths, given, &from, source, why) {
        Ok(put) => put,
        Err(refusal) => return Err(refusal),
    };
    let Put { size, file } = put;
    let AcceptedWad { levels, .. } = from;
    Ok(Made { levels, size, file })
}
