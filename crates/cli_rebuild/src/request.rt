//! The request `rebuild`: builds the levels of a WAD anew, and writes the new WAD into a file.
ghost use Rattle.std.specs.Prelude.{◌≡◌, ◌≤◌, IfOk, Some, map, string_bytes};
ghost use Rattle.wad_rebuild.specs.Held.{IsGiven, StandsInFor, directory_of};
ghost use Rattle.cli_sources.specs.Unread.{OverWadTold};
ghost use Rattle.cli_rebuild.specs.Given.{IsRebuiltOver};
ghost use Rattle.cli_rebuild.specs.Rebuilding.{IsRebuiltAt, IsRebuiltOf};

use crate::file_source::FileSource;
use crate::held::{HeldWad, Unheld, hold};
use crate::making::{Given, Paths, make};
use crate::telling::tell_rebuilt;
use cli_files::{Cause, Hold, Noted};
use cli_print::{TURNS, read_wad};
use cli_refusals::{Causes, Refusal};
use run_edit::EditorError;
use std::fs::{self, Files, OpenFile};
use std::io::{Read, Seek, SeekFrom, Write};
use wad_file::Source;
use wad_rebuild::Held;

// Builds the levels of the WAD anew that is given, into its new file, and reports on each.
fn rebuild_into<E, S, W, F>(
    rt: &E,
    paths: Paths<'_>,
    given: &Given<'_>,
    source: &mut S,
    names: &[String],
    writer: &mut W,
    errors: &mut F,
    why: &mut Option<Cause>,
) -> Result<u8, Refusal>
where
    E: AllocGlobal + Files,
    E::File: Hold,
    S: Source,
    W: Write,
    F: Write,
    requires { IsGiven given.now.bytes.now (directory_of given.now.held) given.now.len }
    ensures small { IfOk result (λ s. s ≤ 3) }
    ensures rebuilt { IsRebuiltOver given.now.bytes.now (directory_of given.now.held) given.now.len
        (map string_bytes names.now) given.now.unread result
        (W.contents writer.old) (W.contents writer.new)
        (F.contents errors.old) (F.contents errors.new) }
{
    match make(rt, paths, given, source, names, why) {
        Ok(made) => tell_rebuilt(&made.levels, made.size, writer, errors),
        Err(refusal) => Err(refusal),
    }
}

// Builds the levels of a WAD anew that stands in memory whole.
fn rebuild_whole<E, W, F>(
    rt: &E,
    paths: Paths<'_>,
    wad: &[u8],
    names: &[String],
    writer: &mut W,
    errors: &mut F,
    why: &mut Option<Cause>,
) -> Result<u8, Refusal>
where
    E: AllocGlobal + Files,
    E::File: Hold,
    W: Write,
    F: Write,
    ensures small { IfOk result (λ s. s ≤ 3) }
    ensures rebuilt { IsRebuiltOf wad.now (map string_bytes names.now) result
        (W.contents writer.old) (W.contents writer.new)
        (F.contents errors.old) (F.contents errors.new) }
{
    // All lumps are at hand, so nothing is read from the source.
    let mut source: &[u8] = wad;
    let given = Given {
        bytes: wad,
        held: Held::Whole,
        len: wad.len() as u64,
        unread: EditorError::WriterFailed,
    };
    rebuild_into(rt, paths, &given, &mut source, names, writer, errors, why)
}

// Reads a WAD to its end, and does the same with it; or notes why it can't be read.
fn rebuild_read<E, R, W, F>(
    rt: &E,
    reader: &mut R,
    paths: Paths<'_>,
    names: &[String],
    writer: &mut W,
    errors: &mut F,
    why: &mut Causes,
) -> Result<u8, Refusal>
where
    E: AllocGlobal + Files,
    E::File: Hold,
    R: Read,
    W: Write,
    F: Write,
    ensures small { IfOk result (λ s. s ≤ 3) }
    ensures rebuilt { OverWadTold (R.remaining reader.old) (R.remaining reader.new) result
        (W.contents writer.old) (W.contents writer.new)
        (F.contents errors.old) (F.contents errors.new)
        (λ wad. IsRebuiltOf wad (map string_bytes names.now) result
        (W.contents writer.old) (W.contents writer.new)
        (F.contents errors.old) (F.contents errors.new)) }
{
    let wad = read_wad(rt.alloc(), reader, TURNS, &mut why.file)?;
    rebuild_whole(rt, paths, &wad, names, writer, errors, &mut why.out)
}

// Builds the levels of a WAD anew that stands in a file of so many bytes, of which the lumps of its levels are held.
fn rebuild_held<E, S, W, F>(
    rt: &E,
    source: &mut S,
    wad: &HeldWad,
    len: u64,
    paths: Paths<'_>,
    names: &[String],
    writer: &mut W,
    errors: &mut F,
    why: &mut Option<Cause>,
) -> Result<u8, Refusal>
where
    E: AllocGlobal + Files,
    E::File: Hold,
    S: Source,
    W: Write,
    F: Write,
    requires { StandsInFor wad.now.bytes.items (Some wad.now.directory.items) len }
    ensures small { IfOk result (λ s. s ≤ 3) }
    ensures rebuilt { IsRebuiltAt (map string_bytes names.now) result
        (W.contents writer.old) (W.contents writer.new)
        (F.contents errors.old) (F.contents errors.new) }
{
    let given = Given {
        bytes: &wad.bytes,
        held: Held::Drawn(&wad.directory),
        len,
        unread: EditorError::ReaderFailed,
    };
    rebuild_into(rt, paths, &given, source, names, writer, errors, why)
}

// Reads the file from its start to its end, and builds the levels of the WAD anew.
fn rebuild_again<E, R, W, F>(
    rt: &E,
    file: &mut R,
    paths: Paths<'_>,
    names: &[String],
    writer: &mut W,
    errors: &mut F,
    why: &mut Causes,
) -> Result<u8, Refusal>
where
    E: AllocGlobal + Files,
    E::File: Hold,
    R: Read + Seek,
    W: Write,
    F: Write,
    ensures small { IfOk result (λ s. s ≤ 3) }
    ensures rebuilt { IsRebuiltAt (map string_bytes names.now) result
        (W.contents writer.old) (W.contents writer.new)
        (F.contents errors.old) (F.contents errors.new) }
{
    match file.seek(SeekFrom::Start(0)) {
        Ok(_) => rebuild_read(rt, file, paths, names, writer, errors, why),
        Err(error) => {
            why.file = Some(Cause::System(error));
            Err(Refusal::Lines(EditorError::ReaderFailed))
        }
    }
}

// Builds the levels of the WAD in a file of so many bytes anew. What its levels are built of is read, and then each of
// its other lumps when it is written; or else all of it.
fn rebuild_sized<E, W, F>(
    rt: &E,
    file: E::File,
    len: u64,
    paths: Paths<'_>,
    names: &[String],
    writer: &mut W,
    errors: &mut F,
    why: &mut Causes,
) -> Result<u8, Refusal>
where
    E: AllocGlobal + Files,
    E::File: Hold,
    W: Write,
    F: Write,
    ensures small { IfOk result (λ s. s ≤ 3) }
    ensures rebuilt { IsRebuiltAt (map string_bytes names.now) result
        (W.contents writer.old) (W.contents writer.new)
        (F.contents errors.old) (F.contents errors.new) }
{
    let mut source = FileSource { file, fault: None };
    let held = match hold(rt.alloc(), &mut source, len) {
        Ok(held) => held,
        Err(Unheld::NotInParts) => {
            let file = &mut source.file;
            return rebuild_again(rt, file, paths, names, writer, errors, why);
        }
        Err(Unheld::Unread) => {
            why.file = source.fault.map(Cause::System);
            return Err(Refusal::Lines(EditorError::ReaderFailed));
        }
        Err(Unheld::OutOfMemory) => return Err(Refusal::Lines(EditorError::OutOfMemory)),
    };
    let out = &mut why.out;
    let done = rebuild_held(
        rt,
        &mut source,
        &held,
        len,
        paths,
        names,
        writer,
        errors,
        out,
    );
    why.file = source.fault.map(Cause::System);
    done
}

// How many bytes a regular file has.
fn length_of<F: OpenFile>(file: &F) -> Option<u64> {
    match file.metadata() {
        Ok(facts) if facts.is_file() => Some(facts.len()),
        _ => None,
    }
}

// Builds the levels of the WAD in a file anew.
fn rebuild_file<E, W, F>(
    rt: &E,
    file: E::File,
    paths: Paths<'_>,
    names: &[String],
    writer: &mut W,
    errors: &mut F,
    why: &mut Causes,
) -> Result<u8, Refusal>
where
    E: AllocGlobal + Files,
    E::File: Hold,
    W: Write,
    F: Write,
    ensures small { IfOk result (λ s. s ≤ 3) }
    ensures rebuilt { IsRebuiltAt (map string_bytes names.now) result
        (W.contents writer.old) (W.contents writer.new)
        (F.contents errors.old) (F.contents errors.new) }
{
    let mut file = file;
    match length_of(&file) {
        Some(len) => rebuild_sized(rt, file, len, paths, names, writer, errors, why),
        None => rebuild_read(rt, &mut file, paths, names, writer, errors, why),
    }
}

/// Builds the levels of the WAD at the path anew, all or those with the names, and writes the new WAD into the file at
/// `out`. Writes what became of each level, and on `errors` the faults that stay in those that were built anew; or
/// notes why a file can't be opened, read or made. `out` may be the WAD's own path, since its file is replaced only
/// once the new one is whole; otherwise `out` may be new, empty or a PWAD. That file is whole or as it was; if it is
/// changed or replaced meanwhile, it stays so.
pub fn rebuild<E, W, F>(
    rt: &E,
    path: &str,
    out: &str,
    names: &[String],
    writer: &mut W,
    errors: &mut F,
    why: &mut Causes,
) -> Result<u8, Refusal>
where
    E: AllocGlobal + Files,
    E::File: Hold,
    W: Write,
    F: Write,
    ensures small { IfOk result (λ s. s ≤ 3) }
    ensures rebuilt { IsRebuiltAt (map string_bytes names.now) result
        (W.contents writer.old) (W.contents writer.new)
        (F.contents errors.old) (F.contents errors.new) }
{
    let noted = Noted::at(rt, out);
    let paths = Paths {
        wad: path,
        out,
        noted,
    };
    match fs::open(rt, path) {
        Ok(file) => rebuild_file(rt, file, paths, names, writer, errors, why),
        Err(error) => {
            why.file = Some(Cause::System(error));
            Err(Refusal::Lines(EditorError::ReaderFailed))
        }
    }
}
