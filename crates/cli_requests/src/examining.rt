//! Inspecting a level of a file.
ghost use Rattle.std.specs.Prelude.{◌≤◌, IfOk};
ghost use Rattle.cli_requests.specs.Requests.{IsExamined, IsExaminedOf};

use cli_files::Cause;
use cli_print::{LumpsRead, TURNS, WadReader, read_wad};
use cli_refusals::{Refusal, status_told};
use run_edit::{EditorError, inspect};
use std::alloc::Global;
use std::fs::{self, Files};
use std::io::{Read, Write};
use std::os::unix::fs::FileExt;

// Inspects the level with the name in all that the reader gives, flushes the writer, and returns the status, or notes
// why it can't be read.
fn examine_read<R: Read, W: Write>(
    alloc: Global,
    reader: &mut R,
    name: &[u8],
    turns: u32,
    writer: &mut W,
    why: &mut Option<Cause>,
) -> Result<u8, Refusal>
    ensures small { IfOk result (λ s. s ≤ 3) }
    ensures examined { IsExaminedOf name.now result
        (R.remaining reader.old) (R.remaining reader.new)
        (W.contents writer.old) (W.contents writer.new) }
{
    let wad = read_wad(alloc, reader, turns, why)?;
    let sound = inspect(alloc, &wad, name, writer)?;
    match writer.flush() {
        Ok(()) => Ok(status_told(sound)),
        Err(_) => Err(Refusal::Lines(EditorError::WriterFailed)),
    }
}

/// Inspects the level with the name in the WAD at the path, of which it reads the directory and that level alone, and
/// returns the status, or notes why it can't be opened or read.
pub fn examine<E: AllocGlobal + Files, W: Write>(
    rt: &E,
    path: &str,
    name: &str,
    writer: &mut W,
    why: &mut Option<Cause>,
) -> Result<u8, Refusal>
where
    E::File: FileExt,
    ensures small { IfOk result (λ s. s ≤ 3) }
    ensures examined { IsExamined name.now result
        (W.contents writer.old) (W.contents writer.new) }
{
    match fs::open(rt, path) {
        Ok(mut file) => {
            let mut reader = WadReader::new(rt.alloc(), &mut file, LumpsRead::Behind(name));
            examine_read(rt.alloc(), &mut reader, name.as_bytes(), TURNS, writer, why)
        }
        Err(error) => {
            *why = Some(Cause::System(error));
            Err(Refusal::Lines(EditorError::ReaderFailed))
        }
    }
}
