//! Reading all that a reader gives: a WAD or a script.
ghost use Rattle.std.specs.Prelude.{◌≡◌, ◌≤◌, None, IfErr, IfOk, IsTrue, length};
ghost use Rattle.std.specs.Io.KnownBytes.{Consumes, IsAtEnd};
ghost use Rattle.cli_refusals.specs.Refusals.{EndsReading};
ghost use Rattle.cli_print.specs.Reading.{IsTooLongAfter, no_script, no_wad};

use cli_files::{Cause, Content, content_within};
use run_edit::{EditorError, read_retrying};
use std::alloc::Global;
use std::io::Read;

// The most bytes that are read of what is neither a WAD nor a text.
const MOST_OTHER: usize = 16_777_216;

// What is read for.
#[derive(Clone, Copy)]
enum ReadFor {
    Wad,
    Script,
}

// What bytes hold that are no WAD.
fn no_wad(bytes: &[u8]) -> Option<Cause>
    ensures { result ≡ no_wad bytes.now }
{
    match content_within(bytes) {
        Content::Wad => None,
        content => Some(Cause::Holds(content)),
    }
}

// What bytes hold that are no script.
fn no_script(bytes: &[u8]) -> Option<Cause>
    ensures { result ≡ no_script bytes.now }
{
    match content_within(bytes) {
        Content::Project => Some(Cause::NoScript(Content::Project)),
        Content::Wad => Some(Cause::NoScript(Content::Wad)),
        Content::Other => Some(Cause::NoScript(Content::Other)),
        _ => None,
    }
}

// What bytes hold in place of what they are read for.
fn other_than(read_for: ReadFor, bytes: &[u8]) -> Option<Cause> {
    match read_for {
        ReadFor::Wad => no_wad(bytes),
        ReadFor::Script => no_script(bytes),
    }
}

// Whether so many bytes were read that are something else than what they are read for, and notes what.
fn is_surplus(read_for: ReadFor, turns: u32, bytes: &[u8], why: &mut Option<Cause>) -> bool
    ensures { IsTrue result → turns ≤ length bytes.now }
{
    if bytes.len() < MOST_OTHER || bytes.len() < turns as usize {
        return false;
    }
    match other_than(read_for, bytes) {
        Some(cause) => {
            *why = Some(cause);
            true
        }
        None => false,
    }
}

// All that the reader gives, in at most `turns` reads of at most 4,096 bytes; or notes why the system refused a read,
// or what the first 16 MB hold in place of what they are read for.
fn read_whole<R: Read>(
    alloc: Global,
    reader: &mut R,
    read_for: ReadFor,
    turns: u32,
    why: &mut Option<Cause>,
) -> Result<Vec<u8>, EditorError>
    ensures whole { IfOk result (λ bytes.
        Consumes (R.remaining reader.old) (R.remaining reader.new) bytes.items
        × IsAtEnd (R.remaining reader.new)) }
    ensures refused { IfErr result EndsReading }
    ensures long { IfErr result
        (IsTooLongAfter turns (R.remaining reader.old) (R.remaining reader.new)) }
{
    let mut bytes = Vec::new(alloc);
    let mut buffer = [0; 4096];
    for _ in 0..turns {
        if is_surplus(read_for, turns, &bytes, why) {
            return Err(EditorError::InputTooLong);
        }
        let count = match read_retrying(reader, &mut buffer) {
            Ok(count) => count,
            Err(error) => {
                *why = Some(Cause::System(error));
                return Err(EditorError::ReaderFailed);
            }
        };
        if count == 0 {
            return Ok(bytes);
        }
        match bytes.extend_from_slice(&buffer[..count]) {
            Ok(()) => {}
            Err(_) => return Err(EditorError::OutOfMemory),
        }
    }
    Err(EditorError::InputTooLong)
}

/// All that the reader gives, in at most `turns` reads of at most 4,096 bytes; or notes why the system refused a read.
/// Notes what it holds if that is no WAD, for whoever refuses it; of such a thing at most 16 MB are read.
pub fn read_wad<R: Read>(
    alloc: Global,
    reader: &mut R,
    turns: u32,
    why: &mut Option<Cause>,
) -> Result<Vec<u8>, EditorError>
    ensures whole { IfOk result (λ bytes.
        Consumes (R.remaining reader.old) (R.remaining reader.new) bytes.items
        × IsAtEnd (R.remaining reader.new)) }
    ensures refused { IfErr result EndsReading }
    ensures long { IfErr result
        (IsTooLongAfter turns (R.remaining reader.old) (R.remaining reader.new)) }
    ensures noted { IfOk result (λ bytes. why.new ≡ no_wad bytes.items) }
{
    let wad = read_whole(alloc, reader, ReadFor::Wad, turns, why)?;
    *why = no_wad(&wad);
    Ok(wad)
}

/// Does the same with a script, which is refused if it begins as a project or a WAD, or has a byte 0 among its first
/// 512; that is noted too.
pub fn read_script<R: Read>(
    alloc: Global,
    reader: &mut R,
    turns: u32,
    why: &mut Option<Cause>,
) -> Result<Vec<u8>, EditorError>
    ensures whole { IfOk result (λ bytes.
        Consumes (R.remaining reader.old) (R.remaining reader.new) bytes.items
        × IsAtEnd (R.remaining reader.new)) }
    ensures refused { IfErr result EndsReading }
    ensures long { IfErr result
        (IsTooLongAfter turns (R.remaining reader.old) (R.remaining reader.new)) }
    ensures script { IfOk result (λ bytes. no_script bytes.items ≡ None) }
{
    let text = read_whole(alloc, reader, ReadFor::Script, turns, why)?;
    match no_script(&text) {
        None => Ok(text),
        cause => {
            *why = cause;
            Err(EditorError::ReaderFailed)
        }
    }
}
