//! Reads scripts, with the files that they include, and tries one over the empty project.
ghost use Rattle.std.specs.Prelude.{◌≡◌, ◌≤◌, ◌⊎◌, ℕ, List, false, length, None, Ok, option_map, string_bytes, IfErr, IfOk};
ghost use Rattle.std.specs.Io.KnownBytes.{Keeps};
ghost use Rattle.cli_print.specs.Reading.{ReadsAll, no_script};
ghost use Rattle.map_script.specs.Scripts.{script_lines};
ghost use Rattle.cli_scripts.specs.DrawnInto.{IsInput, IsReadAt, IsScriptTried, IsUnreadAt, is_file, script_path};
ghost use Rattle.cli_sources.specs.Unread.{IsRefusedFor, IsUnread, IsUnreadOf};
ghost use Rattle.cli_scripts.specs.Including.{IsScriptJoined, IsUnjoined};

use crate::draw_request::{Script, try_script};
use crate::including::{WholeScript, joined};
use cli_files::Cause;
use cli_print::{TURNS, read_script};
use cli_refusals::Refusal;
use run_edit::EditorError;
use std::alloc::Global;
use std::fs::{self, Files};
use std::io::{Read, Write};

/// Whether a path is that of a file, and not `-`, which is standard input.
pub fn is_file(path: &str) -> bool
    ensures { result ≡ is_file path.now }
{
    path != "-"
}

/// The path of the script that is asked for: `-` without one.
pub fn script_path(script: &Option<String>) -> &str
    ensures { result.now ≡ script_path (option_map string_bytes script.now) }
{
    match script {
        Some(path) => path.as_str(),
        None => "-",
    }
}

/// All that the reader gives, or notes why it can't be read, or what it is in place of a script.
pub fn read_all<R: Read>(
    alloc: Global,
    reader: &mut R,
    why: &mut Option<Cause>,
) -> Result<Vec<u8>, Refusal>
    ensures whole { IfOk result (λ bytes. IsInput false bytes.items (R.remaining reader.old)
        (R.remaining reader.new)) }
    ensures refused { IfErr result
        (IsUnreadOf (R.remaining reader.old) (R.remaining reader.new)) }
    ensures script { IfOk result (λ bytes. no_script bytes.items ≡ None) }
{
    match read_script(alloc, reader, TURNS, why) {
        Ok(bytes) => Ok(bytes),
        Err(error) => Err(Refusal::Lines(error)),
    }
}

/// The script in the file at the path; or notes why it can't be opened or read, or what it is in place of a script.
pub fn read_file<E: AllocGlobal + Files>(
    rt: &E,
    path: &str,
    why: &mut Option<Cause>,
) -> Result<Vec<u8>, Refusal>
    ensures { IfErr result IsUnread }
{
    match fs::open(rt, path) {
        Ok(mut file) => read_all(rt.alloc(), &mut file, why),
        Err(error) => {
            *why = Some(Cause::System(error));
            Err(Refusal::Lines(EditorError::ReaderFailed))
        }
    }
}

/// The lines of the script at a path, which is all that the reader gives, with those of the files that it includes. Or
/// how a request ends: notes why the reader can't be read, or what it gives in place of a script; a line that can't
/// include a file is told on `faults`.
pub fn read_joined<E: AllocGlobal + Files, R: Read, F: Write>(
    rt: &E,
    path: &str,
    reader: &mut R,
    faults: &mut F,
    why: &mut Option<Cause>,
) -> Result<WholeScript, Result<u8, Refusal>>
    ensures whole { IfOk result (λ s. (text : List ℕ)
        × ReadsAll (R.remaining reader.old) (R.remaining reader.new) text
        × IsScriptJoined path.now (script_lines text) s.lines s.files) }
    ensures quiet { IfOk result (λ _. Keeps (F.contents faults.old) (F.contents faults.new)) }
    ensures refused { IfErr result (λ how.
        IsRefusedFor (IsUnreadOf (R.remaining reader.old) (R.remaining reader.new)) how
        (F.contents faults.old) (F.contents faults.new)
        ⊎ ((text : List ℕ) × ReadsAll (R.remaining reader.old) (R.remaining reader.new) text
        × IsUnjoined path.now (script_lines text) how
        (F.contents faults.old) (F.contents faults.new))) }
    ensures long { IfOk result (λ s. length s.files ≡ length s.lines) }
    ensures small { IfErr result (λ how. IfOk how (λ s. s ≤ 3)) }
    ensures stopped { IfErr result (λ how. ¬ (how ≡ Ok 0)) }
{
    let text = match read_all(rt.alloc(), reader, why) {
        Ok(text) => text,
        Err(refusal) => return Err(Err(refusal)),
    };
    joined(rt, path, &text, faults)
}

/// The same of the script in the file at a path, or of standard input, which the reader is, if the path is `-`.
pub fn read_at<E: AllocGlobal + Files, R: Read, F: Write>(
    rt: &E,
    path: &str,
    reader: &mut R,
    faults: &mut F,
    why: &mut Option<Cause>,
) -> Result<WholeScript, Result<u8, Refusal>>
    ensures whole { IfOk result (λ s. IsReadAt path.now s.lines s.files
        (R.remaining reader.old) (R.remaining reader.new)) }
    ensures quiet { IfOk result (λ _. Keeps (F.contents faults.old) (F.contents faults.new)) }
    ensures refused { IfErr result (λ how. IsUnreadAt path.now how
        (R.remaining reader.old) (R.remaining reader.new)
        (F.contents faults.old) (F.contents faults.new)) }
    ensures long { IfOk result (λ s. length s.files ≡ length s.lines) }
    ensures small { IfErr result (λ how. IfOk how (λ s. s ≤ 3)) }
    ensures stopped { IfErr result (λ how. ¬ (how ≡ Ok 0)) }
{
    if is_file(path) {
        match fs::open(rt, path) {
            Ok(mut file) => read_joined(rt, path, &mut file, faults, why),
            Err(error) => {
                *why = Some(Cause::System(error));
                Err(Err(Refusal::Lines(EditorError::ReaderFailed)))
            }
        }
    } else {
        read_joined(rt, path, reader, faults, why)
    }
}

/// Tries the script at the path over the empty project in memory, or notes why it can't be opened or read. The path `-`
/// is standard input.
pub fn try_file<E: AllocGlobal + Files, R: Read, W: Write, F: Write>(
    rt: &E,
    path: &str,
    is_verbose: bool,
    reader: &mut R,
    writer: &mut W,
    faults: &mut F,
    why: &mut Option<Cause>,
) -> Result<u8, Refusal>
    ensures small { IfOk result (λ s. s ≤ 3) }
    ensures tried { IsScriptTried path.now is_verbose result
        (R.remaining reader.old) (R.remaining reader.new)
        (W.contents writer.old) (W.contents writer.new) }
    ensures quiet { result ≡ Ok 0 → Keeps (F.contents faults.old) (F.contents faults.new) }
{
    let whole = match read_at(rt, path, reader, faults, why) {
        Ok(whole) => whole,
        Err(how) => return how,
    };
    let script = Script {
        lines: &whole.lines,
        files: &whole.files,
        is_verbose,
    };
    try_script(rt.alloc(), script, writer, faults)
}
