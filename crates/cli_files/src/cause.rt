//! Why a file can't be opened or made, or what it holds, and the line that says so.
ghost use Rattle.std.specs.Prelude.{◌≡◌, ℕ, List, OnOk};
ghost use Rattle.std.specs.Io.KnownBytes.{Appends};
ghost use Rattle.cli_files.specs.Causes.{Says, cause_line, content_text, no_script_text};
ghost use Rattle.cli_files.specs.declared.cause.Cause.TheVariants.{OutOfMemory, System};

use crate::content::Content;
use lump_text::write_shown;
use std::alloc::{AllocError, Global};
use std::io::{self, Write};

/// Why a file can't be opened, made or read, or what it holds in place of what was asked for.
#[derive(Clone, Copy)]
pub enum Cause {
    /// The system refused it.
    System(io::Error),
    /// Another program has it open.
    Held,
    /// It is a folder, a pipe or a device.
    NotRegular,
    /// It holds this, and no such thing as was asked for.
    Holds(Content),
    /// It holds this, and no script.
    NoScript(Content),
    /// It is `-`, which names no file here.
    Dash,
    /// It is neither empty nor a PWAD.
    NoPwad,
    /// It is neither empty nor a picture of a map.
    NoPicture,
    /// It was changed or replaced while the new file was made.
    Changed,
    /// There is no memory for its name.
    OutOfMemory,
}

impl From<io::Error> for Cause {
    ghost from_gives = { λ error cause. cause ≡ System error };

    fn from(error: io::Error) -> Cause {
        Cause::System(error)
    }
}

impl From<AllocError> for Cause {
    ghost from_gives = { λ _ cause. cause ≡ OutOfMemory };

    fn from(_error: AllocError) -> Cause {
        Cause::OutOfMemory
    }
}

// The system's message, without the error number that std appends.
fn without_number(told: &str) -> &str {
    match told.split_once(" (os error ") {
        Some((reason, _)) => reason,
        None => told,
    }
}

// What is said of a file that holds something else than was asked for.
fn content_text(content: Content) -> &'static str
    ensures { result.now ≡ content_text content }
{
    match content {
        Content::Nothing => "is empty",
        Content::Project => "is a project",
        Content::Wad => "is a WAD",
        Content::Picture => "is a picture",
        Content::Text => "is a script, or another text",
        Content::Other => "is no project, no WAD and no text",
    }
}

// What is said of a file that holds something else than a script.
fn no_script_text(content: Content) -> &'static str
    ensures { result.now ≡ no_script_text content }
{
    match content {
        Content::Project => "is a project, no script",
        Content::Wad => "is a WAD, no script",
        _ => "is no text",
    }
}

/// Writes why a path, or something else with a name, was refused, as `  NAME: REASON`, the name as `write_shown` writes
/// it.
///
/// # Errors
///
/// Those of the writer.
pub fn write_reason<W: Write>(name: &str, reason: &str, writer: &mut W) -> io::Result<()>
    ensures { OnOk result (Appends (W.contents writer.old) (W.contents writer.new)
        (cause_line name.now reason.now)) }
{
    writer.write_all(b"  ")?;
    write_shown(name.as_bytes(), writer)?;
    writeln!(writer, ": {reason}")
}

/// Writes why the file at the path can't be opened or made, as `  PATH: REASON`.
///
/// # Errors
///
/// Those of the writer, or lack of memory.
pub fn write_cause<W: Write>(
    alloc: Global,
    path: &str,
    cause: &Cause,
    writer: &mut W,
) -> io::Result<()>
    ensures { OnOk result ((reason : List ℕ) × Says cause.now reason
        × Appends (W.contents writer.old) (W.contents writer.new) (cause_line path.now reason)) }
{
    match cause {
        Cause::System(error) => {
            let told = format!(in alloc; "{error}")?;
            write_reason(path, without_number(told.as_str()), writer)
        }
        Cause::Held => write_reason(path, "is open in another program", writer),
        Cause::NotRegular => write_reason(path, "is no regular file", writer),
        Cause::Holds(content) => write_reason(path, content_text(*content), writer),
        Cause::NoScript(content) => write_reason(path, no_script_text(*content), writer),
        Cause::Dash => write_reason(path, "names no file here; ./- does", writer),
        Cause::NoPwad => write_reason(path, "is no PWAD; it is left alone", writer),
        Cause::NoPicture => write_reason(path, "is no picture of a map; it is left alone", writer),
        Cause::Changed => write_reason(path, "has changed meanwhile; it is left alone", writer),
        Cause::OutOfMemory => write_reason(path, "finds no memory", writer),
    }
}
