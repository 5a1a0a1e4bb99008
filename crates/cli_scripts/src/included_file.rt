//! A file of a script: its lines, or why it can't stand in the place of a line that includes it.
ghost use Rattle.std.specs.Prelude.{◌≡◌, ◌⊎◌, ℕ, List, string_bytes, IfErr, IfOk, IfSome};
ghost use Rattle.std.specs.Path.{path_with_file_name};
ghost use Rattle.lump_text.specs.Shown.{shown_text};
ghost use Rattle.map_script.specs.Scripts.{script_lines};

use crate::script_file::read_file;
use cli_files::{Cause, Content, content_within, write_cause, write_reason};
use cli_refusals::Refusal;
use lump_text::shown_name;
use map_script::{ScriptLines, script_lines};
use run_edit::EditorError;
use std::alloc::{AllocError, Global};
use std::fs::Files;
use std::path::Path;
use std::str;

/// A file of a script that was read: its path, as it is and as it is shown, and its lines.
#[derive(Drop)]
pub struct ScriptFile {
    pub path: String,
    pub shown: String,
    pub lines: ScriptLines,
}

/// Why no file can stand in the place of a line that includes one: the number of the refusal, and the reason.
#[derive(Drop)]
pub struct IncludeFault {
    pub code: u16,
    pub reason: String,
}

/// The refusal with this number and reason, or nothing if there is no memory.
pub fn refuses(alloc: Global, code: u16, reason: &str) -> Option<IncludeFault>
    ensures { IfSome result (λ f. f.code ≡ code) }
{
    match String::from_str(alloc, reason) {
        Ok(reason) => Some(IncludeFault { code, reason }),
        Err(_) => None,
    }
}

/// The file of a script at a path, which has this text; or nothing if there is no memory.
pub fn lines_at(alloc: Global, path: &str, text: &[u8]) -> Option<ScriptFile>
    ensures path { IfSome result (λ f. string_bytes f.path ≡ path.now) }
    ensures shown { IfSome result (λ f. string_bytes f.shown ≡ shown_text path.now) }
    ensures lines { IfSome result (λ f. f.lines ≡ script_lines text.now) }
{
    let Ok(shown) = shown_name(alloc, path.as_bytes()) else {
        return None;
    };
    let Ok(path) = String::from_str(alloc, path) else {
        return None;
    };
    match script_lines(alloc, text) {
        Ok(lines) => Some(ScriptFile { path, shown, lines }),
        Err(_) => None,
    }
}

// The path that a word stands for in the file at another path: beside it, unless it is absolute.
fn path_beside(alloc: Global, path: &str, word: &str) -> Result<String, AllocError>
    ensures { IfOk result (λ p. string_bytes p ≡ path_with_file_name path.now word.now) }
{
    let beside = Path::new(path).with_file_name(alloc, word)?;
    Ok(beside.into_string())
}

// What stands between the two spaces and the LF of a line that tells a cause.
fn within_line(told: &[u8]) -> &[u8] {
    match told {
        [b' ', b' ', reason @ .., b'\n'] => reason,
        _ => told,
    }
}

// The refusal with this number, for a cause that is told so.
fn refuses_told(alloc: Global, code: u16, told: &[u8]) -> Option<IncludeFault>
    ensures { IfSome result (λ f. f.code ≡ code) }
{
    match str::from_utf8(within_line(told)) {
        Ok(reason) => refuses(alloc, code, reason),
        Err(_) => refuses(alloc, code, "it can't be read"),
    }
}

// The refusal with this number of the file at the path, for a cause.
fn refuses_for(alloc: Global, code: u16, path: &str, cause: &Cause) -> Option<IncludeFault>
    ensures { IfSome result (λ f. f.code ≡ code) }
{
    let mut told = Vec::new(alloc);
    match write_cause(alloc, path, cause, &mut told) {
        Ok(()) => refuses_told(alloc, code, &told),
        Err(_) => None,
    }
}

// The refusal of the file at the path, which didn't end within the limit of reads.
fn refuses_long(alloc: Global, path: &str) -> Option<IncludeFault>
    ensures { IfSome result (λ f. f.code ≡ 37) }
{
    let mut told = Vec::new(alloc);
    match write_reason(path, "is too long", &mut told) {
        Ok(()) => refuses_told(alloc, 37, &told),
        Err(_) => None,
    }
}

// The refusal of the file at the path, which wasn't read: nothing if there was no memory.
fn refuses_unread(
    alloc: Global,
    path: &str,
    refusal: Refusal,
    why: &Option<Cause>,
) -> Option<IncludeFault>
    ensures { IfSome result (λ f. (f.code ≡ 37) ⊎ (f.code ≡ 42)) }
{
    if let Refusal::Lines(EditorError::OutOfMemory) = refusal {
        return None;
    }
    match why {
        Some(Cause::NoScript(content)) => {
            refuses_for(alloc, 42, path, &Cause::NoScript(*content))
        }
        Some(cause) => refuses_for(alloc, 37, path, cause),
        None => refuses_long(alloc, path),
    }
}

// The lines of the file at the path; or why it can't be read or is no script.
fn read_path<E: AllocGlobal + Files>(rt: &E, path: &str) -> Result<ScriptFile, Option<IncludeFault>>
    ensures path { IfOk result (λ f. string_bytes f.path ≡ path.now) }
    ensures lines { IfOk result (λ f. (text : List ℕ) × (f.lines ≡ script_lines text)) }
    ensures shown { IfOk result (λ f. string_bytes f.shown ≡ shown_text (string_bytes f.path)) }
    ensures refused { IfErr result (λ fault. IfSome fault (λ f.
        (f.code ≡ 37) ⊎ (f.code ≡ 42))) }
{
    let alloc = rt.alloc();
    let mut why = None;
    let text = match read_file(rt, path, &mut why) {
        Ok(text) => text,
        Err(refusal) => return Err(refuses_unread(alloc, path, refusal, &why)),
    };
    if let Content::Picture = content_within(&text) {
        let cause = Cause::Holds(Content::Picture);
        return Err(refuses_for(alloc, 42, path, &cause));
    }
    match lines_at(alloc, path, &text) {
        Some(file) => Ok(file),
        None => Err(None),
    }
}

/// The lines of the file of a word in the file of a script at a path; or why it can't be read or is no script, or
/// nothing if there is no memory.
pub fn read_beside<E: AllocGlobal + Files>(
    rt: &E,
    path: &str,
    word: &[u8],
) -> Result<ScriptFile, Option<IncludeFault>>
    ensures path { IfOk result (λ f.
        string_bytes f.path ≡ path_with_file_name path.now word.now) }
    ensures lines { IfOk result (λ f. (text : List ℕ) × (f.lines ≡ script_lines text)) }
    ensures shown { IfOk result (λ f. string_bytes f.shown ≡ shown_text (string_bytes f.path)) }
    ensures refused { IfErr result (λ fault. IfSome fault (λ f.
        (f.code ≡ 37) ⊎ (f.code ≡ 42))) }
{
    let alloc = rt.alloc();
    let Ok(name) = str::from_utf8(word) else {
        return Err(refuses(alloc, 37, "its path is no text in UTF-8"));
    };
    if name == "-" {
        return Err(refuses_for(alloc, 37, name, &Cause::Dash));
    }
    match path_beside(alloc, path, name) {
        Ok(beside) => read_path(rt, beside.as_str()),
        Err(_) => Err(None),
    }
}
