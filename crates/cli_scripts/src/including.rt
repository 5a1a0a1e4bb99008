//! Scripts that include files: the lines of each file stand in the place of the line that includes it.
ghost use Rattle.std.specs.List.{list_any};
ghost use Rattle.std.specs.Prelude.{false, ◌≡◌, ◌≤◌, ◌<◌, ◌++◌, ◌∷◌, ℕ, List, [], Ok, Some, length, replicate, string_bytes, IfErr, IfOk, IfSome, MatchResult};
ghost use Rattle.std.specs.Io.KnownBytes.{Keeps};
ghost use Rattle.std.specs.Path.{path_with_file_name};
ghost use Rattle.lump_text.specs.Shown.{shown_text};
ghost use Rattle.map_script.specs.Includes.{is_include, only_word};
ghost use Rattle.map_script.specs.Scripts.{script_lines};
ghost use Rattle.map_script.specs.Views.{seen};
ghost use Rattle.map_script.specs.Words.{text_words};
ghost use Rattle.run_canvas.specs.declared.error.ScriptError.TheVariants.{OutOfMemory as LacksMemory};
ghost use Rattle.run_edit.specs.declared.error.EditorError.TheVariants.{OutOfMemory};
ghost use Rattle.cli_refusals.specs.declared.refusal.Refusal.TheVariants.{Lines};
ghost use Rattle.cli_scripts.specs.Including.{EndsUnjoined, IsIncludeFault, IsScriptJoined, IsLineTold, IsUnjoined, PutsJoined, ShowsTold, TellsNoFile};

use crate::included_file::{IncludeFault, ScriptFile, lines_at, read_beside, refuses};
use cli_refusals::Refusal;
use lump_text::write_shown_lines;
use map_script::{ScriptFiles, ScriptLine, ScriptLines, include_words, includes_any, only_word};
use run_canvas::ScriptError;
use run_edit::EditorError;
use run_reasons::write_refused_line;
use std::alloc::Global;
use std::fs::Files;
use std::io::Write;

// The status if a line was refused.
const STOPPED: u8 = 3;

// How deep files may include one another.
const DEEPEST: u32 = 16;

// How many files a script may include, and how many lines it and they may have.
const MOST_FILES: u32 = 1_000;

const MOST_LINES: usize = 1_000_000;

/// The lines of a script, with those of the files that it includes in their places, and in which file each is, as its
/// path is shown.
#[derive(Drop)]
pub struct WholeScript {
    pub lines: ScriptLines,
    pub files: ScriptFiles,
}

// How many files were included, and how many lines these and the script have.
#[derive(Clone, Copy)]
struct Counts {
    files: u32,
    lines: usize,
}

// ---- A refused line

// What tells that a line of a file was refused.
fn line_told(
    alloc: Global,
    file: &str,
    line: &ScriptLine<'_>,
    fault: &IncludeFault,
) -> Result<Vec<u8>, ScriptError>
    ensures told { IfOk result (λ told.
        IsLineTold file.now (seen line.now) fault.now.code told.items) }
    ensures memory { IfErr result (λ e. e ≡ LacksMemory) }
{
    let mut told = Vec::new(alloc);
    match write_refused_line(file, line, fault.code, fault.reason.as_str(), &mut told) {
        Ok(()) => Ok(told),
        Err(_) => Err(ScriptError::OutOfMemory),
    }
}

// Shows that a line of a file was refused.
fn show_line<F: Write>(
    alloc: Global,
    file: &str,
    line: &ScriptLine<'_>,
    fault: &IncludeFault,
    faults: &mut F,
) -> Result<(), ScriptError>
    ensures { ShowsTold result (IsLineTold file.now (seen line.now) fault.now.code)
        (F.contents faults.old) (F.contents faults.new) }
{
    let told = match line_told(alloc, file, line, fault) {
        Ok(told) => told,
        Err(error) => return Err(error),
    };
    match write_shown_lines(&told, faults) {
        Ok(()) => Ok(()),
        Err(_) => Err(ScriptError::WriterFailed),
    }
}

// ---- A line that includes a file

// Counts one file more, with so many lines, unless these are too many.
fn count_file(counts: &mut Counts, lines: usize) -> bool {
    match counts.lines.checked_add(lines) {
        Some(all) if all <= MOST_LINES => {
            counts.lines = all;
            counts.files = counts.files.saturating_add(1);
            true
        }
        _ => false,
    }
}

// The file of the word behind an `include`, in the file at a path in which files may be included so deep; or why no
// file can stand there, or nothing if there is no memory.
fn read_included<E: AllocGlobal + Files>(
    rt: &E,
    left: u32,
    path: &str,
    words: &[u8],
    counts: &mut Counts,
) -> Result<ScriptFile, Option<IncludeFault>>
    ensures deep { IfOk result (λ _. 0 < left) }
    ensures read { IfOk result (λ inner. (word text : List ℕ)
        × (only_word (text_words words.now) ≡ Some word)
        × (string_bytes inner.path ≡ path_with_file_name path.now word)
        × (inner.lines ≡ script_lines text)) }
    ensures shown { IfOk result (λ inner.
        string_bytes inner.shown ≡ shown_text (string_bytes inner.path)) }
    ensures refused { IfErr result (λ fault. IfSome fault (λ f.
        IsIncludeFault (text_words words.now) left f.code)) }
{
    let alloc = rt.alloc();
    let Some(word) = only_word(words) else {
        return Err(refuses(alloc, 1, "this is its form: include FILE"));
    };
    if left == 0 {
        return Err(refuses(alloc, 47, "files include one another more than 16 deep"));
    }
    if counts.files >= MOST_FILES {
        return Err(refuses(alloc, 48, "more than 1000 files are included"));
    }
    let inner = match read_beside(rt, path, word) {
        Ok(inner) => inner,
        Err(fault) => return Err(fault),
    };
    if !count_file(counts, inner.lines.len()) {
        return Err(refuses(
            alloc,
            48,
            "with its files the script has more than 1000000 lines",
        ));
    }
    Ok(inner)
}

// The same of a line of a file. If no file can stand there, tells why, and returns how a request ends.
fn included_by<E: AllocGlobal + Files, F: Write>(
    rt: &E,
    left: u32,
    file: &ScriptFile,
    line: &ScriptLine<'_>,
    words: &[u8],
    counts: &mut Counts,
    faults: &mut F,
) -> Result<ScriptFile, Result<u8, Refusal>>
    ensures deep { IfOk result (λ _. 0 < left) }
    ensures read { IfOk result (λ inner. (word text : List ℕ)
        × (only_word (text_words words.now) ≡ Some word)
        × (string_bytes inner.path ≡ path_with_file_name (string_bytes file.now.path) word)
        × (inner.lines ≡ script_lines text)) }
    ensures shown { IfOk result (λ inner.
        string_bytes inner.shown ≡ shown_text (string_bytes inner.path)) }
    ensures quiet { IfOk result (λ _. Keeps (F.contents faults.old) (F.contents faults.new)) }
    ensures refused { IfErr result (λ how. MatchResult how
        (λ status. TellsNoFile left (string_bytes file.now.shown) (seen line.now)
        (text_words words.now) status (F.contents faults.old) (F.contents faults.new))
        (λ refusal. refusal ≡ Lines OutOfMemory)) }
{
    match read_included(rt, left, file.path.as_str(), words, counts) {
        Ok(inner) => Ok(inner),
        Err(None) => Err(Err(Refusal::Lines(EditorError::OutOfMemory))),
        Err(Some(fault)) => {
            // The status tells of the line even if this can't be written.
            let _ = show_line(rt.alloc(), file.shown.as_str(), line, &fault, faults);
            Err(Ok(STOPPED))
        }
    }
}

// ---- All lines

// Puts a line of a file, whose path is shown so, behind the others.
fn put_own(
    alloc: Global,
    shown: &str,
    line: &ScriptLine<'_>,
    whole: &mut WholeScript,
) -> Result<(), Refusal>
    ensures lines { IfOk result (λ _. whole.new.lines ≡ whole.old.lines ++ seen line.now ∷ []) }
    ensures files { IfOk result (λ _.
        whole.new.files ≡ whole.old.files ++ replicate 1 shown.now) }
    ensures memory { IfErr result (λ e. e ≡ Lines OutOfMemory) }
{
    match whole.lines.put(line) {
        Ok(()) => {}
        Err(_) => return Err(Refusal::Lines(EditorError::OutOfMemory)),
    }
    match whole.files.put(alloc, shown, 1) {
        Ok(()) => Ok(()),
        Err(_) => Err(Refusal::Lines(EditorError::OutOfMemory)),
    }
}

// Puts the lines of a file behind the others, with those of the files that it includes, which may be so deep; or
// returns how a request ends.
fn put_lines<E: AllocGlobal + Files, F: Write>(
    rt: &E,
    left: u32,
    file: &ScriptFile,
    whole: &mut WholeScript,
    counts: &mut Counts,
    faults: &mut F,
) -> Result<(), Result<u8, Refusal>>
    requires { string_bytes file.now.shown ≡ shown_text (string_bytes file.now.path) }
    ensures put { IfOk result (λ _. PutsJoined left (string_bytes file.now.path) file.now.lines
        whole.old.lines whole.new.lines whole.old.files whole.new.files) }
    ensures quiet { IfOk result (λ _. Keeps (F.contents faults.old) (F.contents faults.new)) }
    ensures refused { IfErr result (λ how. EndsUnjoined left (string_bytes file.now.path)
        file.now.lines how (F.contents faults.old) (F.contents faults.new)) }
{
    for place in 0..file.lines.len() {
        let line = file.lines.line(place);
        let Some(words) = include_words(line.text) else {
            match put_own(rt.alloc(), file.shown.as_str(), &line, whole) {
                Ok(()) => continue,
                Err(refusal) => return Err(Err(refusal)),
            }
        };
        let inner = match included_by(rt, left, file, &line, words, counts, faults) {
            Ok(inner) => inner,
            Err(how) => return Err(how),
        };
        match put_lines(rt, left - 1, &inner, whole, counts, faults) {
            Ok(()) => {}
            Err(how) => return Err(how),
        }
    }
    Ok(())
}

// The lines of a script that includes no file; or nothing if there is no memory.
fn alone(alloc: Global, file: ScriptFile) -> Option<WholeScript>
    ensures lines { IfSome result (λ s. s.lines ≡ file.lines) }
    ensures files { IfSome result (λ s.
        s.files ≡ replicate (length file.lines) (string_bytes file.shown)) }
{
    let mut files = ScriptFiles::new(alloc);
    match files.put(alloc, file.shown.as_str(), file.lines.len()) {
        Ok(()) => {}
        Err(_) => return None,
    }
    Some(WholeScript {
        lines: file.lines,
        files,
    })
}

// The lines of a script that includes files; or how a request ends.
fn with_files<E: AllocGlobal + Files, F: Write>(
    rt: &E,
    file: &ScriptFile,
    faults: &mut F,
) -> Result<WholeScript, Result<u8, Refusal>>
    requires { string_bytes file.now.shown ≡ shown_text (string_bytes file.now.path) }
    ensures whole { IfOk result (λ s. IsScriptJoined (string_bytes file.now.path) file.now.lines
        s.lines s.files) }
    ensures quiet { IfOk result (λ _. Keeps (F.contents faults.old) (F.contents faults.new)) }
    ensures refused { IfErr result (λ how. IsUnjoined (string_bytes file.now.path)
        file.now.lines how (F.contents faults.old) (F.contents faults.new)) }
{
    let mut whole = WholeScript {
        lines: ScriptLines::empty(rt.alloc()),
        files: ScriptFiles::new(rt.alloc()),
    };
    let mut counts = Counts {
        files: 0,
        lines: file.lines.len(),
    };
    match put_lines(rt, DEEPEST, file, &mut whole, &mut counts, faults) {
        Ok(()) => Ok(whole),
        Err(how) => Err(how),
    }
}

/// The lines of the script at a path, of this text, with those of the files that it includes in their places. Files may
/// include one another, 16 deep at most.
///
/// # Errors
///
/// How a request ends: with 3 if a line can't include a file, which is told on `faults`, or for lack of memory.
pub fn joined<E: AllocGlobal + Files, F: Write>(
    rt: &E,
    path: &str,
    text: &[u8],
    faults: &mut F,
) -> Result<WholeScript, Result<u8, Refusal>>
    ensures whole { IfOk result (λ s.
        IsScriptJoined path.now (script_lines text.now) s.lines s.files) }
    ensures quiet { IfOk result (λ _. Keeps (F.contents faults.old) (F.contents faults.new)) }
    ensures refused { IfErr result (λ how. IsUnjoined path.now (script_lines text.now) how
        (F.contents faults.old) (F.contents faults.new)) }
    ensures long { IfOk result (λ s. length s.files ≡ length s.lines) }
    ensures small { IfErr result (λ how. IfOk how (λ s. s ≤ 3)) }
    ensures stopped { IfErr result (λ how. ¬ (how ≡ Ok 0)) }
{
    let Some(file) = lines_at(rt.alloc(), path, text) else {
        return Err(Err(Refusal::Lines(EditorError::OutOfMemory)));
    };
    if includes_any(&file.lines) {
        return with_files(rt, &file, faults);
    }
    match alone(rt.alloc(), file) {
        Some(whole) => Ok(whole),
        None => Err(Err(Refusal::Lines(EditorError::OutOfMemory))),
    }
}

/// A script that includes no file has its own lines, all in its own file: the contract is a law, and the body does
/// nothing.
pub fn lines_alone_stay()
    ensures { (path : List ℕ) (script lines : List (ℕ × List ℕ)) (files : List (List ℕ))
        → list_any is_include script ≡ false → IsScriptJoined path script lines files
        → (lines ≡ script) × (files ≡ replicate (length script) (shown_text path)) }
{}
