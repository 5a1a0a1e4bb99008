//! The requests that only read a project, over the file at a path, or over the script that is standard input, whose
//! path is `-`.
ghost use Rattle.std.specs.Prelude.{◌≤◌, IfOk, is_some, map, option_map, string_bytes};
ghost use Rattle.cli_print.specs.Choosing.{choice_view};
ghost use Rattle.cli_program.specs.SourceDeeds.{IsBuiltAt, IsCheckedAt, IsDumpedAt, IsLintedAt, IsPicturedAt};

use crate::over_script::{build_script, check_script, dump_script, lint_script, picture_script};
use crate::over_source::{build_file, check_file, dump_file, lint_file, picture_file};
use cli_files::Hold;
use cli_pictures::Wanted;
use cli_print::Choice;
use cli_refusals::{Causes, Refusal};
use cli_scripts::is_file;
use std::io::{Read, Write};
use std::os::unix::fs::FileExt;
use std::rt::Files;

/// `check` of a map of a project, of a level of a WAD, or of a map of a script.
pub fn check_source<E, R, W, F>(
    rt: &E,
    path: &str,
    name: Option<&str>,
    reader: &mut R,
    writer: &mut W,
    faults: &mut F,
    why: &mut Causes,
) -> Result<u8, Refusal>
where
    E: AllocGlobal + Files,
    E::File: FileExt + Hold,
    R: Read,
    W: Write,
    F: Write,
    ensures small { IfOk result (λ s. s ≤ 3) }
    ensures found { IsCheckedAt path.now (option_map (λ s. s.now) name.entry) result
        (R.remaining reader.old) (R.remaining reader.new)
        (W.contents writer.old) (W.contents writer.new)
        (F.contents faults.old) (F.contents faults.new) }
{
    if is_file(path) {
        check_file(rt, path, name, writer, faults, why)
    } else {
        check_script(rt, path, reader, name, writer, faults, &mut why.file)
    }
}

/// `lint` of the maps of a project, of the levels of a WAD, or of the maps of a script.
pub fn lint_source<E, R, W, F>(
    rt: &E,
    path: &str,
    name: Option<&str>,
    iwad: Option<&str>,
    choice: Choice<'_>,
    reader: &mut R,
    writer: &mut W,
    faults: &mut F,
    why: &mut Causes,
) -> Result<u8, Refusal>
where
    E: AllocGlobal + Files,
    E::File: FileExt + Hold,
    R: Read,
    W: Write,
    F: Write,
    ensures small { IfOk result (λ s. s ≤ 3) }
    ensures linted { IsLintedAt path.now (is_some iwad.entry) (choice_view choice.entry)
        (option_map (λ s. s.now) name.entry) result
        (R.remaining reader.old) (R.remaining reader.new)
        (W.contents writer.old) (W.contents writer.new)
        (F.contents faults.old) (F.contents faults.new) }
{
    if is_file(path) {
        lint_file(rt, path, name, iwad, choice, writer, faults, why)
    } else {
        lint_script(rt, path, reader, name, iwad, choice, writer, faults, why)
    }
}

/// `dump` of the maps of a project, of the levels of a WAD, or of the maps of a script.
pub fn dump_source<E, R, W, F>(
    rt: &E,
    path: &str,
    names: &[String],
    is_exact: bool,
    reader: &mut R,
    writer: &mut W,
    faults: &mut F,
    why: &mut Causes,
) -> Result<u8, Refusal>
where
    E: AllocGlobal + Files,
    E::File: FileExt + Hold,
    R: Read,
    W: Write,
    F: Write,
    ensures small { IfOk result (λ s. s ≤ 3) }
    ensures dumped { IsDumpedAt path.now (map string_bytes names.now) is_exact result
        (R.remaining reader.old) (R.remaining reader.new)
        (W.contents writer.old) (W.contents writer.new)
        (F.contents faults.old) (F.contents faults.new) }
{
    if is_file(path) {
        dump_file(rt, path, names, is_exact, writer, faults, why)
    } else {
        dump_script(rt, path, reader, names, writer, faults, &mut why.file)
    }
}

/// `picture` of a map of a project, of a level of a WAD, or of a map of a script.
pub fn picture_source<E, R, W, F>(
    rt: &E,
    path: &str,
    wanted: Wanted<'_>,
    reader: &mut R,
    writer: &mut W,
    faults: &mut F,
    why: &mut Causes,
) -> Result<u8, Refusal>
where
    E: AllocGlobal + Files,
    E::File: FileExt + Hold,
    R: Read,
    W: Write,
    F: Write,
    ensures small { IfOk result (λ s. s ≤ 3) }
    ensures pictured { IsPicturedAt path.now wanted.entry.layers
        (option_map (λ s. s.now) wanted.entry.map) (is_some wanted.entry.out) result
        (R.remaining reader.old) (R.remaining reader.new)
        (W.contents writer.old) (W.contents writer.new)
        (F.contents faults.old) (F.contents faults.new) }
{
    if is_file(path) {
        picture_file(rt, path, wanted, writer, faults, why)
    } else {
        picture_script(rt, path, reader, wanted, writer, faults, why)
    }
}

/// `build` of the maps of a project or of a script.
pub fn build_source<E, R, W, F>(
    rt: &E,
    path: &str,
    out: &str,
    reader: &mut R,
    writer: &mut W,
    faults: &mut F,
    why: &mut Causes,
) -> Result<u8, Refusal>
where
    E: AllocGlobal + Files,
    E::File: FileExt + Hold,
    R: Read,
    W: Write,
    F: Write,
    ensures small { IfOk result (λ s. s ≤ 3) }
    ensures built { IsBuiltAt path.now result (R.remaining reader.old) (R.remaining reader.new)
        (W.contents writer.old) (W.contents writer.new)
        (F.contents faults.old) (F.contents faults.new) }
{
    if is_file(path) {
        build_file(rt, path, out, writer, faults, why)
    } else {
        build_script(rt, path, reader, out, writer, faults, why)
    }
}
