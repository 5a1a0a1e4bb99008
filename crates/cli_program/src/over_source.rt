//! The requests that only read a project, over the file at a path, which may also be a WAD or a script: `build` takes
//! no WAD.
ghost use Rattle.std.specs.Prelude.{◌≤◌, IfOk, is_some, map, option_map, string_bytes};
ghost use Rattle.std.specs.Io.KnownBytes.{Keeps};
ghost use Rattle.cli_dump.specs.Dumping.{IsDumpedIn};
ghost use Rattle.cli_dump.specs.LevelDumps.{IsWadDumped};
ghost use Rattle.cli_print.specs.Checking.{IsCheckedIn};
ghost use Rattle.cli_print.specs.Choosing.{choice_view};
ghost use Rattle.cli_print.specs.LevelLines.{IsWadChecked, IsWadLintedBy};
ghost use Rattle.cli_pictures.specs.LevelPicture.{IsLevelPicturedOf};
ghost use Rattle.cli_print.specs.Linting.{IsLintedBy};
ghost use Rattle.cli_pictures.specs.Picturing.{IsPicturedOf};
ghost use Rattle.cli_scripts.specs.ScriptCanvases.{maps_alone, maps_with_origins};
ghost use Rattle.cli_program.specs.SomeSource.{OverSome};
ghost use Rattle.cli_requests.specs.Requests.{IsBuiltFrom};

use crate::over_file::{ended_over, open_read};
use crate::over_script::{build_script, check_script, dump_script, lint_script, picture_script};
use cli_files::{Content, Hold, NotedFile, content_in};
use cli_pictures::Wanted;
use cli_print::{Choice, LumpsRead, WadReader};
use cli_refusals::{Causes, Refusal};
use cli_requests::{build, check, check_wad, dump, dump_wad, lint, lint_wad, picture, picture_wad};
use std::io::Write;
use std::os::unix::fs::FileExt;
use std::rt::Files;
use store_disk::FileDisk;

/// Writes what is wrong or unfinished in a map, the one with the name or the current one; if the file is a WAD, in its
/// level with the name, or in the first one.
pub fn check_file<E, W, F>(
    rt: &E,
    path: &str,
    name: Option<&str>,
    writer: &mut W,
    faults: &mut F,
    why: &mut Causes,
) -> Result<u8, Refusal>
where
    E: AllocGlobal + Files,
    E::File: FileExt + Hold,
    W: Write,
    F: Write,
    ensures small { IfOk result (λ s. s ≤ 3) }
    ensures found { OverSome maps_with_origins path.now result
        (W.contents writer.old) (W.contents writer.new)
        (F.contents faults.old) (F.contents faults.new)
        (λ origin maps. IsCheckedIn origin (option_map (λ s. s.now) name.entry) maps result
        (W.contents writer.old) (W.contents writer.new))
        (λ wad. IsWadChecked wad (option_map (λ s. s.now) name.entry) result
        (W.contents writer.old) (W.contents writer.new)
        × Keeps (F.contents faults.old) (F.contents faults.new)) }
{
    let mut file = open_read(rt, path, why)?;
    match content_in(&file) {
        Ok(Content::Wad) => {
            let mut reader = WadReader::new(rt.alloc(), &mut file.file, LumpsRead::of_level(name));
            return check_wad(rt.alloc(), &mut reader, name, writer, &mut why.file);
        }
        Ok(Content::Text | Content::Picture) => return check_script(
            rt,
            path,
            &mut file.file,
            name,
            writer,
            faults,
            &mut why.file,
        ),
        _ => {}
    }
    let file = NotedFile::new(file);
    let disk = FileDisk::new(&file, false);
    let how = check(rt.alloc(), disk, name, writer).how;
    ended_over(&file, how, why)
}

/// Writes what is wrong, unfinished or doubtful in each map, or in the one with the name alone, and which flats and
/// textures the WAD at the path `iwad` lacks, if one is given. If the file is a WAD, does the same with its levels.
pub fn lint_file<E, W, F>(
    rt: &E,
    path: &str,
    name: Option<&str>,
    iwad: Option<&str>,
    choice: Choice<'_>,
    writer: &mut W,
    faults: &mut F,
    why: &mut Causes,
) -> Result<u8, Refusal>
where
    E: AllocGlobal + Files,
    E::File: FileExt + Hold,
    W: Write,
    F: Write,
    ensures small { IfOk result (λ s. s ≤ 3) }
    ensures linted { OverSome maps_with_origins path.now result
        (W.contents writer.old) (W.contents writer.new)
        (F.contents faults.old) (F.contents faults.new)
        (λ origin maps. IsLintedBy origin (is_some iwad.entry) (choice_view choice.entry)
        (option_map (λ s. s.now) name.entry) maps result
        (W.contents writer.old) (W.contents writer.new))
        (λ wad. IsWadLintedBy (is_some iwad.entry) (choice_view choice.entry) wad
        (option_map (λ s. s.now) name.entry) result
        (W.contents writer.old) (W.contents writer.new)
        × Keeps (F.contents faults.old) (F.contents faults.new)) }
{
    let mut file = open_read(rt, path, why)?;
    match content_in(&file) {
        Ok(Content::Wad) => {
            let mut reader = WadReader::new(rt.alloc(), &mut file.file, LumpsRead::of_levels(name));
            return lint_wad(rt, &mut reader, name, iwad, choice, writer, why);
        }
        Ok(Content::Text | Content::Picture) => {
            return lint_script(
                rt,
                path,
                &mut file.file,
                name,
                iwad,
                choice,
                writer,
                faults,
                why,
            );
        }
        _ => {}
    }
    let file = NotedFile::new(file);
    let disk = FileDisk::new(&file, false);
    let how = lint(rt, disk, name, iwad, choice, writer, &mut why.beside).how;
    ended_over(&file, how, why)
}

/// Writes the lines that draw the maps again, all or those with the names. If the file is a WAD, does the same with its
/// levels, and reports on `faults` their changes, and which are left.
pub fn dump_file<E, W, F>(
    rt: &E,
    path: &str,
    names: &[String],
    is_exact: bool,
    writer: &mut W,
    faults: &mut F,
    why: &mut Causes,
) -> Result<u8, Refusal>
where
    E: AllocGlobal + Files,
    E::File: FileExt + Hold,
    W: Write,
    F: Write,
    ensures small { IfOk result (λ s. s ≤ 3) }
    ensures dumped { OverSome maps_alone path.now result
        (W.contents writer.old) (W.contents writer.new)
        (F.contents faults.old) (F.contents faults.new)
        (λ origin maps. IsDumpedIn (map string_bytes names.now) maps result
        (W.contents writer.old) (W.contents writer.new))
        (λ wad. IsWadDumped wad (map string_bytes names.now) is_exact result
        (W.contents writer.old) (W.contents writer.new)
        (F.contents faults.old) (F.contents faults.new)) }
{
    let mut file = open_read(rt, path, why)?;
    match content_in(&file) {
        Ok(Content::Wad) => {
            let mut reader = WadReader::new(rt.alloc(), &mut file.file, LumpsRead::of_each(names));
            return dump_wad(
                rt.alloc(),
                &mut reader,
                names,
                is_exact,
                writer,
                faults,
                &mut why.file,
            );
        }
        Ok(Content::Text | Content::Picture) => return dump_script(
            rt,
            path,
            &mut file.file,
            names,
            writer,
            faults,
            &mut why.file,
        ),
        _ => {}
    }
    let file = NotedFile::new(file);
    let disk = FileDisk::new(&file, false);
    let how = dump(rt.alloc(), disk, names, writer).how;
    ended_over(&file, how, why)
}

/// Draws a map as a picture; if the file is a WAD, a level of it.
pub fn picture_file<E, W, F>(
    rt: &E,
    path: &str,
    wanted: Wanted<'_>,
    writer: &mut W,
    faults: &mut F,
    why: &mut Causes,
) -> Result<u8, Refusal>
where
    E: AllocGlobal + Files,
    E::File: FileExt + Hold,
    W: Write,
    F: Write,
    ensures small { IfOk result (λ s. s ≤ 3) }
    ensures pictured { OverSome maps_alone path.now result
        (W.contents writer.old) (W.contents writer.new)
        (F.contents faults.old) (F.contents faults.new)
        (λ origin maps. IsPicturedOf wanted.entry.layers (option_map (λ s. s.now) wanted.entry.map)
        (is_some wanted.entry.out) maps result (W.contents writer.old) (W.contents writer.new))
        (λ wad. IsLevelPicturedOf wanted.entry.layers (option_map (λ s. s.now) wanted.entry.map)
        (is_some wanted.entry.out) wad result (W.contents writer.old) (W.contents writer.new)
        × Keeps (F.contents faults.old) (F.contents faults.new)) }
{
    let mut file = open_read(rt, path, why)?;
    match content_in(&file) {
        Ok(Content::Wad) => {
            let mut reader = WadReader::new(
                rt.alloc(),
                &mut file.file,
                LumpsRead::of_level(wanted.map),
            );
            return picture_wad(rt.alloc(), rt, &mut reader, wanted, writer, why);
        }
        Ok(Content::Text | Content::Picture) => return picture_script(
            rt,
            path,
            &mut file.file,
            wanted,
            writer,
            faults,
            why,
        ),
        _ => {}
    }
    let file = NotedFile::new(file);
    let disk = FileDisk::new(&file, false);
    let how = picture(rt.alloc(), rt, disk, wanted, writer, &mut why.out).how;
    ended_over(&file, how, why)
}

/// Builds the maps into the file at `out`. A WAD is refused as a file that is no project.
pub fn build_file<E, W, F>(
    rt: &E,
    path: &str,
    out: &str,
    writer: &mut W,
    faults: &mut F,
    why: &mut Causes,
) -> Result<u8, Refusal>
where
    E: AllocGlobal + Files,
    E::File: FileExt + Hold,
    W: Write,
    F: Write,
    ensures small { IfOk result (λ s. s ≤ 3) }
    ensures built { OverSome maps_alone path.now result
        (W.contents writer.old) (W.contents writer.new)
        (F.contents faults.old) (F.contents faults.new)
        (λ origin maps. IsBuiltFrom maps result (W.contents writer.old) (W.contents writer.new))
        (λ wad. ⊥) }
{
    let mut file = open_read(rt, path, why)?;
    if let Ok(Content::Text | Content::Picture) = content_in(&file) {
        return build_script(rt, path, &mut file.file, out, writer, faults, why);
    }
    let file = NotedFile::new(file);
    let disk = FileDisk::new(&file, false);
    let how = build(rt.alloc(), rt, disk, out, writer, &mut why.out).how;
    ended_over(&file, how, why)
}
