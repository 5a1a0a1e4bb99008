//! The requests over a script in place of a project: each does with the maps that the script draws in memory what it
//! does with a project's, or notes why a file can't be read or made.
ghost use Rattle.std.specs.Prelude.{◌≤◌, IfOk, is_some, map, option_map, string_bytes};
ghost use Rattle.cli_dump.specs.Dumping.{IsDumpedIn};
ghost use Rattle.cli_print.specs.Checking.{IsCheckedIn};
ghost use Rattle.cli_print.specs.Choosing.{choice_view};
ghost use Rattle.cli_print.specs.Linting.{IsLintedBy};
ghost use Rattle.cli_pictures.specs.Picturing.{IsPicturedOf};
ghost use Rattle.cli_scripts.specs.ScriptCanvases.{maps_alone, maps_with_origins};
ghost use Rattle.cli_scripts.specs.ScriptMaps.{OverScript};
ghost use Rattle.cli_requests.specs.Requests.{IsBuiltFrom};

use cli_dump::tell_lines_of;
use cli_files::{Cause, Hold};
use cli_pictures::{Wanted, draw};
use cli_print::{Choice, tell_beside, tell_findings};
use cli_refusals::{Causes, Refusal};
use cli_requests::build_at;
use cli_scripts::{ScriptOrigin, draw_maps};
use run_canvas::{Canvas, Draft, OriginDraft};
use std::fs::Files;
use std::io::{Read, Write};
use std::os::unix::fs::FileExt;

/// Writes what is wrong or unfinished in the map with the name that the script at a path draws, or in the current one,
/// and behind each finding the lines that added its items.
#[inline(never)]
pub fn check_script<E: AllocGlobal + Files, R: Read, W: Write, F: Write>(
    rt: &E,
    script: &str,
    reader: &mut R,
    name: Option<&str>,
    writer: &mut W,
    faults: &mut F,
    why: &mut Option<Cause>,
) -> Result<u8, Refusal>
    ensures small { IfOk result (λ s. s ≤ 3) }
    ensures found { OverScript maps_with_origins script.now
        (R.remaining reader.old) (R.remaining reader.new) result
        (W.contents writer.old) (W.contents writer.new)
        (F.contents faults.old) (F.contents faults.new)
        (λ origin maps. IsCheckedIn origin (option_map (λ s. s.now) name.entry) maps result
        (W.contents writer.old) (W.contents writer.new)) }
{
    let mut draft = OriginDraft::new(rt.alloc());
    let whole = match draw_maps(rt, script, reader, &mut draft, faults, why) {
        Ok(whole) => whole,
        Err(how) => return how,
    };
    let origin = ScriptOrigin::new(&whole, &draft);
    tell_findings(rt.alloc(), draft.maps(), name, &origin, writer)
}

/// Writes about each map that a script draws, or about the one with the name alone, what `lint` says of a project's,
/// and behind each finding and warning the lines that added its items.
#[inline(never)]
pub fn lint_script<E: AllocGlobal + Files, R: Read, W: Write, F: Write>(
    rt: &E,
    script: &str,
    reader: &mut R,
    name: Option<&str>,
    iwad: Option<&str>,
    choice: Choice<'_>,
    writer: &mut W,
    faults: &mut F,
    why: &mut Causes,
) -> Result<u8, Refusal>
where
    E::File: FileExt,
    ensures small { IfOk result (λ s. s ≤ 3) }
    ensures linted { OverScript maps_with_origins script.now
        (R.remaining reader.old) (R.remaining reader.new) result
        (W.contents writer.old) (W.contents writer.new)
        (F.contents faults.old) (F.contents faults.new)
        (λ origin maps. IsLintedBy origin (is_some iwad.entry) (choice_view choice.entry)
        (option_map (λ s. s.now) name.entry) maps result
        (W.contents writer.old) (W.contents writer.new)) }
{
    let mut draft = OriginDraft::new(rt.alloc());
    let whole = match draw_maps(rt, script, reader, &mut draft, faults, &mut why.file) {
        Ok(whole) => whole,
        Err(how) => return how,
    };
    let origin = ScriptOrigin::new(&whole, &draft);
    tell_beside(
        rt,
        draft.maps(),
        name,
        iwad,
        choice,
        &origin,
        writer,
        &mut why.beside,
    )
}

/// Writes the lines that draw the maps of a script again, or, if there are names, those of each map with one of the
/// names.
#[inline(never)]
pub fn dump_script<E: AllocGlobal + Files, R: Read, W: Write, F: Write>(
    rt: &E,
    script: &str,
    reader: &mut R,
    names: &[String],
    writer: &mut W,
    faults: &mut F,
    why: &mut Option<Cause>,
) -> Result<u8, Refusal>
    ensures small { IfOk result (λ s. s ≤ 3) }
    ensures dumped { OverScript maps_alone script.now
        (R.remaining reader.old) (R.remaining reader.new) result
        (W.contents writer.old) (W.contents writer.new)
        (F.contents faults.old) (F.contents faults.new)
        (λ origin maps. IsDumpedIn (map string_bytes names.now) maps result
        (W.contents writer.old) (W.contents writer.new)) }
{
    let mut draft = Draft::new(rt.alloc());
    let _whole = match draw_maps(rt, script, reader, &mut draft, faults, why) {
        Ok(whole) => whole,
        Err(how) => return how,
    };
    tell_lines_of(rt.alloc(), draft.maps(), names, writer)
}

/// Draws a map of a script as a picture, onto the output or into a file, or notes why the file can't be made.
#[inline(never)]
pub fn picture_script<E: AllocGlobal + Files, R: Read, W: Write, F: Write>(
    rt: &E,
    script: &str,
    reader: &mut R,
    wanted: Wanted<'_>,
    writer: &mut W,
    faults: &mut F,
    why: &mut Causes,
) -> Result<u8, Refusal>
where
    E::File: Hold,
    ensures small { IfOk result (λ s. s ≤ 3) }
    ensures pictured { OverScript maps_alone script.now
        (R.remaining reader.old) (R.remaining reader.new) result
        (W.contents writer.old) (W.contents writer.new)
        (F.contents faults.old) (F.contents faults.new)
        (λ origin maps. IsPicturedOf wanted.entry.layers (option_map (λ s. s.now) wanted.entry.map)
        (is_some wanted.entry.out) maps result (W.contents writer.old) (W.contents writer.new)) }
{
    let mut draft = Draft::new(rt.alloc());
    let _whole = match draw_maps(rt, script, reader, &mut draft, faults, &mut why.file) {
        Ok(whole) => whole,
        Err(how) => return how,
    };
    draw(rt.alloc(), rt, draft.maps(), wanted, writer, &mut why.out)
}

/// Builds the maps of a script into the file at `out`, or notes why the file can't be made. If a line is refused, the
/// file stays as it is.
#[inline(never)]
pub fn build_script<E: AllocGlobal + Files, R: Read, W: Write, F: Write>(
    rt: &E,
    script: &str,
    reader: &mut R,
    out: &str,
    writer: &mut W,
    faults: &mut F,
    why: &mut Causes,
) -> Result<u8, Refusal>
where
    E::File: Hold,
    ensures small { IfOk result (λ s. s ≤ 3) }
    ensures built { OverScript maps_alone script.now
        (R.remaining reader.old) (R.remaining reader.new) result
        (W.contents writer.old) (W.contents writer.new)
        (F.contents faults.old) (F.contents faults.new)
        (λ origin maps. IsBuiltFrom maps result (W.contents writer.old) (W.contents writer.new)) }
{
    let mut draft = Draft::new(rt.alloc());
    let _whole = match draw_maps(rt, script, reader, &mut draft, faults, &mut why.file) {
        Ok(whole) => whole,
        Err(how) => return how,
    };
    build_at(rt.alloc(), rt, draft.maps(), out, writer, &mut why.out)
}
