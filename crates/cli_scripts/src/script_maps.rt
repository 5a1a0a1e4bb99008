//! The maps that a script draws in memory, where it stands in place of a project.
ghost use Rattle.std.specs.Prelude.{◌≡◌, ◌≤◌, ◌⊎◌, ℕ, Err, IfErr, IfOk, List, length};
ghost use Rattle.std.specs.Io.KnownBytes.{Keeps};
ghost use Rattle.cli_print.specs.Reading.{ReadsAll};
ghost use Rattle.map_script.specs.Scripts.{script_lines};
ghost use Rattle.store_project.specs.declared.error.ProjectError.TheVariants.{NotAProject};
ghost use Rattle.run_edit.specs.declared.error.EditorError.TheVariants.{ReaderFailed};
ghost use Rattle.cli_refusals.specs.declared.refusal.Refusal.TheVariants.{Lines, Project};
ghost use Rattle.map_tables.specs.Projects.{empty_project, project_of};
ghost use Rattle.run_edit.specs.declared.limits.TheConstants.{LONGEST_BODY};
ghost use Rattle.run_canvas.specs.Canvases.{NothingWaits};
ghost use Rattle.cli_scripts.specs.Including.{IsScriptJoined};
ghost use Rattle.cli_scripts.specs.ScriptMaps.{DrawsLeaving, IsWithoutUntouched, NotReadDrawn, begins_untouched, is_untouched, item_count};

use crate::draw_request::draw_whole;
use crate::including::WholeScript;
use crate::script_file::read_joined;
use cli_files::Cause;
use cli_refusals::Refusal;
use map_tables::{Kind, Map, Maps};
use run_canvas::Canvas;
use run_edit::EditorError;
use std::fs::Files;
use std::io::{Read, Write};
use store_project::ProjectError;

// How many items a map has.
fn item_count(map: &Map) -> u32
    ensures { result ≡ item_count map.now.tables }
{
    map.count(Kind::Vertex)
        + map.count(Kind::Sector)
        + map.count(Kind::Side)
        + map.count(Kind::Line)
        + map.count(Kind::Thing)
}

// Whether a map is MAP01, and empty.
fn is_untouched(map: &Map) -> bool
    ensures { result ≡ is_untouched map.now.tables }
{
    let name = map.name();
    name.text() == b"MAP01".as_slice() && item_count(map) == 0
}

// Whether the first map is the empty MAP01.
fn begins_untouched(maps: &Maps) -> bool
    ensures { result ≡ begins_untouched (project_of maps.now) }
{
    match maps.at(0) {
        Some(map) => is_untouched(map),
        None => false,
    }
}

// Drops the first map if it is the empty MAP01 of a new project, unless it is the current one: the script never drew on
// it.
fn drop_untouched<C: Canvas>(canvas: &mut C)
    ensures { IsWithoutUntouched C.Canvas canvas.old canvas.new }
{
    if !begins_untouched(canvas.maps()) {
        return;
    }
    let _ = canvas.change(b"drop-map MAP01");
}

// Whether it is noted of a file that it holds no script.
fn holds_no_script(why: &Option<Cause>) -> bool {
    matches!(why, Some(Cause::NoScript(_)))
}

// How a request ends whose script isn't read: with 42 if it is none.
fn without_script(how: Result<u8, Refusal>, why: &Option<Cause>) -> Result<u8, Refusal>
    ensures { (result ≡ how) ⊎ ((how ≡ Err (Lines ReaderFailed))
        × (result ≡ Err (Project NotAProject))) }
{
    match how {
        Err(Refusal::Lines(EditorError::ReaderFailed)) if holds_no_script(why) => {
            Err(Refusal::Project(ProjectError::NotAProject))
        }
        _ => how,
    }
}

/// Draws all that the reader gives, the script at a path, from a canvas on, which has the empty project, and leaves out
/// an empty MAP01. Returns the script's lines.
///
/// # Errors
///
/// How a request ends that finds no maps so: if a line is refused, it is reported on `faults`; if the reader fails, or
/// gives no script, that is noted. Answers to queries are not written.
pub fn draw_maps<E: AllocGlobal + Files, R: Read, C: Canvas, F: Write>(
    rt: &E,
    path: &str,
    reader: &mut R,
    canvas: &mut C,
    faults: &mut F,
    why: &mut Option<Cause>,
) -> Result<WholeScript, Result<u8, Refusal>>
    requires settled { NothingWaits C.Canvas canvas.old }
    requires empty { C.Canvas.maps_in canvas.old ≡ empty_project }
    requires longest { C.Canvas.cap_in canvas.old ≡ LONGEST_BODY }
    ensures whole { IfOk result (λ s. (text : List ℕ)
        × ReadsAll (R.remaining reader.old) (R.remaining reader.new) text
        × IsScriptJoined path.now (script_lines text) s.lines s.files) }
    ensures long { IfOk result (λ s. length s.files ≡ length s.lines) }
    ensures drawn { IfOk result (λ s.
        DrawsLeaving C.Canvas canvas.old s.lines canvas.new) }
    ensures quiet { IfOk result (λ _. Keeps (F.contents faults.old) (F.contents faults.new)) }
    ensures none { IfErr result (λ how. NotReadDrawn C.Canvas canvas.old path.now
        (R.remaining reader.old) (R.remaining reader.new) how
        (F.contents faults.old) (F.contents faults.new)) }
    ensures small { IfErr result (λ how. IfOk how (λ s. s ≤ 3)) }
{
    let whole = match read_joined(rt, path, reader, faults, why) {
        Ok(whole) => whole,
        Err(how) => return Err(without_script(how, why)),
    };
    match draw_whole(rt.alloc(), &whole.lines, &whole.files, canvas, faults) {
        Some(how) => Err(how),
        None => {
            drop_untouched(canvas);
            Ok(whole)
        }
    }
}
