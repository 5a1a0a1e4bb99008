//! The request `draw`: the lines of a script, drawn onto a disk's project, or tried over maps in memory.
ghost use Rattle.std.specs.Prelude.{◌≡◌, ◌≤◌, ◌⊎◌, None, Ok, length, IfOk, IfSome, MatchOption};
ghost use Rattle.std.specs.Io.KnownBytes.{Keeps};
ghost use Rattle.cli_scripts.specs.Drawing.{DrawsWhole, IsDrawnWith, IsDrawnOnto, IsHandedOn, IsTriedOn, IsTriedOver, TellsRefused, TellsStops, stop_status};
ghost use Rattle.map_tables.specs.Projects.{body_len, empty_project, project_of};
ghost use Rattle.run_edit.specs.declared.limits.TheConstants.{LONGEST_BODY};
ghost use Rattle.run_canvas.specs.Canvases.{Drafted, NothingWaits, draft_canvas, draft_over};
ghost use Rattle.map_blocks.specs.Stops.{IsStopWithin};
ghost use Rattle.cli_scripts.specs.DrawnOver.{IsDrawnOver, IsTriedOverDisk};
ghost use Rattle.cli_scripts.specs.ScriptMaps.{IsStoppedFrom};

use crate::told_stops::{say_others, say_stop};
use cli_refusals::{DONE, Refusal};
use cli_sources::{HandedBack, not_opened, open_project};
use map_blocks::Stop;
use map_script::{Names, ScriptFiles, ScriptLines};
use map_tables::Maps;
use run_canvas::{Canvas, Draft, ProjectCanvas, ScriptError};
use run_edit::EditorError;
use std::alloc::Global;
use std::io::{self, Write};
use store_disk::Disk;
use store_project::Project;

// The status if a line was refused.
const STOPPED: u8 = 3;

/// The lines of a script, and how they are drawn.
#[derive(Clone, Copy)]
pub struct Script<'a> {
    pub lines: &'a ScriptLines,
    /// The file of each line, as its path is shown.
    pub files: &'a ScriptFiles,
    /// Whether the answer to each command is written.
    pub is_verbose: bool,
}

// The status if all lines were drawn, or if one was refused.
fn status_of(stop: &Option<Stop>) -> u8
    ensures status { result ≡ stop_status stop.now }
    ensures small { result ≤ 3 }
{
    match stop {
        None => DONE,
        Some(_) => STOPPED,
    }
}

// Flushes the writer, and returns the status.
fn handed_on<W: Write>(
    drawn: &Result<Option<Stop>, ScriptError>,
    writer: &mut W,
) -> Result<u8, Refusal>
    ensures small { IfOk result (λ s. s ≤ 3) }
    ensures handed { IsHandedOn drawn.now result (W.contents writer.old) (W.contents writer.new) }
{
    match drawn {
        Ok(stop) => match writer.flush() {
            Ok(()) => Ok(status_of(stop)),
            Err(_) => Err(Refusal::Lines(EditorError::WriterFailed)),
        },
        Err(ScriptError::OutOfMemory) => Err(Refusal::Lines(EditorError::OutOfMemory)),
        Err(ScriptError::WriterFailed) => Err(Refusal::Lines(EditorError::WriterFailed)),
    }
}

// How the drawing of a script ended: how its request ends, at which line it stopped, and whether that was told.
#[derive(Drop)]
struct Ending {
    how: Result<u8, Refusal>,
    drawn: Result<Option<Stop>, ScriptError>,
    told: Result<(), ScriptError>,
}

// Draws a script onto a canvas, and reports the refused line.
fn draw_once<C: Canvas, W: Write, F: Write>(
    alloc: Global,
    canvas: &mut C,
    script: Script<'_>,
    writer: &mut W,
    faults: &mut F,
) -> Ending
    requires settled { NothingWaits C.Canvas canvas.old }
    requires files { length script.files.now ≡ length script.lines.now }
    ensures small { IfOk result.how (λ s. s ≤ 3) }
    ensures drawn { IsDrawnWith C.Canvas script.entry.is_verbose script.entry.lines.now result.drawn
        result.how canvas.old canvas.new (W.contents writer.old) (W.contents writer.new) }
    ensures within { IfOk result.drawn (λ stop.
        IfSome stop (IsStopWithin (length script.entry.lines.now))) }
    ensures told { TellsRefused result.told script.entry.lines.now script.entry.files.now
        result.drawn (F.contents faults.old) (F.contents faults.new) }
    ensures quiet { result.drawn ≡ Ok None
        → Keeps (F.contents faults.old) (F.contents faults.new) }
{
    let mut names = Names::new(alloc);
    let (lines, files) = (script.lines, script.files);
    let drawn = run_script::draw(alloc, canvas, &mut names, lines, script.is_verbose, writer);
    let how = handed_on(&drawn, writer);
    let maps = canvas.maps();
    let told = say_stop(alloc, maps, &names, lines, files, &drawn, faults);
    Ending { how, drawn, told }
}

// Draws a script onto a canvas, and reports the refused line.
fn draw_onto<C: Canvas, W: Write, F: Write>(
    alloc: Global,
    canvas: &mut C,
    script: Script<'_>,
    writer: &mut W,
    faults: &mut F,
) -> Result<u8, Refusal>
    requires settled { NothingWaits C.Canvas canvas.old }
    requires files { length script.files.now ≡ length script.lines.now }
    ensures small { IfOk result (λ s. s ≤ 3) }
    ensures drawn { IsDrawnOnto C.Canvas script.entry.is_verbose script.entry.lines.now result
        canvas.old canvas.new (W.contents writer.old) (W.contents writer.new) }
    ensures quiet { result ≡ Ok 0 → Keeps (F.contents faults.old) (F.contents faults.new) }
{
    // The status tells of the stop even if this can't be written.
    draw_once(alloc, canvas, script, writer, faults).how
}

// Draws a script onto a canvas with a copy of some maps, and reports the refused lines.
fn draw_over<C: Canvas, W: Write, F: Write>(
    alloc: Global,
    maps: &Maps,
    canvas: &mut C,
    script: Script<'_>,
    writer: &mut W,
    faults: &mut F,
) -> Result<u8, Refusal>
    requires settled { NothingWaits C.Canvas canvas.old }
    requires fits { body_len (project_of maps.now) ≤ C.Canvas.cap_in canvas.old }
    requires copy { C.Canvas.maps_in canvas.old ≡ project_of maps.now }
    requires files { length script.files.now ≡ length script.lines.now }
    ensures small { IfOk result (λ s. s ≤ 3) }
    ensures drawn { IsDrawnOnto C.Canvas script.entry.is_verbose script.entry.lines.now result
        canvas.old canvas.new (W.contents writer.old) (W.contents writer.new) }
    ensures quiet { result ≡ Ok 0 → Keeps (F.contents faults.old) (F.contents faults.new) }
    ensures told { IfOk result (λ s. (s ≡ 0) ⊎ ((s ≡ 3)
        × TellsStops C.Canvas script.entry.is_verbose canvas.old script.entry.lines.now
        script.entry.files.now (W.contents writer.old)
        (F.contents faults.old) (F.contents faults.new))) }
{
    let cap = canvas.cap();
    let (lines, files) = (script.lines, script.files);
    let ending = draw_once(alloc, canvas, script, writer, faults);
    say_others(
        alloc,
        maps,
        cap,
        lines,
        files,
        &ending.drawn,
        &ending.told,
        faults,
    );
    ending.how
}

// Tries a script over a project's maps in memory, and returns how the request ends if not all lines can be drawn. The
// refused ones are reported on `faults`.
#[inline(never)]
fn rehearse<D: Disk, F: Write>(
    alloc: Global,
    project: &Project<D>,
    script: Script<'_>,
    faults: &mut F,
) -> Option<Result<u8, Refusal>>
    requires { length script.files.now ≡ length script.lines.now }
    ensures tried { MatchOption result
        (((tried : Drafted) × DrawsWhole draft_canvas script.entry.lines.now
        (draft_over project.now) tried)
        × Keeps (F.contents faults.old) (F.contents faults.new))
        (λ how. IsStoppedFrom draft_canvas (draft_over project.now) script.entry.lines.now
        script.entry.files.now how (F.contents faults.old) (F.contents faults.new)) }
    ensures small { IfSome result (λ how. IfOk how (λ s. s ≤ 3)) }
{
    let maps = project.maps();
    let Ok(mut draft) = Draft::over(alloc, maps, project.cap()) else {
        return Some(Err(Refusal::Lines(EditorError::OutOfMemory)));
    };
    draw_whole_over(alloc, maps, script.lines, script.files, &mut draft, faults)
}

/// Draws a script onto the project of a disk, if all its lines can be drawn onto the project's maps: they are tried in
/// memory first. If one is refused, it is reported on `faults` with further ones, and nothing is drawn. If the disk
/// fails, what was put on it before stays. Answers of queries are written.
#[inline(never)]
pub fn draw<D: Disk, W: Write, F: Write>(
    alloc: Global,
    disk: D,
    script: Script<'_>,
    writer: &mut W,
    faults: &mut F,
) -> HandedBack<D>
    requires { length script.files.now ≡ length script.lines.now }
    ensures small { IfOk result.how (λ s. s ≤ 3) }
    ensures drawn { IsDrawnOver D.Disk disk result.disk script.entry.is_verbose
        script.entry.lines.now result.how (W.contents writer.old) (W.contents writer.new) }
    ensures quiet { result.how ≡ Ok 0 → Keeps (F.contents faults.old) (F.contents faults.new) }
{
    let project = match open_project(alloc, disk) {
        Ok(project) => project,
        Err(refused) => return not_opened(refused),
    };
    match rehearse(alloc, &project, script, faults) {
        Some(how) => {
            return HandedBack {
                how,
                disk: project.into_disk(),
            };
        }
        None => {}
    }
    let mut canvas = ProjectCanvas::new(project);
    let how = draw_onto(alloc, &mut canvas, script, writer, faults);
    let project = canvas.into_project();
    HandedBack {
        how,
        disk: project.into_disk(),
    }
}

/// Tries a script over the empty project in memory, line by line up to the first refused one, which is reported on
/// `faults` with further ones. Answers of queries are written.
#[inline(never)]
pub fn try_script<W: Write, F: Write>(
    alloc: Global,
    script: Script<'_>,
    writer: &mut W,
    faults: &mut F,
) -> Result<u8, Refusal>
    requires { length script.files.now ≡ length script.lines.now }
    ensures small { IfOk result (λ s. s ≤ 3) }
    ensures tried { IsTriedOn script.entry.is_verbose script.entry.lines.now result
        (W.contents writer.old) (W.contents writer.new) }
    ensures quiet { result ≡ Ok 0 → Keeps (F.contents faults.old) (F.contents faults.new) }
{
    let maps = Maps::new(alloc);
    let mut draft = Draft::new(alloc);
    draw_over(alloc, &maps, &mut draft, script, writer, faults)
}

/// Tries a script over a copy of the maps of a disk's project, line by line up to the first refused one, which is
/// reported on `faults` with further ones. Answers of queries are written.
#[inline(never)]
pub fn try_over<D: Disk, W: Write, F: Write>(
    alloc: Global,
    disk: D,
    script: Script<'_>,
    writer: &mut W,
    faults: &mut F,
) -> HandedBack<D>
    requires { length script.files.now ≡ length script.lines.now }
    ensures small { IfOk result.how (λ s. s ≤ 3) }
    ensures tried { IsTriedOverDisk D.Disk disk result.disk script.entry.is_verbose
        script.entry.lines.now result.how (W.contents writer.old) (W.contents writer.new) }
    ensures quiet { result.how ≡ Ok 0 → Keeps (F.contents faults.old) (F.contents faults.new) }
{
    let project = match open_project(alloc, disk) {
        Ok(project) => project,
        Err(refused) => return not_opened(refused),
    };
    let how = try_copy(alloc, project.maps(), project.cap(), script, writer, faults);
    HandedBack {
        how,
        disk: project.into_disk(),
    }
}

// Tries a script over a copy of these maps, whose body may be as long as `cap` says.
fn try_copy<W: Write, F: Write>(
    alloc: Global,
    maps: &Maps,
    cap: u32,
    script: Script<'_>,
    writer: &mut W,
    faults: &mut F,
) -> Result<u8, Refusal>
    requires fits { body_len (project_of maps.now) ≤ cap }
    requires files { length script.files.now ≡ length script.lines.now }
    ensures small { IfOk result (λ s. s ≤ 3) }
    ensures tried { IsTriedOver (record { maps = project_of maps.now; cap = cap })
        script.entry.is_verbose script.entry.lines.now result
        (W.contents writer.old) (W.contents writer.new) }
    ensures quiet { result ≡ Ok 0 → Keeps (F.contents faults.old) (F.contents faults.new) }
{
    match Draft::over(alloc, maps, cap) {
        Ok(mut draft) => draw_over(alloc, maps, &mut draft, script, writer, faults),
        Err(_) => Err(Refusal::Lines(EditorError::OutOfMemory)),
    }
}

// Draws the lines of a script, which stand in these files, onto a canvas with a copy of some maps as a whole, or
// returns how a request ends if not all were drawn. The refused ones are reported on `faults`. Answers to queries are
// not written.
fn draw_whole_over<C: Canvas, F: Write>(
    alloc: Global,
    maps: &Maps,
    lines: &ScriptLines,
    files: &ScriptFiles,
    canvas: &mut C,
    faults: &mut F,
) -> Option<Result<u8, Refusal>>
    requires settled { NothingWaits C.Canvas canvas.old }
    requires fits { body_len (project_of maps.now) ≤ C.Canvas.cap_in canvas.old }
    requires copy { C.Canvas.maps_in canvas.old ≡ project_of maps.now }
    requires files { length files.now ≡ length lines.now }
    ensures drawn { MatchOption result
        (DrawsWhole C.Canvas lines.now canvas.old canvas.new
        × Keeps (F.contents faults.old) (F.contents faults.new))
        (λ how. IsStoppedFrom C.Canvas canvas.old lines.now files.now how
        (F.contents faults.old) (F.contents faults.new)) }
    ensures small { IfSome result (λ how. IfOk how (λ s. s ≤ 3)) }
{
    let script = Script {
        lines,
        files,
        is_verbose: false,
    };
    match draw_over(alloc, maps, canvas, script, &mut io::sink(), faults) {
        Ok(status) if status == DONE => None,
        Ok(status) => Some(Ok(status)),
        // A sink takes all that is written, so nothing else cuts a script off.
        Err(_) => Some(Err(Refusal::Lines(EditorError::OutOfMemory))),
    }
}

/// Draws the lines of a script, which stand in these files, onto a canvas with the empty map MAP01 alone as a whole, or
/// returns how a request ends if not all were drawn. The refused ones are reported on `faults`. Answers to queries are
/// not written.
pub fn draw_whole<C: Canvas, F: Write>(
    alloc: Global,
    lines: &ScriptLines,
    files: &ScriptFiles,
    canvas: &mut C,
    faults: &mut F,
) -> Option<Result<u8, Refusal>>
    requires settled { NothingWaits C.Canvas canvas.old }
    requires empty { C.Canvas.maps_in canvas.old ≡ empty_project }
    requires longest { C.Canvas.cap_in canvas.old ≡ LONGEST_BODY }
    requires files { length files.now ≡ length lines.now }
    ensures drawn { MatchOption result
        (DrawsWhole C.Canvas lines.now canvas.old canvas.new
        × Keeps (F.contents faults.old) (F.contents faults.new))
        (λ how. IsStoppedFrom C.Canvas canvas.old lines.now files.now how
        (F.contents faults.old) (F.contents faults.new)) }
    ensures small { IfSome result (λ how. IfOk how (λ s. s ≤ 3)) }
{
    let maps = Maps::new(alloc);
    draw_whole_over(alloc, &maps, lines, files, canvas, faults)
}
