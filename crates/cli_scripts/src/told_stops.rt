//! Reports the refused lines of a script.
ghost use Rattle.std.specs.Prelude.{◌≡◌, ◌≤◌, ℕ, List, None, Ok, Some, length, slice_get, IfOk, IfSome};
ghost use Rattle.std.specs.Io.KnownBytes.{Keeps};
ghost use Rattle.cli_scripts.specs.Drawing.{TellsOthers, TellsRefused};
ghost use Rattle.cli_scripts.specs.Including.{ShowsTold};
ghost use Rattle.map_tables.specs.Projects.{body_len, project_of};
ghost use Rattle.map_blocks.specs.Stops.{IsStopWithin};
ghost use Rattle.run_reasons.specs.Refused.{blocks_text};
ghost use Rattle.run_stops.specs.ToldStops.{AreFurtherTold, IsStopTold};

use lump_text::write_shown_lines;
use map_blocks::Stop;
use map_script::{Names, ScriptFiles, ScriptLines};
use map_tables::Maps;
use run_canvas::ScriptError;
use run_stops::{further_told, stop_told};
use std::alloc::Global;
use std::io::Write;

// Shows which line was refused and why.
fn show_stop<F: Write>(
    alloc: Global,
    maps: &Maps,
    names: &Names,
    lines: &ScriptLines,
    files: &ScriptFiles,
    stop: &Stop,
    faults: &mut F,
) -> Result<(), ScriptError>
    requires within { IsStopWithin (length lines.now) stop.now }
    requires files { length files.now ≡ length lines.now }
    ensures { (file : List ℕ) (line : ℕ × List ℕ)
        → slice_get files.now stop.now.place ≡ Some file
        → slice_get lines.now stop.now.place ≡ Some line
        → ShowsTold result (IsStopTold file line stop.now.code
        (blocks_text lines.now files.now stop.now.«open».items))
        (F.contents faults.old) (F.contents faults.new) }
{
    let told = match stop_told(alloc, maps, names, lines, files, stop) {
        Ok(told) => told,
        Err(error) => return Err(error),
    };
    match write_shown_lines(&told, faults) {
        Ok(()) => Ok(()),
        Err(_) => Err(ScriptError::WriterFailed),
    }
}

/// Writes which line was refused and why, if one was.
pub fn say_stop<F: Write>(
    alloc: Global,
    maps: &Maps,
    names: &Names,
    lines: &ScriptLines,
    files: &ScriptFiles,
    drawn: &Result<Option<Stop>, ScriptError>,
    faults: &mut F,
) -> Result<(), ScriptError>
    requires within { IfOk drawn.now (λ stop. IfSome stop (IsStopWithin (length lines.now))) }
    requires files { length files.now ≡ length lines.now }
    ensures told { TellsRefused result lines.now files.now drawn.now
        (F.contents faults.old) (F.contents faults.new) }
    ensures quiet { drawn.now ≡ Ok None → Keeps (F.contents faults.old) (F.contents faults.new) }
{
    let stopped = match drawn {
        Ok(stopped) => stopped,
        Err(_) => return Ok(()),
    };
    match stopped {
        Some(stop) => show_stop(alloc, maps, names, lines, files, stop, faults),
        None => Ok(()),
    }
}

// Shows which lines are refused behind the one at a stop.
fn show_further<F: Write>(
    alloc: Global,
    maps: &Maps,
    cap: u32,
    lines: &ScriptLines,
    files: &ScriptFiles,
    stop: &Stop,
    faults: &mut F,
) -> Result<(), ScriptError>
    requires fits { body_len (project_of maps.now) ≤ cap }
    requires within { IsStopWithin (length lines.now) stop.now }
    requires files { length files.now ≡ length lines.now }
    ensures { ShowsTold result
        (AreFurtherTold (record { maps = project_of maps.now; cap = cap }) lines.now files.now
        stop.now) (F.contents faults.old) (F.contents faults.new) }
{
    let told = match further_told(alloc, maps, cap, lines, files, stop) {
        Ok(told) => told,
        Err(error) => return Err(error),
    };
    match write_shown_lines(&told, faults) {
        Ok(()) => Ok(()),
        Err(_) => Err(ScriptError::WriterFailed),
    }
}

/// Writes which further lines of a script are refused over a copy of some maps, if one was, and it was told.
pub fn say_others<F: Write>(
    alloc: Global,
    maps: &Maps,
    cap: u32,
    lines: &ScriptLines,
    files: &ScriptFiles,
    drawn: &Result<Option<Stop>, ScriptError>,
    told: &Result<(), ScriptError>,
    faults: &mut F,
)
    requires fits { body_len (project_of maps.now) ≤ cap }
    requires within { IfOk drawn.now (λ stop. IfSome stop (IsStopWithin (length lines.now))) }
    requires files { length files.now ≡ length lines.now }
    ensures others { TellsOthers (record { maps = project_of maps.now; cap = cap })
        lines.now files.now drawn.now told.now (F.contents faults.old) (F.contents faults.new) }
{
    let (Ok(Some(stop)), Ok(())) = (drawn, told) else {
        return;
    };
    // The status tells of a refused line even if no further one can be told.
    let _ = show_further(alloc, maps, cap, lines, files, stop, faults);
}
