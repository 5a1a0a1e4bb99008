//! What tells of a refused line.
ghost use Rattle.std.specs.Prelude.{◌≡◌, ℕ, List, Some, length, slice_get, IfErr, IfOk};
ghost use Rattle.map_blocks.specs.Stops.{IsStopWithin};
ghost use Rattle.run_canvas.specs.declared.error.ScriptError.TheVariants.{OutOfMemory};
ghost use Rattle.run_reasons.specs.Refused.{blocks_text};
ghost use Rattle.run_stops.specs.ToldStops.{IsStopTold};

use map_blocks::Stop;
use map_script::{Names, ScriptFiles, ScriptLines};
use map_tables::Maps;
use run_canvas::ScriptError;
use run_reasons::write_refused;
use std::alloc::Global;

/// What tells which line was refused, and why, given the maps as they were and the names of the earlier lines.
///
/// # Errors
///
/// Only `OutOfMemory`.
pub fn stop_told(
    alloc: Global,
    maps: &Maps,
    names: &Names,
    lines: &ScriptLines,
    files: &ScriptFiles,
    stop: &Stop,
) -> Result<Vec<u8>, ScriptError>
    requires within { IsStopWithin (length lines.now) stop.now }
    requires files { length files.now ≡ length lines.now }
    ensures told { IfOk result (λ told. (file : List ℕ) (line : ℕ × List ℕ)
        → slice_get files.now stop.now.place ≡ Some file
        → slice_get lines.now stop.now.place ≡ Some line
        → IsStopTold file line stop.now.code
        (blocks_text lines.now files.now stop.now.«open».items) told.items) }
    ensures memory { IfErr result (λ e. e ≡ OutOfMemory) }
{
    let mut told = Vec::new(alloc);
    match write_refused(alloc, maps, names, lines, files, stop, &mut told) {
        Ok(()) => Ok(told),
        Err(_) => Err(ScriptError::OutOfMemory),
    }
}
