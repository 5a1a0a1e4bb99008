//! The lines of a script that are refused behind the first one.
ghost use Rattle.std.specs.Prelude.{◌≡◌, ◌≤◌, ◌<◌, ◌+◌, ◌/◌, ◌&&◌, [], length, nat_le, nat_lt, true, IfErr, IfOk, IfSome};
ghost use Rattle.std.specs.List.{remove};
ghost use Rattle.map_blocks.specs.Stops.{IsStopWithin};
ghost use Rattle.map_tables.specs.Projects.{body_len, project_of};
ghost use Rattle.run_canvas.specs.declared.error.ScriptError.TheVariants.{OutOfMemory};
ghost use Rattle.run_stops.specs.ToldStops.{AreFurtherTold, IsToldAmong, StopsAt, with_left_out};
ghost use Rattle.run_stops.specs.Telling.{PutsTold, TellsOneMore};

use crate::told::stop_told;
use map_blocks::{Stop, ends_telling, files_without, hangs, lines_without};
use map_script::{DrawError, Names, ScriptFiles, ScriptLines};
use map_tables::Maps;
use run_canvas::{Canvas, Draft, ScriptError};
use std::alloc::Global;
use std::io;

// How many refused lines are told behind the first one, at most.
const MOST: usize = 19;

// How often a script is drawn again, and how many lines it has then in all, at most.
const ROUNDS: usize = 40;

const MOST_LINES: usize = 200_000;

/// A line that was refused, and what tells of it.
#[derive(Drop)]
pub struct ToldStop {
    pub stop: Stop,
    pub text: Vec<u8>,
}

/// How far the refused lines of a script have been told.
#[derive(Drop)]
pub struct Telling {
    /// The lines of the script that are left, and their files.
    pub lines: ScriptLines,
    pub files: ScriptFiles,
    /// Those that were left out.
    pub left_out: ScriptLines,
    /// What was told of them, and of how many.
    pub text: Vec<u8>,
    pub count: usize,
}

// The line at which a script is refused that is drawn over a copy of some maps, and what tells of it.
#[inline(never)]
fn stop_over(
    alloc: Global,
    maps: &Maps,
    cap: u32,
    lines: &ScriptLines,
    files: &ScriptFiles,
) -> Result<Option<ToldStop>, ScriptError>
    requires fits { body_len (project_of maps.now) ≤ cap }
    requires files { length files.now ≡ length lines.now }
    ensures stops { IfOk result (λ found. IfSome found (λ t.
        StopsAt (record { maps = project_of maps.now; cap = cap }) lines.now t.stop)) }
    ensures told { IfOk result (λ found. IfSome found (λ t.
        IsToldAmong lines.now files.now t.stop t.text.items)) }
    ensures within { IfOk result (λ found. IfSome found (λ t.
        IsStopWithin (length lines.now) t.stop)) }
    ensures memory { IfErr result (λ e. e ≡ OutOfMemory) }
{
    let Ok(mut draft) = Draft::over(alloc, maps, cap) else {
        return Err(ScriptError::OutOfMemory);
    };
    let mut names = Names::new(alloc);
    let drawn = run_script::draw(alloc, &mut draft, &mut names, lines, false, &mut io::sink());
    let stop = match drawn {
        Ok(Some(stop)) => stop,
        Ok(None) => return Ok(None),
        // A sink takes all that is written, so nothing else cuts a script off.
        Err(_) => return Err(ScriptError::OutOfMemory),
    };
    match stop_told(alloc, draft.maps(), &names, lines, files, &stop) {
        Ok(text) => Ok(Some(ToldStop { stop, text })),
        Err(error) => Err(error),
    }
}

// Leaves out the line at a place.
fn leave_out(alloc: Global, telling: &mut Telling, place: usize) -> Result<(), DrawError>
    requires within { place < length telling.old.lines }
    requires files { length telling.old.files ≡ length telling.old.lines }
    ensures lines { IfOk result (λ _. telling.new.lines ≡ remove telling.old.lines place) }
    ensures files { IfOk result (λ _. telling.new.files ≡ remove telling.old.files place) }
    ensures out { IfOk result (λ _. telling.new.left_out
        ≡ with_left_out telling.old.left_out telling.old.lines place) }
    ensures text { IfOk result (λ _. telling.new.text.items ≡ telling.old.text.items) }
    ensures count { IfOk result (λ _. telling.new.count ≡ telling.old.count) }
{
    telling.left_out.put(&telling.lines.line(place))?;
    telling.files = files_without(alloc, &telling.files, telling.lines.len(), place)?;
    telling.lines = lines_without(alloc, &telling.lines, place)?;
    Ok(())
}

// Puts what tells of a stop behind what was told, unless its line hangs on one that was left out.
fn put_told(telling: &mut Telling, found: &ToldStop) -> Result<(), ScriptError>
    requires within { IsStopWithin (length telling.old.lines) found.now.stop }
    requires few { telling.old.count < 19 }
    ensures put { IfOk result (λ _.
        PutsTold found.now.stop found.now.text.items telling.old telling.new) }
    ensures memory { IfErr result (λ e. e ≡ OutOfMemory) }
{
    if hangs(&telling.lines, &telling.left_out, &found.stop) {
        return Ok(());
    }
    match telling.text.extend_from_slice(&found.text) {
        Ok(()) => {
            telling.count += 1;
            Ok(())
        }
        Err(_) => Err(ScriptError::OutOfMemory),
    }
}

// Tells of the line at which the rest of the script is refused, unless it hangs on one that was left out, and leaves it
// out. Returns whether there is such a line, and it can be.
fn tell_one(
    alloc: Global,
    maps: &Maps,
    cap: u32,
    telling: &mut Telling,
) -> Result<bool, ScriptError>
    requires fits { body_len (project_of maps.now) ≤ cap }
    requires files { length telling.old.files ≡ length telling.old.lines }
    requires few { telling.old.count < 19 }
    ensures told { IfOk result (λ goes_on.
        TellsOneMore (record { maps = project_of maps.now; cap = cap })
        telling.old telling.new goes_on) }
    ensures memory { IfErr result (λ e. e ≡ OutOfMemory) }
{
    let found = match stop_over(alloc, maps, cap, &telling.lines, &telling.files) {
        Ok(Some(found)) => found,
        Ok(None) => return Ok(false),
        Err(error) => return Err(error),
    };
    match put_told(telling, &found) {
        Ok(()) => {}
        Err(error) => return Err(error),
    }
    if ends_telling(&telling.lines, &found.stop) {
        return Ok(false);
    }
    match leave_out(alloc, telling, found.stop.place) {
        Ok(()) => Ok(true),
        Err(_) => Err(ScriptError::OutOfMemory),
    }
}

// Whether nothing is told behind a stop, or the script is too long to be drawn again.
fn is_last(lines: &ScriptLines, stop: &Stop) -> bool
    requires { IsStopWithin (length lines.now) stop.now }
{
    lines.len() > MOST_LINES || ends_telling(lines, stop)
}

// A script without the line at a place, of which nothing has been told.
fn telling_behind(
    alloc: Global,
    lines: &ScriptLines,
    files: &ScriptFiles,
    place: usize,
) -> Result<Telling, DrawError>
    requires within { place < length lines.now }
    requires files { length files.now ≡ length lines.now }
    ensures lines { IfOk result (λ t. t.lines ≡ remove lines.now place) }
    ensures files { IfOk result (λ t. t.files ≡ remove files.now place) }
    ensures out { IfOk result (λ t. t.left_out ≡ with_left_out [] lines.now place) }
    ensures text { IfOk result (λ t. t.text.items ≡ []) }
    ensures count { IfOk result (λ t. t.count ≡ 0) }
{
    let mut left_out = ScriptLines::empty(alloc);
    left_out.put(&lines.line(place))?;
    let rest_files = files_without(alloc, files, lines.len(), place)?;
    let rest = lines_without(alloc, lines, place)?;
    Ok(Telling {
        lines: rest,
        files: rest_files,
        left_out,
        text: Vec::new(alloc),
        count: 0,
    })
}

// Whether a further line may be told in a round: so many have been told, and so many lines may be drawn again.
fn may_go_on(telling: &Telling, round: usize) -> bool
    requires { round < 40 }
    ensures goes_on { result ≡ (nat_lt telling.now.count 19
        && nat_le (length telling.now.lines) (200000 / (round + 1))) }
    ensures few { result ≡ true → telling.now.count < 19 }
{
    telling.count < MOST && telling.lines.len() <= MOST_LINES / (round + 1)
}

/// What tells of the lines of a script that are refused behind the one at a stop. The script is drawn again over a copy
/// of the same maps, without the lines that were refused so far, and how that drawing stops tells the next one; and so
/// on. A line that hangs on one that was left out isn't told. Of all lines 20 are told, with the first.
///
/// # Errors
///
/// Only `OutOfMemory`.
pub fn further_told(
    alloc: Global,
    maps: &Maps,
    cap: u32,
    lines: &ScriptLines,
    files: &ScriptFiles,
    stop: &Stop,
) -> Result<Vec<u8>, ScriptError>
    requires fits { body_len (project_of maps.now) ≤ cap }
    requires files { length files.now ≡ length lines.now }
    requires within { IsStopWithin (length lines.now) stop.now }
    ensures told { IfOk result (λ text.
        AreFurtherTold (record { maps = project_of maps.now; cap = cap }) lines.now files.now
        stop.now text.items) }
    ensures memory { IfErr result (λ e. e ≡ OutOfMemory) }
{
    if is_last(lines, stop) {
        return Ok(Vec::new(alloc));
    }
    let Ok(mut telling) = telling_behind(alloc, lines, files, stop.place) else {
        return Err(ScriptError::OutOfMemory);
    };
    for round in 0..ROUNDS {
        if !may_go_on(&telling, round) {
            return Ok(telling.text);
        }
        match tell_one(alloc, maps, cap, &mut telling) {
            Ok(true) => {}
            Ok(false) => return Ok(telling.text),
            Err(error) => return Err(error),
        }
    }
    Ok(telling.text)
}
