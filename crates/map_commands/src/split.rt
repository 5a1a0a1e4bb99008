//! Cutting a line in two: why it is refused, and the change.
ghost use Rattle.std.specs.Prelude.{◌≡◌, ◌≤◌, ◌||◌, nat_lt, None, length, [], ◌∷◌, ◌++◌};
ghost use Rattle.lump_records.specs.Drawing.{longest_squared, squared_distance};
ghost use Rattle.map_tables.specs.Faults.{is_too_long};
ghost use Rattle.map_tables.specs.Outcomes.{Covers, Tells, least};
ghost use Rattle.map_tables.specs.Ranges.{IsVertex};
ghost use Rattle.map_tables.specs.WellFormed.{HasEnds};
ghost use Rattle.map_commands.specs.Step.{need_of};
ghost use Rattle.map_commands.specs.Splits.{cut_faults, cut_off, cut_short, split_faults, with_split};

use crate::command::{Command, LineSplit};
use crate::edits::{line_of, put};
use crate::need::lacks_room;
use lump_records::{LONGEST_SQUARED, Line, Vertex, squared_distance};
use map_tables::{Edit, Item, Kind, Map, MapError, Maps};

// Whether two places are further apart than the ends of a line may be.
fn are_too_far(a: Vertex, b: Vertex) -> bool
    ensures { result ≡ nat_lt longest_squared (squared_distance a b) }
{
    squared_distance(a, b) > LONGEST_SQUARED
}

// Whether one of the halves would be too long if a line were cut in two at a place.
fn has_long_half(map: &Map, line: &Line, at: Vertex) -> bool
    requires { HasEnds map.now.tables.vertices line.now }
    ensures { let vertices = map.now.tables.vertices ++ at ∷ [] in result
        ≡ (is_too_long vertices (cut_short line.now (length map.now.tables.vertices))
        || is_too_long vertices (cut_off line.now (length map.now.tables.vertices))) }
{
    let (start, end) = map.ends_of(line);
    are_too_far(start, at) || are_too_far(at, end)
}

// Whether a line of the map can be cut in two at a place. The refusals in order: `PlaceTaken`, `TableFull`,
// `LineTooLong`.
fn can_cut(map: &Map, line: &Line, at: Vertex) -> Result<(), MapError>
    requires { HasEnds map.now.tables.vertices line.now }
    ensures { Tells result (cut_faults map.now.tables line.now at) }
{
    if map.has_place(at) {
        return Err(MapError::PlaceTaken);
    }
    if lacks_room(map, Kind::Vertex, 1) || lacks_room(map, Kind::Line, 1) {
        return Err(MapError::TableFull);
    }
    if has_long_half(map, line, at) {
        return Err(MapError::LineTooLong);
    }
    Ok(())
}

/// Whether a line can be split.
pub fn can_split(map: &Map, split: &LineSplit) -> Result<(), MapError>
    ensures { Tells result (split_faults map.now.tables split.now) }
{
    match map.line(u32::from(split.line)) {
        Some(line) => can_cut(map, &line, split.at),
        None => Err(MapError::NoLine),
    }
}

/// Makes a split that the map accepts and has memory for, and returns the new line's number.
pub fn cut(maps: &mut Maps, split: &LineSplit) -> u32
    requires range { (split.now.line ≤ 32766) × IsVertex split.now.at }
    requires accepted { least (split_faults maps.old.tables split.now) ≡ None }
    requires covered { Covers maps.old.spare (need_of (Command.Split split.now)) }
    ensures tables { maps.new.tables ≡ with_split maps.old.tables split.now }
    ensures number { result ≡ length maps.old.tables.lines }
    ensures others { maps.new.others ≡ maps.old.others }
{
    let line = line_of(maps, u32::from(split.line)).unwrap();
    let vertex = put(maps, Edit::Add(Item::Vertex(split.at))) as u16;
    put(
        maps,
        Edit::Set(split.line, Item::Line(Line { v2: vertex, ..line })),
    );
    put(maps, Edit::Add(Item::Line(Line { v1: vertex, ..line })))
}
