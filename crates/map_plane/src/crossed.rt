//! Which lines meet another one. Lines are parted by a divider again and again: two lines that meet have a point in
//! common that isn't an end of both, so they are together in one of the parts.
ghost use Rattle.std.specs.Prelude.{◌≡◌, ◌<◌, Bool, true, length, get_or, IfOk, OnOk};
ghost use Rattle.std.specs.List.{list_any, list_all};
ghost use Rattle.map_plane.specs.Crossed.{AreUnset, MarksCrossed, MarksMeeting, MarksSome, SetsMark};
ghost use Rattle.map_plane.specs.Meeting.{meets};
ghost use Rattle.map_plane.specs.declared.places.PlacedLine.{PlacedLine};

use crate::dividing::{are_shorter, divider_of, line_of_eighth, parts_of};
use crate::meeting::meets;
use crate::places::{PlacedLine, placed_lines};
use map_tables::Map;
use std::alloc::{AllocError, Global};

// So few lines are compared each with each.
const FEW: usize = 40;

// How often lines are parted.
const ROOM: u32 = 40;

// Whether the line has a mark. One whose number is behind the marks counts as marked.
fn is_marked(marks: &[bool], line: &PlacedLine) -> bool
    ensures { result ≡ get_or marks.now line.now.number true }
{
    match marks.get(line.number as usize) {
        Some(mark) => *mark,
        None => true,
    }
}

// Marks the number, if it isn't behind the marks.
fn set_mark(marks: &mut [bool], number: u32)
    ensures { SetsMark number marks.old marks.new }
{
    let n = number as usize;
    if n < marks.len() {
        marks[n] = true;
    }
}

// Whether each line has a mark.
fn are_marked(lines: &[PlacedLine], marks: &[bool]) -> bool
    ensures { result ≡ list_all (λ l. get_or marks.now l.number true) lines.now }
{
    lines.iter().all(|line| is_marked(marks, line))
}

// Whether the line meets one of the lines.
fn meets_one(line: &PlacedLine, lines: &[PlacedLine]) -> bool
    ensures { result ≡ list_any (meets line.now) lines.now }
{
    lines.iter().any(|other| meets(line, other))
}

// Marks the lines that meet one of them, each compared with each.
fn mark_each(lines: &[PlacedLine], marks: &mut [bool])
    ensures { MarksMeeting lines.now marks.old marks.new }
{
    for line in lines {
        if !is_marked(marks, line) && meets_one(line, lines) {
            set_mark(marks, line.number);
        }
    }
}

// Marks the lines that meet this one of them.
fn mark_by(lines: &[PlacedLine], by: &PlacedLine, marks: &mut [bool])
    requires { (test : PlacedLine → Bool) → test by.now ≡ true → list_any test lines.now ≡ true }
    ensures { MarksSome lines.now marks.old marks.new }
{
    for line in lines {
        if meets(line, by) {
            set_mark(marks, line.number);
        }
    }
}

// Marks the lines that meet one of them, parted at most `room` times.
fn mark(
    alloc: Global,
    lines: &[PlacedLine],
    marks: &mut [bool],
    room: u32,
) -> Result<(), AllocError>
    ensures { OnOk result (MarksMeeting lines.now marks.old marks.new) }
{
    if lines.len() <= FEW || room == 0 {
        mark_each(lines, marks);
        return Ok(());
    }
    mark_by(lines, &line_of_eighth(lines, 4), marks);
    if are_marked(lines, marks) {
        return Ok(());
    }
    let parts = parts_of(alloc, &divider_of(lines), lines)?;
    if !are_shorter(lines.len(), parts.right.len(), parts.left.len()) {
        mark_each(lines, marks);
        return Ok(());
    }
    mark(alloc, &parts.right, marks, room - 1)?;
    mark(alloc, &parts.left, marks, room - 1)
}

// So many marks, none of them set.
fn no_marks(alloc: Global, count: usize) -> Result<Vec<bool>, AllocError>
    ensures { IfOk result (λ marks. AreUnset count marks.items) }
{
    Ok(vec![in alloc; false; count]?)
}

/// Which lines of the map meet another one, by their numbers.
pub fn crossed_lines(alloc: Global, map: &Map) -> Result<Vec<bool>, AllocError>
    ensures { IfOk result (λ marks. MarksCrossed map.now.tables marks.items) }
{
    let lines = placed_lines(alloc, map)?;
    let mut marks = no_marks(alloc, lines.len())?;
    mark(alloc, &lines, &mut marks, ROOM)?;
    Ok(marks)
}
