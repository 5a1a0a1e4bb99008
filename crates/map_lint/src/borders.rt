//! Which sectors have a border: a line that has the sector on exactly one side.
ghost use Rattle.std.specs.Prelude.{◌≡◌, ◌<◌, length, vec_len, IfOk};
ghost use Rattle.map_tables.specs.WellFormed.{HasSides};
ghost use Rattle.map_lint.specs.Tallies.{MarksBordered, MarksSides};

use crate::error::LintError;
use lump_records::Line;
use map_tables::{Kind, Map};
use std::alloc::Global;

// Marks the sectors that the line has on exactly one side.
fn mark_sides(marks: &mut Vec<bool>, map: &Map, line: &Line)
    requires count { vec_len marks.old ≡ length map.now.tables.sectors }
    requires sides { HasSides map.now.tables.sides line.now }
    ensures { MarksSides map.now.tables line.now marks.old.items marks.new.items }
{
    let right = map.side(u32::from(line.right)).unwrap();
    if !line.has_left() {
        marks[usize::from(right.sector)] = true;
        return;
    }
    let left = map.side(u32::from(line.left)).unwrap();
    if right.sector != left.sector {
        marks[usize::from(right.sector)] = true;
        marks[usize::from(left.sector)] = true;
    }
}

/// Marks the sectors that have a border.
pub(crate) fn bordered_sectors(alloc: Global, map: &Map) -> Result<Vec<bool>, LintError>
    ensures { IfOk result (λ marks. MarksBordered map.now.tables map.now.tables.lines marks.items) }
{
    let mut marks = vec![in alloc; false; map.count(Kind::Sector) as usize]?;
    for n in 0..map.count(Kind::Line) {
        let line = map.line(n).unwrap();
        mark_sides(&mut marks, map, &line);
    }
    Ok(marks)
}
