//! Lines as a map stores them, with keys, and as its calls return them, with numbers.
ghost use Rattle.std.specs.Prelude.{◌≡◌, ◌≢◌, ◌<◌, ◌≤◌, All, IfOk, IsOkUnless, length, map};
ghost use Rattle.map_tables.specs.Keyed.{left_of, line_of, IsFound};
ghost use Rattle.map_tables.specs.Tables.{no_side};

use crate::error::MapError;
use crate::map::keyed_side::KeyedSide;
use crate::map::table::Table;
use crate::map::vertex_table::VertexTable;
use lump_records::{Line, NO_SIDE};
use std::alloc::Global;

// A line as the map stores it, with the keys of the vertices and sides that it names.
#[derive(Clone, Copy)]
pub(super) struct KeyedLine {
    pub v1: usize,
    pub v2: usize,
    pub flags: u16,
    pub special: u16,
    pub tag: u16,
    pub right: usize,
    pub left: Option<usize>,
}

// The key of a line's left side, if it has one.
fn left_key(sides: &Table<KeyedSide>, left: u16) -> Option<usize>
    requires { left ≢ no_side → left < length sides.now.items }
    ensures { left_of sides.now.keys result ≡ left }
{
    if left == NO_SIDE {
        return None;
    }
    Some(sides.key_at(usize::from(left)))
}

// The number of a line's left side, or `NO_SIDE`.
fn left_number(sides: &Table<KeyedSide>, left: Option<usize>) -> u16
    requires { length sides.now.items ≤ 32767 }
    ensures { result ≡ left_of sides.now.keys left }
{
    match left {
        Some(key) => sides.rank(key) as u16,
        None => NO_SIDE,
    }
}

// Converts a line: keys in place of numbers.
pub(super) fn keyed_line(vertices: &VertexTable, sides: &Table<KeyedSide>, line: &Line) -> KeyedLine
    requires { IsFound (length vertices.now.items) (length sides.now.items) line.now }
    ensures { line_of vertices.now.keys sides.now.keys result ≡ line.now }
{
    KeyedLine {
        v1: vertices.key_at(usize::from(line.v1)),
        v2: vertices.key_at(usize::from(line.v2)),
        flags: line.flags,
        special: line.special,
        tag: line.tag,
        right: sides.key_at(usize::from(line.right)),
        left: left_key(sides, line.left),
    }
}

// Converts a line back: numbers in place of keys.
pub(super) fn numbered_line(
    vertices: &VertexTable,
    sides: &Table<KeyedSide>,
    line: &KeyedLine,
) -> Line
    requires vertices { length vertices.now.items ≤ 32767 }
    requires sides { length sides.now.items ≤ 32767 }
    ensures { result ≡ line_of vertices.now.keys sides.now.keys line.now }
{
    Line {
        v1: vertices.rank(line.v1) as u16,
        v2: vertices.rank(line.v2) as u16,
        flags: line.flags,
        special: line.special,
        tag: line.tag,
        right: sides.rank(line.right) as u16,
        left: left_number(sides, line.left),
    }
}

// Converts the lines of a list: keys in place of numbers.
pub(super) fn keyed_lines(
    alloc: Global,
    vertices: &VertexTable,
    sides: &Table<KeyedSide>,
    lines: &[Line],
) -> Result<Table<KeyedLine>, MapError>
    requires few { length lines.now ≤ 32767 }
    requires found { All (IsFound (length vertices.now.items) (length sides.now.items)) lines.now }
    ensures lines { IfOk result
        (λ table. map (line_of vertices.now.keys sides.now.keys) table.items ≡ lines.now) }
    ensures memory { IsOkUnless result MapError.OutOfMemory }
{
    let mut table = Table::new(alloc);
    table.reserve(lines.len())?;
    for line in lines {
        table.push(keyed_line(vertices, sides, line))?;
    }
    Ok(table)
}

// The list of the table's lines, with numbers in place of keys.
pub(super) fn numbered_lines(
    alloc: Global,
    vertices: &VertexTable,
    sides: &Table<KeyedSide>,
    lines: &Table<KeyedLine>,
) -> Result<Vec<Line>, MapError>
    requires vertices { length vertices.now.items ≤ 32767 }
    requires sides { length sides.now.items ≤ 32767 }
    ensures lines { IfOk result
        (λ list. list.items ≡ map (line_of vertices.now.keys sides.now.keys) lines.now.items) }
    ensures memory { IsOkUnless result MapError.OutOfMemory }
{
    let mut list = Vec::with_capacity(alloc, lines.len())?;
    for n in 0..lines.len() {
        list.push(numbered_line(vertices, sides, &lines.at(n)))?;
    }
    Ok(list)
}
