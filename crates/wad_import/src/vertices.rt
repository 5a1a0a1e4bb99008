//! The vertices of a level added to a map, each place once.
ghost use Rattle.std.specs.Prelude.{◌≡◌, ◌≤◌, [], All, IfOk, IsOkUnless, OnOk, length, map, position};
ghost use Rattle.std.specs.List.{range_with_len};
ghost use Rattle.lump_records.specs.Limits.{item_limit};
ghost use Rattle.map_tables.specs.Ranges.{IsVertex};
ghost use Rattle.map_tables.specs.Faults.{is_place};
ghost use Rattle.wad_import.specs.Once.{each_once, kept_number, number_at, place_changes};

use crate::change::Change;
use crate::error::ImportError;
use crate::tables::lack_of;
use lump_records::Vertex;
use map_tables::{Edit, Item, Kind, Maps};
use std::alloc::Global;

/// The number that each vertex has in the map, and the changes for those that are left out.
#[derive(Drop)]
pub struct Numbered {
    pub numbers: Vec<u16>,
    pub changes: Vec<Change>,
}

// Whether the two vertices are at one place.
fn is_place(a: Vertex, b: &Vertex) -> bool
    ensures { result ≡ is_place a b.now }
{
    b.x == a.x && b.y == a.y
}

// The number of the first vertex at the place, if there is one.
fn first_at(vertices: &[Vertex], vertex: Vertex) -> Option<usize>
    ensures { result ≡ position (is_place vertex) vertices.now }
{
    vertices.iter().position(|other| is_place(vertex, other))
}

// The number of the first vertex at the place, or the count of vertices if none is there.
fn number_at(vertices: &[Vertex], vertex: Vertex) -> usize
    ensures { result ≡ number_at vertices.now vertex }
{
    match first_at(vertices, vertex) {
        Some(n) => n,
        None => vertices.len(),
    }
}

/// Adds vertices to the current map, which has none, each place once.
pub fn add_vertices(
    alloc: Global,
    maps: &mut Maps,
    vertices: &[Vertex],
) -> Result<Numbered, ImportError>
    requires empty { maps.old.tables.vertices ≡ [] }
    requires range { All IsVertex vertices.now }
    requires room { length vertices.now ≤ item_limit }
    ensures memory { IsOkUnless result ImportError.OutOfMemory }
    ensures tables { OnOk result (maps.new.tables ≡
        record maps.old.tables { vertices = each_once vertices.now }) }
    ensures numbers { IfOk result (λ told. told.numbers.items ≡
        map (kept_number vertices.now) (range_with_len 0 (length vertices.now))) }
    ensures changes { IfOk result (λ told. told.changes.items ≡ place_changes vertices.now) }
    ensures others { maps.new.others ≡ maps.old.others }
{
    let mut numbers = Vec::with_capacity(alloc, vertices.len())?;
    let mut changes = Vec::new(alloc);
    for n in 0..vertices.len() {
        let vertex = vertices[n];
        if maps.current().has_place(vertex) {
            let first = number_at(vertices, vertex);
            numbers.push(numbers[first])?;
            changes.push(Change::VertexAgain(n, first))?;
        } else {
            numbers.push(maps.current().count(Kind::Vertex) as u16)?;
            match maps.edit(Edit::Add(Item::Vertex(vertex))) {
                Ok(_) => {}
                Err(error) => return Err(lack_of(error)),
            }
        }
    }
    Ok(Numbered { numbers, changes })
}
