//! The items of a map as lists.
ghost use Rattle.std.specs.Prelude.{◌≡◌, IfOk};

use lump_records::{Line, Sector, Thing};
use map_tables::{Kind, Map};
use std::alloc::{AllocError, Global};

/// The sectors of the map.
pub(crate) fn sectors_of(alloc: Global, map: &Map) -> Result<Vec<Sector>, AllocError>
    ensures { IfOk result (λ sectors. sectors.items ≡ map.now.tables.sectors) }
{
    let mut sectors = Vec::new(alloc);
    for n in 0..map.count(Kind::Sector) {
        let sector = map.sector(n).unwrap();
        sectors.push(sector)?;
    }
    Ok(sectors)
}

/// The lines of the map.
pub(crate) fn lines_of(alloc: Global, map: &Map) -> Result<Vec<Line>, AllocError>
    ensures { IfOk result (λ lines. lines.items ≡ map.now.tables.lines) }
{
    let mut lines = Vec::new(alloc);
    for n in 0..map.count(Kind::Line) {
        let line = map.line(n).unwrap();
        lines.push(line)?;
    }
    Ok(lines)
}

/// The things of the map.
pub(crate) fn things_of(alloc: Global, map: &Map) -> Result<Vec<Thing>, AllocError>
    ensures { IfOk result (λ things. things.items ≡ map.now.tables.things) }
{
    let mut things = Vec::new(alloc);
    for n in 0..map.count(Kind::Thing) {
        let thing = map.thing(n).unwrap();
        things.push(thing)?;
    }
    Ok(things)
}
