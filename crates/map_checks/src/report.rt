//! The crate's call: lists all findings of a map, in a fixed order.
ghost use Rattle.std.specs.Prelude.{◌≡◌, IfOk, IsOkUnless};
ghost use Rattle.map_checks.specs.Findings.{findings};

use crate::corners::list_open_sectors;
use crate::error::CheckError;
use crate::finding::Finding;
use crate::start::list_missing_start;
use crate::textures::list_missing_textures;
use crate::unused::{list_unused_sectors, list_unused_sides, list_unused_vertices};
use map_tables::Map;
use std::alloc::Global;

/// Lists what is wrong or unfinished in the map: unused vertices, unused sides and unused sectors, each by number;
/// missing textures by line, the right side before the left, upper before lower before middle; open sectors by
/// sector, then by vertex; and that there is no player start. It takes about O(n log n) time in the map's size, and
/// fails only if memory runs out.
pub fn check(alloc: Global, map: &Map) -> Result<Vec<Finding>, CheckError>
    ensures found { IfOk result (λ found. found.items ≡ findings map.now.tables) }
    ensures memory { IsOkUnless result CheckError.OutOfMemory }
{
    let mut found = Vec::new(alloc);
    list_unused_vertices(alloc, map, &mut found)?;
    list_unused_sides(alloc, map, &mut found)?;
    list_unused_sectors(alloc, map, &mut found)?;
    list_missing_textures(map, &mut found)?;
    list_open_sectors(alloc, map, &mut found)?;
    list_missing_start(map, &mut found)?;
    Ok(found)
}
