//! The lists of a level after the changes.
ghost use Rattle.std.specs.Prelude.{◌≡◌, All, IfOk, IsOkUnless, filter, length, map, slice_index};
ghost use Rattle.wad_levels.specs.Drawn.{drawn_view};
ghost use Rattle.wad_import.specs.Added.{IsBetweenSome};
ghost use Rattle.wad_import.specs.Imported.{kept_lines};
ghost use Rattle.wad_import.specs.Mended.{is_kept, linked_line, mended_sector, mended_side, mended_thing};

use crate::error::ImportError;
use crate::mended::{is_kept, mended_line, mended_sector, mended_side, mended_thing};
use lump_records::{Line, Sector, Side, Thing};
use std::alloc::Global;
use wad_levels::{Drawn, has_no_length};

/// The sectors after the changes.
pub fn mended_sectors(alloc: Global, sectors: &[Sector]) -> Result<Vec<Sector>, ImportError>
    ensures list { IfOk result (λ list. list.items ≡ map mended_sector sectors.now) }
    ensures memory { IsOkUnless result ImportError.OutOfMemory }
{
    let list = sectors.iter().map(mended_sector).collect(alloc)?;
    Ok(list)
}

/// The sides after the changes.
pub fn mended_sides(alloc: Global, sides: &[Side]) -> Result<Vec<Side>, ImportError>
    ensures list { IfOk result (λ list. list.items ≡ map mended_side sides.now) }
    ensures memory { IsOkUnless result ImportError.OutOfMemory }
{
    let list = sides.iter().map(mended_side).collect(alloc)?;
    Ok(list)
}

// The line after the changes, between the vertices with these numbers.
fn linked_line(line: &Line, numbers: &[u16]) -> Line
    requires { IsBetweenSome (length numbers.now) line.now }
    ensures { result ≡ linked_line (slice_index numbers.now) line.now }
{
    let mut linked = mended_line(line);
    linked.v1 = numbers[usize::from(line.v1)];
    linked.v2 = numbers[usize::from(line.v2)];
    linked
}

/// The lines that stay.
pub fn kept_lines(alloc: Global, drawn: &Drawn) -> Result<Vec<Line>, ImportError>
    ensures list { IfOk result (λ list. list.items ≡ kept_lines (drawn_view drawn.now)) }
    ensures memory { IsOkUnless result ImportError.OutOfMemory }
{
    let list = drawn
        .lines
        .iter()
        .filter(|line| !has_no_length(drawn, line))
        .copied()
        .collect(alloc)?;
    Ok(list)
}

/// The lines after the changes, between the vertices with these numbers.
pub fn linked_lines(
    alloc: Global,
    lines: &[Line],
    numbers: &[u16],
) -> Result<Vec<Line>, ImportError>
    requires { All (IsBetweenSome (length numbers.now)) lines.now }
    ensures list { IfOk result (λ list. list.items ≡
        map (linked_line (slice_index numbers.now)) lines.now) }
    ensures memory { IsOkUnless result ImportError.OutOfMemory }
{
    let mut list = Vec::with_capacity(alloc, lines.len())?;
    for line in lines {
        list.push(linked_line(line, numbers))?;
    }
    Ok(list)
}

/// The things that stay, after the changes.
pub fn mended_things(alloc: Global, things: &[Thing]) -> Result<Vec<Thing>, ImportError>
    ensures list { IfOk result (λ list. list.items ≡ map mended_thing (filter is_kept things.now)) }
    ensures memory { IsOkUnless result ImportError.OutOfMemory }
{
    let list = things
        .iter()
        .filter(|thing| is_kept(thing))
        .map(mended_thing)
        .collect(alloc)?;
    Ok(list)
}
