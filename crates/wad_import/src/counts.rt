//! How many items a level has, and the first table with too many.
ghost use Rattle.std.specs.Prelude.{◌≡◌, ◌+◌, filter, length, max};
ghost use Rattle.std.specs.Option.{option_or};
ghost use Rattle.lump_records.specs.Limits.{item_limit};
ghost use Rattle.map_tables.specs.declared.kind.Kind.TheVariants as kind;
ghost use Rattle.wad_import.specs.Mended.{is_kept};
ghost use Rattle.wad_levels.specs.Drawn.{drawn_view};
ghost use Rattle.wad_import.specs.Imported.{kept_lines, kept_things, line_reach, reached_vertices, vertex_reach};
ghost use Rattle.wad_import.specs.Refused.{count_refusal, excess};

use crate::error::ImportError;
use crate::mended::is_kept;
use lump_records::{ITEM_LIMIT, Line, SECTOR_LIMIT, Thing, Vertex};
use map_tables::Kind;
use wad_levels::{Drawn, has_no_length};

// One more than the number.
fn behind(n: u16) -> usize
    ensures { result ≡ n + 1 }
{
    usize::from(n) + 1
}

// The greater of two numbers.
fn greater(a: usize, b: usize) -> usize
    ensures { result ≡ max a b }
{
    if a < b { b } else { a }
}

// One more than the greater of a line's two vertex numbers, or 0 if the line is left out.
fn line_reach(drawn: &Drawn, line: &Line) -> usize
    ensures { result ≡ line_reach (drawn_view drawn.now) line.now }
{
    if has_no_length(drawn, line) {
        return 0;
    }
    greater(behind(line.v1), behind(line.v2))
}

// One more than the greatest vertex number of the lines that stay, or 0.
fn vertex_reach(drawn: &Drawn) -> usize
    ensures { result ≡ vertex_reach (kept_lines (drawn_view drawn.now)) }
{
    let mut reach = 0;
    for line in &drawn.lines {
        reach = greater(line_reach(drawn, line), reach);
    }
    reach
}

/// The vertices up to the last one that a line which stays uses.
pub fn reached_vertices(drawn: &Drawn) -> &[Vertex]
    ensures { result.now ≡ reached_vertices (drawn_view drawn.now) }
{
    let reach = vertex_reach(drawn).min(drawn.vertices.len());
    &drawn.vertices[..reach]
}

// How many lines stay.
fn line_count(drawn: &Drawn) -> usize
    ensures { result ≡ length (kept_lines (drawn_view drawn.now)) }
{
    drawn
        .lines
        .iter()
        .filter(|line| !has_no_length(drawn, line))
        .count()
}

// How many things stay.
fn kept_count(things: &[Thing]) -> usize
    ensures { result ≡ length (filter is_kept things.now) }
{
    things.iter().filter(|thing| is_kept(thing)).count()
}

// The refusal if these are more items than a map holds.
fn excess(kind: Kind, limit: usize, count: usize) -> Option<ImportError>
    ensures { result ≡ excess kind limit count }
{
    if limit < count {
        return Some(ImportError::TooMany(kind));
    }
    None
}

/// The first of two refusals.
pub fn first_of(first: Option<ImportError>, second: Option<ImportError>) -> Option<ImportError>
    ensures { result ≡ option_or first second }
{
    match first {
        Some(error) => Some(error),
        None => second,
    }
}

// Too many lines, or too many things.
fn last_excess(drawn: &Drawn) -> Option<ImportError>
    ensures { result ≡ option_or
        (excess kind.Line item_limit (length (kept_lines (drawn_view drawn.now))))
        (excess kind.Thing item_limit (length (kept_things (drawn_view drawn.now)))) }
{
    first_of(
        excess(Kind::Line, ITEM_LIMIT, line_count(drawn)),
        excess(Kind::Thing, ITEM_LIMIT, kept_count(&drawn.things)),
    )
}

/// The first table with too many items.
pub fn count_refusal(drawn: &Drawn) -> Option<ImportError>
    ensures { result ≡ count_refusal (drawn_view drawn.now) }
{
    let sides = first_of(
        excess(Kind::Side, ITEM_LIMIT, drawn.sides.len()),
        last_excess(drawn),
    );
    let sectors = first_of(
        excess(Kind::Sector, SECTOR_LIMIT, drawn.sectors.len()),
        sides,
    );
    first_of(
        excess(Kind::Vertex, ITEM_LIMIT, reached_vertices(drawn).len()),
        sectors,
    )
}
