//! How many items are added to each table, and whether a table has room for them.
ghost use Rattle.std.specs.Prelude.{◌≡◌, ◌+◌, ◌≤◌, nat_lt};
ghost use Rattle.map_tables.specs.Outcomes.{one_of};
ghost use Rattle.map_tables.specs.Tables.{count_of, kind_of_item, table_limit};
ghost use Rattle.map_commands.specs.Step.{growth_of};

use map_tables::{Item, Kind, Map, Need};

/// No item.
pub const NO_NEED: Need = Need {
    vertices: 0,
    sectors: 0,
    sides: 0,
    lines: 0,
    things: 0,
};

/// One item, in its table.
#[inline(always)]
pub fn one_of(item: &Item) -> Need
    ensures { result ≡ one_of (kind_of_item item.now) }
{
    match item {
        Item::Vertex(_) => Need {
            vertices: 1,
            ..NO_NEED
        },
        Item::Sector(_) => Need {
            sectors: 1,
            ..NO_NEED
        },
        Item::Side(_) => Need {
            sides: 1,
            ..NO_NEED
        },
        Item::Line(_) => Need {
            lines: 1,
            ..NO_NEED
        },
        Item::Thing(_) => Need {
            things: 1,
            ..NO_NEED
        },
    }
}

/// By how many bytes these items lengthen a body.
#[inline(always)]
pub fn growth_of(need: Need) -> u64
    ensures { result ≡ growth_of need }
{
    10 * u64::from(need.things)
        + 14 * u64::from(need.lines)
        + 30 * u64::from(need.sides)
        + 4 * u64::from(need.vertices)
        + 26 * u64::from(need.sectors)
}

/// Whether a map has no room for `more` further items of a kind.
pub fn lacks_room(map: &Map, kind: Kind, more: u32) -> bool
    requires { more ≤ 4 }
    ensures { result ≡ nat_lt (table_limit kind) (count_of map.now.tables kind + more) }
{
    map.count(kind) + more > kind.limit()
}
