//! The numbers that a name keeps: its command's answer, and the first items that the command added.
ghost use Rattle.std.specs.Prelude.{◌≡◌};
ghost use Rattle.map_script.specs.Firsts.{counts_of, first_gained, first_new, first_of, firsts_of, firsts_since};

use map_commands::{ProjectCommand, need_of};
use map_tables::{Kind, Map};

/// The number of the first item of each kind that a command added, if it added one.
#[derive(Clone, Copy)]
pub struct Firsts {
    pub vertex: Option<u32>,
    pub sector: Option<u32>,
    pub side: Option<u32>,
    pub line: Option<u32>,
    pub thing: Option<u32>,
}

/// The numbers that a name keeps.
#[derive(Clone, Copy)]
pub struct Numbers {
    /// The number that the command answered.
    pub answer: u32,
    pub firsts: Firsts,
}

/// No item.
pub const NO_FIRSTS: Firsts = Firsts {
    vertex: None,
    sector: None,
    side: None,
    line: None,
    thing: None,
};

/// How many items a map has of each kind.
#[derive(Clone, Copy)]
pub struct ItemCounts {
    pub vertices: u32,
    pub sectors: u32,
    pub sides: u32,
    pub lines: u32,
    pub things: u32,
}

impl Firsts {
    /// The number of the first item of the kind.
    pub fn of(&self, kind: Kind) -> Option<u32>
        ensures { result ≡ first_of self.now kind }
    {
        match kind {
            Kind::Vertex => self.vertex,
            Kind::Sector => self.sector,
            Kind::Side => self.side,
            Kind::Line => self.line,
            Kind::Thing => self.thing,
        }
    }
}

// The number of the first of some items that are appended to a table.
fn first_new(more: u32, before: u32) -> Option<u32>
    ensures { result ≡ first_new more before }
{
    if more == 0 { None } else { Some(before) }
}

/// The first items that a command is about to add to the current map.
pub fn firsts_of(command: &ProjectCommand, map: &Map) -> Firsts
    ensures { result ≡ firsts_of command.now map.now.tables }
{
    let need = need_of(command);
    Firsts {
        vertex: first_new(need.vertices, map.count(Kind::Vertex)),
        sector: first_new(need.sectors, map.count(Kind::Sector)),
        side: first_new(need.sides, map.count(Kind::Side)),
        line: first_new(need.lines, map.count(Kind::Line)),
        thing: first_new(need.things, map.count(Kind::Thing)),
    }
}

/// How many items the map has of each kind.
pub fn counts_of(map: &Map) -> ItemCounts
    ensures { result ≡ counts_of map.now.tables }
{
    ItemCounts {
        vertices: map.count(Kind::Vertex),
        sectors: map.count(Kind::Sector),
        sides: map.count(Kind::Side),
        lines: map.count(Kind::Line),
        things: map.count(Kind::Thing),
    }
}

// The number of the first item that a table has gained.
fn first_gained(before: u32, after: u32) -> Option<u32>
    ensures { result ≡ first_gained before after }
{
    if before < after { Some(before) } else { None }
}

/// The first item of each kind that the current map has gained since it had these counts.
pub fn firsts_since(before: &ItemCounts, map: &Map) -> Firsts
    ensures { result ≡ firsts_since before.now map.now.tables }
{
    Firsts {
        vertex: first_gained(before.vertices, map.count(Kind::Vertex)),
        sector: first_gained(before.sectors, map.count(Kind::Sector)),
        side: first_gained(before.sides, map.count(Kind::Side)),
        line: first_gained(before.lines, map.count(Kind::Line)),
        thing: first_gained(before.things, map.count(Kind::Thing)),
    }
}
