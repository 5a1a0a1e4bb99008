//! Where on the map to look for the subject of a warning.
ghost use Rattle.std.specs.Prelude.{◌≡◌};
ghost use Rattle.map_lint.specs.Whereabouts.{at_thing, along_line, whereabouts_of};

use crate::warning::Rule;
use lump_records::Vertex;
use map_tables::Map;

/// Where on the map to look. A sector has only its number, and what is missing has no place.
#[derive(Clone, Copy, Debug, PartialEq, Eq)]
pub enum Whereabouts {
    Unplaced,
    /// At the place of a thing.
    At(Vertex),
    /// Between the ends of a line, the first of which is V1.
    Between(Vertex, Vertex),
}

// Where the thing with the number stands.
fn at_thing(map: &Map, n: u32) -> Whereabouts
    ensures { result ≡ at_thing map.now.tables n }
{
    match map.thing(n) {
        Some(thing) => Whereabouts::At(thing.place()),
        None => Whereabouts::Unplaced,
    }
}

// Where the ends of the line with the number are.
fn along_line(map: &Map, n: u32) -> Whereabouts
    ensures { result ≡ along_line map.now.tables n }
{
    match map.line(n) {
        Some(line) => {
            let (from, to) = map.ends_of(&line);
            Whereabouts::Between(from, to)
        }
        None => Whereabouts::Unplaced,
    }
}

/// Where to look for item n, which breaks the rule.
#[tactic(auto, unfolding(crate::specs::Whereabouts::whereabouts_of))]
pub(crate) fn whereabouts_of(map: &Map, rule: Rule, n: u32) -> Whereabouts
    ensures { result ≡ whereabouts_of map.now.tables rule n }
{
    match rule {
        Rule::OneStart => at_thing(map, n),
        Rule::ThingKnown => at_thing(map, n),
        Rule::ThingInside => at_thing(map, n),
        Rule::ThingFree => at_thing(map, n),
        Rule::TagGiven => along_line(map, n),
        Rule::TagOfSector => along_line(map, n),
        Rule::LineSpecialKnown => along_line(map, n),
        Rule::TextureShows => along_line(map, n),
        Rule::LinesApart => along_line(map, n),
        Rule::DoorBacked => along_line(map, n),
        Rule::DonutBacked => along_line(map, n),
        Rule::ScrollsFit => along_line(map, n),
        Rule::TeleportLands => along_line(map, n),
        Rule::KeyGiven => along_line(map, n),
        Rule::TextureKnown => along_line(map, n),
        Rule::TextureReaches => along_line(map, n),
        Rule::PatchesApart => along_line(map, n),
        _ => Whereabouts::Unplaced,
    }
}
