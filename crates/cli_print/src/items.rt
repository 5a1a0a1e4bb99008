//! The items of a map that a finding or a warning is about.
ghost use Rattle.std.specs.Prelude.{◌≡◌, ◌∷◌, []};
ghost use Rattle.cli_print.specs.Origins.{items_in, items_of_finding, items_of_warning, kind_of_rule, map_item};

use map_checks::Finding;
use map_lint::{Rule, Warning};
use map_tables::Kind;

/// An item of a map.
#[derive(Clone, Copy)]
pub(crate) struct Item {
    pub kind: Kind,
    pub number: u32,
}

/// What a finding or a warning is about: the map as a whole, or one or two items of it.
#[derive(Clone, Copy)]
pub(crate) enum About {
    WholeMap,
    One(Item),
    Two(Item, Item),
}

// About the item of a kind with a number.
fn one(kind: Kind, number: u32) -> About
    ensures { items_in result ≡ map_item kind number ∷ [] }
{
    About::One(Item { kind, number })
}

/// What a finding is about.
pub(crate) fn about_finding(finding: &Finding) -> About
    ensures { items_in result ≡ items_of_finding finding.now }
{
    match *finding {
        Finding::VertexUnused(n) => one(Kind::Vertex, n),
        Finding::SideUnused(n) => one(Kind::Side, n),
        Finding::SectorUnused(n) => one(Kind::Sector, n),
        Finding::TextureMissing { line, .. } => one(Kind::Line, line),
        Finding::SectorOpen { sector, vertex } => About::Two(
            Item {
                kind: Kind::Sector,
                number: sector,
            },
            Item {
                kind: Kind::Vertex,
                number: vertex,
            },
        ),
        Finding::NoPlayerStart => About::WholeMap,
    }
}

// The kind of the items that a rule is about, if it isn't about the whole map.
fn kind_of_rule(rule: Rule) -> Option<Kind>
    ensures { result ≡ kind_of_rule rule }
{
    match rule {
        Rule::PlayerStart | Rule::DeathmatchStarts | Rule::LevelEnds => None,
        Rule::CeilingAboveFloor
        | Rule::TagOfLine
        | Rule::SectorSpecialKnown
        | Rule::SectorInside
        | Rule::NeighboursFit
        | Rule::FlatKnown => Some(Kind::Sector),
        Rule::OneStart | Rule::ThingKnown | Rule::ThingInside | Rule::ThingFree => {
            Some(Kind::Thing)
        }
        _ => Some(Kind::Line),
    }
}

/// What a warning is about.
pub(crate) fn about_warning(warning: &Warning) -> About
    ensures { items_in result ≡ items_of_warning warning.now }
{
    match kind_of_rule(warning.rule) {
        Some(kind) => one(kind, warning.number),
        None => About::WholeMap,
    }
}
