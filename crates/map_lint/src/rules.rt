//! Whether an item of a map breaks a rule.
ghost use Rattle.std.specs.Prelude.{◌≡◌, not};
ghost use Rattle.map_tables.specs.WellFormed.{HasSides};
ghost use Rattle.map_checks.specs.Textures.{is_missing};
ghost use Rattle.map_play.specs.Tags.{tag_of, MarksTags};
ghost use Rattle.map_lint.specs.Tallies.{MarksBordered, AreAreas};
ghost use Rattle.map_lint.specs.Tags.{line_tag, tag_of_no_sector, tag_of_no_line, needs_line};
ghost use Rattle.map_lint.specs.Areas.{is_inside_out};
ghost use Rattle.map_plane.specs.Bands.{AreFiledLines};
ghost use Rattle.map_plane.specs.Crossed.{MarksCrossed};
ghost use Rattle.map_plane.specs.Meeting.{meets_another};
ghost use Rattle.map_plane.specs.Outside.{is_place_outside};
ghost use Rattle.lump_records.specs.Things.{thing_place};
ghost use Rattle.map_plane.specs.Places.{placed_lines};
ghost use Rattle.map_lint.specs.Facts.{AreFacts};
ghost use Rattle.map_lint.specs.Rules.{at_item, names_wall, texture_hidden, number_breaks, sector_breaks, line_breaks, thing_breaks, breaks, reach};

use crate::facts::Facts;
use crate::known::{is_known_line, is_known_sector, is_known_thing, needs_tag};
use crate::starts::{starts_twice, things_of_type};
use crate::warning::Rule;
use lump_records::{Line, Name8, Sector, Side, Thing};
use map_plane::{FiledLines, is_in_no_sector};
use map_play::{
    door_without_back, is_donut_gap, is_scroll_too_many, is_stuck, leads_nowhere, overfills_list,
    stays_locked, tag_of,
};
use map_tables::{Kind, Map};

// Whether the line's special needs a tag, and no sector has the line's tag.
fn tag_of_no_sector(map: &Map, tags: &[bool], line: &Line) -> bool
    requires { MarksTags tag_of map.now.tables.sectors tags.now }
    ensures { result ≡ tag_of_no_sector map.now.tables line.now }
{
    needs_tag(line) && line.tag != 0 && !tags[usize::from(line.tag)]
}

// Whether a line should have the tag.
fn needs_line(tag: u16) -> bool
    ensures { result ≡ needs_line tag }
{
    tag != 0 && tag != 666 && tag != 667
}

// Whether a line should have the sector's tag, and none has it.
fn tag_of_no_line(map: &Map, tags: &[bool], sector: &Sector) -> bool
    requires { MarksTags line_tag map.now.tables.lines tags.now }
    ensures { result ≡ tag_of_no_line map.now.tables sector.now }
{
    let tag = tag_of(sector);
    needs_line(tag) && !tags[usize::from(tag)]
}

/// Whether the name names a texture.
pub(crate) fn names_texture(name: &Name8) -> bool
    ensures { result ≡ not (is_missing name.now) }
{
    name.text() != b"-".as_slice()
}

// Whether the side has an upper or a lower texture.
fn names_wall(side: &Side) -> bool
    ensures { result ≡ names_wall side.now }
{
    names_texture(&side.upper) || names_texture(&side.lower)
}

// Whether the line is two-sided with the same sector on both sides, and has an upper or lower texture.
fn texture_hidden(map: &Map, line: &Line) -> bool
    requires { HasSides map.now.tables.sides line.now }
    ensures { result ≡ texture_hidden map.now.tables line.now }
{
    if !line.is_two_sided() {
        return false;
    }
    let right = map.side(u32::from(line.right)).unwrap();
    let left = map.side(u32::from(line.left)).unwrap();
    right.sector == left.sector && (names_wall(&right) || names_wall(&left))
}

// Whether the sector has a border, and its edges have no area on their right.
fn is_inside_out(map: &Map, bordered: &[bool], areas: &[i128], n: u32) -> bool
    requires bordered { MarksBordered map.now.tables map.now.tables.lines bordered.now }
    requires areas { AreAreas map.now.tables areas.now }
    ensures { result ≡ is_inside_out map.now.tables n }
{
    match areas.get(n as usize) {
        Some(area) => bordered[n as usize] && !(0 < *area),
        None => false,
    }
}

// Whether there is a line n, and it meets another one.
fn is_crossed(map: &Map, crossed: &[bool], n: u32) -> bool
    requires { MarksCrossed map.now.tables crossed.now }
    ensures { result ≡ meets_another (placed_lines map.now.tables) n }
{
    match crossed.get(n as usize) {
        Some(is_crossed) => *is_crossed,
        None => false,
    }
}

// Whether the rule is one that needs only a number, and the number breaks it.
fn number_breaks(map: &Map, facts: &Facts, rule: Rule, n: u32) -> bool
    requires { AreFacts map.now.tables facts.now }
    ensures { result ≡ number_breaks map.now.tables rule n }
{
    match rule {
        Rule::PlayerStart => n == 1 && things_of_type(map, 1) == 0,
        Rule::DeathmatchStarts => 0 < n && things_of_type(map, 11) == n,
        Rule::SectorInside => is_inside_out(map, &facts.bordered, &facts.areas, n),
        Rule::LinesApart => is_crossed(map, &facts.crossed, n),
        Rule::DonutBacked => is_donut_gap(map, &facts.game, n),
        Rule::ScrollsFit => is_scroll_too_many(map, &facts.game, n),
        Rule::LevelEnds => n == 0 && !facts.game.has_exit,
        Rule::NeighboursFit => overfills_list(map, &facts.game, n),
        Rule::ThingFree => is_stuck(map, &facts.filed, &facts.game, n),
        _ => false,
    }
}

// Whether the sector breaks the rule.
fn sector_breaks(map: &Map, line_tags: &[bool], rule: Rule, sector: &Sector) -> bool
    requires { MarksTags line_tag map.now.tables.lines line_tags.now }
    ensures { result ≡ sector_breaks map.now.tables rule sector.now }
{
    match rule {
        Rule::CeilingAboveFloor => sector.ceiling < sector.floor,
        Rule::TagOfLine => tag_of_no_line(map, line_tags, sector),
        Rule::SectorSpecialKnown => !is_known_sector(sector),
        _ => false,
    }
}

// Whether the line breaks the rule.
fn line_breaks(map: &Map, facts: &Facts, rule: Rule, line: &Line) -> bool
    requires facts { AreFacts map.now.tables facts.now }
    requires sides { HasSides map.now.tables.sides line.now }
    ensures { result ≡ line_breaks map.now.tables rule line.now }
{
    match rule {
        Rule::TagGiven => needs_tag(line) && line.tag == 0,
        Rule::TagOfSector => tag_of_no_sector(map, &facts.game.sector_tags, line),
        Rule::LineSpecialKnown => !is_known_line(line),
        Rule::TextureShows => texture_hidden(map, line),
        Rule::DoorBacked => door_without_back(line),
        Rule::TeleportLands => leads_nowhere(map, &facts.game, line),
        Rule::KeyGiven => stays_locked(map, &facts.game, line),
        _ => false,
    }
}

// Whether the thing lies in no sector.
fn is_out(map: &Map, filed: &FiledLines, thing: &Thing) -> bool
    requires { AreFiledLines map.now.tables filed.now }
    ensures { result ≡ is_place_outside (placed_lines map.now.tables) (thing_place thing.now) }
{
    is_in_no_sector(filed, thing.place())
}

// Whether the thing breaks the rule.
fn thing_breaks(map: &Map, facts: &Facts, rule: Rule, thing: &Thing) -> bool
    requires { AreFacts map.now.tables facts.now }
    ensures { result ≡ thing_breaks map.now.tables rule thing.now }
{
    match rule {
        Rule::ThingKnown => !is_known_thing(thing),
        Rule::OneStart => starts_twice(map, &facts.starts, thing),
        Rule::ThingInside => is_out(map, &facts.filed, thing),
        _ => false,
    }
}

// Whether there is a sector n, and it breaks the rule.
fn sector_at_breaks(map: &Map, facts: &Facts, rule: Rule, n: u32) -> bool
    requires { AreFacts map.now.tables facts.now }
    ensures { result ≡ at_item (sector_breaks map.now.tables rule) map.now.tables.sectors n }
{
    match map.sector(n) {
        Some(sector) => sector_breaks(map, &facts.line_tags, rule, &sector),
        None => false,
    }
}

// Whether there is a line n, and it breaks the rule.
fn line_at_breaks(map: &Map, facts: &Facts, rule: Rule, n: u32) -> bool
    requires { AreFacts map.now.tables facts.now }
    ensures { result ≡ at_item (line_breaks map.now.tables rule) map.now.tables.lines n }
{
    match map.line(n) {
        Some(line) => line_breaks(map, facts, rule, &line),
        None => false,
    }
}

// Whether there is a thing n, and it breaks the rule.
fn thing_at_breaks(map: &Map, facts: &Facts, rule: Rule, n: u32) -> bool
    requires { AreFacts map.now.tables facts.now }
    ensures { result ≡ at_item (thing_breaks map.now.tables rule) map.now.tables.things n }
{
    match map.thing(n) {
        Some(thing) => thing_breaks(map, facts, rule, &thing),
        None => false,
    }
}

/// Whether number n breaks the rule.
#[tactic(auto, unfolding(crate::specs::Rules::breaks))]
pub(crate) fn breaks(map: &Map, facts: &Facts, rule: Rule, n: u32) -> bool
    requires { AreFacts map.now.tables facts.now }
    ensures { result ≡ breaks map.now.tables rule n }
{
    number_breaks(map, facts, rule, n)
        || sector_at_breaks(map, facts, rule, n)
        || line_at_breaks(map, facts, rule, n)
        || thing_at_breaks(map, facts, rule, n)
}

/// How many numbers are tested for the rule.
#[tactic(auto, unfolding(crate::specs::Rules::reach))]
pub(crate) fn reach(map: &Map, rule: Rule) -> u32
    ensures { result ≡ reach map.now.tables rule }
{
    match rule {
        Rule::PlayerStart => 2,
        Rule::DeathmatchStarts => 4,
        Rule::CeilingAboveFloor => map.count(Kind::Sector),
        Rule::TagOfLine => map.count(Kind::Sector),
        Rule::SectorSpecialKnown => map.count(Kind::Sector),
        Rule::SectorInside => map.count(Kind::Sector),
        Rule::NeighboursFit => map.count(Kind::Sector),
        Rule::FlatKnown => map.count(Kind::Sector),
        Rule::OneStart => map.count(Kind::Thing),
        Rule::ThingKnown => map.count(Kind::Thing),
        Rule::ThingInside => map.count(Kind::Thing),
        Rule::ThingFree => map.count(Kind::Thing),
        Rule::LevelEnds => 1,
        _ => map.count(Kind::Line),
    }
}
