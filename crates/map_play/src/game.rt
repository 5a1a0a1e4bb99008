//! What decides whether a game of a map goes on, and the tests that use it.
ghost use Rattle.std.specs.Prelude.{◌≡◌, IfOk};
ghost use Rattle.map_plane.specs.Bands.{AreFiledLines};
ghost use Rattle.map_play.specs.Donuts.{is_donut_gap};
ghost use Rattle.map_play.specs.Game.{AreGameFacts};
ghost use Rattle.map_play.specs.Locks.{stays_locked};
ghost use Rattle.map_play.specs.Neighbours.{overfills_list};
ghost use Rattle.map_play.specs.Scrolls.{is_scroll_too_many};
ghost use Rattle.map_play.specs.Stuck.{is_stuck};
ghost use Rattle.map_play.specs.Teleports.{leads_nowhere};

use crate::crowds::file_solids;
use crate::donuts::{donut_gaps, is_gap};
use crate::exits::has_exit;
use crate::items::{lines_of, sectors_of, things_of};
use crate::locks::{Keys, keys_of, lacks_key};
use crate::neighbours::has_too_many_higher;
use crate::scrolls::{is_one_too_many, scrolling};
use crate::sided::{SidedLine, sided_lines};
use crate::specials::RAISERS;
use crate::stuck::is_stuck_among;
use crate::tags::{special_tags, tags_of_sectors};
use crate::teleports::{landing_tags, lands_nowhere};
use lump_records::Line;
use map_plane::FiledLines;
use map_tables::Map;
use std::alloc::{AllocError, Global};

/// The tags that sectors have, the lines with the sectors on their sides, the tags of the lines that raise a floor to
/// the next higher one, the lines that lack a side which a donut needs, the lines that scroll, the tags of the sectors
/// with landings, whether something ends the level, the colours of its keys, and its solid things as points in bands of
/// rows.
#[derive(Drop)]
pub struct GameFacts {
    pub sector_tags: Vec<bool>,
    pub sided: Vec<SidedLine>,
    pub raiser_tags: Vec<bool>,
    pub donut_gaps: Vec<u32>,
    pub scrolling: Vec<u32>,
    pub landing_tags: Vec<bool>,
    pub has_exit: bool,
    pub keys: Keys,
    pub solids: FiledLines,
}

/// What decides whether a game of the map goes on. The lines are those of the map, in their bands.
pub fn game_facts(alloc: Global, map: &Map, filed: &FiledLines) -> Result<GameFacts, AllocError>
    requires { AreFiledLines map.now.tables filed.now }
    ensures { IfOk result (AreGameFacts map.now.tables) }
{
    let lines = lines_of(alloc, map)?;
    let sectors = sectors_of(alloc, map)?;
    let things = things_of(alloc, map)?;
    let sector_tags = tags_of_sectors(alloc, map)?;
    let sided = sided_lines(alloc, map)?;
    let raiser_tags = special_tags(alloc, map, &RAISERS)?;
    let donut_gaps = donut_gaps(alloc, map, &sided)?;
    let scrolling = scrolling(alloc, map)?;
    let landing_tags = landing_tags(alloc, map, filed)?;
    let has_exit = has_exit(map, &lines, &sectors, &things);
    let keys = keys_of(&things);
    let solids = file_solids(alloc, map)?;
    Ok(GameFacts {
        sector_tags,
        sided,
        raiser_tags,
        donut_gaps,
        scrolling,
        landing_tags,
        has_exit,
        keys,
        solids,
    })
}

/// Whether line n lacks a side that a donut needs.
pub fn is_donut_gap(map: &Map, game: &GameFacts, n: u32) -> bool
    requires { AreGameFacts map.now.tables game.now }
    ensures { result ≡ is_donut_gap map.now.tables n }
{
    is_gap(&game.donut_gaps, n)
}

/// Whether line n is the 65th that scrolls.
pub fn is_scroll_too_many(map: &Map, game: &GameFacts, n: u32) -> bool
    requires { AreGameFacts map.now.tables game.now }
    ensures { result ≡ is_scroll_too_many map.now.tables n }
{
    is_one_too_many(&game.scrolling, n)
}

/// Whether the line is a teleporter, sectors have its tag, which isn't 0, and no landing belongs to one of them.
pub fn leads_nowhere(map: &Map, game: &GameFacts, line: &Line) -> bool
    requires { AreGameFacts map.now.tables game.now }
    ensures { result ≡ leads_nowhere map.now.tables line.now }
{
    lands_nowhere(map, &game.sector_tags, &game.landing_tags, line)
}

/// Whether the line is a door that a key opens, and there is no such key.
pub fn stays_locked(map: &Map, game: &GameFacts, line: &Line) -> bool
    requires { AreGameFacts map.now.tables game.now }
    ensures { result ≡ stays_locked map.now.tables.things line.now }
{
    lacks_key(map, game.keys, line)
}

/// Whether sector n rises to the next higher floor, and across more than 22 lines lies a sector with a higher one.
pub fn overfills_list(map: &Map, game: &GameFacts, n: u32) -> bool
    requires { AreGameFacts map.now.tables game.now }
    ensures { result ≡ overfills_list map.now.tables n }
{
    has_too_many_higher(map, &game.raiser_tags, &game.sided, n)
}

/// Whether thing n is stuck: it is a player's start or a monster, and a line or another solid thing holds it.
pub fn is_stuck(map: &Map, filed: &FiledLines, game: &GameFacts, n: u32) -> bool
    requires filed { AreFiledLines map.now.tables filed.now }
    requires game { AreGameFacts map.now.tables game.now }
    ensures { result ≡ is_stuck map.now.tables n }
{
    is_stuck_among(map, filed, &game.solids, n)
}
