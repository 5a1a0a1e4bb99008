//! What is counted before the rules are tested.
ghost use Rattle.std.specs.Prelude.{IfOk};
ghost use Rattle.map_lint.specs.Facts.{AreFacts};

use crate::areas::areas_of;
use crate::borders::bordered_sectors;
use crate::error::LintError;
use crate::starts::starts_of;
use crate::tags::tags_of_lines;
use map_plane::{FiledLines, crossed_lines, file_lines};
use map_play::{GameFacts, game_facts};
use map_tables::Map;
use std::alloc::Global;

/// The tags that lines have, how many things have each type below 5, which sectors have a border, twice the area of
/// each sector, the lines in bands of rows, which lines meet another one, and what decides whether a game goes on.
#[derive(Drop)]
pub(crate) struct Facts {
    pub line_tags: Vec<bool>,
    pub starts: Vec<u32>,
    pub bordered: Vec<bool>,
    pub areas: Vec<i128>,
    pub filed: FiledLines,
    pub crossed: Vec<bool>,
    pub game: GameFacts,
}

/// The facts of the map.
pub(crate) fn facts_of(alloc: Global, map: &Map) -> Result<Facts, LintError>
    ensures { IfOk result (AreFacts map.now.tables) }
{
    let line_tags = tags_of_lines(alloc, map)?;
    let starts = starts_of(alloc, map)?;
    let bordered = bordered_sectors(alloc, map)?;
    let areas = areas_of(alloc, map)?;
    let filed = file_lines(alloc, map)?;
    let crossed = crossed_lines(alloc, map)?;
    let game = game_facts(alloc, map, &filed)?;
    Ok(Facts {
        line_tags,
        starts,
        bordered,
        areas,
        filed,
        crossed,
        game,
    })
}
