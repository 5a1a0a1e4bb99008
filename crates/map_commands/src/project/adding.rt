//! An addition that is tried at once, without a decision first.
ghost use Rattle.std.specs.Prelude.{◌≡◌, ◌≤◌, ℕ, List, [], ◌∷◌, false, true, Ok, IfNone, IfSome, IsErrOf, IsOk};
ghost use Rattle.map_tables.specs.Outcomes.{Covers, EndsEdit, least, unless};
ghost use Rattle.map_tables.specs.Projects.{body_len, project_of};
ghost use Rattle.map_tables.specs.Ranges.{IsItem};
ghost use Rattle.map_commands.specs.Grammar.{head_word};
ghost use Rattle.map_commands.specs.Spelling.{add_head, item_words};
ghost use Rattle.map_words.specs.Words.{parts};
ghost use Rattle.map_commands.specs.Step.{InRange, need_of, after, faults, number_of};
ghost use Rattle.map_commands.specs.ProjectCommands.{InProjectRange};
ghost use Rattle.map_commands.specs.ProjectLines.{LeadsTo};
ghost use Rattle.map_commands.specs.ProjectReadiness.{project_need_of};
ghost use Rattle.map_commands.specs.ProjectStep.{naming_faults, step};

use crate::additions::{line_in, sector_in, side_in, thing_in, vertex_in};
use crate::command::Command;
use crate::project::command::ProjectCommand;
use crate::project::decision::is_full;
use map_tables::{Edit, Item, MapError, Maps};

// Adds the item of a command that adds exactly one. Any other command does nothing and gives none.
#[inline(always)]
fn add_item(maps: &mut Maps, command: &Command) -> Option<Result<u32, MapError>>
    requires range { InRange command.now }
    ensures edit { IfSome result (λ added. EndsEdit added
        (unless (least (faults maps.old.tables command.now)) (after maps.old.tables command.now)
        (number_of maps.old.tables command.now)) maps.old.tables maps.new.tables) }
    ensures promised { Covers maps.old.spare (need_of command.now)
        → IfSome result (λ added. IsErrOf added MapError.OutOfMemory → ⊥) }
    ensures unnamed { IfSome result (λ _. naming_faults (project_of maps.old) command.now ≡ []) }
    ensures other { IfNone result (maps.new ≡ maps.old) }
    ensures others { maps.new.others ≡ maps.old.others }
{
    match command {
        Command::Edit(Edit::Add(item)) => Some(maps.add(*item)),
        _ => None,
    }
}

/// Adds the item of a command that adds exactly one, and answers its number. None if the command is another one, if the
/// new body would be too long, or if the map refuses the item: then the project stays.
#[inline(always)]
pub fn try_add(maps: &mut Maps, command: &ProjectCommand, cap: u32) -> Option<u32>
    requires range { InProjectRange command.now }
    requires fits { body_len (project_of maps.old) ≤ cap }
    ensures added { IfSome result
        (λ n. step (project_of maps.old) command.now cap ≡ Ok (project_of maps.new, n)) }
    ensures stays { IfNone result (project_of maps.new ≡ project_of maps.old) }
    ensures fits { body_len (project_of maps.new) ≤ cap }
    // Memory that was there for an accepted command still is.
    ensures covered { Covers maps.old.spare (project_need_of command.now)
        → IsOk (step (project_of maps.old) command.now cap)
        → IfNone result (Covers maps.new.spare (project_need_of command.now)) }
{
    let ProjectCommand::Current(edit) = command else {
        return None;
    };
    if is_full(maps, command, cap) {
        return None;
    }
    match add_item(maps, edit) {
        Some(Ok(number)) => Some(number),
        Some(Err(_)) | None => None,
    }
}

// Adds an item, unless the new body would be too long or the map refuses the item: then the project stays.
#[inline(always)]
fn add(maps: &mut Maps, item: Item, cap: u32) -> bool
    requires range { IsItem item }
    requires fits { body_len (project_of maps.old) ≤ cap }
    ensures led { result ≡ true → (line : List ℕ)
        → parts line ≡ head_word (add_head item) ∷ item_words item
        → LeadsTo cap (project_of maps.old) line (project_of maps.new) }
    ensures stays { result ≡ false → project_of maps.new ≡ project_of maps.old }
    ensures fits { body_len (project_of maps.new) ≤ cap }
{
    let command = ProjectCommand::Current(Command::Edit(Edit::Add(item)));
    match try_add(maps, &command, cap) {
        Some(_) => true,
        None => false,
    }
}

/// Adds the item of a line that adds one, as nearly all lines of a journal do. False if the line is another one, or
/// isn't accepted, or has a number of more than five digits: then the project stays, and `parse` and `apply` say what
/// becomes of the line.
#[inline(always)]
pub fn add_by(maps: &mut Maps, line: &[u8], cap: u32) -> bool
    requires fits { body_len (project_of maps.old) ≤ cap }
    ensures led { result ≡ true
        → LeadsTo cap (project_of maps.old) line.now (project_of maps.new) }
    ensures stays { result ≡ false → project_of maps.new ≡ project_of maps.old }
    ensures fits { body_len (project_of maps.new) ≤ cap }
{
    if let Some(text) = line.strip_prefix(b"side ") {
        return match side_in(text) {
            Some(side) => add(maps, Item::Side(side), cap),
            None => false,
        };
    }
    if let Some(text) = line.strip_prefix(b"line ") {
        return match line_in(text) {
            Some(line) => add(maps, Item::Line(line), cap),
            None => false,
        };
    }
    if let Some(text) = line.strip_prefix(b"vertex ") {
        return match vertex_in(text) {
            Some(vertex) => add(maps, Item::Vertex(vertex), cap),
            None => false,
        };
    }
    if let Some(text) = line.strip_prefix(b"thing ") {
        return match thing_in(text) {
            Some(thing) => add(maps, Item::Thing(thing), cap),
            None => false,
        };
    }
    if let Some(text) = line.strip_prefix(b"sector ") {
        return match sector_in(text) {
            Some(sector) => add(maps, Item::Sector(sector), cap),
            None => false,
        };
    }
    false
}
