//! Cutting a line of a map in two by edits of its items.
ghost use Rattle.std.specs.Prelude.{◌≡◌, ◌≤◌, IfErr, IfOk, None, Ok, OnOk, Some, slice_get};
ghost use Rattle.map_areas.specs.Drawn.{IsFaultOf, TakesCommand};
ghost use Rattle.map_areas.specs.Errors.{IsOfMemory};
ghost use Rattle.map_commands.specs.Splits.{split_faults};
ghost use Rattle.map_commands.specs.declared.command.Command.TheVariants as command;
ghost use Rattle.map_tables.specs.EditFaults.{edit_faults};
ghost use Rattle.map_tables.specs.Edits.{edited};
ghost use Rattle.map_tables.specs.Outcomes.{least};
ghost use Rattle.map_tables.specs.Ranges.{IsEdit, IsVertex};

use crate::error::AreaError;
use lump_records::Line;
use map_commands::{Command, LineSplit, can_do};
use map_tables::{Edit, Item, Kind, Map};

// Makes an edit that the map accepts, if there is memory.
#[tactic(auto, using(crate::proofs::Refused::edit_memory))]
fn make(map: &mut Map, edit: Edit) -> Result<u32, AreaError>
    requires range { IsEdit edit }
    requires accepted { least (edit_faults map.old.tables edit) ≡ None }
    ensures made { IfOk result (λ n. edited map.old.tables edit ≡ Ok (map.new.tables, n)) }
    ensures refused { IfErr result IsOfMemory }
{
    let number = map.edit(edit)?;
    Ok(number)
}

// Cuts a line in two, which the map accepts, by three edits.
fn cut(map: &mut Map, split: &LineSplit, line: &Line) -> Result<(), AreaError>
    requires range { (split.now.line ≤ 32766) × IsVertex split.now.at }
    requires line { slice_get map.old.tables.lines split.now.line ≡ Some line.now }
    requires accepted { least (split_faults map.old.tables split.now) ≡ None }
    ensures taken { OnOk result
        (TakesCommand map.old.tables (command.Split split.now) map.new.tables) }
    ensures refused { IfErr result IsOfMemory }
{
    let vertex = map.count(Kind::Vertex) as u16;
    let short = Line {
        v2: vertex,
        ..*line
    };
    let rest = Line {
        v1: vertex,
        ..*line
    };
    make(map, Edit::Add(Item::Vertex(split.at)))?;
    make(map, Edit::Set(split.line, Item::Line(short)))?;
    make(map, Edit::Add(Item::Line(rest)))?;
    Ok(())
}

/// Cuts this line of a map, which has the number that the command names, in two.
pub(crate) fn try_split(map: &mut Map, split: &LineSplit, line: &Line) -> Result<(), AreaError>
    requires range { (split.now.line ≤ 32766) × IsVertex split.now.at }
    requires line { slice_get map.old.tables.lines split.now.line ≡ Some line.now }
    ensures taken { OnOk result
        (TakesCommand map.old.tables (command.Split split.now) map.new.tables) }
    ensures refused { IfErr result (IsFaultOf map.old.tables (command.Split split.now)) }
{
    let command = Command::Split(*split);
    can_do(map, &command)?;
    cut(map, split, line)
}
