//! Decides whether a project accepts a command, and how much the command adds.
ghost use Rattle.std.specs.Prelude.{◌≡◌, ◌+◌, ◌++◌, nat_lt};
ghost use Rattle.map_tables.specs.Outcomes.{Tells};
ghost use Rattle.map_tables.specs.Projects.{body_len, current_map, has_map, project_of};
ghost use Rattle.map_commands.specs.ProjectStep.{current_faults, map_faults, naming_faults};
ghost use Rattle.map_commands.specs.ProjectReadiness.{project_growth_of, project_need_of};
ghost use Rattle.map_commands.specs.Step.{faults};

use crate::command::Command;
use crate::need::NO_NEED;
use crate::project::command::ProjectCommand;
use crate::{command, need};
use lump_records::Name8;
use map_tables::{MapError, Maps, Need};

// Whether the current map can get the name that the command gives it, if it gives one.
fn can_be_named(maps: &Maps, command: &Command) -> Result<(), MapError>
    ensures { Tells result (naming_faults (project_of maps.now) command.now) }
{
    match command {
        Command::Name(name) => maps.can_set_name(*name),
        _ => Ok(()),
    }
}

// Whether the tables of the current map accept a change. The refusal is the one with the lowest code.
fn can_change(maps: &Maps, command: &Command) -> Result<(), MapError>
    ensures { Tells result (faults (current_map (project_of maps.now)) command.now) }
{
    command::can_do(maps.current(), command)
}

// Whether a change of the current map is accepted. The refusal is the one with the lowest code.
fn can_edit(maps: &Maps, command: &Command) -> Result<(), MapError>
    ensures { let p = project_of maps.now in
        Tells result (faults (current_map p) command.now ++ naming_faults p command.now) }
{
    match can_change(maps, command) {
        Ok(()) => can_be_named(maps, command),
        Err(error) => Err(error),
    }
}

/// Whether a command is accepted, leaving memory and the length of the body aside. The refusal is the one with the
/// lowest code.
pub fn can_do(maps: &Maps, command: &ProjectCommand) -> Result<(), MapError>
    ensures { let p = project_of maps.now in
        Tells result (current_faults p command.now ++ map_faults p command.now) }
{
    match command {
        ProjectCommand::Current(edit) => can_edit(maps, edit),
        ProjectCommand::SelectMap(name) => maps.can_select(*name),
        ProjectCommand::DropMap(name) => maps.can_drop_map(*name),
    }
}

/// How many items a command adds to each table of the current map.
pub fn need_of(command: &ProjectCommand) -> Need
    ensures { result ≡ project_need_of command.now }
{
    match command {
        ProjectCommand::Current(edit) => command::need_of(edit),
        ProjectCommand::SelectMap(_) | ProjectCommand::DropMap(_) => NO_NEED,
    }
}

// Whether some map has the name.
fn has_map(maps: &Maps, name: Name8) -> bool
    ensures { result ≡ has_map (project_of maps.now) name }
{
    maps.find(name).is_some()
}

// By how many bytes a command lengthens a body at most.
#[inline(always)]
fn growth_of(maps: &Maps, command: &ProjectCommand) -> u64
    ensures { result ≡ project_growth_of (project_of maps.now) command.now }
{
    match command {
        ProjectCommand::Current(edit) => need::growth_of(command::need_of(edit)),
        ProjectCommand::SelectMap(name) => if has_map(maps, *name) { 0 } else { 18 },
        ProjectCommand::DropMap(_) => 0,
    }
}

/// Whether the new body would be longer than `cap` bytes, if nothing else refuses the command.
#[inline(always)]
pub fn is_full(maps: &Maps, command: &ProjectCommand, cap: u32) -> bool
    ensures { let p = project_of maps.now in result
        ≡ nat_lt cap (body_len p + project_growth_of p command.now) }
{
    u64::from(maps.body_len()) + growth_of(maps, command) > u64::from(cap)
}
