//! The calls that change a project: `ready` decides and allocates, `commit` then makes the change, `apply` does both.
ghost use Rattle.std.specs.Prelude.{◌≡◌, ◌≤◌, IfOk, IfErr, IsErrOf, Ok};
ghost use Rattle.map_tables.specs.Outcomes.{Covers};
ghost use Rattle.map_tables.specs.Projects.{body_len, project_of};
ghost use Rattle.map_commands.specs.ProjectCommands.{InProjectRange};
ghost use Rattle.map_commands.specs.ProjectReadiness.{CanCommit, EndsStep, RefusesStep, project_need_of};
ghost use Rattle.map_commands.specs.ProjectStep.{project_after, project_number_of, step};

use crate::command::{Command, change};
use crate::error::CommandError;
use crate::project::adding::try_add;
use crate::project::command::{ProjectCommand, Ready};
use crate::project::decision::{can_do, is_full, need_of};
use map_tables::Maps;

/// Decides whether a command may be done, and allocates all memory that it needs. The project stays as it is. The
/// refusal is the lowest of the codes 3 to 14 and 16 to 19 that apply. `cap` is the greatest length of the new body, in
/// bytes; if one of 16 to 19 applies there is no new body. A command that adds nothing to a table never lacks memory.
pub fn ready(maps: &mut Maps, command: &ProjectCommand, cap: u32) -> Result<Ready, CommandError>
    requires range { InProjectRange command.now }
    requires fits { body_len (project_of maps.old) ≤ cap }
    ensures project { project_of maps.new ≡ project_of maps.old }
    ensures same { IfOk result (λ r. r.command ≡ command.now) }
    ensures accepted { let p = project_of maps.old in
        IfOk result (λ _. step p command.now cap
        ≡ Ok (project_after p command.now, project_number_of p command.now)) }
    ensures fits { IfOk result
        (λ _. body_len (project_after (project_of maps.old) command.now) ≤ cap) }
    ensures ready { IfOk result (λ r. CanCommit maps.new r.command) }
    ensures refused { IfErr result
        (λ e. RefusesStep e (step (project_of maps.old) command.now cap)) }
    ensures promised { Covers maps.old.spare (project_need_of command.now)
        → IsErrOf result CommandError.OutOfMemory → ⊥ }
{
    if let Err(error) = can_do(maps, command) {
        return Err(CommandError::of_edit(error));
    }
    if is_full(maps, command, cap) {
        return Err(CommandError::ProjectFull);
    }
    match maps.reserve(need_of(command)) {
        Ok(()) => Ok(Ready { command: *command }),
        Err(_) => Err(CommandError::OutOfMemory),
    }
}

// Makes a change of the current map, stated as a step of the project.
fn commit_current(maps: &mut Maps, command: Command) -> u32
    requires { CanCommit maps.old (ProjectCommand.Current command) }
    ensures project { project_of maps.new
        ≡ project_after (project_of maps.old) (ProjectCommand.Current command) }
    ensures number { result
        ≡ project_number_of (project_of maps.old) (ProjectCommand.Current command) }
{
    change(maps, command)
}

/// Makes the change that `ready` has accepted, and returns its number. It allocates no memory and can't be refused.
pub fn commit(maps: &mut Maps, ready: Ready) -> u32
    requires { CanCommit maps.old ready.command }
    ensures project { project_of maps.new ≡ project_after (project_of maps.old) ready.command }
    ensures number { result ≡ project_number_of (project_of maps.old) ready.command }
{
    match ready.command {
        ProjectCommand::Current(command) => commit_current(maps, command),
        ProjectCommand::SelectMap(name) => maps.select(name).unwrap(),
        ProjectCommand::DropMap(name) => maps.drop_map(name).unwrap(),
    }
}

/// Makes the change that a command asks for, and answers its number. A refused command leaves the project as it was.
///
/// An item is added at once if the body has room for it. What that doesn't do goes through `ready` and `commit`, which
/// find the least refusal.
pub fn apply(maps: &mut Maps, command: &ProjectCommand, cap: u32) -> Result<u32, CommandError>
    requires range { InProjectRange command.now }
    requires fits { body_len (project_of maps.old) ≤ cap }
    ensures ends { let p = project_of maps.old in
        EndsStep result (step p command.now cap) p (project_of maps.new) }
    ensures fits { body_len (project_of maps.new) ≤ cap }
    ensures promised { Covers maps.old.spare (project_need_of command.now)
        → IsErrOf result CommandError.OutOfMemory → ⊥ }
{
    if let Some(number) = try_add(maps, command, cap) {
        return Ok(number);
    }
    let ready = ready(maps, command, cap)?;
    Ok(commit(maps, ready))
}
