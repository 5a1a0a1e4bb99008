//! The line of each command of a project.
ghost use Rattle.std.specs.Prelude.{◌≡◌, [], ◌∷◌, IfOk, IsOkUnless};
ghost use Rattle.std.specs.List.{join_with_byte};
ghost use Rattle.lump_records.specs.Names.{IsNamed, is_marker, name_text};
ghost use Rattle.map_commands.specs.ProjectCommands.{InProjectRange, map_word, project_spelling};

use crate::error::CommandError;
use crate::grammar;
use crate::project::command::{MapHead, ProjectCommand};
use crate::project::grammar::map_text;
use crate::text::Text;
use lump_records::Name8;
use std::alloc::Global;

// The line of a command that names a map.
#[tactic(auto, using(crate::proofs::Padding::marker_utf8))]
fn line(alloc: Global, head: MapHead, name: &Name8) -> Result<Vec<u8>, CommandError>
    requires { IsNamed is_marker name.now }
    ensures spelling { IfOk result
        (λ v. v.items ≡ join_with_byte 32 (map_word head ∷ name_text name.now ∷ [])) }
    ensures memory { IsOkUnless result CommandError.OutOfMemory }
{
    let text = Text::new(alloc, map_text(head))?;
    Ok(text.name(name)?.into_bytes())
}

/// Prints a command as its line, without a line end. `parse` reads no other line as this command.
pub fn print(alloc: Global, command: &ProjectCommand) -> Result<Vec<u8>, CommandError>
    requires { InProjectRange command.now }
    ensures spelling { IfOk result (λ v. v.items ≡ project_spelling command.now) }
    ensures memory { IsOkUnless result CommandError.OutOfMemory }
{
    match command {
        ProjectCommand::Current(edit) => grammar::print(alloc, edit),
        ProjectCommand::SelectMap(name) => line(alloc, MapHead::Select, name),
        ProjectCommand::DropMap(name) => line(alloc, MapHead::Drop, name),
    }
}
