//! Which lines are commands of a project.
ghost use Rattle.std.specs.Prelude.{◌≡◌, [], ◌∷◌, ◌≤◌, None, Some, Ok, IfOk, IfSome, length, option_copied};
ghost use Rattle.lump_records.specs.Names.{is_marker};
ghost use Rattle.map_commands.specs.Errors.{TellsFault};
ghost use Rattle.map_commands.specs.Grammar as of_one_map;
ghost use Rattle.map_commands.specs.Places.{Named, places_fault};
ghost use Rattle.map_commands.specs.ProjectCommands.{InProjectRange, map_word, project_spelling, project_words_of};
ghost use Rattle.map_commands.specs.ProjectGrammar.{project_fault_of, map_head_of};
ghost use Rattle.map_commands.specs.declared.project.command.ProjectCommand.{ProjectCommand};
ghost use Rattle.map_commands.specs.Views.{reading};
ghost use Rattle.map_words.specs.Words.{parts_behind};

use crate::error::CommandError;
use crate::grammar;
use crate::project::command::{MapHead, ProjectCommand};
use crate::unread::UnreadWords;
use map_words::next_part;

// The length of the longest line that can be a command, in bytes.
const LONGEST_LINE: usize = 256;

/// The spelling of a first word that a name of a map follows.
pub fn map_text(head: MapHead) -> &'static str
    ensures { result.now ≡ map_word head }
{
    match head {
        MapHead::Select => "map",
        MapHead::Drop => "drop-map",
    }
}

// Which of these first words this is, if it is one.
fn map_head_in(word: &[u8]) -> Option<MapHead>
    ensures value { result ≡ map_head_of word.now }
    ensures text { IfSome result (λ h. map_word h ≡ word.now) }
{
    match word {
        b"map" => Some(MapHead::Select),
        b"drop-map" => Some(MapHead::Drop),
        _ => None,
    }
}

// Reads the command that begins with such a first word.
fn map_command(head: MapHead, words: UnreadWords) -> Result<ProjectCommand, CommandError>
    requires { (reading words).fault ≡ None }
    ensures ok { IfOk result
        (λ c. (map_word head ∷ (reading words.entry).words ≡ project_words_of c)
        × InProjectRange c) }
    ensures fault { TellsFault result
        (places_fault (Named is_marker ∷ []) (reading words.entry).words) }
{
    match words.map_name() {
        Ok(name) => match head {
            MapHead::Select => Ok(ProjectCommand::SelectMap(name)),
            MapHead::Drop => Ok(ProjectCommand::DropMap(name)),
        },
        Err(error) => Err(error),
    }
}

// Reads a command of the current map from its first word and the rest of its line.
fn edit(word: &[u8], rest: Option<&[u8]>) -> Result<ProjectCommand, CommandError>
    ensures ok { IfOk result
        (λ c. (word.now ∷ parts_behind (option_copied rest.entry) ≡ project_words_of c)
        × InProjectRange c) }
    ensures fault { TellsFault result
        (of_one_map.command_fault (word.now ∷ parts_behind (option_copied rest.entry))) }
{
    match grammar::read(word, rest) {
        Ok(command) => Ok(ProjectCommand::Current(command)),
        Err(error) => Err(error),
    }
}

// Reads a line as a command, or says what is wrong with it.
fn read(line: &[u8]) -> Result<ProjectCommand, CommandError>
    ensures ok { IfOk result (λ c. (line.now ≡ project_spelling c) × InProjectRange c) }
    ensures fault { TellsFault result (project_fault_of line.now) }
{
    if line.len() > LONGEST_LINE {
        return Err(CommandError::NotACommand);
    }
    let (word, rest) = next_part(line);
    match map_head_in(word) {
        Some(head) => map_command(head, UnreadWords::new(rest)),
        None => edit(word, rest),
    }
}

/// Reads a line as a command. If it is not one, the refusal is `NotACommand`, or else the leftmost `OutOfRange` or
/// `BadName`. It allocates no memory.
pub fn parse(line: &[u8]) -> Result<ProjectCommand, CommandError>
    ensures ok { IfOk result (λ c. (line.now ≡ project_spelling c) × InProjectRange c) }
    ensures all { (c : ProjectCommand) → InProjectRange c → line.now ≡ project_spelling c
        → result ≡ Ok c }
    ensures fault { TellsFault result (project_fault_of line.now) }
    ensures short { IfOk result (λ _. length line.now ≤ 256) }
{
    read(line)
}
