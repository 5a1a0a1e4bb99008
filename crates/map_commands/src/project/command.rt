//! The commands of a project.
use crate::command::Command;
use lump_records::Name8;

/// A change to a project that a line of input asks for.
#[derive(Clone, Copy)]
pub enum ProjectCommand {
    /// A change to the current map.
    Current(Command),
    /// The name of the map that becomes current. If no map has it, an empty one is added at the end.
    SelectMap(Name8),
    /// The name of the map to remove.
    DropMap(Name8),
}

/// The first word of a command that selects or drops a map.
#[derive(Clone, Copy)]
pub enum MapHead {
    Select,
    Drop,
}

/// A command that is accepted, and for which the current map has memory.
#[derive(Clone, Copy)]
pub struct Ready {
    pub command: ProjectCommand,
}
