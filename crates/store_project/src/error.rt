//! Why a project could not be made, read or changed.
ghost use Rattle.std.specs.Prelude.{◌≡◌};
ghost use Rattle.store_project.specs.Refusals.{IsRefusalOf};
ghost use Rattle.store_project.specs.declared.error.ProjectError.TheVariants.{Device, OutOfMemory};

use map_commands::CommandError;
use std::fmt;
use store_disk::DeviceFault;
use thiserror::Error;

/// Why a project could not be made, read or changed.
#[derive(Clone, Copy, Debug, PartialEq, Eq, Error)]
pub enum ProjectError {
    /// The line is not a command, or the maps don't accept it.
    Refused(CommandError),
    Device,
    Reopen,
    GenerationsSpent,
    /// The place in the file of the slot or the gate that can't be read.
    Damaged { place: u64 },
    Blank,
    NotAProject,
    NotEmpty,
    BadGeometry,
    OutOfMemory,
}

// All fixed texts are written by one call, so that the proof has only one call to follow.
impl fmt::Display for ProjectError {
    ghost use Rattle.std.specs.Prelude.{Some};
    ghost use Rattle.store_project.specs.Refusals.{message_of};

    ghost output = { λ e. Some (message_of e) };

    fn fmt<W: fmt::Write>(&self, f: &mut fmt::Formatter<W>) -> fmt::Result {
        let text = match self {
            ProjectError::Refused(_) => "the line is refused",
            ProjectError::Device => "the device failed",
            ProjectError::Reopen => "the project must be opened again",
            ProjectError::GenerationsSpent => "the generations are spent",
            ProjectError::Damaged { place } => return write!(f, "damaged at {place}"),
            ProjectError::Blank => "no slot is open",
            ProjectError::NotAProject => "not a project",
            ProjectError::NotEmpty => "the file is not empty",
            ProjectError::BadGeometry => "a length is outside its limits",
            ProjectError::OutOfMemory => "out of memory",
        };
        f.write_str(text)
    }
}

impl From<DeviceFault> for ProjectError {
    ghost from_gives = { λ _ e. e ≡ Device };

    fn from(_e: DeviceFault) -> ProjectError {
        ProjectError::Device
    }
}

impl ProjectError {
    ghost use Rattle.std.specs.Prelude.{◌≡◌};
    ghost use Rattle.store_project.specs.Refusals.{code_of};

    /// The number of the refusal.
    pub fn code(&self) -> u16
        ensures { result ≡ code_of self.now }
    {
        match self {
            ProjectError::Refused(error) => error.code(),
            ProjectError::Device => 30,
            ProjectError::OutOfMemory => 31,
            ProjectError::Reopen => 32,
            ProjectError::GenerationsSpent => 33,
            ProjectError::Damaged { .. } => 40,
            ProjectError::Blank => 41,
            ProjectError::NotAProject => 42,
            ProjectError::NotEmpty => 43,
            ProjectError::BadGeometry => 44,
        }
    }
}

// The refusal of a line.
pub fn refusal_of(error: CommandError) -> ProjectError
    ensures { IsRefusalOf result error }
{
    match error {
        CommandError::OutOfMemory => ProjectError::OutOfMemory,
        error => ProjectError::Refused(error),
    }
}
