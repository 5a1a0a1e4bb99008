//! Why a line draws no shape, and the number of each refusal.
use map_areas::AreaError;
use map_commands::CommandError;
use std::alloc::{AllocError, AllocFailed};
use std::fmt;
use thiserror::Error;

/// Why a line draws no shape.
#[derive(Clone, Copy, Debug, Error)]
pub enum ShapeError {
    /// As a command is refused.
    Command(CommandError),
    /// As an area or a pillar is refused.
    Area(AreaError),
    /// No line of the sector has another sector on its other side.
    NoDoor(u16),
}

impl fmt::Display for ShapeError {
    fn fmt<W: fmt::Write>(&self, f: &mut fmt::Formatter<W>) -> fmt::Result {
        match self {
            ShapeError::Command(error) => fmt::Display::fmt(error, f),
            ShapeError::Area(error) => fmt::Display::fmt(error, f),
            ShapeError::NoDoor(sector) => {
                write!(
                    f,
                    "no line has sector {sector} on one side and another sector on the other"
                )
            }
        }
    }
}

impl From<AllocError> for ShapeError {
    ghost use Rattle.std.specs.Prelude.{◌≡◌};
    ghost use Rattle.map_shapes.specs.Errors.{no_memory};

    ghost from_gives = { λ _ e. e ≡ no_memory };

    fn from(_e: AllocError) -> ShapeError {
        ShapeError::Command(CommandError::OutOfMemory)
    }
}

impl<T: Drop> From<AllocFailed<T>> for ShapeError {
    ghost use Rattle.std.specs.Prelude.{◌≡◌};
    ghost use Rattle.map_shapes.specs.Errors.{no_memory};

    ghost from_gives = { λ _ e. e ≡ no_memory };

    fn from(_e: AllocFailed<T>) -> ShapeError {
        ShapeError::Command(CommandError::OutOfMemory)
    }
}

impl From<CommandError> for ShapeError {
    ghost use Rattle.std.specs.Prelude.{◌≡◌};
    ghost use Rattle.map_shapes.specs.declared.error.ShapeError.TheVariants.{Command};

    ghost from_gives = { λ error e. e ≡ Command error };

    fn from(error: CommandError) -> ShapeError {
        ShapeError::Command(error)
    }
}

impl ShapeError {
    ghost use Rattle.std.specs.Prelude.{◌≡◌};
    ghost use Rattle.map_shapes.specs.Errors.{code_of};

    /// The number of the refusal.
    pub fn code(&self) -> u16
        ensures { result ≡ code_of self.now }
    {
        match self {
            ShapeError::Command(error) => error.code(),
            ShapeError::Area(error) => error.code(),
            ShapeError::NoDoor(_) => 29,
        }
    }
}
