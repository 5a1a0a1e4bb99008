//! Why an area can't be drawn, and the numbers of the refusals.
ghost use Rattle.std.specs.Prelude.{◌≡◌};
ghost use Rattle.map_areas.specs.declared.error.AreaError.TheVariants.{OutOfMemory, Refused};

use lump_records::Vertex;
use map_tables::MapError;
use std::alloc::{AllocError, AllocFailed};
use std::fmt;
use thiserror::Error;

/// A part of a polygon's border, and the sector that is there; `None` is the void.
#[derive(Clone, Copy, Debug, PartialEq, Eq)]
pub struct Part {
    pub from: Vertex,
    pub to: Vertex,
    pub sector: Option<u16>,
}

/// Why an area or a pillar can't be drawn.
#[derive(Clone, Copy, Debug, PartialEq, Eq, Error)]
pub enum AreaError {
    /// A number or a name is out of its range.
    OutOfRange,
    /// The corners are no simple polygon: at this one another one stands, its edge meets another edge, or there is no
    /// area.
    NotAPolygon { corner: Vertex },
    /// An edge crosses the line, but at no whole place. This one is the nearest.
    Crossing { line: u16, near: Vertex },
    /// The border isn't in one sector, or in the void.
    SeveralSectors { first: Part, second: Part },
    /// The line lies inside, or where none may be.
    NotEmpty { line: u16 },
    /// The border of a pillar runs over the vertex.
    OverVertex { vertex: u16 },
    /// A command would be refused so: a table is full, or a line is too long.
    Refused(MapError),
    OutOfMemory,
}

impl fmt::Display for Part {
    fn fmt<W: fmt::Write>(&self, f: &mut fmt::Formatter<W>) -> fmt::Result {
        let (from, to) = (self.from, self.to);
        match self.sector {
            Some(sector) => write!(
                f,
                "sector {sector} at ({},{}) ({},{})",
                from.x, from.y, to.x, to.y
            ),
            None => write!(f, "the void at ({},{}) ({},{})", from.x, from.y, to.x, to.y),
        }
    }
}

impl fmt::Display for AreaError {
    fn fmt<W: fmt::Write>(&self, f: &mut fmt::Formatter<W>) -> fmt::Result {
        match self {
            AreaError::OutOfRange => f.write_str("a number or a name is out of its range"),
            AreaError::NotAPolygon { corner } => {
                write!(f, "no simple polygon at corner ({},{})", corner.x, corner.y)
            }
            AreaError::Crossing { line, near } => write!(
                f,
                "line {line} is crossed near ({},{}), at no whole place",
                near.x, near.y
            ),
            AreaError::SeveralSectors { first, second } if first == second => write!(f, "{first}"),
            AreaError::SeveralSectors { first, second } => write!(f, "{first}, {second}"),
            AreaError::NotEmpty { line } => write!(f, "line {line} is there"),
            AreaError::OverVertex { vertex } => write!(f, "vertex {vertex} is there"),
            AreaError::Refused(error) => write!(f, "{error}"),
            AreaError::OutOfMemory => f.write_str("out of memory"),
        }
    }
}

impl From<MapError> for AreaError {
    ghost use Rattle.map_areas.specs.Errors.{refused_as};

    ghost from_gives = { λ e a. a ≡ refused_as e };

    fn from(error: MapError) -> AreaError {
        match error {
            MapError::OutOfMemory => AreaError::OutOfMemory,
            _ => AreaError::Refused(error),
        }
    }
}

impl From<AllocError> for AreaError {
    ghost from_gives = { λ _ e. e ≡ OutOfMemory };

    fn from(_e: AllocError) -> AreaError {
        AreaError::OutOfMemory
    }
}

impl<T: Drop> From<AllocFailed<T>> for AreaError {
    ghost from_gives = { λ _ e. e ≡ OutOfMemory };

    fn from(_e: AllocFailed<T>) -> AreaError {
        AreaError::OutOfMemory
    }
}

impl AreaError {
    ghost use Rattle.map_areas.specs.Errors.{code_of};

    /// The refusal's number.
    pub fn code(&self) -> u16
        ensures { result ≡ code_of self.now }
    {
        match self {
            AreaError::OutOfRange => 2,
            AreaError::NotAPolygon { .. } => 25,
            AreaError::Crossing { .. } => 26,
            AreaError::SeveralSectors { .. } => 27,
            AreaError::NotEmpty { .. } => 28,
            AreaError::OverVertex { .. } => 28,
            AreaError::Refused(error) => error.code(),
            AreaError::OutOfMemory => 31,
        }
    }
}
