//! Why a level is no map, whatever is changed of it.
ghost use Rattle.std.specs.Prelude.{◌≡◌};
ghost use Rattle.wad_import.specs.Texts.{kind_text};
ghost use Rattle.wad_import.specs.declared.error.ImportError.TheVariants.{OutOfMemory};

use map_tables::Kind;
use std::alloc::{AllocError, AllocFailed};
use std::fmt;
use thiserror::Error;
use wad_levels::Hindrance;

/// Why a level is no map, whatever is changed of it. Item numbers are those of the level.
#[derive(Clone, Copy, Debug, Error)]
pub enum ImportError {
    Hindered(Hindrance),
    NoMarker,
    TooMany(Kind),
    VertexOutside(usize),
    SectorName(usize),
    SectorNumber(usize),
    SideName(usize),
    LineNumber(usize),
    OutOfMemory,
}

// What the items of a kind are called.
fn kind_text(kind: Kind) -> &'static str
    ensures { result.now ≡ kind_text kind }
{
    match kind {
        Kind::Vertex => "vertices",
        Kind::Sector => "sectors",
        Kind::Side => "sides",
        Kind::Line => "lines",
        Kind::Thing => "things",
    }
}

impl fmt::Display for ImportError {
    ghost use Rattle.std.specs.Prelude.{Some};
    ghost use Rattle.wad_import.specs.Texts.{import_refusal_text};

    ghost output = { λ e. Some (import_refusal_text e) };

    fn fmt<W: fmt::Write>(&self, f: &mut fmt::Formatter<W>) -> fmt::Result {
        match self {
            ImportError::Hindered(hindrance) => write!(f, "{hindrance}"),
            ImportError::NoMarker => f.write_str("the level has a name that no map may have"),
            ImportError::TooMany(kind) => {
                write!(
                    f,
                    "the level has more {} than a map holds",
                    kind_text(*kind)
                )
            }
            ImportError::VertexOutside(n) => write!(f, "vertex {n} is outside the coordinates"),
            ImportError::SectorName(n) => write!(f, "sector {n} has a name that no flat may have"),
            ImportError::SectorNumber(n) => write!(f, "sector {n} has a special or tag below 0"),
            ImportError::SideName(n) => write!(f, "side {n} has a name that no texture may have"),
            ImportError::LineNumber(n) => write!(
                f,
                "line {n} has flags, special or tag above 32767"
            ),
            ImportError::OutOfMemory => f.write_str("the program is out of memory"),
        }
    }
}

impl From<AllocError> for ImportError {
    ghost from_gives = { λ _ e. e ≡ OutOfMemory };

    fn from(_e: AllocError) -> ImportError {
        ImportError::OutOfMemory
    }
}

impl<T: Drop> From<AllocFailed<T>> for ImportError {
    ghost from_gives = { λ _ e. e ≡ OutOfMemory };

    fn from(_e: AllocFailed<T>) -> ImportError {
        ImportError::OutOfMemory
    }
}
