//! What prevents the build of a level of a WAD.
ghost use Rattle.std.specs.Prelude.{◌≡◌};
ghost use Rattle.wad_levels.specs.Texts.{lack_text, lump_text};
ghost use Rattle.wad_levels.specs.declared.hindrance.Hindrance.TheVariants.{OutOfMemory};

use std::alloc::{AllocError, AllocFailed};
use std::fmt;
use thiserror::Error;

/// What a build needs of a line.
#[derive(Clone, Copy, Debug)]
pub enum LineNeed {
    Vertices,
    RightSide,
    LeftSide,
    SomeLength,
    Coordinates,
    AtMostLongest,
}

/// What prevents the build of a level of a WAD. A lump's number is that of its name in `LUMP_NAMES`; lines and
/// sides have the numbers that the level gives them.
#[derive(Clone, Copy, Debug, Error)]
pub enum Hindrance {
    UdmfLevel,
    HexenLevel,
    LumpMissing(usize),
    LumpOutside(usize),
    LumpLength(usize),
    LineLacks(LineNeed, usize),
    SideSector(usize),
    NoLine,
    OutOfMemory,
}

// The name of a drawn lump.
fn lump_name(number: usize) -> &'static str
    ensures { result.now ≡ lump_text number }
{
    match number {
        0 => "THINGS",
        1 => "LINEDEFS",
        2 => "SIDEDEFS",
        3 => "VERTEXES",
        _ => "SECTORS",
    }
}

// The text about a line without it.
fn lack_of(need: LineNeed) -> &'static str
    ensures { result.now ≡ lack_text need }
{
    match need {
        LineNeed::Vertices => "has a vertex that isn't there",
        LineNeed::RightSide => "has no right side",
        LineNeed::LeftSide => "has a left side that isn't there",
        LineNeed::SomeLength => "has no length",
        LineNeed::Coordinates => "has an end outside the coordinates",
        LineNeed::AtMostLongest => "is longer than 32767",
    }
}

impl fmt::Display for Hindrance {
    ghost use Rattle.std.specs.Prelude.{Some};
    ghost use Rattle.wad_levels.specs.Texts.{hindrance_text};

    ghost output = { λ h. Some (hindrance_text h) };

    fn fmt<W: fmt::Write>(&self, f: &mut fmt::Formatter<W>) -> fmt::Result {
        match self {
            Hindrance::UdmfLevel => f.write_str("the level is one of UDMF"),
            Hindrance::HexenLevel => f.write_str("the level is one of Hexen"),
            Hindrance::LumpMissing(n) => write!(f, "{} is missing", lump_name(*n)),
            Hindrance::LumpOutside(n) => write!(f, "{} ends beyond the file", lump_name(*n)),
            Hindrance::LumpLength(n) => {
                write!(f, "{} is no whole number of records", lump_name(*n))
            }
            Hindrance::LineLacks(need, n) => write!(f, "line {n} {}", lack_of(*need)),
            Hindrance::SideSector(n) => write!(f, "side {n} has a sector that isn't there"),
            Hindrance::NoLine => f.write_str("the level has no line"),
            Hindrance::OutOfMemory => f.write_str("the program is out of memory"),
        }
    }
}

impl From<AllocError> for Hindrance {
    ghost from_gives = { λ _ e. e ≡ OutOfMemory };

    fn from(_e: AllocError) -> Hindrance {
        Hindrance::OutOfMemory
    }
}

impl<T: Drop> From<AllocFailed<T>> for Hindrance {
    ghost from_gives = { λ _ e. e ≡ OutOfMemory };

    fn from(_e: AllocFailed<T>) -> Hindrance {
        Hindrance::OutOfMemory
    }
}
