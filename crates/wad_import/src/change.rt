//! The changes that make a level a map.

use std::fmt;

/// A change of a level. Item numbers are those of the level. If a number is replaced, the old one comes before the new
/// one.
#[derive(Clone, Copy, Debug, PartialEq, Eq)]
pub enum Change {
    /// This many vertices after the last one that a line uses are left out.
    VerticesBehind(usize),
    /// A vertex at the place of an earlier one is left out; lines use the earliest one there, the second number.
    VertexAgain(usize, usize),
    /// A sector's light becomes the nearer end of 0 to 255: the sector, the old and the new light.
    Light(usize, i16, i16),
    /// A sector's flats get names in capitals, cut at the first NUL, or `-` if nothing is left.
    Flats(usize),
    /// The same for a side's textures.
    Textures(usize),
    /// A line whose ends are at one place is left out.
    LineOut(usize),
    /// A line without a left side loses flag 4 (two-sided).
    TwoSided(usize),
    /// A thing outside the coordinates, or with a negative type or options, is left out.
    ThingOut(usize),
    /// A thing's angle is taken modulo 360: the thing, the old and the new angle.
    Angle(usize, i16, i16),
}

impl fmt::Display for Change {
    ghost use Rattle.std.specs.Prelude.{Some};
    ghost use Rattle.wad_import.specs.Texts.{change_text};

    ghost output = { λ c. Some (change_text c) };

    fn fmt<W: fmt::Write>(&self, f: &mut fmt::Formatter<W>) -> fmt::Result {
        match self {
            Change::VerticesBehind(n) => write!(
                f,
                "vertices left out behind the last that a line uses: {n}"
            ),
            Change::VertexAgain(n, first) => write!(
                f,
                "vertex {n}: is at the place of vertex {first}"
            ),
            Change::Light(n, old, new) => write!(f, "sector {n}: light {old} is {new}"),
            Change::Flats(n) => write!(f, "sector {n}: flats named in capitals, up to a NUL"),
            Change::Textures(n) => write!(f, "side {n}: textures named in capitals, up to a NUL"),
            Change::LineOut(n) => write!(f, "line {n}: left out, since it has no length"),
            Change::TwoSided(n) => write!(f, "line {n}: without flag 4, since it has no left side"),
            Change::ThingOut(n) => write!(f, "thing {n}: left out"),
            Change::Angle(n, old, new) => write!(f, "thing {n}: angle {old} is {new}"),
        }
    }
}
