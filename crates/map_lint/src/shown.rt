//! What a warning names beside its item: a surface, and the texture or flat on it.
use crate::name_text::name_shown;
use crate::wall::{Part, Surface};
use lump_records::Name8;
use std::fmt;

/// A surface, and the name of its texture or flat.
#[derive(Clone, Copy, Debug, PartialEq, Eq)]
pub struct Shown {
    pub surface: Surface,
    pub name: Name8,
}

ghost use Rattle.std.specs.Prelude.{◌≡◌};
ghost use Rattle.map_checks.specs.Texts.{side_text};
ghost use Rattle.map_lint.specs.Surfaces.{wall_part_text};

// The words for a part of a side.
fn wall_part_text(part: Part) -> &'static str
    ensures { result.now ≡ wall_part_text part }
{
    match part {
        Part::Upper => "upper",
        Part::Lower => "lower",
        Part::Middle => "middle",
    }
}

// The word for a side.
fn side_text(is_left: bool) -> &'static str
    ensures { result.now ≡ side_text is_left }
{
    if is_left { "left" } else { "right" }
}

impl fmt::Display for Surface {
    ghost use Rattle.std.specs.Prelude.{Some};
    ghost use Rattle.map_lint.specs.Surfaces.{surface_text};

    ghost output = { λ s. Some (surface_text s) };

    fn fmt<W: fmt::Write>(&self, f: &mut fmt::Formatter<W>) -> fmt::Result {
        match *self {
            Surface::Floor => f.write_str("floor"),
            Surface::Ceiling => f.write_str("ceiling"),
            Surface::OfLine(wall) => {
                let side = side_text(wall.is_left);
                let part = wall_part_text(wall.part);
                write!(f, "{side} {part}")
            }
        }
    }
}

impl fmt::Display for Shown {
    ghost use Rattle.std.specs.Prelude.{Some};
    ghost use Rattle.map_lint.specs.Surfaces.{named_surface_text};

    ghost output = { λ s. Some (named_surface_text s) };

    fn fmt<W: fmt::Write>(&self, f: &mut fmt::Formatter<W>) -> fmt::Result {
        let surface = self.surface;
        let name = name_shown(&self.name);
        write!(f, "{surface} {name}")
    }
}
