//! A finding, and its line of text.
use std::fmt;

/// One of a side's three textures.
#[derive(Clone, Copy, Debug, PartialEq, Eq)]
pub enum Texture {
    Upper,
    Lower,
    Middle,
}

/// What is wrong or unfinished in a map. Items are named by their numbers.
#[derive(Clone, Copy, Debug, PartialEq, Eq)]
pub enum Finding {
    /// No line has the vertex.
    VertexUnused(u32),
    /// No line has the side.
    SideUnused(u32),
    /// No side faces the sector.
    SectorUnused(u32),
    /// A part of the line's wall is visible, but the side has no texture for it.
    TextureMissing {
        line: u32,
        left: bool,
        texture: Texture,
    },
    /// The number of the sector's edges that leave the vertex differs from the number that reach it.
    SectorOpen {
        sector: u32,
        vertex: u32,
    },
    /// No thing is the first player's start.
    NoPlayerStart,
}

impl fmt::Display for Texture {
    ghost use Rattle.std.specs.Prelude.{Some};
    ghost use Rattle.map_checks.specs.Texts.{texture_text};

    ghost output = { λ t. Some (texture_text t) };

    fn fmt<W: fmt::Write>(&self, f: &mut fmt::Formatter<W>) -> fmt::Result {
        match self {
            Texture::Upper => f.write_str("upper"),
            Texture::Lower => f.write_str("lower"),
            Texture::Middle => f.write_str("middle"),
        }
    }
}

impl fmt::Display for Finding {
    ghost use Rattle.std.specs.Prelude.{Some};
    ghost use Rattle.map_checks.specs.Texts.{finding_text};

    ghost output = { λ x. Some (finding_text x) };

    fn fmt<W: fmt::Write>(&self, f: &mut fmt::Formatter<W>) -> fmt::Result {
        match self {
            Finding::VertexUnused(n) => write!(f, "vertex {n} unused"),
            Finding::SideUnused(n) => write!(f, "side {n} unused"),
            Finding::SectorUnused(n) => write!(f, "sector {n} unused"),
            Finding::TextureMissing {
                line,
                left,
                texture,
            } => {
                let side = if *left { "left" } else { "right" };
                write!(f, "line {line} {side} {texture} missing")
            }
            Finding::SectorOpen { sector, vertex } => {
                write!(f, "sector {sector} open at vertex {vertex}")
            }
            Finding::NoPlayerStart => write!(f, "no player start"),
        }
    }
}
