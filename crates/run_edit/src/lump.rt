//! The lumps that `hex` prints: those that are drawn, and those that a build makes.
ghost use Rattle.std.specs.Prelude.{◌≡◌};
ghost use Rattle.run_edit.specs.Queries.{kind_of_lump};

use map_tables::Kind;

/// A lump of a map as it is drawn; each variant is the lump of its name.
#[derive(Clone, Copy)]
pub enum Lump {
    Things,
    Linedefs,
    Sidedefs,
    Vertexes,
    Sectors,
}

impl Lump {
    /// The kind of item whose records are in the lump.
    pub fn kind(self) -> Kind
        ensures { result ≡ kind_of_lump self }
    {
        match self {
            Lump::Things => Kind::Thing,
            Lump::Linedefs => Kind::Line,
            Lump::Sidedefs => Kind::Side,
            Lump::Vertexes => Kind::Vertex,
            Lump::Sectors => Kind::Sector,
        }
    }
}

/// A lump that a build of a map makes; each variant is the lump of its name. `Added` has the vertices that the build
/// adds after the drawn ones.
#[derive(Clone, Copy)]
pub enum BuiltLump {
    Segs,
    Ssectors,
    Nodes,
    Reject,
    Blockmap,
    Added,
}
