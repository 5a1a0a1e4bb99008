//! The five tables of a map.
use lump_records::{ITEM_LIMIT, SECTOR_LIMIT};

/// The tables of a map.
#[derive(Clone, Copy, Debug, PartialEq, Eq)]
pub enum Kind {
    Vertex,
    Sector,
    Side,
    Line,
    Thing,
}

impl Kind {
    ghost use Rattle.std.specs.Prelude.{◌≡◌};
    ghost use Rattle.map_tables.specs.Tables.{table_limit};

    /// How many items of the kind a map may have.
    pub fn limit(self) -> u32
        ensures { result ≡ table_limit self }
    {
        match self {
            Kind::Sector => SECTOR_LIMIT as u32,
            _ => ITEM_LIMIT as u32,
        }
    }
}
