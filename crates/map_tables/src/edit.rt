//! Changes of one item of a map, as data.
use crate::kind::Kind;
use lump_records::{Line, Sector, Side, Thing, Vertex};

/// How many items of each kind are to be added.
#[derive(Clone, Copy)]
pub struct Need {
    pub vertices: u32,
    pub sectors: u32,
    pub sides: u32,
    pub lines: u32,
    pub things: u32,
}

/// An item of a map.
#[derive(Clone, Copy)]
pub enum Item {
    Vertex(Vertex),
    Sector(Sector),
    Side(Side),
    Line(Line),
    Thing(Thing),
}

/// A change of one item of a map.
#[derive(Clone, Copy)]
pub enum Edit {
    /// The item becomes the last of its table.
    Add(Item),
    /// The item replaces the one with this number. A vertex moves, and the ends of its lines with it.
    Set(u16, Item),
    /// The item of this table with this number is removed. Each greater number is lowered by one, where another item
    /// names it too.
    Drop(Kind, u16),
}
