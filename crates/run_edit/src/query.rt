//! The queries: lines that ask something and change nothing.
ghost use Rattle.std.specs.Prelude.{◌≡◌, ◌++◌, find, bytes_eq};
ghost use Rattle.std.specs.Option.{option_map};
ghost use Rattle.run_edit.specs.Queries.{built_lines, drawn_lines, query_of};

use crate::lump::{BuiltLump, Lump};

/// A line that asks something and changes nothing.
#[derive(Clone, Copy)]
pub enum Query {
    /// What is wrong or unfinished in the current map.
    Check,
    /// How many items the current map has of each kind.
    Count,
    /// Which maps there are, and which is the current one.
    Maps,
    /// The counts of a build of all maps.
    Build,
    /// The bytes of a lump of the current map, as it is drawn.
    Hex(Lump),
    /// The bytes of a lump that a build of the current map makes.
    HexBuilt(BuiltLump),
}

// The query for a built lump, if the line is one.
fn read_built(line: &[u8]) -> Option<Query>
    ensures { result ≡ option_map (λ q. q.1) (find (λ q. bytes_eq line.now q.0) built_lines) }
{
    if line == b"hex SEGS".as_slice() {
        Some(Query::HexBuilt(BuiltLump::Segs))
    } else if line == b"hex SSECTORS".as_slice() {
        Some(Query::HexBuilt(BuiltLump::Ssectors))
    } else if line == b"hex NODES".as_slice() {
        Some(Query::HexBuilt(BuiltLump::Nodes))
    } else if line == b"hex REJECT".as_slice() {
        Some(Query::HexBuilt(BuiltLump::Reject))
    } else if line == b"hex BLOCKMAP".as_slice() {
        Some(Query::HexBuilt(BuiltLump::Blockmap))
    } else if line == b"hex ADDED".as_slice() {
        Some(Query::HexBuilt(BuiltLump::Added))
    } else {
        None
    }
}

// The query for a lump, if the line is one.
fn read_hex(line: &[u8]) -> Option<Query>
    ensures { result ≡ option_map (λ q. q.1)
        (find (λ q. bytes_eq line.now q.0) (drawn_lines ++ built_lines)) }
{
    if line == b"hex THINGS".as_slice() {
        Some(Query::Hex(Lump::Things))
    } else if line == b"hex LINEDEFS".as_slice() {
        Some(Query::Hex(Lump::Linedefs))
    } else if line == b"hex SIDEDEFS".as_slice() {
        Some(Query::Hex(Lump::Sidedefs))
    } else if line == b"hex VERTEXES".as_slice() {
        Some(Query::Hex(Lump::Vertexes))
    } else if line == b"hex SECTORS".as_slice() {
        Some(Query::Hex(Lump::Sectors))
    } else {
        read_built(line)
    }
}

/// The query, if the line is one byte for byte.
pub fn read_query(line: &[u8]) -> Option<Query>
    ensures { result ≡ option_map (λ q. q.1) (query_of line.now) }
{
    if line == b"check".as_slice() {
        Some(Query::Check)
    } else if line == b"count".as_slice() {
        Some(Query::Count)
    } else if line == b"maps".as_slice() {
        Some(Query::Maps)
    } else if line == b"build".as_slice() {
        Some(Query::Build)
    } else {
        read_hex(line)
    }
}
