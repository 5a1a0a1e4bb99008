//! The words for tables, and the greatest number of an item of each.
ghost use Rattle.std.specs.Prelude.{◌≡◌, ◌≤◌, IfSome, bytes_eq};
ghost use Rattle.map_tables.specs.Ranges.{last_of};
ghost use Rattle.map_commands.specs.Spelling.{kind_of, kind_word};

use map_tables::Kind;

/// The greatest number of a vertex, a side, a line or a thing.
pub const LAST_ITEM: u16 = 32766;

/// The greatest number of a sector.
pub const LAST_SECTOR: u16 = 4095;

// All tables.
const KINDS: [Kind; 5] = [
    Kind::Vertex,
    Kind::Sector,
    Kind::Side,
    Kind::Line,
    Kind::Thing,
];

/// The word for a table.
pub fn kind_text(kind: Kind) -> &'static str
    ensures { result.now ≡ kind_word kind }
{
    match kind {
        Kind::Vertex => "vertex",
        Kind::Sector => "sector",
        Kind::Side => "side",
        Kind::Line => "line",
        Kind::Thing => "thing",
    }
}

// Whether the word names this table.
fn is_kind(word: &[u8], kind: Kind) -> bool
    ensures { result ≡ bytes_eq word.now (kind_word kind) }
{
    word == kind_text(kind).as_bytes()
}

/// The table that a word names, if it names one.
pub fn kind_in(word: &[u8]) -> Option<Kind>
    ensures value { result ≡ kind_of word.now }
    ensures text { IfSome result (λ k. kind_word k ≡ word.now) }
{
    KINDS.iter().copied().find(|kind| is_kind(word, *kind))
}

/// The greatest number of an item of a table.
pub fn last_number(kind: Kind) -> u16
    ensures value { result ≡ last_of kind }
    ensures range { result ≤ 32767 }
{
    match kind {
        Kind::Sector => LAST_SECTOR,
        _ => LAST_ITEM,
    }
}
