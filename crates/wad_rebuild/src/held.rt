//! Which lumps of a WAD stand in memory.
ghost use Rattle.std.specs.Prelude.{◌≡◌, ◌+◌, ◌*◌, ◌≤◌, length, position};
ghost use Rattle.lump_records.specs.Names.{name_text};
ghost use Rattle.wad_file.specs.Fields.{same_bytes};
ghost use Rattle.wad_levels.specs.Levels.{lump_names};
ghost use Rattle.wad_rebuild.specs.Held.{entry_in, is_drawn_name};

use wad_file::{Entry, long_at, name_at};
use wad_levels::LUMP_NAMES;

/// Which lumps of a WAD stand in memory. The others are empty there, and stand in the file that the WAD is of.
#[derive(Clone, Copy)]
pub enum Held<'a> {
    /// All of them.
    Whole,
    /// Those with the name of a lump of which levels are built. The bytes are the directory of the file.
    Drawn(&'a [u8]),
}

// The number of the text among the names of a level's lumps, if it is one.
fn number_of(text: &[u8]) -> Option<usize>
    ensures { result ≡ position (λ name. same_bytes (name_text name) text.now) lump_names }
{
    LUMP_NAMES.iter().position(|name| name.text() == text)
}

/// Whether the text is the name of a lump of which levels are built: of what was drawn, or REJECT.
pub fn is_drawn_name(text: &[u8]) -> bool
    ensures { result ≡ is_drawn_name text.now }
{
    match number_of(text) {
        Some(n) => n < 4 || n == 7 || n == 8,
        None => false,
    }
}

/// The k-th entry of a directory that begins with the bytes.
pub fn entry_in(directory: &[u8], k: u32) -> Entry
    requires { 16 * k + 16 ≤ length directory.now }
    ensures { result ≡ entry_in directory.now k }
{
    let at = 16 * k as usize;
    Entry {
        at: long_at(directory, at),
        size: long_at(directory, at + 4),
        name: name_at(directory, at + 8),
    }
}
