//! An entry of a WAD's directory.
use lump_records::Name8;

/// An entry of the directory: its lump's offset and length in bytes, and its name.
#[derive(Clone, Copy)]
pub struct Entry {
    pub at: u32,
    pub size: u32,
    pub name: Name8,
}
