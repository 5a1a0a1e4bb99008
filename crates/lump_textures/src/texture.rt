//! A texture of a WAD.
use lump_records::Name8;

/// A texture: its name, in capitals and padded with NUL, how many rows it has, and whether more than one of its patches
/// covers some column of it.
#[derive(Clone, Copy, Debug, PartialEq, Eq)]
pub struct Texture {
    pub name: Name8,
    pub height: i16,
    pub is_patched: bool,
}
