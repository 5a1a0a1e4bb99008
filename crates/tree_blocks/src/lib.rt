//! The blocks of a map or of any lines: which lines touch which blocks, and the bytes of the lump BLOCKMAP.
#![tactic(auto)]

mod columns;
mod error;
mod fill;
mod gather;
mod grid;
mod laws;
mod layout;
mod line_ends;
mod lists;
mod lump;
mod touch;

pub use error::BlockmapError;
pub use laws::blocks_have_one_list;
pub use line_ends::{LineEnds, ends_over};
pub use lump::{blockmap, blockmap_over};
pub use touch::touches;
