//! The levels of a WAD, and the level that has a name.
#![tactic(auto)]

mod called;
mod drawn;
mod entries;
mod error;
mod graphics;
mod hindrance;
mod laws;
mod level;
mod listing;
mod lumps;
mod named_lumps;
mod needs;
mod patch_widths;
mod patches;
mod texture_lump;

pub use called::{is_asked_of, last_called, last_of_each};
pub use drawn::{Drawn, level_lump, read_drawn, read_lists};
pub use entries::{LevelEntries, LevelForm, level_name, levels_in};
pub use error::ReadError;
pub use graphics::{Graphics, graphics_in};
pub use hindrance::{Hindrance, LineNeed};
pub use laws::others_hinder_the_rest;
pub use level::{Level, read_level};
pub use listing::{level_names, read_wad};
pub use lumps::LUMP_NAMES;
pub use needs::{has_no_length, is_drawable, other_hindrance};
