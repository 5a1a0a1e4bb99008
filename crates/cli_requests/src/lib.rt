//! Does what requests ask for over a disk that holds a project, and over a reader that gives a WAD.
#![tactic(auto)]

mod build_request;
mod dump_request;
mod examining;
mod lint_request;
mod listing;
mod over_disk;
mod over_wad;
mod picture_request;
mod salvage_request;
mod sessions;
mod typing;

pub use build_request::{build, build_at};
pub use dump_request::{dump, dump_wad};
pub use examining::examine;
pub use lint_request::{lint, lint_wad};
pub use listing::list_levels;
pub use over_disk::{check, create, edit};
pub use over_wad::check_wad;
pub use picture_request::{picture, picture_wad};
pub use salvage_request::salvage_lines;
pub use sessions::{edit_typed, scratch_typed};
