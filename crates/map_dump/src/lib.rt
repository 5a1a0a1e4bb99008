//! The command lines that draw a project's maps again, or one map.
#![tactic(auto)]

mod dump;
mod error;
mod laws;
mod line;

pub use dump::{write_dump, write_map_dump};
pub use error::DumpError;
pub use laws::{
    are_cut_into_lines, draw_again, draw_maps_in_turn, draw_maps_over,
    map_dumps_are_cut_into_lines, tell_projects_apart,
};
