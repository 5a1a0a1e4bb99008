//! The command lines that draw maps and levels, as `dump` writes them, and what it reports of levels.
#![tactic(auto)]

mod asked;
mod dump_lines;
mod laws;
mod level_dumps;

pub use dump_lines::{tell_lines, tell_lines_of};
pub use laws::draw_dumped_levels;
pub use level_dumps::tell_level_dumps;
