//! Draws scripts that people write, line by line, onto a project or onto maps in memory.
#![tactic(auto)]

mod changing;
mod drawing;
mod ending;
mod laws;
mod line;
mod opening;
mod reading;
mod shape_lines;
mod shaping;
mod stops;

pub use drawing::draw;
pub use laws::origins_draw_the_same_maps;
pub use stops::{drawings_hold_acknowledged, shapes_wait_together};
