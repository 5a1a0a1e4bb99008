//! Draws the pictures of maps in memory and of the levels of WADs.
#![tactic(auto)]

mod laid_over;
mod level_picture;
mod level_tree;
mod marking;
mod pictures;

pub use laid_over::{Layers, layers_of};
pub use level_picture::draw_level;
pub use pictures::{Wanted, draw};
