//! The shapes that a line of a script may draw: an area, a pillar, a door, an item with some fields changed. Reads
//! their words, and makes the commands of each over a map.
#![tactic(auto)]

mod changing;
mod door;
mod error;
mod fields;
mod head;
mod reading;
mod shape;

pub use error::ShapeError;
pub use fields::field_text;
pub use head::{ShapeHead, form_text, is_shape_line, shape_head_in};
pub use reading::read_shape;
pub use shape::{Change, Door, Shape, answer_of, commands_of};
