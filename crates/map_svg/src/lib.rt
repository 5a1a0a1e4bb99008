//! Elements of an SVG picture that need no map: texts, places and vectors, the tree of a level, and marks.
#![tactic(auto)]

mod boxes;
mod marks;
mod nodes;
mod overlay;
mod places;
mod subsectors;
mod text;

pub use boxes::box_round;
pub use marks::{Mark, MarkPlace};
pub use overlay::{Overlay, write_overlay};
pub use places::{Shift, Spot, middle_of, right_of, spot_of};
pub use text::{write_bytes, write_path};
