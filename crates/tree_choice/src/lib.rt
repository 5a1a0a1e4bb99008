//! The choice of a partition: the separating piece of an unused line that costs least.
#![tactic(auto)]

mod block_boxes;
mod bound;
mod box_place;
mod candidate;
mod choice;
mod choosing;
mod corner_columns;
mod counts;
mod end_boxes;
mod ends;
mod exchange;
mod floors;
mod losses;
mod map_choice;
mod margins;
mod sorting;
mod straight;
mod strips;
mod walk;
mod whole_lines;

pub use block_boxes::blocks_of;
pub use candidate::Candidate;
pub use choice::Choice;
pub use choosing::{choose_above, choose_in_boxes, choose_ordered};
pub use ends::{EndedList, EndedPieces};
pub use exchange::floors_of_part;
pub use floors::Floor;
pub use map_choice::{choose, separates};
pub use margins::{Margins, Normal};
pub use straight::StraightLines;
pub use strips::{by_place, numbers_by_place};
