//! A picture of a map, as SVG 1.1.
#![tactic(auto)]

mod borders;
mod fills;
mod floors;
mod groups;
mod hints;
mod items;
mod labels;
mod laws;
mod legend;
mod lines;
mod longest;
mod numbers;
mod options;
mod parts;
mod picture;
mod placing;
mod sheet;
mod style;
mod things;
mod vertices;
mod view;

pub use floors::Heights;
pub use groups::Group;
pub use labels::{Label, Numbered};
pub use laws::no_two_numbers_meet;
pub use longest::longest_line;
pub use options::{PictureError, PictureOptions};
pub use parts::Part;
pub use picture::write_picture;
pub use placing::{NumberBox, Placed, Room};
pub use style::{SHEET_STYLE, STYLE};
