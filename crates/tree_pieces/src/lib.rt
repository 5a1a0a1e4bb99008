//! Exact geometry of a map's lines: points, offsets and angles, and the laws of the pieces into which a tree divides
//! them.
#![tactic(auto)]

mod angle;
mod distance;
mod dividing;
mod edge;
mod error;
mod first;
mod frac;
mod laws;
mod line_angles;
mod line_fault;
mod line_list;
mod line_points;
mod lines;
mod map_lines;
mod numbered;
mod piece;
mod signs;
mod values;

pub use angle::{angle16, reversed_angle};
pub use distance::offset;
pub use dividing::{divide, divide_in, divide_on, lies_along, place_on, side_of};
pub use edge::{Edge, Facing};
pub use error::SegsError;
pub use first::{pieces_in, pieces_of};
pub use frac::Frac;
pub use laws::{
    first_list_covers_each_side, lists_have_one_tree, parts_keep_their_piece, pieces_cover_a_step,
    pieces_go_with_their_box, points_rise, points_round_to_nearest, trees_keep_their_list,
};
pub use line_angles::angles_in;
pub use line_fault::{LineFault, LinesError};
pub use line_list::edges_in;
pub use line_points::point;
pub use lines::Lines;
pub use map_lines::{edges_of, lines_are_drawn};
pub use numbered::Points;
pub use piece::{Ends, Parts, Piece, Place};
pub use values::{dot_of, ray_of, value_at};
