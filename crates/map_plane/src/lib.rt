//! Exact plane geometry over the lines of a map.
#![tactic(auto)]

mod band;
mod bands;
mod crossed;
mod dividing;
mod east;
mod found;
mod laws;
mod meeting;
mod outside;
mod places;
mod polygon;
mod squares;

pub use band::Band;
pub use bands::{FiledLines, band_of, file_each, file_lines, is_in_no_sector, sector_here};
pub use crossed::crossed_lines;
pub use east::{nearest, sector_at, sector_shown};
pub use found::{line_at, thing_at, vertex_at};
pub use laws::tell_crossings;
pub use meeting::{boxes_meet, crosses, ends_at, is_at, is_on, side_of, spans_meet};
pub use places::{PlacedLine, placed_lines};
pub use polygon::{first_clash, is_inside, is_on_any, polygon_area};
pub use squares::{cuts_square, squares_overlap};
