//! Areas: a polygon becomes a sector, or a hole in one, and shares what is there.
#![tactic(auto)]

mod alone;
mod along;
mod area;
mod border;
mod crossing;
mod cut_lines;
mod cuts;
mod drawing;
mod error;
mod inside;
mod lists;
mod pillar;
mod pillar_walls;
mod polygon;
mod ranges;
mod round;
mod sharing;
mod splitting;
mod stops;
mod turning;
mod walls;
mod ways;

pub use area::{Area, area_commands};
pub use error::{AreaError, Part};
pub use pillar::{Pillar, pillar_commands};
