//! A project file: its maps, with each accepted command on the disk before it is acknowledged.
#![tactic(auto)]

mod change;
mod error;
mod geometry;
mod header;
mod law;
mod opening;
mod places;
mod project;
mod reading;
mod sessions;

pub use error::ProjectError;
pub use geometry::Geometry;
pub use header::lengths_in;
pub use law::{exclude_one_another, stand_for_one_map};
pub use project::{Project, ProjectGroup, copy_of};
pub use reading::{Refused, read_maps};
pub use sessions::{applies, checkpoints, creates, hold_each_acknowledged, opens, puts};
