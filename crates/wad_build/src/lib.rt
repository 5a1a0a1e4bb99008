//! The PWAD of a map, the audit of a level, and the REJECT of a map.
#![tactic(auto)]

mod auditing;
mod blocks;
mod build;
mod children;
mod counted;
mod counts;
mod drawn;
mod endings;
mod error;
mod fault;
mod laws;
mod levels;
mod lists;
mod projects;
mod ranges;
mod sizes;
mod subs;
mod visibility;

pub use auditing::audit;
pub use build::{build_wad, built_levels_are_sound};
pub use counted::{BuildCounts, BuiltWad};
pub use error::{BuildError, Unbuilt, Unwritten};
pub use fault::Fault;
pub use laws::{maps_have_one_build, sound_builds_read_back};
pub use projects::{build_all, build_counted, write_all};
pub use visibility::reject;
pub use wad_levels::{Level, ReadError, level_names, read_level};
