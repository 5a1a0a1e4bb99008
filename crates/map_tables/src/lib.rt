//! The tables of a map.
#![tactic(auto)]

mod edit;
mod error;
mod form;
mod kind;
mod laws;
mod lengths;
mod map;
mod maps;
mod ranges;

pub use edit::{Edit, Item, Need};
pub use error::MapError;
pub use kind::Kind;
pub use laws::{keep_the_length_of_one_map, list_faults_by_rising_code, tell_projects_apart};
pub use lump_records::{NO_SIDE, is_marker, is_name, squared_distance};
pub use map::Map;
pub use maps::{MAP_LIMIT, Maps};
