//! The levels of any WAD built anew, each from its own lines.
#![tactic(auto)]

mod cause;
mod error;
mod front;
mod held;
mod kept;
mod laws;
mod levels;
mod made;
mod parts;
mod remade;
mod sizes;
mod whole;

pub use cause::Cause;
pub use error::RebuildError;
pub use held::{Held, entry_in, is_drawn_name};
pub use kept::KeptFault;
pub use laws::{
    built_levels_are_drawn, levels_rest_on_their_lumps, rebuilt_levels_read_back,
    rebuilt_lumps_are_the_builds, rebuilt_maps_are_built,
};
pub use levels::{Fate, RebuiltLevel};
pub use made::MadeLumps;
pub use remade::remake;
pub use whole::{AcceptedWad, RebuiltWad, list_lumps, rebuild_levels, rebuild_wad};
