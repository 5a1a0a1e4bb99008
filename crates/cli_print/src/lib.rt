//! Writes findings and warnings of maps in memory and of the levels of WADs.
#![tactic(auto)]

mod called;
mod choosing;
mod findings;
mod items;
mod laws;
mod level_maps;
mod level_remarks;
mod limits;
mod lumps_read;
mod origin;
mod reading;
mod remarks;
mod shown_names;
mod told;
mod wad_graphics;
mod wad_reader;
mod wanted;

pub use called::map_called;
pub use choosing::Choice;
pub use findings::tell_findings;
pub use laws::{findings_alone, remarks_alone};
pub use level_maps::{map_of_level, map_or_refusal, tell_level_findings};
pub use level_remarks::tell_levels_beside;
pub use limits::TURNS;
pub use lumps_read::LumpsRead;
pub use origin::{NoOrigin, Origin};
pub use reading::{read_script, read_wad};
pub use remarks::tell_beside;
pub use shown_names::write_shown;
pub use wad_reader::WadReader;
pub use wanted::wanted_level;
