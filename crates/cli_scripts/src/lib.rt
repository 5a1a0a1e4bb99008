//! Reads scripts with the files that they include, draws them, and tells which of their lines are refused.
#![tactic(auto)]

mod draw_request;
mod included_file;
mod including;
mod script_file;
mod script_maps;
mod script_origin;
mod told_stops;

pub use draw_request::{Script, draw, try_over};
pub use including::{WholeScript, lines_alone_stay};
pub use script_file::{is_file, read_at, script_path, try_file};
pub use script_maps::draw_maps;
pub use script_origin::ScriptOrigin;
