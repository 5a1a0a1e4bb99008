//! Does what the program's arguments ask for.
#![tactic(auto)]

mod names_beside;
mod over_file;
mod over_input;
mod over_script;
mod over_source;
mod program;
mod typed;

pub use program::perform;
pub use typed::{perform_typed, takes_lines};
