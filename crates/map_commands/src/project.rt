//! The commands of a project of maps: those that draw its current map, and those that select or drop a map.

mod adding;
mod changes;
mod command;
mod decision;
mod grammar;
mod laws;
mod spelling;

pub use adding::add_by;
pub use changes::{apply, commit, ready};
pub use command::{ProjectCommand, Ready};
pub use decision::need_of;
pub use grammar::parse;
pub use laws::{
    accept_each_spelling, end_in_one_way, have_a_form_each, lead_to_one_project, spell_one_command,
};
pub use spelling::print;
