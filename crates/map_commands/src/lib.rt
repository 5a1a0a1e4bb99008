//! The commands that draw the maps of a project: how their lines are read and printed, and how each changes the
//! project. The modules beside this file deal with the commands of the current map, `project` deals with all commands.
#![tactic(auto)]

mod additions;
mod bounded;
mod command;
mod deed;
mod edits;
mod error;
mod forms;
mod grammar;
mod kinds;
mod layout;
mod names;
mod need;
mod numbers;
mod project;
mod room;
mod split;
mod text;
mod unread;

pub use bounded::number_in;
pub use command::{Command, LineSplit, RoomPlan, can_do};
pub use deed::Deed;
pub use error::CommandError;
pub use grammar::{
    DEEDS, FORMS, Head, head_answer, head_in, head_layout, head_numbers, head_puts_vertex,
    head_text,
};
pub use kinds::{LAST_ITEM, LAST_SECTOR, kind_in, last_number};
pub use layout::Layout;
pub use need::growth_of;
pub use project::{
    ProjectCommand, Ready, accept_each_spelling, add_by, apply, commit, end_in_one_way,
    have_a_form_each, lead_to_one_project, need_of, parse, print, ready, spell_one_command,
};
pub use unread::UnreadWords;
