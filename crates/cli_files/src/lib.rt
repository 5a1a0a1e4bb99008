//! Locks project files against other programs, and makes new files whole or not at all.
#![tactic(auto)]

mod cause;
mod content;
mod gapless;
mod hold;
mod making;
mod name;
mod new_file;
mod noted;
mod read_file;
mod replaceable;
mod stamp;
mod target;

pub use cause::{Cause, write_cause, write_reason};
pub use content::{Content, content_in, content_within};
pub use gapless::GaplessFile;
pub use hold::{Access, Hold, open_held};
pub use name::beside;
pub use new_file::{NewFile, Noted, open_new, open_new_of};
pub use noted::NotedFile;
pub use read_file::{ReadFile, open_to_read};
pub use replaceable::Form;
