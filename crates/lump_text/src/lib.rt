//! Writes text: the one refusal of a call that only writes, and how text from outside is shown.
#![tactic(auto)]

mod error;
mod shown;

pub use error::WriterFailed;
pub use shown::{shown_name, write_shown, write_shown_lines};
