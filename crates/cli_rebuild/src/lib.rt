//! The request `rebuild`: the levels of a WAD built anew, into a file.
#![tactic(auto)]

mod file_source;
mod held;
mod making;
mod notes;
mod request;
mod telling;

pub use request::rebuild;
